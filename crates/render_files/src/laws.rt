// Laws on the definitions of the crates below, and on the two forms of a label's location, each as
// the contract of a function that does nothing.
ghost use Rattle.std.specs.Prelude.{◌≡◌, None, map};
ghost use Rattle.std.specs.List.{AllZip};
ghost use Rattle.render_files.specs.Given.{given_report};
ghost use Rattle.render_files.specs.Refusal.{refusal_of};
ghost use Rattle.render_files.specs.Shown.{view_of};
ghost use Rattle.render_files.specs.Ties.{AgreeOnBreaks, AgreeOnLines, AgreeOnPlaces};
ghost use Rattle.render_files.specs.Ties.{AllTellOneRow, HasPairedCrs, IsByBytes};

use crate::places::FileReport;
use codespan::Files;

/// The law that `oxc_windows` and `source_location` see the same breaks. It does nothing; a caller
/// calls it to use the law.
pub fn breaks_are_the_same(_text: &[u8])
    ensures { AgreeOnBreaks _text.now }
{}

/// The law that a window and a line index give each offset the same row, and the same number of
/// bytes from the row's start. It does nothing; a caller calls it to use the law.
pub fn places_are_the_same(_text: &[u8])
    ensures { AgreeOnPlaces _text.now }
{}

/// The law that three calls give the same row for an offset, counted from 0 or from 1: a line
/// index; the `Info` of a diagnostic that points there; and a scanner without rows of context that
/// reads an empty span there. It does nothing; a caller calls it to use the law.
pub fn all_tell_one_row(_text: &[u8], _offset: usize)
    ensures { AllTellOneRow _text.now _offset }
{}

/// The law that, if CR occurs only before LF, `codespan`'s lines (which end at LF) start where rows
/// (which end at LF, CR and CRLF) start. It does nothing; a caller calls it to use the law.
pub fn line_starts_are_the_same(_text: &[u8])
    requires { HasPairedCrs _text.now }
    ensures { AgreeOnLines _text.now }
{}

/// The law that reports without errors show the same if locations by row and column are replaced by
/// their offsets. It does nothing; a caller calls it to use the law.
pub fn offsets_show_the_same(
    _files: &Files<String>,
    _reports: &[FileReport],
    _by_bytes: &[FileReport],
)
    requires accepted { refusal_of _files.now (map given_report _reports.now) ≡ None }
    requires replaced { AllZip (IsByBytes _files.now) (map given_report _reports.now)
        (map given_report _by_bytes.now) }
    ensures accepted { refusal_of _files.now (map given_report _by_bytes.now) ≡ None }
    ensures same { map (view_of _files.now) (map given_report _by_bytes.now)
        ≡ map (view_of _files.now) (map given_report _reports.now) }
{}
