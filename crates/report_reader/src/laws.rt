//! The laws on drawing and reading back.
ghost use Rattle.std.specs.Prelude.{◌≡◌, ◌<◌, ◌^◌, None, true, IfSome, length, map};
ghost use Rattle.std.specs.Option.{option_copied};
ghost use Rattle.std.specs.Str.{IsUtf8};
ghost use Rattle.oxc_handlers.specs.Report.{view_parts};
ghost use Rattle.oxc_protocol.specs.SourceViews.{ref_views};
ghost use Rattle.report_reader.specs.Cells.{AreCells};
ghost use Rattle.report_reader.specs.ReadsBack.{ReadsBack};
ghost use Rattle.report_reader.specs.Seen.{mark_model};
ghost use Rattle.report_reader.specs.WellFormed.{are_marks};

use crate::SeenMark;
use oxc_handlers::DiagnosticView;
use oxc_plan::TabWidth;
use oxc_protocol::SourceRef;

/// The law that drawings are read back, for every width and tab width. The view can be drawn; its
/// filled title, its name and its label texts have one line each; it has no help, no note and no
/// bars beside its rows; and its marks are at least one column apart. Then its drawing in the plain
/// theme is exactly the text that shows what its plan says. That is well formed, so
/// [`read_report`](crate::read_report) returns it. The calls in the body only state what the
/// argument types guarantee.
pub fn drawings_read_back(_width: usize, tabs: TabWidth, view: &DiagnosticView<'_>)
    ensures { ReadsBack _width tabs (view_parts view.now) }
{
    is_text(view.message);
    code_is_text(view.code);
    source_fits(&view.source);
    let _stop = tabs.get();
}

/// The law of the lines under a row, cell by cell, counted from 0, for marks in order with a space
/// between them. The mark line has each mark's carets in its cells, its marker where its text
/// hangs, and spaces elsewhere. The line of a text that hangs after them has, up to its own cell, a
/// bar where each of their texts hangs, and spaces elsewhere. It does nothing; a caller calls it to
/// use the law.
pub fn marks_by_cells(_marks: &[SeenMark])
    ensures { are_marks None (map mark_model _marks.now) ≡ true
        → AreCells (map mark_model _marks.now) }
{}

/// A `&str` is UTF-8.
fn is_text(_text: &str)
    ensures { IsUtf8 _text.now }
{}

/// A code is UTF-8.
fn code_is_text(code: Option<&str>)
    ensures { IfSome (option_copied code.entry) IsUtf8 }
{
    if let Some(code) = code {
        is_text(code);
    }
}

/// A source has fewer than 2^32 bytes.
fn source_fits(source: &Option<SourceRef<'_>>)
    ensures { IfSome (ref_views source.now) (λ source. length source.bytes < 2 ^ 32) }
{
    if let Some(source) = source {
        let _bytes = source.bytes();
    }
}
