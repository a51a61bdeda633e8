//! Where a finding says that it is.
ghost use Rattle.std.specs.Prelude.{◌≡◌, option_map, map};
ghost use Rattle.json_forms.specs.Finding.{beside_view, finding_view};
ghost use Rattle.json_reports.specs.Marks.{file_of as file_there, first_place as place_first};
ghost use Rattle.json_reports.specs.Marks.{mark_of as mark_there, mark_view, name_of as name_there};
ghost use Rattle.json_reports.specs.Marks.{label_beside as beside_label};
ghost use Rattle.json_reports.specs.Marks.{place_beside as beside_place};

use json_forms::{Beside, Finding, Place, SideKind};

/// A place, and what is said there.
#[derive(Clone, Copy)]
pub(crate) struct Mark<'v> {
    pub place: Place<'v>,
    pub text: Option<&'v str>,
}

fn place_beside<'v, 't>(side: &Beside<'v, 't>) -> Option<Mark<'v>>
    ensures { option_map mark_view result ≡ beside_place (beside_view side.now) }
{
    match side {
        Beside::Said {
            kind: SideKind::Place,
            place,
            text,
            ..
        } => Some(Mark {
            place: *place,
            text: *text,
        }),
        _ => None,
    }
}

/// The place of a side that is a label, with its text.
pub(crate) fn label_beside<'v, 't>(side: &Beside<'v, 't>) -> Option<Mark<'v>>
    ensures { option_map mark_view result ≡ beside_label (beside_view side.now) }
{
    match side {
        Beside::Said {
            kind: SideKind::Label,
            place,
            text,
            ..
        } => Some(Mark {
            place: *place,
            text: *text,
        }),
        _ => None,
    }
}

fn first_place<'v, 't>(sides: &[Beside<'v, 't>]) -> Option<Mark<'v>>
    ensures { option_map mark_view result ≡ place_first (map beside_view sides.now) }
{
    for side in sides {
        if let Some(mark) = place_beside(side) {
            return Some(mark);
        }
    }
    None
}

/// The first place beside a finding, or the finding's own.
pub(crate) fn mark_of<'v, 't>(finding: &Finding<'v, 't>) -> Mark<'v>
    ensures { mark_view result ≡ mark_there (finding_view finding.now) }
{
    match first_place(&finding.sides) {
        Some(mark) => mark,
        None => Mark {
            place: finding.place,
            text: None,
        },
    }
}

/// The name of a finding's file, if it has one.
pub(crate) fn file_of<'v, 't>(finding: &Finding<'v, 't>) -> Option<&'v str>
    ensures { option_map (λ name. name.now) result ≡ file_there (finding_view finding.now) }
{
    match mark_of(finding).place.file {
        Some(name) => Some(name),
        None => finding.place.file,
    }
}

/// The name of a finding's file; empty if it has none.
pub(crate) fn name_of<'v, 't>(finding: &Finding<'v, 't>) -> &'v str
    ensures { result.now ≡ name_there (finding_view finding.now) }
{
    match file_of(finding) {
        Some(name) => name,
        None => "",
    }
}
