//! Reports read back, and shown again.
ghost use Rattle.std.specs.Prelude.{◌≡◌, ◌↔◌, IfOk, IfSome, IsTrue, Some, option_map};
ghost use Rattle.oxc_handlers.specs.Report.{plan_of, view_parts};
ghost use Rattle.report_reader.specs.Reading.{IsRead};
ghost use Rattle.report_reader.specs.ReadsBack.{IsReadable};
ghost use Rattle.report_reader.specs.Seen.{Report, report_model};
ghost use Rattle.report_reader.specs.SeenOf.{seen_of};

use crate::of_oxc_handlers::is_text;
use oxc_handlers::{DiagnosticView, GraphicalReportHandler, GraphicalTheme, RenderError};
use oxc_plan::TabWidth;
use oxc_protocol::Severity;
use report_reader::{
    Seen, SeenHead, SeenMark, SeenRow, drawings_read_back, read_report, show_report,
};
use std::alloc::{AllocError, Global};

/// A label with a text under the second of three rows.
const LABELED: &str =
    "\n  x Oops\n   ,-[a.js:2:1]\n 1 | foo\n 2 | bar\n   : ^|^\n   :  `-- here\n 3 | baz\n   `----\n";

/// The same without its last byte.
const CUT_OFF: &str =
    "\n  x Oops\n   ,-[a.js:2:1]\n 1 | foo\n 2 | bar\n   : ^|^\n   :  `-- here\n 3 | baz\n   `----";

/// A label over three rows, with its bar and its text.
const WITH_A_GUTTER: &str =
    "\n  x m\n   ,-[b.js:1:3]\n 1 | ,-> a {\n 2 | |     b\n 3 | |-> }\n   : `---- block\n   `----\n";

fn is_mark(mark: &SeenMark, start: usize, end: usize, text: &str) -> bool {
    let has_text = match &mark.text {
        Some(found) => found.as_str() == text,
        None => false,
    };
    mark.start == start && mark.end == end && has_text && !mark.arrow
}

fn is_row(row: &SeenRow, number: usize, text: &str) -> bool {
    row.number == number && row.text.as_str() == text
}

fn is_head(head: &SeenHead, file: &str, line: usize, first: usize) -> bool {
    match head {
        SeenHead::Named { name, row, column } => {
            name.as_str() == file && *row == line && *column == first
        }
        _ => false,
    }
}

fn are_rows(rows: &[SeenRow]) -> bool {
    match rows {
        [first, second, third] => {
            let marked = match second.marks.as_slice() {
                [mark] => is_mark(mark, 0, 3, "here"),
                _ => false,
            };
            is_row(first, 1, "foo")
                && is_row(second, 2, "bar")
                && is_row(third, 3, "baz")
                && first.marks.is_empty()
                && third.marks.is_empty()
                && marked
        }
        _ => false,
    }
}

/// What [`LABELED`] says.
fn is_labeled(seen: &Seen) -> bool {
    match seen.snippets.as_slice() {
        [snippet] => {
            seen.severity == Severity::Error
                && seen.title.as_str() == "Oops"
                && is_head(&snippet.head, "a.js", 2, 1)
                && are_rows(&snippet.rows)
        }
        _ => false,
    }
}

/// Whether [`LABELED`] is read, and shown again as it was.
fn is_read_and_shown(alloc: Global) -> bool {
    let Ok(Some(seen)) = read_report(alloc, LABELED) else {
        return false;
    };
    is_labeled(&seen) && is_text(show_report(alloc, &seen), LABELED)
}

#[test]
fn a_label_is_read_and_shown(rt: HostRuntime) {
    assert!(rt; is_read_and_shown(rt.alloc()));
}

/// The label of [`WITH_A_GUTTER`] without its text.
const WITH_BARS_ALONE: &str =
    "\n  x m\n   ,-[b.js:1:3]\n 1 | ,-> a {\n 2 | |     b\n 3 | `-> }\n   `----\n";

/// A title with a help, and one with a note.
const WITH_HELP: &str = "\n  x m\n  help: h\n";

const WITH_A_NOTE: &str = "\n  x m\n  note: n\n";

/// Texts, and whether they are read.
const READ: [(&str, bool); 5] = [
    (WITH_A_GUTTER, false),
    (CUT_OFF, false),
    (WITH_HELP, false),
    (WITH_A_NOTE, false),
    (WITH_BARS_ALONE, true),
];

/// Whether a text is read, or not, as wanted.
fn is_read(alloc: Global, text: &str, wanted: bool) -> bool {
    match read_report(alloc, text) {
        Ok(seen) => seen.is_some() == wanted,
        Err(_) => false,
    }
}

#[test]
fn gutters_footers_and_cut_texts_are_refused(rt: HostRuntime) {
    for (text, wanted) in &READ {
        assert!(rt; is_read(rt.alloc(), text, *wanted), "{text}");
    }
}

/// Whether contracts see the same of two values: `==` looks at every part.
fn are_same(one: &Seen, other: &Seen) -> bool
    ensures { IsTrue result ↔ (report_model one.now ≡ report_model other.now) }
{
    one == other
}

/// Whether two drawn reports say the same, in every part. None where one of the texts is no drawn
/// report.
fn say_the_same(alloc: Global, one: &str, other: &str) -> Result<Option<bool>, AllocError>
    ensures { IfOk result
        (λ answer. IfSome answer (λ same. (a b : Report) × IsRead one.now a × IsRead other.now b
        × (IsTrue same ↔ (a ≡ b)))) }
{
    let (Some(first), Some(second)) = (read_report(alloc, one)?, read_report(alloc, other)?) else {
        return Ok(None);
    };
    Ok(Some(are_same(&first, &second)))
}

/// [`LABELED`] with another text at the label.
const OTHERWISE_LABELED: &str =
    "\n  x Oops\n   ,-[a.js:2:1]\n 1 | foo\n 2 | bar\n   : ^|^\n   :  `-- there\n 3 | baz\n   `----\n";

/// Texts, and whether they say the same as [`LABELED`].
const COMPARED: [(&str, Option<bool>); 3] = [
    (LABELED, Some(true)),
    (OTHERWISE_LABELED, Some(false)),
    (CUT_OFF, None),
];

/// Whether a text says the same as [`LABELED`], or not, or is no report, as wanted.
fn is_told(alloc: Global, other: &str, wanted: Option<bool>) -> bool {
    match say_the_same(alloc, LABELED, other) {
        Ok(same) => same == wanted,
        Err(_) => false,
    }
}

#[test]
fn reports_are_compared_in_every_part(rt: HostRuntime) {
    for (other, same) in &COMPARED {
        assert!(rt;
            say_the_same(rt.alloc(), LABELED, other) == Ok(*same),
            "{other}"
        );
    }
}

/// Draws a view in the plain theme, and reads the drawing back.
fn drawn_and_read(
    alloc: Global,
    width: usize,
    tabs: TabWidth,
    view: &DiagnosticView<'_>,
) -> Result<Option<Seen>, RenderError>
    ensures { IfOk result (λ seen. IsReadable width (plan_of tabs (view_parts view.now))
        → option_map report_model seen ≡ Some (seen_of (plan_of tabs (view_parts view.now)))) }
{
    let plain = GraphicalReportHandler::new_themed(GraphicalTheme::none());
    let handler = plain.with_width(width).with_tabs(tabs);
    let mut scanner = None;
    let text = handler.render_view(alloc, view, &mut scanner)?;
    drawings_read_back(width, tabs, view);
    Ok(read_report(alloc, text.as_str())?)
}
