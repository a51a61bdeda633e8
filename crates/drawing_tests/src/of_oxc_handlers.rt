// Drawn reports by example, and that memory suffices for them. What is expected was worked out by
// hand.
ghost use Rattle.std.specs.Prelude.{◌≡◌, ◌<◌, ◌+◌, ◌^◌, IfOk, length};
ghost use Rattle.std.specs.Prelude.{string_bytes};
ghost use Rattle.oxc_handlers.specs.Refusals.{IsJudged};
ghost use Rattle.oxc_handlers.specs.Report.{drawn, plan_of, view_parts};
ghost use Rattle.oxc_handlers.specs.Scanners.{ReadsRoundIfThere};
ghost use Rattle.oxc_handlers.specs.Theme.{unicode_theme};

use crate::callers::all_within;
use oxc_handlers::{DiagnosticView, GraphicalReportHandler, GraphicalTheme, RenderError};
use oxc_plan::TabWidth;
use oxc_protocol::{LabeledSpan, SourceRef};
use oxc_windows::SpanScanner;
use std::alloc::{AllocError, Global};

/// A label with a text.
fn label(alloc: Global, start: u32, len: u32, text: &str) -> Result<LabeledSpan, AllocError>
    requires { start + len < 2 ^ 32 }
{
    Ok(LabeledSpan::new(Some(String::from_str(alloc, text)?), start, len))
}

fn plain() -> GraphicalReportHandler {
    GraphicalReportHandler::new_themed(GraphicalTheme::none()).with_width(80)
}

/// A diagnostic for a terminal of 120 columns.
fn for_terminal(alloc: Global, view: &DiagnosticView<'_>) -> Result<String, RenderError>
    ensures text { IfOk result (λ text. string_bytes text
        ≡ drawn unicode_theme 120 (plan_of 4 (view_parts view.now))) }
    ensures cause { IsJudged (view_parts view.now) result }
{
    let handler = GraphicalReportHandler::new_themed(GraphicalTheme::unicode()).with_width(120);
    let mut scanner = None;
    handler.render_view(alloc, view, &mut scanner)
}

/// What is drawn of a message, and labels in a source without a name.
fn drawing<'a>(
    alloc: Global,
    handler: &GraphicalReportHandler,
    message: &'a str,
    source: &'a [u8],
    labels: &'a [LabeledSpan],
) -> Result<String, RenderError>
    requires { length source.now < 4294967295 }
{
    let view = DiagnosticView {
        message,
        code: None,
        severity: None,
        help: None,
        note: None,
        source: Some(SourceRef::new(source, None)),
        labels,
    };
    let mut scanner = None;
    handler.render_view(alloc, &view, &mut scanner)
}

/// Whether a text was drawn.
pub(crate) fn is_drawn(drawn: Result<String, RenderError>, text: &str) -> bool {
    match drawn {
        Ok(drawn) => drawn.as_str() == text,
        Err(_) => false,
    }
}

/// Whether nothing was drawn, for that reason.
fn is_refused(drawn: Result<String, RenderError>, reason: RenderError) -> bool {
    match drawn {
        Ok(_) => false,
        Err(error) => error == reason,
    }
}

const ROWS: &[u8] = b"foo\nbar\nbaz";

const MARKED: &str = "
  x Oops
   ,-[a.js:2:1]
 1 | foo
 2 | bar
   : ^|^
   :  `-- here
 3 | baz
   `----
";

const LAST: &str = "
  x Oops
   ,-[a.js:3:1]
 2 | bar
 3 | baz
   : |
   : `-- here
   `----
";

/// A message, and labels in the three rows.
fn oops<'a>(labels: &'a [LabeledSpan]) -> DiagnosticView<'a> {
    DiagnosticView {
        message: "Oops",
        code: None,
        severity: None,
        help: None,
        note: None,
        source: Some(SourceRef::new(ROWS, Some("a.js"))),
        labels,
    }
}

/// Whether labels in the three rows are drawn as a text by a scanner, which keeps the starts of
/// these rows then.
fn is_drawn_by<'a>(
    alloc: Global,
    scanner: &mut Option<SpanScanner<'a>>,
    labels: &'a [LabeledSpan],
    text: &str,
) -> bool
    requires { ReadsRoundIfThere scanner.old }
    ensures { ReadsRoundIfThere scanner.new }
{
    is_drawn(plain().render_view(alloc, &oops(labels), scanner), text) && keeps(scanner, &[0, 4, 8])
}

/// Whether there is a scanner, and it keeps these row starts.
fn keeps(scanner: &Option<SpanScanner<'_>>, starts: &[u32]) -> bool {
    match scanner {
        Some(scanner) => scanner.kept() == starts,
        None => false,
    }
}

/// Whether two labels of a source are drawn one after the other by one scanner.
fn are_drawn_in_turn(alloc: Global, first: LabeledSpan, second: LabeledSpan) -> bool {
    let first = [first];
    let second = [second];
    let mut scanner = None;
    is_drawn_by(alloc, &mut scanner, &first, MARKED)
        && is_drawn_by(alloc, &mut scanner, &second, LAST)
}

#[test]
fn a_scanner_that_reads_the_source_is_used_again(rt: HostRuntime) {
    let alloc = rt.alloc();
    let drawn = match (label(alloc, 4, 3, "here"), label(alloc, 8, 1, "here")) {
        (Ok(first), Ok(second)) => are_drawn_in_turn(alloc, first, second),
        _ => false,
    };
    assert!(rt; drawn);
}

/// Whether a report with these labels in the three rows is drawn after a text, with a scanner of
/// its source.
fn are_pushed(alloc: Global, labels: &[LabeledSpan]) -> Result<bool, AllocError> {
    let view = DiagnosticView {
        message: "Oops",
        code: None,
        severity: None,
        help: None,
        note: None,
        source: Some(SourceRef::new(ROWS, Some("a.js"))),
        labels,
    };
    let mut scanner = SpanScanner::new(alloc, ROWS, 1, 1);
    let Ok(_) = scanner.text() else {
        return Ok(false);
    };
    if !all_within(labels, ROWS.len()) {
        return Ok(false);
    }
    let mut text = String::from_str(alloc, "first")?;
    plain().push_view_with_scanner(alloc, &mut text, &view, &mut scanner)?;
    Ok(text.as_str().strip_prefix("first") == Some(MARKED))
}

#[test]
fn a_report_is_drawn_behind_a_text(rt: HostRuntime) {
    let drawn = match label(rt.alloc(), 4, 3, "here") {
        Ok(here) => matches!(are_pushed(rt.alloc(), &[here]), Ok(true)),
        Err(_) => false,
    };
    assert!(rt; drawn);
}

const ON_TERMINAL: &str = concat!(
    "\n  \u{1b}[38;2;225;80;80;1m×\u{1b}[0m ",
    "\u{1b}[38;2;225;80;80;1mm\u{1b}[0m\n"
);

#[test]
fn a_theme_gives_characters_and_colors(rt: HostRuntime) {
    let view = DiagnosticView {
        message: "m",
        code: None,
        severity: None,
        help: None,
        note: None,
        source: None,
        labels: &[],
    };
    assert!(rt; is_drawn(for_terminal(rt.alloc(), &view), ON_TERMINAL));
}

/// Whether a warning is written in its style.
fn is_styled(alloc: Global) -> bool {
    let mut text = String::new(alloc);
    GraphicalTheme::none().write_warning(&mut text, "w").is_ok()
        && GraphicalTheme::unicode()
            .write_warning(&mut text, "w")
            .is_ok()
        && text.as_str() == "w\u{1b}[38;2;244;191;117;1mw\u{1b}[0m"
}

#[test]
fn a_warning_stands_in_its_style(rt: HostRuntime) {
    assert!(rt; is_styled(rt.alloc()));
}

const TABBED: &[u8] = b"\tlet x";

pub(crate) const BY_FOUR: &str = "
  x m
   ,----
 1 |     let x
   :         ^
   `----
";

const BY_TWO: &str = "
  x m
   ,----
 1 |   let x
   :       ^
   `----
";

/// Whether tab stops are as far apart as the handler says.
fn are_tabs_drawn(alloc: Global) -> bool {
    let two = plain().with_tabs(TabWidth::new(2).unwrap_or_default());
    let labels = [LabeledSpan::new(None, 5, 1)];
    is_drawn(drawing(alloc, &plain(), "m", TABBED, &labels), BY_FOUR)
        && is_drawn(drawing(alloc, &two, "m", TABBED, &labels), BY_TWO)
}

#[test]
fn tabs_and_the_width_are_those_of_the_handler(rt: HostRuntime) {
    assert!(rt; are_tabs_drawn(rt.alloc()));
    let narrow = drawing(rt.alloc(), &plain().with_width(0), "ab", b"ab", &[]);
    assert!(rt; is_drawn(narrow, "\n  x a\n  | b\n"));
}

const OUTSIDE: RenderError = RenderError::LabelOutside {
    report: 0,
    label: 1,
};

const NO_TEXT: RenderError = RenderError::NotUtf8 {
    report: 0,
    valid_up_to: 1,
};

/// Whether a label outside is refused, and a label in a source that is no text.
fn are_refused(alloc: Global) -> bool {
    let labels = [LabeledSpan::new(None, 0, 1), LabeledSpan::new(None, 5, 4)];
    is_refused(drawing(alloc, &plain(), "m", TABBED, &labels), OUTSIDE)
        && is_refused(
            drawing(alloc, &plain(), "m", b"a\xFF", &labels[..1]),
            NO_TEXT,
        )
}

#[test]
fn what_can_t_be_drawn_is_refused(rt: HostRuntime) {
    assert!(rt; are_refused(rt.alloc()));
    let bare = drawing(rt.alloc(), &plain(), "m", b"a\xFF", &[]);
    assert!(rt; is_drawn(bare, "\n  x m\n"));
}

/// What is said of each refusal.
const SAID: [(RenderError, &str); 4] = [
    (
        RenderError::LabelOutside {
            report: 2,
            label: 3,
        },
        "report 2: label 3 is outside",
    ),
    (
        RenderError::NotUtf8 {
            report: 2,
            valid_up_to: 3,
        },
        "report 2: source is no UTF-8 after 3 bytes",
    ),
    (RenderError::SinkFault, "output failed"),
    (RenderError::OutOfMemory, "out of memory"),
];

/// Whether a text was made, and reads so.
pub(crate) fn is_text(text: Result<String, AllocError>, wanted: &str) -> bool {
    match text {
        Ok(text) => text.as_str() == wanted,
        Err(_) => false,
    }
}

#[test]
fn errors_have_texts(rt: HostRuntime) {
    for (error, text) in &SAID {
        assert!(rt; is_text(format!(in rt.alloc(); "{error}"), text), "{text}");
    }
}
