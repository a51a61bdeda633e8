// Diagnostics in boxes by example, and that memory suffices for them. What is expected was worked
// out by hand.
ghost use Rattle.std.specs.Prelude.{◌+◌, ◌^◌, ◌<◌, length};

use crate::of_oxc_handlers::{BY_FOUR, is_drawn};
use oxc_handlers::{
    GraphicalReportHandler, GraphicalTheme, Keep, RenderError, render, render_with_source_code,
};
use oxc_protocol::{
    Diagnostic, DiagnosticWithSource, Error, LabeledSpan, MemorySink, NamedSource, OxcDiagnostic,
    TextSource,
};
use std::alloc::{AllocError, Global};

/// Keeps no text.
#[derive(Drop)]
struct KeepsNone;

impl Keep for KeepsNone {
    ghost use Rattle.std.specs.Prelude.{◌≡◌, false};

    ghost keeps = { λ k p text kept next. kept ≡ false };

    fn keep(&mut self, _diagnostic: &dyn Diagnostic, _text: &str) -> bool {
        false
    }
}

fn plain() -> GraphicalReportHandler {
    GraphicalReportHandler::new_themed(GraphicalTheme::none())
}

/// An error with a label.
fn oops(alloc: Global) -> Result<OxcDiagnostic, AllocError> {
    let label = LabeledSpan::new(Some(String::from_str(alloc, "here")?), 4, 3);
    OxcDiagnostic::error(alloc, "Oops")?.with_label(alloc, label)
}

/// A source of three rows, with a name.
fn rows(alloc: Global) -> Result<NamedSource<TextSource>, AllocError> {
    let text = String::from_str(alloc, "foo\nbar\nbaz")?;
    let name = String::from_str(alloc, "a.js")?;
    Ok(NamedSource::new(name, TextSource::new(text)))
}

const ONCE: &str = "
  x Oops
   ,-[a.js:2:1]
 1 | foo
 2 | bar
   : ^|^
   :  `-- here
 3 | baz
   `----
";

const BETWEEN: &str = "
  x Oops
   ,-[a.js:2:1]
 1 | foo
 2 | bar
   : ^|^
   :  `-- here
 3 | baz
   `----

  x b
   ,----
 1 |     x
   :     ^
   `----

  x Oops
   ,-[a.js:2:1]
 1 | foo
 2 | bar
   : ^|^
   :  `-- here
 3 | baz
   `----
";

const TWICE: &str = "
  x Oops
   ,-[a.js:2:1]
 1 | foo
 2 | bar
   : ^|^
   :  `-- here
 3 | baz
   `----

  x Oops
   ,-[a.js:2:1]
 1 | foo
 2 | bar
   : ^|^
   :  `-- here
 3 | baz
   `----
";

/// Whether the reports of diagnostics are sent as a text.
fn are_sent(alloc: Global, diagnostics: &[Error], text: &str) -> bool {
    let Ok(mut sink) = MemorySink::new(alloc, 1000, 7, Vec::new(alloc)) else {
        return false;
    };
    plain()
        .render_reports(alloc, &mut sink, diagnostics)
        .is_ok()
        && sink.received() == text.as_bytes()
}

/// Whether they aren't sent to a sink that fails at once.
fn are_not_sent(alloc: Global, diagnostics: &[Error]) -> Result<bool, AllocError> {
    let mut sink = MemorySink::new(alloc, 1000, 7, Vec::from_array(alloc, [0])?)?;
    let answer = plain().render_reports(alloc, &mut sink, diagnostics);
    Ok(answer == Err(RenderError::SinkFault) && sink.received().is_empty())
}

/// The error with its source, in a box.
fn boxed(alloc: Global) -> Result<Error, AllocError> {
    let error = oops(alloc)?;
    Ok(Box::new(alloc, error.with_source_code(rows(alloc)?))?)
}

/// An error with a label in a source without a name.
pub(crate) fn with_source(
    alloc: Global,
    message: &str,
    text: &str,
    start: u32,
    len: u32,
) -> Result<DiagnosticWithSource<TextSource>, AllocError>
    requires fits { length text.now < 4294967295 }
    requires label { start + len < 2 ^ 32 }
{
    let source = TextSource::new(String::from_str(alloc, text)?);
    let label = LabeledSpan::new(None, start, len);
    let error = OxcDiagnostic::error(alloc, message)?.with_label(alloc, label)?;
    Ok(error.with_source_code(source))
}

/// Another error with another source, in a box.
fn between(alloc: Global) -> Result<Error, AllocError> {
    Ok(Box::new(alloc, with_source(alloc, "b", "\tx", 1, 1)?)?)
}

/// The error twice, and the other one between where that is wanted.
fn errors(alloc: Global, other: bool) -> Result<Vec<Error>, AllocError> {
    let mut errors = Vec::new(alloc);
    errors.push(boxed(alloc)?)?;
    if other {
        errors.push(between(alloc)?)?;
    }
    errors.push(boxed(alloc)?)?;
    Ok(errors)
}

#[test]
fn diagnostics_in_boxes_are_sent_in_order(rt: HostRuntime) {
    let alloc = rt.alloc();
    let sent = match errors(alloc, false) {
        Ok(errors) => {
            are_sent(alloc, &errors, TWICE)
                && plain().render_reports_until(alloc, &errors, &mut KeepsNone) == Ok(1)
                && matches!(are_not_sent(alloc, &errors), Ok(true))
        }
        Err(_) => false,
    };
    assert!(rt; sent);
}

#[test]
fn another_source_between_takes_nothing_from_the_others(rt: HostRuntime) {
    let sent = match errors(rt.alloc(), true) {
        Ok(errors) => are_sent(rt.alloc(), &errors, BETWEEN),
        Err(_) => false,
    };
    assert!(rt; sent);
}

/// Whether the answer to sending a diagnostic is the one that is wanted, and a text was sent.
fn is_sent(
    alloc: Global,
    diagnostic: &dyn Diagnostic,
    wanted: Result<(), RenderError>,
    text: &str,
) -> bool {
    let Ok(mut sink) = MemorySink::new(alloc, 1000, 7, Vec::new(alloc)) else {
        return false;
    };
    plain().render_report(alloc, &mut sink, diagnostic) == wanted
        && sink.received() == text.as_bytes()
}

/// The same for a label of `len` bytes that starts at the last byte of its source.
fn is_label_sent(alloc: Global, len: u32, wanted: Result<(), RenderError>, text: &str) -> bool
    requires { len < 10 }
{
    match with_source(alloc, "m", "\tlet x", 5, len) {
        Ok(error) => is_sent(alloc, &error, wanted, text),
        Err(_) => false,
    }
}

const OUTSIDE: RenderError = RenderError::LabelOutside {
    report: 0,
    label: 0,
};

#[test]
fn what_can_t_be_drawn_is_not_sent(rt: HostRuntime) {
    assert!(rt; is_label_sent(rt.alloc(), 4, Err(OUTSIDE), ""));
    assert!(rt; is_label_sent(rt.alloc(), 1, Ok(()), BY_FOUR));
}

const ALONE: &str = "\n  x m\n";

/// Whether the report of a message alone is sent, and rendered.
fn is_sent_and_rendered(alloc: Global) -> bool {
    match OxcDiagnostic::error(alloc, "m") {
        Ok(error) => {
            is_sent(alloc, &error, Ok(()), ALONE) && is_drawn(render(alloc, &error), ALONE)
        }
        Err(_) => false,
    }
}

/// The error as it is rendered with its source.
fn with_its_source(alloc: Global) -> Result<String, RenderError> {
    render_with_source_code(alloc, oops(alloc)?, rows(alloc)?)
}

#[test]
fn a_diagnostic_is_sent_or_rendered(rt: HostRuntime) {
    assert!(rt; is_sent_and_rendered(rt.alloc()) && is_drawn(with_its_source(rt.alloc()), ONCE));
}
