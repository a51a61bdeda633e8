// Reports as JSON by example.
ghost use Rattle.std.specs.Prelude.{◌≡◌, ◌++◌, IfOk, codes, string_bytes};
ghost use Rattle.oxc_handlers.specs.Report.{view_parts};
ghost use Rattle.oxc_handlers.specs.JsonText.{json_of};

use crate::of_oxc_handlers::is_text;
use crate::of_oxc_handlers_reports::with_source;
use oxc_handlers::{DiagnosticView, JSONReportHandler, push_json};
use oxc_protocol::{Diagnostic, LabeledSpan, MemorySink, OxcDiagnostic, Severity};
use std::alloc::{AllocError, Global};

/// Whether the handler sends exactly a text.
fn gives(alloc: Global, diagnostic: &dyn Diagnostic, text: &str) -> bool {
    let Ok(mut sink) = MemorySink::new(alloc, 1000, 100, Vec::new(alloc)) else {
        return false;
    };
    let sent = JSONReportHandler::default().render_report(alloc, &mut sink, diagnostic);
    sent.is_ok() && sink.received() == text.as_bytes()
}

/// A report without a url as JSON, on a line of its own.
fn json_line(alloc: Global, view: &DiagnosticView<'_>) -> Result<String, AllocError>
    ensures { IfOk result (λ line. string_bytes line
        ≡ json_of (view_parts view.now) ++ codes "\n") }
{
    let mut line = String::new(alloc);
    push_json(&mut line, alloc, view, None)?;
    line.push_str("\n")?;
    Ok(line)
}

const ON_A_LINE: &str =
    "{\"message\": \"m\",\"severity\": \"error\",\"help\": \"h\",\"labels\": []}\n";

#[test]
fn a_view_stands_on_a_line_of_its_own(rt: HostRuntime) {
    let view = DiagnosticView {
        message: "m",
        code: None,
        severity: None,
        help: Some("h"),
        note: None,
        source: None,
        labels: &[],
    };
    assert!(rt; is_text(json_line(rt.alloc(), &view), ON_A_LINE));
}

/// Messages, and their reports as JSON.
const ESCAPED: [(&str, &str); 2] = [
    (
        "a\"b\\\u{1}",
        "{\"message\": \"a\\\"b\\\\\\u0001\",\"severity\": \"error\",\"labels\": []}",
    ),
    (
        "\r\n\t\u{8}\u{c}\u{1f}\u{7f}/日",
        "{\"message\": \"\\r\\n\\t\\b\\f\\u001f\u{7f}/日\",\"severity\": \"error\",\"labels\": []}",
    ),
];

/// Whether a diagnostic was made, and is sent as a text.
fn is_sent(alloc: Global, made: Result<OxcDiagnostic, AllocError>, text: &str) -> bool {
    match made {
        Ok(diagnostic) => gives(alloc, &diagnostic, text),
        Err(_) => false,
    }
}

#[test]
fn texts_are_escaped(rt: HostRuntime) {
    for (message, text) in &ESCAPED {
        let made = OxcDiagnostic::error(rt.alloc(), message);
        assert!(rt; is_sent(rt.alloc(), made, text), "{text}");
    }
}

const WITHOUT_A_LINE: &str = concat!(
    "{\"message\": \"m\",\"severity\": \"error\",\"filename\": \"\",\"labels\": [",
    "{\"span\": {\"offset\": 5,\"length\": 1,\"line\": null,\"column\": null}}]}",
);

/// Whether a label past its source is sent without a line.
fn is_without_a_line(alloc: Global) -> bool {
    match with_source(alloc, "m", "ab", 5, 1) {
        Ok(diagnostic) => gives(alloc, &diagnostic, WITHOUT_A_LINE),
        Err(_) => false,
    }
}

#[test]
fn a_label_past_the_source_has_no_line(rt: HostRuntime) {
    assert!(rt; is_without_a_line(rt.alloc()));
}

const ALL_PARTS: &str = concat!(
    "{\"message\": \"m\",\"code\": \"s(n)\",\"severity\": \"advice\",",
    "\"url\": \"u\",\"help\": \"h\",\"note\": \"o\",\"labels\": [",
    "{\"span\": {\"offset\": 7,\"length\": 0,\"line\": null,\"column\": null}},",
    "{\"span\": {\"offset\": 2,\"length\": 9,\"line\": null,\"column\": null}}]}",
);

/// A diagnostic with all its parts, in another order.
fn with_all_parts(alloc: Global) -> Result<OxcDiagnostic, AllocError> {
    OxcDiagnostic::error(alloc, "m")?
        .with_severity(Severity::Advice)
        .with_error_code(alloc, "s", "n")?
        .with_url(alloc, "u")?
        .with_help(alloc, "h")?
        .with_note(alloc, "o")?
        .and_label(LabeledSpan::new(None, 7, 0))?
        .and_label(LabeledSpan::primary_at(None, 2, 9))
}

#[test]
fn all_parts_come_in_their_order(rt: HostRuntime) {
    assert!(rt; is_sent(rt.alloc(), with_all_parts(rt.alloc()), ALL_PARTS));
}
