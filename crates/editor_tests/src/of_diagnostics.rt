// What is published to clients: JSON written by hand, in the protocol's form. These cases have a
// help, or a head label that isn't the first, which no log has; the others are tested from outside.
use crate::callers::told;
use lsp_server::{OpenFile, all_stand};
use oxc_protocol::OxcDiagnostic;
use oxc_span::LabeledSpan;
use source_location::fits;
use std::alloc::{AllocError, Global};
use text_places::{Encoding, TextPlaces};

const TEXT: &str = "a\r\n\u{1f600} x = y\n";

const IN_UTF16: &str = concat!(
    r#"{"diagnostics":[{"code":"no-undef","codeDescription":{"href":"https://e.org"},"#,
    r#""message":"x isn't defined\ndeclare it\nas in C","#,
    r#""range":{"end":{"character":4,"line":1},"start":{"character":3,"line":1}},"#,
    r#""relatedInformation":[{"location":{"#,
    r#""range":{"end":{"character":8,"line":1},"start":{"character":7,"line":1}},"#,
    r#""uri":"file:///a.js"},"message":"set \"here\""}],"#,
    r#""severity":1,"source":"eslint"}],"uri":"file:///a.js","version":3}"#,
);

const IN_UTF8: &str = concat!(
    r#"{"diagnostics":[{"code":"no-undef","codeDescription":{"href":"https://e.org"},"#,
    r#""message":"x isn't defined\ndeclare it\nas in C\n2:10: set \"here\"","#,
    r#""range":{"end":{"character":6,"line":1},"start":{"character":5,"line":1}},"#,
    r#""severity":1,"source":"eslint"}],"uri":"file:///a.js","version":3}"#,
);

const PRIMARY: &str = concat!(
    r#"{"diagnostics":[{"message":"set twice\n1:1: first\n2:8: then","#,
    r#""range":{"end":{"character":4,"line":1},"start":{"character":3,"line":1}},"#,
    r#""severity":1}],"uri":"file:///a.js","version":3}"#,
);

/// A diagnostic with all its parts.
fn whole(alloc: Global) -> Result<OxcDiagnostic, AllocError> {
    let here = String::from_str(alloc, "set \"here\"")?;
    OxcDiagnostic::error(alloc, "x isn't defined")?
        .with_error_code(alloc, "eslint", "no-undef")?
        .with_help(alloc, "declare it")?
        .with_note(alloc, "as in C")?
        .with_url(alloc, "https://e.org")?
        .and_label(LabeledSpan::new(None, 8, 1))?
        .and_label(LabeledSpan::new(Some(here), 12, 1))
}

/// A diagnostic whose second label is the first primary one.
fn with_a_primary(alloc: Global) -> Result<OxcDiagnostic, AllocError> {
    let first = String::from_str(alloc, "first")?;
    let here = String::from_str(alloc, "here")?;
    let then = String::from_str(alloc, "then")?;
    OxcDiagnostic::error(alloc, "set twice")?
        .and_label(LabeledSpan::new(Some(first), 0, 1))?
        .and_label(LabeledSpan::primary_at(Some(here), 8, 1))?
        .and_label(LabeledSpan::primary_at(Some(then), 12, 1))
}

/// What is published for a diagnostic on the text; empty if its labels don't fit it.
fn told_of(
    alloc: Global,
    encoding: Encoding,
    related: bool,
    diagnostic: OxcDiagnostic,
) -> Result<String, AllocError> {
    let mut diagnostics = Vec::new(alloc);
    diagnostics.push(diagnostic)?;
    if !fits(TEXT) || !all_stand(TEXT, &diagnostics) {
        return Ok(String::new(alloc));
    }
    let places = TextPlaces::new(alloc, TEXT)?;
    let file = OpenFile {
        uri: "file:///a.js",
        version: Some(3),
        encoding,
        related,
        places: &places,
    };
    told(alloc, &file, &diagnostics)
}

/// Whether exactly this is published for a diagnostic.
fn is_told(
    alloc: Global,
    encoding: Encoding,
    related: bool,
    diagnostic: Result<OxcDiagnostic, AllocError>,
    wanted: &str,
) -> bool {
    let Ok(diagnostic) = diagnostic else {
        return false;
    };
    match told_of(alloc, encoding, related, diagnostic) {
        Ok(text) => text.as_str() == wanted,
        Err(_) => false,
    }
}

#[test]
fn all_parts_are_told(rt: HostRuntime) {
    let alloc = rt.alloc();
    assert!(rt; is_told(alloc, Encoding::Utf16, true, whole(alloc), IN_UTF16));
}

#[test]
fn labels_that_no_client_shows_become_lines(rt: HostRuntime) {
    let alloc = rt.alloc();
    assert!(rt; is_told(alloc, Encoding::Utf8, false, whole(alloc), IN_UTF8));
}

#[test]
fn the_first_primary_label_is_the_head(rt: HostRuntime) {
    let alloc = rt.alloc();
    assert!(rt;
        is_told(
            alloc,
            Encoding::Utf16,
            false,
            with_a_primary(alloc),
            PRIMARY
        )
    );
}
