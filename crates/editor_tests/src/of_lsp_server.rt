// Sessions that no program shows from outside: a server never shows a text, and no log has a finding
// whose head isn't its first label. The JSON is by hand, in the forms that the protocol gives.
use crate::callers::answer_to;
use lsp_server::{Server, answer_text};
use oxc_protocol::OxcDiagnostic;
use oxc_span::LabeledSpan;
use std::alloc::{AllocError, Global};

const BEGIN: &str = r#"{"id":0,"method":"initialize","params":{}}"#;

const BEGUN: &str = concat!(
    r#"{"id":0,"jsonrpc":"2.0","result":{"capabilities":{"positionEncoding":"utf-16","#,
    r#""textDocumentSync":{"change":2,"openClose":true,"save":true}},"#,
    r#""serverInfo":{"name":"girzohal_lsp"}}}"#,
);

const OPEN: &str = concat!(
    r#"{"method":"textDocument/didOpen","params":{"textDocument":"#,
    r#"{"uri":"file:///a","languageId":"c","version":1,"text":"\u00e4 x\n"}}}"#,
);

/// Whether a text is this one.
fn reads(text: Result<String, AllocError>, wanted: &str) -> bool {
    match text {
        Ok(text) => text.as_str() == wanted,
        Err(_) => false,
    }
}

/// Whether a server says just this to a body, or nothing.
fn says(alloc: Global, server: &mut Server, row: &(&str, &str)) -> bool {
    match answer_to(alloc, server, row.0.as_bytes()) {
        Ok(Some(answer)) => reads(answer_text(alloc, answer), row.1),
        Ok(None) => row.1.is_empty(),
        Err(_) => false,
    }
}

// The second change ends before it starts, so the first isn't kept either.
const FAULTY: [(&str, &str); 4] = [
    (BEGIN, BEGUN),
    (OPEN, ""),
    (
        concat!(
            r#"{"method":"textDocument/didChange","params":{"textDocument":"#,
            r#"{"uri":"file:///a","version":2},"contentChanges":[{"range":"#,
            r#"{"start":{"line":0,"character":0},"end":{"line":0,"character":1}},"text":""},"#,
            r#"{"range":{"start":{"line":0,"character":2},"end":{"line":0,"character":1}},"#,
            r#""text":""}]}}"#,
        ),
        concat!(
            r#"{"jsonrpc":"2.0","method":"window/logMessage","params":{"message":"#,
            r#""didChange left out: contentChanges[1] ends before it starts","type":2}}"#,
        ),
    ),
    (
        r#"{"method":"textDocument/didChange","params":{"contentChanges":{}}}"#,
        concat!(
            r#"{"jsonrpc":"2.0","method":"window/logMessage","params":{"message":"#,
            r#""didChange left out: not of its form","type":2}}"#,
        ),
    ),
];

/// Whether a document is open with this text.
fn has(alloc: Global, server: &Server, uri: &str, text: &str) -> bool {
    match server.document(uri) {
        Some(document) => reads(document.client().to_text(alloc), text),
        None => false,
    }
}

#[test]
fn a_faulty_change_is_told_and_the_text_stays(rt: HostRuntime) {
    let alloc = rt.alloc();
    let mut server = Server::new(alloc);
    for row in &FAULTY {
        assert!(rt; says(alloc, &mut server, row), "{}", row.0);
    }
    assert!(rt; has(alloc, &server, "file:///a", "\u{e4} x\n"));
}

// What the first label covers is deleted, and then what the primary one does.
const WITH_THE_HEAD: [(&str, &str); 2] = [
    (
        concat!(
            r#"{"method":"textDocument/didChange","params":{"textDocument":"#,
            r#"{"uri":"file:///a","version":2},"contentChanges":[{"range":"#,
            r#"{"start":{"line":0,"character":0},"end":{"line":0,"character":1}},"text":""}]}}"#,
        ),
        concat!(
            r#"{"jsonrpc":"2.0","method":"textDocument/publishDiagnostics","params":{"#,
            r#""diagnostics":[{"message":"set twice","range":{"end":{"character":2,"line":0},"#,
            r#""start":{"character":1,"line":0}},"severity":1}],"#,
            r#""uri":"file:///a","version":2}}"#,
        ),
    ),
    (
        concat!(
            r#"{"method":"textDocument/didChange","params":{"textDocument":"#,
            r#"{"uri":"file:///a","version":3},"contentChanges":[{"range":"#,
            r#"{"start":{"line":0,"character":0},"end":{"line":1,"character":0}},"text":""}]}}"#,
        ),
        concat!(
            r#"{"jsonrpc":"2.0","method":"textDocument/publishDiagnostics","params":{"#,
            r#""diagnostics":[],"uri":"file:///a","version":3}}"#,
        ),
    ),
];

/// A finding whose second label is the primary one.
fn set_twice(alloc: Global) -> Result<OxcDiagnostic, AllocError> {
    OxcDiagnostic::error(alloc, "set twice")?
        .and_label(LabeledSpan::new(None, 0, 2))?
        .and_label(LabeledSpan::primary_at(None, 3, 1))
}

/// Whether it is shown in the document.
fn is_shown(alloc: Global, server: &mut Server) -> Result<bool, AllocError> {
    let mut found = Vec::new(alloc);
    found.push(set_twice(alloc)?)?;
    let told = server.show(alloc, "file:///a", found)?;
    Ok(told.is_some())
}

#[test]
fn a_finding_goes_with_its_head(rt: HostRuntime) {
    let alloc = rt.alloc();
    let mut server = Server::new(alloc);
    assert!(rt; says(alloc, &mut server, &(BEGIN, BEGUN)));
    assert!(rt; says(alloc, &mut server, &(OPEN, "")));
    assert!(rt; matches!(is_shown(alloc, &mut server), Ok(true)));
    for row in &WITH_THE_HEAD {
        assert!(rt; says(alloc, &mut server, row), "{}", row.0);
    }
}
