// Tables of changes and a client's transcript; the texts are those of a plain replay in another
// language.
ghost use Rattle.std.specs.Prelude.{◌≡◌, OnOk, OnErr};
ghost use Rattle.client_text.specs.Document.{IsEdited};

mod transcript;

use crate::texts::is_text;
use client_text::{Change, ClientText, Fault, Refusal};
use source_location::fits;
use std::alloc::{AllocError, Global};
use text_places::{Encoding, Place};
use transcript::{START, TRANSCRIPT};

// What a server does with `didChange`: the notification's changes, or none of them.
fn did_change(client: &mut ClientText, version: i32, changes: &[Change]) -> Result<(), Refusal>
    ensures done { OnOk result (IsEdited client.old version changes.now client.new) }
    ensures kept { OnErr result (client.new ≡ client.old) }
{
    client.change(version, changes)
}

type Span = ((u32, u32), (u32, u32));

// What a client sends, and what comes of it: the error, if any, and the text after it.
struct Notification<'a> {
    version: i32,
    changes: &'a [(Option<Span>, &'a str)],
    refused: Option<(usize, Fault)>,
    text: &'a str,
}

fn place(at: (u32, u32)) -> Place {
    Place {
        line: at.0,
        unit: at.1,
    }
}

fn changes_of(alloc: Global, given: &[(Option<Span>, &str)]) -> Result<Vec<Change>, AllocError> {
    let mut changes = Vec::new(alloc);
    for (span, text) in given {
        let range = match span {
            Some((from, to)) => Some((place(*from), place(*to))),
            None => None,
        };
        let text = String::from_str(alloc, text)?;
        changes.push(Change { range, text })?;
    }
    Ok(changes)
}

// A document with a text that is known to fit.
fn opened(
    alloc: Global,
    encoding: Encoding,
    text: &str,
    version: i32,
) -> Result<ClientText, AllocError> {
    if !fits(text) {
        return ClientText::open(alloc, encoding, "", version);
    }
    ClientText::open(alloc, encoding, text, version)
}

// Whether a document takes or refuses changes as the notification says.
fn answers(client: &mut ClientText, sent: &Notification<'_>, changes: &[Change]) -> bool {
    let before = client.version();
    match did_change(client, sent.version, changes) {
        Ok(()) => sent.refused.is_none() && client.version() == sent.version,
        Err(refusal) => {
            client.version() == before && sent.refused == Some((refusal.change, refusal.fault))
        }
    }
}

// Whether a document takes or refuses a notification as it should, and has the text then.
fn takes(alloc: Global, client: &mut ClientText, sent: &Notification<'_>) -> bool {
    let same = match changes_of(alloc, sent.changes) {
        Ok(changes) => answers(client, sent, changes.as_slice()),
        Err(_) => false,
    };
    same && is_text(client.to_text(alloc), sent.text)
}

// A document that is opened, and the notification that it is sent.
type First = (Encoding, &'static str, Notification<'static>);

// The same of a document that is opened for it.
fn takes_first(alloc: Global, row: &First) -> bool {
    match opened(alloc, row.0, row.1, 1) {
        Ok(mut client) => takes(alloc, &mut client, &row.2),
        Err(_) => false,
    }
}

// A document is opened, and sent a notification.
const SINGLE: [First; 7] = [
    (
        Encoding::Utf16,
        "",
        Notification {
            version: 2,
            changes: &[(Some(((0, 0), (0, 0))), "x")],
            refused: None,
            text: "x",
        },
    ),
    (
        Encoding::Utf16,
        "a\u{1f4a3}b",
        Notification {
            version: 2,
            changes: &[(Some(((0, 1), (0, 3))), "")],
            refused: None,
            text: "ab",
        },
    ),
    (
        Encoding::Utf16,
        "a\u{1f4a3}b",
        Notification {
            version: 2,
            changes: &[(Some(((0, 2), (0, 3))), "-")],
            refused: None,
            text: "a-b",
        },
    ),
    (
        Encoding::Utf16,
        "a\r\nb",
        Notification {
            version: 2,
            changes: &[(Some(((0, 1), (1, 0))), "")],
            refused: None,
            text: "ab",
        },
    ),
    (
        Encoding::Utf16,
        "a\r\nb",
        Notification {
            version: 2,
            changes: &[(Some(((0, 9), (0, 9))), "!")],
            refused: None,
            text: "a!\r\nb",
        },
    ),
    (
        Encoding::Utf16,
        "a\rb",
        Notification {
            version: 2,
            changes: &[(Some(((1, 0), (1, 0))), "\n")],
            refused: None,
            text: "a\r\nb",
        },
    ),
    (
        Encoding::Utf16,
        "a\r\nb",
        Notification {
            version: 2,
            changes: &[(Some(((1, 0), (1, 1))), "")],
            refused: None,
            text: "a\r\n",
        },
    ),
];

#[test]
fn single_changes_are_made(rt: HostRuntime) {
    for row in &SINGLE {
        assert!(rt; takes_first(rt.alloc(), row), "{}", row.2.text);
    }
}

// The same of lists and of what is refused.
const MORE: [First; 7] = [
    (
        Encoding::Utf8,
        "\u{e9}\n",
        Notification {
            version: 2,
            changes: &[(Some(((0, 1), (0, 2))), "e")],
            refused: None,
            text: "e\n",
        },
    ),
    (
        Encoding::Utf32,
        "x\n\u{1f600}y",
        Notification {
            version: 2,
            changes: &[(Some(((1, 1), (1, 2))), "z"), (Some(((0, 0), (0, 1))), "")],
            refused: None,
            text: "\n\u{1f600}z",
        },
    ),
    (
        Encoding::Utf16,
        "ab",
        Notification {
            version: 2,
            changes: &[(None, "new\n"), (Some(((1, 0), (9, 9))), "end")],
            refused: None,
            text: "new\nend",
        },
    ),
    (
        Encoding::Utf16,
        "ab",
        Notification {
            version: 2,
            changes: &[(Some(((0, 0), (0, 1))), ""), (Some(((0, 1), (0, 0))), "")],
            refused: Some((1, Fault::Reversed)),
            text: "ab",
        },
    ),
    (
        Encoding::Utf16,
        "ab\ncd",
        Notification {
            version: 2,
            changes: &[(Some(((1, 0), (0, 0))), "")],
            refused: Some((0, Fault::Reversed)),
            text: "ab\ncd",
        },
    ),
    (
        Encoding::Utf16,
        "ab",
        Notification {
            version: 2,
            changes: &[(Some(((5, 0), (0, 9))), "!")],
            refused: None,
            text: "ab!",
        },
    ),
    (
        Encoding::Utf16,
        "ab",
        Notification {
            version: 2,
            changes: &[],
            refused: None,
            text: "ab",
        },
    ),
];

#[test]
fn changes_are_made_in_turn_or_refused(rt: HostRuntime) {
    for row in &MORE {
        assert!(rt; takes_first(rt.alloc(), row), "{}", row.2.text);
    }
}

// Whether a document takes or refuses each notification as it should.
fn takes_all(alloc: Global, client: &mut ClientText, all: &[Notification<'_>]) -> bool {
    for sent in all {
        if !takes(alloc, client, sent) {
            return false;
        }
    }
    true
}

// Whether a document that is opened with the first text takes the transcript.
fn replays(alloc: Global) -> bool {
    match opened(alloc, Encoding::Utf16, START, 1) {
        Ok(mut client) => {
            client.encoding() == Encoding::Utf16 && takes_all(alloc, &mut client, &TRANSCRIPT)
        }
        Err(_) => false,
    }
}

#[test]
fn a_transcript_is_replayed(rt: HostRuntime) {
    assert!(rt; replays(rt.alloc()));
}

// The pieces of a document, joined.
fn joined(alloc: Global, client: &ClientText) -> Result<String, AllocError> {
    let mut joined = String::new(alloc);
    for piece in client.pieces() {
        joined.push_str(piece)?;
    }
    Ok(joined)
}

// Whether the pieces of a document make its text.
fn has_pieces(alloc: Global) -> bool {
    match opened(alloc, Encoding::Utf8, "a\r\n\u{e9}", -7) {
        Ok(client) => {
            client.version() == -7
                && client.places().line_count() == 2
                && is_text(joined(alloc, &client), "a\r\n\u{e9}")
        }
        Err(_) => false,
    }
}

#[test]
fn pieces_make_the_text(rt: HostRuntime) {
    assert!(rt; has_pieces(rt.alloc()));
}
