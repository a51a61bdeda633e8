// Bodies as they come, heads that no client may send, and why. What a program does with frames is
// tried from outside.
use crate::callers::count_in;
use lsp_server::{End, Frames, LONGEST_HEAD, Why, write_frame};
use std::alloc::{AllocError, Global};

/// Whether a body comes with the last byte of these, and not before.
fn gives(alloc: Global, bytes: &[u8], wanted: &[u8]) -> bool {
    let mut frames = Frames::new(alloc);
    let taken = frames.next(alloc, bytes);
    taken.used == bytes.len()
        && matches!(taken.end, End::Message(body) if body.as_slice() == wanted)
}

/// Whether the byte after the first `used` is refused, since no frame begins so.
fn is_no_frame(alloc: Global, bytes: &str, used: usize) -> bool {
    let mut frames = Frames::new(alloc);
    let taken = frames.next(alloc, bytes.as_bytes());
    taken.used == used && matches!(taken.end, End::Refused(Why::NoFrame))
}

/// The same of a body that would be too long.
fn is_long_body(alloc: Global, bytes: &str, used: usize) -> bool {
    let mut frames = Frames::new(alloc);
    let taken = frames.next(alloc, bytes.as_bytes());
    taken.used == used && matches!(taken.end, End::Refused(Why::LongBody))
}

const BODIES: [(&str, &str); 3] = [
    ("Content-Length: 2\r\n\r\n{}", "{}"),
    ("Content-Length: 0\r\n\r\n", ""),
    (
        "content-LENGTH:  3\r\nContent-Type: a; b=c\r\n\r\n\u{e4}1",
        "\u{e4}1",
    ),
];

#[test]
fn bodies_come_whole(rt: HostRuntime) {
    let alloc = rt.alloc();
    for row in &BODIES {
        assert!(rt;
            gives(alloc, row.0.as_bytes(), row.1.as_bytes()),
            "{}",
            row.1
        );
    }
}

const FAULTS: [(&str, usize); 5] = [
    ("Content-Length: 2 \r\n", 17),
    ("Content-Length: 2\n", 17),
    ("Content-Length 2\r\n", 16),
    ("Content-Length: 2\r\nContent-Length:", 33),
    ("A: b\r\n\r", 6),
];

#[test]
fn faults_are_found_where_they_are(rt: HostRuntime) {
    let alloc = rt.alloc();
    for row in &FAULTS {
        assert!(rt; is_no_frame(alloc, row.0, row.1), "{}", row.0);
    }
    assert!(rt; is_long_body(alloc, "Content-Length: 8388609", 22));
}

/// A head of `len` bytes, and an empty body.
fn head_of(alloc: Global, len: usize) -> Result<String, AllocError> {
    let end = ":\r\nContent-Length: 0\r\n\r\n";
    let mut head = "x".repeat(alloc, len.saturating_sub(end.len()))?;
    head.push_str(end)?;
    Ok(head)
}

/// Whether the longest head is one.
fn takes_the_longest(alloc: Global) -> bool {
    match head_of(alloc, LONGEST_HEAD) {
        Ok(head) => gives(alloc, head.as_bytes(), b""),
        Err(_) => false,
    }
}

/// Whether a longer one is refused at its last byte.
fn refuses_a_longer(alloc: Global) -> bool {
    let Ok(head) = head_of(alloc, LONGEST_HEAD + 1) else {
        return false;
    };
    let mut frames = Frames::new(alloc);
    let taken = frames.next(alloc, head.as_bytes());
    taken.used == LONGEST_HEAD && matches!(taken.end, End::Refused(Why::LongHead))
}

#[test]
fn a_long_head_is_refused(rt: HostRuntime) {
    let alloc = rt.alloc();
    assert!(rt; takes_the_longest(alloc));
    assert!(rt; refuses_a_longer(alloc));
}

const CHUNKS: [(&str, Option<usize>); 4] = [
    ("Content-Length: 2\r\n\r\n{}Content-Le", Some(1)),
    ("ngth: 0\r\n\r\nContent-Length: 1\r\n\r\n1", Some(2)),
    ("Content-Length: 1\r\n\r\n", Some(0)),
    ("1:", None),
];

#[test]
fn chunks_are_counted(rt: HostRuntime) {
    let alloc = rt.alloc();
    let mut frames = Frames::new(alloc);
    for row in &CHUNKS {
        assert!(rt;
            count_in(alloc, &mut frames, row.0.as_bytes()) == row.1,
            "{}",
            row.0
        );
    }
}

/// Whether the frame of a body is this text.
fn is_framed(alloc: Global, body: &str, wanted: &str) -> bool {
    match write_frame(alloc, body.as_bytes()) {
        Ok(frame) => frame.as_slice() == wanted.as_bytes(),
        Err(_) => false,
    }
}

#[test]
fn lengths_count_bytes(rt: HostRuntime) {
    let wanted = "Content-Length: 6\r\n\r\n\u{e4}\u{1f600}";
    assert!(rt; is_framed(rt.alloc(), "\u{e4}\u{1f600}", wanted));
}
