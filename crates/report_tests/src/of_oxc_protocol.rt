// What no clause says: that ample memory suffices, and that no empty piece is written.
use oxc_protocol::{MemorySink, write_all};
use std::alloc::Global;

const TEXT: &[u8] = b"abcde";

/// The most that a call takes, the number of the call that fails, what is taken of the text, and
/// whether all is written.
type Written = (usize, u64, &'static str, bool);

const WRITTEN: [Written; 4] = [
    (2, 0, "", false),
    (2, 2, "abcd", false),
    // Three calls suffice.
    (2, 3, "abcde", true),
    // No empty piece follows.
    (5, 1, "abcde", true),
];

/// Whether a sink takes the wanted part of the text.
fn takes(mut sink: MemorySink, taken: &str, whole: bool) -> bool {
    write_all(&mut sink, TEXT).is_ok() == whole && sink.received() == taken.as_bytes()
}

/// Whether the text is written so.
fn is_written(alloc: Global, row: &Written) -> bool {
    let (most, failing, taken, whole) = *row;
    let Ok(failing) = [failing].to_vec(alloc) else {
        return false;
    };
    if most == 0 {
        return false;
    }
    match MemorySink::new(alloc, TEXT.len(), most, failing) {
        Ok(sink) => takes(sink, taken, whole),
        Err(_) => false,
    }
}

#[test]
fn a_failing_call_leaves_what_was_taken_before(rt: HostRuntime) {
    for row in &WRITTEN {
        assert!(rt; is_written(rt.alloc(), row), "call {}", row.1);
    }
}
