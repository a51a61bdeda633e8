//! Where the JSON of an input stops.
use crate::cut::{Cut, Piece};
use json::{MAX_DEPTH, Reader, Scratch, Value};
use std::alloc::Global;

/// The row, and the byte in it, both from 1, at which reading stops in an input whose values aren't
/// JSON: not written as JSON, or nested deeper than 127. No clause says where.
pub fn stop_in(alloc: Global, bytes: &[u8], cut: &Cut) -> (usize, usize) {
    let at = input_byte(&cut.pieces, stop_byte(alloc, &cut.json));
    let before = match bytes.get(..at) {
        Some(before) => before,
        None => bytes,
    };
    let rows = before.iter().filter(|byte| **byte == b'\n').count();
    let column = before
        .iter()
        .rev()
        .take_while(|byte| **byte != b'\n')
        .count();
    (rows.saturating_add(1), column.saturating_add(1))
}

/// The byte of the input that is at a byte of the array of its values.
fn input_byte(pieces: &[Piece], at: usize) -> usize {
    let mut left = at.saturating_sub(b"[null".len());
    let mut last = 0usize;
    for piece in pieces {
        if piece.is_value {
            let len = piece.end.saturating_sub(piece.start);
            left = left.saturating_sub(1);
            if left < len {
                return piece.start.saturating_add(left);
            }
            left -= len;
            last = piece.end;
        }
    }
    last
}

fn stop_byte(alloc: Global, json: &[u8]) -> usize {
    match std::str::from_utf8(json) {
        Ok(text) => stop_in_text(alloc, text),
        Err(e) => e.valid_up_to(),
    }
}

fn stop_in_text(alloc: Global, text: &str) -> usize {
    let mut scratch = Scratch::new(alloc);
    let Ok(mut reader) = Reader::new(text, &mut scratch) else {
        return 0;
    };
    if Value::read(alloc, &mut reader, MAX_DEPTH).is_ok() {
        let _ = reader.next();
    }
    reader.offset()
}
