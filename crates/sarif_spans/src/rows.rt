//! The rows of a text.
ghost use Rattle.std.specs.Prelude.{◌≡◌, map, min, slice_index, true, All, IfOk, IsTrue};
ghost use Rattle.sarif_spans.specs.Rows.{BeginsWithText, IsRowOf, begin_unprinted, break_len};
ghost use Rattle.sarif_spans.specs.Rows.{is_printed as printed};
ghost use Rattle.sarif_spans.specs.Rows.{mark_len as mark_width, rows_in};

use std::alloc::{AllocError, Global};

/// A row of a text, in bytes from the text's beginning.
#[derive(Clone, Copy, PartialEq, Eq)]
pub struct Row {
    /// Where it starts: after a byte order mark, in the first row of a text that begins with one.
    pub start: usize,
    /// Where its break begins, or the text ends.
    pub end: usize,
}

/// The rows of a text. At each place, the first of the breaks that matches ends the row; an empty
/// break never matches.
///
/// # Errors
///
/// Out of memory.
#[tactic(auto, unfolding(crate::specs::Rows::rows_in))]
pub fn rows_of(alloc: Global, text: &str, breaks: &[&str]) -> Result<Vec<Row>, AllocError>
    ensures rows { IfOk result (λ rows. rows.items
        ≡ rows_in (map (λ it. it.now) breaks.now) text.now) }
    ensures cut { IfOk result (λ rows. All (IsRowOf text.now) rows.items) }
{
    let mut rows = Vec::new(alloc);
    let mut start = mark_len(text);
    let mut at = 0;
    let passes = pass_printed(breaks);
    while at < text.len() {
        let width = width_at(passes, breaks, &text.as_bytes()[at..]);
        if width == 0 {
            at += 1;
        } else {
            rows.push(row_between(start, at))?;
            at += width;
            start = at;
        }
    }
    rows.push(row_between(start, at))?;
    Ok(rows)
}

fn row_between(start: usize, end: usize) -> Row
    ensures { result ≡ record { start = min start end; end = end } }
{
    Row {
        start: start.min(end),
        end,
    }
}

/// The length of the first break that matches at the beginning, or 0. If no break begins with a
/// printed character, the breaks aren't tried at printed characters.
#[tactic(auto, using(crate::proofs::RowLemmas::printed_none, crate::proofs::RowLemmas::begins_with_none))]
fn width_at(passes: bool, breaks: &[&str], rest: &[u8]) -> usize
    requires { IsTrue passes → begin_unprinted breaks.now ≡ true }
    ensures value { result ≡ break_len (map (λ it. it.now) breaks.now) rest.now }
    ensures whole { BeginsWithText rest.now result }
{
    if passes && is_printed(first_of(rest)) {
        return 0;
    }
    break_at(breaks, rest)
}

/// Whether no break begins with a printed character of ASCII.
fn pass_printed(breaks: &[&str]) -> bool
    ensures { result ≡ begin_unprinted breaks.now }
{
    breaks
        .iter()
        .all(|text| !is_printed(first_of(text.as_bytes())))
}

/// Whether a byte is a printed character of ASCII.
fn is_printed(byte: u8) -> bool
    ensures { result ≡ printed byte }
{
    0x20 <= byte && byte < 0x7F
}

/// The first byte, or 0 where there is none.
fn first_of(bytes: &[u8]) -> u8
    ensures { result ≡ slice_index bytes.now 0 }
{
    match bytes.first() {
        Some(byte) => *byte,
        None => 0,
    }
}

/// The length of the first break that matches at the beginning, or 0.
#[tactic(auto, using(crate::proofs::RowLemmas::begins_with, crate::proofs::RowLemmas::begins_with_none))]
fn break_at(breaks: &[&str], rest: &[u8]) -> usize
    ensures value { result ≡ break_len (map (λ it. it.now) breaks.now) rest.now }
    ensures whole { BeginsWithText rest.now result }
{
    for text in breaks {
        let bytes = text.as_bytes();
        if !bytes.is_empty() && rest.starts_with(bytes) {
            return bytes.len();
        }
    }
    0
}

/// The length of the byte order mark at the beginning of a text, or 0.
#[tactic(auto, using(crate::proofs::RowLemmas::begins_with_mark, crate::proofs::RowLemmas::begins_with_none))]
pub(crate) fn mark_len(text: &str) -> usize
    ensures value { result ≡ mark_width text.now }
    ensures whole { BeginsWithText text.now result }
{
    if text.as_bytes().starts_with(&[0xEF, 0xBB, 0xBF]) {
        3
    } else {
        0
    }
}
