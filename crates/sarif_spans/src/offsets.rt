//! Offsets in characters, and in bytes.
ghost use Rattle.std.specs.Prelude.{◌≡◌, ◌≤◌, length, IfSome};
ghost use Rattle.std.specs.Str.{chars, IsCharBoundary};
ghost use Rattle.sarif_spans.specs.Span.{IsSpanOf, behind as place_behind, by_bytes as bytes_meant};
ghost use Rattle.sarif_spans.specs.Span.{by_characters as characters_meant, floor_of};
ghost use Rattle.sarif_spans.specs.Span.{passed as bytes_passed};

use crate::rows::mark_len;
use std::ops::Range;

/// The length in bytes of the first `count` characters.
fn passed(text: &str, count: usize) -> Option<usize>
    ensures value { result ≡ bytes_passed count (chars text.now) }
    ensures boundary { IfSome result (IsCharBoundary text.now) }
{
    let mut at = 0;
    let mut left = count;
    for c in text.chars() {
        if left == 0 {
            return Some(at);
        }
        at += c.len_utf8();
        left -= 1;
    }
    if left == 0 { Some(at) } else { None }
}

/// The offset that is `count` characters after another one.
#[tactic(auto, unfolding(crate::specs::Span::behind))]
fn behind(text: &str, at: usize, count: usize) -> Option<usize>
    requires { IsCharBoundary text.now at }
    ensures value { result ≡ place_behind text.now at count }
    ensures order { IfSome result (λ place. at ≤ place) }
    ensures boundary { IfSome result (IsCharBoundary text.now) }
{
    let bytes = passed(&text[at..], count)?;
    Some(at + bytes)
}

/// The bytes of a range in characters. A byte order mark before the text doesn't count.
#[tactic(auto, unfolding(crate::specs::Span::by_characters))]
pub(crate) fn by_characters(text: &str, offset: usize, count: usize) -> Option<Range<usize>>
    ensures value { result ≡ characters_meant text.now offset count }
    ensures cut { IfSome result (IsSpanOf text.now) }
{
    let mark = mark_len(text);
    let start = behind(text, mark, offset)?;
    let end = behind(text, start, count)?;
    Some(start..end)
}

/// The last character boundary up to this offset.
fn floor(text: &str, at: usize) -> usize
    ensures value { result ≡ floor_of text.now at }
    ensures boundary { IsCharBoundary text.now result }
{
    text.floor_char_boundary(at)
}

/// A range in bytes; an end inside a character is rounded down.
#[tactic(auto, using(crate::proofs::OffsetLemmas::floor_grows), unfolding(crate::specs::Span::by_bytes))]
pub(crate) fn by_bytes(text: &str, offset: usize, count: usize) -> Option<Range<usize>>
    ensures value { result ≡ bytes_meant text.now offset count }
    ensures cut { IfSome result (IsSpanOf text.now) }
{
    let end = offset.checked_add(count)?;
    if end > text.len() {
        return None;
    }
    Some(floor(text, offset)..floor(text, end))
}
