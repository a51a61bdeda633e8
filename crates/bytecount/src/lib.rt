//! Counts of a byte, and of the characters of a text, eight or thirty-two bytes at a time.
#![tactic(auto)]

ghost use Rattle.std.specs.Prelude.{◌≡◌, ◌≤◌, ◌==◌, count_by, length};
ghost use Rattle.std.specs.Str.{IsUtf8, chars};
ghost use Rattle.bytecount.specs.Counts.{char_count};

pub mod integer_simd;
mod naive;
mod simd;

pub use crate::naive::{naive_count, naive_count_32, naive_num_chars};

/// How many bytes of `haystack` equal `needle`.
///
/// From eight bytes on they are counted a word at a time, and from thirty-two on a vector at a
/// time.
pub fn count(haystack: &[u8], needle: u8) -> usize
    ensures { result ≡ count_by (λ byte. byte == needle) haystack.now }
{
    if haystack.len() >= 32 {
        return simd::chunk_count(haystack, needle);
    }
    if haystack.len() >= 8 {
        return integer_simd::chunk_count(haystack, needle);
    }
    naive_count(haystack, needle)
}

/// How many bytes of `utf8_chars` begin a character: those whose two top bits aren't 10.
pub fn num_chars(utf8_chars: &[u8]) -> usize
    ensures count { result ≡ char_count utf8_chars.now }
    ensures bound { result ≤ length utf8_chars.now }
    ensures chars { IsUtf8 utf8_chars.now → result ≡ length (chars utf8_chars.now) }
{
    if utf8_chars.len() >= 32 {
        return simd::chunk_num_chars(utf8_chars);
    }
    if utf8_chars.len() >= 8 {
        return integer_simd::chunk_num_chars(utf8_chars);
    }
    naive_num_chars(utf8_chars)
}
