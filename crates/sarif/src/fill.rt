//! Arguments in messages.
ghost use Rattle.std.specs.Prelude.{◌≡◌, ◌++◌, ◌<◌, ◌≤◌, ◌+◌, ℕ, length, true, false, map};
ghost use Rattle.std.specs.Prelude.{slice_index, slice_range, string_bytes, option_map};
ghost use Rattle.std.specs.Prelude.{option_and_then, slice_get, IfOk, OnOk, IsTrue};
ghost use Rattle.std.specs.Str.{IsCharBoundary};
ghost use Rattle.numerals.specs.Numerals.{number_in};
ghost use Rattle.sarif.specs.Fill.{argument_in, digits_len as digits_there, filled_from};
ghost use Rattle.sarif.specs.Fill.{is_brace as is_brace_byte};
ghost use Rattle.sarif.specs.Fill.{is_placeholder as stands_placeholder, piece_at};

use numerals::number_of;
use std::alloc::{AllocError, Global};

/// A text with its arguments: `{0}`, `{1}`.. are replaced by the arguments, those past the last
/// stay as they are, and doubled braces become one.
///
/// # Errors
///
/// Out of memory.
pub(crate) fn filled(alloc: Global, text: &str, arguments: &[String]) -> Result<String, AllocError>
    ensures { IfOk result (λ it. string_bytes it
        ≡ filled_from (map string_bytes arguments.now) 0 text.now) }
{
    let mut out = String::new(alloc);
    let mut at = 0;
    while at < text.len() {
        let rest = &text[at..];
        let plain = plain_len(rest);
        if plain > 0 {
            out.push_str(&rest[..plain])?;
            at += plain;
        } else {
            at += push_piece(&mut out, rest, arguments)?;
        }
    }
    Ok(out)
}

/// The number of bytes before the first brace.
fn plain_len(rest: &str) -> usize
    ensures within { result ≤ length rest.now }
    ensures plain { (k : ℕ) → k < result → is_brace_byte (slice_index rest.now k) ≡ false }
    ensures brace { result < length rest.now → is_brace_byte (slice_index rest.now result) ≡ true }
    ensures boundary { IsCharBoundary rest.now result }
{
    let bytes = rest.as_bytes();
    for (at, byte) in bytes.iter().enumerate() {
        if *byte == b'{' || *byte == b'}' {
            return at;
        }
    }
    bytes.len()
}

/// Appends the text for the bytes at a brace, and gives how many bytes these are.
#[tactic(auto, unfolding(crate::specs::Fill::piece_at))]
fn push_piece(out: &mut String, rest: &str, arguments: &[String]) -> Result<usize, AllocError>
    requires some { 0 < length rest.now }
    requires brace { is_brace_byte (slice_index rest.now 0) ≡ true }
    ensures text { OnOk result (string_bytes out.new
        ≡ string_bytes out.old ++ (piece_at (map string_bytes arguments.now) rest.now).text) }
    ensures width { IfOk result (λ width. width
        ≡ (piece_at (map string_bytes arguments.now) rest.now).width) }
    ensures goes_on { IfOk result (λ width. 0 < width) }
    ensures boundary { IfOk result (IsCharBoundary rest.now) }
{
    let bytes = rest.as_bytes();
    let first = byte_at(bytes, 0);
    let second = byte_at(bytes, 1);
    if first == b'{' && second == b'{' {
        out.push_str("{")?;
        return Ok(2);
    }
    if first == b'}' && second == b'}' {
        out.push_str("}")?;
        return Ok(2);
    }
    let digits = digits_len(bytes);
    if is_placeholder(bytes, digits) {
        push_argument(out, rest, digits, arguments)?;
        return Ok(digits + 2);
    }
    out.push_str(&rest[..1])?;
    Ok(1)
}

/// The byte at an offset, or 0 past the end.
pub(crate) fn byte_at(bytes: &[u8], at: usize) -> u8
    ensures { result ≡ slice_index bytes.now at }
{
    match bytes.get(at) {
        Some(byte) => *byte,
        None => 0,
    }
}

/// The number of digits after the first byte.
fn digits_len(bytes: &[u8]) -> usize
    ensures value { result ≡ digits_there bytes.now }
    ensures within { 0 < result → result < length bytes.now }
{
    match bytes.split_first() {
        Some((_, rest)) => rest.iter().take_while(|byte| byte.is_ascii_digit()).count(),
        None => 0,
    }
}

fn is_placeholder(bytes: &[u8], digits: usize) -> bool
    requires { 0 < digits → digits < length bytes.now }
    ensures { result ≡ stands_placeholder bytes.now digits }
{
    byte_at(bytes, 0) == b'{'
        && 0 < digits
        && (digits == 1 || byte_at(bytes, 1) != b'0')
        && byte_at(bytes, digits + 1) == b'}'
}

/// Appends the argument of a placeholder, or the placeholder if there is none.
fn push_argument(
    out: &mut String,
    rest: &str,
    digits: usize,
    arguments: &[String],
) -> Result<(), AllocError>
    requires { stands_placeholder rest.now digits ≡ true }
    ensures { OnOk result (string_bytes out.new ≡ string_bytes out.old ++ argument_in
        (map string_bytes arguments.now) rest.now digits) }
{
    match argument(&rest[1..digits + 1], arguments) {
        Some(text) => out.push_str(text),
        None => out.push_str(&rest[..digits + 2]),
    }
}

fn argument<'a>(digits: &str, arguments: &'a [String]) -> Option<&'a str>
    ensures { option_map (λ text. text.now) result
        ≡ option_and_then (slice_get (map string_bytes arguments.now)) (number_in digits.now) }
{
    let number = number_of(digits)?;
    let text = arguments.get(number)?;
    Some(text.as_str())
}
