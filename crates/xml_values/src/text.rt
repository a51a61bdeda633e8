//! Texts: the ends of rows, and references to characters.
ghost use Rattle.std.specs.Prelude.{◌≡◌, ◌+◌, ◌*◌, ◌++◌, ◌<◌, ◌≤◌, IfErr, OnOk, Some, None, length};
ghost use Rattle.std.specs.Char.{digit_value as value_of_digit, encode_utf8};
ghost use Rattle.std.specs.Str.{bytes_eq};
ghost use Rattle.xml_values.specs.Text.{Means, begins_break as breaks, digits as digits_in};
ghost use Rattle.xml_values.specs.Text.{entity as entity_named, if_char, is_char as can_be};
ghost use Rattle.xml_values.specs.Text.{meaning as meant, numbered as number_in, plain};
ghost use Rattle.xml_values.specs.Text.{numbered_after, read_byte as byte_read, text_after};

use crate::error::{Wanted, XmlError, refused};
use crate::marks::{Class, after, after_first, is_blank, split_mark, split_run};
use std::alloc::AllocError;

pub(crate) fn is_word(bytes: &[u8], word: &[u8]) -> bool
    ensures { result ≡ bytes_eq bytes.now word.now }
{
    bytes == word
}

fn begins_break(bytes: &[u8]) -> bool
    ensures { result ≡ breaks bytes.now }
{
    match bytes {
        [byte, ..] => *byte == b'\n',
        [] => false,
    }
}

/// A byte as it is read.
fn read_byte(in_attribute: bool, byte: u8) -> u8
    ensures { result ≡ byte_read in_attribute byte }
{
    if in_attribute && is_blank(byte) {
        b' '
    } else if byte == b'\r' {
        b'\n'
    } else {
        byte
    }
}

/// Appends a text without references.
fn push_plain(out: &mut Vec<u8>, text: &[u8], in_attribute: bool) -> Result<(), AllocError>
    ensures { OnOk result (out.new.items ≡ out.old.items ++ plain in_attribute text.now) }
{
    let mut rest = text;
    while let [byte, more @ ..] = rest {
        if !(*byte == b'\r' && begins_break(more)) {
            out.push(read_byte(in_attribute, *byte))?;
        }
        rest = more;
    }
    Ok(())
}

/// Whether XML can hold a character.
fn is_char(code: u32) -> bool
    ensures { result ≡ can_be code }
{
    (code == 0x09 || code == 0x0A || code == 0x0D)
        || (0x20 <= code && code <= 0xD7FF)
        || (0xE000 <= code && code <= 0xFFFD)
        || (0x10000 <= code && code <= 0x10FFFF)
}

fn digit_value(byte: u8) -> u32
    ensures value { result ≡ value_of_digit byte }
    ensures bound { result ≤ 36 }
{
    match byte {
        b'0'..=b'9' => (byte - b'0') as u32,
        b'A'..=b'Z' => (byte - b'A') as u32 + 10,
        b'a'..=b'z' => (byte - b'a') as u32 + 10,
        _ => 36,
    }
}

/// The number that digits are; it stops above 0x10FFFF.
fn digits(base: u32, text: &[u8]) -> Option<u32>
    requires { base ≤ 16 }
    ensures { result ≡ digits_in base 0 text.now }
{
    let mut value = 0u32;
    let mut rest = text;
    while let [byte, more @ ..] = rest {
        let digit = digit_value(*byte);
        if digit >= base || value >= 0x11_0000 {
            return None;
        }
        value = value * base + digit;
        rest = more;
    }
    Some(value)
}

fn char_of(code: u32) -> Option<char>
    ensures { result ≡ if_char code }
{
    if is_char(code) {
        char::from_u32(code)
    } else {
        None
    }
}

/// The character whose number digits are.
fn numbered(base: u32, text: &[u8]) -> Option<char>
    requires { base ≤ 16 }
    ensures { result ≡ number_in base text.now }
{
    match digits(base, text) {
        Some(code) => char_of(code),
        None => None,
    }
}

/// The character whose number is after a mark.
fn after_mark(mark: &[u8], base: u32, name: &[u8]) -> Option<char>
    requires { base ≤ 16 }
    ensures { result ≡ numbered_after mark.now base name.now }
{
    match after(mark, name) {
        Some(text) => numbered(base, text),
        None => None,
    }
}

fn entity(name: &[u8]) -> Option<char>
    ensures { result ≡ entity_named name.now }
{
    if is_word(name, b"lt") {
        Some('<')
    } else if is_word(name, b"gt") {
        Some('>')
    } else if is_word(name, b"amp") {
        Some('&')
    } else if is_word(name, b"quot") {
        Some('"')
    } else if is_word(name, b"apos") {
        Some('\'')
    } else {
        None
    }
}

/// The character that a reference means, by what is between `&` and `;`.
#[tactic(auto, unfolding(crate::specs::Text::meaning))]
fn meaning(name: &[u8]) -> Option<char>
    ensures { result ≡ meant name.now }
{
    if let Some(it) = after_mark(b"#x", 16, name) {
        return Some(it);
    }
    if let Some(it) = after_mark(b"#X", 16, name) {
        return Some(it);
    }
    if let Some(it) = after_mark(b"#", 10, name) {
        return Some(it);
    }
    entity(name)
}

/// Appends a character.
fn push_char(out: &mut Vec<u8>, it: char) -> Result<(), AllocError>
    ensures { OnOk result (out.new.items ≡ out.old.items ++ encode_utf8 it) }
{
    let mut bytes = [0; 4];
    out.extend_from_slice(it.encode_utf8(&mut bytes).as_bytes())
}

/// Appends a text as it is read, with its references. `source` is the input up to its end.
///
/// # Errors
///
/// A reference that isn't one. Out of memory may come instead.
#[tactic(auto, using(crate::proofs::TextLemmas::text_end, crate::proofs::TextLemmas::text_open, crate::proofs::TextLemmas::text_unknown, crate::proofs::TextLemmas::text_turn, crate::proofs::TextLemmas::text_spent))]
pub(crate) fn push_text(
    source: &[u8],
    out: &mut Vec<u8>,
    text: &[u8],
    in_attribute: bool,
) -> Result<(), XmlError>
    ensures text { OnOk result (text_after in_attribute out.old.items text.now
        ≡ Some out.new.items) }
    ensures cause { IfErr result
        (Means (text_after in_attribute out.old.items text.now ≡ None)) }
{
    let mut rest = text;
    for _turn in 0..text.len() + 1 {
        let (front, back) = split_run(Class::Until(b'&'), rest);
        push_plain(out, front, in_attribute)?;
        let Some(from) = after_first(back) else {
            return Ok(());
        };
        let Some((name, more)) = split_mark(b";", from) else {
            return Err(refused(source, back, Wanted::Reference));
        };
        let Some(it) = meaning(name) else {
            return Err(refused(source, back, Wanted::Reference));
        };
        push_char(out, it)?;
        rest = more;
    }
    Err(refused(source, rest, Wanted::Reference))
}
