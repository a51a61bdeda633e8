//! Documents.
ghost use Rattle.std.specs.Prelude.{◌≡◌, IfErr, IfOk, None, Some};
ghost use Rattle.std.specs.Option.{option_copied};
ghost use Rattle.json.specs.Value.{value_view};
ghost use Rattle.xml_values.specs.Text.{Means};
ghost use Rattle.xml_values.specs.Document.{begins_blank as blank_first};
ghost use Rattle.xml_values.specs.Document.{begins_control as control_first};
ghost use Rattle.xml_values.specs.Document.{begins_no_char as no_char_first, body as body_of};
ghost use Rattle.xml_values.specs.Document.{declaration as declaration_in, encoding as encoding_in};
ghost use Rattle.xml_values.specs.Document.{from_no_char as no_char_from};
ghost use Rattle.xml_values.specs.Document.{is_in_any_case as in_any_case, lower as lower_of};
ghost use Rattle.xml_values.specs.Document.{is_utf8_name as names_utf8, past_misc, value_of};
ghost use Rattle.xml_values.specs.Document.{value_of_body, value_of_text};
ghost use Rattle.xml_values.specs.Views.{document_view};

use crate::element::{Element, passed, read_element};
use crate::error::{Wanted, XmlError, refused};
use crate::marks::{after, is_blank, skip_blanks, split_mark};
use crate::tag::assigned;
use crate::value::{element_value, text_of};
use json::Value;
use std::alloc::{AllocError, Global};

/// How deep elements may nest.
const MAX_DEPTH: usize = 127;

/// What an input says that is XML.
#[derive(Drop)]
pub struct Document<'t> {
    name: &'t [u8],
    root: Element<'t>,
}

impl<'t> Document<'t> {
    /// The value: an object with the one element.
    ///
    /// An element is an object: texts by the names of its attributes, arrays by the names of its
    /// children, and its own text, without blanks at both ends, as `#text`.
    ///
    /// # Errors
    ///
    /// Out of memory.
    pub fn value<'v>(&'v self, alloc: Global) -> Result<Value<'v>, AllocError>
        ensures { IfOk result (λ it. value_view it ≡ document_view self.entry.now) }
    {
        let mut members = Vec::new(alloc);
        let root = element_value(alloc, &self.root)?;
        members.push((text_of(self.name)?, root))?;
        Ok(Value::Object(members))
    }
}

/// An input without its byte order mark.
fn body(bytes: &[u8]) -> &[u8]
    ensures { result.now ≡ body_of bytes.now }
{
    match after(b"\xEF\xBB\xBF", bytes) {
        Some(rest) => rest,
        None => bytes,
    }
}

/// Whether a control character, U+FFFE or U+FFFF begins here.
fn begins_no_char(bytes: &[u8]) -> bool
    ensures { result ≡ no_char_first bytes.now }
{
    begins_control(bytes)
        || bytes.starts_with(b"\xEF\xBF\xBE")
        || bytes.starts_with(b"\xEF\xBF\xBF")
}

fn begins_control(bytes: &[u8]) -> bool
    ensures { result ≡ control_first bytes.now }
{
    match bytes {
        [byte, ..] => *byte < b' ' && !is_blank(*byte),
        [] => false,
    }
}

/// What is from the first character on that XML can't hold.
fn from_no_char(bytes: &[u8]) -> Option<&[u8]>
    ensures { option_copied result ≡ no_char_from bytes.now }
{
    let mut rest = bytes;
    while let [_, more @ ..] = rest {
        if begins_no_char(rest) {
            return Some(rest);
        }
        rest = more;
    }
    None
}

fn begins_blank(bytes: &[u8]) -> bool
    ensures { result ≡ blank_first bytes.now }
{
    match bytes {
        [byte, ..] => is_blank(*byte),
        [] => false,
    }
}

/// Whether bytes are a word, in any case.
fn is_in_any_case(bytes: &[u8], word: &[u8]) -> bool
    ensures { result ≡ in_any_case bytes.now word.now }
{
    if bytes.len() != word.len() {
        return false;
    }
    for at in 0..bytes.len() {
        if lower(bytes[at]) != word[at] {
            return false;
        }
    }
    true
}

fn lower(byte: u8) -> u8
    ensures { result ≡ lower_of byte }
{
    match byte {
        b'A'..=b'Z' => byte + 32,
        _ => byte,
    }
}

/// What is after `<?xml` before a blank.
fn declaration(text: &[u8]) -> Option<&[u8]>
    ensures { option_copied result ≡ declaration_in text.now }
{
    match after(b"<?xml", skip_blanks(text)) {
        Some(rest) if begins_blank(rest) => Some(rest),
        _ => None,
    }
}

/// The encoding that the declaration names.
fn encoding(text: &[u8]) -> Option<&[u8]>
    ensures { option_copied result ≡ encoding_in text.now }
{
    let (inner, _) = split_mark(b"?>", declaration(text)?)?;
    let (_, from) = split_mark(b"encoding", inner)?;
    let (name, _) = assigned(from)?;
    Some(name)
}

fn is_utf8_name(name: Option<&[u8]>) -> bool
    ensures { result ≡ names_utf8 (option_copied name.entry) }
{
    match name {
        Some(name) => {
            is_in_any_case(name, b"utf-8")
                || is_in_any_case(name, b"us-ascii")
                || is_in_any_case(name, b"ascii")
        }
        None => true,
    }
}

/// What is after blanks, comments and instructions.
#[tactic(auto, using(crate::proofs::ContentLemmas::skipped_end, crate::proofs::ContentLemmas::skipped_turn, crate::proofs::ContentLemmas::skipped_spent))]
fn skip_misc(bytes: &[u8]) -> &[u8]
    ensures { result.now ≡ past_misc bytes.now }
{
    let mut rest = bytes;
    for _turn in 0..bytes.len() + 1 {
        let solid = skip_blanks(rest);
        match passed(solid) {
            Some(more) => rest = more,
            None => return solid,
        }
    }
    rest
}

/// The document in a text of characters of XML.
fn read_text<'t>(alloc: Global, source: &[u8], text: &'t [u8]) -> Result<Document<'t>, XmlError>
    ensures document { IfOk result (λ it. value_of_text text.entry.now
        ≡ Some (document_view it)) }
    ensures cause { IfErr result (Means (value_of_text text.entry.now ≡ None)) }
{
    let start = skip_misc(text);
    let Some(from) = after(b"<", start) else {
        return Err(refused(source, start, Wanted::Element));
    };
    let (name, root, rest) = read_element(alloc, source, from, MAX_DEPTH)?;
    let end = skip_misc(rest);
    if end.is_empty() {
        Ok(Document { name, root })
    } else {
        Err(refused(source, end, Wanted::End))
    }
}

/// The document in a text, if it is one of characters of XML.
fn read_body<'t>(alloc: Global, source: &[u8], text: &'t [u8]) -> Result<Document<'t>, XmlError>
    ensures document { IfOk result (λ it. value_of_body text.entry.now
        ≡ Some (document_view it)) }
    ensures cause { IfErr result (Means (value_of_body text.entry.now ≡ None)) }
{
    if let Some(rest) = from_no_char(text) {
        return Err(refused(source, rest, Wanted::Characters));
    }
    if !is_utf8_name(encoding(text)) {
        return Err(refused(source, text, Wanted::Utf8));
    }
    read_text(alloc, source, text)
}

/// The document that an input is. A byte order mark at its beginning is skipped.
///
/// It is one element, with comments and instructions round it. Nothing expands: a document type is
/// refused, and references are the five entities and the numbers of characters. It takes time in
/// the length of the input.
///
/// # Errors
///
/// [`XmlError::Refused`]: it is not UTF-8, or not such a document; with a row and a column. Out of
/// memory may come instead.
pub fn read_xml<'t>(alloc: Global, bytes: &'t [u8]) -> Result<Document<'t>, XmlError>
    ensures document { IfOk result (λ it. value_of bytes.entry.now ≡ Some (document_view it)) }
    ensures cause { IfErr result (Means (value_of bytes.entry.now ≡ None)) }
{
    if let Err(e) = std::str::from_utf8(bytes) {
        return Err(refused(bytes, from_index(bytes, e.valid_up_to()), Wanted::Utf8));
    }
    read_body(alloc, bytes, body(bytes))
}

/// What is from an index on.
fn from_index(bytes: &[u8], at: usize) -> &[u8] {
    match bytes.get(at..) {
        Some(rest) => rest,
        None => &[],
    }
}
