// The texts by which findings are compared.
ghost use Rattle.std.specs.Prelude.{◌≡◌, ◌++◌, ◌∷◌, [], not, map, filter, IfOk, OnOk, string_bytes};
ghost use Rattle.std.specs.List.{flat_map, list_all, slice_split};
ghost use Rattle.finding_filters.specs.Finding.{finding_parts};
ghost use Rattle.finding_filters.specs.Texts.{is_blank as is_blank_byte, is_digit as is_digit_byte};
ghost use Rattle.finding_filters.specs.Texts.{is_number as is_number_word, is_space as is_space_byte};
ghost use Rattle.finding_filters.specs.Texts.{is_word as is_word_byte, joined_on, kind_text, on_line};
ghost use Rattle.finding_filters.specs.Texts.{plain_message, plain_word, row_class, with_word};
ghost use Rattle.finding_filters.specs.Texts.{exact_text, number_text, severity_code, spot_text};
ghost use Rattle.finding_filters.specs.Texts.{zeroed_from};

use crate::finding::{FindingView, Spot};
use itoa::Buffer;
use oxc_protocol::Severity;
use std::alloc::{AllocError, Global};

/// The kind of a finding: its file, scope, code and message, each on a line. Findings with equal
/// kinds are alike.
#[tactic(auto, unfolding(crate::specs::Texts::kind_text))]
pub fn kind_of(alloc: Global, finding: &FindingView<'_>) -> Result<String, AllocError>
    ensures { IfOk result (λ kind. string_bytes kind ≡ kind_text (finding_parts finding.now)) }
{
    let mut kind = Vec::new(alloc);
    push_line(&mut kind, finding.file.as_bytes())?;
    push_line(&mut kind, finding.scope.as_bytes())?;
    push_line(&mut kind, finding.code.as_bytes())?;
    push_message(alloc, &mut kind, finding.message.as_bytes())?;
    String::from_utf8_lossy(alloc, &kind)
}

/// The kind of a finding and the text of its row, without blanks, on a line after it.
#[tactic(auto, unfolding(crate::specs::Texts::row_class))]
pub fn class_of(alloc: Global, kind: &str, row: &str) -> Result<String, AllocError>
    ensures { IfOk result (λ class. string_bytes class ≡ row_class kind.now row.now) }
{
    let mut class = Vec::new(alloc);
    class.extend_from_slice(kind.as_bytes())?;
    class.push(b'\n')?;
    push_dense(&mut class, row.as_bytes())?;
    String::from_utf8_lossy(alloc, &class)
}

/// The file, scope, code and message of a finding, each on a line, and then its place and its
/// severity. Findings with equal texts are repetitions.
#[tactic(auto, unfolding(crate::specs::Texts::exact_text))]
pub fn exact_of(alloc: Global, finding: &FindingView<'_>) -> Result<String, AllocError>
    ensures { IfOk result (λ text. string_bytes text ≡ exact_text (finding_parts finding.now)) }
{
    let mut text = Vec::new(alloc);
    push_line(&mut text, finding.file.as_bytes())?;
    push_line(&mut text, finding.scope.as_bytes())?;
    push_line(&mut text, finding.code.as_bytes())?;
    push_line(&mut text, finding.message.as_bytes())?;
    push_spot(&mut text, finding.start)?;
    push_spot(&mut text, finding.end)?;
    text.push(severity_byte(finding.severity))?;
    String::from_utf8_lossy(alloc, &text)
}

/// Appends a row and a column.
fn push_spot(out: &mut Vec<u8>, spot: Spot) -> Result<(), AllocError>
    ensures { OnOk result (out.new.items ≡ out.old.items ++ spot_text spot) }
{
    push_number(out, spot.row)?;
    push_number(out, spot.column)
}

/// Appends a number, if there is one, and a comma.
fn push_number(out: &mut Vec<u8>, number: Option<u32>) -> Result<(), AllocError>
    ensures { OnOk result (out.new.items ≡ out.old.items ++ number_text number) }
{
    if let Some(number) = number {
        out.extend_from_slice(Buffer::new().format(number).as_bytes())?;
    }
    out.push(b',')?;
    Ok(())
}

fn severity_byte(severity: Severity) -> u8
    ensures { result ≡ severity_code severity }
{
    match severity {
        Severity::Advice => b'1',
        Severity::Warning => b'2',
        Severity::Error => b'3',
    }
}

/// Appends a text, with its LFs and backslashes escaped, and an LF.
fn push_line(out: &mut Vec<u8>, text: &[u8]) -> Result<(), AllocError>
    ensures { OnOk result (out.new.items ≡ out.old.items ++ flat_map on_line text.now ++ 0x0A ∷ []) }
{
    for byte in text {
        push_on_line(out, *byte)?;
    }
    out.push(b'\n')?;
    Ok(())
}

/// Appends a byte, or what it is escaped as.
fn push_on_line(out: &mut Vec<u8>, byte: u8) -> Result<(), AllocError>
    ensures { OnOk result (out.new.items ≡ out.old.items ++ on_line byte) }
{
    if byte == b'\n' {
        out.extend_from_slice(b"\\n")?;
    } else if byte == b'\\' {
        out.extend_from_slice(b"\\\\")?;
    } else {
        out.push(byte)?;
    }
    Ok(())
}

/// Appends a text without its blanks.
fn push_dense(out: &mut Vec<u8>, text: &[u8]) -> Result<(), AllocError>
    ensures { OnOk result (out.new.items
        ≡ out.old.items ++ filter (λ byte. not (is_space_byte byte)) text.now) }
{
    for byte in text {
        if !is_space(*byte) {
            out.push(*byte)?;
        }
    }
    Ok(())
}

/// Appends a message with each number as 0, and blanks as one space.
#[tactic(auto, unfolding(crate::specs::Texts::plain_message))]
fn push_message(alloc: Global, out: &mut Vec<u8>, message: &[u8]) -> Result<(), AllocError>
    ensures { OnOk result (out.new.items ≡ out.old.items ++ plain_message message.now) }
{
    let plain = zeroed(alloc, message)?;
    let words = words_of(alloc, &plain)?;
    let joined = joined(alloc, &words)?;
    out.extend_from_slice(&joined)?;
    Ok(())
}

/// The texts between blanks.
fn words_of<'t>(alloc: Global, text: &'t [u8]) -> Result<Vec<&'t [u8]>, AllocError>
    ensures { IfOk result (λ words. map (λ word. word.now) words.items
        ≡ slice_split is_blank_byte text.entry.now) }
{
    text.split(|byte| is_blank(*byte)).collect(alloc)
}

/// The words that aren't empty, with a space between.
fn joined(alloc: Global, words: &[&[u8]]) -> Result<Vec<u8>, AllocError>
    ensures { IfOk result (λ text. text.items ≡ joined_on [] (map (λ word. word.now) words.now)) }
{
    let mut text = Vec::new(alloc);
    for word in words {
        push_word(&mut text, word)?;
    }
    Ok(text)
}

/// Appends a word that isn't empty, and a space before it if it isn't the first.
fn push_word(text: &mut Vec<u8>, word: &[u8]) -> Result<(), AllocError>
    ensures { OnOk result (text.new.items ≡ with_word text.old.items word.now) }
{
    if !word.is_empty() {
        if !text.is_empty() {
            text.push(b' ')?;
        }
        text.extend_from_slice(word)?;
    }
    Ok(())
}

/// A message with each number as 0.
fn zeroed(alloc: Global, message: &[u8]) -> Result<Vec<u8>, AllocError>
    ensures { IfOk result (λ text. text.items ≡ zeroed_from [] message.now) }
{
    let mut text = Vec::new(alloc);
    let mut word = Vec::new(alloc);
    for byte in message {
        if is_word(*byte) {
            word.push(*byte)?;
        } else {
            push_plain(&mut text, &word)?;
            word.clear();
            text.push(*byte)?;
        }
    }
    push_plain(&mut text, &word)?;
    Ok(text)
}

/// Appends a word, or 0 for a number.
fn push_plain(text: &mut Vec<u8>, word: &[u8]) -> Result<(), AllocError>
    ensures { OnOk result (text.new.items ≡ text.old.items ++ plain_word word.now) }
{
    if is_number(word) {
        text.push(b'0')?;
    } else {
        text.extend_from_slice(word)?;
    }
    Ok(())
}

/// Whether a word is of digits alone.
fn is_number(word: &[u8]) -> bool
    ensures { result ≡ is_number_word word.now }
{
    !word.is_empty() && are_digits(word)
}

fn are_digits(word: &[u8]) -> bool
    ensures { result ≡ list_all is_digit_byte word.now }
{
    word.iter().all(|byte| is_digit(*byte))
}

fn is_digit(byte: u8) -> bool
    ensures { result ≡ is_digit_byte byte }
{
    b'0' <= byte && byte <= b'9'
}

/// Whether a byte belongs to a word: a letter, a digit, `_` or a byte past ASCII.
fn is_word(byte: u8) -> bool
    ensures { result ≡ is_word_byte byte }
{
    is_digit(byte)
        || b'a' <= byte && byte <= b'z'
        || b'A' <= byte && byte <= b'Z'
        || byte == b'_'
        || byte >= 0x80
}

/// Whether a byte is a space, a tab, an LF or a CR.
fn is_blank(byte: u8) -> bool
    ensures { result ≡ is_blank_byte byte }
{
    byte == b' ' || byte == b'\t' || byte == b'\n' || byte == b'\r'
}

/// The same, or a vertical tab or a form feed.
fn is_space(byte: u8) -> bool
    ensures { result ≡ is_space_byte byte }
{
    is_blank(byte) || byte == 0x0B || byte == 0x0C
}
