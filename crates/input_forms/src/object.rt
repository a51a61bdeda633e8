// The JSON object among other lines.
ghost use Rattle.std.specs.Prelude.{◌≡◌, ◌≤◌, IfOk, false, length};
ghost use Rattle.std.specs.List.{list_any};
ghost use Rattle.json.specs.Lex.{tokens};
ghost use Rattle.json.specs.Reads.{token_of};
ghost use Rattle.input_forms.specs.Object.{IsJsonPart, has_files as has_key_files};
ghost use Rattle.input_forms.specs.Scanned.{is_files_key, names_files as names_key_files};

use json::{Reader, Scratch, Token};
use memchr::memmem;
use sarif_log::log_in;
use serde_json::Value;
use std::alloc::{AllocError, Global};
use std::ops::Range;

/// The range of bytes of the JSON object among other lines: from the first `{` that begins a line
/// through the last `}`; the whole input if there are none.
pub fn json_part(bytes: &[u8]) -> Range<usize>
    ensures range { (result.start ≤ result.end) × (result.end ≤ length bytes.now) }
    ensures part { IsJsonPart bytes.now result }
{
    match log_in(bytes) {
        Some(range) => range,
        None => 0..bytes.len(),
    }
}

/// Whether a text is JSON that has the key `files`, as documents of files and reports do.
///
/// A text without the key costs a search for it. If it has `\u` escapes, which may spell the key,
/// it costs a pass over the tokens. Only a text with such a key is parsed into a value.
///
/// # Errors
///
/// Out of memory.
#[tactic(auto, using(crate::proofs::KeyLemmas::none_unnamed))]
pub fn has_files(alloc: Global, text: &[u8]) -> Result<bool, AllocError>
    ensures { IfOk result (λ has. has ≡ has_key_files text.now) }
{
    if may_name_files(text) && names_files(alloc, text)? {
        has_files_on_top(alloc, text)
    } else {
        Ok(false)
    }
}

/// The same, decided by the parsed value.
#[tactic(auto, unfolding(crate::specs::Object::has_files))]
fn has_files_on_top(alloc: Global, text: &[u8]) -> Result<bool, AllocError>
    ensures { IfOk result (λ has. has ≡ has_key_files text.now) }
{
    match Value::from_slice(alloc, text) {
        Ok(value) => Ok(value.get("files").is_some()),
        Err(e) if e.is_memory() => Err(AllocError),
        Err(_) => Ok(false),
    }
}

/// Whether a key of a text may be `files`: whether `files"` or a `\u` escape is in it, since no
/// other escape is a letter.
#[tactic(auto, using(crate::proofs::SpelledLemmas::none_found))]
fn may_name_files(bytes: &[u8]) -> bool
    ensures none { result ≡ false → names_key_files bytes.now ≡ false }
{
    memmem::find(bytes, b"files\"").is_some() || memmem::find(bytes, b"\\u").is_some()
}

/// Whether a text has the key `files` at any depth.
fn names_files(alloc: Global, bytes: &[u8]) -> Result<bool, AllocError>
    ensures { IfOk result (λ named. named ≡ names_key_files bytes.now) }
{
    match std::str::from_utf8(bytes) {
        Ok(text) => has_files_key(alloc, text),
        Err(_) => Ok(false),
    }
}

/// Whether one of the tokens of a text is the key `files`.
fn has_files_key(alloc: Global, text: &str) -> Result<bool, AllocError>
    ensures { IfOk result (λ has. has ≡ list_any is_files_key (tokens text.now)) }
{
    let mut scratch = Scratch::new(alloc);
    let mut reader = Reader::new(text, &mut scratch)?;
    while let Some(token) = reader.next() {
        if is_files(token) {
            return Ok(true);
        }
    }
    Ok(false)
}

/// Whether a token is the key `files`.
fn is_files(token: Token<'_>) -> bool
    ensures { result ≡ is_files_key (token_of token.entry) }
{
    match token {
        Token::Key(key) => key == "files",
        _ => false,
    }
}
