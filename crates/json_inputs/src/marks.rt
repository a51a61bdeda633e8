//! The marks of SARIF logs and of documents.
ghost use Rattle.std.specs.Prelude.{◌≡◌, ◌≤◌, IfOk, false};
ghost use Rattle.json.specs.Lex.{tokens};
ghost use Rattle.json.specs.Reads.{token_of};
ghost use Rattle.json_inputs.specs.Marks.{array_ahead, deep_after, ends as ends_at};
ghost use Rattle.json_inputs.specs.Marks.{has_array as has_named_array, is_array};
ghost use Rattle.json_inputs.specs.Marks.{is_key as is_key_named, is_report_object as is_one};
ghost use Rattle.json_inputs.specs.Marks.{top_array};

use json::{MAX_DEPTH, Reader, Scratch, Token};
use std::alloc::{AllocError, Global};

/// Whether an input begins with an object that is a SARIF log (`runs` is an array) or a document
/// (`files` and `reports` are arrays). Give it without a byte order mark. It stops once that is
/// known, which for logs is at `runs`.
///
/// # Errors
///
/// Out of memory.
#[tactic(auto, unfolding(crate::specs::Marks::is_report_object))]
pub fn is_report_object(alloc: Global, bytes: &[u8]) -> Result<bool, AllocError>
    ensures { IfOk result (λ is. is ≡ is_one bytes.now) }
{
    if has_array(alloc, bytes, "runs")? {
        return Ok(true);
    }
    Ok(has_array(alloc, bytes, "reports")? && has_array(alloc, bytes, "files")?)
}

/// Whether bytes begin with an object that has an array of this name.
fn has_array(alloc: Global, bytes: &[u8], name: &str) -> Result<bool, AllocError>
    ensures { IfOk result (λ has. has ≡ has_named_array name.now bytes.now) }
{
    match std::str::from_utf8(bytes) {
        Ok(text) => object_has(alloc, text, name),
        Err(_) => Ok(false),
    }
}

fn object_has(alloc: Global, text: &str, name: &str) -> Result<bool, AllocError>
    ensures { IfOk result (λ has. has ≡ top_array name.now (tokens text.now)) }
{
    let mut scratch = Scratch::new(alloc);
    let mut reader = Reader::new(text, &mut scratch)?;
    match reader.next() {
        Some(Token::BeginObject) => Ok(rest_has(&mut reader, name)),
        _ => Ok(false),
    }
}

/// Whether an object whose brace was read has an array of this name.
fn rest_has(reader: &mut Reader<'_>, name: &str) -> bool
    ensures { result ≡ array_ahead name.now 1 false reader.old }
{
    let mut depth = 1usize;
    let mut is_named = false;
    while let Some(token) = reader.next() {
        if is_named && begins_array(token) {
            return true;
        }
        if ends(depth, token) {
            return false;
        }
        is_named = depth == 1 && is_key(token, name);
        depth = depth_after(depth, token);
    }
    false
}

fn begins_array(token: Token<'_>) -> bool
    ensures { result ≡ is_array (token_of token.entry) }
{
    match token {
        Token::BeginArray => true,
        _ => false,
    }
}

/// Whether a token is a key of this name.
fn is_key(token: Token<'_>, name: &str) -> bool
    ensures { result ≡ is_key_named name.now (token_of token.entry) }
{
    match token {
        Token::Key(key) => key == name,
        _ => false,
    }
}

/// Whether an object ends at a token: it closes, its text is wrong, or it is too deep.
fn ends(depth: usize, token: Token<'_>) -> bool
    ensures { result ≡ ends_at depth (token_of token.entry) }
{
    match token {
        Token::BeginObject | Token::BeginArray => depth >= MAX_DEPTH,
        Token::EndObject | Token::EndArray => depth <= 1,
        Token::Bad => true,
        _ => false,
    }
}

/// How many brackets are open after a token.
fn depth_after(depth: usize, token: Token<'_>) -> usize
    requires { depth ≤ 128 }
    ensures { result ≡ deep_after depth (token_of token.entry) }
{
    match token {
        Token::BeginObject | Token::BeginArray => depth + 1,
        Token::EndObject | Token::EndArray => depth.saturating_sub(1),
        _ => depth,
    }
}
