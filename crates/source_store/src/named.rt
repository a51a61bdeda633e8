// The path that a name in a tool's output means.
ghost use Rattle.std.specs.Prelude.{◌≡◌, IfOk};
ghost use Rattle.std.specs.Option.{option_copied};
ghost use Rattle.source_store.specs.Named.{behind as behind_front, decoded as decoded_of};
ghost use Rattle.source_store.specs.Named.{file_path as file_path_of, path_in as path_meant};
ghost use Rattle.source_store.specs.Place.{text_bytes};

use percent_encoding::percent_decode;
use std::alloc::{AllocError, Global};
use std::str;

/// How a tool spells the names of files.
#[derive(Clone, Copy)]
pub enum Spelling {
    /// As paths: without escapes.
    Path,
    /// As URIs, with percent escapes.
    Uri,
}

/// The path that a name means: that of a `file:` URI, else the name. Percent escapes are decoded
/// in a `file:` URI, and in any name if names are URIs. There is none if a URI names another
/// machine, or if the decoded bytes aren't UTF-8.
///
/// # Errors
///
/// Out of memory.
#[tactic(auto, unfolding(crate::specs::Named::path_in))]
pub fn path_in(alloc: Global, spelling: Spelling, name: &str) -> Result<Option<String>, AllocError>
    ensures { IfOk result (λ path. text_bytes path ≡ path_meant spelling name.now) }
{
    match behind(name.as_bytes(), b"file:") {
        Some(rest) => match file_path(rest) {
            Some(path) => decoded(alloc, path),
            None => Ok(None),
        },
        None => match spelling {
            Spelling::Path => Ok(Some(String::from_str(alloc, name)?)),
            Spelling::Uri => decoded(alloc, name.as_bytes()),
        },
    }
}

/// The path after `file:`, with its escapes decoded: if `//` comes next, the text from the slash
/// on that follows it or the name of this machine.
#[tactic(auto, unfolding(crate::specs::Named::file_path))]
fn file_path(rest: &[u8]) -> Option<&[u8]>
    ensures { option_copied result ≡ file_path_of rest.now }
{
    let Some(hosted) = behind(rest, b"//") else {
        return Some(rest);
    };
    let path = behind(hosted, b"localhost").unwrap_or(hosted);
    if path.first() == Some(&b'/') {
        Some(path)
    } else {
        None
    }
}

/// The text after a prefix.
fn behind<'a>(text: &'a [u8], front: &[u8]) -> Option<&'a [u8]>
    ensures { option_copied result ≡ behind_front front.now text.now }
{
    text.strip_prefix(front)
}

/// A text with its escapes decoded, if that is UTF-8.
#[tactic(auto, using(crate::proofs::NamedLemmas::decoded_text, crate::proofs::NamedLemmas::decoded_none))]
fn decoded(alloc: Global, text: &[u8]) -> Result<Option<String>, AllocError>
    ensures { IfOk result (λ path. text_bytes path ≡ decoded_of text.now) }
{
    let mut bytes = Vec::new(alloc);
    percent_decode(text).append_to(&mut bytes)?;
    match str::from_utf8(&bytes) {
        Ok(path) => Ok(Some(String::from_str(alloc, path)?)),
        Err(_) => Ok(None),
    }
}
