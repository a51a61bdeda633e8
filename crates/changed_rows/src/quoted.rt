// Names as a diff's heads write them.
ghost use Rattle.std.specs.Prelude.{◌≡◌, ◌≤◌, ◌++◌, ◌∷◌, [], Ok, Err, IfOk, IfErr, IfSome, OnOk, length};
ghost use Rattle.changed_rows.specs.Quoted.{escape_of as escape_in, is_octal as is_octal_digit};
ghost use Rattle.changed_rows.specs.Quoted.{name_in, piece_at, unquoted};
ghost use Rattle.changed_rows.specs.Refused.{IfRefused};

use crate::error::{DiffError, Refusal, Wanted};
use crate::lines::{before, without_cr};
use std::alloc::{AllocError, Global};

/// The name that a head gives in its rest: up to a tab, or as git quotes it. `row` is the row of
/// the head.
///
/// # Errors
///
/// A quoted name isn't as git quotes it, or out of memory.
#[tactic(auto, unfolding(crate::specs::Quoted::name_in))]
pub fn name_of(alloc: Global, text: &[u8], row: usize) -> Result<Vec<u8>, DiffError>
    ensures read { IfOk result (λ name. name_in row text.now ≡ Ok name.items) }
    ensures refused { IfErr result (λ error. IfRefused error (λ it. name_in row text.now ≡ Err it)) }
{
    let line = without_cr(text);
    match line {
        [b'"', quoted @ ..] => unquote(alloc, quoted, row),
        _ => Ok(before(line, b'\t').to_vec(alloc)?),
    }
}

/// The text that git quoted, from the byte after the opening quote on.
fn unquote(alloc: Global, quoted: &[u8], row: usize) -> Result<Vec<u8>, DiffError>
    ensures read { IfOk result (λ name. unquoted row quoted.now ≡ Ok name.items) }
    ensures refused { IfErr result (λ error. IfRefused error (λ it. unquoted row quoted.now ≡ Err it)) }
{
    let mut name = Vec::new(alloc);
    let mut rest = quoted;
    while let [byte, others @ ..] = rest {
        if *byte == b'"' {
            return Ok(name);
        }
        let Some((value, size)) = piece(rest) else {
            return Err(refused(row, Wanted::Escape));
        };
        push(&mut name, value)?;
        rest = &others[size - 1..];
    }
    Err(refused(row, Wanted::Quote))
}

fn push(name: &mut Vec<u8>, byte: u8) -> Result<(), AllocError>
    ensures { OnOk result (name.new.items ≡ name.old.items ++ byte ∷ []) }
{
    name.push(byte)?;
    Ok(())
}

fn refused(row: usize, wanted: Wanted) -> DiffError
    ensures { result ≡ DiffError.Refused (record { row = row; wanted = wanted }) }
{
    DiffError::Refused(Refusal { row, wanted })
}

/// The byte that a quoted text begins with, and how many bytes write it.
fn piece(text: &[u8]) -> Option<(u8, usize)>
    ensures value { result ≡ piece_at text.now }
    ensures within { IfSome result (λ it. (1 ≤ it.1) × (it.1 ≤ length text.now)) }
{
    match text {
        [b'\\', a, b, c, ..] if is_octal(*a, b'3') && is_octal(*b, b'7') && is_octal(*c, b'7') => {
            Some(((*a - b'0') * 64 + (*b - b'0') * 8 + (*c - b'0'), 4))
        }
        [b'\\', letter, ..] => escape_of(*letter).map(|value| (value, 2)),
        [b'\\'] | [] => None,
        [byte, ..] => Some((*byte, 1)),
    }
}

/// Whether a byte is an octal digit up to another.
fn is_octal(byte: u8, last: u8) -> bool
    ensures { result ≡ is_octal_digit byte last }
{
    b'0' <= byte && byte <= last
}

/// What a letter after a backslash writes.
fn escape_of(letter: u8) -> Option<u8>
    ensures { result ≡ escape_in letter }
{
    match letter {
        b'a' => Some(0x07),
        b'b' => Some(0x08),
        b't' => Some(b'\t'),
        b'n' => Some(b'\n'),
        b'v' => Some(0x0B),
        b'f' => Some(0x0C),
        b'r' => Some(b'\r'),
        b'"' | b'\\' => Some(letter),
        _ => None,
    }
}
