//! Findings that are printed again.
ghost use Rattle.std.specs.Prelude.{◌≡◌, ◌++◌, ◌∷◌, [], IfOk, OnOk, map};
ghost use Rattle.std.specs.List.{flat_map};
ghost use Rattle.std.specs.Str.Lossy.{utf8_lossy};
ghost use Rattle.std.specs.String.{string_bytes};
ghost use Rattle.build_dirs.specs.Again.{KeysAreExact, key_lines, key_text, lossy_piece, none_seen};
ghost use Rattle.build_dirs.specs.Again.{piece_of, seen_in, tagged, with_seen};

use std::alloc::{AllocError, Global};
use std::collections::BTreeSet;
use std::str;

/// The lines of a finding or of a note, and the path that its name means.
#[derive(Clone, Copy)]
pub struct PrintedPiece<'a> {
    pub path: &'a str,
    pub lines: &'a [&'a str],
}

/// A text for a finding and its notes, which is equal exactly if all their lines and paths are.
///
/// # Errors
///
/// Out of memory.
pub fn key_of(alloc: Global, pieces: &[PrintedPiece]) -> Result<String, AllocError>
    ensures { IfOk result (λ key. string_bytes key ≡ key_text (map piece_of pieces.now)) }
{
    let mut key = String::new(alloc);
    for piece in pieces {
        push_line(&mut key, "@", piece.path)?;
        push_lines(&mut key, piece.lines)?;
    }
    Ok(key)
}

/// Appends a finding or a note to a key: the path that its name means, and its lines. Bytes that
/// are no UTF-8 count as replacement characters.
///
/// # Errors
///
/// Out of memory.
pub fn push_piece(
    alloc: Global,
    key: &mut String,
    path: &[u8],
    lines: &[&[u8]],
) -> Result<(), AllocError>
    ensures { OnOk result (string_bytes key.new ≡ string_bytes key.old
        ++ key_text (lossy_piece path.now (map (λ line. line.now) lines.now) ∷ [])) }
{
    push_bytes(alloc, key, "@", path)?;
    push_rows(alloc, key, lines)
}

fn push_rows(alloc: Global, key: &mut String, lines: &[&[u8]]) -> Result<(), AllocError>
    ensures { OnOk result (string_bytes key.new ≡ string_bytes key.old
        ++ key_lines (map (λ line. tagged 0x20 (utf8_lossy line.now)) lines.now)) }
{
    for line in lines {
        push_bytes(alloc, key, " ", line)?;
    }
    Ok(())
}

fn push_bytes(alloc: Global, key: &mut String, tag: &str, line: &[u8]) -> Result<(), AllocError>
    ensures { OnOk result (string_bytes key.new
        ≡ string_bytes key.old ++ (tag.now ++ (utf8_lossy line.now ++ 0x0A ∷ []))) }
{
    match str::from_utf8(line) {
        Ok(line) => push_line(key, tag, line),
        Err(_) => {
            let line = String::from_utf8_lossy(alloc, line)?;
            push_line(key, tag, line.as_str())
        }
    }
}

fn push_lines(key: &mut String, lines: &[&str]) -> Result<(), AllocError>
    ensures { OnOk result (string_bytes key.new
        ≡ string_bytes key.old ++ key_lines (map (λ line. tagged 0x20 line.now) lines.now)) }
{
    for line in lines {
        push_line(key, " ", line)?;
    }
    Ok(())
}

fn push_line(key: &mut String, tag: &str, line: &str) -> Result<(), AllocError>
    ensures { OnOk result (string_bytes key.new
        ≡ string_bytes key.old ++ (tag.now ++ (line.now ++ 0x0A ∷ []))) }
{
    key.push_str(tag)?;
    key.push_str(line)?;
    key.push_str("\n")
}

/// The keys of what was printed.
#[derive(Drop)]
pub struct SeenKeys {
    keys: BTreeSet<String>,
}

impl SeenKeys {
    /// None.
    pub fn new(alloc: Global) -> SeenKeys
        ensures { seen_in result ≡ none_seen }
    {
        SeenKeys {
            keys: BTreeSet::new(alloc),
        }
    }

    /// Whether a key is there already. It is kept.
    ///
    /// # Errors
    ///
    /// Out of memory.
    pub fn meets(&mut self, key: String) -> Result<bool, AllocError>
        ensures value { IfOk result (λ is. is ≡ seen_in self.old (string_bytes key)) }
        ensures kept { OnOk result (seen_in self.new
            ≡ with_seen (seen_in self.old) (string_bytes key)) }
    {
        let is = self.keys.contains(key.as_str());
        self.keys.insert(key)?;
        Ok(is)
    }
}

/// Keys of pieces whose lines and paths have no LF are equal only if the pieces are.
pub fn keys_are_exact()
    ensures { KeysAreExact }
{}
