// The heads of files and hunks.
ghost use Rattle.std.specs.Prelude.{◌≡◌};
ghost use Rattle.std.specs.List.{list_all};
ghost use Rattle.std.specs.Option.{option_copied};
ghost use Rattle.changed_rows.specs.Heads.{are_apart as are_apart_folders, folder_of as folder_in};
ghost use Rattle.changed_rows.specs.Heads.{both as both_of, folders_of, head_in, head_new, head_ranges, is_digit};
ghost use Rattle.changed_rows.specs.Heads.{is_folder as is_folder_letter, is_nothing_name};
ghost use Rattle.changed_rows.specs.Heads.{is_prefixed_name, is_tail_text, line_kind, number_in};
ghost use Rattle.changed_rows.specs.Heads.{range_in, small, target_of as target_in};
ghost use Rattle.changed_rows.specs.Heads.{value_from as value_written, without_folders as without_so_many};

use crate::lines::{after, before, begins, from_at};

/// What a line of a diff is, outside of hunks.
#[derive(Clone, Copy)]
pub enum LineKind {
    /// The first line of a file's part.
    Section,
    /// A line of a combined diff.
    Combined,
    /// `rename to`.
    Renamed,
    /// `copy to`.
    Copied,
    /// `---`.
    Old,
    /// `@@`.
    Hunk,
    /// Another line.
    Other,
}

/// What a line is.
#[tactic(auto, unfolding(crate::specs::Heads::line_kind))]
pub fn kind_of(line: &[u8]) -> LineKind
    ensures { result ≡ line_kind line.now }
{
    if begins(line, b"diff --git ") || begins(line, b"Index: ") {
        LineKind::Section
    } else if begins(line, b"diff --cc ")
        || begins(line, b"diff --combined ")
        || begins(line, b"@@@")
    {
        LineKind::Combined
    } else if begins(line, b"rename to ") {
        LineKind::Renamed
    } else if begins(line, b"copy to ") {
        LineKind::Copied
    } else if begins(line, b"--- ") {
        LineKind::Old
    } else if begins(line, b"@@ ") {
        LineKind::Hunk
    } else {
        LineKind::Other
    }
}

/// The head of a hunk.
#[derive(Clone, Copy)]
pub struct HunkHead {
    /// How many rows of the old file it has.
    pub old: u32,
    /// Its first row in the new file.
    pub start: u32,
    /// How many rows of the new file it has.
    pub new: u32,
}

/// The head of a hunk, `@@ -ROW,COUNT +ROW,COUNT @@`.
#[tactic(auto, unfolding(crate::specs::Heads::head_in))]
pub fn hunk_head(line: &[u8]) -> Option<HunkHead>
    ensures { result ≡ head_in line.now }
{
    if !begins(line, b"@@ -") {
        return None;
    }
    let text = from_at(line, 4);
    let new = after(text, b' ');
    if begins(new, b"+") {
        head_of(before(text, b' '), from_at(new, 1))
    } else {
        None
    }
}

/// The head with this old range, and a new one before the end of the head.
fn head_of(old: &[u8], text: &[u8]) -> Option<HunkHead>
    ensures { result ≡ head_new old.now text.now }
{
    if is_tail(after(text, b' ')) {
        head_with(range(old), range(before(text, b' ')))
    } else {
        None
    }
}

/// The head with these two ranges.
fn head_with(old: Option<(u32, u32)>, new: Option<(u32, u32)>) -> Option<HunkHead>
    ensures { result ≡ head_ranges old new }
{
    match (old, new) {
        (Some((_, old)), Some((start, new))) if new <= u32::MAX - start => {
            Some(HunkHead { old, start, new })
        }
        _ => None,
    }
}

/// Whether a text is the end of a hunk's head.
fn is_tail(text: &[u8]) -> bool
    ensures { result ≡ is_tail_text text.now }
{
    begins(text, b"@@ ") || text == b"@@".as_slice() || text == b"@@\r".as_slice()
}

/// The row and the count of a range, `ROW,COUNT`; without a count it is 1.
fn range(text: &[u8]) -> Option<(u32, u32)>
    ensures { result ≡ range_in text.now }
{
    let front = before(text, b',');
    if front.len() == text.len() {
        return number(text).map(|row| (row, 1));
    }
    both(number(front), number(after(text, b',')))
}

fn both(row: Option<u32>, count: Option<u32>) -> Option<(u32, u32)>
    ensures { result ≡ both_of row count }
{
    match (row, count) {
        (Some(row), Some(count)) => Some((row, count)),
        _ => None,
    }
}

/// The number that decimal digits write, below 2^32.
fn number(text: &[u8]) -> Option<u32>
    ensures { result ≡ number_in text.now }
{
    if !text.is_empty() && are_digits(text) {
        value_from(text)
    } else {
        None
    }
}

/// Whether all bytes are digits.
fn are_digits(text: &[u8]) -> bool
    ensures { result ≡ list_all is_digit text.now }
{
    text.iter().all(|byte| b'0' <= *byte && *byte <= b'9')
}

/// The number of these digits.
#[tactic(auto, using(crate::proofs::HeadLemmas::value_grows))]
fn value_from(mut digits: &[u8]) -> Option<u32>
    ensures { result ≡ small (value_written 0 digits.entry.now) }
{
    let mut value: u64 = 0;
    while let [digit, rest @ ..] = digits {
        value = value * 10 + u64::from(digit.saturating_sub(b'0'));
        if value > 0xFFFF_FFFF {
            return None;
        }
        digits = rest;
    }
    Some(value as u32)
}

/// The name of a hunk's file: the new one, without `strip` folders, if it is a file. Without a
/// number, one folder is taken away if both names begin with different ones that git puts there,
/// or the old one is no file.
#[tactic(auto, unfolding(crate::specs::Heads::target_of))]
pub fn target_of<'n>(new: &'n [u8], old: &[u8], strip: Option<usize>) -> Option<&'n [u8]>
    ensures { option_copied result ≡ target_in strip new.entry.now old.now }
{
    if is_nothing(new) {
        return None;
    }
    without_folders(new, folder_count(new, old, strip))
}

/// How many folders are taken away.
fn folder_count(new: &[u8], old: &[u8], strip: Option<usize>) -> usize
    ensures { result ≡ folders_of strip new.now old.now }
{
    match strip {
        Some(count) => count,
        None if is_prefixed(new, old) => 1,
        None => 0,
    }
}

/// Whether a name is that of no file.
fn is_nothing(name: &[u8]) -> bool
    ensures { result ≡ is_nothing_name name.now }
{
    name == b"/dev/null".as_slice()
}

/// Whether a new name begins with a folder that git put there.
fn is_prefixed(new: &[u8], old: &[u8]) -> bool
    ensures { result ≡ is_prefixed_name new.now old.now }
{
    match folder_of(new) {
        None => false,
        Some(folder) => is_nothing(old) || are_apart(folder, folder_of(old)),
    }
}

/// Whether there is a second folder, another one.
fn are_apart(folder: u8, other: Option<u8>) -> bool
    ensures { result ≡ are_apart_folders folder other }
{
    match other {
        None => false,
        Some(other) => other != folder,
    }
}

/// The folder of one letter that a name begins with, if git puts it there.
fn folder_of(name: &[u8]) -> Option<u8>
    ensures { result ≡ folder_in name.now }
{
    match name {
        [letter, b'/', ..] if is_folder(*letter) => Some(*letter),
        _ => None,
    }
}

/// Whether git puts a folder of this letter before names.
fn is_folder(letter: u8) -> bool
    ensures { result ≡ is_folder_letter letter }
{
    matches!(
        letter,
        b'a' | b'b' | b'c' | b'i' | b'w' | b'o' | b'1' | b'2'
    )
}

/// A name without its first `count` folders, if it has them.
#[tactic(auto, using(crate::proofs::HeadLemmas::folder_rules))]
fn without_folders(name: &[u8], count: usize) -> Option<&[u8]>
    ensures { option_copied result ≡ without_so_many count name.now }
{
    let mut rest = name;
    let mut left = count;
    while left > 0 {
        let front = before(rest, b'/');
        if front.len() == rest.len() {
            return None;
        }
        rest = after(rest, b'/');
        left -= 1;
    }
    Some(rest)
}
