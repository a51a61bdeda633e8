// The rows that a diff changed.
ghost use Rattle.std.specs.Prelude.{◌≡◌, ◌≤◌, ◌+◌, ◌==◌, [], ◌∷◌, length, map, take, drop};
ghost use Rattle.std.specs.Prelude.{slice_get, IfOk, IfErr, Ok, Err};
ghost use Rattle.std.specs.List.{list_any};
ghost use Rattle.std.specs.Option.{option_copied};
ghost use Rattle.changed_rows.specs.Changes.{Changes, IsOrdered, Says, comes_before, has_file};
ghost use Rattle.changed_rows.specs.Changes.{has_row as has_row_in, is_row_to, rows_in, touches};
ghost use Rattle.changed_rows.specs.Heads.{begins};
ghost use Rattle.changed_rows.specs.Reading.{is_plain as is_plain_text, nothing, read_from, seen_in};
ghost use Rattle.changed_rows.specs.Reading.{seen_of};
ghost use Rattle.changed_rows.specs.Refused.{IfRefused};

use crate::error::{DiffError, Refusal, Wanted};
use crate::files::Files;
use crate::lines::lines_of;
use crate::reader::{FileRow, Reader};
use std::alloc::Global;
use std::marker::Model;

/// Which rows of a diff count.
#[derive(Clone, Copy)]
pub enum RowSet {
    /// Those that were added.
    Added,
    /// Those that a hunk shows.
    Shown,
}

/// The files of a diff, and its rows.
#[derive(Drop)]
pub struct Diff {
    files: Files,
    added: Vec<FileRow>,
    shown: Vec<FileRow>,
}

impl Model for Diff {
    ghost Value = { Changes };

    ghost view = { λ s. record { files = s.files; added = s.added.items; shown = s.shown.items } };

    ghost invariant = { λ s. IsOrdered s.added.items × IsOrdered s.shown.items };
}

impl Diff {
    /// Whether a file is in the diff. The name is as [`Root::plain`] gives it.
    ///
    /// [`Root::plain`]: crate::Root::plain
    pub fn has_file(&self, name: &str) -> bool
        ensures { result ≡ has_file self.now name.now }
    {
        self.files.number(name).is_some()
    }

    /// Whether the diff has one of the rows from `first` to `last` of a file.
    pub fn touches(&self, set: RowSet, name: &str, first: usize, last: usize) -> bool
        ensures { result ≡ touches self.now set name.now first last }
    {
        match self.files.number(name) {
            Some(file) => has_row(self.rows(set), file, first, last),
            None => false,
        }
    }

    fn rows(&self, set: RowSet) -> &[FileRow]
        ensures rows { result.now ≡ rows_in self.now set }
        ensures ordered { IsOrdered result.now }
    {
        match set {
            RowSet::Added => &self.added,
            RowSet::Shown => &self.shown,
        }
    }
}

/// Whether rows in order have one of the rows from `first` to `last` of a file.
fn has_row(rows: &[FileRow], file: usize, first: usize, last: usize) -> bool
    requires { IsOrdered rows.now }
    ensures { result ≡ has_row_in rows.now file first last }
{
    let start = rows.partition_point(|it| is_before(it, file, first));
    is_to(row_at(rows, start), file, last)
}

/// The row at an index.
fn row_at(rows: &[FileRow], index: usize) -> Option<&FileRow>
    ensures { option_copied result ≡ slice_get rows.now index }
{
    rows.get(index)
}

/// Whether there is a row, one of this file and not past the last one.
fn is_to(it: Option<&FileRow>, file: usize, last: usize) -> bool
    ensures { result ≡ is_row_to (option_copied it.entry) file last }
{
    match it {
        Some(it) => it.file == file && it.row <= last,
        None => false,
    }
}

/// Whether a row comes before a row of a file.
fn is_before(it: &FileRow, file: usize, row: usize) -> bool
    ensures { result ≡ comes_before file row it.now }
{
    it.file < file || it.file == file && it.row < row
}

/// Reads a unified diff as git writes it. Of each file's names, as many folders are removed as
/// `strip` says; without a number, one folder where git put it there.
///
/// # Errors
///
/// A hunk ends early or has another line; a hunk has no names before it, or a head that can't be
/// read; a name isn't as git quotes it; the diff is a combined one, or begins with a byte order
/// mark. The error has the row. Or out of memory.
#[tactic(auto, unfolding(crate::specs::Reading::seen_in))]
pub fn read_diff(alloc: Global, diff: &[u8], strip: Option<usize>) -> Result<Diff, DiffError>
    ensures read { IfOk result (λ it. Says it (seen_in strip diff.now)) }
    ensures refused { IfErr result (λ error. IfRefused error (λ it.
        seen_in strip diff.now ≡ Err it)) }
{
    if !is_plain(diff) {
        return Err(DiffError::Refused(Refusal {
            row: 1,
            wanted: Wanted::PlainText,
        }));
    }
    let lines = lines_of(alloc, diff)?;
    let reader = read_lines(alloc, &lines, strip)?;
    Ok(ordered(reader))
}

/// Whether a text has no byte order mark, and no NUL near its beginning.
fn is_plain(diff: &[u8]) -> bool
    ensures { result ≡ is_plain_text diff.now }
{
    !has_mark(diff) && !has_early_nul(diff)
}

/// Whether a text begins with a byte order mark.
fn has_mark(diff: &[u8]) -> bool
    ensures { result ≡ begins diff.now (0xEF ∷ 0xBB ∷ 0xBF ∷ []) }
{
    diff.starts_with(b"\xEF\xBB\xBF")
}

/// Whether one of the first 64 bytes is a NUL.
fn has_early_nul(diff: &[u8]) -> bool
    ensures { result ≡ list_any (λ byte. byte == 0) (take 64 diff.now) }
{
    diff.iter().take(64).any(|byte| *byte == 0)
}

/// The lines after the first `count`.
#[tactic(auto, using(crate::proofs::ReadingLemmas::lines_left))]
fn lines_from<'l, 'd>(lines: &'l [&'d [u8]], count: usize) -> &'l [&'d [u8]]
    requires { count ≤ length lines.now }
    ensures lines { map (λ line. line.now) result.now
        ≡ drop count (map (λ line. line.now) lines.entry.now) }
    ensures count { length result.now + count ≡ length lines.entry.now }
{
    &lines[count..]
}

/// Reads the lines of a diff.
fn read_lines(alloc: Global, lines: &[&[u8]], strip: Option<usize>) -> Result<Reader, DiffError>
    ensures read { IfOk result (λ it. read_from strip 1 nothing 0 (map (λ line. line.now) lines.now)
        ≡ Ok (seen_of it)) }
    ensures refused { IfErr result (λ error. IfRefused error (λ it.
        read_from strip 1 nothing 0 (map (λ line. line.now) lines.now) ≡ Err it)) }
{
    let mut reader = Reader {
        files: Files::new(alloc),
        added: Vec::new(alloc),
        shown: Vec::new(alloc),
        named: false,
        file: None,
    };
    let mut rest = lines;
    let mut row = 1;
    while let [line, after @ ..] = rest {
        let taken = reader.item(alloc, strip, row, line, after)?;
        row += 1 + taken;
        rest = lines_from(after, taken);
    }
    Ok(reader)
}

/// What was read, its rows in order.
fn ordered(reader: Reader) -> Diff
    ensures { Says result (Ok (seen_of reader)) }
{
    let Reader {
        files,
        mut added,
        mut shown,
        ..
    } = reader;
    added.sort_unstable();
    shown.sort_unstable();
    Diff {
        files,
        added,
        shown,
    }
}
