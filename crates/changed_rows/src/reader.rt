// Reads the lines of a diff.
ghost use Rattle.std.specs.Prelude.{◌≡◌, ◌++◌, ◌≤◌, ◌<◌, ◌^◌, Ok, Err, map, IfOk, IfErr, IsTrue, OnOk, length};
ghost use Rattle.std.specs.Option.{option_copied};
ghost use Rattle.changed_rows.specs.Heads.{head_in};
ghost use Rattle.changed_rows.specs.Reading.{file_touched, head_on, hunk_said, item_said, names_said};
ghost use Rattle.changed_rows.specs.Reading.{seen_of, target_said, touched, with_rows};
ghost use Rattle.changed_rows.specs.Refused.{IfRefused};
ghost use Rattle.changed_rows.specs.Rows.{fits as fits_in, hunk_length as length_of};
ghost use Rattle.changed_rows.specs.Rows.{is_row as is_row_kind, is_told};
ghost use Rattle.changed_rows.specs.Rows.{row_kind as kind_in, rows_told, taken_new, taken_old};

use crate::error::{DiffError, Refusal, Wanted};
use crate::files::Files;
use crate::heads::{HunkHead, LineKind, hunk_head, kind_of, target_of};
use crate::lines::{begins, from_at};
use crate::names::Root;
use crate::quoted::name_of;
use std::alloc::{AllocError, Global};

/// A row of a file.
#[derive(Clone, Copy, PartialEq, Eq, PartialOrd, Ord)]
pub struct FileRow {
    /// The file's number.
    pub file: usize,
    /// The row, from 1.
    pub row: usize,
}

/// What a line of a hunk is.
#[derive(Clone, Copy)]
pub enum RowKind {
    /// A row of both files.
    Kept,
    /// A row of the old file.
    Removed,
    /// A row of the new file.
    Added,
    /// A remark.
    Remark,
    /// No line of a hunk.
    Other,
}

/// How far the lines of a hunk go that ends early.
#[derive(Clone, Copy)]
pub struct HunkEnd {
    /// The number of its lines.
    pub count: usize,
    /// How many rows of the old file are missing.
    pub old: u32,
    /// How many rows of the new file are missing.
    pub new: u32,
}

/// What was read of a diff.
#[derive(Drop)]
pub struct Reader {
    /// The files, by number.
    pub files: Files,
    /// The rows that were added.
    pub added: Vec<FileRow>,
    /// The rows that hunks show.
    pub shown: Vec<FileRow>,
    /// Whether `---` and `+++` came before.
    pub named: bool,
    /// The file that hunks are of, if it is one.
    pub file: Option<usize>,
}

impl Reader {
    /// Reads what begins at a line outside of hunks, and gives how many of the lines after it
    /// belong to it. `row` is the line's row.
    ///
    /// # Errors
    ///
    /// It isn't as git writes it, or out of memory.
    #[tactic(auto, unfolding(crate::specs::Reading::item_said))]
    pub fn item(
        &mut self,
        alloc: Global,
        strip: Option<usize>,
        row: usize,
        line: &[u8],
        after: &[&[u8]],
    ) -> Result<usize, DiffError>
        requires { row < 2 ^ 63 }
        ensures read { IfOk result (λ taken. item_said strip row (seen_of self.old) line.now
            (map (λ line. line.now) after.now) ≡ Ok (seen_of self.new, taken)) }
        ensures within { IfOk result (λ taken. taken ≤ length after.now) }
        ensures refused { IfErr result (λ error. IfRefused error (λ it.
            item_said strip row (seen_of self.old) line.now
            (map (λ line. line.now) after.now) ≡ Err it)) }
    {
        match kind_of(line) {
            LineKind::Section => {
                self.named = false;
                self.file = None;
                Ok(0)
            }
            LineKind::Combined => Err(refused(row, Wanted::TwoFiles)),
            LineKind::Renamed => self.target(alloc, row, from_at(line, 10)),
            LineKind::Copied => self.target(alloc, row, from_at(line, 8)),
            LineKind::Old => self.names(alloc, strip, row, line, after),
            LineKind::Hunk => self.hunk(row, line, after),
            LineKind::Other => Ok(0),
        }
    }

    /// Reads the name of a file that was renamed or copied.
    #[tactic(auto, unfolding(crate::specs::Reading::target_said))]
    fn target(&mut self, alloc: Global, row: usize, text: &[u8]) -> Result<usize, DiffError>
        ensures read { IfOk result (λ taken. target_said row (seen_of self.old) text.now
            ≡ Ok (seen_of self.new, taken)) }
        ensures within { IfOk result (λ taken. taken ≡ 0) }
        ensures refused { IfErr result (λ error. IfRefused error (λ it.
            target_said row (seen_of self.old) text.now ≡ Err it)) }
    {
        let name = name_of(alloc, text, row)?;
        self.touch(alloc, &name)?;
        Ok(0)
    }

    /// Goes on with a file.
    #[tactic(auto, unfolding(crate::specs::Reading::touched))]
    fn touch(&mut self, alloc: Global, name: &[u8]) -> Result<(), AllocError>
        ensures { OnOk result (seen_of self.new ≡ touched (seen_of self.old) name.now) }
    {
        let text = String::from_utf8_lossy(alloc, name)?;
        let plain = Root::none(alloc).plain(alloc, text.as_str())?;
        let number = self.files.enter(alloc, plain.as_str())?;
        self.file = Some(number);
        Ok(())
    }

    /// Reads the two names of a file, if the next line has the second.
    #[tactic(auto, unfolding(crate::specs::Reading::names_said))]
    fn names(
        &mut self,
        alloc: Global,
        strip: Option<usize>,
        row: usize,
        line: &[u8],
        after: &[&[u8]],
    ) -> Result<usize, DiffError>
        requires { row < 2 ^ 63 }
        ensures read { IfOk result (λ taken. names_said strip row (seen_of self.old) line.now
            (map (λ line. line.now) after.now) ≡ Ok (seen_of self.new, taken)) }
        ensures within { IfOk result (λ taken. taken ≡ 0) }
        ensures refused { IfErr result (λ error. IfRefused error (λ it.
            names_said strip row (seen_of self.old) line.now
            (map (λ line. line.now) after.now) ≡ Err it)) }
    {
        match after {
            [next, ..] if begins(next, b"+++ ") => {
                let old = name_of(alloc, from_at(line, 4), row)?;
                let new = name_of(alloc, from_at(next, 4), row + 1)?;
                self.named = true;
                self.enter(alloc, target_of(&new, &old, strip))?;
                Ok(0)
            }
            _ => Ok(0),
        }
    }

    /// Goes on with a file, or with none.
    fn enter(&mut self, alloc: Global, name: Option<&[u8]>) -> Result<(), AllocError>
        ensures { OnOk result (seen_of self.new
            ≡ file_touched (seen_of self.old) (option_copied name.entry)) }
    {
        match name {
            Some(name) => self.touch(alloc, name),
            None => {
                self.file = None;
                Ok(())
            }
        }
    }

    /// Reads a hunk.
    #[tactic(auto, using(crate::proofs::ReadingLemmas::taken_lines), unfolding(crate::specs::Reading::hunk_said))]
    fn hunk(&mut self, row: usize, line: &[u8], after: &[&[u8]]) -> Result<usize, DiffError>
        requires { row < 2 ^ 63 }
        ensures read { IfOk result (λ taken. hunk_said row (seen_of self.old) line.now
            (map (λ line. line.now) after.now) ≡ Ok (seen_of self.new, taken)) }
        ensures within { IfOk result (λ taken. taken ≤ length after.now) }
        ensures refused { IfErr result (λ error. IfRefused error (λ it.
            hunk_said row (seen_of self.old) line.now
            (map (λ line. line.now) after.now) ≡ Err it)) }
    {
        let head = self.head(row, line)?;
        match hunk_length(after, head.old, head.new) {
            Ok(count) => {
                self.push(head.start, &after[..count])?;
                Ok(count)
            }
            Err(end) => Err(refused(
                row + 1 + end.count,
                Wanted::MoreRows {
                    old: end.old,
                    new: end.new,
                },
            )),
        }
    }

    /// The head of a hunk.
    fn head(&self, row: usize, line: &[u8]) -> Result<HunkHead, DiffError>
        ensures read { IfOk result (λ head. head_on row self.now.named (head_in line.now)
            ≡ Ok head) }
        ensures refused { IfErr result (λ error. IfRefused error (λ it.
            head_on row self.now.named (head_in line.now) ≡ Err it)) }
    {
        let Some(head) = hunk_head(line) else {
            return Err(refused(row, Wanted::HunkHead));
        };
        if !self.named {
            return Err(refused(row, Wanted::Names));
        }
        if head.old == 0 && head.new == 0 {
            return Err(refused(row, Wanted::Rows));
        }
        Ok(head)
    }

    /// Keeps the rows of a hunk's lines.
    fn push(&mut self, start: u32, lines: &[&[u8]]) -> Result<(), AllocError>
        ensures { OnOk result (seen_of self.new
            ≡ with_rows (seen_of self.old) start (map (λ line. line.now) lines.now)) }
    {
        if let Some(file) = self.file {
            push_rows(&mut self.added, false, file, start, lines)?;
            push_rows(&mut self.shown, true, file, start, lines)?;
        }
        Ok(())
    }
}

fn refused(row: usize, wanted: Wanted) -> DiffError
    ensures { result ≡ DiffError.Refused (record { row = row; wanted = wanted }) }
{
    DiffError::Refused(Refusal { row, wanted })
}

/// What a line of a hunk is.
fn row_kind(line: &[u8]) -> RowKind
    ensures { result ≡ kind_in line.now }
{
    match line {
        [] | [b' ' | b'\r', ..] => RowKind::Kept,
        [b'-', ..] => RowKind::Removed,
        [b'+', ..] => RowKind::Added,
        [b'\\', ..] => RowKind::Remark,
        _ => RowKind::Other,
    }
}

/// How many rows of the old file a line has.
fn old_of(kind: RowKind) -> u32
    ensures { result ≡ taken_old kind }
{
    match kind {
        RowKind::Kept | RowKind::Removed => 1,
        RowKind::Added | RowKind::Remark | RowKind::Other => 0,
    }
}

/// How many rows of the new file a line has.
fn new_of(kind: RowKind) -> u32
    ensures { result ≡ taken_new kind }
{
    match kind {
        RowKind::Kept | RowKind::Added => 1,
        RowKind::Removed | RowKind::Remark | RowKind::Other => 0,
    }
}

/// Whether a line belongs into hunks.
fn is_row(kind: RowKind) -> bool
    ensures { result ≡ is_row_kind kind }
{
    !matches!(kind, RowKind::Other)
}

/// Whether a line goes into a hunk that wants `old` and `new` more rows.
fn fits(kind: RowKind, old: u32, new: u32) -> bool
    ensures value { result ≡ fits_in kind old new }
    ensures old { IsTrue result → taken_old kind ≤ old }
    ensures new { IsTrue result → taken_new kind ≤ new }
{
    is_row(kind) && old_of(kind) <= old && new_of(kind) <= new
}

/// How many lines a hunk takes that has `old` and `new` rows of the two files.
fn hunk_length(lines: &[&[u8]], old: u32, new: u32) -> Result<usize, HunkEnd>
    ensures value { result ≡ length_of 0 old new (map (λ line. line.now) lines.now) }
    ensures within { IfOk result (λ count. count ≤ length lines.now) }
    ensures short { IfErr result (λ end. end.count ≤ length lines.now) }
{
    let mut rest = lines;
    let mut old = old;
    let mut new = new;
    let mut count = 0;
    while let [line, others @ ..] = rest {
        let kind = row_kind(line);
        if old == 0 && new == 0 {
            return Ok(count);
        }
        if !fits(kind, old, new) {
            return Err(HunkEnd { count, old, new });
        }
        old -= old_of(kind);
        new -= new_of(kind);
        count += 1;
        rest = others;
    }
    if old == 0 && new == 0 {
        Ok(count)
    } else {
        Err(HunkEnd { count, old, new })
    }
}

/// Whether a line gives a row: each row of the new file, or only those that were added.
fn gives(all: bool, kind: RowKind) -> bool
    ensures { result ≡ is_told all kind }
{
    match kind {
        RowKind::Kept => all,
        RowKind::Added => true,
        RowKind::Removed | RowKind::Remark | RowKind::Other => false,
    }
}

/// Appends the rows of the new file that a hunk's lines give.
fn push_rows(
    rows: &mut Vec<FileRow>,
    all: bool,
    file: usize,
    start: u32,
    lines: &[&[u8]],
) -> Result<(), AllocError>
    ensures { OnOk result (rows.new.items ≡ rows.old.items
        ++ rows_told all file start (map (λ line. line.now) lines.now)) }
{
    let mut row = start as usize;
    for line in lines {
        let kind = row_kind(line);
        if gives(all, kind) {
            rows.push(FileRow { file, row })?;
        }
        row += new_of(kind) as usize;
    }
    Ok(())
}
