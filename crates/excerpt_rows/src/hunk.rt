//! The rows of a suggestion, as an edit of the source's rows.
ghost use Rattle.std.specs.Prelude.{◌≡◌, ℕ, ◌+◌, ◌-◌, ◌≤◌, ◌<◌, ◌^◌, ◌↔◌, ◌++◌, ◌∷◌, [], ◌||◌};
ghost use Rattle.std.specs.Prelude.{◌&&◌, if◌then◌else◌, Bool, nat_le, nat_lt};
ghost use Rattle.std.specs.Prelude.{Some, IfOk, IfSome, IsTrue, MatchBool, MatchOption, OnOk};
ghost use Rattle.std.specs.Prelude.{length, map, option_to_list};
ghost use Rattle.std.specs.List.{find, list_all, prefix_len, slice_index_or, suffix_len};
ghost use Rattle.std.specs.Option.{option_copied, option_map};
ghost use Rattle.excerpt_rows.specs.Edits.{edit_in, edit_parts, row_view};
ghost use Rattle.excerpt_rows.specs.Hunk.{AreExact, AreSteps, EditsAreDrawn, HasDots, HasNoEdit};
ghost use Rattle.excerpt_rows.specs.Hunk.{IsEdit, IsExact};
ghost use Rattle.excerpt_rows.specs.Hunk.{IsAligned, IsSourceRow, IsStep, IsSumOf, Restores};
ghost use Rattle.excerpt_rows.specs.Hunk.{left_of};
ghost use Rattle.excerpt_rows.specs.Hunk.{begin as begin_of, end as end_of, given as row_given};
ghost use Rattle.excerpt_rows.specs.Hunk.{is_changed_by, is_context as is_context_row};
ghost use Rattle.excerpt_rows.specs.Hunk.{is_of_source, number_at as number_of_row};
ghost use Rattle.excerpt_rows.specs.Hunk.{place as place_of, taken as rows_taken};
ghost use Rattle.excerpt_rows.specs.Ends.{is_blank as blank};

use crate::alignment::aligned;
use crate::ends::is_blank;
use std::alloc::{AllocError, Global};

/// What follows the number of a row.
#[derive(Clone, Copy)]
pub enum Sign {
    /// A bar: a row of the source, or what becomes of one if marks are below it.
    Unsigned,
    /// `+`: a row that the suggestion adds.
    Added,
    /// `-`: a row that it removes.
    Removed,
    /// `~`: a row that it changes, with the number that it has then.
    Changed,
}

/// Marks below a row of a suggestion: the characters of the row from `start` to before `end`.
#[derive(Clone, Copy)]
pub struct Marked {
    pub start: usize,
    pub end: usize,
    /// Whether they are `+`.
    pub added: bool,
}

/// A printed row of a suggestion.
#[derive(Clone, Copy)]
pub struct HunkRow<'a> {
    pub sign: Sign,
    pub number: Option<u32>,
    pub text: &'a [char],
    pub marks: &'a [Marked],
    /// The row that the source has at this number.
    pub source: Option<&'a [char]>,
}

/// Rows of a source that are replaced by others.
#[derive(Drop)]
pub struct Edit<'a> {
    /// The number of the first row that is replaced, from 1. If none is, the others come before it.
    pub first: usize,
    /// How many rows are replaced.
    pub count: usize,
    pub rows: Vec<&'a [char]>,
}

/// What the rows of a suggestion replace, if they are an exact edit: no row has a `~`, `...` or
/// marks other than `+`; from the first to the last row that changes, their numbers follow one
/// another, each row that is removed or kept is the source's, and each row with marks, without what
/// is marked, is the source's but for blanks. Rows are replaced whole.
///
/// # Errors
///
/// Out of memory.
pub fn edit_of<'a>(alloc: Global, rows: &[HunkRow<'a>]) -> Result<Option<Edit<'a>>, AllocError>
    ensures found { IfOk result (λ found.
        MatchOption found (HasNoEdit rows.now) (IsEdit rows.now)) }
    ensures value { IfOk result (λ found.
        option_map edit_parts found ≡ edit_in (map row_view rows.now)) }
{
    edit_found(alloc, rows)
}

/// The same.
fn edit_found<'a>(alloc: Global, rows: &[HunkRow<'a>]) -> Result<Option<Edit<'a>>, AllocError>
    ensures { IfOk result (λ found. MatchOption found (HasNoEdit rows.now) (IsEdit rows.now)) }
{
    let begin = context_before(rows);
    let end = context_after(rows);
    if begin >= end || !are_exact(rows) {
        return Ok(None);
    }
    match place(rows, begin, end) {
        None | Some(0) => Ok(None),
        Some(first) => replaced(alloc, &rows[begin..end], first),
    }
}

/// Whether a row is one of the source's that doesn't change.
fn is_context(row: &HunkRow) -> bool
    ensures { result ≡ is_context_row row.now }
{
    matches!(row.sign, Sign::Unsigned) && row.marks.is_empty()
}

/// How many rows before the first change there are.
fn context_before(rows: &[HunkRow]) -> usize
    ensures value { result ≡ prefix_len is_context_row rows.now }
    ensures within { result ≤ length rows.now }
{
    for (k, row) in rows.iter().enumerate() {
        if !is_context(row) {
            return k;
        }
    }
    rows.len()
}

/// Where the rows after the last change begin.
fn context_after(rows: &[HunkRow]) -> usize
    ensures value { result ≡ length rows.now - suffix_len is_context_row rows.now }
    ensures within { result ≤ length rows.now }
{
    let mut end = rows.len();
    while end > 0 && is_context(&rows[end - 1]) {
        end -= 1;
    }
    end
}

/// Whether nothing in the rows speaks against an exact edit.
fn are_exact(rows: &[HunkRow]) -> bool
    ensures { MatchBool result (AreExact rows.now) (AreExact rows.now → ⊥) }
{
    for row in rows {
        if !is_exact(row) {
            return false;
        }
    }
    true
}

/// Whether nothing in a row speaks against an exact edit.
fn is_exact(row: &HunkRow) -> bool
    ensures { MatchBool result (IsExact row.now) (IsExact row.now → ⊥) }
{
    if is_changed(row.sign) {
        return false;
    }
    if has_dots(row.text) {
        return false;
    }
    are_added(row.marks)
}

fn is_changed(sign: Sign) -> bool
    ensures { result ≡ is_changed_by sign }
{
    match sign {
        Sign::Unsigned | Sign::Added | Sign::Removed => false,
        Sign::Changed => true,
    }
}

fn are_added(marks: &[Marked]) -> bool
    ensures { result ≡ list_all (λ m. m.added) marks.now }
{
    marks.iter().all(|m| m.added)
}

/// Whether there are three dots in a row.
fn has_dots(text: &[char]) -> bool
    ensures { IsTrue result ↔ HasDots text.now }
{
    for k in 2..text.len() {
        if text[k] == '.' && text[k - 1] == '.' && text[k - 2] == '.' {
            return true;
        }
    }
    false
}

/// The number at which the changed rows begin.
fn place(rows: &[HunkRow], begin: usize, end: usize) -> Option<usize>
    requires begun { begin ≡ begin_of rows.now }
    requires ended { end ≡ end_of rows.now }
    requires some { begin < end }
    ensures { result ≡ place_of rows.now }
{
    if let Some(row) = first_taken(&rows[begin..end]) {
        return number(row);
    }
    if let Some(own) = number_at(rows, begin) {
        return Some(own);
    }
    if begin > 0 {
        if let Some(before) = number_at(rows, begin - 1) {
            return Some(before + 1);
        }
    }
    number_at(rows, end)
}

/// The first row that is one of the source's.
fn first_taken<'r, 'a>(rows: &'r [HunkRow<'a>]) -> Option<&'r HunkRow<'a>>
    ensures { option_copied result ≡ find is_of_source rows.now }
{
    rows.iter().find(|row| taken(row) > 0)
}

fn number_at(rows: &[HunkRow], at: usize) -> Option<usize>
    ensures value { result ≡ number_of_row rows.now at }
    ensures few { IfSome result (λ number. number < 2 ^ 32) }
{
    match rows.get(at) {
        Some(row) => number(row),
        None => None,
    }
}

fn number(row: &HunkRow) -> Option<usize>
    ensures value { result ≡ row.now.number }
    ensures few { IfSome result (λ number. number < 2 ^ 32) }
{
    match row.number {
        Some(number) => Some(number as usize),
        None => None,
    }
}

/// What rows replace from this number on.
fn replaced<'a>(
    alloc: Global,
    rows: &[HunkRow<'a>],
    first: usize,
) -> Result<Option<Edit<'a>>, AllocError>
    ensures { IfOk result (λ found. MatchOption found (AreSteps rows.now first first → ⊥)
        (λ edit. AreSteps rows.now first first × IsSumOf rows.now first edit)) }
{
    let mut edit = Edit {
        first,
        count: 0,
        rows: Vec::new(alloc),
    };
    for row in rows {
        if !goes_on(alloc, row, first, edit.count, edit.rows.len())? {
            return Ok(None);
        }
        edit.count += taken(row);
        push_row(&mut edit.rows, given(row))?;
    }
    Ok(Some(edit))
}

/// Whether a row goes on after `old` rows that are replaced, and `new` that replace them.
fn goes_on(
    alloc: Global,
    row: &HunkRow,
    first: usize,
    old: usize,
    new: usize,
) -> Result<bool, AllocError>
    ensures { IfOk result (λ yes. MatchBool yes (IsStep row.now (first + old) (first + new))
        (IsStep row.now (first + old) (first + new) → ⊥)) }
{
    match row.sign {
        Sign::Unsigned => {
            if !is_number(row.number, first, old) {
                return Ok(false);
            }
            if row.marks.is_empty() {
                is_source_row(alloc, row)
            } else {
                restores(alloc, row)
            }
        }
        Sign::Added => Ok(row.number.is_none() || is_number(row.number, first, new)),
        Sign::Removed => {
            if !is_number(row.number, first, old) {
                return Ok(false);
            }
            is_source_row(alloc, row)
        }
        Sign::Changed => Ok(false),
    }
}

/// Whether a number is `first` and `more`.
fn is_number(number: Option<u32>, first: usize, more: usize) -> bool
    ensures { IsTrue result ↔ (number ≡ Some (first + more)) }
{
    match number {
        Some(n) => (n as usize).checked_sub(first) == Some(more),
        None => false,
    }
}

/// How many rows of the source a row takes.
fn taken(row: &HunkRow) -> usize
    ensures value { result ≡ rows_taken row.now }
    ensures few { result ≤ 1 }
{
    match row.sign {
        Sign::Unsigned | Sign::Removed => 1,
        Sign::Added | Sign::Changed => 0,
    }
}

/// The row that comes of a row.
fn given<'a>(row: &HunkRow<'a>) -> Option<&'a [char]>
    ensures { option_copied result ≡ row_given row.now }
{
    match row.sign {
        Sign::Unsigned => {
            if row.marks.is_empty() {
                row.source
            } else {
                Some(row.text)
            }
        }
        Sign::Added => Some(row.text),
        Sign::Removed | Sign::Changed => None,
    }
}

fn push_row<'a>(rows: &mut Vec<&'a [char]>, row: Option<&'a [char]>) -> Result<(), AllocError>
    ensures { OnOk result (map (λ r. r.now) rows.new.items
        ≡ map (λ r. r.now) rows.old.items ++ option_to_list (option_copied row.entry)) }
{
    if let Some(row) = row {
        rows.push(row)?;
    }
    Ok(())
}

/// Whether a row is the source's.
fn is_source_row(alloc: Global, row: &HunkRow) -> Result<bool, AllocError>
    ensures { IfOk result (λ yes. MatchBool yes (IsSourceRow row.now) (IsSourceRow row.now → ⊥)) }
{
    match row.source {
        Some(source) => is_aligned(alloc, row.text, source),
        None => Ok(false),
    }
}

fn is_aligned(alloc: Global, printed: &[char], source: &[char]) -> Result<bool, AllocError>
    ensures { IfOk result (λ yes. MatchBool yes (IsAligned printed.now source.now)
        (IsAligned printed.now source.now → ⊥)) }
{
    let found = aligned(alloc, printed, source)?;
    Ok(found.is_some())
}

/// Whether a row, without what is marked, is the source's but for blanks.
fn restores(alloc: Global, row: &HunkRow) -> Result<bool, AllocError>
    ensures { IfOk result (λ yes. MatchBool yes (Restores row.now) (Restores row.now → ⊥)) }
{
    let Some(source) = row.source else {
        return Ok(false);
    };
    let left = unmarked(alloc, row.marks, row.text)?;
    let before: Vec<char> = source
        .iter()
        .copied()
        .filter(|c| !is_blank(*c))
        .collect(alloc)?;
    Ok(left == before)
}

/// The characters of a row that are neither marked nor blank.
fn unmarked(alloc: Global, marks: &[Marked], text: &[char]) -> Result<Vec<char>, AllocError>
    ensures { IfOk result (λ left. left.items ≡ left_of marks.now 0 text.now) }
{
    let mut flags = vec![in alloc; false; text.len()]?;
    for m in marks {
        mark(&mut flags, m.start, m.end);
    }
    let mut left = Vec::new(alloc);
    for (k, c) in text.iter().enumerate() {
        push_unless(&mut left, is_skipped(flags[k], *c), *c)?;
    }
    Ok(left)
}

fn is_skipped(marked: bool, c: char) -> bool
    ensures { result ≡ (marked || blank c) }
{
    marked || is_blank(c)
}

fn push_unless(left: &mut Vec<char>, skipped: bool, c: char) -> Result<(), AllocError>
    ensures { OnOk result (left.new.items
        ≡ left.old.items ++ (if skipped then [] else c ∷ [])) }
{
    if !skipped {
        left.push(c)?;
    }
    Ok(())
}

/// Marks the characters from `start` to before `end`.
fn mark(flags: &mut [bool], start: usize, end: usize)
    ensures { (k : ℕ) (d : Bool) → k < length flags.old → slice_index_or flags.new k d
        ≡ (slice_index_or flags.old k d || (nat_le start k && nat_lt k end)) }
{
    for k in start..end.min(flags.len()) {
        flags[k] = true;
    }
}

/// If a source has the rows that the rows of a suggestion name, an edit of them changes exactly
/// what is drawn: its rows are those that are drawn before, and become those that are drawn after.
pub fn edits_are_drawn()
    ensures { EditsAreDrawn }
{}
