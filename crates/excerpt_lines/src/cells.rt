//! The cells that characters take on a screen.
ghost use Rattle.std.specs.Prelude.{◌≡◌, ◌+◌, ◌*◌, ◌≤◌, ◌<◌, ◌^◌, ◌++◌, ◌∷◌, [], IfOk, OnOk, false};
ghost use Rattle.std.specs.Prelude.{length, slice_index, ◌==◌, true};
ghost use Rattle.std.specs.List.{list_all, list_any};
ghost use Rattle.excerpt_lines.specs.Cells.{EachNarrow, IsOver, cell_at as cell_there};
ghost use Rattle.excerpt_lines.specs.Cells.{is_printable as is_one_cell};
ghost use Rattle.excerpt_lines.specs.Cells.{end_column as last_column};
ghost use Rattle.excerpt_lines.specs.Cells.{start_column as first_column};
ghost use Rattle.excerpt_lines.specs.Cells.{is_narrow as is_narrow_char};
ghost use Rattle.excerpt_lines.specs.Cells.{ascend, below, cells_of, narrow_end, over_cell};
ghost use Rattle.excerpt_lines.specs.Cells.{places_of};
ghost use Rattle.excerpt_lines.specs.Cells.{step as cells_taken};

use std::alloc::{AllocError, Global};
use unicode_width::UnicodeWidthChar;

/// How many cells a character takes that begins in this cell. A tab goes to the next multiple of 8.
fn step(cell: usize, c: char) -> usize
    ensures value { result ≡ cells_taken cell c }
    ensures few { result ≤ 8 }
{
    if c == '\t' {
        8 - cell % 8
    } else {
        c.width().unwrap_or(0)
    }
}

/// The cell after a text that begins in this cell.
pub fn cell_after(cell: usize, mut text: &[char]) -> usize
    requires short { length text.now < 2 ^ 32 }
    requires few { cell ≤ 2 ^ 40 }
    ensures value { result ≡ cells_of cell text.entry.now }
    ensures few { result ≤ cell + 8 * length text.entry.now }
{
    let mut after = cell;
    while let [c, rest @ ..] = text {
        after += step(after, *c);
        text = rest;
    }
    after
}

/// The cell in which the character at a place begins.
pub fn cell_at(line: &[char], at: usize) -> usize
    requires within { at ≤ length line.now }
    requires short { length line.now < 2 ^ 32 }
    ensures value { result ≡ cell_there line.now at }
    ensures few { result ≤ 8 * at }
{
    cell_after(0, &line[..at])
}

/// The place of the character over a cell. After the end each cell counts as one character.
#[tactic(auto, using(crate::proofs::CellLemmas::cell_next, crate::proofs::CellLemmas::overs), unfolding(crate::specs::Cells::over_cell))]
pub fn over(line: &[char], cell: usize) -> usize
    requires short { length line.now < 2 ^ 32 }
    requires few { cell < 2 ^ 40 }
    ensures value { result ≡ over_cell line.now cell }
    ensures over { IsOver line.now cell result }
{
    if cell < line.len() && are_printable(&line[..cell + 1]) {
        return cell;
    }
    let mut begin = 0;
    let mut k = 0;
    while k < line.len() {
        let end = begin + step(begin, line[k]);
        if cell < end {
            return k;
        }
        begin = end;
        k += 1;
    }
    k + (cell - begin)
}

/// Whether each character is one of ASCII that takes one cell.
fn are_printable(text: &[char]) -> bool
    ensures { result ≡ list_all is_one_cell text.now }
{
    let mut all = true;
    for c in text {
        all = all & is_printable(*c);
    }
    all
}

fn is_printable(c: char) -> bool
    ensures { result ≡ is_one_cell c }
{
    ' ' <= c && c <= '~'
}

/// Whether a character has no cell of its own.
#[tactic(auto, unfolding(crate::specs::Cells::is_narrow))]
fn is_narrow(c: char) -> bool
    ensures { result ≡ is_narrow_char c }
{
    step(0, c) == 0
}

/// Where the characters without a width end that follow from a place on.
#[tactic(auto, using(crate::proofs::CellLemmas::narrows))]
pub fn past_narrow(line: &[char], at: usize) -> usize
    ensures value { result ≡ narrow_end line.now at }
    ensures from { at ≤ result }
    ensures each { EachNarrow line.now at result }
    ensures stops { result < length line.now
        → is_narrow_char (slice_index line.now result) ≡ false }
{
    let mut end = at;
    while end < line.len() && is_narrow(line[end]) {
        end += 1;
    }
    end
}

/// The character over a cell, of a row whose text begins at a place.
#[tactic(auto, unfolding(crate::specs::Cells::start_column))]
pub fn start_column(row: &[char], text: usize, cell: usize) -> usize
    requires short { length row.now < 2 ^ 32 }
    requires few { cell < 2 ^ 40 }
    ensures { result ≡ first_column row.now text cell }
{
    over(row, cell).saturating_sub(text)
}

/// The end of the characters over the cells before `end_cell`, with those without a width that follow
/// them.
#[tactic(auto, unfolding(crate::specs::Cells::end_column))]
pub fn end_column(row: &[char], text: usize, end_cell: usize) -> usize
    requires short { length row.now < 2 ^ 32 }
    requires few { end_cell < 2 ^ 40 }
    ensures { result ≡ last_column row.now text end_cell }
{
    past_narrow(row, over(row, end_cell.saturating_sub(1)) + 1).saturating_sub(text)
}

/// The places of the characters that begin in one of these cells.
///
/// # Errors
///
/// Out of memory.
#[tactic(auto, using(crate::proofs::CellLemmas::no_places, crate::proofs::HungLemmas::hung_below), unfolding(crate::specs::Cells::places_of))]
pub fn places_in(alloc: Global, line: &[char], cells: &[usize]) -> Result<Vec<usize>, AllocError>
    requires { length line.now < 2 ^ 32 }
    ensures { IfOk result (λ places. places.items ≡ places_of cells.now line.now) }
{
    let mut places = Vec::new(alloc);
    if cells.is_empty() {
        return Ok(places);
    }
    if do_ascend(cells) && are_printable(line) {
        return cells_below(alloc, cells, line.len());
    }
    let mut cell = 0;
    for (k, c) in line.iter().enumerate() {
        if is_among(cells, cell) {
            push_place(&mut places, k)?;
        }
        cell += step(cell, *c);
    }
    Ok(places)
}

/// Whether each cell is past the one before it.
fn do_ascend(mut cells: &[usize]) -> bool
    ensures { result ≡ true → ascend 0 cells.entry.now ≡ true }
{
    let mut least = 0;
    while let [cell, rest @ ..] = cells {
        if *cell < least {
            return false;
        }
        let Some(next) = cell.checked_add(1) else {
            return false;
        };
        least = next;
        cells = rest;
    }
    true
}

/// The cells before the first that isn't below an end.
fn cells_below(alloc: Global, cells: &[usize], end: usize) -> Result<Vec<usize>, AllocError>
    ensures { IfOk result (λ places. places.items ≡ below end cells.now) }
{
    let mut places = Vec::new(alloc);
    for cell in cells {
        if *cell >= end {
            return Ok(places);
        }
        push_place(&mut places, *cell)?;
    }
    Ok(places)
}

fn is_among(cells: &[usize], cell: usize) -> bool
    ensures { result ≡ list_any (λ one. one == cell) cells.now }
{
    for one in cells {
        if *one == cell {
            return true;
        }
    }
    false
}

fn push_place(places: &mut Vec<usize>, place: usize) -> Result<(), AllocError>
    ensures { OnOk result (places.new.items ≡ places.old.items ++ place ∷ []) }
{
    places.push(place)?;
    Ok(())
}
