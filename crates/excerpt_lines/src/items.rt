//! What a line is made of: gutters, runs of marks, bars, links, hooks and texts.
ghost use Rattle.std.specs.Prelude.{◌≡◌, ◌+◌, ◌*◌, ◌≤◌, ◌<◌, ◌-◌, ◌^◌, IfSome, IfNone, IfOk, true};
ghost use Rattle.std.specs.Prelude.{length};
ghost use Rattle.std.specs.Prelude.{slice_index, OnOk, ◌++◌, ◌∷◌, []};
ghost use Rattle.excerpt_lines.specs.Cells.{cell_at as cell_there};
ghost use Rattle.excerpt_lines.specs.Items.{AddsItems, HasPart, IsItem, IsNext, IsTextEnd};
ghost use Rattle.excerpt_lines.specs.Items.{hook_in, is_drawn, link_in, mark_in, marks_again};
ghost use Rattle.excerpt_lines.specs.Items.{is_gap as is_gap_at, may_end as may_end_at};
ghost use Rattle.excerpt_lines.specs.Runs.{EachIn, run_end};
ghost use Rattle.excerpt_lines.specs.Tables.{is_in as belongs};
ghost use Rattle.excerpt_lines.specs.declared.tables.CharClass.TheVariants.{Blank, Ink, Underscore};

use crate::cells::cell_after;
use crate::runs::{char_at, run_from};
use crate::tables::{CharClass, class_of, hook_of, is_in};
use std::alloc::{AllocError, Global};

/// What an item is.
#[derive(Clone, Copy)]
pub enum Part {
    /// What comes before the text of a line in a drawing: a number or none, and a bar or a sign.
    Gutter,
    /// The text of a row.
    Row,
    /// A run of marks of one class.
    Mark(CharClass),
    Bar,
    /// Underscores that join marks with the margin.
    Link,
    /// `╰──`, with the class of what follows its first character.
    Hook(CharClass),
    /// A text beside marks or below them.
    Text,
    /// All of a line's text, or that of a note.
    Whole,
    /// What comes before the text of a note: its leader and its kind.
    Lead,
}

/// A part of a line.
#[derive(Clone, Copy)]
pub struct Item {
    pub part: Part,
    /// Where it begins and ends, in characters from 0.
    pub start: usize,
    pub end: usize,
    /// The cell in which it begins, and the one after it, from 0.
    pub cell: usize,
    pub end_cell: usize,
}

/// A part that begins at a known place, and where it ends.
#[derive(Clone, Copy)]
struct Found {
    part: Part,
    end: usize,
}

/// The items of a line from a place on, where a cell begins. Before the places `hung` a text ends.
///
/// # Errors
///
/// Out of memory.
pub fn push_items(
    items: &mut Vec<Item>,
    line: &[char],
    at: usize,
    cell: usize,
    hung: &[usize],
) -> Result<(), AllocError>
    requires within { at ≤ length line.now }
    requires short { length line.now < 2 ^ 32 }
    requires cell { cell ≡ cell_there line.now at }
    requires few { cell ≤ 8 * at }
    ensures { OnOk result (AddsItems line.now hung.now at items.old.items items.new.items) }
{
    let mut next = at;
    let mut next_cell = cell;
    while let Some(item) = next_item(line, at, next, next_cell, hung) {
        push_item(items, item)?;
        next = item.end;
        next_cell = item.end_cell;
    }
    Ok(())
}

pub fn push_item(items: &mut Vec<Item>, item: Item) -> Result<(), AllocError>
    ensures { OnOk result (items.new.items ≡ items.old.items ++ item ∷ []) }
{
    items.push(item)?;
    Ok(())
}

/// The next item of a line that is read from `begin` on.
fn next_item(line: &[char], begin: usize, at: usize, cell: usize, hung: &[usize]) -> Option<Item>
    requires within { at ≤ length line.now }
    requires short { length line.now < 2 ^ 32 }
    requires cell { cell ≡ cell_there line.now at }
    requires few { cell ≤ 8 * at }
    ensures some { IfSome result (IsNext line.now begin hung.now at) }
    ensures drawn { IfSome result (λ item. is_drawn item.part ≡ true) }
    ensures none { IfNone result (EachIn Blank line.now at (length line.now)) }
{
    let start = run_from(CharClass::Blank, line, at);
    if start == line.len() {
        return None;
    }
    let found = found_at(line, begin, start, hung);
    Some(item_over(found.part, line, at, cell, start, found.end))
}

/// The item of a part between two places, of which the cell of a place before them is known.
#[tactic(auto, using(crate::proofs::CellLemmas::cells_go_on))]
pub fn item_over(
    part: Part,
    line: &[char],
    at: usize,
    cell: usize,
    start: usize,
    end: usize,
) -> Item
    requires ordered { at ≤ start }
    requires some { start ≤ end }
    requires within { end ≤ length line.now }
    requires short { length line.now < 2 ^ 32 }
    requires cell { cell ≡ cell_there line.now at }
    requires few { cell ≤ 8 * at }
    ensures { IsItem line.now part start end result }
{
    let begin = cell_after(cell, &line[at..start]);
    let end_cell = cell_after(begin, &line[start..end]);
    Item {
        part,
        start,
        end,
        cell: begin,
        end_cell,
    }
}

/// What begins at a place that is no blank.
fn found_at(line: &[char], begin: usize, start: usize, hung: &[usize]) -> Found
    requires within { start < length line.now }
    requires ink { belongs Ink (slice_index line.now start) ≡ true }
    ensures part { HasPart line.now begin hung.now start result.part result.end }
    ensures drawn { is_drawn result.part ≡ true }
{
    if let Some(class) = mark_at(line, start) {
        Found {
            part: Part::Mark(class),
            end: run_from(class, line, start),
        }
    } else if is_in(CharClass::Bar, line[start]) {
        Found {
            part: Part::Bar,
            end: start + 1,
        }
    } else if is_link(line, begin, start) {
        Found {
            part: Part::Link,
            end: run_from(CharClass::Underscore, line, start),
        }
    } else if let Some(tail) = hook_at(line, start) {
        Found {
            part: Part::Hook(tail),
            end: run_from(tail, line, start + 1),
        }
    } else {
        Found {
            part: Part::Text,
            end: text_end(line, start, hung),
        }
    }
}

/// The class of the run of marks that begins here.
#[tactic(auto, unfolding(crate::specs::Items::mark_in))]
fn mark_at(line: &[char], start: usize) -> Option<CharClass>
    requires { start < length line.now }
    ensures value { result ≡ mark_in line.now start }
    ensures member { IfSome result (λ class. belongs class (slice_index line.now start) ≡ true) }
{
    let class = class_of(line[start])?;
    if may_end(line, run_from(class, line, start)) {
        Some(class)
    } else {
        None
    }
}

/// Whether a run of marks may end here.
#[tactic(auto, unfolding(crate::specs::Items::may_end))]
fn may_end(line: &[char], end: usize) -> bool
    ensures { result ≡ may_end_at line.now end }
{
    if end >= line.len() {
        return true;
    }
    let c = line[end];
    is_in(CharClass::Blank, c) || is_in(CharClass::Bar, c) || c == '_' || class_of(c).is_some()
}

/// Whether a line to the margin begins here.
#[tactic(auto, unfolding(crate::specs::Items::link_in))]
pub fn is_link(line: &[char], begin: usize, start: usize) -> bool
    requires { start < length line.now }
    ensures value { result ≡ link_in line.now begin start }
    ensures member { result ≡ true → belongs Underscore (slice_index line.now start) ≡ true }
{
    let end = run_from(CharClass::Underscore, line, start);
    if end == start || end == line.len() {
        return false;
    }
    let next = line[end];
    next == '^'
        || next == '-'
        || is_in(CharClass::Bar, next)
        || begin < start && is_in(CharClass::Bar, char_at(line, start.saturating_sub(1)))
}

/// How the hook goes on that begins here.
#[tactic(auto, unfolding(crate::specs::Items::hook_in))]
fn hook_at(line: &[char], start: usize) -> Option<CharClass>
    requires { start < length line.now }
    ensures { result ≡ hook_in line.now start }
{
    let tail = hook_of(line[start])?;
    let end = run_from(tail, line, start + 1);
    if end > start + 1 && (end == line.len() || line[end] == ' ') {
        Some(tail)
    } else {
        None
    }
}

/// Where the text ends that begins here.
fn text_end(line: &[char], start: usize, hung: &[usize]) -> usize
    requires within { start < length line.now }
    requires ink { belongs Ink (slice_index line.now start) ≡ true }
    ensures { IsTextEnd line.now hung.now start result }
{
    let mut end = run_from(CharClass::Ink, line, start);
    while end < line.len() {
        let next = run_from(CharClass::Blank, line, end);
        if is_gap(line, hung, end, next) {
            return end;
        }
        end = run_from(CharClass::Ink, line, next);
    }
    end
}

/// Whether a text ends before blanks between these places.
#[tactic(auto, unfolding(crate::specs::Items::is_gap))]
fn is_gap(line: &[char], hung: &[usize], end: usize, next: usize) -> bool
    requires blanks { next ≡ run_end Blank line.now end }
    requires ordered { end ≤ next }
    requires within { next ≤ length line.now }
    ensures { result ≡ is_gap_at line.now hung.now end }
{
    next == line.len() || hung.contains(&next) || next - end >= 2 && are_marks_again(line, next)
}

/// Whether a run of marks begins here, and a blank or the end follows it.
#[tactic(auto, unfolding(crate::specs::Items::marks_again))]
fn are_marks_again(line: &[char], at: usize) -> bool
    requires { at < length line.now }
    ensures { result ≡ marks_again line.now at }
{
    match class_of(line[at]) {
        Some(class) => {
            let end = run_from(class, line, at);
            end == line.len() || is_in(CharClass::Blank, line[end])
        }
        None => false,
    }
}
