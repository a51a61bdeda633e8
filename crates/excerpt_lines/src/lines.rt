//! A line with its items.
ghost use Rattle.std.specs.Prelude.{◌≡◌, ℕ, ◌≤◌, ◌<◌, ◌^◌, IfOk, List, OnOk, length, true};
ghost use Rattle.excerpt_lines.specs.Items.{AreDisjoint, InkIsKept};
ghost use Rattle.excerpt_lines.specs.Kinds.{IsKind};
ghost use Rattle.excerpt_lines.specs.Lines.{AddsWhole, HasItems, IsFront, IsRead, is_front};
ghost use Rattle.excerpt_lines.specs.Lines.{is_marks, is_note, is_row, is_whole};

use crate::cells::cell_at;
use crate::gutter::text_of;
use crate::items::{Item, Part, item_over, push_item, push_items};
use crate::kinds::{LineKind, kind_of};
use crate::runs::{first_ink, run_back, run_from};
use crate::tables::CharClass;
use std::alloc::{AllocError, Global};

/// What kind of line a line is, and what it is made of.
#[derive(Drop)]
pub struct LineRead {
    pub kind: LineKind,
    pub items: Vec<Item>,
}

/// Reads a line of this kind. Before the places `hung` a text beside marks ends.
///
/// # Errors
///
/// Out of memory.
pub fn read_line(alloc: Global, line: &[char], hung: &[usize]) -> Result<LineRead, AllocError>
    requires { length line.now < 2 ^ 32 }
    ensures kind { IfOk result (λ read. IsKind line.now read.kind) }
    ensures items { IfOk result (λ read.
        IsRead line.now hung.now read.kind read.items.items) }
    ensures nothing_lost { IfOk result (λ read. InkIsKept line.now read.items.items) }
    ensures disjoint { IfOk result (λ read. AreDisjoint read.items.items) }
{
    let kind = kind_of(line);
    let items = items_of(alloc, line, kind, hung)?;
    Ok(LineRead { kind, items })
}

/// What a line of this kind is made of.
fn items_of(
    alloc: Global,
    line: &[char],
    kind: LineKind,
    hung: &[usize],
) -> Result<Vec<Item>, AllocError>
    requires short { length line.now < 2 ^ 32 }
    requires kind { IsKind line.now kind }
    ensures { IfOk result (λ items. IsRead line.now hung.now kind items.items) }
{
    match kind {
        LineKind::Empty => Ok(Vec::new(alloc)),
        LineKind::Place(_) | LineKind::Frame | LineKind::Plain => whole(alloc, line),
        LineKind::Note(note) => note_items(alloc, line, note.text.min(line.len())),
        LineKind::Row(gutter) => row_items(alloc, line, text_of(line, gutter.bar)),
        LineKind::Inserted(text) => row_items(alloc, line, text.min(line.len())),
        LineKind::Space(gutter) | LineKind::Marks(gutter) => {
            mark_items(alloc, line, text_of(line, gutter.bar), hung)
        }
        LineKind::Loose => mark_items(alloc, line, 0, hung),
    }
}

/// All of a line from its first character that is no blank to its last.
fn whole(alloc: Global, line: &[char]) -> Result<Vec<Item>, AllocError>
    requires { length line.now < 2 ^ 32 }
    ensures { IfOk result (λ items. (hung : List ℕ)
        → HasItems line.now hung 0 is_whole items.items) }
{
    let mut items = Vec::new(alloc);
    push_whole(&mut items, line, 0)?;
    Ok(items)
}

/// What comes before this place, and a row from there on.
fn row_items(alloc: Global, line: &[char], text: usize) -> Result<Vec<Item>, AllocError>
    requires short { length line.now < 2 ^ 32 }
    requires within { text ≤ length line.now }
    ensures { IfOk result (λ items. (hung : List ℕ)
        → HasItems line.now hung text is_row items.items) }
{
    let mut items = front(alloc, line, Part::Gutter, text)?;
    if text >= line.len() {
        return Ok(items);
    }
    let cell = cell_at(line, text);
    push_item(
        &mut items,
        item_over(Part::Row, line, text, cell, text, line.len()),
    )?;
    Ok(items)
}

/// What comes before this place, and a note's text from there on.
fn note_items(alloc: Global, line: &[char], text: usize) -> Result<Vec<Item>, AllocError>
    requires short { length line.now < 2 ^ 32 }
    requires within { text ≤ length line.now }
    ensures { IfOk result (λ items. (hung : List ℕ)
        → HasItems line.now hung text is_note items.items) }
{
    let mut items = front(alloc, line, Part::Lead, text)?;
    push_whole(&mut items, line, text)?;
    Ok(items)
}

/// What comes before this place, and marks and texts from there on.
pub fn mark_items(
    alloc: Global,
    line: &[char],
    text: usize,
    hung: &[usize],
) -> Result<Vec<Item>, AllocError>
    requires short { length line.now < 2 ^ 32 }
    requires within { text ≤ length line.now }
    ensures { IfOk result (λ items. HasItems line.now hung.now text is_marks items.items) }
{
    let mut items = front(alloc, line, Part::Gutter, text)?;
    push_items(&mut items, line, text, cell_at(line, text), hung)?;
    Ok(items)
}

/// What comes before the text of a line.
fn front(alloc: Global, line: &[char], part: Part, text: usize) -> Result<Vec<Item>, AllocError>
    requires short { length line.now < 2 ^ 32 }
    requires within { text ≤ length line.now }
    requires part { is_front part ≡ true }
    ensures { IfOk result (λ items. IsFront line.now part text items.items) }
{
    let start = first_ink(line);
    let mut items = Vec::new(alloc);
    if start >= text {
        return Ok(items);
    }
    push_item(&mut items, item_over(part, line, 0, 0, start, text))?;
    Ok(items)
}

/// What is there from a place on, up to the last character that is no blank.
fn push_whole(items: &mut Vec<Item>, line: &[char], at: usize) -> Result<(), AllocError>
    requires short { length line.now < 2 ^ 32 }
    requires within { at ≤ length line.now }
    ensures { OnOk result (AddsWhole line.now at items.old.items items.new.items) }
{
    let start = run_from(CharClass::Blank, line, at);
    let end = run_back(CharClass::Blank, line, start, line.len());
    if start >= end {
        return Ok(());
    }
    let cell = cell_at(line, at);
    push_item(items, item_over(Part::Whole, line, at, cell, start, end))?;
    Ok(())
}
