//! A block of rows, marks and frames.
ghost use Rattle.std.specs.Prelude.{◌≡◌, ◌<◌, ◌≤◌, ◌+◌, ◌^◌, [], IfErr, IfOk, OnOk, length, map};
ghost use Rattle.excerpt_blocks.specs.declared.below.Refusal.TheVariants.{OutOfMemory};
ghost use Rattle.excerpt_blocks.specs.Below.{empty_state, state_of};
ghost use Rattle.excerpt_blocks.specs.Blocks.{Adds, LineAdds, LineRefused, MarksAdd, MarksRefused};
ghost use Rattle.excerpt_blocks.specs.Blocks.{Refuses};
ghost use Rattle.excerpt_blocks.specs.Blocks.{row_of as row_meant};

use crate::below::{Below, Refusal, Row};
use excerpt_lines::cells::{cell_at, places_in};
use excerpt_lines::gutter::Sign;
use excerpt_lines::lines::mark_items;
use std::alloc::Global;

/// What comes before a row's text.
#[derive(Clone, Copy)]
pub struct RowHead {
    pub number: Option<u32>,
    pub sign: Sign,
    /// Where the text begins, in characters from 0.
    pub text: usize,
    /// Where the margin begins, in which bars join the ends of spans of rows; the same where there is
    /// none.
    pub margin: usize,
}

/// What a line is in a block.
#[derive(Clone, Copy)]
pub enum Role {
    Row(RowHead),
    /// Marks and texts below a row; they begin at this place.
    Marks(usize),
    /// An empty gutter, which ends a hunk.
    Gap,
    Frame,
    /// No part of a block.
    Other,
}

/// How long a line may be, in characters.
const LIMIT: usize = 0x1_0000_0000;

/// Reads a block of which the first line has a number in its body.
///
/// # Errors
///
/// Out of memory, or a line of the block isn't read.
pub fn read_block(
    alloc: Global,
    lines: &[&[char]],
    roles: &[Role],
    first: usize,
) -> Result<Below, Refusal>
    requires roles { length lines.now ≡ length roles.now }
    requires few { first + length lines.now < 2 ^ 64 }
    ensures read { IfOk result (λ below. Adds first (map (λ line. line.now) lines.now) roles.now
        [] empty_state (state_of below)) }
    ensures refused { IfErr result (λ why. (why ≡ OutOfMemory → ⊥)
        → Refuses first (map (λ line. line.now) lines.now) roles.now [] empty_state) }
{
    let mut below = Below::new(alloc);
    let mut above: &[char] = &[];
    for (k, line) in lines.iter().enumerate() {
        match add_line(alloc, &mut below, above, line, first + k, roles[k]) {
            Ok(next) => above = next,
            Err(refusal) => return Err(refusal),
        }
    }
    if below.opens.len() > 0 {
        return Err(Refusal::NotRead);
    }
    Ok(below)
}

/// Reads a line of a block below the last row, whose line is `above`. Gives the line that is above the
/// next.
fn add_line<'a>(
    alloc: Global,
    below: &mut Below,
    above: &'a [char],
    line: &'a [char],
    number: usize,
    role: Role,
) -> Result<&'a [char], Refusal>
    requires { length above.now < 2 ^ 32 }
    ensures added { IfOk result (λ next. LineAdds number line.now role above.now
        (state_of below.old) next.now (state_of below.new)) }
    ensures short { IfOk result (λ next. length next.now < 2 ^ 32) }
    ensures refused { IfErr result (λ why. (why ≡ OutOfMemory → ⊥)
        → LineRefused number line.now role above.now (state_of below.old)) }
{
    match role {
        Role::Row(head) => {
            if line.len() >= LIMIT {
                return Err(Refusal::NotRead);
            }
            let row = row_of(below, line, number, head);
            below.begin_row(row)?;
            let from = head.margin.min(row.text);
            below.read_margin(line, from, &line[from..row.text])?;
            Ok(line)
        }
        Role::Marks(text) => {
            add_marks(alloc, below, above, line, number, text)?;
            Ok(above)
        }
        Role::Gap => {
            below.gap = number;
            Ok(above)
        }
        Role::Frame => Ok(above),
        Role::Other => Err(Refusal::NotRead),
    }
}

/// The row that a line prints.
fn row_of(below: &Below, line: &[char], number: usize, head: RowHead) -> Row
    requires { length line.now < 2 ^ 32 }
    ensures { result ≡ row_meant number line.now head (state_of below.now) }
{
    let text = head.text.min(line.len());
    Row {
        line: number,
        number: head.number,
        sign: head.sign,
        text,
        cell: cell_at(line, text),
        marks: below.marks.len(),
        texts: below.texts.len(),
        gap: below.gap,
    }
}

/// Reads marks and texts below the last row.
fn add_marks(
    alloc: Global,
    below: &mut Below,
    above: &[char],
    line: &[char],
    number: usize,
    text: usize,
) -> Result<(), Refusal>
    requires { length above.now < 2 ^ 32 }
    ensures added { OnOk result (MarksAdd number line.now text above.now
        (state_of below.old) (state_of below.new)) }
    ensures refused { IfErr result (λ why. (why ≡ OutOfMemory → ⊥)
        → MarksRefused number line.now text above.now (state_of below.old)) }
{
    if line.len() >= LIMIT || below.rows.is_empty() {
        return Err(Refusal::NotRead);
    }
    let cells = below.hung(alloc)?;
    let places = places_in(alloc, line, cells.as_slice())?;
    let items = mark_items(alloc, line, text.min(line.len()), places.as_slice())?;
    below.read(above, line, number, items.as_slice())
}
