//! A body read as a whole, or kept.
ghost use Rattle.std.specs.Prelude.{◌≡◌, ◌+◌, ◌++◌, ◌∷◌, [], ◌<◌, ◌^◌, IfErr, IfNone, IfOk, IfSome};
ghost use Rattle.std.specs.Prelude.{OnOk, length, map};
ghost use Rattle.excerpt_blocks.specs.declared.below.Refusal.TheVariants.{OutOfMemory};
ghost use Rattle.excerpts.specs.Body.{AddsPart, AreOutlines, BlockRefused, IsBlock, IsKept, IsRead};
ghost use Rattle.excerpts.specs.Body.{IsStopped, PartRefused, Reads, block_of, is_block};
ghost use Rattle.excerpts.specs.Body.{suits as suits_part};
ghost use Rattle.excerpt_blocks.specs.Below.{state_of};

use crate::cuts::{Open, Outline, Part, PartKind, START, after, head, outline_of, part_at};
use crate::roles::roles_of;
use excerpt_blocks::below::{Below, Refusal, tail};
use excerpt_blocks::blocks::read_block;
use excerpt_blocks::labels::{Label, Spot, labels_of};
use std::alloc::{AllocError, Global};

/// A drawing or a suggestion.
#[derive(Drop)]
pub struct Block {
    pub below: Below,
    pub labels: Vec<Label>,
}

/// What a body says.
#[derive(Drop)]
pub struct Excerpt {
    /// Its parts in order; together they have all its lines.
    pub parts: Vec<Part>,
    /// The drawings and suggestions among them, in order.
    pub blocks: Vec<Block>,
}

/// Reads the lines of a body, without ANSI escapes and CR; the head of the finding is not among them.
/// It gives nothing if one of the lines can't be read: then the body is kept as a whole.
///
/// # Errors
///
/// Out of memory.
pub fn read(alloc: Global, spot: Spot, lines: &[&[char]]) -> Result<Option<Excerpt>, AllocError>
    ensures read { IfOk result (λ excerpt.
        IfSome excerpt (IsRead spot (map (λ line. line.now) lines.now))) }
    ensures kept { IfOk result (λ excerpt.
        IfNone excerpt (IsKept spot (map (λ line. line.now) lines.now))) }
{
    let outlines = outlines_of(alloc, lines)?;
    match read_outlined(alloc, spot, lines, outlines.as_slice()) {
        Ok(excerpt) => Ok(Some(excerpt)),
        Err(Refusal::NotRead) => Ok(None),
        Err(Refusal::OutOfMemory) => Err(AllocError),
    }
}

/// The outlines of lines.
fn outlines_of(alloc: Global, lines: &[&[char]]) -> Result<Vec<Outline>, AllocError>
    ensures all { IfOk result (λ outlines.
        AreOutlines (map (λ line. line.now) lines.now) outlines.items) }
    ensures same { IfOk result (λ outlines. length outlines.items ≡ length lines.now) }
{
    let mut outlines = Vec::with_capacity(alloc, lines.len())?;
    for line in lines {
        push_outline(&mut outlines, outline_of(line))?;
    }
    Ok(outlines)
}

/// Reads a body whose outlines are known.
fn read_outlined(
    alloc: Global,
    spot: Spot,
    lines: &[&[char]],
    outlines: &[Outline],
) -> Result<Excerpt, Refusal>
    requires { length lines.now ≡ length outlines.now }
    ensures read { IfOk result (λ excerpt. Reads spot START 0 (map (λ line. line.now) lines.now)
        outlines.now excerpt.parts.items (map block_of excerpt.blocks.items)) }
    ensures refused { IfErr result (λ why. (why ≡ OutOfMemory → ⊥)
        → IsStopped spot (map (λ line. line.now) lines.now) outlines.now) }
{
    let mut excerpt = Excerpt {
        parts: Vec::new(alloc),
        blocks: Vec::new(alloc),
    };
    let mut state = START;
    let mut next = 0;
    while next < lines.len() {
        let left = tail(outlines, next);
        let Some(part) = part_at(spot, state, next, left) else {
            return Err(Refusal::NotRead);
        };
        let mine = head(tail(lines, next), part.lines);
        match excerpt.add(alloc, spot, part, mine, head(left, part.lines)) {
            Ok(()) => {}
            Err(refusal) => return Err(refusal),
        }
        state = after(state, part.kind);
        next += part.lines;
    }
    Ok(excerpt)
}

impl Excerpt {
    /// Reads a part, with its block if it is one.
    fn add(
        &mut self,
        alloc: Global,
        spot: Spot,
        part: Part,
        lines: &[&[char]],
        outlines: &[Outline],
    ) -> Result<(), Refusal>
        requires same { length lines.now ≡ length outlines.now }
        requires few { part.first + length lines.now < 2 ^ 64 }
        ensures added { OnOk result (AddsPart spot part (map (λ line. line.now) lines.now)
            outlines.now self.old self.new) }
        ensures refused { IfErr result (λ why. (why ≡ OutOfMemory → ⊥)
            → PartRefused spot part (map (λ line. line.now) lines.now) outlines.now) }
    {
        if !has_block(part.kind) {
            push_part(&mut self.parts, part)?;
            return Ok(());
        }
        let block = block_in(alloc, spot, part, lines, outlines)?;
        push_block(&mut self.blocks, block)?;
        push_part(&mut self.parts, part)?;
        Ok(())
    }
}

/// Whether a part is a block.
fn has_block(kind: PartKind) -> bool
    ensures { result ≡ is_block kind }
{
    match kind {
        PartKind::Source | PartKind::Loose | PartKind::Suggestion => true,
        PartKind::Empty
        | PartKind::Place(_)
        | PartKind::Note(_)
        | PartKind::GoesOn(_)
        | PartKind::Frames
        | PartKind::Kept => false,
    }
}

/// Reads a block.
fn block_in(
    alloc: Global,
    spot: Spot,
    part: Part,
    lines: &[&[char]],
    outlines: &[Outline],
) -> Result<Block, Refusal>
    requires same { length lines.now ≡ length outlines.now }
    requires few { part.first + length lines.now < 2 ^ 64 }
    ensures read { IfOk result (λ block. IsBlock spot part (map (λ line. line.now) lines.now)
        outlines.now (block_of block)) }
    ensures refused { IfErr result (λ why. (why ≡ OutOfMemory → ⊥)
        → BlockRefused spot part (map (λ line. line.now) lines.now) outlines.now) }
{
    let roles = roles_of(alloc, part.kind, spot, outlines)?;
    match read_block(alloc, lines, roles.as_slice(), part.first) {
        Ok(below) => {
            if !suits(part.kind, &below) {
                return Err(Refusal::NotRead);
            }
            let labels = labels_of(alloc, &below, spot)?;
            Ok(Block { below, labels })
        }
        Err(refusal) => Err(refusal),
    }
}

/// Whether a block has what its part may have: no texts and no bars below the rows of a suggestion.
fn suits(kind: PartKind, below: &Below) -> bool
    ensures { result ≡ suits_part kind (state_of below.now) }
{
    match kind {
        PartKind::Suggestion => below.texts.is_empty() && below.hangs.is_empty(),
        PartKind::Source
        | PartKind::Loose
        | PartKind::Empty
        | PartKind::Place(_)
        | PartKind::Note(_)
        | PartKind::GoesOn(_)
        | PartKind::Frames
        | PartKind::Kept => true,
    }
}

fn push_outline(outlines: &mut Vec<Outline>, outline: Outline) -> Result<(), AllocError>
    ensures { OnOk result (outlines.new.items ≡ outlines.old.items ++ outline ∷ []) }
{
    outlines.push(outline)?;
    Ok(())
}

fn push_part(parts: &mut Vec<Part>, part: Part) -> Result<(), AllocError>
    ensures { OnOk result (parts.new.items ≡ parts.old.items ++ part ∷ []) }
{
    parts.push(part)?;
    Ok(())
}

fn push_block(blocks: &mut Vec<Block>, block: Block) -> Result<(), AllocError>
    ensures { OnOk result (blocks.new.items ≡ blocks.old.items ++ block ∷ []) }
{
    blocks.push(block)?;
    Ok(())
}
