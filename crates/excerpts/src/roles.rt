//! What each line of a part is in a block.
ghost use Rattle.std.specs.Prelude.{◌≡◌, ◌+◌, ◌++◌, ◌∷◌, [], min, IfOk, OnOk, length, true};
ghost use Rattle.excerpts.specs.Roles.{margin_of as margin_in};
ghost use Rattle.excerpts.specs.Roles.{head_with, role_of as role_in, roles_from};
ghost use Rattle.excerpts.specs.Roles.{source_role as source_role_in};
ghost use Rattle.excerpts.specs.Roles.{suggested_role as suggested_role_in};

use crate::cuts::{Outline, PartKind};
use excerpt_blocks::blocks::{Role, RowHead};
use excerpt_blocks::labels::Spot;
use excerpt_lines::gutter::Sign;
use excerpt_lines::kinds::LineKind;
use std::alloc::{AllocError, Global};

/// What each line of a part is.
///
/// # Errors
///
/// Out of memory.
pub fn roles_of(
    alloc: Global,
    kind: PartKind,
    spot: Spot,
    lines: &[Outline],
) -> Result<Vec<Role>, AllocError>
    ensures value { IfOk result (λ roles.
        roles.items ≡ roles_from kind spot (margin_in lines.now) true lines.now) }
    ensures same { IfOk result (λ roles. length roles.items ≡ length lines.now) }
{
    let margin = margin_of(lines);
    let mut roles = Vec::with_capacity(alloc, lines.len())?;
    let mut first = true;
    for line in lines {
        push_role(&mut roles, role_of(kind, spot, margin, first, *line))?;
        first = false;
    }
    Ok(roles)
}

/// What a line is; without a gutter, the first is the row that the finding is in.
fn role_of(kind: PartKind, spot: Spot, margin: usize, first: bool, line: Outline) -> Role
    ensures { result ≡ role_in kind spot margin first line }
{
    match kind {
        PartKind::Source => source_role(margin, line),
        PartKind::Suggestion => suggested_role(line),
        PartKind::Loose => {
            if first {
                Role::Row(RowHead {
                    number: spot.line,
                    sign: Sign::Unsigned,
                    text: 0,
                    margin: 0,
                })
            } else {
                Role::Marks(0)
            }
        }
        PartKind::Empty
        | PartKind::Place(_)
        | PartKind::Note(_)
        | PartKind::GoesOn(_)
        | PartKind::Frames
        | PartKind::Kept => Role::Other,
    }
}

/// Where the margin of a drawing ends: one place after the last beginning of a link, or 0.
fn margin_of(lines: &[Outline]) -> usize
    ensures { result ≡ margin_in lines.now }
{
    let mut margin = 0;
    for line in lines {
        if let Some(link) = line.link {
            if link >= margin && link < line.length {
                margin = link + 1;
            }
        }
    }
    margin
}

/// What a line is in a drawing of the source, of which the margin ends at this place.
fn source_role(margin: usize, line: Outline) -> Role
    ensures { result ≡ source_role_in margin line }
{
    match line.kind {
        LineKind::Row(gutter) => {
            let text = after_bar(line, gutter.bar);
            Role::Row(RowHead {
                number: gutter.number,
                sign: gutter.sign,
                text: text.max(margin),
                margin: text,
            })
        }
        LineKind::Marks(gutter) => Role::Marks(after_bar(line, gutter.bar)),
        LineKind::Space(_) | LineKind::Frame => Role::Frame,
        LineKind::Empty
        | LineKind::Place(_)
        | LineKind::Note(_)
        | LineKind::Inserted(_)
        | LineKind::Loose
        | LineKind::Plain => Role::Other,
    }
}

/// What a line is in a suggestion. Dots, where rows are left out, are a row without a number.
fn suggested_role(line: Outline) -> Role
    ensures { result ≡ suggested_role_in line }
{
    match line.kind {
        LineKind::Row(gutter) => row(gutter.number, gutter.sign, after_bar(line, gutter.bar)),
        LineKind::Marks(gutter) => Role::Marks(after_bar(line, gutter.bar)),
        LineKind::Space(_) => Role::Gap,
        LineKind::Inserted(text) => row(None, Sign::Added, text),
        LineKind::Frame => match line.sign {
            Some(sign) => row(None, sign, after_bar(line, line.indent)),
            None => {
                if line.dots {
                    row(None, Sign::Unsigned, line.indent)
                } else {
                    Role::Frame
                }
            }
        },
        LineKind::Note(_) | LineKind::Loose | LineKind::Plain => match line.sign {
            Some(sign) => row(None, sign, after_bar(line, line.indent)),
            None => Role::Other,
        },
        LineKind::Empty | LineKind::Place(_) => Role::Other,
    }
}

fn row(number: Option<u32>, sign: Sign, text: usize) -> Role
    ensures { result ≡ head_with number sign text }
{
    Role::Row(RowHead {
        number,
        sign,
        text,
        margin: text,
    })
}

/// Where the text after a bar or sign and a blank begins.
fn after_bar(line: Outline, bar: usize) -> usize
    ensures { result ≡ min (bar + 2) line.length }
{
    if bar < line.length && line.length - bar >= 2 {
        bar + 2
    } else {
        line.length
    }
}

fn push_role(roles: &mut Vec<Role>, role: Role) -> Result<(), AllocError>
    ensures { OnOk result (roles.new.items ≡ roles.old.items ++ role ∷ []) }
{
    roles.push(role)?;
    Ok(())
}
