//! The help and the note of a finding.
ghost use Rattle.std.specs.Prelude.{◌≡◌, ◌++◌, IfOk, OnOk, map, option_map, string_bytes};
ghost use Rattle.std.specs.List.{filter_map};
ghost use Rattle.std.specs.Option.{option_copied};
ghost use Rattle.oxc_span.specs.Views.{text_bytes};
ghost use Rattle.json_forms.specs.Finding.{beside_view};
ghost use Rattle.json_reports.specs.Reports.{joined as lines_joined, kind_number, lines_after};
ghost use Rattle.json_reports.specs.Reports.{lines_of as lines_there, said_as as said_there};

use json_forms::{Beside, SideKind};
use std::alloc::{AllocError, Global};

fn number_of(kind: SideKind) -> u8
    ensures { result ≡ kind_number kind }
{
    match kind {
        SideKind::Place => 0,
        SideKind::Label => 1,
        SideKind::Edit => 2,
        SideKind::Note => 3,
    }
}

/// What a side says, if it is of this kind.
fn said_as<'v, 't>(kind: SideKind, side: &Beside<'v, 't>) -> Option<&'v str>
    ensures { option_map (λ text. text.now) result ≡ said_there kind (beside_view side.now) }
{
    match side {
        Beside::Said {
            kind: own,
            text,
            ..
        } if number_of(kind) == number_of(*own) => *text,
        _ => None,
    }
}

/// Adds what each side of a kind says.
fn push_said<'v, 't>(
    kind: SideKind,
    mut sides: &[Beside<'v, 't>],
    lines: &mut Vec<&'v str>,
) -> Result<(), AllocError>
    ensures { OnOk result (map (λ line. line.now) lines.new.items
        ≡ map (λ line. line.now) lines.old.items
        ++ filter_map (said_there kind) (map beside_view sides.entry.now)) }
{
    while let [side, rest @ ..] = sides {
        if let Some(text) = said_as(kind, side) {
            lines.push(text)?;
        }
        sides = rest;
    }
    Ok(())
}

/// What a finding says, and then what each side of a kind says, each on a line of its own.
///
/// # Errors
///
/// Out of memory.
pub(crate) fn lines_of<'v, 't>(
    alloc: Global,
    kind: SideKind,
    own: Option<&'v str>,
    sides: &[Beside<'v, 't>],
) -> Result<Option<String>, AllocError>
    ensures { IfOk result (λ text. text_bytes text
        ≡ lines_joined (lines_there kind (option_copied own.entry) (map beside_view sides.now))) }
{
    let mut lines = Vec::new(alloc);
    if let Some(own) = own {
        lines.push(own)?;
    }
    push_said(kind, sides, &mut lines)?;
    joined(alloc, &lines)
}

/// Lines as one text, if there are any.
fn joined(alloc: Global, lines: &[&str]) -> Result<Option<String>, AllocError>
    ensures { IfOk result (λ text. text_bytes text
        ≡ lines_joined (map (λ line. line.now) lines.now)) }
{
    let [first, rest @ ..] = lines else {
        return Ok(None);
    };
    let mut text = String::from_str(alloc, first)?;
    push_lines(&mut text, rest)?;
    Ok(Some(text))
}

/// Appends lines, each after an LF.
fn push_lines(text: &mut String, mut lines: &[&str]) -> Result<(), AllocError>
    ensures { OnOk result (string_bytes text.new
        ≡ string_bytes text.old ++ lines_after (map (λ line. line.now) lines.entry.now)) }
{
    while let [line, rest @ ..] = lines {
        text.push_str("\n")?;
        text.push_str(line)?;
        lines = rest;
    }
    Ok(())
}
