//! The lines beside values.
ghost use Rattle.std.specs.Prelude.{◌≡◌, ◌++◌, IfOk, OnOk};
ghost use Rattle.json_inputs.specs.Parts.{line_of, lines_beside as lines_there};

use crate::part::part;
use json_forms::Piece;
use std::alloc::{AllocError, Global};

/// The lines of an input that are no values, in order, each with an LF.
///
/// # Errors
///
/// Out of memory.
#[tactic(auto, unfolding(crate::specs::Parts::lines_beside))]
pub fn lines_beside(alloc: Global, bytes: &[u8], pieces: &[Piece]) -> Result<Vec<u8>, AllocError>
    ensures { IfOk result (λ lines. lines.items ≡ lines_there bytes.now pieces.now) }
{
    let mut lines = Vec::new(alloc);
    let mut rest = pieces;
    while let [piece, more @ ..] = rest {
        push_line(bytes, *piece, &mut lines)?;
        rest = more;
    }
    Ok(lines)
}

/// Appends a line, if it is no value.
fn push_line(bytes: &[u8], piece: Piece, lines: &mut Vec<u8>) -> Result<(), AllocError>
    ensures { OnOk result (lines.new.items ≡ lines.old.items ++ line_of bytes.now piece) }
{
    if piece.is_value {
        return Ok(());
    }
    lines.extend_from_slice(part(bytes, piece.start, piece.end))?;
    lines.extend_from_slice(b"\n")
}
