// How an output is cut into pieces, by a caller that is proved from the contracts alone.
ghost use Rattle.std.specs.Prelude.{◌≡◌, IfOk, map};
ghost use Rattle.tool_lines.specs.Lines.{lines_of as lines_in, piece_parts, runs};

use std::alloc::{AllocError, Global};
use tool_lines::lines::{Piece, Sort, read_lines};

/// The pieces of what a tool printed. Their runs of lines, joined, are all lines of it.
fn pieces_in<'a>(alloc: Global, text: &'a [u8]) -> Result<Vec<Piece<'a>>, AllocError>
    ensures { IfOk result (λ pieces.
        runs (map piece_parts pieces.items) (lines_in text.entry.now) ≡ lines_in text.entry.now) }
{
    read_lines(alloc, text, &[])
}

/// An output whose first three lines are one finding.
const OUTPUT: &str = "a.c:4:9: error: x\n    4 |   y\n      |   ^\nmake: *** [a.o] Error 1\n";

/// Whether a block is of this sort, and has this many lines.
fn is_piece(piece: &Piece<'_>, sort: Sort, lines: usize) -> bool {
    piece.begun.sort == sort && piece.lines == lines
}

/// Whether the pieces are a finding of three lines and two lines that are kept.
fn are_three(pieces: &[Piece<'_>]) -> bool {
    match pieces {
        [finding, kept, last] => {
            is_piece(finding, Sort::Inline, 3)
                && is_piece(kept, Sort::Kept, 1)
                && is_piece(last, Sort::Kept, 1)
        }
        _ => false,
    }
}

#[test]
fn an_output_is_cut(rt: HostRuntime) {
    let is_cut = match pieces_in(rt.alloc(), OUTPUT.as_bytes()) {
        Ok(pieces) => are_three(&pieces),
        Err(_) => false,
    };
    assert!(rt; is_cut);
}
