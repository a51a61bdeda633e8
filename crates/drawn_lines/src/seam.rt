// Split points between blocks that stay, whatever follows.
ghost use Rattle.std.specs.Prelude.{◌≡◌, ◌-◌, ◌&&◌, nat_le, not, true, if◌then◌else◌, IfSome, None};
ghost use Rattle.std.specs.Prelude.{Some, length, map, option_map, take};
ghost use Rattle.line_shapes.specs.Shape.{shape_parts};
ghost use Rattle.tool_lines.specs.Lines.{ArePieces, finding_parts, piece_parts};
ghost use Rattle.drawn_lines.specs.Parting.{is_blank as is_blank_piece};
ghost use Rattle.drawn_lines.specs.Seam.{EndsKnown, IsEnd, IsFull, IsGap, IsPart, OpensAlways};
ghost use Rattle.drawn_lines.specs.Seam.{closes as closes_sort, opens as opens_there};
ghost use Rattle.drawn_lines.specs.Seam.{says_aside as says_it_aside};

use crate::kept::{behind, front};
use crate::parting::{is_blank, waits};
use fed_lines::ends_at;
use line_shapes::shape::Shape;
use tool_lines::lines::{Finding, Piece, Sort, announced, what_begins};

/// A line that belongs to the text of a finding above it.
const A_TEXT: &[u8] = b" x";

/// A line that has the location of the line above it.
const AN_ARROW: &[u8] = b"--> a:1:1";

/// A number of blocks, and of their lines.
#[derive(Clone, Copy)]
pub(crate) struct Part {
    /// The blocks.
    pub(crate) pieces: usize,
    /// Their lines.
    pub(crate) lines: usize,
}

/// The state of a walk over blocks.
#[derive(Clone, Copy)]
pub(crate) struct Sought {
    /// The last split point so far.
    part: Option<Part>,
    /// Whether no later line is below the last block's heading.
    closed: bool,
    /// Whether the last block is an empty line.
    blank: bool,
}

/// The first blocks of these lines that stay as they are, whatever follows, so that nothing later
/// belongs to them, and of which the last isn't an empty line.
pub(crate) fn part_of(shapes: &[Shape<'_>], lines: &[&[u8]], pieces: &[Piece<'_>]) -> Option<Part>
    ensures part { ArePieces (map shape_parts shapes.now) None (map (λ line. line.now) lines.now)
        (map piece_parts pieces.now)
        → IfSome result (IsPart (map shape_parts shapes.now) (map (λ line. line.now) lines.now)
        (map piece_parts pieces.now)) }
    ensures full { IfSome result (IsFull (map (λ line. line.now) lines.now)
        (map piece_parts pieces.now)) }
{
    match end_part(shapes, lines, pieces) {
        Some(part) => Some(part),
        None => gap_in(lines, pieces),
    }
}

/// A part, unless its last block is an empty line.
fn full_part(lines: &[&[u8]], pieces: &[Piece<'_>], part: Part) -> Option<Part>
    ensures same { IfSome result (λ it. part ≡ it) }
    ensures full { IfSome result (IsFull (map (λ line. line.now) lines.now)
        (map piece_parts pieces.now)) }
{
    if waits(lines, front(pieces, part.pieces)) {
        None
    } else {
        Some(part)
    }
}

/// All blocks but the last, if that is the last line and ends them.
fn end_part(shapes: &[Shape<'_>], lines: &[&[u8]], pieces: &[Piece<'_>]) -> Option<Part>
    ensures part { ArePieces (map shape_parts shapes.now) None (map (λ line. line.now) lines.now)
        (map piece_parts pieces.now)
        → IfSome result (IsPart (map shape_parts shapes.now) (map (λ line. line.now) lines.now)
        (map piece_parts pieces.now)) }
    ensures full { IfSome result (IsFull (map (λ line. line.now) lines.now)
        (map piece_parts pieces.now)) }
{
    if ends_known(shapes, lines, pieces) {
        let part = Part {
            pieces: pieces.len().saturating_sub(1),
            lines: lines.len().saturating_sub(1),
        };
        return full_part(lines, pieces, part);
    }
    None
}

/// Whether the last line alone is a block, ends the block before it, and is no note of it,
/// whatever follows.
fn ends_known(shapes: &[Shape<'_>], lines: &[&[u8]], pieces: &[Piece<'_>]) -> bool
    ensures { result ≡ true
        → EndsKnown (map shape_parts shapes.now) (map (λ line. line.now) lines.now)
        (map piece_parts pieces.now) }
{
    match pieces {
        [.., before, last] => match lines {
            [.., line] => is_end(shapes, before, last, line),
            [] => false,
        },
        _ => false,
    }
}

/// Whether a block is this line alone, which ends the block before it, and is no note of it.
fn is_end(shapes: &[Shape<'_>], before: &Piece<'_>, last: &Piece<'_>, line: &[u8]) -> bool
    ensures { result ≡ true
        → IsEnd (map shape_parts shapes.now) (piece_parts before.now) (piece_parts last.now)
        line.now }
{
    if last.lines != 1 || !closes(before.begun.sort) {
        return false;
    }
    if !ends_at(shapes, before.begun.sort, line) {
        return false;
    }
    opens_always(shapes, line)
}

/// Whether what begins at a line is no note of a finding before it, whatever line follows: what it
/// is depends on whether that one belongs to a text, and on whether it is an arrow.
fn opens_always(shapes: &[Shape<'_>], line: &[u8]) -> bool
    ensures { result ≡ true → OpensAlways (map shape_parts shapes.now) line.now }
{
    if says_aside(&what_begins(shapes, line, None).finding) {
        return false;
    }
    if says_aside(&what_begins(shapes, line, Some(A_TEXT)).finding) {
        return false;
    }
    !says_aside(&announced(line, Some(AN_ARROW)))
}

/// The most of the first blocks that have two lines after them, of which the last block closes and
/// isn't an empty line, and before one that is no note.
fn gap_in(lines: &[&[u8]], pieces: &[Piece<'_>]) -> Option<Part>
    ensures gap { IfSome result (IsGap (map piece_parts pieces.now) (length lines.now)) }
    ensures full { IfSome result (IsFull (map (λ line. line.now) lines.now)
        (map piece_parts pieces.now)) }
{
    let mut sought = Sought {
        part: None,
        closed: true,
        blank: false,
    };
    let mut left = lines;
    let mut at = 0;
    for piece in pieces {
        sought = past(sought, at, left, piece, lines.len());
        left = behind(left, piece.lines);
        at += 1;
    }
    sought.part
}

/// Goes on to a block, which begins with the first of these lines; `at` is the number of blocks
/// before it, and `lines` that of all lines.
fn past(sought: Sought, at: usize, left: &[&[u8]], piece: &Piece<'_>, lines: usize) -> Sought
    ensures part { result.part
        ≡ (if sought.closed && opens_there (piece_parts piece.now) && nat_le 2 (length left.now)
        && not sought.blank
        then Some (record { pieces = at; lines = lines - length left.now })
        else sought.part) }
    ensures closed { result.closed ≡ closes_sort piece.now.begun.sort }
    ensures blank { result.blank ≡ is_blank_piece
        (map (λ line. line.now) (take piece.now.lines left.now)) (piece_parts piece.now) }
{
    let opens = !says_aside(&piece.begun.finding);
    let may = sought.closed && opens && left.len() >= 2 && !sought.blank;
    let here = Part {
        pieces: at,
        lines: lines.saturating_sub(left.len()),
    };
    Sought {
        part: if may { Some(here) } else { sought.part },
        closed: closes(piece.begun.sort),
        blank: is_blank(front(left, piece.lines), piece),
    }
}

pub(crate) fn says_aside(finding: &Option<Finding<'_>>) -> bool
    ensures { result ≡ says_it_aside (option_map finding_parts finding.now) }
{
    match finding {
        Some(finding) => finding.says.aside && finding.says.code.is_none(),
        None => false,
    }
}

/// Whether no line after a block of this kind is below its heading.
fn closes(sort: Sort) -> bool
    ensures { result ≡ closes_sort sort }
{
    match sort {
        Sort::Kept | Sort::Announced | Sort::Inline | Sort::Spaced => true,
        Sort::Heading | Sort::Below => false,
    }
}
