// Lines that come one at a time, how they are cut, and a caller that is proved from the contracts
// alone.
ghost use Rattle.std.specs.Prelude.{◌≡◌, option_map};
ghost use Rattle.fed_lines.specs.Feed.{known_piece};
ghost use Rattle.fed_lines.specs.Held.{held_lines, held_name, held_shapes};

use fed_lines::Lines;
use fed_lines::whole::{Cut, cut_as_they_come};
use std::alloc::{AllocError, Global};
use tool_lines::lines::Sort;

/// Removes the next known block, and says how many lines it has.
fn given(lines: &mut Lines<'_>) -> Option<usize>
    ensures { result ≡ option_map (λ p. p.lines)
        (known_piece (held_shapes lines.old) (held_name lines.old) (held_lines lines.old)) }
{
    let piece = lines.known()?;
    let (sort, count) = (piece.begun.sort, piece.lines);
    lines.pass(sort, count);
    Some(count)
}

/// A line, how many blocks are known with it, and how many lines each of them has.
type Coming = (&'static str, u8, usize);

/// Lines in their order.
const COMING: [Coming; 8] = [
    ("a.c:1:2: error: x", 0, 0),
    ("  y", 0, 0),
    ("", 1, 2),
    ("z", 1, 1),
    ("a.c:2:3: error: x", 1, 1),
    ("a.js", 0, 0),
    ("  3:5  error  x  no-undef", 3, 1),
    ("w", 0, 0),
];

/// Whether exactly `pieces` blocks are known, of `count` lines each.
fn are_given(lines: &mut Lines<'_>, pieces: u8, count: usize) -> bool {
    let mut so_far = true;
    for _ in 0..pieces {
        so_far = so_far && given(lines) == Some(count);
    }
    so_far && given(lines).is_none()
}

/// Whether these blocks are known with a line.
fn is_known_with(alloc: Global, lines: &mut Lines<'_>, row: &Coming) -> bool {
    let (line, pieces, count) = *row;
    match line.as_bytes().to_vec(alloc) {
        Ok(line) => lines.feed(line).is_ok() && are_given(lines, pieces, count),
        Err(_) => false,
    }
}

#[test]
fn pieces_are_given_once_they_are_known(rt: HostRuntime) {
    let mut lines = Lines::new(rt.alloc(), &[]);
    for row in &COMING {
        assert!(rt; is_known_with(rt.alloc(), &mut lines, row), "{}", row.0);
    }
}

/// How these lines are cut.
const CUTS: [(Sort, usize); 7] = [
    (Sort::Inline, 2),
    (Sort::Kept, 1),
    (Sort::Kept, 1),
    (Sort::Inline, 1),
    (Sort::Heading, 1),
    (Sort::Below, 1),
    (Sort::Kept, 1),
];

/// Findings that an empty line parts from their drawings, and how these lines are cut.
const APART: [&str; 11] = [
    "a.ts:1:5 - error TS1: x",
    "",
    "1 let",
    "  ~~~",
    "",
    "a.f90:8:2:",
    "",
    "    8 | do",
    "      | 1",
    "Error: y at (1)",
    "z",
];

const APART_CUTS: [(Sort, usize); 4] = [
    (Sort::Spaced, 4),
    (Sort::Kept, 1),
    (Sort::Spaced, 5),
    (Sort::Kept, 1),
];

fn coming(alloc: Global) -> Result<Vec<&'static [u8]>, AllocError> {
    let mut lines = Vec::new(alloc);
    for row in &COMING {
        lines.push(row.0.as_bytes())?;
    }
    Ok(lines)
}

fn coming_apart(alloc: Global) -> Result<Vec<&'static [u8]>, AllocError> {
    let mut lines = Vec::new(alloc);
    for line in &APART {
        lines.push(line.as_bytes())?;
    }
    Ok(lines)
}

fn are_cut(cuts: &[Cut], all: &[(Sort, usize)]) -> bool {
    let mut so_far = cuts.len() == all.len();
    for (cut, wanted) in cuts.iter().zip(all) {
        so_far = so_far && cut.sort == wanted.0 && cut.lines == wanted.1;
    }
    so_far
}

fn is_cut_as_it_comes(alloc: Global, lines: &[&[u8]], all: &[(Sort, usize)]) -> bool {
    match cut_as_they_come(alloc, &[], lines) {
        Ok(cuts) => are_cut(&cuts, all),
        Err(_) => false,
    }
}

#[test]
fn lines_are_cut_as_they_come(rt: HostRuntime) {
    let is_cut = match coming(rt.alloc()) {
        Ok(lines) => is_cut_as_it_comes(rt.alloc(), &lines, &CUTS),
        Err(_) => false,
    };
    assert!(rt; is_cut);
    let is_cut_apart = match coming_apart(rt.alloc()) {
        Ok(lines) => is_cut_as_it_comes(rt.alloc(), &lines, &APART_CUTS),
        Err(_) => false,
    };
    assert!(rt; is_cut_apart);
}
