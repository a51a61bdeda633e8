// The lines of a diff, and parts of a line.
ghost use Rattle.std.specs.Prelude.{◌≡◌, ◌≤◌, ◌==◌, not, map, nat_eq, length, drop, IfOk};
ghost use Rattle.std.specs.List.{prefix_len, starts_with};
ghost use Rattle.changed_rows.specs.Lines.{all_lines, back_from, front_to};
ghost use Rattle.changed_rows.specs.Lines.{lines_of as lines_in, without_return};
ghost use Rattle.changed_rows.specs.Lines.{without_break as without_break_in};

use std::alloc::{AllocError, Global};

/// The lines of a diff, without their LFs.
#[tactic(auto, unfolding(crate::specs::Lines::lines_of))]
pub fn lines_of<'d>(alloc: Global, diff: &'d [u8]) -> Result<Vec<&'d [u8]>, AllocError>
    ensures { IfOk result (λ lines. map (λ line. line.now) lines.items
        ≡ lines_in diff.entry.now) }
{
    if diff.is_empty() {
        return Ok(Vec::new(alloc));
    }
    cut(alloc, without_break(diff))
}

/// The texts between LFs.
fn cut<'d>(alloc: Global, diff: &'d [u8]) -> Result<Vec<&'d [u8]>, AllocError>
    ensures { IfOk result (λ lines. map (λ line. line.now) lines.items
        ≡ all_lines diff.entry.now) }
{
    diff.split(|byte| *byte == b'\n').collect(alloc)
}

/// A text without an LF at its end.
fn without_break(text: &[u8]) -> &[u8]
    ensures { result.now ≡ without_break_in text.now }
{
    match text {
        [front @ .., b'\n'] => front,
        _ => text,
    }
}

/// Whether a line begins with a text.
pub fn begins(line: &[u8], front: &[u8]) -> bool
    ensures { result ≡ starts_with nat_eq line.now front.now }
{
    line.starts_with(front)
}

/// What a line has from an offset on; nothing past its end.
pub fn from_at(line: &[u8], at: usize) -> &[u8]
    ensures { result.now ≡ drop at line.now }
{
    if at < line.len() { &line[at..] } else { &[] }
}

/// What a line has before the first of a byte; all of it if it has none.
pub fn before(line: &[u8], stop: u8) -> &[u8]
    ensures value { result.now ≡ front_to stop line.now }
    ensures within { length result.now ≤ length line.now }
{
    &line[..count_before(line, stop)]
}

/// What a line has after the first of a byte; nothing if it has none.
pub fn after(line: &[u8], stop: u8) -> &[u8]
    ensures { result.now ≡ back_from stop line.now }
{
    from_at(line, count_before(line, stop) + 1)
}

/// How many bytes a line has before the first of a byte.
fn count_before(line: &[u8], stop: u8) -> usize
    ensures value { result ≡ prefix_len (λ byte. not (byte == stop)) line.now }
    ensures within { result ≤ length line.now }
{
    line.iter().take_while(|byte| **byte != stop).count()
}

/// A line without a CR at its end.
pub fn without_cr(line: &[u8]) -> &[u8]
    ensures { result.now ≡ without_return line.now }
{
    match line {
        [front @ .., b'\r'] => front,
        _ => line,
    }
}
