// Lines of bytes as they come.
ghost use Rattle.std.specs.Prelude.{◌≡◌, ◌∷◌, ◌++◌, [], ℕ, List, All, true, false, IfOk, IfSome};
ghost use Rattle.std.specs.Prelude.{MatchOption, drop, map};
ghost use Rattle.memchr.specs.Find.{is_byte};
ghost use Rattle.tool_lines.specs.Lines.{without_cr as without_a_cr};
ghost use Rattle.drawn_lines.specs.Text.{AreRead, came_behind, came_of, came_to_come};
ghost use Rattle.drawn_lines.specs.Text.{goes_on, without_mark as unmarked};
ghost use Rattle.drawn_lines.specs.Text.{lines_of as lines_meant, read_line as line_read};

use memchr::memchr;
use std::alloc::{AllocError, Global};
use tool_lines::lines::without_cr;
use tool_lines::paint::without_paint;

/// Lines that came, and the beginning of the next one.
#[derive(Drop)]
pub(crate) struct HeldLines {
    /// The lines as they are read.
    pub(crate) lines: Vec<Vec<u8>>,
    /// The same lines as they came.
    pub(crate) came: Vec<Vec<u8>>,
    /// The beginning of the next line; or all bytes, while they may be part of a byte order mark.
    pub(crate) tail: Vec<u8>,
    /// Whether lines are split: a byte order mark before them is skipped.
    pub(crate) begun: bool,
}

/// The lines of a text without a byte order mark and ANSI escapes, each without a CR at its end. A
/// last LF ends a line, and begins none.
///
/// # Errors
///
/// Out of memory.
#[tactic(auto, using(crate::proofs::PlainLemmas::lines_are))]
pub fn lines_of(alloc: Global, text: &[u8]) -> Result<Vec<Vec<u8>>, AllocError>
    ensures lines { IfOk result (λ lines. map (λ line. line.items) lines.items
        ≡ lines_meant text.now) }
    ensures came { map line_read (came_of text.now) ≡ lines_meant text.now }
{
    let held = HeldLines::new(alloc).with_bytes(alloc, text)?;
    Ok(held.ended(alloc)?.lines)
}

impl HeldLines {
    /// No lines yet.
    pub(crate) fn new(alloc: Global) -> HeldLines
        ensures came { (more : List ℕ) → came_to_come result more ≡ came_of more }
        ensures read { AreRead result }
    {
        HeldLines {
            lines: Vec::new(alloc),
            came: Vec::new(alloc),
            tail: Vec::new(alloc),
            begun: false,
        }
    }

    /// The same with the next bytes.
    pub(crate) fn with_bytes(self, alloc: Global, bytes: &[u8]) -> Result<HeldLines, AllocError>
        ensures came { IfOk result (λ next. (more : List ℕ)
            → came_to_come next more ≡ came_to_come self (bytes.now ++ more)) }
        ensures read { IfOk result (λ next. AreRead self → AreRead next) }
    {
        if self.begun {
            self.with_more(alloc, bytes)
        } else {
            self.with_first(alloc, bytes)
        }
    }

    /// The same with the first bytes, once there are as many as a byte order mark has.
    fn with_first(self, alloc: Global, bytes: &[u8]) -> Result<HeldLines, AllocError>
        requires { self.begun ≡ false }
        ensures came { IfOk result (λ next. (more : List ℕ)
            → came_to_come next more ≡ came_to_come self (bytes.now ++ more)) }
        ensures read { IfOk result (λ next. AreRead self → AreRead next) }
    {
        let HeldLines {
            lines,
            came,
            mut tail,
            begun,
        } = self;
        tail.extend_from_slice(bytes)?;
        let held = HeldLines {
            lines,
            came,
            tail,
            begun,
        };
        if held.tail.len() < 3 {
            return Ok(held);
        }
        held.cut_first(alloc)
    }

    /// The same with the lines of all that came, without a byte order mark before them.
    fn cut_first(self, alloc: Global) -> Result<HeldLines, AllocError>
        ensures came { IfOk result (λ next. (more : List ℕ) → goes_on next more
            ≡ map (λ line. line.items) self.came.items
            ++ came_behind [] (unmarked self.tail.items ++ more)) }
        ensures read { IfOk result (λ next. AreRead self → AreRead next) }
        ensures begun { IfOk result (λ next. next.begun ≡ true) }
    {
        let HeldLines {
            lines,
            came,
            tail,
            begun: _,
        } = self;
        let held = HeldLines {
            lines,
            came,
            tail: Vec::new(alloc),
            begun: true,
        };
        held.with_more(alloc, without_mark(&tail))
    }

    /// The same with the next bytes, if lines are split.
    fn with_more(self, alloc: Global, bytes: &[u8]) -> Result<HeldLines, AllocError>
        ensures came { IfOk result (λ next. (more : List ℕ)
            → goes_on next more ≡ goes_on self (bytes.now ++ more)) }
        ensures read { IfOk result (λ next. AreRead self → AreRead next) }
        ensures begun { IfOk result (λ next. next.begun ≡ self.begun) }
    {
        let mut held = self;
        let mut rest = bytes;
        while let Some((part, behind)) = cut_line(rest) {
            held = held.with_line(alloc, part)?;
            rest = behind;
        }
        held.with_part(rest)
    }

    /// The same with the end of a line.
    #[tactic(auto, using(crate::proofs::HeldLemmas::line_came))]
    fn with_line(self, alloc: Global, part: &[u8]) -> Result<HeldLines, AllocError>
        requires { All (λ byte. is_byte 0x0A byte ≡ false) part.now }
        ensures came { IfOk result (λ next. (more : List ℕ)
            → goes_on next more ≡ goes_on self (part.now ++ 0x0A ∷ more)) }
        ensures read { IfOk result (λ next. AreRead self → AreRead next) }
        ensures begun { IfOk result (λ next. next.begun ≡ self.begun) }
    {
        let HeldLines {
            mut lines,
            mut came,
            mut tail,
            begun,
        } = self;
        tail.extend_from_slice(part)?;
        lines.push(read_line(alloc, &tail)?)?;
        came.push(tail)?;
        Ok(HeldLines {
            lines,
            came,
            tail: Vec::new(alloc),
            begun,
        })
    }

    /// The same with a part of a line.
    #[tactic(auto, using(crate::proofs::HeldLemmas::part_came))]
    fn with_part(self, part: &[u8]) -> Result<HeldLines, AllocError>
        requires { All (λ byte. is_byte 0x0A byte ≡ false) part.now }
        ensures came { IfOk result (λ next. (more : List ℕ)
            → goes_on next more ≡ goes_on self (part.now ++ more)) }
        ensures read { IfOk result (λ next. AreRead self → AreRead next) }
        ensures begun { IfOk result (λ next. next.begun ≡ self.begun) }
    {
        let HeldLines {
            lines,
            came,
            mut tail,
            begun,
        } = self;
        tail.extend_from_slice(part)?;
        Ok(HeldLines {
            lines,
            came,
            tail,
            begun,
        })
    }

    /// All the lines, if nothing follows.
    pub(crate) fn ended(self, alloc: Global) -> Result<HeldLines, AllocError>
        ensures came { IfOk result (λ all. map (λ line. line.items) all.came.items
            ≡ came_to_come self []) }
        ensures read { IfOk result (λ all. AreRead self → AreRead all) }
    {
        if self.begun {
            return self.with_end(alloc);
        }
        self.cut_first(alloc)?.with_end(alloc)
    }

    /// The same, if lines are split.
    #[tactic(auto, using(crate::proofs::HeldLemmas::ended_none))]
    fn with_end(self, alloc: Global) -> Result<HeldLines, AllocError>
        ensures came { IfOk result (λ all. map (λ line. line.items) all.came.items
            ≡ goes_on self []) }
        ensures read { IfOk result (λ all. AreRead self → AreRead all) }
    {
        let HeldLines {
            mut lines,
            mut came,
            tail,
            begun,
        } = self;
        let plain = without_paint(alloc, &tail)?;
        if plain.is_empty() {
            return Ok(HeldLines {
                lines,
                came,
                tail,
                begun,
            });
        }
        lines.push(without_its_cr(plain))?;
        came.push(tail)?;
        Ok(HeldLines {
            lines,
            came,
            tail: Vec::new(alloc),
            begun,
        })
    }
}

/// A text without a byte order mark before it.
fn without_mark(text: &[u8]) -> &[u8]
    ensures { result.now ≡ unmarked text.now }
{
    match text.strip_prefix(&[0xEF, 0xBB, 0xBF]) {
        Some(rest) => rest,
        None => text,
    }
}

/// The text before the first LF, and the text after it.
#[tactic(auto, using(crate::proofs::HeldLemmas::cut_rules))]
fn cut_line<'a>(text: &'a [u8]) -> Option<(&'a [u8], &'a [u8])>
    ensures whole { IfSome result (λ cut. text.entry.now ≡ cut.0.now ++ 0x0A ∷ cut.1.now) }
    ensures first { MatchOption result (All (λ byte. is_byte 0x0A byte ≡ false) text.entry.now)
        (λ cut. All (λ byte. is_byte 0x0A byte ≡ false) cut.0.now) }
{
    match memchr(b'\n', text) {
        Some(at) => Some((&text[..at], &text[at + 1..])),
        None => None,
    }
}

/// A line without its ANSI escapes and a CR at its end.
#[tactic(auto, unfolding(crate::specs::Text::read_line))]
pub(crate) fn read_line(alloc: Global, line: &[u8]) -> Result<Vec<u8>, AllocError>
    ensures { IfOk result (λ text. text.items ≡ line_read line.now) }
{
    Ok(without_its_cr(without_paint(alloc, line)?))
}

/// A line without a CR at its end.
#[tactic(auto, using(crate::proofs::LineLemmas::cut_cr))]
fn without_its_cr(line: Vec<u8>) -> Vec<u8>
    ensures { result.items ≡ without_a_cr line.items }
{
    let mut text = line;
    let len = without_cr(&text).len();
    text.truncate(len);
    text
}

/// Lines, borrowed.
///
/// # Errors
///
/// Out of memory.
pub fn lent(alloc: Global, lines: &[Vec<u8>]) -> Result<Vec<&[u8]>, AllocError>
    ensures { IfOk result (λ lent. map (λ line. line.now) lent.items
        ≡ map (λ line. line.items) lines.now) }
{
    let mut lent = Vec::new(alloc);
    for line in lines {
        lent.push(line.as_slice())?;
    }
    Ok(lent)
}

/// Drops the first of these lines, at most all.
#[tactic(auto, using(crate::proofs::HeldLemmas::first_gone))]
pub(crate) fn drop_first(lines: &mut Vec<Vec<u8>>, count: usize)
    ensures { map (λ line. line.items) lines.new.items
        ≡ drop count (map (λ line. line.items) lines.old.items) }
{
    let count = count.min(lines.len());
    let left = lines.len() - count;
    lines.rotate_left(count);
    lines.truncate(left);
}
