//! Runs of characters of one class, and numbers.
ghost use Rattle.std.specs.Prelude.{◌≡◌, ◌≤◌, ◌<◌, ◌-◌, false, length, slice_index, true};
ghost use Rattle.excerpt_lines.specs.Tables.{is_in as belongs};
ghost use Rattle.excerpt_lines.specs.Runs.{EachIn, first_ink as first_ink_of, run_end, small};
ghost use Rattle.excerpt_lines.specs.Runs.{value_from as value_written};
ghost use Rattle.excerpt_lines.specs.declared.tables.CharClass.TheVariants.{Blank};

use crate::tables::{CharClass, is_in};

/// The character at a place of a line, or NUL at its end and after it.
pub fn char_at(line: &[char], at: usize) -> char
    ensures { result ≡ slice_index line.now at }
{
    if at < line.len() { line[at] } else { '\0' }
}

/// Where the characters of a class end that follow from a place on.
#[tactic(auto, using(crate::proofs::RunLemmas::run_goes_on, crate::proofs::RunLemmas::run_stops))]
pub fn run_from(class: CharClass, line: &[char], at: usize) -> usize
    requires { at ≤ length line.now }
    ensures from { at ≤ result }
    ensures within { result ≤ length line.now }
    ensures each { EachIn class line.now at result }
    ensures stops { result < length line.now
        → belongs class (slice_index line.now result) ≡ false }
    ensures value { result ≡ run_end class line.now at }
    ensures more { at < length line.now → belongs class (slice_index line.now at) ≡ true
        → at < result }
{
    let mut end = at;
    while end < line.len() && is_in(class, line[end]) {
        end += 1;
    }
    end
}

/// Where the characters of a class begin that end at `end`, not before `at`.
pub fn run_back(class: CharClass, line: &[char], at: usize, end: usize) -> usize
    requires ordered { at ≤ end }
    requires within { end ≤ length line.now }
    ensures from { at ≤ result }
    ensures to { result ≤ end }
    ensures each { EachIn class line.now result end }
    ensures stops { at < result → belongs class (slice_index line.now (result - 1)) ≡ false }
{
    let mut begin = end;
    while at < begin && is_in(class, line[begin - 1]) {
        begin -= 1;
    }
    begin
}

/// The place of the first character that is no blank, or the end.
pub fn first_ink(line: &[char]) -> usize
    ensures value { result ≡ first_ink_of line.now }
    ensures within { result ≤ length line.now }
    ensures each { EachIn Blank line.now 0 result }
    ensures stops { result < length line.now
        → belongs Blank (slice_index line.now result) ≡ false }
{
    run_from(CharClass::Blank, line, 0)
}

/// The number that digits write in decimal, if it is one of 32 bits.
#[tactic(auto, using(crate::proofs::RunLemmas::value_grows))]
pub fn value_of(mut digits: &[char]) -> Option<u32>
    ensures { result ≡ small (value_written 0 digits.entry.now) }
{
    let mut value: u64 = 0;
    while let [digit, rest @ ..] = digits {
        value = value * 10 + u64::from((*digit as u32).saturating_sub(0x30));
        if value > 0xFFFF_FFFF {
            return None;
        }
        digits = rest;
    }
    Some(value as u32)
}
