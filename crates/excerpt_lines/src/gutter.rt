//! The gutter of a line: a number or none, and a bar or a sign.
ghost use Rattle.std.specs.Prelude.{◌≡◌, ◌+◌, ◌≤◌, IfNone, IfSome, length, min};
ghost use Rattle.excerpt_lines.specs.Gutter.{HasNoGutter, HasNoSignAt, IsGutter, IsSignAt};
ghost use Rattle.excerpt_lines.specs.Gutter.{lead_len, number_of as number_meant};
ghost use Rattle.excerpt_lines.specs.Gutter.{sign_of as sign_meant, text_at};

use crate::runs::{char_at, run_from, value_of};
use crate::tables::{CharClass, is_in};

/// What follows the number of a row.
#[derive(Clone, Copy)]
pub enum Sign {
    /// A bar: a row of the source.
    Unsigned,
    /// `+`: a row that a suggestion adds.
    Added,
    /// `-`: a row that a suggestion removes.
    Removed,
    /// `~`: a row that a suggestion changes, with the number that it has then.
    Changed,
}

/// A gutter: `12 |`, `   |`, `> 12 |`, `12 -`. Places are characters, from 0.
#[derive(Clone, Copy)]
pub struct Gutter {
    /// Where its digits begin.
    pub digits: usize,
    /// Where its digits end.
    pub digits_end: usize,
    /// Where its bar or sign is.
    pub bar: usize,
    pub sign: Sign,
    /// What the digits write.
    pub number: Option<u32>,
}

/// The gutter that a line begins with.
#[tactic(auto, using(crate::proofs::GutterLemmas::no_gap))]
pub fn gutter_of(line: &[char]) -> Option<Gutter>
    ensures some { IfSome result (IsGutter line.now) }
    ensures none { IfNone result (HasNoGutter line.now) }
{
    let digits = run_from(CharClass::Blank, line, lead(line));
    let digits_end = run_from(CharClass::Digit, line, digits);
    let bar = run_from(CharClass::Blank, line, digits_end);
    let Some(sign) = sign_at(line, digits, digits_end, bar) else {
        return None;
    };
    if digits == digits_end {
        return Some(Gutter {
            digits,
            digits_end,
            bar,
            sign,
            number: None,
        });
    }
    let Some(number) = number_of(&line[digits..digits_end]) else {
        return None;
    };
    Some(Gutter {
        digits,
        digits_end,
        bar,
        sign,
        number: Some(number),
    })
}

/// Where the text after a bar or sign and a blank begins.
pub fn text_of(line: &[char], bar: usize) -> usize
    ensures value { result ≡ text_at line.now bar }
    ensures within { result ≤ length line.now }
{
    if bar < line.len() && line.len() - bar >= 2 {
        bar + 2
    } else {
        line.len()
    }
}

/// How many characters come before the blanks.
pub fn lead(line: &[char]) -> usize
    ensures within { result ≤ length line.now }
    ensures value { result ≡ lead_len line.now }
{
    match line {
        ['>', ..] => 1,
        _ => 0,
    }
}

/// The number that digits write, without zeros in front, if it is one of 32 bits.
pub fn number_of(digits: &[char]) -> Option<u32>
    ensures { result ≡ number_meant digits.now }
{
    match digits {
        ['0', _, ..] => None,
        _ => value_of(digits),
    }
}

/// What a character after a number or none is a sign of.
fn sign_at(line: &[char], digits: usize, digits_end: usize, bar: usize) -> Option<Sign>
    requires within { bar ≤ length line.now }
    requires gap { digits_end ≤ bar }
    ensures some { IfSome result (IsSignAt line.now digits digits_end bar) }
    ensures none { IfNone result (HasNoSignAt line.now digits digits_end bar) }
{
    if bar == line.len() {
        return None;
    }
    let sign = sign_of(line[bar], char_at(line, bar + 1))?;
    match sign {
        Sign::Unsigned => Some(sign),
        Sign::Added | Sign::Removed | Sign::Changed => {
            if digits < digits_end && bar - digits_end == 1 {
                Some(sign)
            } else {
                None
            }
        }
    }
}

/// What a character is a sign of, if this one follows.
pub fn sign_of(c: char, next: char) -> Option<Sign>
    ensures { result ≡ sign_meant c next }
{
    if c == '╰' && next == '╴' {
        return Some(Sign::Unsigned);
    }
    if next != ' ' && next != '\0' {
        return None;
    }
    match c {
        '+' => Some(Sign::Added),
        '-' => Some(Sign::Removed),
        '~' => Some(Sign::Changed),
        _ => {
            if is_in(CharClass::Bar, c) {
                Some(Sign::Unsigned)
            } else {
                None
            }
        }
    }
}
