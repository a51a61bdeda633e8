//! Level words, and their severities.
ghost use Rattle.std.specs.Prelude.{◌≡◌, ◌≤◌, ◌||◌, ◌==◌, not, slice_index, IfSome, length, map};
ghost use Rattle.line_shapes.specs.Bytes.{is_in as belongs};
ghost use Rattle.line_shapes.specs.declared.bytes.Kind.TheVariants.{Word};
ghost use Rattle.line_shapes.specs.Level.{letter_severity as severity_of_letter};
ghost use Rattle.line_shapes.specs.Level.{level_among as level_in, level_at as level_there};
ghost use Rattle.line_shapes.specs.Level.{small_severity as severity_of_small};
ghost use Rattle.line_shapes.specs.Level.{stands as word_stands};

use crate::bytes::{Kind, begins_with, is_in};
use crate::tables::LEVEL_WORDS;

/// The severity of a finding.
#[derive(Clone, Copy, PartialEq, Eq)]
pub enum Severity {
    Error,
    Warning,
    Advice,
}

/// A level word in a text.
#[derive(Clone, Copy, PartialEq, Eq)]
pub struct Level {
    /// The length of the word in bytes.
    pub length: usize,
    pub severity: Severity,
    /// Whether it belongs to the finding before it.
    pub aside: bool,
}

/// Whether a text begins with a word that no letter, digit, `_` or `-` follows.
fn stands(text: &[u8], word: &[u8]) -> bool
    ensures value { result ≡ word_stands text.now word.now }
{
    begins_with(text, word) && ends_there(text, word.len())
}

/// Whether there is no letter, digit, `_` or `-` at an offset.
fn ends_there(text: &[u8], at: usize) -> bool
    ensures { let next = slice_index text.now at in
        result ≡ not (belongs Word next || next == 0x2D) }
{
    if at < text.len() {
        let next = text[at];
        !(is_in(Kind::Word, next) || next == b'-')
    } else {
        true
    }
}

/// The level of the word at the beginning of a text.
#[tactic(auto, unfolding(crate::specs::Level::level_words))]
pub fn level_at(text: &[u8]) -> Option<Level>
    ensures value { result ≡ level_there text.now }
    ensures within { IfSome result (λ level. level.length ≤ length text.now) }
{
    level_among(&LEVEL_WORDS, text)
}

/// The level of the first word of a table that a text begins with.
#[tactic(auto, using(crate::proofs::BytesLemmas::word_within))]
fn level_among(mut words: &[(&[u8], Severity, bool)], text: &[u8]) -> Option<Level>
    ensures value { result ≡ level_in (map (λ word. (word.0.now, word.1, word.2)) words.entry.now)
        text.now }
    ensures within { IfSome result (λ level. level.length ≤ length text.now) }
{
    while let [word, rest @ ..] = words {
        if stands(text, word.0) {
            return Some(Level {
                length: word.0.len(),
                severity: word.1,
                aside: word.2,
            });
        }
        words = rest;
    }
    None
}

/// The severity of a letter.
pub fn letter_severity(letter: u8) -> Option<Severity>
    ensures { result ≡ severity_of_letter letter }
{
    match letter {
        b'E' | b'F' => Some(Severity::Error),
        b'W' | b'N' => Some(Severity::Warning),
        b'C' | b'R' | b'I' => Some(Severity::Advice),
        _ => None,
    }
}

/// The severity of a small letter.
pub fn small_severity(letter: u8) -> Option<Severity>
    ensures { result ≡ severity_of_small letter }
{
    match letter {
        b'e' => Some(Severity::Error),
        b'w' => Some(Severity::Warning),
        b'i' => Some(Severity::Advice),
        _ => None,
    }
}
