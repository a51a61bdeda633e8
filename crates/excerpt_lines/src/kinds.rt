//! What kind of line a line is.
ghost use Rattle.std.specs.Prelude.{◌≡◌, ◌≤◌, IfSome, IsTrue, ◌↔◌, length};
ghost use Rattle.excerpt_lines.specs.Kinds.{IsAll, IsKind, SomeIn, inserted_in};

use crate::gutter::{Gutter, Sign, gutter_of, lead, text_of};
use crate::places::{Note, Place, note_of, place_of};
use crate::runs::run_from;
use crate::tables::{CharClass, is_in};

/// A kind of line.
#[derive(Clone, Copy)]
pub enum LineKind {
    /// Blanks alone.
    Empty,
    /// A location after an arrow.
    Place(Place),
    /// The beginning of a note.
    Note(Note),
    /// A row of the source or of a suggestion.
    Row(Gutter),
    /// Marks and texts after a gutter without a number.
    Marks(Gutter),
    /// A gutter alone, without a number.
    Space(Gutter),
    /// `+++ |+` and a new row, whose text begins at this place, in characters from 0.
    Inserted(usize),
    /// Marks without a gutter.
    Loose,
    /// Frame characters and blanks.
    Frame,
    /// Any other text.
    Plain,
}

/// What kind of line a line is.
pub fn kind_of(line: &[char]) -> LineKind
    ensures { IsKind line.now result }
{
    if is_all(CharClass::Blank, line, 0) {
        return LineKind::Empty;
    }
    if let Some(place) = place_of(line) {
        return LineKind::Place(place);
    }
    if let Some(note) = note_of(line) {
        return LineKind::Note(note);
    }
    if let Some(gutter) = gutter_of(line) {
        return if gutter.number.is_some() {
            LineKind::Row(gutter)
        } else if is_all(CharClass::Blank, line, text_of(line, gutter.bar)) {
            LineKind::Space(gutter)
        } else {
            LineKind::Marks(gutter)
        };
    }
    if let Some(text) = inserted_row(line) {
        LineKind::Inserted(text)
    } else if is_all(CharClass::Loose, line, 0) && has_caret(line) {
        LineKind::Loose
    } else if is_all(CharClass::Frame, line, 0) {
        LineKind::Frame
    } else {
        LineKind::Plain
    }
}

/// Where the text after `+++ |+` begins.
#[tactic(auto, unfolding(crate::specs::Kinds::inserted_in))]
fn inserted_row(line: &[char]) -> Option<usize>
    ensures { result ≡ inserted_in line.now }
{
    let start = run_from(CharClass::Blank, line, lead(line));
    if line[start..].starts_with(&['+', '+', '+', ' ', '|', '+']) {
        Some(start + 6)
    } else {
        None
    }
}

/// Whether all characters from a place on are of a class.
fn is_all(class: CharClass, line: &[char], at: usize) -> bool
    requires { at ≤ length line.now }
    ensures { IsTrue result ↔ IsAll class line.now at }
{
    run_from(class, line, at) == line.len()
}

fn has_caret(line: &[char]) -> bool
    ensures { IsTrue result ↔ SomeIn line.now }
{
    for c in line {
        if is_in(CharClass::Caret, *c) {
            return true;
        }
    }
    false
}
