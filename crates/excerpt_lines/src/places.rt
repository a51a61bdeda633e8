//! Lines that have a location or begin a note.
ghost use Rattle.std.specs.Prelude.{◌≡◌, ◌≤◌, ◌<◌, ◌∷◌, [], IfNone, IfSome, length};
ghost use Rattle.excerpt_lines.specs.Tables.{begins};
ghost use Rattle.excerpt_lines.specs.Places.{HasNoName, HasNoNumberBefore, HasNoPlace, IsNamed};
ghost use Rattle.excerpt_lines.specs.Places.{IsNumberBefore, IsPlace};
ghost use Rattle.excerpt_lines.specs.Places.{capital_at as capital_there, kind_at as kind_there};
ghost use Rattle.excerpt_lines.specs.Places.{led_at as led_there, noted, note_in, note_in_gutter};
ghost use Rattle.excerpt_lines.specs.Places.{plain_note as plain_note_in};

use crate::gutter::{Sign, lead, number_of, sign_of, text_of};
use crate::runs::{char_at, first_ink, run_back, run_from};
use crate::tables::{
    CharClass, NoteKind, arrow_len, is_capital_note, is_in, kind_of_word, leader_len, word_len,
};

/// A location on a line of its own, after an arrow. Places are characters, from 0.
#[derive(Clone, Copy)]
pub struct Place {
    /// Where its name begins.
    pub name: usize,
    /// Where its name ends.
    pub name_end: usize,
    pub line: u32,
    pub column: Option<u32>,
}

/// A number before a place of a line.
#[derive(Clone, Copy)]
struct Number {
    /// Where the colon before it is.
    colon: usize,
    value: u32,
}

/// The location that a line has after an arrow.
#[tactic(auto, using(crate::proofs::PlaceLemmas::no_arrow))]
pub fn place_of(line: &[char]) -> Option<Place>
    ensures some { IfSome result (IsPlace line.now) }
    ensures none { IfNone result (HasNoPlace line.now) }
{
    let start = first_ink(line);
    let arrow = arrow_len(&line[start..]);
    if arrow == 0 {
        return None;
    }
    let name = run_from(CharClass::Space, line, start + arrow);
    let end = run_back(CharClass::Trail, line, name, line.len());
    let Some(last) = number_before(line, name, end) else {
        return None;
    };
    match number_before(line, name, last.colon) {
        Some(first) => named(line, name, first, Some(last.value)),
        None => named(line, name, last, None),
    }
}

/// The place with a name up to the colon of its first number.
fn named(line: &[char], name: usize, first: Number, column: Option<u32>) -> Option<Place>
    requires { first.colon ≤ length line.now }
    ensures some { IfSome result (IsNamed line.now name first.colon first.value column) }
    ensures none { IfNone result (HasNoName line.now name first.colon) }
{
    if name < first.colon
        && is_in(CharClass::Ink, line[name])
        && is_in(CharClass::Ink, line[first.colon - 1])
    {
        Some(Place {
            name,
            name_end: first.colon,
            line: first.value,
            column,
        })
    } else {
        None
    }
}

/// The number after a colon that ends at `end`; the colon is not before `at`.
fn number_before(line: &[char], at: usize, end: usize) -> Option<Number>
    requires ordered { at ≤ end }
    requires within { end ≤ length line.now }
    ensures some { IfSome result (λ n. IsNumberBefore line.now at end n.colon n.value) }
    ensures none { IfNone result (HasNoNumberBefore line.now at end) }
{
    let digits = run_back(CharClass::Digit, line, at, end);
    if digits == at || digits == end || line[digits - 1] != ':' {
        return None;
    }
    let Some(value) = number_of(&line[digits..end]) else {
        return None;
    };
    Some(Number {
        colon: digits - 1,
        value,
    })
}

/// How a note begins.
#[derive(Clone, Copy)]
pub enum NoteForm {
    /// After a leader, as `= note: text`, or in a gutter.
    Led,
    /// At the beginning of the line.
    Margin,
    /// After two blanks.
    Indented,
}

/// A line that begins a note.
#[derive(Clone, Copy)]
pub struct Note {
    pub form: NoteForm,
    pub kind: NoteKind,
    /// Where its text begins, in characters from 0. Where nothing follows the colon it is one more
    /// than the line's length.
    pub text: usize,
}

/// The note that a line begins.
#[tactic(auto, unfolding(crate::specs::Places::note_in))]
pub fn note_of(line: &[char]) -> Option<Note>
    ensures { result ≡ note_in line.now }
{
    let start = first_ink(line);
    if let Some(note) = led_at(line, start) {
        return Some(note);
    }
    if let Some(note) = gutter_note(line) {
        return Some(note);
    }
    if let Some(note) = plain_note(line, start) {
        return Some(note);
    }
    if let Some(note) = note_at(NoteForm::Margin, line, 0) {
        return Some(note);
    }
    if start == 2 {
        note_at(NoteForm::Indented, line, 2)
    } else {
        None
    }
}

/// The note after a leader that begins at a place.
#[tactic(auto, unfolding(crate::specs::Places::led_at))]
fn led_at(line: &[char], start: usize) -> Option<Note>
    requires { start ≤ length line.now }
    ensures { result ≡ led_there line.now start }
{
    let leader = leader_len(&line[start..]);
    if leader == 0 {
        return None;
    }
    note_at(NoteForm::Led, line, start + leader)
}

/// The note in a gutter without a number.
#[tactic(auto, unfolding(crate::specs::Places::note_in_gutter))]
fn gutter_note(line: &[char]) -> Option<Note>
    ensures { result ≡ note_in_gutter line.now }
{
    let bar = run_from(CharClass::Blank, line, lead(line));
    if !matches!(
        sign_of(char_at(line, bar), char_at(line, bar + 1)),
        Some(Sign::Unsigned)
    ) {
        return None;
    }
    let text = text_of(line, bar);
    if let Some(note) = led_at(line, text) {
        return Some(note);
    }
    capital_at(line, text)
}

/// The note without a leader that begins at a place.
#[tactic(auto, unfolding(crate::specs::Places::capital_at))]
fn capital_at(line: &[char], text: usize) -> Option<Note>
    requires { text ≤ length line.now }
    ensures { result ≡ capital_there line.now text }
{
    if is_capital_note(&line[text..]) {
        note_at(NoteForm::Led, line, text)
    } else {
        None
    }
}

/// The note after `= ` without a kind, which is not at the beginning of the line.
#[tactic(auto, unfolding(crate::specs::Places::plain_note))]
fn plain_note(line: &[char], start: usize) -> Option<Note>
    requires { start ≤ length line.now }
    ensures { result ≡ plain_note_in line.now start }
{
    if start > 0 && is_plain(&line[start..]) {
        Some(Note {
            form: NoteForm::Led,
            kind: NoteKind::Note,
            text: start + 2,
        })
    } else {
        None
    }
}

/// Whether a text begins with `= `.
#[tactic(auto, using(crate::proofs::TableLemmas::no_equals))]
fn is_plain(text: &[char]) -> bool
    ensures { result ≡ begins text.now (0x3D ∷ 0x20 ∷ []) }
{
    if leader_len(text) == 0 {
        return false;
    }
    text.starts_with(&['=', ' '])
}

/// The note whose kind is named at a place.
#[tactic(auto, unfolding(crate::specs::Places::noted))]
fn note_at(form: NoteForm, line: &[char], at: usize) -> Option<Note>
    requires { at ≤ length line.now }
    ensures { result ≡ noted form line.now at }
{
    let Some(kind) = kind_at(line, at) else {
        return None;
    };
    Some(Note {
        form,
        kind,
        text: at + word_len(kind) + 2,
    })
}

/// The kind that is named at a place, before a colon, and a blank or the end.
fn kind_at(line: &[char], at: usize) -> Option<NoteKind>
    requires { at ≤ length line.now }
    ensures { result ≡ kind_there line.now at }
{
    let Some(kind) = kind_of_word(&line[at..]) else {
        return None;
    };
    let next = char_at(line, at + word_len(kind) + 1);
    if next == ' ' || next == '\0' {
        Some(kind)
    } else {
        None
    }
}
