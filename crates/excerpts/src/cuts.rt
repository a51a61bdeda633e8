//! A body cut into parts: notes, locations, drawings, suggestions, and lines that are kept.
ghost use Rattle.std.specs.Prelude.{◌≡◌, ◌==◌, ◌||◌, ◌≤◌, ◌<◌, IfSome, false, length, take};
ghost use Rattle.std.specs.List.{list_all, list_any};
ghost use Rattle.excerpts.specs.Cuts.{IsOutline, after as after_part, bar_of as bar_in};
ghost use Rattle.excerpts.specs.Cuts.{bare_sign as bare_sign_in, begins_note as begins_some_note};
ghost use Rattle.excerpts.specs.Cuts.{block_len as block_length, drawing as drawing_in};
ghost use Rattle.excerpts.specs.Cuts.{drawing_or_kept as drawing_or_kept_in, goes_on as goes_on_in};
ghost use Rattle.excerpts.specs.Cuts.{has_gutter as has_some_gutter, in_block as is_in_block};
ghost use Rattle.excerpts.specs.Cuts.{indented_len as indented_run, is_alone, is_dot, is_framed};
ghost use Rattle.excerpts.specs.Cuts.{is_edit as is_edit_line, is_include as is_include_line};
ghost use Rattle.excerpts.specs.Cuts.{is_kind_signed, is_loose as is_loose_line, is_signed};
ghost use Rattle.excerpts.specs.Cuts.{is_straight as is_straight_from, line_part};
ghost use Rattle.excerpts.specs.Cuts.{loose_or_kept as loose_or_kept_in, loose_run as loose_run_in};
ghost use Rattle.excerpts.specs.Cuts.{link_of as link_of_kind, margin_link as margin_link_in};
ghost use Rattle.excerpts.specs.Cuts.{part_in};
ghost use Rattle.excerpt_lines.specs.Runs.{first_ink as first_ink_of};

use excerpt_blocks::below::tail;
use excerpt_blocks::labels::Spot;
use excerpt_lines::gutter::{Sign, text_of};
use excerpt_lines::items::is_link;
use excerpt_lines::kinds::{LineKind, kind_of};
use excerpt_lines::places::{Note, NoteForm, Place};
use excerpt_lines::runs::{char_at, first_ink, run_from};
use excerpt_lines::tables::CharClass;

/// What a part of a body is.
#[derive(Clone, Copy)]
pub enum PartKind {
    /// A line of blanks.
    Empty,
    Place(Place),
    /// The first line of a note.
    Note(Note),
    /// A line that goes on with the note above it: its text from this place, in characters from 0.
    GoesOn(usize),
    /// Frames and empty gutters alone.
    Frames,
    /// Rows of the source with what is drawn below them.
    Source,
    /// A row without a gutter and the marks below it.
    Loose,
    /// The rows that a help proposes.
    Suggestion,
    /// A line that is kept as it is.
    Kept,
}

/// A part of a body.
#[derive(Clone, Copy)]
pub struct Part {
    pub kind: PartKind,
    /// Its first line in the body, from 0, and how many lines it has.
    pub first: usize,
    pub lines: usize,
}

/// What is open before a part.
#[derive(Clone, Copy)]
pub struct Open {
    /// A note goes on over lines indented as far as this.
    below: Option<usize>,
    /// A note without a leader is the last one.
    under: bool,
    /// There was a location on a line of its own.
    announced: bool,
    /// A drawing is just before.
    drawn: bool,
    /// Rows of the source were drawn.
    shown: bool,
}

/// Nothing is open before the first part.
pub const START: Open = Open {
    below: None,
    under: false,
    announced: false,
    drawn: false,
    shown: false,
};

/// What is to be known of a line before it is read.
#[derive(Clone, Copy)]
pub struct Outline {
    pub kind: LineKind,
    /// How many blanks it begins with, and how many characters it has.
    pub indent: usize,
    pub length: usize,
    /// The sign of a row without a number and without a bar.
    pub sign: Option<Sign>,
    /// There are dots in it.
    pub dots: bool,
    /// Where the link begins that follows the margin, if it has marks.
    pub link: Option<usize>,
    /// It is an edit, as gcc and clang print it (`fix-it:"a.c":{5:8-5:14}:"color"`), or says how
    /// they came to a file (`In file included from a.c:1:`).
    pub alone: bool,
}

/// The outline of a line.
pub fn outline_of(line: &[char]) -> Outline
    ensures { IsOutline line.now result }
{
    let kind = kind_of(line);
    let indent = first_ink(line);
    Outline {
        kind,
        indent,
        length: line.len(),
        sign: bare_sign(line, indent),
        dots: has_dots(line),
        link: link_in_kind(line, kind),
        alone: stands_alone(line),
    }
}

/// Whether a line is an edit of gcc or clang, or says how they came to a file.
fn stands_alone(line: &[char]) -> bool
    ensures { result ≡ is_alone line.now }
{
    may_stand_alone(line) && (is_edit(line) || is_include(line))
}

/// Whether the first character of a line is that of one that is alone.
fn may_stand_alone(line: &[char]) -> bool
    ensures { result ≡ false → is_alone line.now ≡ false }
{
    match line {
        [c, ..] => is_alone_head(*c),
        [] => false,
    }
}

fn is_alone_head(c: char) -> bool
    ensures { result ≡ (0x66 == c || 0x49 == c) }
{
    c == 'f' || c == 'I'
}

fn is_edit(line: &[char]) -> bool
    ensures { result ≡ is_edit_line line.now }
{
    line.starts_with(&['f', 'i', 'x', '-', 'i', 't', ':', '"'])
}

fn is_include(line: &[char]) -> bool
    ensures { result ≡ is_include_line line.now }
{
    line.starts_with(&[
        'I', 'n', ' ', 'f', 'i', 'l', 'e', ' ', 'i', 'n', 'c', 'l', 'u', 'd', 'e', 'd', ' ', 'f',
        'r', 'o', 'm', ' ',
    ])
}

/// Where the link begins that follows the margin of a line of marks.
fn link_in_kind(line: &[char], kind: LineKind) -> Option<usize>
    ensures { result ≡ link_of_kind line.now kind }
{
    match kind {
        LineKind::Marks(gutter) => margin_link(line, text_of(line, gutter.bar)),
        LineKind::Empty
        | LineKind::Place(_)
        | LineKind::Note(_)
        | LineKind::Row(_)
        | LineKind::Space(_)
        | LineKind::Inserted(_)
        | LineKind::Loose
        | LineKind::Frame
        | LineKind::Plain => None,
    }
}

/// Where the link begins that follows blanks and bars.
#[tactic(auto, unfolding(crate::specs::Cuts::margin_link))]
fn margin_link(line: &[char], text: usize) -> Option<usize>
    requires { text ≤ length line.now }
    ensures { result ≡ margin_link_in line.now text }
{
    let start = run_from(CharClass::Margin, line, text);
    if start < line.len() && is_link(line, text, start) {
        Some(start)
    } else {
        None
    }
}

/// The sign of a row without a number and without a bar, after blanks.
#[tactic(auto, unfolding(crate::specs::Cuts::bare_sign))]
fn bare_sign(line: &[char], start: usize) -> Option<Sign>
    requires { start ≡ first_ink_of line.now }
    ensures { result ≡ bare_sign_in line.now }
{
    let next = char_at(line, start.saturating_add(1));
    if start == 0 || next != ' ' && next != '\0' {
        return None;
    }
    match char_at(line, start) {
        '+' => Some(Sign::Added),
        '-' => Some(Sign::Removed),
        _ => None,
    }
}

fn has_dots(line: &[char]) -> bool
    ensures { result ≡ list_any is_dot line.now }
{
    for c in line {
        if *c == '.' {
            return true;
        }
    }
    false
}

/// The part that lines begin with, of which the first has this number in the body; nothing if it
/// isn't read. A line that is alone is kept wherever it is.
#[tactic(auto, unfolding(crate::specs::Cuts::part_in))]
pub fn part_at(spot: Spot, state: Open, first: usize, lines: &[Outline]) -> Option<Part>
    requires { 0 < length lines.now }
    ensures value { result ≡ part_in spot state first lines.now }
    ensures some { IfSome result (λ part. 0 < part.lines) }
    ensures within { IfSome result (λ part. part.lines ≤ length lines.now) }
    ensures first { IfSome result (λ part. part.first ≡ first) }
{
    if lines[0].alone {
        return Some(one_line(PartKind::Kept, first));
    }
    if let Some(below) = state.below {
        if goes_on(state, below, lines[0]) {
            return Some(one_line(PartKind::GoesOn(below), first));
        }
    }
    match lines[0].kind {
        LineKind::Empty => Some(one_line(PartKind::Empty, first)),
        LineKind::Place(place) => Some(one_line(PartKind::Place(place), first)),
        LineKind::Note(note) => {
            if begins_note(state, note.form) {
                Some(one_line(PartKind::Note(note), first))
            } else {
                drawing_or_kept(spot, state, first, lines)
            }
        }
        LineKind::Row(_)
        | LineKind::Marks(_)
        | LineKind::Space(_)
        | LineKind::Inserted(_)
        | LineKind::Loose
        | LineKind::Frame
        | LineKind::Plain => drawing_or_kept(spot, state, first, lines),
    }
}

/// A part of one line.
fn one_line(kind: PartKind, first: usize) -> Part
    ensures { result ≡ line_part kind first }
{
    Part {
        kind,
        first,
        lines: 1,
    }
}

/// Whether a line goes on with a note whose text begins at `below`.
fn goes_on(state: Open, below: usize, line: Outline) -> bool
    ensures { result ≡ goes_on_in state below line }
{
    if line.length == 0 {
        return false;
    }
    if matches!(line.kind, LineKind::Empty) {
        return true;
    }
    line.indent >= below && !(state.under && has_gutter(line.kind))
}

/// Whether a line has a gutter.
fn has_gutter(kind: LineKind) -> bool
    ensures { result ≡ has_some_gutter kind }
{
    matches!(
        kind,
        LineKind::Row(_) | LineKind::Marks(_) | LineKind::Space(_) | LineKind::Inserted(_)
    )
}

/// Whether a note of this form begins here.
fn begins_note(state: Open, form: NoteForm) -> bool
    ensures { result ≡ begins_some_note state form }
{
    match form {
        NoteForm::Led | NoteForm::Margin => true,
        NoteForm::Indented => state.announced,
    }
}

/// A drawing, a row without a gutter, or a line that is kept.
#[tactic(auto, unfolding(crate::specs::Cuts::drawing_or_kept))]
fn drawing_or_kept(spot: Spot, state: Open, first: usize, lines: &[Outline]) -> Option<Part>
    requires { 0 < length lines.now }
    ensures value { result ≡ drawing_or_kept_in spot state first lines.now }
    ensures some { IfSome result (λ part. 0 < part.lines) }
    ensures within { IfSome result (λ part. part.lines ≤ length lines.now) }
    ensures first { IfSome result (λ part. part.first ≡ first) }
{
    let count = block_len(state.under, lines);
    if count > 0 {
        let Some(kind) = drawing(state, head(lines, count)) else {
            return None;
        };
        return Some(Part {
            kind,
            first,
            lines: count,
        });
    }
    if state.drawn {
        return None;
    }
    loose_or_kept(spot, state, first, lines)
}

/// A row without a gutter and its marks, or a line that is kept.
#[tactic(auto, unfolding(crate::specs::Cuts::loose_or_kept))]
fn loose_or_kept(spot: Spot, state: Open, first: usize, lines: &[Outline]) -> Option<Part>
    requires { 0 < length lines.now }
    ensures value { result ≡ loose_or_kept_in spot state first lines.now }
    ensures some { IfSome result (λ part. 0 < part.lines) }
    ensures within { IfSome result (λ part. part.lines ≤ length lines.now) }
    ensures first { IfSome result (λ part. part.first ≡ first) }
{
    if is_loose(lines[0]) {
        return None;
    }
    let marks = loose_run(tail(lines, 1));
    if marks == 0 || state.shown || spot.line.is_none() {
        return Some(one_line(PartKind::Kept, first));
    }
    let more = if spot.column.is_some() {
        indented_len(tail(tail(lines, 1), marks))
    } else {
        0
    };
    Some(Part {
        kind: PartKind::Loose,
        first,
        lines: 1 + marks + more,
    })
}

/// The first elements, up to a count.
pub fn head<T>(items: &[T], count: usize) -> &[T]
    ensures { result.now ≡ take count items.now }
{
    if count < items.len() {
        &items[..count]
    } else {
        items
    }
}

/// How many lines a block has at the beginning of these.
fn block_len(under: bool, lines: &[Outline]) -> usize
    ensures value { result ≡ block_length under lines.now }
    ensures within { result ≤ length lines.now }
{
    let mut count = 0;
    for line in lines {
        if line.alone || !in_block(under, line.kind) {
            return count;
        }
        count += 1;
    }
    count
}

/// Whether a line may be in a block: after a note without a leader, any line of a drawing or text.
fn in_block(under: bool, kind: LineKind) -> bool
    ensures { result ≡ is_in_block under kind }
{
    match kind {
        LineKind::Row(_)
        | LineKind::Marks(_)
        | LineKind::Space(_)
        | LineKind::Inserted(_)
        | LineKind::Frame => true,
        LineKind::Loose | LineKind::Plain => under,
        LineKind::Note(note) => under && matches!(note.form, NoteForm::Indented),
        LineKind::Empty | LineKind::Place(_) => false,
    }
}

/// What a block is; nothing if it is no drawing.
fn drawing(state: Open, lines: &[Outline]) -> Option<PartKind>
    ensures { result ≡ drawing_in state lines.now }
{
    if state.under || has_sign(lines) {
        Some(PartKind::Suggestion)
    } else if all_frames(lines) {
        Some(PartKind::Frames)
    } else if is_straight(None, lines) {
        Some(PartKind::Source)
    } else {
        None
    }
}

/// Whether a row has a sign.
fn has_sign(lines: &[Outline]) -> bool
    ensures { result ≡ list_any is_signed lines.now }
{
    for line in lines {
        if is_signed_kind(line.kind) {
            return true;
        }
    }
    false
}

fn is_signed_kind(kind: LineKind) -> bool
    ensures { result ≡ is_kind_signed kind }
{
    match kind {
        LineKind::Row(gutter) => !matches!(gutter.sign, Sign::Unsigned),
        LineKind::Inserted(_) => true,
        LineKind::Empty
        | LineKind::Place(_)
        | LineKind::Note(_)
        | LineKind::Marks(_)
        | LineKind::Space(_)
        | LineKind::Loose
        | LineKind::Frame
        | LineKind::Plain => false,
    }
}

/// Whether there are frames and empty gutters alone.
fn all_frames(lines: &[Outline]) -> bool
    ensures { result ≡ list_all is_framed lines.now }
{
    for line in lines {
        if !matches!(line.kind, LineKind::Space(_) | LineKind::Frame) {
            return false;
        }
    }
    true
}

/// Whether all bars are in one column, which is `bar` if there is one.
fn is_straight(mut bar: Option<usize>, lines: &[Outline]) -> bool
    ensures { result ≡ is_straight_from bar lines.now }
{
    for line in lines {
        let Some(here) = bar_of(line.kind) else {
            continue;
        };
        match bar {
            Some(bar) => {
                if bar != here {
                    return false;
                }
            }
            None => bar = Some(here),
        }
    }
    true
}

/// Where the bar of a line is.
fn bar_of(kind: LineKind) -> Option<usize>
    ensures { result ≡ bar_in kind }
{
    match kind {
        LineKind::Row(gutter) | LineKind::Marks(gutter) | LineKind::Space(gutter) => {
            Some(gutter.bar)
        }
        LineKind::Empty
        | LineKind::Place(_)
        | LineKind::Note(_)
        | LineKind::Inserted(_)
        | LineKind::Loose
        | LineKind::Frame
        | LineKind::Plain => None,
    }
}

fn is_loose(line: Outline) -> bool
    ensures { result ≡ is_loose_line line }
{
    matches!(line.kind, LineKind::Loose)
}

/// How many lines of marks without a gutter these begin with.
fn loose_run(lines: &[Outline]) -> usize
    ensures value { result ≡ loose_run_in lines.now }
    ensures within { result ≤ length lines.now }
{
    let mut count = 0;
    for line in lines {
        if !is_loose(*line) {
            return count;
        }
        count += 1;
    }
    count
}

/// How many indented lines these begin with that have no marks below them.
fn indented_len(lines: &[Outline]) -> usize
    ensures value { result ≡ indented_run lines.now }
    ensures within { result ≤ length lines.now }
{
    let mut count = 0;
    for line in lines {
        if line.indent == 0 || loose_run(tail(lines, count + 1)) > 0 {
            return count;
        }
        count += 1;
    }
    count
}

/// What is open after a part.
pub fn after(state: Open, kind: PartKind) -> Open
    ensures { result ≡ after_part state kind }
{
    match kind {
        PartKind::GoesOn(_) => state,
        PartKind::Empty => Open {
            below: None,
            drawn: false,
            ..state
        },
        PartKind::Place(_) => Open {
            below: None,
            under: false,
            announced: true,
            drawn: false,
            ..state
        },
        PartKind::Note(note) => Open {
            below: Some(note.text),
            under: !matches!(note.form, NoteForm::Led),
            drawn: false,
            ..state
        },
        PartKind::Frames | PartKind::Suggestion => Open {
            below: None,
            drawn: true,
            ..state
        },
        PartKind::Source => Open {
            below: None,
            drawn: true,
            shown: true,
            ..state
        },
        PartKind::Loose => Open {
            below: None,
            shown: true,
            ..state
        },
        PartKind::Kept => Open {
            below: None,
            ..state
        },
    }
}
