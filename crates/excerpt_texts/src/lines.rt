//! The lines of text that an excerpt has beside its drawings.
ghost use Rattle.std.specs.Prelude.{◌≡◌, ◌++◌, ◌∷◌, [], IfOk, None, OnOk, Some};
ghost use Rattle.std.specs.Prelude.{if◌then◌else◌, map, option_map, string_bytes};
ghost use Rattle.std.specs.List.{prefix_len};
ghost use Rattle.std.specs.Str.{encode_utf8_all};
ghost use Rattle.excerpts.specs.Body.{is_block};
ghost use Rattle.excerpt_texts.specs.Lines.{drawings_in, first_flag, flag_list, flags_after};
ghost use Rattle.excerpt_texts.specs.Lines.{here_after, inked, is_bare as is_bare_line, kept_in};
ghost use Rattle.excerpt_texts.specs.Lines.{indent_by, indent_of as indent_of_lines, is_space};
ghost use Rattle.excerpt_texts.specs.Lines.{kept_indent as kept_indent_of};
ghost use Rattle.excerpt_texts.specs.Lines.{with_spaces as with_spaces_of};
ghost use Rattle.excerpt_texts.specs.Lines.{is_drawing as is_drawing_kind};
ghost use Rattle.excerpt_texts.specs.Lines.{is_number as is_same_number, is_own as is_own_place};
ghost use Rattle.excerpt_texts.specs.Lines.{line_at as line_there, line_parts, names_own};
ghost use Rattle.excerpt_texts.specs.Lines.{part_lines as lines_of_part, part_said, place_lines};
ghost use Rattle.excerpt_texts.specs.Lines.{said as said_so, said_in, use_after as use_after_part};
ghost use Rattle.excerpt_texts.specs.Lines.{use_of as use_of_kind, word_of as word_of_kind};
ghost use Rattle.excerpt_texts.specs.Lines.{drawn_lines, help_of as help_there, is_bare_char};
ghost use Rattle.excerpt_texts.specs.Lines.{is_use as is_one_use, joined_from, note_of as note_there};
ghost use Rattle.excerpt_texts.specs.Lines.{own_parts, with_line as with_line_after};

use excerpt_blocks::below::tail;
use excerpt_lines::places::Place;
use excerpt_lines::tables::NoteKind;
use excerpts::cuts::{Part, PartKind, head};
use std::alloc::{AllocError, Global};

/// What a line of text is for.
#[derive(Clone, Copy)]
pub enum Use {
    /// The note.
    InNote,
    /// The help.
    InHelp,
    /// It is kept as it is.
    AsIs,
}

/// A line of text.
#[derive(Drop)]
pub struct TextLine {
    /// What it is for.
    pub to: Use,
    /// The line.
    pub text: String,
}

/// Where a finding is, as its head says.
#[derive(Clone, Copy)]
pub struct Own<'a> {
    /// The name of its file.
    pub name: &'a str,
    /// Its row, from 1.
    pub line: Option<u32>,
    /// Its column, as it was printed.
    pub column: Option<u32>,
}

/// The lines of text of an excerpt. `flags` says of each block whether it is shown otherwise; one
/// that isn't is kept as it is, but for lines of blanks and bars. Kept lines lose the spaces that
/// all of them begin with.
///
/// # Errors
///
/// Out of memory.
#[tactic(auto, unfolding(crate::specs::Lines::said_in))]
pub fn lines_of(
    alloc: Global,
    own: Own<'_>,
    lines: &[&[char]],
    parts: &[Part],
    flags: &[bool],
) -> Result<Vec<TextLine>, AllocError>
    ensures { IfOk result (λ all. map line_parts all.items
        ≡ said_in (own_parts own.entry) (map (λ line. line.now) lines.now) flags.now parts.now) }
{
    let indent = kept_indent(lines, parts);
    let mut all = Vec::new(alloc);
    let mut to = Use::InHelp;
    let mut flags_left = flags;
    let mut rest = parts;
    while let [part, more @ ..] = rest {
        let shown = flag(flags_left);
        push_part(alloc, &mut all, own, lines, indent, to, shown, *part)?;
        to = use_after(to, part.kind);
        flags_left = after_block(part.kind, flags_left);
        rest = more;
    }
    Ok(all)
}

/// The lines of a body that is kept as a whole, without those of blanks and bars alone, and without
/// the spaces that all of them begin with.
///
/// # Errors
///
/// Out of memory.
#[tactic(auto, unfolding(crate::specs::Lines::kept_in))]
pub fn kept_lines(alloc: Global, lines: &[&[char]]) -> Result<Vec<TextLine>, AllocError>
    ensures { IfOk result (λ all. map line_parts all.items
        ≡ kept_in (map (λ line. line.now) lines.now)) }
{
    let indent = indent_of(lines);
    let mut all = Vec::new(alloc);
    let mut rest = lines;
    while let [line, more @ ..] = rest {
        if !is_bare(line) {
            push_line(alloc, &mut all, Use::AsIs, &[], tail(line, indent))?;
        }
        rest = more;
    }
    Ok(all)
}

/// The spaces that all lines begin with that aren't blanks and bars alone.
fn indent_of(mut lines: &[&[char]]) -> usize
    ensures { result ≡ indent_of_lines (map (λ line. line.now) lines.entry.now) }
{
    let mut least = None;
    while let [line, rest @ ..] = lines {
        if !is_bare(line) {
            least = with_spaces(least, line);
        }
        lines = rest;
    }
    least.unwrap_or(0)
}

/// The spaces that all lines begin with that parts keep.
fn kept_indent(lines: &[&[char]], mut parts: &[Part]) -> usize
    ensures { result ≡ kept_indent_of (map (λ line. line.now) lines.now) parts.entry.now }
{
    let mut least = None;
    while let [part, rest @ ..] = parts {
        least = with_part(lines, least, *part);
        parts = rest;
    }
    least.unwrap_or(0)
}

/// The same with the line of one more part, if it is kept.
fn with_part(lines: &[&[char]], least: Option<usize>, part: Part) -> Option<usize>
    ensures { result ≡ indent_by (map (λ line. line.now) lines.now) least part part.kind }
{
    match part.kind {
        PartKind::Kept => with_spaces(least, line_at(lines, part.first)),
        PartKind::Source
        | PartKind::Loose
        | PartKind::Suggestion
        | PartKind::Empty
        | PartKind::Place(_)
        | PartKind::Note(_)
        | PartKind::GoesOn(_)
        | PartKind::Frames => least,
    }
}

/// The least of a number and of the spaces that a line begins with.
fn with_spaces(least: Option<usize>, line: &[char]) -> Option<usize>
    ensures { result ≡ with_spaces_of least line.now }
{
    let spaces = spaces(line);
    match least {
        Some(least) => Some(least.min(spaces)),
        None => Some(spaces),
    }
}

/// The spaces that a line begins with.
fn spaces(line: &[char]) -> usize
    ensures { result ≡ prefix_len is_space line.now }
{
    line.iter().take_while(|c| **c == ' ').count()
}

/// The first flag.
pub fn flag(flags: &[bool]) -> bool
    ensures { result ≡ first_flag flags.now }
{
    match flags {
        [flag, ..] => *flag,
        [] => false,
    }
}

fn after_block(kind: PartKind, flags: &[bool]) -> &[bool]
    ensures { result.now ≡ flags_after (is_block kind) flags.now }
{
    match kind {
        PartKind::Source | PartKind::Loose | PartKind::Suggestion => tail(flags, 1),
        PartKind::Empty
        | PartKind::Place(_)
        | PartKind::Note(_)
        | PartKind::GoesOn(_)
        | PartKind::Frames
        | PartKind::Kept => flags,
    }
}

/// Where a line goes that goes on with a note, after a part.
fn use_after(to: Use, kind: PartKind) -> Use
    ensures { result ≡ use_after_part to kind }
{
    match kind {
        PartKind::Note(note) => use_of(note.kind),
        PartKind::Source
        | PartKind::Loose
        | PartKind::Suggestion
        | PartKind::Empty
        | PartKind::Place(_)
        | PartKind::GoesOn(_)
        | PartKind::Frames
        | PartKind::Kept => to,
    }
}

fn use_of(kind: NoteKind) -> Use
    ensures { result ≡ use_of_kind kind }
{
    match kind {
        NoteKind::Help => Use::InHelp,
        NoteKind::Note
        | NoteKind::Hint
        | NoteKind::Warning
        | NoteKind::Error
        | NoteKind::Info
        | NoteKind::Suggestion
        | NoteKind::Advice => Use::InNote,
    }
}

/// What is before the text of a note.
fn word_of(kind: NoteKind) -> &'static [char]
    ensures { result.now ≡ word_of_kind kind }
{
    match kind {
        NoteKind::Note | NoteKind::Help => &[],
        NoteKind::Hint => &['h', 'i', 'n', 't', ':', ' '],
        NoteKind::Warning => &['w', 'a', 'r', 'n', 'i', 'n', 'g', ':', ' '],
        NoteKind::Error => &['e', 'r', 'r', 'o', 'r', ':', ' '],
        NoteKind::Info => &['i', 'n', 'f', 'o', ':', ' '],
        NoteKind::Suggestion => &['s', 'u', 'g', 'g', 'e', 's', 't', 'i', 'o', 'n', ':', ' '],
        NoteKind::Advice => &['a', 'd', 'v', 'i', 'c', 'e', ':', ' '],
    }
}

/// Adds the lines of a part.
#[tactic(auto, unfolding(crate::specs::Lines::part_said))]
fn push_part(
    alloc: Global,
    all: &mut Vec<TextLine>,
    own: Own<'_>,
    lines: &[&[char]],
    indent: usize,
    to: Use,
    shown: bool,
    part: Part,
) -> Result<(), AllocError>
    ensures { OnOk result (map line_parts all.new.items ≡ map line_parts all.old.items
        ++ part_said (own_parts own.entry) (map (λ line. line.now) lines.now) indent to shown part) }
{
    let line = line_at(lines, part.first);
    match part.kind {
        PartKind::Empty | PartKind::Frames => Ok(()),
        PartKind::Place(place) => push_place(alloc, all, own, line, place),
        PartKind::Note(note) => push_line(
            alloc,
            all,
            use_of(note.kind),
            word_of(note.kind),
            tail(line, note.text),
        ),
        PartKind::GoesOn(below) => push_line(alloc, all, to, &[], tail(line, below)),
        PartKind::Source | PartKind::Loose => {
            push_drawing(alloc, all, shown, part_lines(lines, part))
        }
        PartKind::Suggestion => push_inked(alloc, all, to, part_lines(lines, part)),
        PartKind::Kept => push_line(alloc, all, Use::AsIs, &[], tail(line, indent)),
    }
}

/// A line, or an empty one if it isn't there.
pub fn line_at<'l>(lines: &[&'l [char]], number: usize) -> &'l [char]
    ensures { result.now ≡ line_there (map (λ line. line.now) lines.now) number }
{
    match lines.get(number) {
        Some(line) => line,
        None => &[],
    }
}

fn part_lines<'l, 'c>(lines: &'l [&'c [char]], part: Part) -> &'l [&'c [char]]
    ensures { map (λ line. line.now) result.now
        ≡ lines_of_part (map (λ line. line.now) lines.now) part }
{
    head(tail(lines, part.first), part.lines)
}

/// Adds a line: two texts, joined.
fn push_line(
    alloc: Global,
    all: &mut Vec<TextLine>,
    to: Use,
    front: &[char],
    rest: &[char],
) -> Result<(), AllocError>
    ensures { OnOk result (map line_parts all.new.items ≡ map line_parts all.old.items
        ++ said_so to (front.now ++ rest.now) ∷ []) }
{
    let text = joined_text(alloc, front, rest)?;
    all.push(TextLine { to, text })?;
    Ok(())
}

#[tactic(auto, using(crate::proofs::TextLemmas::text_after))]
fn joined_text(alloc: Global, front: &[char], rest: &[char]) -> Result<String, AllocError>
    ensures { IfOk result (λ text. string_bytes text ≡ encode_utf8_all (front.now ++ rest.now)) }
{
    let mut text = text_of(alloc, front)?;
    let rest = text_of(alloc, rest)?;
    text.push_str(rest.as_str())?;
    Ok(text)
}

/// The text of characters.
///
/// # Errors
///
/// Out of memory.
pub fn text_of(alloc: Global, chars: &[char]) -> Result<String, AllocError>
    ensures { IfOk result (λ text. string_bytes text ≡ encode_utf8_all chars.now) }
{
    chars.iter().copied().collect(alloc)
}

/// Adds a location, unless it is the finding's own.
fn push_place(
    alloc: Global,
    all: &mut Vec<TextLine>,
    own: Own<'_>,
    line: &[char],
    place: Place,
) -> Result<(), AllocError>
    ensures { OnOk result (map line_parts all.new.items ≡ map line_parts all.old.items
        ++ place_lines (own_parts own.entry) line.now place) }
{
    if is_own(alloc, own, line, place)? {
        return Ok(());
    }
    push_line(
        alloc,
        all,
        Use::InNote,
        &['a', 't', ' '],
        tail(line, place.name),
    )
}

/// Whether a location is the finding's own.
fn is_own(alloc: Global, own: Own<'_>, line: &[char], place: Place) -> Result<bool, AllocError>
    ensures { IfOk result (λ is. is ≡ is_own_place (own_parts own.entry) line.now place) }
{
    Ok(
        names(alloc, own, line, place)?
            && is_number(own.line, Some(place.line))
            && is_number(own.column, place.column),
    )
}

/// Whether a location is in the finding's file.
fn names(alloc: Global, own: Own<'_>, line: &[char], place: Place) -> Result<bool, AllocError>
    ensures { IfOk result (λ is. is ≡ names_own (own_parts own.entry) line.now place) }
{
    let name = head(
        tail(line, place.name),
        place.name_end.saturating_sub(place.name),
    );
    let name = text_of(alloc, name)?;
    Ok(name.as_str() == own.name)
}

fn is_number(number: Option<u32>, other: Option<u32>) -> bool
    ensures { result ≡ is_same_number number other }
{
    match (number, other) {
        (Some(number), Some(other)) => number == other,
        (None, None) => true,
        _ => false,
    }
}

/// Adds the lines of a drawing, unless it is shown otherwise.
fn push_drawing(
    alloc: Global,
    all: &mut Vec<TextLine>,
    shown: bool,
    lines: &[&[char]],
) -> Result<(), AllocError>
    ensures { OnOk result (map line_parts all.new.items ≡ map line_parts all.old.items
        ++ drawn_lines shown (map (λ line. line.now) lines.now)) }
{
    if shown {
        Ok(())
    } else {
        push_inked(alloc, all, Use::InNote, lines)
    }
}

/// Adds lines as they are, but for those of blanks and bars alone.
fn push_inked(
    alloc: Global,
    all: &mut Vec<TextLine>,
    to: Use,
    mut lines: &[&[char]],
) -> Result<(), AllocError>
    ensures { OnOk result (map line_parts all.new.items ≡ map line_parts all.old.items
        ++ map (said_so to) (inked (map (λ line. line.now) lines.entry.now))) }
{
    while let [line, rest @ ..] = lines {
        if !is_bare(line) {
            push_line(alloc, all, to, &[], line)?;
        }
        lines = rest;
    }
    Ok(())
}

/// Whether a line has blanks and bars alone.
fn is_bare(line: &[char]) -> bool
    ensures { result ≡ is_bare_line line.now }
{
    line.iter().all(|c| is_bare_character(*c))
}

fn is_bare_character(c: char) -> bool
    ensures { result ≡ is_bare_char c }
{
    c == ' ' || c == '\t' || c == '|' || c == '│'
}

/// For each block whether it is a drawing of the finding's file.
///
/// # Errors
///
/// Out of memory.
#[tactic(auto, unfolding(crate::specs::Lines::drawings_in))]
pub fn drawings(
    alloc: Global,
    own: Own<'_>,
    lines: &[&[char]],
    parts: &[Part],
) -> Result<Vec<bool>, AllocError>
    ensures { IfOk result (λ flags. flags.items
        ≡ drawings_in (own_parts own.entry) (map (λ line. line.now) lines.now) parts.now) }
{
    let mut flags = Vec::new(alloc);
    let mut here = true;
    let mut rest = parts;
    while let [part, more @ ..] = rest {
        push_flag(&mut flags, part.kind, here && is_drawing(part.kind))?;
        here = is_here_after(alloc, own, lines, here, *part)?;
        rest = more;
    }
    Ok(flags)
}

/// Adds the flag of a block.
fn push_flag(flags: &mut Vec<bool>, kind: PartKind, flag: bool) -> Result<(), AllocError>
    ensures { OnOk result (flags.new.items ≡ flags.old.items ++ flag_list (is_block kind) flag) }
{
    match kind {
        PartKind::Source | PartKind::Loose | PartKind::Suggestion => {
            flags.push(flag)?;
            Ok(())
        }
        PartKind::Empty
        | PartKind::Place(_)
        | PartKind::Note(_)
        | PartKind::GoesOn(_)
        | PartKind::Frames
        | PartKind::Kept => Ok(()),
    }
}

/// Whether a part is a drawing of rows of the source.
fn is_drawing(kind: PartKind) -> bool
    ensures { result ≡ is_drawing_kind kind }
{
    match kind {
        PartKind::Source | PartKind::Loose => true,
        PartKind::Suggestion
        | PartKind::Empty
        | PartKind::Place(_)
        | PartKind::Note(_)
        | PartKind::GoesOn(_)
        | PartKind::Frames
        | PartKind::Kept => false,
    }
}

/// Whether the lines after a part are of the finding's file.
fn is_here_after(
    alloc: Global,
    own: Own<'_>,
    lines: &[&[char]],
    here: bool,
    part: Part,
) -> Result<bool, AllocError>
    ensures { IfOk result (λ is. is
        ≡ here_after (own_parts own.entry) (map (λ line. line.now) lines.now) here part part.kind) }
{
    match part.kind {
        PartKind::Place(place) => names(alloc, own, line_at(lines, part.first), place),
        PartKind::Source
        | PartKind::Loose
        | PartKind::Suggestion
        | PartKind::Empty
        | PartKind::Note(_)
        | PartKind::GoesOn(_)
        | PartKind::Frames
        | PartKind::Kept => Ok(here),
    }
}

/// The note of lines: those of notes, and then those that are kept, with LF between them.
///
/// # Errors
///
/// Out of memory.
#[tactic(auto, unfolding(crate::specs::Lines::note_of))]
pub fn note_of(alloc: Global, lines: &[TextLine]) -> Result<Option<String>, AllocError>
    ensures { IfOk result (λ it. option_map string_bytes it
        ≡ note_there (map line_parts lines.now)) }
{
    let note = joined(alloc, Use::InNote, None, lines)?;
    joined(alloc, Use::AsIs, note, lines)
}

/// The help of lines, with LF between them.
///
/// # Errors
///
/// Out of memory.
#[tactic(auto, unfolding(crate::specs::Lines::help_of))]
pub fn help_of(alloc: Global, lines: &[TextLine]) -> Result<Option<String>, AllocError>
    ensures { IfOk result (λ it. option_map string_bytes it
        ≡ help_there (map line_parts lines.now)) }
{
    joined(alloc, Use::InHelp, None, lines)
}

/// The lines of one use, after others.
fn joined(
    alloc: Global,
    to: Use,
    mut all: Option<String>,
    mut lines: &[TextLine],
) -> Result<Option<String>, AllocError>
    ensures { IfOk result (λ it. option_map string_bytes it
        ≡ joined_from to (option_map string_bytes all) (map line_parts lines.entry.now)) }
{
    while let [line, rest @ ..] = lines {
        all = with_line(alloc, to, all, line)?;
        lines = rest;
    }
    Ok(all)
}

/// Lines with one more, if it is of this use.
fn with_line(
    alloc: Global,
    to: Use,
    before: Option<String>,
    line: &TextLine,
) -> Result<Option<String>, AllocError>
    ensures { IfOk result (λ it. option_map string_bytes it ≡ (if is_one_use to line.now.to
        then with_line_after (option_map string_bytes before) (string_bytes line.now.text)
        else option_map string_bytes before)) }
{
    if !is_use(to, line.to) {
        return Ok(before);
    }
    let Some(mut all) = before else {
        return Ok(Some(String::from_str(alloc, line.text.as_str())?));
    };
    all.push_str("\n")?;
    all.push_str(line.text.as_str())?;
    Ok(Some(all))
}

/// Whether two uses are the same.
pub fn is_use(one: Use, other: Use) -> bool
    ensures { result ≡ is_one_use one other }
{
    match (one, other) {
        (Use::InNote, Use::InNote) | (Use::InHelp, Use::InHelp) | (Use::AsIs, Use::AsIs) => true,
        _ => false,
    }
}
