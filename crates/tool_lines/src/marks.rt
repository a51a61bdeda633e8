//! Lines that belong to others: markers, gutters, and indented lines.
ghost use Rattle.std.specs.Prelude.{◌≡◌, ◌≤◌, IfSome, length};
ghost use Rattle.std.specs.Option.{option_copied};
ghost use Rattle.std.specs.List.{list_all, list_any, prefix_len};
ghost use Rattle.line_shapes.specs.Place.{is_mark as marks_place};
ghost use Rattle.tool_lines.specs.Marks.{are_marks as are_marks_there, body as body_of};
ghost use Rattle.tool_lines.specs.Marks.{begins_blank as begins_with_blank, gutter as gutter_there};
ghost use Rattle.tool_lines.specs.Marks.{is_caret as is_caret_byte, is_text as is_text_there};
ghost use Rattle.tool_lines.specs.Marks.{is_mark_byte as is_mark_line_byte};
ghost use Rattle.tool_lines.specs.Marks.{ends_message as message_ends, is_fix as is_fix_there};
ghost use Rattle.tool_lines.specs.Marks.{is_boxed as stands_boxed};
ghost use Rattle.tool_lines.specs.Marks.{is_include as includes, wraps as wraps_there};
ghost use Rattle.tool_lines.specs.Marks.{is_numbered as begins_numbered, is_row as is_row_there};
ghost use Rattle.tool_lines.specs.Marks.{stands_apart as apart_there, unled as without_lead};
ghost use Rattle.tool_lines.specs.Marks.{closes as ends_as_location, first_ink as ink_of};
ghost use Rattle.tool_lines.specs.Marks.{is_inner as in_word};
ghost use Rattle.tool_lines.specs.Marks.{is_inset as is_inset_line};
ghost use Rattle.tool_lines.specs.Marks.{may_lead as may_lead_there, may_place as may_place_there};
ghost use Rattle.tool_lines.specs.Marks.{may_point as may_point_there};

use line_shapes::bytes::{Kind, byte_at, is_in, run};
use line_shapes::name::is_angle;
use line_shapes::part::Found;
use line_shapes::said::{code_behind, said};

/// Whether a line begins with a blank.
pub fn begins_blank(line: &[u8]) -> bool
    ensures { result ≡ begins_with_blank line.now }
{
    match line {
        [first, ..] => is_in(Kind::Blank, *first),
        [] => false,
    }
}

/// The first byte of a line that is no blank, or NUL.
pub fn first_ink(line: &[u8]) -> u8
    ensures { result ≡ ink_of line.now }
{
    byte_at(unled(line), 0)
}

/// A text without the blanks at its beginning.
pub fn unled(text: &[u8]) -> &[u8]
    ensures { result.now ≡ without_lead text.now }
{
    text.split_at(run(Kind::Blank, text)).1
}

/// Whether what has the location of the line above it may begin with this byte.
pub fn may_place(byte: u8) -> bool
    ensures { result ≡ may_place_there byte }
{
    is_in(Kind::Digit, byte) || may_point(byte)
}

/// Whether an arrow may begin with this byte.
pub fn may_point(byte: u8) -> bool
    ensures { result ≡ may_point_there byte }
{
    byte == b'-' || may_lead(byte)
}

/// Whether an arrow other than `-->` may begin with this byte.
pub fn may_lead(byte: u8) -> bool
    ensures { result ≡ may_lead_there byte }
{
    byte == 0xE2 || byte == b',' || byte == b':'
}

/// Whether a line ends as a location does: with a digit or a colon.
pub fn closes(line: &[u8]) -> bool
    ensures { result ≡ ends_as_location line.now }
{
    let last = byte_at(line, line.len().saturating_sub(1));
    last == b':' || is_in(Kind::Digit, last)
}

/// Whether a line is indented, and its first word can't be a name with its location: it begins with
/// no angle, and it has no byte that comes after a name.
pub fn is_inset(line: &[u8]) -> bool
    ensures { result ≡ is_inset_line line.now }
{
    if !begins_blank(line) {
        return false;
    }
    let text = unled(line);
    !is_angle(text) && !is_mark(byte_at(text, inner_run(text)))
}

fn inner_run(text: &[u8]) -> usize
    ensures { result ≡ prefix_len in_word text.now }
{
    text.iter()
        .take_while(|byte| !is_in(Kind::Blank, **byte) && !is_mark(**byte))
        .count()
}

/// Whether what comes after a name may begin with this byte.
fn is_mark(byte: u8) -> bool
    ensures { result ≡ marks_place byte }
{
    byte == b':' || byte == b'(' || byte == b'['
}

/// The length of the gutter: blanks, digits, blanks, and a `|`.
pub fn gutter(line: &[u8]) -> Option<usize>
    ensures value { result ≡ gutter_there line.now }
    ensures within { IfSome result (λ n. n ≤ length line.now) }
{
    let blanks = run(Kind::Blank, line);
    let digits = run(Kind::Digit, &line[blanks..]);
    let more = run(Kind::Blank, &line[blanks + digits..]);
    let end = blanks + digits + more;
    if end < line.len() && line[end] == b'|' {
        Some(end + 1)
    } else {
        None
    }
}

/// Whether a line begins with digits, spaces and a `|`.
pub fn is_numbered(line: &[u8]) -> bool
    ensures { result ≡ begins_numbered line.now }
{
    let digits = run(Kind::Digit, line);
    let spaces = run(Kind::Space, &line[digits..]);
    let end = digits + spaces;
    1 <= digits && 1 <= spaces && end < line.len() && line[end] == b'|'
}

/// Whether a line is markers of the row above it.
pub fn are_marks(line: &[u8]) -> bool
    ensures { result ≡ are_marks_there line.now }
{
    match gutter(line) {
        Some(end) => is_marked(&line[end..]),
        None => (begins_blank(line) || matches!(line, [first, ..] if is_caret(*first)))
            && is_marked(line),
    }
}

/// Whether a text is a row of markers.
fn is_marked(body: &[u8]) -> bool
    ensures { result ≡ body_of body.now }
{
    all_marks(body) && has_caret(body)
}

fn all_marks(body: &[u8]) -> bool
    ensures { result ≡ list_all is_mark_line_byte body.now }
{
    body.iter().all(|byte| is_mark_byte(*byte))
}

fn has_caret(body: &[u8]) -> bool
    ensures { result ≡ list_any is_caret_byte body.now }
{
    body.iter().any(|byte| is_caret(*byte))
}

fn is_mark_byte(byte: u8) -> bool
    ensures { result ≡ is_mark_line_byte byte }
{
    matches!(byte, b' ' | b'\t' | b'^' | b'~' | b'-' | b'+' | b'_' | b'=')
}

fn is_caret(byte: u8) -> bool
    ensures { result ≡ is_caret_byte byte }
{
    byte == b'^' || byte == b'~'
}

/// Whether a line is indented text, and no markers.
pub fn is_text(line: &[u8]) -> bool
    ensures { result ≡ is_text_there line.now }
{
    begins_blank(line) && run(Kind::Blank, line) < line.len() && !are_marks(line)
}

/// Whether a line is an edit, as gcc and clang print it below a finding:
/// `fix-it:"a.c":{5:8-5:14}:"color"`.
pub fn is_fix(line: &[u8]) -> bool
    ensures { result ≡ is_fix_there line.now }
{
    line.starts_with(b"fix-it:\"")
}

/// Whether a line says how gcc and clang came to a file: `In file included from a.c:1:`.
pub fn is_include(line: &[u8]) -> bool
    ensures { result ≡ includes line.now }
{
    line.starts_with(b"In file included from ")
}

/// Whether a line goes on with the message of the line before it, and a row follows, as
/// `mypy --pretty` prints it.
pub fn wraps(line: &[u8], next: Option<&[u8]>) -> bool
    ensures { result ≡ wraps_there line.now (option_copied next.entry) }
{
    ends_message(line) && matches!(next, Some(next) if next.starts_with(b"    "))
}

/// Whether a line has a code at its end, two blanks before it or nothing.
fn ends_message(line: &[u8]) -> bool
    ensures { result ≡ message_ends line.now }
{
    if is_boxed(line) {
        return true;
    }
    match code_behind(line, false) {
        Some((front, code)) => code.len() + 4 <= line.len().saturating_sub(front.len()),
        None => false,
    }
}

/// Whether a line begins with an opening bracket and ends with a closing one.
fn is_boxed(line: &[u8]) -> bool
    ensures { result ≡ stands_boxed line.now }
{
    match line {
        [first, .., last] => *first == b'[' && *last == b']',
        _ => false,
    }
}

/// Whether a line belongs to a finding from which an empty line parts it: an empty line above a
/// row, a row, or a message with its level.
pub fn stands_apart(line: &[u8], next: Option<&[u8]>) -> bool
    ensures { result ≡ apart_there line.now (option_copied next.entry) }
{
    if line.is_empty() {
        matches!(next, Some(next) if is_row(next))
    } else {
        is_row(line)
            || matches!(said(Found::before(line)), Some((found, _)) if found.severity.is_some())
    }
}

/// Whether a line begins with a blank, or with a number and a blank, as rows of a source do.
fn is_row(line: &[u8]) -> bool
    ensures { result ≡ is_row_there line.now }
{
    let digits = run(Kind::Digit, line);
    begins_blank(line) || 1 <= digits && is_in(Kind::Blank, byte_at(line, digits))
}
