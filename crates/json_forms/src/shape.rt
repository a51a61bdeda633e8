//! Forms from text.
ghost use Rattle.std.specs.Prelude.{◌≡◌, IfOk};
ghost use Rattle.json_forms.specs.Print.{forms_text};

use crate::form::{Ask, Form, Guard, List, Row, Side, SideKind};
use crate::keys::{
    AS, CODE, DEFAULT, END, LAST, LETTER, MESSAGE, NUMBERS, POSN, PRIMARY, SCOPE, TEXTS, UNIT,
};
use crate::print::push_forms;
use crate::rows::unit_named;
use crate::table::TABLE;
use json_spots::{MarkRow, Path, read_mark_row, read_path, read_steps};
use oxc_protocol::Severity;
use std::alloc::{AllocError, Global};

/// Why a text says no forms.
#[derive(Drop)]
pub enum FormError<'t> {
    /// The line, from 1, and its first part that isn't as it has to be.
    Wrong { line: usize, word: &'t str },
    OutOfMemory,
}

impl From<AllocError> for FormError<'_> {
    ghost use Rattle.json_forms.specs.declared.shape.FormError.TheVariants.{OutOfMemory};
    ghost use Rattle.std.specs.Prelude.{◌≡◌};

    ghost from_gives = { λ _ e. e ≡ OutOfMemory };

    fn from(_refused: AllocError) -> Self {
        FormError::OutOfMemory
    }
}

/// The forms that a text says: written again they are the text.
///
/// A line `form=NAME mark=STEPS:KINDS ..` begins a form, `list=STEPS KEY=PATH|PATH ..` is a list of
/// it, and the lines `place=`, `labels=`, `edits=` and `notes=` after it are its sides. A list
/// without a form before it is a form of its own. Words are apart by one blank.
///
/// # Errors
///
/// [`FormError`]: the first line that isn't so.
pub fn parse_forms<'t>(alloc: Global, text: &'t str) -> Result<Vec<Form<'t>>, FormError<'t>>
    ensures { IfOk result (λ forms. forms_text forms.items ≡ text.now) }
{
    let forms = guess_forms(alloc, text)?;
    let mut printed = String::new(alloc);
    push_forms(&mut printed, &forms)?;
    if printed.as_str() == text {
        Ok(forms)
    } else {
        Err(first_other(printed.as_str(), text))
    }
}

/// The forms that are known: written again they are the table.
///
/// # Errors
///
/// [`FormError`]; a test shows that the table is read.
pub fn known_forms<'t>(alloc: Global) -> Result<Vec<Form<'t>>, FormError<'t>>
    ensures { IfOk result (λ forms. forms_text forms.items ≡ TABLE.now) }
{
    parse_forms(alloc, TABLE)
}

// What follows is written again and compared, so no clause says what it gives.

/// The first line that isn't as it would be written.
fn first_other<'t>(printed: &str, text: &'t str) -> FormError<'t> {
    let mut others = printed.lines();
    let mut number = 0usize;
    for line in text.lines() {
        number = number.saturating_add(1);
        if others.next() != Some(line) {
            return FormError::Wrong {
                line: number,
                word: line,
            };
        }
    }
    FormError::Wrong {
        line: number,
        word: "",
    }
}

/// A text before and after the first separator that isn't in quotes.
fn cut_at(text: &str, separator: u8) -> (&str, Option<&str>) {
    let mut is_quoted = false;
    for (at, byte) in text.as_bytes().iter().enumerate() {
        if *byte == b'"' {
            is_quoted = !is_quoted;
        }
        if *byte == separator && !is_quoted {
            return match text.get(..at) {
                Some(front) => (front, text.get(at..).and_then(after_first)),
                None => (text, None),
            };
        }
    }
    (text, None)
}

/// A text after its first byte.
fn after_first(text: &str) -> Option<&str> {
    text.get(1..)
}

fn guess_paths<'t>(alloc: Global, text: &'t str) -> Result<Option<Vec<Path<'t>>>, AllocError> {
    let mut paths = Vec::new(alloc);
    let mut rest = Some(text);
    for _path in 0..text.len() {
        let Some(left) = rest else {
            break;
        };
        let cut = cut_at(left, b'|');
        let Some(path) = read_path(alloc, cut.0)? else {
            return Ok(None);
        };
        paths.push(path)?;
        rest = cut.1;
    }
    Ok(Some(paths))
}

/// A word without its quotes.
fn unquoted(text: &str) -> &str {
    match text.strip_prefix("\"").and_then(without_quote) {
        Some(inner) => inner,
        None => text,
    }
}

fn without_quote(text: &str) -> Option<&str> {
    text.strip_suffix("\"")
}

fn guess_words<'t>(alloc: Global, text: &'t str) -> Result<Vec<&'t str>, AllocError> {
    let mut words = Vec::new(alloc);
    let mut rest = Some(text);
    for _word in 0..text.len() {
        let Some(left) = rest else {
            break;
        };
        let cut = cut_at(left, b'|');
        words.push(unquoted(cut.0))?;
        rest = cut.1;
    }
    Ok(words)
}

fn severity_named(word: &str) -> Option<Severity> {
    if word == "error" {
        Some(Severity::Error)
    } else if word == "warning" {
        Some(Severity::Warning)
    } else if word == "advice" {
        Some(Severity::Advice)
    } else {
        None
    }
}

fn guess_level(text: &str) -> Option<(&str, Severity)> {
    let cut = cut_at(text, b':');
    Some((unquoted(cut.0), severity_named(cut.1?)?))
}

fn guess_levels<'t>(
    alloc: Global,
    text: &'t str,
) -> Result<Option<Vec<(&'t str, Severity)>>, AllocError> {
    let mut levels = Vec::new(alloc);
    let mut rest = Some(text);
    for _level in 0..text.len() {
        let Some(left) = rest else {
            break;
        };
        let cut = cut_at(left, b',');
        let Some(level) = guess_level(cut.0) else {
            return Ok(None);
        };
        levels.push(level)?;
        rest = cut.1;
    }
    Ok(Some(levels))
}

/// Where a guard's path ends, and what it asks.
fn guess_ask(text: &str) -> Option<(usize, Ask)> {
    let mut is_quoted = false;
    for (at, byte) in text.as_bytes().iter().enumerate() {
        if *byte == b'"' {
            is_quoted = !is_quoted;
        }
        if !is_quoted && let Some(ask) = ask_of(*byte) {
            return Some((at, ask));
        }
    }
    None
}

fn ask_of(byte: u8) -> Option<Ask> {
    match byte {
        b'?' => Some(Ask::There),
        b'+' => Some(Ask::Given),
        b'!' => Some(Ask::Missing),
        b':' => Some(Ask::Is),
        b'~' => Some(Ask::Begins),
        b'$' => Some(Ask::Ends),
        b'%' => Some(Ask::BeginsOther),
        _ => None,
    }
}

fn guess_guard<'t>(alloc: Global, text: &'t str) -> Result<Option<Guard<'t>>, AllocError> {
    let Some((at, ask)) = guess_ask(text) else {
        return Ok(None);
    };
    let (Some(path), Some(words)) = (text.get(..at), text.get(at..).and_then(after_first)) else {
        return Ok(None);
    };
    let Some(path) = read_path(alloc, path)? else {
        return Ok(None);
    };
    let words = guess_words(alloc, words)?;
    Ok(Some(Guard { path, ask, words }))
}

fn is_among(keys: &[&str], key: &str) -> bool {
    for own in keys {
        if *own == key {
            return true;
        }
    }
    false
}

/// Whether a word is one that a constant may have.
fn is_constant(key: &str, word: &str) -> bool {
    if key == SCOPE {
        !word.is_empty()
    } else if key == DEFAULT {
        severity_named(word).is_some()
    } else if key == UNIT {
        unit_named(word).is_some()
    } else if key == END {
        word == LAST
    } else {
        key == AS && word == LETTER
    }
}

fn guess_row<'t>(alloc: Global, text: &'t str) -> Result<Option<Row<'t>>, AllocError> {
    let Some((key, value)) = text.split_once('=') else {
        return Ok(None);
    };
    if is_constant(key, value) {
        return Ok(Some(Row::Constant(key, value)));
    }
    if key == "only" {
        return Ok(guess_guard(alloc, value)?.map(Row::Only));
    }
    if key == "aside" {
        return Ok(guess_guard(alloc, value)?.map(Row::Aside));
    }
    if key == "level" {
        return Ok(guess_levels(alloc, value)?.map(Row::Level));
    }
    if key == PRIMARY || key == POSN || is_among(&NUMBERS, key) || is_among(&TEXTS, key) {
        return Ok(match guess_paths(alloc, value)? {
            Some(paths) => Some(Row::Part(key, paths)),
            None => None,
        });
    }
    Ok(None)
}

fn keep_row<'t>(rows: &mut Vec<Row<'t>>, row: Row<'t>) -> Result<(), AllocError> {
    rows.push(row)?;
    Ok(())
}

/// The rows that a line's words say.
fn guess_rows<'t>(
    alloc: Global,
    line: usize,
    words: Option<&'t str>,
) -> Result<Vec<Row<'t>>, FormError<'t>> {
    let mut rows = Vec::new(alloc);
    let Some(words) = words else {
        return Ok(rows);
    };
    let mut rest = Some(words);
    for _row in 0..words.len() {
        let Some(left) = rest else {
            break;
        };
        let cut = cut_at(left, b' ');
        let word = cut.0;
        let Some(row) = guess_row(alloc, word)? else {
            return Err(FormError::Wrong { line, word });
        };
        keep_row(&mut rows, row)?;
        rest = cut.1;
    }
    Ok(rows)
}

fn guess_mark_row<'t>(alloc: Global, word: &'t str) -> Result<Option<MarkRow<'t>>, AllocError> {
    match word.strip_prefix("mark=") {
        Some(row) => read_mark_row(alloc, row),
        None => Ok(None),
    }
}

fn keep_mark<'t>(mark: &mut Vec<MarkRow<'t>>, row: MarkRow<'t>) -> Result<(), AllocError> {
    mark.push(row)?;
    Ok(())
}

fn guess_mark<'t>(
    alloc: Global,
    line: usize,
    words: Option<&'t str>,
) -> Result<Vec<MarkRow<'t>>, FormError<'t>> {
    let mut mark = Vec::new(alloc);
    let Some(words) = words else {
        return Ok(mark);
    };
    let mut rest = Some(words);
    for _row in 0..words.len() {
        let Some(left) = rest else {
            break;
        };
        let cut = cut_at(left, b' ');
        let word = cut.0;
        let Some(row) = guess_mark_row(alloc, word)? else {
            return Err(FormError::Wrong { line, word });
        };
        keep_mark(&mut mark, row)?;
        rest = cut.1;
    }
    Ok(mark)
}

/// Whether a row gives a message, or a code in its place.
fn has_message(rows: &[Row<'_>]) -> bool {
    for row in rows {
        if let Row::Part(key, _) = row {
            if *key == MESSAGE || *key == CODE {
                return true;
            }
        }
    }
    false
}

fn kind_of(key: &str) -> Option<SideKind> {
    if key == "place" {
        Some(SideKind::Place)
    } else if key == "labels" {
        Some(SideKind::Label)
    } else if key == "edits" {
        Some(SideKind::Edit)
    } else if key == "notes" {
        Some(SideKind::Note)
    } else {
        None
    }
}

fn keep_form<'t>(forms: &mut Vec<Form<'t>>, form: Form<'t>) -> Result<(), AllocError> {
    forms.push(form)?;
    Ok(())
}

fn nameless<'t>(alloc: Global) -> Form<'t> {
    Form {
        name: "",
        mark: Vec::new(alloc),
        lists: Vec::new(alloc),
    }
}

/// The last form, if it has a name; else a new one.
fn open_form<'t>(alloc: Global, forms: &mut Vec<Form<'t>>) -> Result<Form<'t>, AllocError> {
    let Some(form) = forms.pop() else {
        return Ok(nameless(alloc));
    };
    if !form.name.is_empty() {
        return Ok(form);
    }
    keep_form(forms, form)?;
    Ok(nameless(alloc))
}

fn add_list<'t>(
    alloc: Global,
    forms: &mut Vec<Form<'t>>,
    list: List<'t>,
) -> Result<(), AllocError> {
    let mut form = open_form(alloc, forms)?;
    form.lists.push(list)?;
    keep_form(forms, form)
}

/// Adds a side to the last list, if there is one.
fn add_side<'t>(forms: &mut Vec<Form<'t>>, side: Side<'t>) -> Result<bool, AllocError> {
    let Some(mut form) = forms.pop() else {
        return Ok(false);
    };
    let Some(mut list) = form.lists.pop() else {
        return Ok(false);
    };
    list.sides.push(side)?;
    form.lists.push(list)?;
    keep_form(forms, form)?;
    Ok(true)
}

/// Adds what a line says that begins with `list=` or the word of a side.
fn add_line<'t>(
    alloc: Global,
    line: usize,
    key: &'t str,
    steps: &'t str,
    words: Option<&'t str>,
    forms: &mut Vec<Form<'t>>,
) -> Result<(), FormError<'t>> {
    let Some(at) = read_steps(alloc, steps)? else {
        return Err(FormError::Wrong { line, word: steps });
    };
    let rows = guess_rows(alloc, line, words)?;
    if key == "list" {
        if !has_message(&rows) {
            return Err(FormError::Wrong { line, word: key });
        }
        let sides = Vec::new(alloc);
        return Ok(add_list(alloc, forms, List { at, rows, sides })?);
    }
    let Some(kind) = kind_of(key) else {
        return Err(FormError::Wrong { line, word: key });
    };
    if add_side(forms, Side { kind, at, rows })? {
        Ok(())
    } else {
        Err(FormError::Wrong { line, word: key })
    }
}

/// Adds what a line says.
fn read_line<'t>(
    alloc: Global,
    line: usize,
    text: &'t str,
    forms: &mut Vec<Form<'t>>,
) -> Result<(), FormError<'t>> {
    let cut = cut_at(text, b' ');
    let Some(first) = cut.0.split_once('=') else {
        return Err(FormError::Wrong { line, word: cut.0 });
    };
    if first.0 != "form" {
        return add_line(alloc, line, first.0, first.1, cut.1, forms);
    }
    let mark = guess_mark(alloc, line, cut.1)?;
    let (name, lists) = (first.1, Vec::new(alloc));
    Ok(keep_form(forms, Form { name, mark, lists })?)
}

fn guess_forms<'t>(alloc: Global, text: &'t str) -> Result<Vec<Form<'t>>, FormError<'t>> {
    let mut forms = Vec::new(alloc);
    let mut number = 0usize;
    for line in text.lines() {
        number = number.saturating_add(1);
        read_line(alloc, number, line, &mut forms)?;
    }
    Ok(forms)
}
