//! Steps, paths and marks as text: `a.b`, `[3]`, `[]`, `{}`, `^^.c`, `^@`, `a[].b:tn`.
ghost use Rattle.std.specs.Prelude.{◌≡◌, ◌++◌, [], if◌then◌else◌, IfOk, IfSome, OnOk};
ghost use Rattle.std.specs.Prelude.{replicate, string_bytes};
ghost use Rattle.json_spots.specs.Text.{first_text, is_plain as is_plain_name};
ghost use Rattle.json_spots.specs.Text.{is_plain_byte as plain, kinds_text, name_text, path_text};
ghost use Rattle.json_spots.specs.Text.{row_text, step_text, steps_text};
ghost use Rattle.std.specs.List.{list_all};

use crate::mark::{Kinds, MarkRow};
use crate::step::{Path, Step};
use itoa::Buffer;
use numerals::number_of;
use std::alloc::{AllocError, Global};

fn is_plain_byte(byte: u8) -> bool
    ensures { result ≡ plain byte }
{
    byte.is_ascii_alphanumeric() || byte == b'_' || byte == b'-' || byte >= 0x80
}

fn are_plain(bytes: &[u8]) -> bool
    ensures { result ≡ list_all plain bytes.now }
{
    bytes.iter().all(|byte| is_plain_byte(*byte))
}

/// Whether a name is written without quotes: it has only letters, digits, `_`, `-` and characters
/// that aren't ASCII, and isn't empty.
#[tactic(auto, unfolding(crate::specs::Text::is_plain))]
pub fn is_plain(name: &str) -> bool
    ensures { result ≡ is_plain_name name.now }
{
    !name.is_empty() && are_plain(name.as_bytes())
}

/// Appends a name, in quotes unless it is plain.
///
/// # Errors
///
/// Out of memory.
#[tactic(auto, unfolding(crate::specs::Text::name_text))]
pub fn push_name(out: &mut String, name: &str) -> Result<(), AllocError>
    ensures { OnOk result (string_bytes out.new ≡ string_bytes out.old ++ name_text name.now) }
{
    if is_plain(name) {
        return out.push_str(name);
    }
    out.push_str("\"")?;
    out.push_str(name)?;
    out.push_str("\"")
}

/// Appends a step that comes after another one.
///
/// # Errors
///
/// Out of memory.
pub fn push_step(out: &mut String, step: Step<'_>) -> Result<(), AllocError>
    ensures { OnOk result (string_bytes out.new ≡ string_bytes out.old ++ step_text step.entry) }
{
    match step {
        Step::Key(name) => {
            out.push_str(".")?;
            push_name(out, name)
        }
        Step::Nth(at) => {
            out.push_str("[")?;
            out.push_str(Buffer::new().format(at))?;
            out.push_str("]")
        }
        Step::Each => out.push_str("[]"),
        Step::Member => out.push_str("{}"),
    }
}

fn push_first(out: &mut String, step: Step<'_>) -> Result<(), AllocError>
    ensures { OnOk result (string_bytes out.new ≡ string_bytes out.old ++ first_text step.entry) }
{
    match step {
        Step::Key(name) => push_name(out, name),
        _ => push_step(out, step),
    }
}

/// Appends steps.
///
/// # Errors
///
/// Out of memory.
#[tactic(auto, unfolding(crate::specs::Text::steps_text))]
pub fn push_steps(out: &mut String, steps: &[Step<'_>]) -> Result<(), AllocError>
    ensures { OnOk result (string_bytes out.new ≡ string_bytes out.old ++ steps_text steps.now) }
{
    let Some((first, rest)) = steps.split_first() else {
        return out.push_str(".");
    };
    push_first(out, *first)?;
    for step in rest {
        push_step(out, *step)?;
    }
    Ok(())
}

fn push_carets(out: &mut String, count: usize) -> Result<(), AllocError>
    ensures { OnOk result (string_bytes out.new ≡ string_bytes out.old ++ replicate count 0x5E) }
{
    for _caret in 0..count {
        out.push_str("^")?;
    }
    Ok(())
}

/// Appends a path.
///
/// # Errors
///
/// Out of memory.
#[tactic(auto, unfolding(crate::specs::Text::path_text))]
pub fn push_path(out: &mut String, path: &Path<'_>) -> Result<(), AllocError>
    ensures { OnOk result (string_bytes out.new ≡ string_bytes out.old ++ path_text path.now) }
{
    push_carets(out, path.out)?;
    if path.is_name {
        out.push_str("@")
    } else {
        push_steps(out, &path.steps)
    }
}

fn push_flag(out: &mut String, flag: bool, letter: &str) -> Result<(), AllocError>
    ensures { OnOk result (string_bytes out.new
        ≡ string_bytes out.old ++ (if flag then letter.now else [])) }
{
    if flag { out.push_str(letter) } else { Ok(()) }
}

#[tactic(auto, unfolding(crate::specs::Text::kinds_text))]
fn push_kinds(out: &mut String, kinds: Kinds) -> Result<(), AllocError>
    ensures { OnOk result (string_bytes out.new ≡ string_bytes out.old ++ kinds_text kinds) }
{
    push_flag(out, kinds.text, "t")?;
    push_flag(out, kinds.number, "n")?;
    push_flag(out, kinds.array, "a")?;
    push_flag(out, kinds.object, "o")?;
    push_flag(out, kinds.boolean, "b")?;
    push_flag(out, kinds.null, "0")?;
    push_flag(out, kinds.nothing, "-")
}

/// Appends a row of a mark.
///
/// # Errors
///
/// Out of memory.
#[tactic(auto, unfolding(crate::specs::Text::row_text))]
pub fn push_mark_row(out: &mut String, row: &MarkRow<'_>) -> Result<(), AllocError>
    ensures { OnOk result (string_bytes out.new ≡ string_bytes out.old ++ row_text row.now) }
{
    push_steps(out, &row.steps)?;
    out.push_str(":")?;
    push_kinds(out, row.kinds)
}

/// The steps that a text says, if that is how they are written.
///
/// # Errors
///
/// Out of memory.
pub fn read_steps<'t>(alloc: Global, text: &'t str) -> Result<Option<Vec<Step<'t>>>, AllocError>
    ensures { IfOk result (λ it. IfSome it (λ steps. steps_text steps.items ≡ text.now)) }
{
    let Some(steps) = guess_steps(alloc, text)? else {
        return Ok(None);
    };
    let mut printed = String::new(alloc);
    push_steps(&mut printed, &steps)?;
    if printed.as_str() == text {
        Ok(Some(steps))
    } else {
        Ok(None)
    }
}

/// The path that a text says, if that is how it is written.
///
/// # Errors
///
/// Out of memory.
pub fn read_path<'t>(alloc: Global, text: &'t str) -> Result<Option<Path<'t>>, AllocError>
    ensures { IfOk result (λ it. IfSome it (λ path. path_text path ≡ text.now)) }
{
    let Some(path) = guess_path(alloc, text)? else {
        return Ok(None);
    };
    let mut printed = String::new(alloc);
    push_path(&mut printed, &path)?;
    if printed.as_str() == text {
        Ok(Some(path))
    } else {
        Ok(None)
    }
}

/// The row of a mark that a text says, if that is how it is written.
///
/// # Errors
///
/// Out of memory.
pub fn read_mark_row<'t>(alloc: Global, text: &'t str) -> Result<Option<MarkRow<'t>>, AllocError>
    ensures { IfOk result (λ it. IfSome it (λ row. row_text row ≡ text.now)) }
{
    let Some(row) = guess_row(alloc, text)? else {
        return Ok(None);
    };
    let mut printed = String::new(alloc);
    push_mark_row(&mut printed, &row)?;
    if printed.as_str() == text {
        Ok(Some(row))
    } else {
        Ok(None)
    }
}

// What these give is written again and compared, so no clause says what they give.

fn plain_len(bytes: &[u8]) -> usize {
    for (at, byte) in bytes.iter().enumerate() {
        if !is_plain_byte(*byte) {
            return at;
        }
    }
    bytes.len()
}

fn guess_name(text: &str) -> Option<(Step<'_>, &str)> {
    if let Some(quoted) = text.strip_prefix("\"") {
        let (name, rest) = quoted.split_once('"')?;
        return Some((Step::Key(name), rest));
    }
    let end = plain_len(text.as_bytes());
    Some((Step::Key(text.get(..end)?), text.get(end..)?))
}

fn guess_step(text: &str) -> Option<(Step<'_>, &str)> {
    if let Some(rest) = text.strip_prefix("[]") {
        return Some((Step::Each, rest));
    }
    if let Some(rest) = text.strip_prefix("{}") {
        return Some((Step::Member, rest));
    }
    if let Some(bracket) = text.strip_prefix("[") {
        let (number, rest) = bracket.split_once(']')?;
        return Some((Step::Nth(number_of(number)?), rest));
    }
    match text.strip_prefix(".") {
        Some(name) => guess_name(name),
        None => guess_name(text),
    }
}

fn guess_steps<'t>(alloc: Global, text: &'t str) -> Result<Option<Vec<Step<'t>>>, AllocError> {
    let mut steps = Vec::new(alloc);
    if text == "." {
        return Ok(Some(steps));
    }
    let mut rest = text;
    for _step in 0..text.len() {
        let Some(taken) = guess_step(rest) else {
            return Ok(None);
        };
        steps.push(taken.0)?;
        rest = taken.1;
        if rest.is_empty() {
            return Ok(Some(steps));
        }
    }
    Ok(None)
}

fn guess_path<'t>(alloc: Global, text: &'t str) -> Result<Option<Path<'t>>, AllocError> {
    let inner = text.trim_start_matches('^');
    let out = text.len().saturating_sub(inner.len());
    if inner == "@" {
        let steps = Vec::new(alloc);
        return Ok(Some(Path {
            out,
            is_name: true,
            steps,
        }));
    }
    let Some(steps) = guess_steps(alloc, inner)? else {
        return Ok(None);
    };
    Ok(Some(Path {
        out,
        is_name: false,
        steps,
    }))
}

fn has_letter(text: &str, letter: u8) -> bool {
    for byte in text.as_bytes() {
        if *byte == letter {
            return true;
        }
    }
    false
}

fn guess_row<'t>(alloc: Global, text: &'t str) -> Result<Option<MarkRow<'t>>, AllocError> {
    let Some((steps, letters)) = text.rsplit_once(':') else {
        return Ok(None);
    };
    let Some(steps) = guess_steps(alloc, steps)? else {
        return Ok(None);
    };
    let kinds = Kinds {
        text: has_letter(letters, b't'),
        number: has_letter(letters, b'n'),
        array: has_letter(letters, b'a'),
        object: has_letter(letters, b'o'),
        boolean: has_letter(letters, b'b'),
        null: has_letter(letters, b'0'),
        nothing: has_letter(letters, b'-'),
    };
    Ok(Some(MarkRow { steps, kinds }))
}
