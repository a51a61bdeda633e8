//! The forms that values are read by.
ghost use Rattle.std.specs.Prelude.{◌≡◌, ◌++◌, IfErr, IfOk, OnOk, option_map, string_bytes};
ghost use Rattle.std.specs.List.{flat_map, list_any};
ghost use Rattle.std.specs.Option.{option_copied};
ghost use Rattle.std.specs.Str.{bytes_eq};
ghost use Rattle.json_forms.specs.Told.{name_is};
ghost use Rattle.json_inputs.specs.Forms.{AreForms, IsNoForms, own_text as text_of_own, row_text};
ghost use Rattle.json_inputs.specs.Forms.{tool_of};
ghost use Rattle.json_inputs.specs.Values.{SaysRefused};

use crate::error::InputError;
use harmless::{Kind, harmless};
use json_forms::{Form, FormError, Forms, known_forms, parse_forms};
use std::alloc::{AllocError, Global};

/// The user's forms as a text: each with an LF.
///
/// # Errors
///
/// Out of memory.
#[tactic(auto, unfolding(crate::specs::Forms::own_text))]
pub fn own_text(alloc: Global, rows: &[String]) -> Result<String, AllocError>
    ensures { IfOk result (λ text. string_bytes text ≡ text_of_own rows.now) }
{
    let mut text = String::new(alloc);
    let mut rest = rows;
    while let [row, more @ ..] = rest {
        push_row(&mut text, row)?;
        rest = more;
    }
    Ok(text)
}

fn push_row(text: &mut String, row: &String) -> Result<(), AllocError>
    ensures { OnOk result (string_bytes text.new ≡ string_bytes text.old ++ row_text row.now) }
{
    text.push_str(row.as_str())?;
    text.push_str("\n")
}

/// The forms in a file of the user's: its rows, without those that are blank or begin with `#`. No
/// clause says which.
///
/// # Errors
///
/// Out of memory.
pub fn own_rows(alloc: Global, text: &str) -> Result<Vec<String>, AllocError> {
    let mut rows = Vec::new(alloc);
    for line in text.lines() {
        let row = line.trim();
        if !row.is_empty() && !row.starts_with('#') {
            rows.push(String::from_str(alloc, row)?)?;
        }
    }
    Ok(rows)
}

/// The user's forms in a text, and the known ones; of these only that of the tool's name, if there
/// is one.
///
/// # Errors
///
/// [`InputError`]: the first row of the text that is no form.
pub fn read_forms<'t>(
    alloc: Global,
    own: &'t str,
    tool: Option<&'t str>,
) -> Result<Forms<'t>, InputError>
    ensures forms { IfOk result (AreForms own.now (option_copied tool.entry)) }
    ensures cause { IfErr result (SaysRefused IsNoForms) }
{
    let own = match parse_forms(alloc, own) {
        Ok(own) => own,
        Err(why) => return Err(wrong_form(alloc, why)),
    };
    let known = match known_forms(alloc) {
        Ok(known) => known,
        Err(why) => return Err(wrong_form(alloc, why)),
    };
    let tool = tool_among(&known, tool);
    Ok(Forms { own, known, tool })
}

/// A tool's name, if a form has it.
fn tool_among<'t>(known: &[Form<'_>], tool: Option<&'t str>) -> Option<&'t str>
    ensures { option_copied result ≡ tool_of known.now (option_copied tool.entry) }
{
    match tool {
        Some(name) if has_form(known, name) => Some(name),
        _ => None,
    }
}

fn has_form(known: &[Form<'_>], name: &str) -> bool
    ensures { result ≡ list_any (name_is name.now) known.now }
{
    for form in known {
        if is_name(form.name, name) {
            return true;
        }
    }
    false
}

fn is_name(own: &str, name: &str) -> bool
    ensures { result ≡ bytes_eq own.now name.now }
{
    own == name
}

/// The error of a text that is no forms.
fn wrong_form(alloc: Global, why: FormError<'_>) -> InputError
    ensures { SaysRefused IsNoForms result }
{
    match why {
        FormError::Wrong { line, word } => match harmless(alloc, Kind::Name, word) {
            Ok(word) => wrong_row(alloc, line, word.as_str()),
            Err(AllocError) => InputError::OutOfMemory,
        },
        FormError::OutOfMemory => InputError::OutOfMemory,
    }
}

fn wrong_row(alloc: Global, row: usize, word: &str) -> InputError
    ensures { SaysRefused IsNoForms result }
{
    match format!(in alloc;
        "girzohal: --json-shape {row}: {word}: wanted a form, as --help says\n"
    ) {
        Ok(line) => InputError::Refused(line),
        Err(AllocError) => InputError::OutOfMemory,
    }
}
