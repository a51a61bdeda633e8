//! Forms as text.
ghost use Rattle.std.specs.Prelude.{◌≡◌, ◌++◌, ◌∷◌, OnOk, flat_map, string_bytes};
ghost use Rattle.json_forms.specs.Print.{ask_text, form_text, forms_text, guard_text, head_text};
ghost use Rattle.json_forms.specs.Print.{level_text, levels_text, list_text, mark_text, paths_text};
ghost use Rattle.json_forms.specs.Print.{row_text, rows_text, severity_text, side_text, side_word};
ghost use Rattle.json_forms.specs.Print.{words_text};

use crate::form::{Ask, Form, Guard, List, Row, Side, SideKind};
use json_spots::{MarkRow, Path, push_mark_row, push_name, push_path, push_steps};
use oxc_protocol::Severity;
use std::alloc::AllocError;

#[tactic(auto, unfolding(crate::specs::Print::paths_text))]
fn push_paths(out: &mut String, paths: &[Path<'_>]) -> Result<(), AllocError>
    ensures { OnOk result (string_bytes out.new ≡ string_bytes out.old ++ paths_text paths.now) }
{
    let Some((first, rest)) = paths.split_first() else {
        return Ok(());
    };
    push_path(out, first)?;
    for path in rest {
        out.push_str("|")?;
        push_path(out, path)?;
    }
    Ok(())
}

#[tactic(auto, unfolding(crate::specs::Print::words_text))]
fn push_words(out: &mut String, words: &[&str]) -> Result<(), AllocError>
    ensures { OnOk result (string_bytes out.new ≡ string_bytes out.old ++ words_text words.now) }
{
    let Some((first, rest)) = words.split_first() else {
        return Ok(());
    };
    push_name(out, first)?;
    for word in rest {
        out.push_str("|")?;
        push_name(out, word)?;
    }
    Ok(())
}

fn severity_word(severity: Severity) -> &'static str
    ensures { result.now ≡ severity_text severity }
{
    match severity {
        Severity::Error => "error",
        Severity::Warning => "warning",
        Severity::Advice => "advice",
    }
}

fn push_level(out: &mut String, word: &str, severity: Severity) -> Result<(), AllocError>
    ensures { OnOk result (string_bytes out.new
        ≡ string_bytes out.old ++ level_text word.now severity) }
{
    push_name(out, word)?;
    out.push_str(":")?;
    out.push_str(severity_word(severity))
}

#[tactic(auto, unfolding(crate::specs::Print::levels_text))]
fn push_levels(out: &mut String, levels: &[(&str, Severity)]) -> Result<(), AllocError>
    ensures { OnOk result (string_bytes out.new ≡ string_bytes out.old ++ levels_text levels.now) }
{
    let Some((first, rest)) = levels.split_first() else {
        return Ok(());
    };
    push_level(out, first.0, first.1)?;
    for level in rest {
        out.push_str(",")?;
        push_level(out, level.0, level.1)?;
    }
    Ok(())
}

fn ask_word(ask: Ask) -> &'static str
    ensures { result.now ≡ ask_text ask }
{
    match ask {
        Ask::There => "?",
        Ask::Given => "+",
        Ask::Missing => "!",
        Ask::Is => ":",
        Ask::Begins => "~",
        Ask::Ends => "$",
        Ask::BeginsOther => "%",
    }
}

fn push_guard(out: &mut String, guard: &Guard<'_>) -> Result<(), AllocError>
    ensures { OnOk result (string_bytes out.new ≡ string_bytes out.old ++ guard_text guard.now) }
{
    push_path(out, &guard.path)?;
    out.push_str(ask_word(guard.ask))?;
    push_words(out, &guard.words)
}

fn push_row(out: &mut String, row: &Row<'_>) -> Result<(), AllocError>
    ensures { OnOk result (string_bytes out.new ≡ string_bytes out.old ++ row_text row.now) }
{
    match row {
        Row::Part(key, paths) => {
            out.push_str(key)?;
            out.push_str("=")?;
            push_paths(out, paths)
        }
        Row::Only(guard) => {
            out.push_str("only=")?;
            push_guard(out, guard)
        }
        Row::Aside(guard) => {
            out.push_str("aside=")?;
            push_guard(out, guard)
        }
        Row::Level(levels) => {
            out.push_str("level=")?;
            push_levels(out, levels)
        }
        Row::Constant(key, word) => {
            out.push_str(key)?;
            out.push_str("=")?;
            out.push_str(word)
        }
    }
}

/// Appends rows, each after a blank.
#[tactic(auto, unfolding(crate::specs::Print::rows_text))]
fn push_rows(out: &mut String, rows: &[Row<'_>]) -> Result<(), AllocError>
    ensures { OnOk result (string_bytes out.new ≡ string_bytes out.old ++ rows_text rows.now) }
{
    for row in rows {
        out.push_str(" ")?;
        push_row(out, row)?;
    }
    Ok(())
}

fn kind_word(kind: SideKind) -> &'static str
    ensures { result.now ≡ side_word kind }
{
    match kind {
        SideKind::Place => "place=",
        SideKind::Label => "labels=",
        SideKind::Edit => "edits=",
        SideKind::Note => "notes=",
    }
}

fn push_side(out: &mut String, side: &Side<'_>) -> Result<(), AllocError>
    ensures { OnOk result (string_bytes out.new ≡ string_bytes out.old ++ side_text side.now) }
{
    out.push_str(kind_word(side.kind))?;
    push_steps(out, &side.at)?;
    push_rows(out, &side.rows)?;
    out.push_str("\n")
}

#[tactic(auto, unfolding(crate::specs::Print::list_text))]
fn push_list(out: &mut String, list: &List<'_>) -> Result<(), AllocError>
    ensures { OnOk result (string_bytes out.new ≡ string_bytes out.old ++ list_text list.now) }
{
    out.push_str("list=")?;
    push_steps(out, &list.at)?;
    push_rows(out, &list.rows)?;
    out.push_str("\n")?;
    for side in &list.sides {
        push_side(out, side)?;
    }
    Ok(())
}

fn push_mark(out: &mut String, mark: &[MarkRow<'_>]) -> Result<(), AllocError>
    ensures { OnOk result (string_bytes out.new
        ≡ string_bytes out.old ++ flat_map mark_text mark.now) }
{
    for row in mark {
        out.push_str(" mark=")?;
        push_mark_row(out, row)?;
    }
    Ok(())
}

fn push_head(out: &mut String, form: &Form<'_>) -> Result<(), AllocError>
    ensures { OnOk result (string_bytes out.new ≡ string_bytes out.old ++ head_text form.now) }
{
    if form.name.is_empty() {
        return Ok(());
    }
    out.push_str("form=")?;
    out.push_str(form.name)?;
    push_mark(out, &form.mark)?;
    out.push_str("\n")
}

#[tactic(auto, unfolding(crate::specs::Print::form_text))]
fn push_form(out: &mut String, form: &Form<'_>) -> Result<(), AllocError>
    ensures { OnOk result (string_bytes out.new ≡ string_bytes out.old ++ form_text form.now) }
{
    push_head(out, form)?;
    for list in &form.lists {
        push_list(out, list)?;
    }
    Ok(())
}

/// Appends forms, in lines.
///
/// # Errors
///
/// Out of memory.
#[tactic(auto, unfolding(crate::specs::Print::forms_text))]
pub fn push_forms(out: &mut String, forms: &[Form<'_>]) -> Result<(), AllocError>
    ensures { OnOk result (string_bytes out.new ≡ string_bytes out.old ++ forms_text forms.now) }
{
    for form in forms {
        push_form(out, form)?;
    }
    Ok(())
}
