//! The marks under a row.
ghost use Rattle.std.specs.Prelude.{◌≡◌, OnOk};
ghost use Rattle.textwrap.specs.Appends.{Appends};
ghost use Rattle.oxc_handlers.specs.Marks.{AreOrdered, IsMark, drawn_mark, mark_line, marker};

use crate::runs::{write_repeated_char, write_spaces};
use crate::setting::Setting;
use oxc_plan::MarkCells;
use std::alloc::AllocError;

/// Appends the marks of a row.
#[tactic(auto, using(crate::proofs::MarksLemmas::marks_one_by_one))]
pub(crate) fn write_marks(
    out: &mut String,
    setting: &Setting<'_>,
    marks: &[MarkCells],
) -> Result<(), AllocError>
    requires { AreOrdered 0 marks.now }
    ensures { OnOk result (Appends out.old out.new (mark_line setting.now marks.now)) }
{
    let mut before = 0;
    for m in marks {
        write_mark(out, setting, before, *m)?;
        before = m.end;
    }
    Ok(())
}

/// Appends a mark, and the spaces before it.
#[tactic(auto, unfolding(crate::specs::Marks::drawn_mark, crate::specs::Theme::styled))]
fn write_mark(
    out: &mut String,
    setting: &Setting<'_>,
    before: usize,
    m: MarkCells,
) -> Result<(), AllocError>
    requires { IsMark before m }
    ensures { OnOk result (Appends out.old out.new (drawn_mark setting.now before m)) }
{
    let line = setting.theme.characters.underline;
    let style = setting.highlight(m.label);
    style.begin(out)?;
    write_spaces(out, m.start - before)?;
    write_repeated_char(out, line, m.bar - m.start)?;
    out.push(marker_of(setting, m.label))?;
    write_repeated_char(out, line, m.end - m.bar - 1)?;
    style.end(out)?;
    Ok(())
}

/// The character at the bar of a label.
#[tactic(auto, unfolding(crate::specs::Marks::marker))]
fn marker_of(setting: &Setting<'_>, label: usize) -> char
    ensures { result ≡ marker setting.now label }
{
    let chars = setting.theme.characters;
    if setting.is_empty_at(label) {
        return chars.uarrow;
    }
    match setting.text_at(label) {
        Some(_) => chars.underbar,
        None => chars.underline,
    }
}
