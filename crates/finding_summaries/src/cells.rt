// Texts in the cells of a table.
ghost use Rattle.std.specs.Prelude.{◌≡◌, ◌++◌, false, IfOk, OnOk, map, string_bytes};
ghost use Rattle.finding_summaries.specs.Cells.{cell, has_bare_pipe, in_one_line, unescape};

use escapes::{Spelling, push_escaped};
use std::alloc::{AllocError, Global};

/// A text as it is written in a cell of a table of GitHub's Markdown: blanks for the ends of
/// lines, and a backslash before each character that Markdown would read otherwise.
///
/// # Errors
///
/// Out of memory.
#[tactic(auto, using(crate::proofs::CellLemmas::cell_back, crate::proofs::CellLemmas::cell_free))]
pub fn markdown_cell(alloc: Global, text: &str) -> Result<String, AllocError>
    ensures text { IfOk result (λ out. string_bytes out ≡ cell text.now) }
    ensures back { IfOk result (λ out. unescape (string_bytes out) ≡ in_one_line text.now) }
    ensures free { IfOk result (λ out. has_bare_pipe (string_bytes out) ≡ false) }
{
    escaped(alloc, text)
}

/// The same, specified by its text alone.
fn escaped(alloc: Global, text: &str) -> Result<String, AllocError>
    ensures { IfOk result (λ out. string_bytes out ≡ cell text.now) }
{
    let mut out = String::new(alloc);
    push_cell(&mut out, text)?;
    Ok(out)
}

/// Appends a text as it is written in a cell.
pub(crate) fn push_cell(out: &mut String, text: &str) -> Result<(), AllocError>
    ensures { OnOk result (string_bytes out.new ≡ string_bytes out.old ++ cell text.now) }
{
    push_escaped(out, &Cell, text)
}

/// Texts in cells.
struct Cell;

impl Spelling for Cell {
    ghost use Rattle.finding_summaries.specs.Cells.{in_cell};
    ghost use Rattle.finding_summaries.specs.CellAscii.{in_cell_ascii};

    ghost spelled = { λ _. in_cell };

    ghost ascii = { λ _. in_cell_ascii };

    #[tactic(auto, unfolding(crate::specs::Cells::in_cell))]
    fn spelling(&self, byte: u8) -> Option<&'static str> {
        match byte {
            b'\n' => Some(" "),
            b'\r' => Some(" "),
            b'\\' => Some("\\\\"),
            b'|' => Some("\\|"),
            b'<' => Some("\\<"),
            b'>' => Some("\\>"),
            b'&' => Some("\\&"),
            b'*' => Some("\\*"),
            b'_' => Some("\\_"),
            b'~' => Some("\\~"),
            b'[' => Some("\\["),
            b']' => Some("\\]"),
            b'`' => Some("\\`"),
            _ => None,
        }
    }
}
