// Findings: what CI systems read of a report, with or without its source.
ghost use Rattle.std.specs.Prelude.{◌≡◌, IfOk};
ghost use Rattle.std.specs.Option.{option_copied};
ghost use Rattle.oxc_span.specs.Views.{text_bytes};

use oxc_protocol::Severity;
use std::alloc::{AllocError, Global};

/// A row and a column, as far as they are known.
#[derive(Clone, Copy)]
pub struct Location {
    /// The row, from 1.
    pub row: Option<u32>,
    /// The column, in characters from 1; of a finding whose source wasn't read, the number that
    /// its tool gave.
    pub column: Option<u32>,
}

/// What a CI system reads of a report.
#[derive(Drop)]
pub struct Finding {
    /// The name of its file; empty if it has none.
    pub name: String,
    /// Where it starts.
    pub start: Location,
    /// Where it ends: just after its last character.
    pub end: Location,
    /// The severity.
    pub severity: Severity,
    /// The code: `scope(number)`, or the one of the two that the report has.
    pub code: Option<String>,
    /// The message.
    pub message: String,
}

/// A copy of an optional text.
pub(crate) fn copy_of(alloc: Global, text: Option<&str>) -> Result<Option<String>, AllocError>
    ensures { IfOk result (λ copy. text_bytes copy ≡ option_copied text.entry) }
{
    match text {
        Some(text) => Ok(Some(String::from_str(alloc, text)?)),
        None => Ok(None),
    }
}
