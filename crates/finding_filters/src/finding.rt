// What filters read of a finding.
ghost use Rattle.std.specs.Prelude.{◌≡◌};
ghost use Rattle.finding_filters.specs.Finding.{is_one as is_first_column, last_row as last_row_of};
ghost use Rattle.finding_filters.specs.Finding.{rows_of as rows_in};

use oxc_protocol::Severity;

/// A row and a column, as far as they are known, from 1.
#[derive(Clone, Copy)]
pub struct Spot {
    /// The row.
    pub row: Option<u32>,
    /// The column.
    pub column: Option<u32>,
}

/// What filters read of a finding.
#[derive(Clone, Copy)]
pub struct FindingView<'f> {
    /// The name of its file as [`Root::plain`] gives it; empty if it has none.
    ///
    /// [`Root::plain`]: changed_rows::Root::plain
    pub file: &'f str,
    /// Where it starts.
    pub start: Spot,
    /// Where it ends: just after its last character.
    pub end: Spot,
    /// Its severity.
    pub severity: Severity,
    /// The scope of its code; empty if it has none.
    pub scope: &'f str,
    /// Its code; empty if it has none.
    pub code: &'f str,
    /// Its message.
    pub message: &'f str,
    /// The text of the row where it starts, if it is known.
    pub row_text: Option<&'f str>,
    /// How many reports it is: itself, and the notes of its own after it.
    pub reports: usize,
}

/// The first and the last row that a finding touches, if it has a row. A last row in which it has
/// no character doesn't count.
pub(crate) fn rows_of(start: Spot, end: Spot) -> Option<(u32, u32)>
    ensures { result ≡ rows_in start end }
{
    let first = start.row?;
    if first == 0 {
        None
    } else {
        Some((first, last_row(first, end.row.unwrap_or(first), end.column)))
    }
}

/// The last row, from the last that was given.
fn last_row(first: u32, last: u32, column: Option<u32>) -> u32
    ensures { result ≡ last_row_of first last column }
{
    if first < last && is_one(column) {
        (last - 1).max(first)
    } else {
        last.max(first)
    }
}

fn is_one(column: Option<u32>) -> bool
    ensures { result ≡ is_first_column column }
{
    match column {
        Some(column) => column == 1,
        None => false,
    }
}
