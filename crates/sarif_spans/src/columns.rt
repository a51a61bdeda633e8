//! Columns of a row.
ghost use Rattle.std.specs.Prelude.{◌≡◌, ◌-◌};
ghost use Rattle.std.specs.Str.{chars, IsCharBoundary};
ghost use Rattle.sarif_spans.specs.Span.{fitting, width_of};

use sarif_log::ColumnKind;

fn width(kind: ColumnKind, c: char) -> usize
    ensures { result ≡ width_of kind c }
{
    match kind {
        ColumnKind::Characters => 1,
        ColumnKind::Utf16 => c.len_utf16(),
    }
}

/// The byte of a row at which a column, from 1, begins: the row's end if it has no such column,
/// and the character's beginning if the column is inside one.
pub(crate) fn column_at(kind: ColumnKind, row: &str, column: usize) -> usize
    ensures value { result ≡ fitting kind (column - 1) (chars row.now) }
    ensures boundary { IsCharBoundary row.now result }
{
    let mut at = 0;
    let mut left = column.saturating_sub(1);
    for c in row.chars() {
        let width = width(kind, c);
        if left < width {
            return at;
        }
        at += c.len_utf8();
        left -= width;
    }
    at
}
