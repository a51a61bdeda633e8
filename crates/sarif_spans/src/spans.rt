//! The bytes of a region.
ghost use Rattle.std.specs.Prelude.{◌≡◌, All, IfSome};
ghost use Rattle.std.specs.Str.{IsCharBoundary};
ghost use Rattle.sarif_spans.specs.Rows.{IsRowOf};
ghost use Rattle.sarif_spans.specs.Span.{IsSpanOf, by_rows as rows_meant, in_row as in_row_of};
ghost use Rattle.sarif_spans.specs.Span.{place_of, positive as positive_in, span_of};

use crate::columns::column_at;
use crate::offsets::{by_bytes, by_characters};
use crate::rows::Row;
use sarif_log::{ColumnKind, Region};
use std::ops::Range;

/// The bytes of a region of a text with these rows, as [`crate::rows_of`] gives them.
///
/// The start row counts, else the offset in characters, else the offset in bytes. There is no span
/// without any of these, if the row is past the last one, or if the offset is past the end.
#[tactic(auto, unfolding(crate::specs::Span::span_of))]
pub fn span_in(kind: ColumnKind, text: &str, rows: &[Row], region: Region) -> Option<Range<usize>>
    requires { All (IsRowOf text.now) rows.now }
    ensures value { result ≡ span_of kind text.now rows.now region }
    ensures cut { IfSome result (IsSpanOf text.now) }
{
    if let Some(line) = positive(region.start_line) {
        return by_rows(kind, text, rows, line, region);
    }
    if let Some(offset) = region.char_offset {
        return by_characters(text, offset, region.char_length.unwrap_or(0));
    }
    match region.byte_offset {
        Some(offset) => by_bytes(text, offset, region.byte_length.unwrap_or(0)),
        None => None,
    }
}

/// The number of a row or a column; 0 is none.
fn positive(number: Option<usize>) -> Option<usize>
    ensures { result ≡ positive_in number }
{
    match number {
        Some(0) | None => None,
        Some(n) => Some(n),
    }
}

#[tactic(auto, unfolding(crate::specs::Span::by_rows))]
fn by_rows(
    kind: ColumnKind,
    text: &str,
    rows: &[Row],
    line: usize,
    region: Region,
) -> Option<Range<usize>>
    requires { All (IsRowOf text.now) rows.now }
    ensures value { result ≡ rows_meant kind text.now rows.now line region }
    ensures cut { IfSome result (IsSpanOf text.now) }
{
    let column = positive(region.start_column).unwrap_or(1);
    let start = place(kind, text, rows, line, Some(column))?;
    let end_line = positive(region.end_line).unwrap_or(line);
    let end = place(kind, text, rows, end_line, positive(region.end_column))?;
    Some(start..start.max(end))
}

/// The byte of a row and a column, both from 1; without a column, the row's end.
#[tactic(auto, unfolding(crate::specs::Span::place_of))]
fn place(
    kind: ColumnKind,
    text: &str,
    rows: &[Row],
    line: usize,
    column: Option<usize>,
) -> Option<usize>
    requires { All (IsRowOf text.now) rows.now }
    ensures value { result ≡ place_of kind text.now rows.now line column }
    ensures boundary { IfSome result (IsCharBoundary text.now) }
{
    match rows.get(line.saturating_sub(1)) {
        Some(row) => Some(in_row(kind, text, *row, column)),
        None => None,
    }
}

#[tactic(auto, using(crate::proofs::SpanLemmas::in_whole), unfolding(crate::specs::Span::in_row))]
fn in_row(kind: ColumnKind, text: &str, row: Row, column: Option<usize>) -> usize
    requires { IsRowOf text.now row }
    ensures value { result ≡ in_row_of kind text.now row column }
    ensures boundary { IsCharBoundary text.now result }
{
    match column {
        Some(column) => row.start + column_at(kind, &text[row.start..row.end], column),
        None => row.end,
    }
}
