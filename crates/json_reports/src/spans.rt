//! The span of a place in a text.
ghost use Rattle.std.specs.Prelude.{◌≡◌, ◌≤◌, IfSome, length, option_and_then, option_map};
ghost use Rattle.std.specs.Str.{IsCharBoundary};
ghost use Rattle.oxc_protocol.specs.Source.{Fits};
ghost use Rattle.sarif_spans.specs.Span.{IsSpanOf, floor_of};
ghost use Rattle.json_forms.specs.Place.{place_view};
ghost use Rattle.json_reports.specs.Spans.{boundary_at as boundary_near, by_bytes as bytes_by};
ghost use Rattle.json_reports.specs.Spans.{byte_offsets as offsets_by, clip as clipped};
ghost use Rattle.json_reports.specs.Spans.{column_in as column_by, columns_of as columns_by};
ghost use Rattle.json_reports.specs.Spans.{given_of as given_by, place_in as place_with};
ghost use Rattle.json_reports.specs.Spans.{row_at as row_by, span_in, spot_of as spot_by};
ghost use Rattle.json_reports.specs.Spans.{unit_of as unit_by, with_end as end_with};

use crate::cells::{Cells, cells_of, char_column};
use found_reports::GivenPlace;
use indexed_sources::RowText;
use json_forms::{End, Place, Span, Unit};
use line_reports::{Spot, span_at};
use line_shapes::tables::Unit as Counted;
use line_shapes::tools::Columns;
use std::ops::Range;

/// A number of a row or a column, as far as it fits.
fn clip(number: usize) -> u32
    ensures { result ≡ clipped number }
{
    number.min(u32::MAX as usize) as u32
}

fn clip_some(number: Option<usize>) -> Option<u32>
    ensures { result ≡ option_map clipped number }
{
    match number {
        Some(number) => Some(clip(number)),
        None => None,
    }
}

/// Rows and columns, from 1, as a reported location.
pub(crate) fn given_of(span: Span) -> GivenPlace
    ensures { result ≡ given_by span }
{
    let (line, column) = (clip_some(span.line), clip_some(span.column));
    match span.end {
        Some(end) => GivenPlace {
            line,
            column,
            end_line: Some(clip(end.line)),
            end_column: clip_some(end.column),
        },
        None => GivenPlace {
            line,
            column,
            end_line: None,
            end_column: None,
        },
    }
}

/// The row of a number, from 1, in bytes.
fn row_at(source: &RowText<'_>, line: Option<u32>) -> Option<Range<usize>>
    ensures value { result ≡ row_by source.now.text.now line }
    ensures cut { IfSome result (IsSpanOf source.now.text.now) }
{
    // It is known by this that the text is UTF-8.
    let _ = source.text.as_bytes();
    let place = GivenPlace {
        line,
        column: Some(1),
        end_line: None,
        end_column: Some(u32::MAX),
    };
    let spot = Spot { place, caret: None };
    span_at(source, columns_of(Unit::Characters), spot)
}

/// The column in characters of a column in cells of a row; none where the row isn't there.
fn column_in(
    source: &RowText<'_>,
    cells: Cells,
    line: Option<u32>,
    column: Option<u32>,
) -> Option<u32>
    ensures { result ≡ option_and_then (column_by cells source.now.text.now line) column }
{
    let column = column?;
    let row = row_at(source, line)?;
    Some(char_column(cells, &source.text[row], column))
}

/// The place with columns in characters, where they are in cells.
fn place_in(source: &RowText<'_>, place: GivenPlace, cells: Option<Cells>) -> GivenPlace
    ensures { result ≡ place_with source.now.text.now place cells }
{
    match cells {
        Some(cells) => GivenPlace {
            column: column_in(source, cells, place.line, place.column),
            end_column: column_in(source, cells, place.end_line, place.end_column),
            ..place
        },
        None => place,
    }
}

/// The place with a column for its end: without one it is the end of its row.
fn with_end(end: Option<End>, place: GivenPlace) -> GivenPlace
    ensures { result ≡ end_with end place }
{
    let end_column = match end {
        Some(_) => Some(place.end_column.unwrap_or(u32::MAX)),
        None => None,
    };
    GivenPlace {
        end_column,
        ..place
    }
}

fn spot_of(source: &RowText<'_>, unit: Unit, span: Span) -> Spot
    ensures { result ≡ spot_by unit source.now.text.now span }
{
    let place = place_in(source, given_of(span), cells_of(unit));
    Spot {
        place: with_end(span.end, place),
        caret: None,
    }
}

/// What columns count once those in cells are in characters.
fn unit_of(unit: Unit) -> Counted
    ensures { result ≡ unit_by unit }
{
    match unit {
        Unit::Bytes => Counted::Bytes,
        Unit::Utf16 => Counted::Utf16,
        Unit::Characters | Unit::Cells4 | Unit::Cells8 | Unit::Cells8Utf16 => Counted::Characters,
    }
}

fn columns_of(unit: Unit) -> Columns
    ensures { result ≡ columns_by unit }
{
    Columns {
        unit: unit_of(unit),
        first: 1,
        with_end: false,
    }
}

/// The offsets, if they are in bytes.
fn byte_offsets(unit: Unit, offsets: Option<(usize, usize)>) -> Option<(usize, usize)>
    ensures { result ≡ offsets_by unit offsets }
{
    match unit {
        Unit::Bytes => offsets,
        _ => None,
    }
}

/// The start of the character that an offset is in, or the text's end.
fn boundary_at(text: &str, offset: usize) -> usize
    ensures value { result ≡ boundary_near text.now offset }
    ensures boundary { IsCharBoundary text.now result }
{
    floor(text, offset.min(text.len()))
}

/// The start of the character that an offset within the text is in.
fn floor(text: &str, at: usize) -> usize
    requires { at ≤ length text.now }
    ensures value { result ≡ floor_of text.now at }
    ensures boundary { IsCharBoundary text.now result }
{
    text.floor_char_boundary(at)
}

/// The span between two offsets.
fn by_bytes(text: &str, offsets: (usize, usize)) -> Range<usize>
    ensures value { result ≡ bytes_by text.now offsets }
    ensures cut { IsSpanOf text.now result }
{
    let start = boundary_at(text, offsets.0);
    let end = boundary_at(text, offsets.1);
    start..start.max(end)
}

/// The span of a place, in bytes; none if its row isn't there.
#[tactic(auto, unfolding(crate::specs::Spans::span_in))]
pub(crate) fn span_of(source: &RowText<'_>, place: Place<'_>) -> Option<Range<usize>>
    ensures value { result ≡ span_in source.now.text.now (place_view place.entry) }
    ensures cut { IfSome result (IsSpanOf source.now.text.now) }
    ensures short { Fits source.now.text.now }
{
    match byte_offsets(place.unit, place.offsets) {
        Some(offsets) => Some(by_bytes(source.text, offsets)),
        None => span_at(
            source,
            columns_of(place.unit),
            spot_of(source, place.unit, place.span),
        ),
    }
}
