//! Where a finding is.
ghost use Rattle.std.specs.Prelude.{◌≡◌, ◌≤◌, IfSome, IsTrue, option_map};
ghost use Rattle.json_spots.specs.Spot.{spot_view};
ghost use Rattle.json_forms.specs.Place.{above as counted, asked_end as end_asked};
ghost use Rattle.json_forms.specs.Place.{either as either_of};
ghost use Rattle.json_forms.specs.Place.{end_of, figures_at, is_ordered as ordered_so, offsets_of};
ghost use Rattle.json_forms.specs.Place.{file_with, first_of, place_at, place_view, posn_view};
ghost use Rattle.json_forms.specs.Place.{span_of, with_posn};

use crate::form::{Row, Unit};
use crate::keys::{
    COLUMN, COLUMN0, END, END_COLUMN, END_LINE, END_OFFSET, FILE, LAST, LENGTH, LINE, LINE0,
    OFFSET, POSN,
};
use crate::posn::{Posn, posn_at};
use crate::rows::{is_said, part, unit};
use crate::said::{number_at, text_at};
use json_spots::{Path, Spot};

/// The numbers of an element's place, and how they count.
#[derive(Clone, Copy)]
pub struct Figures {
    pub line: Option<u32>,
    pub column: Option<u32>,
    pub end_line: Option<u32>,
    pub end_column: Option<u32>,
    pub length: Option<u32>,
    pub offset: Option<u32>,
    pub end_offset: Option<u32>,
    /// The first line, and the first column: 0 or 1.
    pub first_line: usize,
    pub first_column: usize,
    /// Whether an end is the last character, and not the one after it.
    pub is_last: bool,
}

/// Where something ends: the row, and the column after it.
#[derive(Clone, Copy)]
pub struct End {
    pub line: usize,
    pub column: Option<usize>,
}

/// Rows and columns, from 1.
#[derive(Clone, Copy)]
pub struct Span {
    pub line: Option<usize>,
    pub column: Option<usize>,
    /// It isn't before the start.
    pub end: Option<End>,
}

/// A place.
#[derive(Clone, Copy)]
pub struct Place<'v> {
    pub file: Option<&'v str>,
    pub span: Span,
    /// Where it starts and ends, from 0. If they are there they count, and not the span.
    pub offsets: Option<(usize, usize)>,
    /// What columns and offsets count.
    pub unit: Unit,
}

/// The number, counted from 1, of one that is counted from `first`; `more` if it is the one before.
fn above(first: usize, more: bool, number: Option<u32>) -> Option<usize>
    ensures value { result ≡ counted first more number }
    ensures bound { IfSome result (λ n. n ≤ 0x100000001) }
{
    let number = number? as usize;
    let number = if more { number + 1 } else { number };
    if number < first {
        None
    } else {
        Some(number - first + 1)
    }
}

/// The end that is asked for.
fn asked_end(figures: Figures, line: usize, column: Option<usize>) -> Option<End>
    requires { IfSome column (λ n. n ≤ 0x100000001) }
    ensures { result ≡ end_asked figures line column }
{
    let end_line = above(figures.first_line, false, figures.end_line);
    let end_column = above(figures.first_column, figures.is_last, figures.end_column);
    match (column, end_column, figures.length) {
        (Some(_), Some(end), _) => Some(End {
            line: end_line.unwrap_or(line),
            column: Some(end),
        }),
        (Some(column), None, Some(length)) => Some(End {
            line,
            column: Some(column + length as usize),
        }),
        _ => Some(End {
            line: end_line?,
            column: None,
        }),
    }
}

/// Whether an end isn't before the start.
fn is_ordered(line: usize, column: Option<usize>, end: End) -> bool
    ensures { result ≡ ordered_so line column end }
{
    if end.line != line {
        return line < end.line;
    }
    match (column, end.column) {
        (Some(column), Some(end)) => column <= end,
        (Some(_), None) => false,
        (None, _) => true,
    }
}

/// The end that is asked for, unless it is before the start.
fn end_at(figures: Figures, line: usize, column: Option<usize>) -> Option<End>
    requires { IfSome column (λ n. n ≤ 0x100000001) }
    ensures value { result ≡ end_of figures line column }
    ensures ordered { IfSome result (λ end. IsTrue (ordered_so line column end)) }
{
    let end = asked_end(figures, line, column)?;
    if is_ordered(line, column, end) {
        Some(end)
    } else {
        None
    }
}

/// The rows and columns that numbers mean.
#[tactic(auto, unfolding(crate::specs::Place::span_of))]
fn read_span(figures: Figures) -> Span
    ensures { result ≡ span_of figures }
{
    let Some(line) = above(figures.first_line, false, figures.line) else {
        return Span {
            line: None,
            column: None,
            end: None,
        };
    };
    let column = above(figures.first_column, false, figures.column);
    Span {
        line: Some(line),
        column,
        end: end_at(figures, line, column),
    }
}

/// Where offsets begin and end.
fn offsets(figures: Figures) -> Option<(usize, usize)>
    ensures { result ≡ offsets_of figures }
{
    let start = figures.offset? as usize;
    match (figures.end_offset, figures.length) {
        (Some(end), _) => Some((start, start.max(end as usize))),
        (None, Some(length)) => Some((start, start + length as usize)),
        (None, None) => Some((start, start)),
    }
}

/// The paths of a part that counts from 1, or of the one that counts from 0.
fn either<'f>(rows: &'f [Row<'f>], key: &str, from_zero: &str) -> &'f [Path<'f>]
    ensures { result.now ≡ either_of rows.now key.now from_zero.now }
{
    let paths = part(rows, key);
    if paths.is_empty() {
        part(rows, from_zero)
    } else {
        paths
    }
}

/// The first number of a part: 0 if its paths are under the key that counts from 0, else 1.
fn first<'f>(rows: &'f [Row<'f>], key: &str, from_zero: &str) -> usize
    ensures { result ≡ first_of rows.now key.now from_zero.now }
{
    if part(rows, key).is_empty() && !part(rows, from_zero).is_empty() {
        0
    } else {
        1
    }
}

#[tactic(auto, unfolding(crate::specs::Place::figures_at))]
fn read_figures<'f>(rows: &'f [Row<'f>], spot: &Spot<'_, '_>) -> Figures
    ensures { result ≡ figures_at rows.now (spot_view spot.now) }
{
    Figures {
        line: number_at(either(rows, LINE, LINE0), spot),
        column: number_at(either(rows, COLUMN, COLUMN0), spot),
        end_line: number_at(part(rows, END_LINE), spot),
        end_column: number_at(part(rows, END_COLUMN), spot),
        length: number_at(part(rows, LENGTH), spot),
        offset: number_at(part(rows, OFFSET), spot),
        end_offset: number_at(part(rows, END_OFFSET), spot),
        first_line: first(rows, LINE, LINE0),
        first_column: first(rows, COLUMN, COLUMN0),
        is_last: is_said(rows, END, LAST),
    }
}

/// The figures, with those of a place in one text if there is one: it counts from 1.
fn figures_by(posn: Option<Posn<'_>>, figures: Figures) -> Figures
    ensures { result ≡ with_posn (option_map posn_view posn.entry) figures }
{
    let Some(posn) = posn else {
        return figures;
    };
    Figures {
        line: Some(posn.line),
        column: posn.column,
        first_line: 1,
        first_column: 1,
        ..figures
    }
}

/// The file of a place in one text if there is one, else the other.
fn file_by<'v>(posn: Option<Posn<'v>>, file: Option<&'v str>) -> Option<&'v str>
    ensures { option_map (λ text. text.now) result
        ≡ file_with (option_map posn_view posn.entry) (option_map (λ text. text.now) file.entry) }
{
    match posn {
        Some(posn) => posn.file,
        None => file,
    }
}

/// The place of an element: the one in one text, if it is there.
#[tactic(auto, unfolding(crate::specs::Place::place_at))]
pub(crate) fn read_place<'f, 'v, 't>(rows: &'f [Row<'f>], spot: &Spot<'v, 't>) -> Place<'v>
    ensures { place_view result ≡ place_at rows.now (spot_view spot.now) }
{
    let posn = posn_at(part(rows, POSN), spot);
    let figures = figures_by(posn, read_figures(rows, spot));
    Place {
        file: file_by(posn, text_at(part(rows, FILE), spot)),
        span: read_span(figures),
        offsets: offsets(figures),
        unit: unit(rows),
    }
}
