//! A place in one text, as `a.go:26:2` or `a.go:26`.
ghost use Rattle.std.specs.Prelude.{◌≡◌, option_map};
ghost use Rattle.std.specs.Path.{rsplit_once};
ghost use Rattle.json_spots.specs.Spot.{spot_view};
ghost use Rattle.json_forms.specs.Said.{fault_view};
ghost use Rattle.json_forms.specs.Place.{cut_view, figure as figure_of, figure_behind, is_figures};
ghost use Rattle.json_forms.specs.Place.{named as named_so, posn_at as posn_there, posn_both};
ghost use Rattle.json_forms.specs.Place.{posn_fault as posn_wrong, posn_in as posn_of};
ghost use Rattle.json_forms.specs.Place.{posn_row, posn_view, unlike_posn as unlike};

use crate::said::{Fault, are_digits, pick, text_at};
use json_spots::{Path, Said, Spot, Wanted, said_at};
use numerals::number_of;

/// Where something is, as one text says it: rows and columns from 1.
#[derive(Clone, Copy)]
pub struct Posn<'v> {
    pub file: Option<&'v str>,
    pub line: u32,
    pub column: Option<u32>,
}

fn is_digits(text: &str) -> bool
    ensures { result ≡ is_figures text.now }
{
    !text.is_empty() && are_digits(text.as_bytes())
}

/// The texts before and after the last colon.
fn last_cut(text: &str) -> Option<(&str, &str)>
    ensures { option_map cut_view result ≡ rsplit_once 0x3A text.now }
{
    text.rsplit_once(':')
}

/// The text before the last colon, and the digits after it.
fn cut_digits(text: &str) -> Option<(&str, &str)>
    ensures { option_map cut_view result ≡ figure_behind text.now }
{
    let cut = last_cut(text)?;
    if is_digits(cut.1) { Some(cut) } else { None }
}

/// A number below 2^32.
fn figure(digits: &str) -> Option<u32>
    ensures { result ≡ figure_of digits.now }
{
    match number_of(digits) {
        Some(number) if number < 0x1_0000_0000 => Some(number as u32),
        _ => None,
    }
}

fn named(file: &str) -> Option<&str>
    ensures { option_map (λ text. text.now) result ≡ named_so file.now }
{
    if file.is_empty() { None } else { Some(file) }
}

fn in_row<'v>(file: &'v str, line: &str) -> Option<Posn<'v>>
    ensures { option_map posn_view result ≡ posn_row file.now line.now }
{
    Some(Posn {
        file: named(file),
        line: figure(line)?,
        column: None,
    })
}

fn in_column<'v>(file: &'v str, line: &str, column: &str) -> Option<Posn<'v>>
    ensures { option_map posn_view result ≡ posn_both file.now line.now column.now }
{
    let line = figure(line)?;
    Some(Posn {
        file: named(file),
        line,
        column: Some(figure(column)?),
    })
}

/// The place that a text says.
#[tactic(auto, unfolding(crate::specs::Place::posn_in))]
fn posn_in(text: &str) -> Option<Posn<'_>>
    ensures { option_map posn_view result ≡ posn_of text.now }
{
    let last = cut_digits(text)?;
    match cut_digits(last.0) {
        Some(row) => in_column(row.0, row.1, last.1),
        None => in_row(last.0, last.1),
    }
}

/// The place that the text of a part says.
#[tactic(auto, unfolding(crate::specs::Place::posn_at))]
pub(crate) fn posn_at<'f, 'v, 't>(paths: &'f [Path<'f>], spot: &Spot<'v, 't>) -> Option<Posn<'v>>
    ensures { option_map posn_view result ≡ posn_there paths.now (spot_view spot.now) }
{
    posn_in(text_at(paths, spot)?)
}

fn text_unlike<'f>(path: &'f Path<'f>, text: &str) -> Option<Fault<'f>>
    ensures { option_map fault_view result ≡ unlike path.now (posn_of text.now) }
{
    match posn_in(text) {
        Some(_) => None,
        None => Some(Fault {
            path: Some(path),
            wanted: Wanted::Number,
        }),
    }
}

/// Where the text of a part should say a place, and doesn't: it wants a number, or a text.
#[tactic(auto, unfolding(crate::specs::Place::posn_fault))]
pub(crate) fn posn_fault<'f>(paths: &'f [Path<'f>], spot: &Spot<'_, '_>) -> Option<Fault<'f>>
    ensures { option_map fault_view result ≡ posn_wrong paths.now (spot_view spot.now) }
{
    let path = pick(paths, spot)?;
    match said_at(path, spot) {
        Said::Text(text) | Said::Number(text) => text_unlike(path, text),
        Said::Bool(_) | Said::Other => Some(Fault {
            path: Some(path),
            wanted: Wanted::Text,
        }),
        Said::Nothing => None,
    }
}
