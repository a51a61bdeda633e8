//! What an element says in its parts.
ghost use Rattle.std.specs.Prelude.{◌≡◌, option_map};
ghost use Rattle.std.specs.List.{list_all};
ghost use Rattle.std.specs.Option.{option_copied};
ghost use Rattle.std.specs.Char.{is_ascii_digit};
ghost use Rattle.json_spots.specs.Spot.{spot_view};
ghost use Rattle.json_spots.specs.Said.{said_view};
ghost use Rattle.json_forms.specs.Said.{fault_view, is_below, number_at as number_there};
ghost use Rattle.json_forms.specs.Said.{number_fault as number_wrong, number_said as number_by};
ghost use Rattle.json_forms.specs.Said.{pick as first_that_says, text_at as text_there};
ghost use Rattle.json_forms.specs.Said.{text_fault as text_wrong, whole as whole_in};

use json_spots::{Path, Said, Spot, Wanted, said_at, says};
use numerals::number_of;

/// Where an element isn't as a row wants it.
#[derive(Clone, Copy)]
pub struct Fault<'f> {
    /// The path from the element to what is wrong; none if it is the element.
    pub path: Option<&'f Path<'f>>,
    pub wanted: Wanted,
}

/// The first of some paths that leads to something.
pub(crate) fn pick<'f>(paths: &'f [Path<'f>], spot: &Spot<'_, '_>) -> Option<&'f Path<'f>>
    ensures { option_copied result ≡ first_that_says paths.now (spot_view spot.now) }
{
    for path in paths {
        if says(said_at(path, spot)) {
            return Some(path);
        }
    }
    None
}

/// A whole number.
#[derive(Clone, Copy)]
pub enum Whole {
    Number(u32),
    /// It is below zero.
    Below,
    /// It is no whole number, or it is 2^32 or more.
    Bad,
}

pub(crate) fn are_digits(bytes: &[u8]) -> bool
    ensures { result ≡ list_all is_ascii_digit bytes.now }
{
    bytes.iter().all(|byte| byte.is_ascii_digit())
}

fn is_negative(bytes: &[u8]) -> bool
    ensures { result ≡ is_below bytes.now }
{
    if bytes.len() > 1 && bytes[0] == b'-' {
        are_digits(&bytes[1..])
    } else {
        false
    }
}

fn read_whole(text: &str) -> Whole
    ensures { result ≡ whole_in text.now }
{
    if is_negative(text.as_bytes()) {
        return Whole::Below;
    }
    match number_of(text) {
        Some(number) if number < 0x1_0000_0000 => Whole::Number(number as u32),
        _ => Whole::Bad,
    }
}

/// Where the text of a part should be, and isn't.
#[tactic(auto, unfolding(crate::specs::Said::text_fault))]
pub(crate) fn text_fault<'f>(paths: &'f [Path<'f>], spot: &Spot<'_, '_>) -> Option<Fault<'f>>
    ensures { option_map fault_view result ≡ text_wrong paths.now (spot_view spot.now) }
{
    let path = pick(paths, spot)?;
    match said_at(path, spot) {
        Said::Bool(_) | Said::Other => Some(Fault {
            path: Some(path),
            wanted: Wanted::Text,
        }),
        Said::Nothing | Said::Text(_) | Said::Number(_) => None,
    }
}

/// The text of a part.
#[tactic(auto, unfolding(crate::specs::Said::text_at))]
pub(crate) fn text_at<'f, 'v, 't>(paths: &'f [Path<'f>], spot: &Spot<'v, 't>) -> Option<&'v str>
    ensures { option_map (λ text. text.now) result ≡ text_there paths.now (spot_view spot.now) }
{
    let path = pick(paths, spot)?;
    match said_at(path, spot) {
        Said::Text(text) | Said::Number(text) => Some(text),
        Said::Nothing | Said::Bool(_) | Said::Other => None,
    }
}

/// Where the number of a part should be, and isn't.
#[tactic(auto, unfolding(crate::specs::Said::number_fault))]
pub(crate) fn number_fault<'f>(paths: &'f [Path<'f>], spot: &Spot<'_, '_>) -> Option<Fault<'f>>
    ensures { option_map fault_view result ≡ number_wrong paths.now (spot_view spot.now) }
{
    let path = pick(paths, spot)?;
    match number_said(said_at(path, spot)) {
        Whole::Bad => Some(Fault {
            path: Some(path),
            wanted: Wanted::Number,
        }),
        Whole::Number(_) | Whole::Below => None,
    }
}

fn number_said(said: Said<'_>) -> Whole
    ensures { result ≡ number_by (said_view said.entry) }
{
    match said {
        Said::Text(text) | Said::Number(text) => read_whole(text),
        Said::Nothing | Said::Bool(_) | Said::Other => Whole::Bad,
    }
}

/// The number of a part.
#[tactic(auto, unfolding(crate::specs::Said::number_at))]
pub(crate) fn number_at<'f>(paths: &'f [Path<'f>], spot: &Spot<'_, '_>) -> Option<u32>
    ensures { result ≡ number_there paths.now (spot_view spot.now) }
{
    let path = pick(paths, spot)?;
    match number_said(said_at(path, spot)) {
        Whole::Number(number) => Some(number),
        Whole::Below | Whole::Bad => None,
    }
}
