//! The values of an input.
ghost use Rattle.std.specs.Prelude.{◌≡◌, IfErr, IfOk, None, OnOk, drop, map, option_map};
ghost use Rattle.json.specs.Value.{value_view};
ghost use Rattle.json_forms.specs.Cut.{IsCut, array_text};
ghost use Rattle.json_inputs.specs.Parts.{rows_from};
ghost use Rattle.json_inputs.specs.Values.{AreValues, IsCutOff, IsNoJson, IsWrong, SaysRefused};
ghost use Rattle.json_inputs.specs.Values.{elements_in, elements_of as elements_there};

use crate::error::InputError;
use crate::part::part;
use bytecount::count;
use json::{Error, Scratch, Value};
use json_forms::{Cut, Piece, stop_in};
use std::alloc::{AllocError, Global};

/// The elements of the array of an input's values: `null`, and then the values.
///
/// # Errors
///
/// [`InputError`]: the input ends in a value, or the values are no JSON or nested deeper than 127;
/// with a row and a column. Out of memory may come instead.
pub fn values_of<'t>(
    alloc: Global,
    bytes: &[u8],
    cut: &'t Cut,
    scratch: &'t mut Scratch<Global>,
) -> Result<Vec<Value<'t>>, InputError>
    requires cut { IsCut bytes.now 0 cut.now.pieces.items cut.now.unclosed }
    requires json { cut.now.json.items ≡ array_text bytes.now cut.now.pieces.items }
    ensures values { IfOk result (λ all. AreValues bytes.now (drop 1 (map value_view all.items))) }
    ensures closed { OnOk result (cut.now.unclosed ≡ None) }
    ensures cause { IfErr result (SaysRefused (IsNoJson bytes.now)) }
{
    if let Some(start) = cut.unclosed {
        return Err(cut_off(alloc, bytes, start));
    }
    match elements_of(alloc, &cut.json, scratch) {
        Ok(Some(all)) => Ok(all),
        Ok(None) => Err(wrong(alloc, stop_in(alloc, bytes, cut))),
        Err(AllocError) => Err(InputError::OutOfMemory),
    }
}

/// The elements of the array that bytes are, if they are JSON and an array.
fn elements_of<'t>(
    alloc: Global,
    json: &'t [u8],
    scratch: &'t mut Scratch<Global>,
) -> Result<Option<Vec<Value<'t>>>, AllocError>
    ensures { IfOk result (λ it. option_map (λ all. map value_view all.items) it
        ≡ elements_there json.now) }
{
    match Value::from_slice(alloc, json, scratch) {
        Ok(value) => Ok(elements(value)),
        Err(e) => unread(e),
    }
}

/// None for bytes that aren't JSON; the other errors are those of memory.
fn unread<'t>(e: Error) -> Result<Option<Vec<Value<'t>>>, AllocError>
    ensures none { IfOk result (λ it. option_map (λ all. map value_view all.items) it ≡ None) }
    ensures invalid { OnOk result (e ≡ Error.Invalid) }
{
    match e {
        Error::Invalid => Ok(None),
        Error::OutOfMemory | Error::TooLong | Error::DuplicateKey => Err(AllocError),
    }
}

fn elements<'t>(value: Value<'t>) -> Option<Vec<Value<'t>>>
    ensures { option_map (λ all. map value_view all.items) result
        ≡ elements_in (value_view value.entry) }
{
    match value {
        Value::Array(all) => Some(all),
        _ => None,
    }
}

/// The error of an input that ends in the value that starts at a byte.
fn cut_off(alloc: Global, bytes: &[u8], start: usize) -> InputError
    ensures { SaysRefused IsCutOff result }
{
    let (row, column) = place_of(bytes, start);
    match format!(in alloc;
        "girzohal: line {row}, column {column}: input ends in the JSON that begins here\n"
    ) {
        Ok(line) => InputError::Refused(line),
        Err(AllocError) => InputError::OutOfMemory,
    }
}

/// The row and the column in bytes, both from 1, of a byte. No clause says which.
fn place_of(bytes: &[u8], at: usize) -> (usize, usize) {
    let before = part(bytes, 0, at);
    let column = before
        .iter()
        .rev()
        .take_while(|byte| **byte != b'\n')
        .count();
    (
        count(before, b'\n').saturating_add(1),
        column.saturating_add(1),
    )
}

/// The error of an input that is no JSON at a row and a column.
fn wrong(alloc: Global, stop: (usize, usize)) -> InputError
    ensures { SaysRefused IsWrong result }
{
    let (row, column) = stop;
    match format!(in alloc; "girzohal: line {row}, column {column}: input is no JSON\n") {
        Ok(line) => InputError::Refused(line),
        Err(AllocError) => InputError::OutOfMemory,
    }
}

/// The rows in which the values start, from 1.
///
/// # Errors
///
/// Out of memory.
pub fn rows_of(alloc: Global, bytes: &[u8], pieces: &[Piece]) -> Result<Vec<usize>, AllocError>
    ensures { IfOk result (λ rows. rows.items ≡ rows_from bytes.now 0 1 pieces.now) }
{
    let mut rows = Vec::new(alloc);
    let mut rest = pieces;
    let (mut at, mut row) = (0usize, 1usize);
    while let [piece, more @ ..] = rest {
        row = row.saturating_add(count(part(bytes, at, piece.start), b'\n'));
        at = piece.start;
        if piece.is_value {
            rows.push(row)?;
        }
        rest = more;
    }
    Ok(rows)
}
