//! The findings of an input's values.
ghost use Rattle.std.specs.Prelude.{◌≡◌, ◌++◌, IfErr, IfOk, None, OnOk, map, string_bytes};
ghost use Rattle.json.specs.Value.{value_view};
ghost use Rattle.json_forms.specs.Read.{first_refusal, reading_view};
ghost use Rattle.json_forms.specs.Values.{answers};
ghost use Rattle.json_inputs.specs.Input.{IsRefused, IsRefusedAt, first_refused};
ghost use Rattle.json_inputs.specs.Input.{reading_said, rows_rest, said_in, said_view};
ghost use Rattle.json_inputs.specs.Input.{value_said, with_said};
ghost use Rattle.json_inputs.specs.Values.{SaysRefused};

use crate::error::InputError;
use crate::refused::refusal;
use crate::told::push_told;
use json::Value;
use json_forms::{Finding, Forms, ReadError, Reading, read_told};
use std::alloc::{AllocError, Global};

/// What the values of an input say.
#[derive(Drop)]
pub struct Said<'v, 't> {
    pub findings: Vec<Finding<'v, 't>>,
    /// The lines for standard error.
    pub told: String,
}

/// What values say that start in these rows: the findings of each, in order. If there are several
/// values, lines name their rows.
///
/// # Errors
///
/// [`InputError`]: the first refusal, in the order of the values. Out of memory may come instead.
#[tactic(auto, unfolding(crate::specs::Input::said_in, crate::specs::Input::first_refused))]
pub fn read_input<'v, 't>(
    alloc: Global,
    forms: &'v Forms<'v>,
    rows: &[usize],
    values: &'v [Value<'t>],
) -> Result<Said<'v, 't>, InputError>
    ensures said { IfOk result (λ it. said_view it
        ≡ said_in forms.now rows.now (map value_view values.now)) }
    ensures none { OnOk result (first_refused forms.now rows.now (map value_view values.now)
        ≡ None) }
    ensures cause { IfErr result
        (SaysRefused (IsRefused forms.now rows.now (map value_view values.now))) }
{
    let mut said = Said {
        findings: Vec::new(alloc),
        told: String::new(alloc),
    };
    let names_rows = values.len() > 1;
    let (mut rest, mut rows) = (values, rows);
    while let [value, more @ ..] = rest {
        let row = if names_rows {
            rows.first().copied()
        } else {
            None
        };
        push_value(alloc, forms, row, value, &mut said)?;
        rest = more;
        rows = after_first(rows);
    }
    Ok(said)
}

fn after_first(rows: &[usize]) -> &[usize]
    ensures { result.now ≡ rows_rest rows.now }
{
    match rows {
        [_, rest @ ..] => rest,
        [] => rows,
    }
}

/// Adds what a value says.
fn push_value<'v, 't>(
    alloc: Global,
    forms: &'v Forms<'v>,
    row: Option<usize>,
    value: &'v Value<'t>,
    said: &mut Said<'v, 't>,
) -> Result<(), InputError>
    ensures said { OnOk result (said_view said.new
        ≡ with_said (said_view said.old) (value_said forms.now row (value_view value.now))) }
    ensures none { OnOk result (first_refusal (answers forms.now (value_view value.now)) ≡ None) }
    ensures cause { IfErr result
        (SaysRefused (IsRefusedAt forms.now row (value_view value.now))) }
{
    match read_told(alloc, forms, value) {
        Ok(reading) => Ok(keep(alloc, row, reading, said)?),
        Err(ReadError::Refused(spot, fault)) => {
            Err(refusal(alloc, forms, row, value, &spot, fault))
        }
        Err(ReadError::OutOfMemory) => Err(InputError::OutOfMemory),
    }
}

/// Adds a reading.
fn keep<'v, 't>(
    alloc: Global,
    row: Option<usize>,
    reading: Reading<'v, 't>,
    said: &mut Said<'v, 't>,
) -> Result<(), AllocError>
    ensures { OnOk result (said_view said.new
        ≡ with_said (said_view said.old) (reading_said row (reading_view reading.entry))) }
{
    push_told(alloc, &mut said.told, row, &reading)?;
    let mut found = reading.found;
    said.findings.append(&mut found)
}
