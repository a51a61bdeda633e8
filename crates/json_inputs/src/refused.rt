//! Why a value isn't read.
ghost use Rattle.std.specs.Prelude.{◌≡◌, ◌++◌, OnOk, codes, string_bytes};
ghost use Rattle.json_spots.specs.Spot.{spot_view};
ghost use Rattle.json_forms.specs.Said.{fault_view};
ghost use Rattle.json_inputs.specs.Told.{IsRefusalLine, head_text, refused_text};
ghost use Rattle.json_inputs.specs.Values.{SaysRefused};

use crate::error::InputError;
use crate::told::{push_head, push_refused};
use harmless::{Kind, harmless};
use json::Value;
use json_forms::{Fault, Forms, Told, first_keys, nearest, tell_form};
use json_spots::{Spot, Wanted};
use std::alloc::{AllocError, Global};

/// How many keys a hint names.
const KEYS: usize = 8;

/// The error of a value that isn't as its form wants it.
pub(crate) fn refusal(
    alloc: Global,
    forms: &Forms<'_>,
    row: Option<usize>,
    value: &Value<'_>,
    spot: &Spot<'_, '_>,
    fault: Fault<'_>,
) -> InputError
    ensures { SaysRefused (IsRefusalLine (record {
      row = row;
      refusal = record { spot = spot_view spot.now; fault = fault_view fault.entry };
    })) result }
{
    match hint(alloc, forms, value, fault.wanted) {
        Ok(hint) => refusal_with(alloc, row, spot, fault, hint.as_str()),
        Err(AllocError) => InputError::OutOfMemory,
    }
}

fn refusal_with(
    alloc: Global,
    row: Option<usize>,
    spot: &Spot<'_, '_>,
    fault: Fault<'_>,
    hint: &str,
) -> InputError
    ensures { SaysRefused (IsRefusalLine (record {
      row = row;
      refusal = record { spot = spot_view spot.now; fault = fault_view fault.entry };
    })) result }
{
    let mut line = String::new(alloc);
    match push_line(alloc, &mut line, row, spot, fault, hint) {
        Ok(()) => InputError::Refused(line),
        Err(AllocError) => InputError::OutOfMemory,
    }
}

fn push_line(
    alloc: Global,
    line: &mut String,
    row: Option<usize>,
    spot: &Spot<'_, '_>,
    fault: Fault<'_>,
    hint: &str,
) -> Result<(), AllocError>
    ensures { OnOk result (string_bytes line.new ≡ string_bytes line.old ++ head_text row
        ++ refused_text (spot_view spot.now) (fault_view fault.entry) ++ hint.now ++ codes "\n") }
{
    push_head(line, row)?;
    push_refused(alloc, line, spot, fault)?;
    line.push_str(hint)?;
    line.push_str("\n")
}

// What follows is a hint, and no clause says what it gives.

/// What may help with a value that has no form or two, sanitized.
fn hint(
    alloc: Global,
    forms: &Forms<'_>,
    value: &Value<'_>,
    wanted: Wanted,
) -> Result<String, AllocError> {
    match wanted {
        Wanted::Form => no_form(alloc, forms, value),
        Wanted::OneForm => two_forms(alloc, forms, value),
        _ => Ok(String::new(alloc)),
    }
}

/// Its first keys, and the form that is nearest.
fn no_form(alloc: Global, forms: &Forms<'_>, value: &Value<'_>) -> Result<String, AllocError> {
    let mut text = String::new(alloc);
    let keys = first_keys(alloc, value)?;
    for (at, key) in keys.iter().take(KEYS).enumerate() {
        text.push_str(if at == 0 { "; its keys: " } else { ", " })?;
        text.push_str(key)?;
    }
    if let Some(form) = nearest(&forms.known, value) {
        text.push_str("; the nearest form: ")?;
        text.push_str(form.name)?;
    }
    harmless(alloc, Kind::Name, text.as_str())
}

fn two_forms(alloc: Global, forms: &Forms<'_>, value: &Value<'_>) -> Result<String, AllocError> {
    match tell_form(forms, value) {
        Told::Two(one, other) => {
            format!(in alloc; "; it is of {} and of {}, see --tool", one.name, other.name)
        }
        _ => Ok(String::new(alloc)),
    }
}
