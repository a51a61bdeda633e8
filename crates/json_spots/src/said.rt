//! What is said at a path.
ghost use Rattle.std.specs.Prelude.{◌≡◌, option_map, slice_get};
ghost use Rattle.json.specs.Value.{value_view};
ghost use Rattle.json_spots.specs.Spot.{by_view, crumb_view, spot_view};
ghost use Rattle.json_spots.specs.Said.{inward as inward_of, lead as lead_of};
ghost use Rattle.json_spots.specs.Said.{name_said as said_by_name, outward as outward_of};
ghost use Rattle.json_spots.specs.Said.{said_at as said_there, said_of as said_by, said_view};
ghost use Rattle.json_spots.specs.Said.{says as says_something, word_of as word_in};

use crate::spot::{By, Crumb, Spot};
use crate::step::{Path, Step};
use json::Value;

/// What is said at a path.
#[derive(Clone, Copy)]
pub enum Said<'v> {
    /// Nothing, or null.
    Nothing,
    Text(&'v str),
    /// A number, as it is written.
    Number(&'v str),
    Bool(bool),
    /// An array or an object.
    Other,
}

/// The value that a name or an index leads to.
#[tactic(auto, unfolding(crate::specs::Said::inward))]
fn inward<'v, 't>(step: Step<'_>, value: &'v Value<'t>) -> Option<&'v Value<'t>>
    ensures { option_map (λ v. value_view v.now) result
        ≡ inward_of step.entry (value_view value.now) }
{
    match step {
        Step::Key(name) => value.get(name),
        Step::Nth(at) => value.at(at),
        Step::Each | Step::Member => None,
    }
}

/// The value to which names and indices lead.
fn lead<'v, 't>(steps: &[Step<'_>], value: &'v Value<'t>) -> Option<&'v Value<'t>>
    ensures { option_map (λ v. value_view v.now) result ≡ lead_of steps.now (value_view value.now) }
{
    let Some((step, rest)) = steps.split_first() else {
        return Some(value);
    };
    lead(rest, inward(*step, value)?)
}

fn said_of<'v, 't>(value: Option<&'v Value<'t>>) -> Said<'v>
    ensures { said_view result ≡ said_by (option_map (λ v. value_view v.now) value.entry) }
{
    match value {
        None | Some(Value::Null) => Said::Nothing,
        Some(Value::String(text)) => Said::Text(text),
        Some(Value::Number(text)) => Said::Number(text),
        Some(Value::Bool(it)) => Said::Bool(*it),
        Some(Value::Array(_) | Value::Object(_)) => Said::Other,
    }
}

fn name_said(by: By<'_>) -> Said<'_>
    ensures { said_view result ≡ said_by_name (by_view by.entry) }
{
    match by {
        By::Name(name) => Said::Text(name),
        By::Root | By::Index(_) => Said::Nothing,
    }
}

fn crumb_at<'v, 't>(crumbs: &[Crumb<'v, 't>], at: usize) -> Option<Crumb<'v, 't>>
    ensures { result ≡ slice_get crumbs.now at }
{
    crumbs.get(at).copied()
}

/// The value that is `out` values out from a spot.
#[tactic(auto, using(crate::proofs::SaidLemmas::outward_zero, crate::proofs::SaidLemmas::outward_more))]
fn outward<'v, 't>(spot: &Spot<'v, 't>, out: usize) -> Option<Crumb<'v, 't>>
    ensures { option_map crumb_view result ≡ outward_of out (spot_view spot.now) }
{
    if out == 0 {
        Some(spot.here)
    } else {
        crumb_at(&spot.outer, out - 1)
    }
}

/// What is said at a path from a spot. A path that leads out of the whole value, or to nothing,
/// says nothing; so does one with `[]` or `{}`.
#[tactic(auto, unfolding(crate::specs::Said::said_at))]
pub fn said_at<'v, 't>(path: &Path<'_>, spot: &Spot<'v, 't>) -> Said<'v>
    ensures { said_view result ≡ said_there path.now (spot_view spot.now) }
{
    let Some(crumb) = outward(spot, path.out) else {
        return Said::Nothing;
    };
    if path.is_name {
        name_said(crumb.by)
    } else {
        said_of(lead(&path.steps, crumb.value))
    }
}

/// Whether something is said: an empty text says nothing.
pub fn says(said: Said<'_>) -> bool
    ensures { result ≡ says_something (said_view said.entry) }
{
    match said {
        Said::Nothing => false,
        Said::Text(text) => !text.is_empty(),
        Said::Number(_) | Said::Bool(_) | Said::Other => true,
    }
}

/// The text of what is said: of a text, a number, `true` or `false`.
pub fn word_of(said: Said<'_>) -> Option<&str>
    ensures { option_map (λ text. text.now) result ≡ word_in (said_view said.entry) }
{
    match said {
        Said::Text(text) | Said::Number(text) => Some(text),
        Said::Bool(true) => Some("true"),
        Said::Bool(false) => Some("false"),
        Said::Nothing | Said::Other => None,
    }
}
