//! A finding, from an element.
ghost use Rattle.std.specs.Prelude.{◌≡◌, ◌++◌, map, option_map, IfOk, OnOk};
ghost use Rattle.json_spots.specs.Spot.{reached_view, spot_view};
ghost use Rattle.json_spots.specs.Said.{said_view};
ghost use Rattle.json_forms.specs.Said.{fault_view};
ghost use Rattle.json_forms.specs.Finding.{beside_at as beside_there, beside_view, besides};
ghost use Rattle.json_forms.specs.Finding.{element, is_among as among_keys};
ghost use Rattle.json_forms.specs.Finding.{fault_in as fault_under, fault_of as wrong_in};
ghost use Rattle.json_forms.specs.Finding.{finding_of, finding_view, is_true as truth_of};
ghost use Rattle.json_forms.specs.Finding.{message_at as message_there, outcome_of, outcome_view};
ghost use Rattle.json_forms.specs.Finding.{primary_at, refused as refused_at};
ghost use Rattle.json_forms.specs.Finding.{sides_of as sides_there, wrong as wrong_there};

use crate::form::{List, Row, Side, SideKind};
use crate::guard::{all_hold, any_holds};
use crate::keys::{CODE, HELP, MESSAGE, NOTE, NUMBERS, POSN, PRIMARY, SCOPE, TEXT, TEXTS, URL};
use crate::place::{Place, read_place};
use crate::posn::posn_fault;
use crate::rows::{constant, is_key, part};
use crate::said::{Fault, number_fault, text_at, text_fault};
use crate::severity::severity;
use json_spots::{Arrival, Path, Reached, Said, Spot, Wanted, each, said_at};
use oxc_protocol::Severity;
use std::alloc::{AllocError, Global};

/// What is said beside a finding.
#[derive(Drop)]
pub enum Beside<'v, 't> {
    Said {
        kind: SideKind,
        place: Place<'v>,
        text: Option<&'v str>,
        /// Whether a label is a primary one.
        primary: bool,
    },
    /// It isn't as its list wants it: left out, and reported.
    Wrong(Spot<'v, 't>, Fault<'v>),
}

/// A finding.
#[derive(Drop)]
pub struct Finding<'v, 't> {
    pub place: Place<'v>,
    pub severity: Severity,
    pub scope: Option<&'v str>,
    pub code: Option<&'v str>,
    pub message: &'v str,
    pub help: Option<&'v str>,
    pub note: Option<&'v str>,
    pub url: Option<&'v str>,
    pub sides: Vec<Beside<'v, 't>>,
}

/// What an element is.
#[derive(Drop)]
pub enum Outcome<'v, 't> {
    /// It doesn't meet the conditions of its list.
    Left,
    /// What the tool says of its run; it is reported.
    Aside(&'v str),
    /// It is null; that is reported.
    Null(Spot<'v, 't>),
    Found(Finding<'v, 't>),
    Refused(Spot<'v, 't>, Fault<'v>),
}

fn is_among(keys: &[&str], key: &str) -> bool
    ensures { result ≡ among_keys (map (λ own. own.now) keys.now) key.now }
{
    for own in keys {
        if is_key(own, key) {
            return true;
        }
    }
    false
}

/// Where the part of a row isn't as it has to be.
#[tactic(auto, unfolding(crate::specs::Finding::number_keys, crate::specs::Finding::text_keys))]
fn fault_in<'f>(row: &'f Row<'f>, spot: &Spot<'_, '_>) -> Option<Fault<'f>>
    ensures { option_map fault_view result ≡ fault_under (spot_view spot.now) row.now }
{
    match row {
        Row::Part(key, paths) => {
            if is_among(&NUMBERS, key) {
                number_fault(paths, spot)
            } else if is_among(&TEXTS, key) {
                text_fault(paths, spot)
            } else if is_key(key, POSN) {
                posn_fault(paths, spot)
            } else {
                None
            }
        }
        _ => None,
    }
}

/// The first row that an element isn't as it wants.
fn fault<'f>(rows: &'f [Row<'f>], spot: &Spot<'_, '_>) -> Option<Fault<'f>>
    ensures { option_map fault_view result ≡ wrong_in rows.now (spot_view spot.now) }
{
    for row in rows {
        if let Some(fault) = fault_in(row, spot) {
            return Some(fault);
        }
    }
    None
}

/// The message, or the code.
fn message_at<'f, 'v, 't>(rows: &'f [Row<'f>], spot: &Spot<'v, 't>) -> Option<&'v str>
    ensures { option_map (λ text. text.now) result ≡ message_there rows.now (spot_view spot.now) }
{
    match text_at(part(rows, MESSAGE), spot) {
        Some(text) => Some(text),
        None => text_at(part(rows, CODE), spot),
    }
}

fn is_true(said: Said<'_>) -> bool
    ensures { result ≡ truth_of (said_view said.entry) }
{
    match said {
        Said::Bool(it) => it,
        _ => false,
    }
}

/// Whether a label is a primary one.
fn is_primary(paths: &[Path<'_>], spot: &Spot<'_, '_>) -> bool
    ensures { result ≡ primary_at paths.now (spot_view spot.now) }
{
    match paths {
        [path, ..] => is_true(said_at(path, spot)),
        [] => false,
    }
}

fn copy_of<'v, 't>(alloc: Global, spot: &Spot<'v, 't>) -> Result<Spot<'v, 't>, AllocError>
    ensures { IfOk result (λ it. spot_view it ≡ spot_view spot.now) }
{
    Ok(Spot {
        here: spot.here,
        outer: Vec::from_slice(alloc, &spot.outer)?,
    })
}

fn push_wrong<'v, 't>(
    alloc: Global,
    spot: &Spot<'v, 't>,
    fault: Fault<'v>,
    found: &mut Vec<Beside<'v, 't>>,
) -> Result<(), AllocError>
    ensures { OnOk result (map beside_view found.new.items ≡ map beside_view found.old.items
        ++ wrong_there (spot_view spot.now) (fault_view fault.entry)) }
{
    found.push(Beside::Wrong(copy_of(alloc, spot)?, fault))?;
    Ok(())
}

/// Adds what an element of a side is.
#[tactic(auto, unfolding(crate::specs::Finding::beside_at))]
fn push_beside<'v, 't>(
    alloc: Global,
    side: &'v Side<'v>,
    reached: &Reached<'v, 't>,
    found: &mut Vec<Beside<'v, 't>>,
) -> Result<(), AllocError>
    ensures { OnOk result (map beside_view found.new.items ≡ map beside_view found.old.items
        ++ beside_there side.now (reached_view reached.now)) }
{
    let spot = &reached.spot;
    let path = None;
    match reached.arrival {
        Arrival::Not(wanted) => return push_wrong(alloc, spot, Fault { path, wanted }, found),
        Arrival::Null => {
            let wanted = Wanted::Value;
            return push_wrong(alloc, spot, Fault { path, wanted }, found);
        }
        Arrival::There => {}
    }
    if !all_hold(&side.rows, spot) {
        return Ok(());
    }
    if let Some(fault) = fault(&side.rows, spot) {
        return push_wrong(alloc, spot, fault, found);
    }
    found.push(Beside::Said {
        kind: side.kind,
        place: read_place(&side.rows, spot),
        text: text_at(part(&side.rows, TEXT), spot),
        primary: is_primary(part(&side.rows, PRIMARY), spot),
    })?;
    Ok(())
}

/// Adds the elements of a side.
fn push_side<'v, 't>(
    alloc: Global,
    side: &'v Side<'v>,
    spot: &Spot<'v, 't>,
    found: &mut Vec<Beside<'v, 't>>,
) -> Result<(), AllocError>
    ensures { OnOk result (map beside_view found.new.items ≡ map beside_view found.old.items
        ++ besides side.now (spot_view spot.now)) }
{
    let mut all = Vec::new(alloc);
    each(alloc, &side.at, copy_of(alloc, spot)?, &mut all)?;
    for reached in &all {
        push_beside(alloc, side, reached, found)?;
    }
    Ok(())
}

fn sides<'v, 't>(
    alloc: Global,
    list: &'v [Side<'v>],
    spot: &Spot<'v, 't>,
) -> Result<Vec<Beside<'v, 't>>, AllocError>
    ensures { IfOk result (λ it. map beside_view it.items
        ≡ sides_there list.now (spot_view spot.now)) }
{
    let mut found = Vec::new(alloc);
    for side in list {
        push_side(alloc, side, spot, &mut found)?;
    }
    Ok(found)
}

/// What an element says.
#[tactic(auto, unfolding(crate::specs::Finding::finding_of))]
fn read_finding<'v, 't>(
    alloc: Global,
    list: &'v List<'v>,
    spot: &Spot<'v, 't>,
    message: &'v str,
) -> Result<Finding<'v, 't>, AllocError>
    ensures { IfOk result (λ it. finding_view it
        ≡ finding_of list.now (spot_view spot.now) message.now) }
{
    let sides = sides(alloc, &list.sides, spot)?;
    let rows = list.rows.as_slice();
    Ok(Finding {
        place: read_place(rows, spot),
        severity: severity(rows, spot),
        scope: constant(rows, SCOPE),
        code: text_at(part(rows, CODE), spot),
        message,
        help: text_at(part(rows, HELP), spot),
        note: text_at(part(rows, NOTE), spot),
        url: text_at(part(rows, URL), spot),
        sides,
    })
}

fn refused<'v, 't>(
    alloc: Global,
    spot: &Spot<'v, 't>,
    fault: Fault<'v>,
) -> Result<Outcome<'v, 't>, AllocError>
    ensures { IfOk result (λ it. outcome_view it
        ≡ refused_at (spot_view spot.now) (fault_view fault.entry)) }
{
    Ok(Outcome::Refused(copy_of(alloc, spot)?, fault))
}

/// What an element that is there is.
fn read_element<'v, 't>(
    alloc: Global,
    list: &'v List<'v>,
    spot: &Spot<'v, 't>,
) -> Result<Outcome<'v, 't>, AllocError>
    ensures { IfOk result (λ it. outcome_view it ≡ element list.now (spot_view spot.now)) }
{
    if !all_hold(&list.rows, spot) {
        return Ok(Outcome::Left);
    }
    if let Some(fault) = fault(&list.rows, spot) {
        return refused(alloc, spot, fault);
    }
    let Some(message) = message_at(&list.rows, spot) else {
        let (path, wanted) = (None, Wanted::Message);
        return refused(alloc, spot, Fault { path, wanted });
    };
    if any_holds(&list.rows, spot) {
        return Ok(Outcome::Aside(message));
    }
    Ok(Outcome::Found(read_finding(alloc, list, spot, message)?))
}

/// What an element of a list is.
///
/// # Errors
///
/// Out of memory.
#[tactic(auto, unfolding(crate::specs::Finding::outcome_of))]
pub(crate) fn read_outcome<'v, 't>(
    alloc: Global,
    list: &'v List<'v>,
    reached: &Reached<'v, 't>,
) -> Result<Outcome<'v, 't>, AllocError>
    ensures { IfOk result (λ it. outcome_view it ≡ outcome_of list.now (reached_view reached.now)) }
{
    let spot = &reached.spot;
    match reached.arrival {
        Arrival::Not(wanted) => refused(alloc, spot, Fault { path: None, wanted }),
        Arrival::Null => Ok(Outcome::Null(copy_of(alloc, spot)?)),
        Arrival::There => read_element(alloc, list, spot),
    }
}
