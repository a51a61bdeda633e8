//! The names that the reports of a log look up.
ghost use Rattle.std.specs.Prelude.{◌≡◌, ◌++◌, [], flat_map, map, string_bytes, IfOk, OnOk};
ghost use Rattle.sarif_log.specs.Log.{location_view, log_view, names_view, notification_view};
ghost use Rattle.sarif_log.specs.Log.{run_view};
ghost use Rattle.sarif.specs.Asked.{DecideReports, Knows, and_name, and_names, location_names};
ghost use Rattle.sarif.specs.Asked.{names_in, note_names, run_names};

use crate::findings::is_finding;
use crate::resolving::{location_in, resolved};
use sarif_log::{Location, Log, Names, Notification, Run};
use std::alloc::{AllocError, Global};
use std::collections::BTreeSet;

/// The names that [`crate::reports_of`] looks up, each once: sources that agree on these names
/// give the same reports.
///
/// # Errors
///
/// Out of memory.
#[tactic(auto, using(crate::proofs::AskedLemmas::names_decide), unfolding(crate::proofs::Opened::log_names))]
pub fn names_of(alloc: Global, log: &Log) -> Result<Vec<String>, AllocError>
    ensures names { IfOk result (λ names. map string_bytes names.items ≡ names_in
        (log_view log.now)) }
    ensures decide { DecideReports (log_view log.now) }
{
    let mut names = Vec::new(alloc);
    for run in &log.runs {
        push_run_names(alloc, run, &mut names)?;
    }
    each_once(alloc, &names)
}

/// Adds the names of a run: those in what the tool says of its own calls, and those of the results
/// that are findings.
#[tactic(auto, unfolding(sarif_log::specs::Log::run_view))]
fn push_run_names(alloc: Global, run: &Run, names: &mut Vec<String>) -> Result<(), AllocError>
    ensures { OnOk result (map string_bytes names.new.items
        ≡ map string_bytes names.old.items ++ run_names (run_view run.now)) }
{
    for invocation in &run.invocations {
        push_notes_names(alloc, &run.names, &invocation.configuration, names)?;
        push_notes_names(alloc, &run.names, &invocation.execution, names)?;
    }
    for it in &run.results {
        if is_finding(it) {
            push_locations_names(alloc, &run.names, &it.locations, names)?;
            push_locations_names(alloc, &run.names, &it.related, names)?;
        }
    }
    Ok(())
}

/// Adds the names of notifications.
#[tactic(auto, unfolding(sarif_log::specs::Log::notification_view))]
fn push_notes_names(
    alloc: Global,
    those: &Names,
    notes: &[Notification],
    names: &mut Vec<String>,
) -> Result<(), AllocError>
    ensures { OnOk result (map string_bytes names.new.items
        ≡ map string_bytes names.old.items
        ++ flat_map (note_names (names_view those.now)) (map notification_view notes.now)) }
{
    for note in notes {
        push_locations_names(alloc, those, &note.locations, names)?;
    }
    Ok(())
}

/// Adds the names of the files of locations, each with its URI as written.
#[tactic(auto, unfolding(crate::specs::Asked::asked_at, crate::proofs::Opened::located))]
fn push_locations_names(
    alloc: Global,
    those: &Names,
    locations: &[Location],
    names: &mut Vec<String>,
) -> Result<(), AllocError>
    ensures { OnOk result (map string_bytes names.new.items
        ≡ map string_bytes names.old.items
        ++ flat_map (location_names (names_view those.now)) (map location_view locations.now)) }
{
    for location in locations {
        let place = location_in(those, &location.artifact);
        if let Some(uri) = &place.uri {
            let name = resolved(alloc, &those.bases, place.base.as_deref(), uri.as_str())?;
            names.push(name)?;
            names.push(String::from_str(alloc, uri.as_str())?)?;
        }
    }
    Ok(())
}

/// Names, each once, in the order of their first use.
fn each_once(alloc: Global, names: &[String]) -> Result<Vec<String>, AllocError>
    ensures { IfOk result (λ once. map string_bytes once.items
        ≡ and_names [] (map string_bytes names.now)) }
{
    let mut once = Vec::new(alloc);
    let mut known = BTreeSet::new(alloc);
    for name in names {
        push_new(alloc, &mut once, &mut known, name.as_str())?;
    }
    Ok(once)
}

/// Adds a name, unless it is known.
fn push_new<'n>(
    alloc: Global,
    names: &mut Vec<String>,
    known: &mut BTreeSet<&'n str>,
    name: &'n str,
) -> Result<(), AllocError>
    requires { Knows known.old (map string_bytes names.old.items) }
    ensures names { OnOk result (map string_bytes names.new.items
        ≡ and_name (map string_bytes names.old.items) name.entry.now) }
    ensures known { OnOk result (Knows known.new (map string_bytes names.new.items)) }
{
    if known.insert(name)? {
        names.push(String::from_str(alloc, name)?)?;
    }
    Ok(())
}
