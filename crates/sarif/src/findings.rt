//! The findings of a run.
ghost use Rattle.std.specs.Prelude.{◌≡◌, ◌++◌, ◌∷◌, [], map, option_map, string_bytes, IfOk, OnOk};
ghost use Rattle.std.specs.Prelude.{flat_map, filter, unwrap_or};
ghost use Rattle.std.specs.List.{list_all};
ghost use Rattle.std.specs.Option.{option_or};
ghost use Rattle.sarif_log.specs.Log.{location_view, log_result_view, message_view};
ghost use Rattle.sarif_log.specs.Log.{notification_view, run_view};
ghost use Rattle.sarif.specs.Rules.{some_text as some_text_in, text_of as text_meant};
ghost use Rattle.sarif.specs.Seen.{borrowed, rule_seen, strings_view};
ghost use Rattle.sarif.specs.Findings.{finding_view, findings_in, found_in};
ghost use Rattle.sarif.specs.Findings.{id_of as id_of_result};
ghost use Rattle.sarif.specs.Findings.{is_accepted as accepted};
ghost use Rattle.sarif.specs.Findings.{is_finding as counts_as_finding};
ghost use Rattle.sarif.specs.Findings.{is_suppressed as suppressed};
ghost use Rattle.sarif.specs.Findings.{level_by as level_meant, level_in as level_of_rule};
ghost use Rattle.sarif.specs.Findings.{noted_by, number_by as number_meant};
ghost use Rattle.sarif.specs.Findings.{spot_at as spot_meant, spot_view};
ghost use Rattle.sarif.specs.Findings.{url_in as url_of_rule};

use crate::rules::{Strings, component_of, rule_in, some_text, text_of};
use sarif_log::{
    BaselineState, Level, Location, LogResult, Message, Notification, ResultKind, Rule, Run,
    Status, Suppression,
};
use std::alloc::{AllocError, Global};

/// A location of a finding.
#[derive(Drop)]
pub struct Spot<'l> {
    /// Where it is.
    pub location: &'l Location,
    /// What is said there.
    pub message: Option<String>,
}

/// What a run found.
#[derive(Drop)]
pub struct Finding<'l> {
    /// Its severity.
    pub level: Level,
    /// The id of its rule; not empty.
    pub number: Option<&'l str>,
    /// A page about its rule; not empty.
    pub url: Option<&'l str>,
    /// Its message; empty if the log has no text for it.
    pub message: String,
    /// Where it is.
    pub locations: Vec<Spot<'l>>,
    /// Related locations.
    pub related: Vec<Spot<'l>>,
}

/// The findings of a run: what the tool says of its own run first, in the run's order, then the
/// results.
///
/// Results are skipped whose suppressions are all accepted, that are absent from this run, that
/// passed, or that didn't apply.
///
/// # Errors
///
/// Out of memory.
#[tactic(auto, unfolding(crate::specs::Findings::findings_in, crate::proofs::Opened::run_of_tool))]
pub fn findings_of<'l>(alloc: Global, run: &'l Run) -> Result<Vec<Finding<'l>>, AllocError>
    ensures { IfOk result (λ found. map finding_view found.items ≡ findings_in (run_view run.now)) }
{
    let mut found = Vec::new(alloc);
    let strings = Strings {
        rule: None,
        component: Some(&run.tool.driver),
    };
    for invocation in &run.invocations {
        push_notes(alloc, &mut found, strings, &invocation.configuration)?;
        push_notes(alloc, &mut found, strings, &invocation.execution)?;
    }
    for it in &run.results {
        if is_finding(it) {
            found.push(found_of(alloc, run, it)?)?;
        }
    }
    Ok(found)
}

/// Appends what these notifications say.
#[tactic(auto, unfolding(crate::specs::Findings::noted_by, crate::proofs::Opened::notification))]
fn push_notes<'l>(
    alloc: Global,
    found: &mut Vec<Finding<'l>>,
    strings: Strings<'l>,
    notes: &'l [Notification],
) -> Result<(), AllocError>
    ensures { OnOk result (map finding_view found.new.items
        ≡ map finding_view found.old.items ++ map (noted_by (strings_view strings.entry))
        (map notification_view notes.now)) }
{
    for note in notes {
        found.push(Finding {
            level: note.level.unwrap_or(Level::Warning),
            number: some_text(note.descriptor.id.as_deref()),
            url: None,
            message: text_or_empty(alloc, strings, &note.message)?,
            locations: spots(alloc, strings, &note.locations)?,
            related: Vec::new(alloc),
        })?;
    }
    Ok(())
}

/// What a result says.
#[tactic(auto, unfolding(crate::specs::Findings::found_in, crate::proofs::Opened::result))]
fn found_of<'l>(alloc: Global, run: &'l Run, it: &'l LogResult) -> Result<Finding<'l>, AllocError>
    ensures { IfOk result (λ found. finding_view found ≡ found_in (run_view run.now)
        (log_result_view it.now)) }
{
    let component = component_of(&run.tool, &it.rule);
    let at = it.rule.index.or(it.rule_index);
    let rule = rule_in(component, at, id_of(it));
    let strings = Strings { rule, component };
    Ok(Finding {
        level: level_by(it.kind, it.level, rule),
        number: number_by(id_of(it), rule),
        url: url_in(rule),
        message: text_or_empty(alloc, strings, &it.message)?,
        locations: spots(alloc, strings, &it.locations)?,
        related: spots(alloc, strings, &it.related)?,
    })
}

/// The id of a result's rule.
#[tactic(auto, unfolding(sarif_log::specs::Log::log_result_view, sarif_log::specs::Log::rule_ref_view))]
fn id_of(found: &LogResult) -> Option<&str>
    ensures { borrowed result ≡ id_of_result (log_result_view found.now) }
{
    match &found.rule_id {
        Some(id) => Some(id.as_str()),
        None => found.rule.id.as_deref(),
    }
}

/// The address of a rule.
#[tactic(auto, unfolding(sarif_log::specs::Log::rule_view))]
fn url_in(rule: Option<&Rule>) -> Option<&str>
    ensures { borrowed result ≡ url_of_rule (rule_seen rule.entry) }
{
    some_text(rule?.help_uri.as_deref())
}

/// The number of a result with this id: the id, else that of its rule.
#[tactic(auto, unfolding(sarif_log::specs::Log::rule_view))]
fn number_by<'l>(id: Option<&'l str>, rule: Option<&'l Rule>) -> Option<&'l str>
    ensures { borrowed result ≡ number_meant (borrowed id.entry) (rule_seen rule.entry) }
{
    match some_text(id) {
        Some(id) => Some(id),
        None => some_text(rule?.id.as_deref()),
    }
}

/// The level of a result: its own, else that of its rule, where its kind is to fail.
#[tactic(auto, unfolding(sarif_log::specs::Log::rule_view))]
fn level_by(kind: Option<ResultKind>, own: Option<Level>, rule: Option<&Rule>) -> Level
    ensures { result ≡ level_meant kind own (level_of_rule (rule_seen rule.entry)) }
{
    match kind {
        None | Some(ResultKind::Fail) => match (own, rule) {
            (Some(level), _) => level,
            (None, Some(rule)) => rule.level.unwrap_or(Level::Warning),
            (None, None) => Level::Warning,
        },
        Some(_) => Level::None,
    }
}

/// Whether a result is a finding: it has no suppression or one that isn't accepted, isn't absent,
/// and neither passed nor didn't apply.
#[tactic(auto, unfolding(crate::specs::Findings::is_finding, crate::proofs::Opened::suppressed))]
pub(crate) fn is_finding(found: &LogResult) -> bool
    ensures { result ≡ counts_as_finding (log_result_view found.now) }
{
    match (found.baseline, found.kind) {
        (Some(BaselineState::Absent), _) => false,
        (_, Some(ResultKind::Pass | ResultKind::NotApplicable)) => false,
        _ => found.suppressions.is_empty() || !all_accepted(&found.suppressions),
    }
}

fn all_accepted(suppressions: &[Suppression]) -> bool
    ensures { result ≡ list_all accepted suppressions.now }
{
    suppressions.iter().all(|it| is_accepted(*it))
}

fn is_accepted(it: Suppression) -> bool
    ensures { result ≡ accepted it }
{
    match it.status {
        None | Some(Status::Accepted) => true,
        Some(Status::UnderReview | Status::Rejected) => false,
    }
}

/// The text of a message; empty if there is none.
fn text_or_empty(
    alloc: Global,
    strings: Strings<'_>,
    message: &Message,
) -> Result<String, AllocError>
    ensures { IfOk result (λ text. string_bytes text
        ≡ unwrap_or (text_meant (strings_view strings.entry) (message_view message.now)) []) }
{
    match text_of(alloc, strings, message)? {
        Some(text) => Ok(text),
        None => Ok(String::new(alloc)),
    }
}

/// These locations, with what is said there.
#[tactic(auto, unfolding(sarif_log::specs::Log::location_view))]
fn spots<'l>(
    alloc: Global,
    strings: Strings<'l>,
    locations: &'l [Location],
) -> Result<Vec<Spot<'l>>, AllocError>
    ensures { IfOk result (λ spots. map spot_view spots.items
        ≡ map (spot_meant (strings_view strings.entry)) (map location_view locations.now)) }
{
    let mut spots = Vec::with_capacity(alloc, locations.len())?;
    for location in locations {
        spots.push(Spot {
            location,
            message: text_of(alloc, strings, &location.message)?,
        })?;
    }
    Ok(spots)
}
