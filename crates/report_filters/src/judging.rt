// What filters leave of reports.
ghost use Rattle.std.specs.Prelude.{◌≡◌, IfOk, map, string_bytes};
ghost use Rattle.finding_filters.specs.Finding.{finding_parts};
ghost use Rattle.report_filters.specs.Entries.{entry_parts};
ghost use Rattle.report_filters.specs.Filtered.{IsLeft, baseline_of, counts_for};
ghost use Rattle.report_filters.specs.Filtered.{flags_for};

use crate::entries::{entries_of, views_of};
use crate::rules::Rules;
use filtered_findings::{Counts, counts_of, judge_all, stays_each, summary_line};
use finding_filters::FindingView;
use found_reports::{FoundReports, kept};
use std::alloc::{AllocError, Global};

/// What filters say of reports.
#[derive(Drop)]
pub struct Judged {
    /// For each report, whether it stays.
    pub flags: Vec<bool>,
    /// How many findings there were, and how many each filter took.
    pub counts: Counts,
}

/// What filters leave.
#[derive(Drop)]
pub struct Left<'s> {
    /// The reports, and the files that they are on.
    pub found: FoundReports<'s>,
    /// The line about them, with an LF.
    pub line: String,
}

/// What filters say of reports. With `notes`, advice without a code after a finding is its note,
/// and goes with it.
///
/// # Errors
///
/// Out of memory.
#[tactic(auto, unfolding(crate::specs::Filtered::counts_for, crate::specs::Filtered::flags_for))]
pub fn judge(
    alloc: Global,
    rules: &Rules,
    found: &FoundReports<'_>,
    notes: bool,
) -> Result<Judged, AllocError>
    ensures flags { IfOk result (λ it. it.flags.items ≡ flags_for rules.now notes found.now.found) }
    ensures counts { IfOk result (λ it. it.counts ≡ counts_for rules.now notes found.now.found) }
{
    let entries = entries_of(alloc, &rules.root, found, notes, rules.baseline.is_some())?;
    let findings = views_of(alloc, &entries)?;
    let old = old(alloc, rules)?;
    let verdicts = judge_all(alloc, &rules.filters, &findings, &old)?;
    Ok(Judged {
        flags: stays_each(alloc, &findings, &verdicts)?,
        counts: counts_of(&verdicts),
    })
}

/// The findings of the baseline; none without one.
fn old(alloc: Global, rules: &Rules) -> Result<Vec<FindingView<'_>>, AllocError>
    ensures { IfOk result (λ views. map finding_parts views.items ≡ baseline_of rules.entry.now) }
{
    match &rules.baseline {
        Some(entries) => views_of(alloc, entries),
        None => Ok(Vec::new(alloc)),
    }
}

/// The reports that filters leave, unchanged and in order, and the line about them. With `notes`,
/// advice without a code after a finding is its note, and goes with it.
///
/// # Errors
///
/// Out of memory.
pub fn filtered<'s>(
    alloc: Global,
    rules: &Rules,
    found: FoundReports<'s>,
    notes: bool,
) -> Result<Left<'s>, AllocError>
    ensures { IfOk result (λ it. IsLeft rules.now notes found.entry it.found
        (string_bytes it.line)) }
{
    let judged = judge(alloc, rules, &found, notes)?;
    let line = summary_line(alloc, &judged.counts, rules.mode())?;
    let found = kept(alloc, found, &judged.flags)?;
    Ok(Left { found, line })
}
