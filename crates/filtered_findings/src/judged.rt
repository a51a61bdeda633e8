// What becomes of a list of findings.
ghost use Rattle.std.specs.Prelude.{◌≡◌, map, length, IfOk};
ghost use Rattle.finding_filters.specs.Baseline.{item_parts};
ghost use Rattle.finding_filters.specs.Finding.{finding_parts};
ghost use Rattle.filtered_findings.specs.Verdicts.{compared as compared_of};
ghost use Rattle.filtered_findings.specs.Verdicts.{entries_of as entries_in, is_late};
ghost use Rattle.filtered_findings.specs.Verdicts.{item_of as item_in, items_of as items_in, twice_in};
ghost use Rattle.filtered_findings.specs.Counts.{gone_of};
ghost use Rattle.filtered_findings.specs.Repeats.{no_repeats as none_repeated};
ghost use Rattle.filtered_findings.specs.Verdicts.{verdict_at, verdicts_from, verdicts_of};

use crate::counts::count;
use crate::repeats::repeats;
use crate::verdicts::{Filters, Verdict};
use finding_filters::{FindingView, Item, class_of, kind_of, known};
use std::alloc::{AllocError, Global};

/// What becomes of findings.
#[derive(Drop)]
pub struct Verdicts {
    /// What becomes of each, in order.
    pub each: Vec<Verdict>,
    /// How many entries of the baseline no finding took.
    pub gone: usize,
}

/// What becomes of each of some findings, by the entries of a baseline too. Without a baseline
/// there are no entries.
///
/// # Errors
///
/// Out of memory.
#[tactic(auto, unfolding(crate::specs::Verdicts::verdicts_of))]
pub fn judge_all(
    alloc: Global,
    filters: &Filters,
    findings: &[FindingView<'_>],
    baseline: &[FindingView<'_>],
) -> Result<Verdicts, AllocError>
    ensures each { IfOk result (λ it. it.each.items ≡ verdicts_of filters.now
        (map finding_parts findings.now) (map finding_parts baseline.now)) }
    ensures gone { IfOk result (λ it. it.gone ≡ gone_of it.each.items (length (entries_in filters.now
        (map finding_parts baseline.now) (twice_in filters.now (map finding_parts baseline.now))))) }
{
    let twice = twice_of(alloc, filters, findings)?;
    let repeated = twice_of(alloc, filters, baseline)?;
    let items = items_of(alloc, filters, findings)?;
    let entries = entries_of(alloc, filters, baseline, &repeated)?;
    let taken = known(alloc, &items, &twice, &entries)?;
    let each = each_of(alloc, filters, findings, &twice, &taken)?;
    let gone = entries
        .len()
        .saturating_sub(count(&each, Verdict::InBaseline));
    Ok(Verdicts { each, gone })
}

/// Which findings are repetitions that are left out.
fn twice_of(
    alloc: Global,
    filters: &Filters,
    findings: &[FindingView<'_>],
) -> Result<Vec<bool>, AllocError>
    ensures { IfOk result (λ flags. flags.items
        ≡ twice_in filters.now (map finding_parts findings.now)) }
{
    if filters.unique {
        Ok(repeats(alloc, findings)?)
    } else {
        Ok(no_repeats(alloc, findings)?)
    }
}

/// No finding is a repetition.
fn no_repeats(alloc: Global, findings: &[FindingView<'_>]) -> Result<Vec<bool>, AllocError>
    ensures { IfOk result (λ flags. flags.items ≡ none_repeated (map finding_parts findings.now)) }
{
    let mut flags = Vec::new(alloc);
    let mut rest = findings;
    while let [_, others @ ..] = rest {
        flags.push(false)?;
        rest = others;
    }
    Ok(flags)
}

/// How a baseline compares findings.
fn items_of(
    alloc: Global,
    filters: &Filters,
    findings: &[FindingView<'_>],
) -> Result<Vec<Item>, AllocError>
    ensures { IfOk result (λ items. map item_parts items.items
        ≡ items_in filters.now (map finding_parts findings.now)) }
{
    let mut items = Vec::new(alloc);
    for finding in findings {
        let late = is_changed(filters, finding);
        items.push(item_of(alloc, filters, late, finding)?)?;
    }
    Ok(items)
}

/// Whether a diff leaves a finding; without a diff none is.
fn is_changed(filters: &Filters, finding: &FindingView<'_>) -> bool
    ensures { result ≡ is_late filters.now.changed (finding_parts finding.now) }
{
    match &filters.changed {
        Some(changed) => changed.leaves(finding),
        None => false,
    }
}

/// The entries that aren't repetitions.
fn entries_of(
    alloc: Global,
    filters: &Filters,
    findings: &[FindingView<'_>],
    repeated: &[bool],
) -> Result<Vec<Item>, AllocError>
    ensures { IfOk result (λ items. map item_parts items.items
        ≡ entries_in filters.now (map finding_parts findings.now) repeated.now) }
{
    let mut items = Vec::new(alloc);
    let mut rest = findings;
    let mut flags = repeated;
    while let [finding, others @ ..] = rest {
        let [flag, more @ ..] = flags else {
            return Ok(items);
        };
        if !*flag {
            items.push(item_of(alloc, filters, false, finding)?)?;
        }
        rest = others;
        flags = more;
    }
    Ok(items)
}

/// How a baseline compares a finding.
fn item_of(
    alloc: Global,
    filters: &Filters,
    late: bool,
    finding: &FindingView<'_>,
) -> Result<Item, AllocError>
    ensures { IfOk result (λ item. item_parts item
        ≡ item_in filters.now late (finding_parts finding.now)) }
{
    let kind = kind_of(alloc, &compared(filters, finding))?;
    let class = match finding.row_text {
        Some(row) => Some(class_of(alloc, kind.as_str(), row)?),
        None => None,
    };
    Ok(Item { kind, class, late })
}

/// What a baseline compares of a finding: the scope only if scopes are compared.
fn compared<'f>(filters: &Filters, finding: &FindingView<'f>) -> FindingView<'f>
    ensures { finding_parts result ≡ compared_of filters.now (finding_parts finding.now) }
{
    if filters.compares_scopes {
        *finding
    } else {
        FindingView {
            scope: "",
            ..*finding
        }
    }
}

/// What becomes of each finding.
fn each_of(
    alloc: Global,
    filters: &Filters,
    findings: &[FindingView<'_>],
    twice: &[bool],
    taken: &[bool],
) -> Result<Vec<Verdict>, AllocError>
    ensures { IfOk result (λ each. each.items
        ≡ verdicts_from filters.now (map finding_parts findings.now) twice.now taken.now) }
{
    let mut each = Vec::new(alloc);
    let mut rest = findings;
    let mut twice = twice;
    let mut taken = taken;
    while let [finding, others @ ..] = rest {
        let [was, earlier @ ..] = twice else {
            return Ok(each);
        };
        let [is, later @ ..] = taken else {
            return Ok(each);
        };
        each.push(verdict(alloc, filters, finding, *was, *is)?)?;
        rest = others;
        twice = earlier;
        taken = later;
    }
    Ok(each)
}

/// What becomes of a finding that is a repetition or in the baseline, or neither.
fn verdict(
    alloc: Global,
    filters: &Filters,
    finding: &FindingView<'_>,
    was: bool,
    is: bool,
) -> Result<Verdict, AllocError>
    ensures { IfOk result (λ it. it ≡ verdict_at filters.now (finding_parts finding.now) was is) }
{
    if was {
        Ok(Verdict::Twice)
    } else if is {
        Ok(Verdict::InBaseline)
    } else {
        Ok(filters.judge(alloc, finding)?)
    }
}
