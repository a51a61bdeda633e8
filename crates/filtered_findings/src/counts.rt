// How many findings each filter took.
ghost use Rattle.std.specs.Prelude.{◌≡◌, ◌+◌, ◌++◌, map, count_by, replicate, IfOk, OnOk};
ghost use Rattle.std.specs.Prelude.{string_bytes};
ghost use Rattle.finding_filters.specs.Finding.{finding_parts};
ghost use Rattle.filtered_findings.specs.Counts.{comma_after, counts_in, flags_of, gone_text};
ghost use Rattle.filtered_findings.specs.Counts.{gone_words};
ghost use Rattle.filtered_findings.specs.Counts.{head_text, is_verdict, mode_words, parts_of};
ghost use Rattle.filtered_findings.specs.Counts.{parts_text, plural_ending, summary_text, verb_of};
ghost use Rattle.filtered_findings.specs.Counts.{verdict_number, with_part};
ghost use Rattle.filtered_findings.specs.Verdicts.{stays};

use crate::judged::Verdicts;
use crate::verdicts::Verdict;
use finding_filters::{FilterMode, FindingView};
use std::alloc::{AllocError, Global};

/// How many findings there were, and how many each filter took.
#[derive(Clone, Copy)]
pub struct Counts {
    /// All that were read.
    pub read: usize,
    /// Those that stay.
    pub left: usize,
    /// Repetitions.
    pub twice: usize,
    /// Those in the baseline.
    pub in_baseline: usize,
    /// Those that weren't asked for.
    pub not_selected: usize,
    /// Those that the diff doesn't leave.
    pub not_changed: usize,
    /// Entries of the baseline that no finding took.
    pub gone: usize,
}

/// How many findings each filter took.
#[tactic(auto, using(crate::proofs::CountLemmas::all_counted))]
pub fn counts_of(verdicts: &Verdicts) -> Counts
    ensures counts { result ≡ counts_in verdicts.now.each.items verdicts.now.gone }
    ensures all { result.read ≡ result.left + result.twice + result.in_baseline
        + result.not_selected + result.not_changed }
{
    let each = verdicts.each.as_slice();
    Counts {
        read: each.len(),
        left: count(each, Verdict::Stays),
        twice: count(each, Verdict::Twice),
        in_baseline: count(each, Verdict::InBaseline),
        not_selected: count(each, Verdict::NotSelected),
        not_changed: count(each, Verdict::NotChanged),
        gone: verdicts.gone,
    }
}

/// How many findings a filter took, or how many stay.
pub(crate) fn count(each: &[Verdict], wanted: Verdict) -> usize
    ensures { result ≡ count_by (λ it. is_verdict wanted it) each.now }
{
    let mut count = 0;
    for verdict in each {
        if number_of(*verdict) == number_of(wanted) {
            count += 1;
        }
    }
    count
}

fn number_of(verdict: Verdict) -> u8
    ensures { result ≡ verdict_number verdict }
{
    match verdict {
        Verdict::Stays => 0,
        Verdict::Twice => 1,
        Verdict::InBaseline => 2,
        Verdict::NotSelected => 3,
        Verdict::NotChanged => 4,
    }
}

/// For each report of these findings, whether it stays: with its finding.
///
/// # Errors
///
/// Out of memory.
pub fn stays_each(
    alloc: Global,
    findings: &[FindingView<'_>],
    verdicts: &Verdicts,
) -> Result<Vec<bool>, AllocError>
    ensures { IfOk result (λ flags. flags.items
        ≡ flags_of (map finding_parts findings.now) verdicts.now.each.items) }
{
    let mut flags = Vec::new(alloc);
    let mut rest = findings;
    let mut each = verdicts.each.as_slice();
    while let [finding, others @ ..] = rest {
        let [verdict, more @ ..] = each else {
            return Ok(flags);
        };
        push_times(&mut flags, finding.reports, does_stay(*verdict))?;
        rest = others;
        each = more;
    }
    Ok(flags)
}

fn does_stay(verdict: Verdict) -> bool
    ensures { result ≡ stays verdict }
{
    match verdict {
        Verdict::Stays => true,
        Verdict::Twice | Verdict::InBaseline | Verdict::NotSelected | Verdict::NotChanged => false,
    }
}

/// Appends a value `count` times.
fn push_times(flags: &mut Vec<bool>, count: usize, value: bool) -> Result<(), AllocError>
    ensures { OnOk result (flags.new.items ≡ flags.old.items ++ replicate count value) }
{
    let mut left = count;
    while left > 0 {
        flags.push(value)?;
        left -= 1;
    }
    Ok(())
}

/// The line that says how many findings stay and how many each filter took, as
/// `girzohal: 4 of 40 findings: 30 in the baseline, 6 not on added lines; 2 of the baseline are
/// gone`, and an LF. Counts of 0 are left out.
///
/// # Errors
///
/// Out of memory.
#[tactic(auto, unfolding(crate::specs::Counts::summary_text))]
pub fn summary_line(alloc: Global, counts: &Counts, mode: FilterMode) -> Result<String, AllocError>
    ensures { IfOk result (λ text. string_bytes text ≡ summary_text counts.now mode) }
{
    let mut text = String::new(alloc);
    push_head(&mut text, counts.left, counts.read)?;
    let parts = parts(alloc, counts, mode)?;
    push_parts(&mut text, parts.as_str())?;
    push_gone(&mut text, counts.gone)?;
    text.push_str("\n")?;
    Ok(text)
}

/// Appends how many findings stay.
fn push_head(text: &mut String, left: usize, read: usize) -> Result<(), AllocError>
    ensures { OnOk result (string_bytes text.new ≡ string_bytes text.old ++ head_text left read) }
{
    let plural = plural(read);
    write!(text, "girzohal: {left} of {read} finding{plural}")
}

/// Appends what filters took, if they took something.
fn push_parts(text: &mut String, parts: &str) -> Result<(), AllocError>
    ensures { OnOk result (string_bytes text.new ≡ string_bytes text.old ++ parts_text parts.now) }
{
    if parts.is_empty() {
        return Ok(());
    }
    text.push_str(": ")?;
    text.push_str(parts)
}

/// Appends how many entries of the baseline are gone, if some are.
fn push_gone(text: &mut String, gone: usize) -> Result<(), AllocError>
    ensures { OnOk result (string_bytes text.new ≡ string_bytes text.old ++ gone_text gone) }
{
    if gone == 0 {
        return Ok(());
    }
    push_gone_words(text, gone, verb(gone))
}

fn push_gone_words(text: &mut String, gone: usize, verb: &str) -> Result<(), AllocError>
    ensures { OnOk result (string_bytes text.new
        ≡ string_bytes text.old ++ gone_words gone verb.now) }
{
    write!(text, "; {gone} of the baseline {verb} gone")
}

/// What each filter took.
#[tactic(auto, unfolding(crate::specs::Counts::parts_of))]
fn parts(alloc: Global, counts: &Counts, mode: FilterMode) -> Result<String, AllocError>
    ensures { IfOk result (λ text. string_bytes text ≡ parts_of counts.now mode) }
{
    let mut text = String::new(alloc);
    push_part(&mut text, counts.twice, "repeated")?;
    push_part(&mut text, counts.in_baseline, "in the baseline")?;
    push_part(&mut text, counts.not_selected, "not selected")?;
    push_part(&mut text, counts.not_changed, words(mode))?;
    Ok(text)
}

/// Appends a count and its words.
#[tactic(auto, unfolding(crate::specs::Counts::with_part))]
fn push_part(text: &mut String, count: usize, words: &str) -> Result<(), AllocError>
    ensures { OnOk result (string_bytes text.new ≡ with_part (string_bytes text.old) count words.now) }
{
    if count == 0 {
        return Ok(());
    }
    push_comma(text)?;
    write!(text, "{count} {words}")
}

/// Appends a comma to a text that isn't empty.
fn push_comma(text: &mut String) -> Result<(), AllocError>
    ensures { OnOk result (string_bytes text.new
        ≡ string_bytes text.old ++ comma_after (string_bytes text.old)) }
{
    if text.is_empty() {
        Ok(())
    } else {
        text.push_str(", ")
    }
}

/// Where findings aren't that a diff doesn't leave.
fn words(mode: FilterMode) -> &'static str
    ensures { result.now ≡ mode_words mode }
{
    match mode {
        FilterMode::Added => "not on added lines",
        FilterMode::DiffContext => "not on lines of the diff",
        FilterMode::File | FilterMode::NoFilter => "not in changed files",
    }
}

fn plural(count: usize) -> &'static str
    ensures { result.now ≡ plural_ending count }
{
    if count == 1 { "" } else { "s" }
}

#[tactic(auto, unfolding(crate::specs::Counts::verb_of))]
fn verb(count: usize) -> &'static str
    ensures { result.now ≡ verb_of count }
{
    if count == 1 { "is" } else { "are" }
}
