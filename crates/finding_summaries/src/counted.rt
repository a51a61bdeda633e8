// How many reports there are, and whether one is at or above a level.
ghost use Rattle.std.specs.Prelude.{◌≡◌, ◌++◌, IfOk, OnOk, count_by, string_bytes};
ghost use Rattle.std.specs.List.{list_any};
ghost use Rattle.finding_summaries.specs.Counted.{comma_behind, counts_of as counted_in, ended, is_of};
ghost use Rattle.finding_summaries.specs.Counted.{more_line as more_text, one_reaches as reaches_in};
ghost use Rattle.finding_summaries.specs.Counted.{plural, reaches, summary_line as summary_text};
ghost use Rattle.finding_summaries.specs.Counted.{with_part};

use found_reports::{FoundReport, FoundReports};
use oxc_protocol::Severity;
use std::alloc::{AllocError, Global};

/// The lowest severity at which a report counts as something found.
#[derive(Clone, Copy)]
pub enum Level {
    /// Errors.
    Error,
    /// Errors and warnings.
    Warning,
    /// All reports.
    Advice,
    /// None.
    Never,
}

/// The number of reports of each severity.
#[derive(Clone, Copy)]
pub struct Counts {
    /// Errors.
    pub errors: usize,
    /// Warnings.
    pub warnings: usize,
    /// Advice.
    pub notes: usize,
}

/// The number of reports of each severity.
pub fn counts_of(found: &FoundReports<'_>) -> Counts
    ensures { result ≡ counted_in found.now.found }
{
    let reports = found.reports();
    Counts {
        errors: count(reports, Severity::Error),
        warnings: count(reports, Severity::Warning),
        notes: count(reports, Severity::Advice),
    }
}

/// The number of reports with a severity.
fn count(reports: &[FoundReport], wanted: Severity) -> usize
    ensures { result ≡ count_by (λ it. is_of wanted it.diagnostic.severity) reports.now }
{
    let mut count = 0;
    for report in reports {
        if is_of(wanted, severity(report)) {
            count += 1;
        }
    }
    count
}

/// Whether a severity is this one.
pub(crate) fn is_of(wanted: Severity, severity: Severity) -> bool
    ensures { result ≡ is_of wanted severity }
{
    match (wanted, severity) {
        (Severity::Error, Severity::Error)
        | (Severity::Warning, Severity::Warning)
        | (Severity::Advice, Severity::Advice) => true,
        _ => false,
    }
}

/// Whether one of the reports is at or above a level.
pub fn one_reaches(at: Level, found: &FoundReports<'_>) -> bool
    ensures { result ≡ reaches_in at found.now.found }
{
    any_reaches(at, found.reports())
}

fn any_reaches(at: Level, reports: &[FoundReport]) -> bool
    ensures { result ≡ list_any (λ it. reaches at it.diagnostic.severity) reports.now }
{
    reports.iter().any(|it| reaches(at, severity(it)))
}

/// The severity of a report.
fn severity(report: &FoundReport) -> Severity
    ensures { result ≡ report.now.diagnostic.severity }
{
    report.diagnostic.inner().severity
}

/// Whether a severity is at or above a level.
fn reaches(at: Level, severity: Severity) -> bool
    ensures { result ≡ reaches at severity }
{
    match (at, severity) {
        (Level::Never, _) | (Level::Warning, Severity::Advice) => false,
        (Level::Advice | Level::Warning, _) => true,
        (Level::Error, severity) => is_of(Severity::Error, severity),
    }
}

/// The line with the number of reports, as `3 errors, 1 warning`, with an LF; empty if there is
/// none.
///
/// # Errors
///
/// Out of memory.
#[tactic(auto, unfolding(crate::specs::Counted::summary_line))]
pub fn summary_line(alloc: Global, counts: Counts) -> Result<String, AllocError>
    ensures { IfOk result (λ text. string_bytes text ≡ summary_text counts) }
{
    let mut text = String::new(alloc);
    push_part(&mut text, counts.errors, "error")?;
    push_part(&mut text, counts.warnings, "warning")?;
    push_part(&mut text, counts.notes, "note")?;
    end(&mut text)?;
    Ok(text)
}

/// Appends a number and its word.
#[tactic(auto, unfolding(crate::specs::Counted::with_part))]
fn push_part(text: &mut String, count: usize, word: &str) -> Result<(), AllocError>
    ensures { OnOk result (string_bytes text.new ≡ with_part (string_bytes text.old) count word.now) }
{
    if count == 0 {
        return Ok(());
    }
    push_comma(text)?;
    let plural = plural(count);
    write!(text, "{count} {word}{plural}")
}

/// Appends a comma to a text that isn't empty.
fn push_comma(text: &mut String) -> Result<(), AllocError>
    ensures { OnOk result (string_bytes text.new
        ≡ string_bytes text.old ++ comma_behind (string_bytes text.old)) }
{
    if text.is_empty() {
        Ok(())
    } else {
        text.push_str(", ")
    }
}

/// The plural ending for this number.
fn plural(count: usize) -> &'static str
    ensures { result.now ≡ plural count }
{
    if count == 1 { "" } else { "s" }
}

/// Ends a line that isn't empty.
fn end(text: &mut String) -> Result<(), AllocError>
    ensures { OnOk result (string_bytes text.new ≡ ended (string_bytes text.old)) }
{
    if text.is_empty() {
        Ok(())
    } else {
        text.push_str("\n")
    }
}

/// The line that says how many reports weren't drawn, with an LF; empty if all were.
///
/// # Errors
///
/// Out of memory.
#[tactic(auto, unfolding(crate::specs::Counted::more_line))]
pub fn more_line(alloc: Global, count: usize) -> Result<String, AllocError>
    ensures { IfOk result (λ text. string_bytes text ≡ more_text count) }
{
    if count == 0 {
        return Ok(String::new(alloc));
    }
    format!(in alloc; "and {count} more\n")
}
