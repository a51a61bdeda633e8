// The texts of reports for CI systems.
ghost use Rattle.std.specs.Prelude.{◌≡◌, IfOk, map, string_bytes};
ghost use Rattle.std.specs.Option.{option_copied};
ghost use Rattle.ci_formats.specs.Finding.{finding_parts};
ghost use Rattle.found_reports.specs.Listed.{held_in};
ghost use Rattle.indexed_sources.specs.Indexed.{AreTold};
ghost use Rattle.report_texts.specs.CiTexts.{ci_text as ci_text_of, findings_in};
ghost use Rattle.report_texts.specs.CiTexts.{gitlab_text as gitlab_text_of};
ghost use Rattle.report_texts.specs.CiTexts.{shown_finding as finding_shown};
ghost use Rattle.finding_summaries.specs.Markdown.{IsMarkdown};
ghost use Rattle.finding_summaries.specs.Summary.{IsSummary};

use ci_formats::{CiFormat, Finding, findings_of, findings_on, text_in};
use found_reports::FoundReports;
use harmless::Kind;
use indexed_sources::IndexedSources;
use shown_reports::{shown_if, shown_text};
use std::alloc::{AllocError, Global};

/// The findings of reports in a format.
///
/// # Errors
///
/// Out of memory.
#[tactic(auto, unfolding(crate::specs::CiTexts::ci_text))]
pub fn ci_text(
    alloc: Global,
    format: CiFormat,
    raw: bool,
    found: &FoundReports<'_>,
) -> Result<String, AllocError>
    ensures { IfOk result (λ text. string_bytes text ≡ ci_text_of format raw found.now.found) }
{
    let shown = found_findings(alloc, raw, found)?;
    text_in(alloc, format, &shown)
}

/// The same, by the indexes of the sources whose texts the reports' files have: no source is read
/// again.
///
/// # Errors
///
/// Out of memory.
#[tactic(auto, unfolding(crate::specs::CiTexts::ci_text))]
pub fn ci_text_on(
    alloc: Global,
    format: CiFormat,
    raw: bool,
    found: &FoundReports<'_>,
    sources: &IndexedSources,
) -> Result<String, AllocError>
    requires { AreTold (held_in sources.now.entries.items) found.now.files }
    ensures { IfOk result (λ text. string_bytes text ≡ ci_text_of format raw found.now.found) }
{
    let findings = findings_on(alloc, found, sources)?;
    let shown = shown_findings(alloc, raw, &findings)?;
    text_in(alloc, format, &shown)
}

/// The findings of reports as a code quality report of GitLab. The check name of a finding without
/// a code is the tool, if one is named, sanitized as other names are; else `girzohal`.
///
/// # Errors
///
/// Out of memory.
#[tactic(auto, unfolding(crate::specs::CiTexts::gitlab_text))]
pub fn gitlab_text(
    alloc: Global,
    tool: Option<&str>,
    raw: bool,
    found: &FoundReports<'_>,
) -> Result<String, AllocError>
    ensures { IfOk result (λ text. string_bytes text
        ≡ gitlab_text_of (option_copied tool.entry) raw found.now.found) }
{
    let name = shown_if(alloc, raw, Kind::Name, tool)?;
    let shown = found_findings(alloc, raw, found)?;
    ci_formats::gitlab_text(alloc, name.as_deref(), &shown)
}

/// A summary of the findings of reports.
///
/// # Errors
///
/// Out of memory.
pub fn summary_text(
    alloc: Global,
    raw: bool,
    found: &FoundReports<'_>,
) -> Result<String, AllocError>
    ensures { IfOk result (λ text.
        IsSummary (findings_in raw found.now.found) (string_bytes text)) }
{
    let shown = found_findings(alloc, raw, found)?;
    finding_summaries::summary_text(alloc, &shown)
}

/// The same in Markdown.
///
/// # Errors
///
/// Out of memory.
pub fn markdown_text(
    alloc: Global,
    raw: bool,
    found: &FoundReports<'_>,
) -> Result<String, AllocError>
    ensures { IfOk result (λ text.
        IsMarkdown (findings_in raw found.now.found) (string_bytes text)) }
{
    let shown = found_findings(alloc, raw, found)?;
    finding_summaries::markdown_text(alloc, &shown)
}

/// The findings of reports, with their texts sanitized unless `raw`.
///
/// # Errors
///
/// Out of memory.
pub fn found_findings(
    alloc: Global,
    raw: bool,
    found: &FoundReports<'_>,
) -> Result<Vec<Finding>, AllocError>
    ensures { IfOk result (λ shown. map finding_parts shown.items
        ≡ findings_in raw found.now.found) }
{
    let findings = findings_of(alloc, found)?;
    shown_findings(alloc, raw, &findings)
}

/// Findings with their texts sanitized unless `raw`.
#[tactic(auto, unfolding(crate::specs::CiTexts::shown_finding))]
fn shown_findings(
    alloc: Global,
    raw: bool,
    findings: &[Finding],
) -> Result<Vec<Finding>, AllocError>
    ensures { IfOk result (λ shown. map finding_parts shown.items
        ≡ map (finding_shown raw) (map finding_parts findings.now)) }
{
    let mut shown = Vec::with_capacity(alloc, findings.len())?;
    for finding in findings {
        shown.push(Finding {
            name: shown_text(alloc, raw, Kind::Name, finding.name.as_str())?,
            start: finding.start,
            end: finding.end,
            severity: finding.severity,
            code: shown_if(alloc, raw, Kind::Name, finding.code.as_deref())?,
            message: shown_text(alloc, raw, Kind::Prose, finding.message.as_str())?,
        })?;
    }
    Ok(shown)
}
