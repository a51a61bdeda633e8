// How many findings there are of each severity.
ghost use Rattle.std.specs.Prelude.{◌≡◌, ◌++◌, OnOk, map, string_bytes};
ghost use Rattle.std.specs.List.{count_by};
ghost use Rattle.finding_summaries.specs.Counted.{is_of as is_of_severity};
ghost use Rattle.ci_formats.specs.Finding.{finding_parts};
ghost use Rattle.finding_summaries.specs.Totals.{counts_in, noun, totals};

use crate::counted::{Counts, is_of, summary_line};
use ci_formats::Finding;
use itoa::Buffer;
use oxc_protocol::Severity;
use std::alloc::{AllocError, Global};

/// Appends the line with the totals, as `3 findings: 2 errors, 1 note`, with an LF.
///
/// # Errors
///
/// Out of memory, after a first part was appended.
#[tactic(auto, unfolding(crate::specs::Totals::totals))]
pub fn push_totals(alloc: Global, out: &mut String, findings: &[Finding]) -> Result<(), AllocError>
    ensures { OnOk result (string_bytes out.new
        ≡ string_bytes out.old ++ totals (map finding_parts findings.now)) }
{
    out.push_str(Buffer::new().format(findings.len()))?;
    out.push_str(noun(findings.len()))?;
    out.push_str(summary_line(alloc, counts_of(findings))?.as_str())
}

/// The word after the number of findings.
fn noun(count: usize) -> &'static str
    ensures { result.now ≡ noun count }
{
    if count == 1 {
        " finding: "
    } else {
        " findings: "
    }
}

/// The number of findings of each severity.
fn counts_of(findings: &[Finding]) -> Counts
    ensures { result ≡ counts_in (map finding_parts findings.now) }
{
    Counts {
        errors: count(findings, Severity::Error),
        warnings: count(findings, Severity::Warning),
        notes: count(findings, Severity::Advice),
    }
}

/// The number of findings of a severity.
fn count(findings: &[Finding], wanted: Severity) -> usize
    ensures { result ≡ count_by (λ f. is_of_severity wanted f.severity)
        (map finding_parts findings.now) }
{
    findings
        .iter()
        .filter(|finding| is_of(wanted, finding.severity))
        .count()
}
