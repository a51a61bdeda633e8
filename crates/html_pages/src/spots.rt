// Findings in the order of their headings.
ghost use Rattle.std.specs.Prelude.{◌≡◌, IfOk, map};
ghost use Rattle.ci_formats.specs.Finding.{finding_parts};
ghost use Rattle.html_pages.specs.Spots.{AreSpots, IsInOrder, rank_of, spot_in, spot_parts};

use ci_formats::Finding;
use finding_summaries::{file_of, rule_of};
use oxc_protocol::Severity;
use std::alloc::{AllocError, Global};

/// A part of the page.
#[derive(Clone, Copy)]
pub(crate) enum Part {
    /// Links to the findings, by severity and rule.
    Rules,
    /// Their drawings, by file.
    Files,
}

/// A finding below its heading. Spots are ordered by rank, by name, and by place.
#[derive(Clone, Copy, PartialEq, Eq, PartialOrd, Ord)]
pub(crate) struct Spot<'a> {
    /// The rank of its severity, from 0 for errors; 0 if severities aren't told apart.
    pub(crate) rank: usize,
    /// The name in the heading: its rule or its file.
    pub(crate) name: &'a str,
    /// Its place in the list of findings, from 0.
    pub(crate) at: usize,
}

/// The findings in the order of their headings.
pub(crate) fn spots_of(
    alloc: Global,
    part: Part,
    findings: &[Finding],
) -> Result<Vec<Spot<'_>>, AllocError>
    ensures { IfOk result (λ spots. AreSpots part (map finding_parts findings.now)
        (map spot_parts spots.items)) }
{
    let mut spots = Vec::with_capacity(alloc, findings.len())?;
    for (at, finding) in findings.iter().enumerate() {
        spots.push(spot_of(part, at, finding))?;
    }
    in_order(spots)
}

/// Spots in their order.
fn in_order(spots: Vec<Spot<'_>>) -> Result<Vec<Spot<'_>>, AllocError>
    ensures { IfOk result (λ sorted. IsInOrder (map spot_parts spots.entry.items)
        (map spot_parts sorted.items)) }
{
    let mut sorted = spots;
    sorted.sort()?;
    Ok(sorted)
}

/// The spot of a finding.
fn spot_of(part: Part, at: usize, finding: &Finding) -> Spot<'_>
    ensures { spot_parts result ≡ spot_in part at (finding_parts finding.now) }
{
    match part {
        Part::Rules => Spot {
            rank: rank_of(finding.severity),
            name: rule_of(finding),
            at,
        },
        Part::Files => Spot {
            rank: 0,
            name: file_of(finding),
            at,
        },
    }
}

/// The rank of a severity.
fn rank_of(severity: Severity) -> usize
    ensures { result ≡ rank_of severity }
{
    match severity {
        Severity::Error => 0,
        Severity::Warning => 1,
        Severity::Advice => 2,
    }
}
