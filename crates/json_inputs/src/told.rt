//! The lines for standard error about values.
ghost use Rattle.std.specs.Prelude.{◌≡◌, ◌++◌, OnOk, map, string_bytes};
ghost use Rattle.std.specs.List.{flat_map};
ghost use Rattle.json_spots.specs.Spot.{spot_view};
ghost use Rattle.json_forms.specs.Finding.{beside_view, finding_view};
ghost use Rattle.json_forms.specs.Read.{aside_view, reading_view};
ghost use Rattle.json_forms.specs.Said.{fault_view};
ghost use Rattle.json_inputs.specs.Told.{aside_line, asides_text, beside_line, finding_lines};
ghost use Rattle.json_inputs.specs.Told.{head_text, refused_text, skipped_line, told_of};

use harmless::{Kind, harmless};
use json_forms::{Aside, Beside, Fault, Finding, Reading, push_refusal};
use json_spots::{Spot, Wanted};
use std::alloc::{AllocError, Global};

/// Appends the beginning of a line, which names the row of a value.
pub(crate) fn push_head(out: &mut String, row: Option<usize>) -> Result<(), AllocError>
    ensures { OnOk result (string_bytes out.new ≡ string_bytes out.old ++ head_text row) }
{
    match row {
        Some(row) => write!(out, "girzohal: line {row}: "),
        None => out.push_str("girzohal: "),
    }
}

/// Appends where a value isn't as its form wants it, sanitized.
pub(crate) fn push_refused(
    alloc: Global,
    out: &mut String,
    spot: &Spot<'_, '_>,
    fault: Fault<'_>,
) -> Result<(), AllocError>
    ensures { OnOk result (string_bytes out.new ≡ string_bytes out.old
        ++ refused_text (spot_view spot.now) (fault_view fault.entry)) }
{
    let mut text = String::new(alloc);
    push_refusal(&mut text, spot, fault)?;
    let text = harmless(alloc, Kind::Name, text.as_str())?;
    out.push_str(text.as_str())
}

/// Appends the line of something that is skipped.
fn push_skipped(
    alloc: Global,
    out: &mut String,
    row: Option<usize>,
    spot: &Spot<'_, '_>,
    fault: Fault<'_>,
) -> Result<(), AllocError>
    ensures { OnOk result (string_bytes out.new ≡ string_bytes out.old
        ++ skipped_line row (spot_view spot.now) (fault_view fault.entry)) }
{
    push_head(out, row)?;
    push_refused(alloc, out, spot, fault)?;
    out.push_str("; skipped\n")
}

/// Appends what a tool says of its run, or that an element is null.
fn push_aside(
    alloc: Global,
    out: &mut String,
    row: Option<usize>,
    aside: &Aside<'_, '_>,
) -> Result<(), AllocError>
    ensures { OnOk result (string_bytes out.new ≡ string_bytes out.old
        ++ aside_line row (aside_view aside.now)) }
{
    match aside {
        Aside::Said(text) => {
            let text = harmless(alloc, Kind::Prose, text)?;
            out.push_str(text.as_str())?;
            out.push_str("\n")
        }
        Aside::Null(spot) => {
            let (path, wanted) = (None, Wanted::Value);
            push_skipped(alloc, out, row, spot, Fault { path, wanted })
        }
    }
}

/// Appends that something beside a finding is wrong, if it is.
fn push_beside(
    alloc: Global,
    out: &mut String,
    row: Option<usize>,
    side: &Beside<'_, '_>,
) -> Result<(), AllocError>
    ensures { OnOk result (string_bytes out.new ≡ string_bytes out.old
        ++ beside_line row (beside_view side.now)) }
{
    match side {
        Beside::Said { .. } => Ok(()),
        Beside::Wrong(spot, fault) => push_skipped(alloc, out, row, spot, *fault),
    }
}

fn push_sides(
    alloc: Global,
    out: &mut String,
    row: Option<usize>,
    mut sides: &[Beside<'_, '_>],
) -> Result<(), AllocError>
    ensures { OnOk result (string_bytes out.new ≡ string_bytes out.old
        ++ flat_map (beside_line row) (map beside_view sides.entry.now)) }
{
    while let [side, rest @ ..] = sides {
        push_beside(alloc, out, row, side)?;
        sides = rest;
    }
    Ok(())
}

fn push_findings(
    alloc: Global,
    out: &mut String,
    row: Option<usize>,
    mut findings: &[Finding<'_, '_>],
) -> Result<(), AllocError>
    ensures { OnOk result (string_bytes out.new ≡ string_bytes out.old
        ++ flat_map (finding_lines row) (map finding_view findings.entry.now)) }
{
    while let [finding, rest @ ..] = findings {
        push_sides(alloc, out, row, &finding.sides)?;
        findings = rest;
    }
    Ok(())
}

fn push_asides(
    alloc: Global,
    out: &mut String,
    row: Option<usize>,
    mut asides: &[Aside<'_, '_>],
) -> Result<(), AllocError>
    ensures { OnOk result (string_bytes out.new ≡ string_bytes out.old
        ++ asides_text row (map aside_view asides.entry.now)) }
{
    while let [aside, rest @ ..] = asides {
        push_aside(alloc, out, row, aside)?;
        asides = rest;
    }
    Ok(())
}

/// Appends the lines about a value that starts in a row, if there are several.
#[tactic(auto, unfolding(crate::specs::Told::told_of))]
pub(crate) fn push_told(
    alloc: Global,
    out: &mut String,
    row: Option<usize>,
    reading: &Reading<'_, '_>,
) -> Result<(), AllocError>
    ensures { OnOk result (string_bytes out.new ≡ string_bytes out.old
        ++ told_of row (reading_view reading.now)) }
{
    push_asides(alloc, out, row, &reading.aside)?;
    push_findings(alloc, out, row, &reading.found)
}
