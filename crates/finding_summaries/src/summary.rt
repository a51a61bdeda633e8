// A summary for a terminal or a log.
ghost use Rattle.std.specs.Prelude.{◌≡◌, ◌++◌, ◌-◌, IfOk, OnOk, length, decimal, map, string_bytes};
ghost use Rattle.std.specs.List.{flat_map};
ghost use Rattle.ci_formats.specs.Finding.{finding_parts};
ghost use Rattle.finding_summaries.specs.Ranking.{row_parts};
ghost use Rattle.finding_summaries.specs.Summary.{IsSummary, blanks, line_text, section_text};
ghost use Rattle.finding_summaries.specs.Summary.{summary_of, widest as widest_of};

use crate::ranking::{Row, ranked_files, ranked_rules};
use crate::totals::push_totals;
use ci_formats::Finding;
use itoa::Buffer;
use std::alloc::{AllocError, Global};

/// A summary for a terminal or a log: the totals, then the files and the rules, those with the
/// most findings first.
///
/// # Errors
///
/// Out of memory.
pub fn summary_text(alloc: Global, findings: &[Finding]) -> Result<String, AllocError>
    ensures { IfOk result (λ text. IsSummary (map finding_parts findings.now)
        (string_bytes text)) }
{
    let files = ranked_files(alloc, findings)?;
    let rules = ranked_rules(alloc, findings)?;
    written(alloc, findings, &files, &rules)
}

/// The text of these rows.
fn written(
    alloc: Global,
    findings: &[Finding],
    files: &[Row<'_>],
    rules: &[Row<'_>],
) -> Result<String, AllocError>
    ensures { IfOk result (λ text. string_bytes text ≡ summary_of
        (map finding_parts findings.now) (map row_parts files.now) (map row_parts rules.now)) }
{
    if findings.is_empty() {
        return String::from_str(alloc, "no findings\n");
    }
    let mut text = String::new(alloc);
    push_totals(alloc, &mut text, findings)?;
    push_section(&mut text, "By file", files)?;
    push_section(&mut text, "By rule", rules)?;
    Ok(text)
}

/// Appends a title, and a line for each row.
#[tactic(auto, unfolding(crate::specs::Summary::section_text))]
fn push_section(out: &mut String, title: &str, rows: &[Row<'_>]) -> Result<(), AllocError>
    ensures { OnOk result (string_bytes out.new
        ≡ string_bytes out.old ++ section_text title.now (map row_parts rows.now)) }
{
    out.push_str("\n")?;
    out.push_str(title)?;
    out.push_str("\n")?;
    push_lines(out, widest(rows), rows)
}

/// The width of the widest number, in digits.
#[tactic(auto, using(std::proofs::lemmas::List::Sums::fold_push), unfolding(crate::specs::Summary::widest))]
fn widest(rows: &[Row<'_>]) -> usize
    ensures { result ≡ widest_of (map row_parts rows.now) }
{
    let mut most = 0;
    for row in rows {
        most = most.max(Buffer::new().format(row.count.0).len());
    }
    most
}

/// Appends lines, with numbers of this width.
fn push_lines(out: &mut String, width: usize, rows: &[Row<'_>]) -> Result<(), AllocError>
    ensures { OnOk result (string_bytes out.new
        ≡ string_bytes out.old ++ flat_map (line_text width) (map row_parts rows.now)) }
{
    for row in rows {
        push_line(out, width, row)?;
    }
    Ok(())
}

/// Appends a line.
#[tactic(auto, unfolding(crate::specs::Summary::line_text))]
fn push_line(out: &mut String, width: usize, row: &Row<'_>) -> Result<(), AllocError>
    ensures { OnOk result (string_bytes out.new
        ≡ string_bytes out.old ++ line_text width (row_parts row.now)) }
{
    out.push_str("  ")?;
    push_number(out, width, row.count.0)?;
    out.push_str("  ")?;
    out.push_str(row.name)?;
    out.push_str("\n")
}

/// Appends a number after as many blanks as it needs to have this width.
fn push_number(out: &mut String, width: usize, number: usize) -> Result<(), AllocError>
    ensures { OnOk result (string_bytes out.new ≡ string_bytes out.old
        ++ blanks (width - length (decimal number)) ++ decimal number) }
{
    let mut buffer = Buffer::new();
    let digits = buffer.format(number);
    push_blanks(out, width.saturating_sub(digits.len()))?;
    out.push_str(digits)
}

/// Appends blanks.
#[tactic(auto, using(std::proofs::lemmas::List::replicate_more), unfolding(crate::specs::Summary::blanks))]
fn push_blanks(out: &mut String, count: usize) -> Result<(), AllocError>
    ensures { OnOk result (string_bytes out.new ≡ string_bytes out.old ++ blanks count) }
{
    for _ in 0..count {
        out.push(' ')?;
    }
    Ok(())
}
