// A summary as tables of GitHub's Markdown.
ghost use Rattle.std.specs.Prelude.{◌≡◌, ◌++◌, IfOk, OnOk, map, string_bytes, take};
ghost use Rattle.std.specs.List.{flat_map, sum_by};
ghost use Rattle.ci_formats.specs.Finding.{finding_parts};
ghost use Rattle.finding_summaries.specs.Ranking.{row_parts};
ghost use Rattle.finding_summaries.specs.Markdown.{IsMarkdown, head_end, head_start, left_out};
ghost use Rattle.finding_summaries.specs.Markdown.{markdown_of, more_row, row_text, rows_text, table_head, table_text};

use crate::cells::push_cell;
use crate::ranking::{Row, ranked_files, ranked_rules};
use crate::totals::push_totals;
use ci_formats::Finding;
use itoa::Buffer;
use std::alloc::{AllocError, Global};

/// The rows that a table shows at most, without the one that counts the others.
const MOST: usize = 50;

/// A summary in GitHub's Markdown: the totals, then a table of the files and one of the rules,
/// those with the most findings first. Of each, the first 50 are shown, and the others counted.
///
/// # Errors
///
/// Out of memory.
pub fn markdown_text(alloc: Global, findings: &[Finding]) -> Result<String, AllocError>
    ensures { IfOk result (λ text. IsMarkdown (map finding_parts findings.now)
        (string_bytes text)) }
{
    let files = ranked_files(alloc, findings)?;
    let rules = ranked_rules(alloc, findings)?;
    written(alloc, findings, &files, &rules)
}

/// The text of these rows.
fn written(
    alloc: Global,
    findings: &[Finding],
    files: &[Row<'_>],
    rules: &[Row<'_>],
) -> Result<String, AllocError>
    ensures { IfOk result (λ text. string_bytes text ≡ markdown_of
        (map finding_parts findings.now) (map row_parts files.now) (map row_parts rules.now)) }
{
    if findings.is_empty() {
        return String::from_str(alloc, "no findings\n");
    }
    let mut text = String::new(alloc);
    push_totals(alloc, &mut text, findings)?;
    push_table(&mut text, "File", findings.len(), files)?;
    push_table(&mut text, "Rule", findings.len(), rules)?;
    Ok(text)
}

/// Appends a table of the rows of `all` findings.
fn push_table(out: &mut String, head: &str, all: usize, rows: &[Row<'_>]) -> Result<(), AllocError>
    ensures { OnOk result (string_bytes out.new
        ≡ string_bytes out.old ++ table_text head.now all (map row_parts rows.now)) }
{
    push_head(out, head)?;
    push_rows(out, all, rows)
}

/// Appends the head of a table, after an empty line.
#[tactic(auto, unfolding(crate::specs::Markdown::table_head))]
fn push_head(out: &mut String, head: &str) -> Result<(), AllocError>
    ensures { OnOk result (string_bytes out.new ≡ string_bytes out.old ++ table_head head.now) }
{
    out.push_str(head_start())?;
    out.push_str(head)?;
    out.push_str(head_end())
}

/// The empty line before a table, and its first cell.
#[tactic(auto, unfolding(crate::specs::Markdown::head_start))]
fn head_start() -> &'static str
    ensures { result.now ≡ head_start }
{
    "\n| Findings | "
}

/// The end of the first row of a table, and the row that aligns its columns.
#[tactic(auto, unfolding(crate::specs::Markdown::head_end))]
fn head_end() -> &'static str
    ensures { result.now ≡ head_end }
{
    " |\n| ---: | :--- |\n"
}

/// Appends the first rows, and one that counts the others.
#[tactic(auto, unfolding(crate::specs::Markdown::rows_text))]
fn push_rows(out: &mut String, all: usize, rows: &[Row<'_>]) -> Result<(), AllocError>
    ensures { OnOk result (string_bytes out.new
        ≡ string_bytes out.old ++ rows_text all (map row_parts rows.now)) }
{
    if rows.len() <= MOST {
        return push_each(out, rows);
    }
    let shown = &rows[..MOST];
    push_each(out, shown)?;
    push_more(out, rows.len() - MOST, left(all, shown))
}

/// Appends rows.
fn push_each(out: &mut String, rows: &[Row<'_>]) -> Result<(), AllocError>
    ensures { OnOk result (string_bytes out.new
        ≡ string_bytes out.old ++ flat_map row_text (map row_parts rows.now)) }
{
    for row in rows {
        push_row(out, row)?;
    }
    Ok(())
}

/// Appends a row.
#[tactic(auto, unfolding(crate::specs::Markdown::row_text))]
fn push_row(out: &mut String, row: &Row<'_>) -> Result<(), AllocError>
    ensures { OnOk result (string_bytes out.new
        ≡ string_bytes out.old ++ row_text (row_parts row.now)) }
{
    out.push_str("| ")?;
    out.push_str(Buffer::new().format(row.count.0))?;
    out.push_str(" | ")?;
    push_cell(out, row.name)?;
    out.push_str(" |\n")
}

/// Appends the row that counts the rows that aren't shown, and their findings.
#[tactic(auto, unfolding(crate::specs::Markdown::more_row))]
fn push_more(out: &mut String, count: usize, findings: usize) -> Result<(), AllocError>
    ensures { OnOk result (string_bytes out.new
        ≡ string_bytes out.old ++ more_row count findings) }
{
    out.push_str("| | *and ")?;
    out.push_str(Buffer::new().format(count))?;
    out.push_str(" more with ")?;
    out.push_str(Buffer::new().format(findings))?;
    out.push_str("* |\n")
}

/// How many of the findings aren't in these rows.
fn left(all: usize, shown: &[Row<'_>]) -> usize
    ensures { result ≡ left_out all (map row_parts shown.now) }
{
    let mut left = all;
    for row in shown {
        left = left.saturating_sub(row.count.0);
    }
    left
}
