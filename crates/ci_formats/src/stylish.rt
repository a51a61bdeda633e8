// A table for people.
ghost use Rattle.std.specs.Prelude.{◌≡◌, ◌++◌, IfOk, OnOk, map, string_bytes};
ghost use Rattle.std.specs.List.{count_by, flat_map};
ghost use Rattle.ci_formats.specs.Files.{names_of as names_in};
ghost use Rattle.ci_formats.specs.Finding.{finding_parts};
ghost use Rattle.ci_formats.specs.Stylish.{blanks, code_cell, counted as counted_nouns, ending};
ghost use Rattle.ci_formats.specs.Stylish.{file_text, is_error, level_cell};
ghost use Rattle.ci_formats.specs.Stylish.{level_word as word_of_level, measured as measured_by};
ghost use Rattle.ci_formats.specs.Stylish.{place_cells, pointless as without_point, row_text};
ghost use Rattle.ci_formats.specs.Stylish.{stylish_of, table_text, widest as widest_of};

use crate::files::{by_file, names_of, own};
use crate::finding::Finding;
use escapes::without_last;
use itoa::Buffer;
use oxc_protocol::Severity;
use std::alloc::{AllocError, Global};
use textwrap::core_::display_width;

/// A column of the table.
#[derive(Clone, Copy)]
pub enum Measure {
    /// The row.
    Row,
    /// The column.
    Column,
    /// The severity.
    Level,
    /// The message.
    Message,
}

/// The widths of the columns of a file's table, in cells.
#[derive(Clone, Copy)]
pub struct Widths {
    pub row: usize,
    pub column: usize,
    pub level: usize,
    pub message: usize,
}

/// A table for people: each file's name, its findings in columns below it, and an empty line; at
/// the end their number. Nothing if there is no finding.
///
/// # Errors
///
/// Out of memory.
#[tactic(auto, unfolding(crate::specs::Stylish::stylish_of))]
pub fn stylish_text(alloc: Global, findings: &[Finding]) -> Result<String, AllocError>
    ensures { IfOk result (λ text. string_bytes text
        ≡ stylish_of (map finding_parts findings.now)) }
{
    let mut text = String::new(alloc);
    push_files(alloc, &mut text, findings)?;
    push_ending(&mut text, findings)?;
    Ok(text)
}

/// Appends the table of each file.
fn push_files(alloc: Global, out: &mut String, findings: &[Finding]) -> Result<(), AllocError>
    ensures { OnOk result (string_bytes out.new ≡ string_bytes out.old
        ++ flat_map (file_text (map finding_parts findings.now))
        (names_in (map finding_parts findings.now))) }
{
    let names = names_of(alloc, findings)?;
    let files = by_file(alloc, findings)?;
    for name in &names {
        push_file(out, name, own(&files, name))?;
    }
    Ok(())
}

/// Appends a file's name and its table.
#[tactic(auto, unfolding(crate::specs::Stylish::table_text, crate::specs::Stylish::rows_text))]
fn push_file(out: &mut String, name: &str, own: &[&Finding]) -> Result<(), AllocError>
    ensures { OnOk result (string_bytes out.new ≡ string_bytes out.old
        ++ table_text name.now (map (λ it. finding_parts it.now) own.now)) }
{
    let widths = Widths {
        row: widest(own, Measure::Row),
        column: widest(own, Measure::Column),
        level: widest(own, Measure::Level),
        message: widest(own, Measure::Message),
    };
    out.push_str(name)?;
    out.push_str("\n")?;
    for finding in own {
        push_row(out, widths, finding)?;
    }
    out.push_str("\n")
}

/// The width of the widest cell of a column.
#[tactic(auto, using(std::proofs::lemmas::List::Sums::fold_push), unfolding(crate::specs::Stylish::widest))]
fn widest(findings: &[&Finding], measure: Measure) -> usize
    ensures { result ≡ widest_of measure (map (λ it. finding_parts it.now) findings.now) }
{
    let mut most = 0;
    for finding in findings {
        most = most.max(measured(finding, measure));
    }
    most
}

/// The width of a cell of a finding.
fn measured(finding: &Finding, measure: Measure) -> usize
    ensures { result ≡ measured_by measure (finding_parts finding.now) }
{
    match measure {
        Measure::Row => Buffer::new().format(finding.start.row.unwrap_or(0)).len(),
        Measure::Column => Buffer::new()
            .format(finding.start.column.unwrap_or(0))
            .len(),
        Measure::Level => level_word(finding.severity).len(),
        Measure::Message => display_width(pointless(finding.message.as_str())),
    }
}

/// Appends a finding's row.
#[tactic(auto, unfolding(crate::specs::Stylish::row_text))]
fn push_row(out: &mut String, widths: Widths, finding: &Finding) -> Result<(), AllocError>
    ensures { OnOk result (string_bytes out.new
        ≡ string_bytes out.old ++ row_text widths (finding_parts finding.now)) }
{
    out.push_str("  ")?;
    push_place(out, widths, finding)?;
    out.push_str("  ")?;
    push_level(out, widths, finding)?;
    out.push_str("  ")?;
    out.push_str(pointless(finding.message.as_str()))?;
    push_code(out, widths, finding)?;
    out.push_str("\n")
}

/// Appends the location of a finding.
#[tactic(auto, unfolding(crate::specs::Stylish::place_cells))]
fn push_place(out: &mut String, widths: Widths, finding: &Finding) -> Result<(), AllocError>
    ensures { OnOk result (string_bytes out.new
        ≡ string_bytes out.old ++ place_cells widths (finding_parts finding.now)) }
{
    push_blanks(
        out,
        widths.row.saturating_sub(measured(finding, Measure::Row)),
    )?;
    out.push_str(Buffer::new().format(finding.start.row.unwrap_or(0)))?;
    out.push_str(":")?;
    out.push_str(Buffer::new().format(finding.start.column.unwrap_or(0)))?;
    push_blanks(
        out,
        widths
            .column
            .saturating_sub(measured(finding, Measure::Column)),
    )
}

/// Appends the severity of a finding.
#[tactic(auto, unfolding(crate::specs::Stylish::level_cell))]
fn push_level(out: &mut String, widths: Widths, finding: &Finding) -> Result<(), AllocError>
    ensures { OnOk result (string_bytes out.new
        ≡ string_bytes out.old ++ level_cell widths (finding_parts finding.now)) }
{
    out.push_str(level_word(finding.severity))?;
    push_blanks(
        out,
        widths
            .level
            .saturating_sub(measured(finding, Measure::Level)),
    )
}

/// Appends the code, if there is one, after the message's column.
fn push_code(out: &mut String, widths: Widths, finding: &Finding) -> Result<(), AllocError>
    ensures { OnOk result (string_bytes out.new ≡ string_bytes out.old
        ++ code_cell widths (finding_parts finding.now) (finding_parts finding.now).code) }
{
    let Some(code) = finding.code.as_deref() else {
        return Ok(());
    };
    let room = widths
        .message
        .saturating_sub(measured(finding, Measure::Message));
    push_blanks(out, room)?;
    out.push_str("  ")?;
    out.push_str(code)
}

/// Appends blanks.
#[tactic(auto, using(std::proofs::lemmas::List::replicate_more), unfolding(crate::specs::Stylish::blanks))]
fn push_blanks(out: &mut String, count: usize) -> Result<(), AllocError>
    ensures { OnOk result (string_bytes out.new ≡ string_bytes out.old ++ blanks count) }
{
    for _ in 0..count {
        out.push(' ')?;
    }
    Ok(())
}

/// A message without a period at its end.
fn pointless(message: &str) -> &str
    ensures { result.now ≡ without_point message.now }
{
    without_last(message, '.').unwrap_or(message)
}

/// The word for a severity.
fn level_word(severity: Severity) -> &'static str
    ensures { result.now ≡ word_of_level severity }
{
    match severity {
        Severity::Error => "error",
        Severity::Warning => "warning",
        Severity::Advice => "advice",
    }
}

/// Appends the number of findings and how many of them are errors, if there are any.
#[tactic(auto, unfolding(crate::specs::Stylish::summary, crate::specs::Stylish::shares))]
fn push_ending(out: &mut String, findings: &[Finding]) -> Result<(), AllocError>
    ensures { OnOk result (string_bytes out.new
        ≡ string_bytes out.old ++ ending (map finding_parts findings.now)) }
{
    if findings.is_empty() {
        return Ok(());
    }
    let all = findings.len();
    let errors = count_errors(findings);
    out.push_str("✖ ")?;
    push_counted(out, all, "problem")?;
    out.push_str(" (")?;
    push_counted(out, errors, "error")?;
    out.push_str(", ")?;
    push_counted(out, all.saturating_sub(errors), "warning")?;
    out.push_str(")\n")
}

/// How many of the findings are errors.
fn count_errors(findings: &[Finding]) -> usize
    ensures { result ≡ count_by is_error (map finding_parts findings.now) }
{
    let errors = findings
        .iter()
        .filter(|finding| matches!(finding.severity, Severity::Error));
    errors.count()
}

/// Appends a number and the name of what is counted.
#[tactic(auto, unfolding(crate::specs::Stylish::counted))]
fn push_counted(out: &mut String, count: usize, noun: &str) -> Result<(), AllocError>
    ensures { OnOk result (string_bytes out.new
        ≡ string_bytes out.old ++ counted_nouns count noun.now) }
{
    out.push_str(Buffer::new().format(count))?;
    out.push_str(" ")?;
    out.push_str(noun)?;
    if count == 1 {
        return Ok(());
    }
    out.push_str("s")
}
