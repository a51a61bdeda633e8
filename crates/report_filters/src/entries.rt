// What filters read of reports.
ghost use Rattle.std.specs.Prelude.{◌≡◌, ◌<◌, ◌≤◌, ◌^◌, ◌&&◌, ◌++◌, ◌∷◌, [], IfOk, OnOk, MatchOption};
ghost use Rattle.std.specs.Prelude.{length, map};
ghost use Rattle.std.specs.Prelude.{string_bytes, unwrap_or};
ghost use Rattle.std.specs.List.{prefix_len, suffix_len};
ghost use Rattle.oxc_span.specs.Views.{text_bytes};
ghost use Rattle.oxc_protocol.specs.Views.{code_parts};
ghost use Rattle.found_reports.specs.Found.{LabelsStand};
ghost use Rattle.found_reports.specs.Held.{held_of};
ghost use Rattle.found_reports.specs.Kept.{Stands, file_view, report_view};
ghost use Rattle.ci_formats.specs.Finding.{finding_of, finding_parts as finding_told};
ghost use Rattle.finding_filters.specs.Finding.{finding_parts};
ghost use Rattle.report_filters.specs.Entries.{entries_of as entries_in, new_entry};
ghost use Rattle.report_filters.specs.Entries.{entry_of, entry_parts, has_none, is_advice as is_advice_level};
ghost use Rattle.report_filters.specs.Entries.{is_inner as is_inner_byte, is_more, notes_in};
ghost use Rattle.report_filters.specs.Entries.{row_if, row_near as row_near_in, spot_of};

use changed_rows::Root;
use ci_formats::{Finding, Location, findings_of};
use finding_filters::{FindingView, Spot};
use found_reports::{FoundFile, FoundReport, FoundReports, Lack};
use oxc_protocol::{Diagnostic, LabeledSpan, OxcCode, Severity};
use std::alloc::{AllocError, Global};

/// How many bytes of a row are compared on each side of a place.
const NEAR: usize = 1000;

/// What filters read of a finding, owned.
#[derive(Drop)]
pub struct Entry {
    /// The name of its file as [`Root::plain`] gives it; empty if it has none.
    pub file: String,
    /// Where it starts.
    pub start: Spot,
    /// Where it ends: just after its last character.
    pub end: Spot,
    /// Its severity.
    pub severity: Severity,
    /// The scope of its code; empty if it has none.
    pub scope: String,
    /// Its code; empty if it has none.
    pub code: String,
    /// Its message.
    pub message: String,
    /// The text of the row where it starts, if it is known: up to 1,000 bytes on each side.
    pub row_text: Option<String>,
    /// How many reports it is: itself, and its notes after it.
    pub reports: usize,
}

impl Entry {
    /// What filters read of it.
    pub fn view(&self) -> FindingView<'_>
        ensures { finding_parts result ≡ entry_parts self.now }
    {
        FindingView {
            file: self.file.as_str(),
            start: self.start,
            end: self.end,
            severity: self.severity,
            scope: self.scope.as_str(),
            code: self.code.as_str(),
            message: self.message.as_str(),
            row_text: self.row_text.as_deref(),
            reports: self.reports,
        }
    }
}

/// What filters read of findings.
///
/// # Errors
///
/// Out of memory.
pub fn views_of<'e>(alloc: Global, entries: &'e [Entry]) -> Result<Vec<FindingView<'e>>, AllocError>
    ensures { IfOk result (λ views. map finding_parts views.items ≡ map entry_parts entries.entry.now) }
{
    let mut views = Vec::with_capacity(alloc, entries.len())?;
    for entry in entries {
        views.push(entry.view())?;
    }
    Ok(views)
}

/// The findings of reports, in order. With `notes`, advice without a code after a finding is its
/// note; with `rows`, a finding with a label has the text of its row.
///
/// # Errors
///
/// Out of memory.
pub fn entries_of(
    alloc: Global,
    root: &Root,
    found: &FoundReports<'_>,
    notes: bool,
    rows: bool,
) -> Result<Vec<Entry>, AllocError>
    ensures { IfOk result (λ entries. map entry_parts entries.items
        ≡ entries_in (string_bytes root.now.front) rows notes found.now.found) }
{
    let findings = findings_of(alloc, found)?;
    let files = found.files();
    let mut entries = Vec::new(alloc);
    let mut told = findings.as_slice();
    let mut rest = found.reports();
    let mut inside = false;
    while let Some((report, others)) = next_report(rest) {
        let Some((finding, more)) = next_finding(told) else {
            return Ok(entries);
        };
        let reports = Reports {
            files,
            report,
            others,
            inside,
        };
        push_entry(alloc, &mut entries, root, rows, notes, finding, &reports)?;
        inside = true;
        rest = others;
        told = more;
    }
    Ok(entries)
}

/// The first report, and the others.
fn next_report(reports: &[FoundReport]) -> Option<(&FoundReport, &[FoundReport])>
    ensures { MatchOption result (reports.now ≡ []) (λ it. reports.now ≡ it.0.now ∷ it.1.now) }
{
    match reports {
        [first, rest @ ..] => Some((first, rest)),
        [] => None,
    }
}

/// The first finding, and the others.
fn next_finding(findings: &[Finding]) -> Option<(&Finding, &[Finding])>
    ensures { MatchOption result (findings.now ≡ []) (λ it. findings.now ≡ it.0.now ∷ it.1.now) }
{
    match findings {
        [first, rest @ ..] => Some((first, rest)),
        [] => None,
    }
}

/// A report, and those after it.
#[derive(Clone, Copy)]
struct Reports<'r, 's> {
    /// Their files.
    files: &'r [FoundFile<'s>],
    /// The report.
    report: &'r FoundReport,
    /// The others.
    others: &'r [FoundReport],
    /// Whether a finding came before it.
    inside: bool,
}

/// Whether a report is a note of a finding before it.
fn is_own_note(notes: bool, it: &Reports<'_, '_>) -> bool
    ensures { result ≡ ((notes && it.now.inside) && is_more it.now.report.now.diagnostic) }
{
    notes && it.inside && is_note(it.report)
}

/// Pushes the finding of a report, unless it is a note of one before it.
#[tactic(auto, using(crate::proofs::EntryLemmas::none_new))]
fn push_entry(
    alloc: Global,
    entries: &mut Vec<Entry>,
    root: &Root,
    rows: bool,
    notes: bool,
    finding: &Finding,
    it: &Reports<'_, '_>,
) -> Result<(), AllocError>
    requires stands { Stands (map file_view it.now.files.now) it.now.report.now }
    requires told { finding_told finding.now
        ≡ finding_of (report_view (map file_view it.now.files.now) it.now.report.now) }
    ensures { OnOk result (map entry_parts entries.new.items ≡ map entry_parts entries.old.items
        ++ new_entry (string_bytes root.now.front) rows notes it.now.inside
        (report_view (map file_view it.now.files.now) it.now.report.now)
        (map (report_view (map file_view it.now.files.now)) it.now.others.now)) }
{
    if is_own_note(notes, it) {
        return Ok(());
    }
    let reports = notes_before(notes, it.others) + 1;
    entries.push(entry_in(alloc, root, it.files, rows, reports, finding, it.report)?)?;
    Ok(())
}

/// How many notes these reports begin with, if notes count.
fn notes_before(notes: bool, reports: &[FoundReport]) -> usize
    ensures value { result ≡ notes_in notes reports.now }
    ensures few { result < 2 ^ 63 }
{
    if notes { notes_first(reports) } else { 0 }
}

/// How many notes these reports begin with.
fn notes_first(reports: &[FoundReport]) -> usize
    ensures value { result ≡ prefix_len (λ report. is_more report.diagnostic) reports.now }
    ensures few { result < 2 ^ 63 }
{
    let mut rest = reports;
    while let [report, others @ ..] = rest {
        if !is_note(report) {
            return reports.len() - rest.len();
        }
        rest = others;
    }
    reports.len()
}

/// Whether a report only says more of the finding before it.
#[tactic(auto, unfolding(crate::specs::Entries::is_more))]
fn is_note(report: &FoundReport) -> bool
    ensures { result ≡ is_more report.now.diagnostic }
{
    let said = report.diagnostic.inner();
    is_advice(said.severity) && has_no_code(&said.code)
}

fn is_advice(severity: Severity) -> bool
    ensures { result ≡ is_advice_level severity }
{
    match severity {
        Severity::Advice => true,
        Severity::Warning | Severity::Error => false,
    }
}

fn has_no_code(code: &OxcCode) -> bool
    ensures { result ≡ has_none (code_parts code.now) }
{
    code.scope.is_none() && code.number.is_none()
}

/// What filters read of a report.
#[tactic(auto, unfolding(crate::specs::Entries::entry_of))]
fn entry_in(
    alloc: Global,
    root: &Root,
    files: &[FoundFile<'_>],
    rows: bool,
    reports: usize,
    finding: &Finding,
    report: &FoundReport,
) -> Result<Entry, AllocError>
    requires stands { Stands (map file_view files.now) report.now }
    requires told { finding_told finding.now
        ≡ finding_of (report_view (map file_view files.now) report.now) }
    ensures { IfOk result (λ it. entry_parts it ≡ entry_of (string_bytes root.now.front) rows reports
        (report_view (map file_view files.now) report.now)) }
{
    let said = &report.diagnostic;
    let code = &said.inner().code;
    Ok(Entry {
        file: root.plain(alloc, finding.name.as_str())?,
        start: spot(finding.start),
        end: spot(finding.end),
        severity: finding.severity,
        scope: text_or_none(alloc, &code.scope)?,
        code: text_or_none(alloc, &code.number)?,
        message: String::from_str(alloc, finding.message.as_str())?,
        row_text: row_text(alloc, rows, &files[report.file].source, said.labels())?,
        reports,
    })
}

fn spot(location: Location) -> Spot
    ensures { result ≡ spot_of location }
{
    Spot {
        row: location.row,
        column: location.column,
    }
}

/// A text, or the empty one.
fn text_or_none(alloc: Global, text: &Option<String>) -> Result<String, AllocError>
    ensures { IfOk result (λ it. string_bytes it ≡ unwrap_or (text_bytes text.now) []) }
{
    match text {
        Some(text) => String::from_str(alloc, text.as_str()),
        None => Ok(String::new(alloc)),
    }
}

/// The text of the row where the first label starts, if it is asked for.
fn row_text(
    alloc: Global,
    rows: bool,
    source: &Result<&str, Lack>,
    labels: &[LabeledSpan],
) -> Result<Option<String>, AllocError>
    requires { LabelsStand (held_of source.now) labels.now }
    ensures { IfOk result (λ it. text_bytes it ≡ row_if rows (held_of source.now) labels.now) }
{
    match (source, labels) {
        (Ok(text), [head, ..]) if rows => {
            let at = head.span().start as usize;
            Ok(Some(row_near(alloc, text.as_bytes(), at)?))
        }
        _ => Ok(None),
    }
}

/// The text of the row of a place, as far as it is near.
#[tactic(auto, unfolding(crate::specs::Entries::row_near))]
fn row_near(alloc: Global, text: &[u8], at: usize) -> Result<String, AllocError>
    requires { at ≤ length text.now }
    ensures { IfOk result (λ row. string_bytes row ≡ row_near_in text.now at) }
{
    let before = inner_last(&text[at.saturating_sub(NEAR)..at]);
    let after = inner_first(&text[at..(at + NEAR).min(text.len())]);
    String::from_utf8_lossy(alloc, &text[at - before..at + after])
}

/// How many bytes come after the last break.
fn inner_last(text: &[u8]) -> usize
    ensures value { result ≡ suffix_len is_inner_byte text.now }
    ensures within { result ≤ length text.now }
{
    text.iter().rev().take_while(|it| is_inner(**it)).count()
}

/// How many bytes come before the first break.
fn inner_first(text: &[u8]) -> usize
    ensures value { result ≡ prefix_len is_inner_byte text.now }
    ensures within { result ≤ length text.now }
{
    text.iter().take_while(|it| is_inner(**it)).count()
}

fn is_inner(byte: u8) -> bool
    ensures { result ≡ is_inner_byte byte }
{
    !(byte == b'\n' || byte == b'\r')
}
