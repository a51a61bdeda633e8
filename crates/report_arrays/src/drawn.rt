// The drawings of all reports.
ghost use Rattle.std.specs.Prelude.{◌≡◌, ◌++◌, All, IfOk, OnOk, map, string_bytes};
ghost use Rattle.oxc_span.specs.Views.{text_bytes};
ghost use Rattle.oxc_protocol.specs.Code.{shown_code};
ghost use Rattle.report_arrays.specs.Texts.{optional_of};
ghost use Rattle.report_arrays.specs.Values.{named, report as report_of, severity as severity_by};
ghost use Rattle.render_files.specs.Causes.{IsJudged};
ghost use Rattle.render_files.specs.Refusal.{refusal_of};
ghost use Rattle.render_files.specs.Rendered.{StandsInFile, drawn_report, drawn_reports};

use crate::labels::report_labels;
use crate::readers::Readers;
use crate::refusals::first_refusal;
use crate::shapes::{File, Label, Report};
use crate::sources::Sources;
use crate::spans::placed;
use crate::texts::{optional_text, text};
use oxc_handlers::{DiagnosticView, GraphicalReportHandler};
use oxc_protocol::{LabeledSpan, Severity, SourceRef};
use render_files::ReportError;
use std::alloc::{AllocError, Global};

/// How many bytes are reserved for each drawing.
const GUESS: usize = 256;

/// The drawings of the reports in arrays, one after another.
///
/// Every number means something, so the arrays have no condition. A source of `u32::MAX` bytes or
/// more counts as out of memory.
///
/// # Errors
///
/// The [`ReportError`] of the first report that has one, and out of memory; never `SinkFault`.
pub fn arrays_text(
    alloc: Global,
    handler: &GraphicalReportHandler,
    texts: &str,
    files: &[File],
    reports: &[Report],
    labels: &[Label],
) -> Result<String, ReportError>
    ensures drawn { IfOk result (λ text. string_bytes text ≡ drawn_reports handler.now
        (map (named texts.now) files.now) (map (report_of texts.now labels.now) reports.now)) }
    ensures cause { IsJudged (refusal_of (map (named texts.now) files.now)
        (map (report_of texts.now labels.now) reports.now)) result }
{
    let sources = Sources::new(texts, files);
    match first_refusal(&sources, texts, reports, labels) {
        Some(refusal) => Err(refusal),
        None => Ok(draw_all(alloc, handler, &sources, texts, reports, labels)?),
    }
}

/// The drawings of reports without errors.
fn draw_all(
    alloc: Global,
    handler: &GraphicalReportHandler,
    sources: &Sources<'_>,
    texts: &str,
    reports: &[Report],
    labels: &[Label],
) -> Result<String, AllocError>
    requires { All (StandsInFile sources.now)
        (map (report_of texts.now labels.now) reports.now) }
    ensures { IfOk result (λ text. string_bytes text ≡ drawn_reports handler.now sources.now
        (map (report_of texts.now labels.now) reports.now)) }
{
    let mut readers = Readers::new(alloc, sources, reports, labels)?;
    let mut text = String::with_capacity(alloc, reports.len().saturating_mul(GUESS))?;
    for report in reports {
        push_drawing(
            alloc,
            handler,
            &mut readers,
            sources,
            texts,
            labels,
            report,
            &mut text,
        )?;
    }
    Ok(text)
}

/// Appends the drawing of a report without an error. A source of `u32::MAX` bytes or more, which
/// checked arrays never have, counts as out of memory.
#[tactic(auto, unfolding(crate::specs::Values::report))]
fn push_drawing<'a>(
    alloc: Global,
    handler: &GraphicalReportHandler,
    readers: &mut Readers<'a>,
    sources: &Sources<'_>,
    texts: &str,
    labels: &[Label],
    report: &Report,
    out: &mut String,
) -> Result<(), AllocError>
    requires known { readers.old ≡ sources.now }
    requires stands { StandsInFile sources.now (report_of texts.now labels.now report.now) }
    ensures text { OnOk result (string_bytes out.new ≡ string_bytes out.old
        ++ drawn_report handler.now sources.now (report_of texts.now labels.now report.now)) }
    ensures unchanged { readers.new ≡ readers.old }
{
    let source = sources.source(report.file);
    if source.len() >= u32::MAX as usize {
        return Err(AllocError);
    }
    let labels = placed(alloc, source, texts, report_labels(labels, report))?;
    let code = code_of(alloc, texts, report)?;
    let view = DiagnosticView {
        message: text(texts, report.message),
        code: code.as_deref(),
        severity: Some(severity_of(report.severity)),
        help: optional_text(texts, report.help),
        note: optional_text(texts, report.note),
        source: Some(SourceRef::new(source.as_bytes(), Some(sources.name(report.file)))),
        labels: labels.as_slice(),
    };
    readers.draw(handler, out, report.file, &view)
}

/// The code of a report, as shown.
fn code_of(alloc: Global, texts: &str, report: &Report) -> Result<Option<String>, AllocError>
    ensures { IfOk result (λ code. text_bytes code ≡ shown_code
        (optional_of texts.now report.now.scope) (optional_of texts.now report.now.number)) }
{
    let number = optional_text(texts, report.number);
    let Some(scope) = optional_text(texts, report.scope) else {
        return match number {
            Some(number) => Ok(Some(String::from_str(alloc, number)?)),
            None => Ok(None),
        };
    };
    let mut code = String::from_str(alloc, scope)?;
    if let Some(number) = number {
        code.push('(')?;
        code.push_str(number)?;
        code.push(')')?;
    }
    Ok(Some(code))
}

/// The severity of a number; checked arrays have none above 2.
pub(crate) fn severity_of(number: u32) -> Severity
    ensures { result ≡ severity_by number }
{
    match number {
        0 => Severity::Advice,
        1 => Severity::Warning,
        _ => Severity::Error,
    }
}
