//! A finding as a diagnostic with labels.
ghost use Rattle.std.specs.Prelude.{◌≡◌, ◌<◌, IfOk, IfSome, None, length};
ghost use Rattle.std.specs.Option.{option_copied};
ghost use Rattle.oxc_span.specs.Views.{text_bytes};
ghost use Rattle.json_forms.specs.Finding.{finding_view};
ghost use Rattle.line_reports.specs.Reports.{label_of};
ghost use Rattle.line_reports.specs.Gathered.{FitsLabel};
ghost use Rattle.json_reports.specs.Reports.{code_of as code_there, diagnostic_of};
ghost use Rattle.json_reports.specs.Reports.{filled as filled_by};

use crate::words::lines_of;
use json_forms::{Finding, SideKind};
use oxc_protocol::{LabeledSpan, OxcDiagnostic};
use std::alloc::{AllocError, Global};
use std::ops::Range;

/// A text that isn't empty.
fn filled<'v>(text: Option<&'v str>) -> Option<&'v str>
    ensures value { option_copied result ≡ filled_by (option_copied text.entry) }
    ensures some { IfSome result (λ text. 0 < length text.now) }
{
    match text {
        Some(text) if !text.is_empty() => Some(text),
        _ => None,
    }
}

/// A diagnostic without a code, with that of a finding.
fn with_code(
    alloc: Global,
    diagnostic: OxcDiagnostic,
    finding: &Finding<'_, '_>,
) -> Result<OxcDiagnostic, AllocError>
    requires { diagnostic.code ≡ record { scope = None; number = None } }
    ensures { IfOk result (λ it. it
        ≡ record diagnostic { code = code_there (finding_view finding.now) }) }
{
    let Some(number) = filled(finding.code) else {
        return Ok(diagnostic);
    };
    match filled(finding.scope) {
        Some(scope) => diagnostic.with_error_code(alloc, scope, number),
        None => diagnostic.with_error_code_num(alloc, number),
    }
}

/// A diagnostic without a help text, with this one.
fn with_help(
    alloc: Global,
    diagnostic: OxcDiagnostic,
    help: &Option<String>,
) -> Result<OxcDiagnostic, AllocError>
    requires { diagnostic.help ≡ None }
    ensures { IfOk result (λ it. it ≡ record diagnostic { help = text_bytes help.now }) }
{
    match help {
        Some(help) => diagnostic.with_help(alloc, help.as_str()),
        None => Ok(diagnostic),
    }
}

/// A diagnostic without a note, with this one.
fn with_note(
    alloc: Global,
    diagnostic: OxcDiagnostic,
    note: &Option<String>,
) -> Result<OxcDiagnostic, AllocError>
    requires { diagnostic.note ≡ None }
    ensures { IfOk result (λ it. it ≡ record diagnostic { note = text_bytes note.now }) }
{
    match note {
        Some(note) => diagnostic.with_note(alloc, note.as_str()),
        None => Ok(diagnostic),
    }
}

/// A diagnostic without a URL, with this one.
fn with_url(
    alloc: Global,
    diagnostic: OxcDiagnostic,
    url: Option<&str>,
) -> Result<OxcDiagnostic, AllocError>
    requires { diagnostic.url ≡ None }
    ensures { IfOk result (λ it. it ≡ record diagnostic { url = option_copied url.entry }) }
{
    match url {
        Some(url) => diagnostic.with_url(alloc, url),
        None => Ok(diagnostic),
    }
}

/// A finding with these labels.
///
/// # Errors
///
/// Out of memory.
#[tactic(auto, unfolding(crate::specs::Reports::diagnostic_of))]
pub(crate) fn diagnostic(
    alloc: Global,
    finding: &Finding<'_, '_>,
    labels: Vec<LabeledSpan>,
) -> Result<OxcDiagnostic, AllocError>
    ensures { IfOk result (λ it. it ≡ diagnostic_of (finding_view finding.now) labels.items) }
{
    let help = lines_of(alloc, SideKind::Edit, finding.help, &finding.sides)?;
    let note = lines_of(alloc, SideKind::Note, finding.note, &finding.sides)?;
    let plain = OxcDiagnostic::error(alloc, finding.message)?
        .with_severity(finding.severity)
        .with_labels(alloc, labels)?;
    let coded = with_code(alloc, plain, finding)?;
    let helped = with_help(alloc, coded, &help)?;
    let noted = with_note(alloc, helped, &note)?;
    with_url(alloc, noted, finding.url)
}

/// A label over a span.
///
/// # Errors
///
/// Out of memory.
pub(crate) fn label(
    alloc: Global,
    text: Option<&str>,
    primary: bool,
    range: &Range<usize>,
) -> Result<LabeledSpan, AllocError>
    requires { FitsLabel range.now }
    ensures { IfOk result (λ it. it ≡ label_of (option_copied text.entry) primary range.now) }
{
    let text = owned(alloc, text)?;
    let start = range.start as u32;
    let len = (range.end - range.start) as u32;
    Ok(if primary {
        LabeledSpan::primary_at(text, start, len)
    } else {
        LabeledSpan::new(text, start, len)
    })
}

fn owned(alloc: Global, text: Option<&str>) -> Result<Option<String>, AllocError>
    ensures { IfOk result (λ it. text_bytes it ≡ option_copied text.entry) }
{
    match text {
        Some(text) => Ok(Some(String::from_str(alloc, text)?)),
        None => Ok(None),
    }
}
