//! What the reports of a finding say.
ghost use Rattle.std.specs.Prelude.{◌≡◌, None, option_and_then, IfOk};
ghost use Rattle.sarif.specs.Findings.{finding_view};
ghost use Rattle.sarif.specs.Rules.{some_text};
ghost use Rattle.sarif.specs.Seen.{borrowed};
ghost use Rattle.sarif.specs.Meaning.{diagnostic_of as diagnostic_meant};
ghost use Rattle.sarif.specs.Meaning.{given_place as place_meant};
ghost use Rattle.sarif.specs.Meaning.{in_u32 as fits_u32};
ghost use Rattle.sarif.specs.Meaning.{severity_of as severity_meant};
ghost use Rattle.sarif.specs.Views.{reading_view};

use crate::findings::Finding;
use crate::reading::Reading;
use found_reports::GivenPlace;
use oxc_protocol::{OxcDiagnostic, Severity};
use oxc_span::LabeledSpan;
use sarif_log::{Level, Region};
use std::alloc::{AllocError, Global};

/// The severity of a level.
pub(crate) fn severity_of(level: Level) -> Severity
    ensures { result ≡ severity_meant level }
{
    match level {
        Level::Error => Severity::Error,
        Level::Warning => Severity::Warning,
        Level::Note | Level::None => Severity::Advice,
    }
}

/// A finding as a diagnostic, with the tool's name as scope.
#[tactic(auto, unfolding(crate::specs::Meaning::diagnostic_of, crate::proofs::Opened::finding))]
pub(crate) fn diagnostic_of(
    alloc: Global,
    reading: &Reading<'_>,
    finding: &Finding<'_>,
    severity: Severity,
    message: &str,
    labels: Vec<LabeledSpan>,
) -> Result<OxcDiagnostic, AllocError>
    ensures { IfOk result (λ it. it ≡ diagnostic_meant (reading_view reading.now)
        (finding_view finding.now) severity message.now labels.items) }
{
    let bare = OxcDiagnostic::error(alloc, message)?.with_severity(severity);
    let scoped = with_scope(alloc, bare, reading.scope)?;
    let coded = with_number(alloc, scoped, finding.number)?;
    with_url(alloc, coded, finding.url)?.with_labels(alloc, labels)
}

/// The diagnostic with this scope, if there is one that isn't empty.
fn with_scope(
    alloc: Global,
    it: OxcDiagnostic,
    scope: Option<&str>,
) -> Result<OxcDiagnostic, AllocError>
    requires { it.code.scope ≡ None }
    ensures { IfOk result (λ new. new ≡ record it {
      code = record { scope = some_text (borrowed scope.entry); number = it.code.number };
    }) }
{
    match scope {
        Some(scope) if !scope.is_empty() => it.with_error_code_scope(alloc, scope),
        _ => Ok(it),
    }
}

/// The diagnostic with this number, if there is one that isn't empty.
fn with_number(
    alloc: Global,
    it: OxcDiagnostic,
    number: Option<&str>,
) -> Result<OxcDiagnostic, AllocError>
    requires { it.code.number ≡ None }
    ensures { IfOk result (λ new. new ≡ record it {
      code = record { scope = it.code.scope; number = some_text (borrowed number.entry) };
    }) }
{
    match number {
        Some(number) if !number.is_empty() => it.with_error_code_num(alloc, number),
        _ => Ok(it),
    }
}

/// The diagnostic with this address, if there is one.
fn with_url(
    alloc: Global,
    it: OxcDiagnostic,
    url: Option<&str>,
) -> Result<OxcDiagnostic, AllocError>
    requires { it.url ≡ None }
    ensures { IfOk result (λ new. new ≡ record it { url = borrowed url.entry }) }
{
    match url {
        Some(url) => it.with_url(alloc, url),
        None => Ok(it),
    }
}

/// The location that a region reports.
#[tactic(auto, unfolding(crate::specs::Meaning::given_place))]
pub(crate) fn given_place(region: Option<Region>) -> GivenPlace
    ensures { result ≡ place_meant region }
{
    let Some(region) = region else {
        return GivenPlace {
            line: None,
            column: None,
            end_line: None,
            end_column: None,
        };
    };
    GivenPlace {
        line: in_u32(region.start_line),
        column: in_u32(region.start_column),
        end_line: in_u32(region.end_line),
        end_column: in_u32(region.end_column),
    }
}

/// A number, if it fits in 32 bits.
fn in_u32(number: Option<usize>) -> Option<u32>
    ensures { result ≡ option_and_then fits_u32 number }
{
    let number = number?;
    if number <= u32::MAX as usize {
        Some(number as u32)
    } else {
        None
    }
}
