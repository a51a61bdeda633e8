// One diagnostic on one text.
ghost use Rattle.std.specs.Prelude.{◌≡◌, IfOk, None, Some, string_bytes};
ghost use Rattle.oxc_span.specs.Views.{text_bytes};
ghost use Rattle.oxc_protocol.specs.Parts.{parts_with};
ghost use Rattle.oxc_protocol.specs.Source.{Fits};
ghost use Rattle.oxc_protocol.specs.SourceViews.{ref_view};
ghost use Rattle.oxc_handlers.specs.Refusals.{IsJudged};
ghost use Rattle.oxc_handlers.specs.Report.{view_parts, without_url};
ghost use Rattle.oxc_handlers.specs.Reports.{text_of};
ghost use Rattle.diagnostics.specs.Drawn.{on_text};

use oxc_handlers::{DiagnosticView, GraphicalReportHandler, RenderError};
use oxc_protocol::{Diagnostic, OxcDiagnostic, SourceRef};
use std::alloc::Global;

/// The report of a diagnostic on a named text, as a handler draws it. The text has fewer than
/// `u32::MAX` bytes; labels are by its bytes, from 0.
///
/// # Errors
///
/// Those of [`GraphicalReportHandler::render_view`]: the first label that ends past the text, or
/// out of memory.
pub fn draw_on(
    alloc: Global,
    handler: &GraphicalReportHandler,
    name: &str,
    text: &str,
    diagnostic: &OxcDiagnostic,
) -> Result<String, RenderError>
    requires { Fits text.now }
    ensures text { IfOk result (λ drawn.
        string_bytes drawn ≡ text_of handler.now (on_text name.now text.now diagnostic.now)) }
    ensures cause { IsJudged (on_text name.now text.now diagnostic.now) result }
{
    let code = diagnostic.code(alloc)?;
    draw_coded(
        alloc,
        handler,
        SourceRef::new(text.as_bytes(), Some(name)),
        diagnostic,
        &code,
    )
}

/// The same, with the diagnostic's code.
fn draw_coded<'a>(
    alloc: Global,
    handler: &GraphicalReportHandler,
    source: SourceRef<'a>,
    diagnostic: &'a OxcDiagnostic,
    code: &'a Option<String>,
) -> Result<String, RenderError>
    requires { text_bytes code.now ≡ (parts_with diagnostic.now None).code }
    ensures text { IfOk result (λ drawn. string_bytes drawn
        ≡ text_of handler.now (parts_with diagnostic.now (Some (ref_view source.entry)))) }
    ensures cause { IsJudged (parts_with diagnostic.now (Some (ref_view source.entry))) result }
{
    let view = view_on(source, diagnostic, code);
    let mut scanner = None;
    handler.render_view(alloc, &view, &mut scanner)
}

/// What is drawn of a diagnostic with a source; `code` is its code.
fn view_on<'a>(
    source: SourceRef<'a>,
    diagnostic: &'a OxcDiagnostic,
    code: &'a Option<String>,
) -> DiagnosticView<'a>
    requires { text_bytes code.now ≡ (parts_with diagnostic.now None).code }
    ensures { view_parts result
        ≡ without_url (parts_with diagnostic.now (Some (ref_view source.entry))) }
{
    DiagnosticView {
        message: diagnostic.message(),
        code: code.as_deref(),
        severity: diagnostic.severity(),
        help: diagnostic.help(),
        note: diagnostic.note(),
        source: Some(source),
        labels: diagnostic.labels(),
    }
}
