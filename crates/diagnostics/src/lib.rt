//! Diagnostics in one crate: what a linter needs of `oxc_span`, `oxc_protocol`, `oxc_plan` and
//! `oxc_handlers`, and [`draw_on`], the simplest call.
//!
//! - [`OxcDiagnostic`], [`LabeledSpan`], [`Severity`]: what is reported.
//! - [`GraphicalReportHandler`], [`GraphicalTheme`], [`TabWidth`]: how it looks.
//! - [`draw_on`]: one diagnostic on one text. For lists, boxes and sinks: the handler's own calls.
//! - [`Sink`], [`write_all`]: where drawings are written.
#![tactic(auto)]

mod draw;

pub use crate::draw::draw_on;
pub use oxc_handlers::{
    DiagnosticView, GraphicalReportHandler, GraphicalTheme, JSONReportHandler, Keep, RenderError,
    render, render_with_source_code,
};
pub use oxc_plan::TabWidth;
pub use oxc_protocol::{
    Diagnostic, DiagnosticReporter, DiagnosticResult, Diagnostics, Errors, Failed, Info,
    InfoPosition, LabeledSpan, MemorySink, NamedSource, OxcCode, OxcDiagnostic, Severity, Sink,
    SourceCode, SourceRef, TextSource, Warnings, write_all,
};
pub use oxc_span::Span;
