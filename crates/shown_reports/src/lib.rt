//! Found reports, as they are shown.
//!
//! - [`shown_reports`]: a document of reports to draw; its texts are sanitized, and a report
//!   without a label has its reported location in its note.
//! - [`shown_diagnostic`]: one such report as a diagnostic; [`ShownSources`]: the sources of
//!   reports, each with its sanitized text, which is made once; [`ShownText`]: one of these texts,
//!   with its rows.
//! - [`document_reports`]: the reports of a document, as found reports.
//! - [`shown_text`], [`shown_if`]: texts as they are shown.
#![tactic(auto)]

mod given;
mod shown;
mod sources;
mod texts;

pub use given::document_reports;
pub use shown::{ShowError, shown_diagnostic, shown_reports};
pub use sources::{ShownSources, ShownText};
pub use texts::{shown_if, shown_text};
