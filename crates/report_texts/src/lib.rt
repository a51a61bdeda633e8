//! The texts of reports: drawings, JSON, a document, a SARIF log, and what CI systems read. Texts
//! are sanitized, so that they can't drive a terminal, unless the caller asks for them raw.
//!
//! - [`drawing_text`]: reports drawn, and their numbers; [`first_drawings`] and [`ending_text`]
//!   are its two parts.
//! - [`drawn_count`]: how many reports are drawn.
//! - [`Drawings`]: reports drawn on sources that are kept, one list of reports after another.
//! - [`each_drawing`]: one drawing for each report, for a page.
//! - [`json_text`]: each report as a line of JSON.
//! - [`document_text`]: the reports and their files as a document.
//! - [`sarif_text`]: the same as a SARIF log of the tool of [`named_tool`].
//! - [`ci_text`]: the findings in any format of `ci_formats`; [`ci_text_on`]: the same, by indexes
//!   that were made before.
//! - [`gitlab_text`]: GitLab's, which names the tool if a finding has no code.
//! - [`found_findings`]: the findings themselves.
//! - [`summary_text`], [`markdown_text`]: how many findings there are, and which files and rules
//!   have most of them.
#![tactic(auto)]

mod ci_texts;
mod drawing;
mod each;
mod fixes;
mod long_rows;
mod look;
mod runs;
mod texts;

pub use ci_formats::CiFormat;
pub use ci_texts::{ci_text, ci_text_on, found_findings, gitlab_text, markdown_text, summary_text};
pub use drawing::{drawing_text, drawn_count, ending_text, first_drawings};
pub use each::each_drawing;
pub use runs::Drawings;
pub use texts::{document_text, json_text, named_tool, sarif_text};
