//! SARIF logs as reports on files.
//!
//! - [`read_log`] reads a log, and [`log_in`] finds one among other lines.
//! - [`reports_of`] gives the reports that a log means, with any lookup of the files' texts.
//! - [`names_of`] gives the names that this lookup is asked for.
//! - [`findings_of`] gives the findings of a run: their levels, rules, messages and locations.
//!
//! `specs/Meaning.antt` defines what a log means, `specs/Findings.antt` what a run found.
#![tactic(auto)]

mod asked;
mod contents;
mod diagnostics;
mod fill;
mod findings;
mod known;
mod labels;
mod reading;
mod reports;
mod resolving;
mod rules;
mod texts;

pub use asked::names_of;
pub use findings::{Finding, Spot, findings_of};
pub use reports::reports_of;
pub use sarif_log::{ColumnKind, Log, LogError, Region, Run, log_in, read_log};
pub use sarif_spans::{Row, rows_of, span_in};
