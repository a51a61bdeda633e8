//! The findings in a tool's JSON, as reports on files.
//!
//! - [`reports_of`]: one report for each finding, with its span in the text of its file.
//! - [`reports_with`]: the same, and then other reports.
//! - [`names_of`]: the names whose texts it looks up, to be read before.
#![tactic(auto)]

mod cells;
mod diagnostics;
mod gathered;
mod marks;
mod names;
mod spans;
mod words;

pub use gathered::{reports_of, reports_with};
pub use names::names_of;
