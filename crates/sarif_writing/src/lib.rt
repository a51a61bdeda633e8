//! Source files and reports on them, written as a SARIF log of one run.
//!
//! A log goes through the modules in this order:
//!
//! - `rules`: the rules of reports, each once, and their indexes
//! - `places`: the locations of labels, in rows and columns
//! - `given`: the reported locations of reports without labels
//! - `fixes`: the edits that tools propose
//! - `results`: the results of reports
//! - `written`: the log, and its text
#![tactic(auto)]

mod fixes;
mod given;
mod places;
mod results;
mod rules;
mod written;

pub use written::{write_log, write_log_with};
