//! Reports in plain arrays: the first wrong element, what ranges of a buffer of texts mean, and the
//! drawings of the reports.
//!
//! Callers in C pass numbers. All texts are in one buffer of bytes; files, reports and labels have
//! ranges of it. [`read_texts`] checks the arrays. [`text`], [`optional_text`] and
//! [`report_labels`] read them. [`arrays_text`] and [`arrays_json`] return what `render_files` would
//! draw of them, or write as JSON, with the same errors. Every number means something, so these
//! calls have no condition.
//!
//! Modules, in the order in which data uses them:
//!
//! - `shapes`: the elements of the arrays, as C lays them out;
//! - `texts`: a range of the buffer as a text;
//! - `labels`: the labels that a report names;
//! - `bytes`: whether the buffer is UTF-8;
//! - `judged`: the first wrong argument;
//! - `sources`: the files in the arrays;
//! - `refusals`: the first report with an error;
//! - `spans`: labels at their offsets;
//! - `readers`: reports drawn by one scanner for each file;
//! - `drawn`: the drawings of all reports: only texts of labels and codes are copied;
//! - `copied`: files and reports, copied and written as JSON.
#![tactic(auto)]

mod bytes;
mod copied;
mod drawn;
mod judged;
mod labels;
mod readers;
mod refusals;
mod shapes;
mod sources;
mod spans;
mod texts;

pub use crate::copied::arrays_json;
pub use crate::drawn::arrays_text;
pub use crate::judged::{Wrong, read_texts};
pub use crate::labels::report_labels;
pub use crate::shapes::{File, Label, Report, Text};
pub use crate::texts::{optional_text, text};
