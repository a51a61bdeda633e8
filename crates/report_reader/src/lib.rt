//! A drawn report, read back.
//!
//! [`read_report`] parses the text of a report drawn in the plain theme: its rows, the marks under
//! them, and their texts. [`show_report`] is the inverse, and [`well_formed`] says which values
//! have one. Cells count from 0; rows, and the locations in heads, from 1.
#![tactic(auto)]

mod checks;
mod laws;
mod lines;
mod marks;
mod reader;
mod seen;
mod shows;
mod texts;

pub use crate::checks::well_formed;
pub use crate::laws::{drawings_read_back, marks_by_cells};
pub use crate::reader::read_report;
pub use crate::seen::{Seen, SeenHead, SeenMark, SeenRow, SeenSnippet};
pub use crate::shows::show_report;
