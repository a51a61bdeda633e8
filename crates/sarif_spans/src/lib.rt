//! The spans of the regions of a SARIF log in a text.
//!
//! [`rows_of`] splits a text into rows once, at the line breaks that a run names; [`span_in`]
//! gives the bytes of a region in a text and its rows. `specs/Rows.antt` and `specs/Span.antt`
//! define what a region means.
#![tactic(auto)]

mod columns;
mod offsets;
mod rows;
mod spans;

pub use rows::{Row, rows_of};
pub use spans::span_in;
