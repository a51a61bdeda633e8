//! Which rows a diff changed.
//!
//! [`read_diff`] reads a unified diff as git writes it, and gives a [`Diff`]: its files, the rows
//! that were added to each, and the rows that its hunks show. [`Root`] gives the form in which
//! names are compared.
#![tactic(auto)]

mod diff;
mod error;
mod files;
mod heads;
mod lines;
mod names;
mod quoted;
mod reader;

pub use diff::{Diff, RowSet, read_diff};
pub use error::{DiffError, Refusal, Wanted};
pub use names::Root;
