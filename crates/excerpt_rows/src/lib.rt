//! Rows of a source as tools print them, laid over the source's own rows.
#![tactic(auto)]

pub mod alignment;
mod ends;
pub mod expansion;
pub mod hunk;
mod search;
