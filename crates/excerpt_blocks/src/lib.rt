//! Rows that a compiler or linter printed, with the marks and texts that it drew below them.
#![tactic(auto)]

pub mod below;
pub mod blocks;
pub mod labels;
mod pushes;
