//! Finds the findings in what tools print for people.
#![tactic(auto)]

pub mod columns;
pub mod details;
pub mod lines;
pub mod marks;
pub mod paint;
mod speaks;
