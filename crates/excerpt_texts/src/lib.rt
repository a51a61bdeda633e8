//! What an excerpt says: the lines of its notes and helps, and the labels of its drawings.
#![tactic(auto)]

pub mod labels;
pub mod lines;
