//! What a compiler or linter printed below a finding, read back: notes, locations, labels and
//! suggestions.
#![tactic(auto)]

pub mod body;
pub mod cuts;
pub mod roles;
