//! One line below a finding, as a compiler or linter drew it: its kind, gutter and items.
#![tactic(auto)]

pub mod cells;
pub mod gutter;
pub mod items;
pub mod kinds;
pub mod lines;
pub mod places;
pub mod runs;
pub mod tables;
