//! Filters of findings, for builds that fail only for what is new.
//!
//! In this order: repeated ones, a baseline, a selection, and what a diff changed.
#![tactic(auto)]

mod baseline;
mod changed;
mod finding;
mod laws;
mod patterns;
mod selection;
mod texts;
mod tokens;

pub use baseline::{Item, known};
pub use changed::{Changed, FilterMode};
pub use finding::{FindingView, Spot};
pub use laws::{glob_means, order_is_no_matter, rule_means};
pub use patterns::{Glob, Rule};
pub use selection::Selection;
pub use texts::{class_of, exact_of, kind_of};
