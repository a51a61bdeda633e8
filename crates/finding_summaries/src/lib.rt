//! What a CI job shows to people about its findings, and how many reports there are.
//!
//! - [`counts_of`]: the number of errors, warnings and notes among reports; [`summary_line`]: the
//!   line about it; [`one_reaches`]: whether one is at or above a [`Level`]; [`more_line`]: the line
//!   that says how many weren't drawn.
//! - [`summary_text`]: the totals, then the files and the rules with the most findings, for a
//!   terminal or a log.
//! - [`markdown_text`]: the same as tables of GitHub's Markdown, and [`markdown_cell`], a text as
//!   it is written in a cell.
//! - [`push_totals`], [`file_of`], [`rule_of`]: the parts of these texts, for others like them.
//! - [`texts_are_determined`]: findings have one text of each kind.
#![tactic(auto)]

mod cells;
mod counted;
mod determined;
mod markdown;
mod ranking;
mod summary;
mod totals;

pub use cells::markdown_cell;
pub use counted::{Counts, Level, counts_of, more_line, one_reaches, summary_line};
pub use determined::texts_are_determined;
pub use markdown::markdown_text;
pub use ranking::{file_of, rule_of};
pub use summary::summary_text;
pub use totals::push_totals;
