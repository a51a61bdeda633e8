//! Which findings stay, and how many each filter took.
//!
//! [`judge_all`] judges a list, also by a baseline; [`Filters::judge_next`] one finding after
//! another. [`counts_of`] counts, and [`summary_line`] is the line about it.
#![tactic(auto)]

mod counts;
mod judged;
mod laws;
mod repeats;
mod verdicts;

pub use counts::{Counts, counts_of, stays_each, summary_line};
pub use judged::{Verdicts, judge_all};
pub use laws::{each_is_judged, nothing_takes_nothing};
pub use repeats::Earlier;
pub use verdicts::{Filters, Verdict};
