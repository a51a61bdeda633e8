//! Laws of findings: what is read of what was written, and what filters leave. Most are contracts
//! of functions that do nothing.
//!
//! - Baselines, alone and together with a diff: [`own_baseline_leaves_nothing`],
//!   [`longer_baseline_leaves_no_more`], [`order_changes_nothing`], [`the_lesser_is_new`],
//!   [`late_are_taken_last`]. All filters: [`what_is_left_was_read`].
//! - Checkstyle's XML: [`text_is_read`] and [`held_text_is_kept`] of a text in it,
//!   [`checkstyle_is_read`] of all of it, [`checkstyle_is_told`] of its form, and
//!   [`findings_are_read`] of its findings.
//! - The lines of problems: [`problem_is_read_back`] and [`problems_are_read_back`], where they
//!   pass [`is_plain`].
//! - SARIF logs: [`written_log`] writes one, and promises what is read of it;
//!   [`region_is_read_back`] is a law of its regions.
#![tactic(auto)]

mod baselines;
mod checkstyle;
mod logs;
mod problems;

pub use baselines::{
    late_are_taken_last, longer_baseline_leaves_no_more, order_changes_nothing,
    own_baseline_leaves_nothing, the_lesser_is_new, what_is_left_was_read,
};
pub use checkstyle::{
    checkstyle_is_read, checkstyle_is_told, findings_are_read, held_text_is_kept, text_is_read,
};
pub use logs::{region_is_read_back, written_log};
pub use problems::{is_plain, problem_is_read_back, problems_are_read_back};
