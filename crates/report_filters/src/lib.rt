//! Filters over reports.
//!
//! [`filtered`] gives the reports that [`Rules`] leave, and the line about them. [`entries_of`]
//! gives what filters read of reports, also of a baseline.
#![tactic(auto)]

mod entries;
mod judging;
mod laws;
mod rules;

pub use entries::{Entry, entries_of, views_of};
pub use judging::{Judged, Left, filtered, judge};
pub use laws::{added_is_shown, shown_is_in_a_file};
pub use rules::Rules;
