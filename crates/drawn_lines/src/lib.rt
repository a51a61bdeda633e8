//! Lines that a tool prints for people, drawn as they come.
//!
//! - [`Coming`]: takes bytes as they come, and gives what is written of the blocks that they
//!   complete.
//! - [`shapes_of`], [`columns_of`]: how lines are read, by the options.
//! - [`annotates`]: whether annotations are written instead of drawings.
//! - [`names_between`], [`renamed`]: blocks with the names that their findings have from the root,
//!   if lines enter and leave directories.
//! - [`lines_of`]: the lines of a text; [`kept_text`]: those that are no findings.
#![tactic(auto)]

mod again;
mod coming;
mod count;
mod form;
mod held;
mod kept;
mod naming;
mod parting;
mod reading;
mod seam;
mod tally;
mod walk;

pub use coming::{Come, Coming, Ended};
pub use form::annotates;
pub use held::{lent, lines_of};
pub use kept::kept_text;
pub use naming::{are_kept, names_are_kept, names_between, renamed};
pub use reading::{columns_of, shapes_of};
