//! Edits of a text with undo, and labels that move with them.
//!
//! An [`EditText`] is a text that is edited in place. At each edit it updates its row starts near
//! the edited range only, and it can undo each edit. [`move_label`] says where a label lies after
//! an edit, and [`edit_file`] edits a file of a database.
#![tactic(auto)]

mod edit;
mod edit_text;
mod edited_file;
mod labels;
mod laws;
mod starts;

pub use edit::{Edit, EditError};
pub use edit_text::EditText;
pub use edited_file::edit_file;
pub use labels::move_label;
pub use laws::label_stays_in_range;
