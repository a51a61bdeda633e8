//! The findings in the lines of a tool, as reports on files.
//!
//! - [`read_pieces`]: what the lines of blocks say.
//! - [`reports_of`]: the reports of these blocks, with their spans in the files' texts.
//! - [`names_of`]: the names whose texts it looks up, to be read before.
//! - [`span_at`]: the span of a [`Spot`] in a text with the index of its rows.
#![tactic(auto)]

mod aim;
mod asides;
mod drawings;
mod fixes;
mod gathered;
mod groups;
mod head;
mod labels;
mod names;
mod pieces;
mod placed;
mod rows;
mod runs;
mod spans;
mod texts;
mod told;

pub use gathered::reports_of;
pub use groups::{Group, joined};
pub use names::names_of;
pub use pieces::{ReadPiece, read_pieces};
pub use rows::span_at;
pub use spans::Spot;
pub use told::Told;
