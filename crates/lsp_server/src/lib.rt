//! A language server that shows in an editor what tools found: its state, what each message of a
//! client does to it, and its answers.
//!
//! - [`message_in`]: the message in a body.
//! - [`Server`]: the open documents, and the phase of the session. [`Server::take`] takes a
//!   message; [`Server::show`] shows findings in a document, which then move with its text.
//! - [`answer_text`]: an answer as JSON. [`published`]: the diagnostics of a file for a client.
//! - [`write_frame`]: the frame of a body: a head with its length in bytes, and the body.
//!   [`Frames`]: a reader that takes bytes as they come, however they are split, and gives whole
//!   bodies.
//! - [`move_mark`]: where a range of a text is after a part of the text was replaced.
#![tactic(auto)]

mod answers;
mod documents;
mod frames;
mod head;
mod heads;
mod marks;
mod message;
mod messages;
mod moved;
mod parse;
mod publishing;
mod ranges;
mod server;
mod told;
mod written;

pub use answers::answer_text;
pub use documents::OpenText;
pub use frames::{End, Frames, State, Taken};
pub use head::{Head, LONGEST_BODY, LONGEST_HEAD, Place, START, Step, Why, read_byte};
pub use heads::head_label;
pub use marks::{Change, Mark, mark_laws, move_mark, move_offset, move_start};
pub use message::{Agreed, Answer, Code, Id, Message, Method, Notice, Params, Refused, Wanted};
pub use moved::{moved_all, moved_diagnostic, moved_label};
pub use parse::message_in;
pub use ranges::ranges_are_ordered;
pub use server::{Phase, Server, push_some};
pub use told::{OpenFile, all_stand, published};
pub use written::{frame_laws, write_frame};
