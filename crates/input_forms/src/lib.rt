//! The form of an input, by its bytes.
//!
//! - [`begins_as`]: whether it begins as a JSON object, as other JSON, or as lines.
//! - [`first_bytes`]: whether its first bytes already settle whether it begins as lines.
//! - [`json_part`]: the range of the JSON object among other lines.
//! - [`has_files`]: whether a JSON object is a document of files, not a log.
//! - [`without_mark`]: a text without its byte order mark.
#![tactic(auto)]

mod begun;
mod object;
mod sure;

pub use begun::{Begun, begins_as, without_mark};
pub use object::{has_files, json_part};
pub use sure::{FirstBytes, first_bytes};
