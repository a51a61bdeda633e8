//! Texts read from files, and files written whole.
//!
//! - [`Store`]: the text of a path, or why it has none. [`MapStore`] has texts in memory,
//!   [`DiskStore`] reads the files below a folder.
//! - [`path_in`]: the path that a name in a tool's output means, whether or not it is a URI.
//! - [`means_file`]: whether that path is a file's path or an end of it; [`is_named`]: the same
//!   for the path itself.
//! - [`gather`]: the sources of many names; [`gather_indexed`]: with the indexes of their rows;
//!   [`gather_more`]: of more names.
//! - [`locate`]: the absolute path of a path from a folder, resolved in the text.
//! - [`replace_all`]: writes texts to files, all or none as far as the disk lets it.
#![tactic(auto)]

mod disk;
mod fetched;
mod gathered;
mod map;
mod matching;
mod named;
mod place;
mod written;

pub use disk::DiskStore;
pub use fetched::{Fetched, Store};
pub use gathered::{gather, gather_indexed, gather_more};
pub use map::MapStore;
pub use matching::{is_named, means_file};
pub use named::{Spelling, path_in};
pub use place::locate;
pub use written::{Text, WriteError, replace_all};
