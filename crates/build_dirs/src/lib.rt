//! The directories that a build enters, and where a name that it prints may be.
//!
//! - [`changes::change_in`]: what a line of `make` or `ninja` says of a directory.
//! - [`dirs::BuildDirs`]: takes lines as they come, and gives the places of a name.
//! - [`again::key_of`]: a text by which findings that are printed again are known.
#![tactic(auto)]

pub mod again;
pub mod changes;
pub mod dirs;
