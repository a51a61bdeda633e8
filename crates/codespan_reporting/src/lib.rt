//! What tools that show diagnostics ask of a database of source files.
#![tactic(auto)]

pub mod files;
