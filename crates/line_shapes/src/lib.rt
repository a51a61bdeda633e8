//! The patterns of the lines that tools print for people, as a table of data.
#![tactic(auto)]

pub mod bytes;
pub mod level;
pub mod locations;
pub mod name;
pub mod parse;
pub mod part;
pub mod place;
pub mod said;
pub mod shape;
pub mod tables;
pub mod tool_tables;
pub mod tools;
