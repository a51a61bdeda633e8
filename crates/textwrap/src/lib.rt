//! Texts filled to a width by first fit, and the width of a text on a screen. (The module is named
//! `core_` since `core` is a library of the kit.)
#![tactic(auto)]

pub mod core_;
mod cuts;
mod filling;
mod laws;
mod lines;
mod options;
mod pen;
mod pieces;
mod words;

pub use filling::{fill, fill_onto, fits_on_line};
pub use laws::{one_cut, one_filling, one_line};
pub use options::Options;
