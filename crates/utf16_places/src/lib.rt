//! Positions for language servers: lines and UTF-16 units of a text, from its offsets in bytes and
//! back.
//!
//! A [`Utf16Index`] is made of a text once and answers without it. Its two directions are inverse
//! to each other.
#![tactic(auto)]

mod build;
mod index;
mod laws;
mod place;
mod wide;

pub use index::Utf16Index;
pub use laws::{nearest_keeps_places, places_ascend, places_lead_back};
pub use place::Place16;
