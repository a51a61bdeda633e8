//! Texts with escaped bytes, and lines that are split at delimiters.
//!
//! - [`Spelling`] gives the escape of a byte, and [`push_escaped`] appends an escaped text.
//!   `proofs/EscapeLemmas.antt` has lemmas for its inverse and for the bytes that no such text
//!   has.
//! - [`cut`], [`behind`], [`without_last`] and [`number`] take a line apart.
#![tactic(auto)]

mod cuts;
mod spelled;

pub use cuts::{behind, cut, number, without_last};
pub use spelled::{Spelling, push_escaped};
