//! Offsets into a text and ranges of it, in 32 bits.
//!
//! A [`TextSize`] is a number of bytes: the length of a text, or an offset into one, from 0. A
//! [`TextRange`] is a start and an end that isn't before the start. Contracts see the first as a
//! number and the second as a pair of numbers.
#![tactic(auto)]

mod range;
mod size;
mod traits;

pub use range::{TextRange, slice, slice_mut};
pub use size::TextSize;
pub use traits::TextLen;
