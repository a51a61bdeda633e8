//! Spans of a source, and the labels that mark them.
//!
//! A [`Span`] is a pair of byte offsets. A [`LabeledSpan`] is a location in a source, given by its
//! offset and its length in bytes, with an optional text.
#![tactic(auto)]

mod labeled_span;
mod span;

pub use crate::labeled_span::LabeledSpan;
pub use crate::span::Span;
