//! Windows: the part of a source that a report shows around a span, with rows of context before and
//! after.
//!
//! A [`SpanScanner`] over the bytes of a source returns for each [`Span`](oxc_span::Span) the
//! [`SpanContents`] of its window. LF, CR and CRLF (as one) end rows; offsets and columns count
//! bytes. All numbers count from 0.
//!
//! A scanner holds a [`SliceSource`], which finds breaks, and a [`WindowIndex`], which keeps the
//! rows that were found. The index works over every [`BreakSource`], and counts by [`Steps`] the
//! bytes that were looked at.
//!
//! The modules, in the order in which a source passes through them:
//! - `breaks`: the breaks that end rows
//! - `endings`: how many LFs there are before an offset, and whether there is a CR
//! - `source`: the trait of sources of breaks
//! - `slice`: a slice of bytes as such a source
//! - `steps`: a counter of the bytes that were looked at
//! - `window`: the numbers of a window
//! - `seed`: the rows of the first span, by a walk back from it
//! - `seen`: rows, columns and ends, from the rows held
//! - `held`: the rows held, and searches from there on
//! - `index`: windows of rows, which are searched for once
//! - `contents`: the bytes of a window with its numbers
//! - `scanner`: an index with the source that it reads
//! - `reads`: many windows one after another
#![tactic(auto)]

mod breaks;
mod contents;
mod endings;
mod held;
mod index;
mod reads;
mod scanner;
mod seed;
mod seen;
mod slice;
mod source;
mod steps;
mod window;

pub use crate::breaks::LineBreak;
pub use crate::contents::SpanContents;
pub use crate::index::WindowIndex;
pub use crate::reads::{read_all, read_spans};
pub use crate::scanner::SpanScanner;
pub use crate::slice::SliceSource;
pub use crate::source::BreakSource;
pub use crate::steps::{OwnLedger, Page, StepLedger, Steps};
pub use crate::window::Window;
