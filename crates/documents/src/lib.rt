//! Documents: source files and reports on them, as JSON; and the devices that programs read.
//!
//! Input passes through the modules in this order:
//!
//! - `source`: the trait of devices that give bytes, and the loop that reads one to its end;
//!   `memory` and `streams` have such devices
//! - `document`: the document that the bytes state, by `fields` (the keys of an object) and
//!   `values` (their values)
//! - `generated`: a document of any size, for measuring
//! - `written`: files and reports, written as a document
#![tactic(auto)]

mod document;
mod fields;
mod generated;
mod memory;
mod source;
mod streams;
mod values;
mod written;

pub use document::{Document, read_document};
pub use generated::generate;
pub use memory::MemorySource;
pub use source::{Reading, Source, read_all};
pub use streams::{ReaderSource, StderrSink, StdinSource, StdoutSink, WriterSink};
pub use written::write_document;
