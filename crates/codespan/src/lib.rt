//! A database of source files with typed places.
#![tactic(auto)]

mod file;
mod index;
mod location;
mod span;

pub use file::{AddError, FileId, Files, SourceText};
pub use index::{
    ByteIndex, ByteOffset, ColumnIndex, ColumnNumber, ColumnOffset, Index, LineIndex, LineNumber,
    LineOffset, Offset, RawIndex, RawOffset,
};
pub use location::Location;
pub use span::Span;
