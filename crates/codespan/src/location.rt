//! A place in a source by line and column.
ghost use Rattle.std.specs.Prelude.{◌≡◌};

use crate::{ColumnIndex, LineIndex};

/// A place in a source, by its line and its column in characters, both from 0. Places are ordered
/// by line, then by column.
#[derive(Copy, Clone, Debug, PartialEq, Eq, PartialOrd, Ord, Hash)]
pub struct Location {
    /// The line.
    pub line: LineIndex,
    /// The column, in characters from the line's start.
    pub column: ColumnIndex,
}

impl Location {
    /// The place with that line and column.
    pub fn new(line: LineIndex, column: ColumnIndex) -> Location
        ensures line { result.line ≡ line }
        ensures column { result.column ≡ column }
    {
        Location { line, column }
    }
}
