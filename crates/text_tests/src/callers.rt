//! A caller that is proved from contracts alone, and is tested beside the others.
ghost use Rattle.std.specs.Prelude.{◌≡◌};
ghost use Rattle.source_location.specs.Index.{index_of};
ghost use Rattle.source_location.specs.Locations.{offset_at};

use source_location::{LineIndex, OneIndexed, SourceLocation};
use text_size::TextSize;

/// Where the first column of a row is, if the text has that row.
pub fn row_begins_at(index: &LineIndex, text: &str, row: OneIndexed) -> Option<TextSize>
    requires { index.now ≡ index_of text.now }
    ensures { result ≡ offset_at text.now (record { row = row; column = 1 }) }
{
    let place = SourceLocation {
        row,
        column: OneIndexed::MIN,
    };
    index.offset_of(text, place)
}
