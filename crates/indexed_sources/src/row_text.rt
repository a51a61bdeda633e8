// A text with the index of its rows.
ghost use Rattle.std.specs.Prelude.{◌≡◌};
ghost use Rattle.source_location.specs.Index.{Fits, index_of};

use source_location::LineIndex;

/// A text of fewer than `u32::MAX` bytes, and the index of its rows.
#[derive(Drop)]
pub struct RowText<'s> {
    /// The text.
    pub text: &'s str,
    /// Its index.
    pub index: &'s LineIndex,
    ghost short: { Fits text.now },
    ghost indexed: { index.now ≡ index_of text.now },
}
