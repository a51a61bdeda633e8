// Positions as language servers count them.

/// A position in a text as language servers count it: the line, and the UTF-16 unit in it, both
/// from 0.
///
/// A character up to U+FFFF is one unit, one past it two. Positions are ordered by line, then by
/// unit.
#[derive(Clone, Copy, Default, PartialEq, Eq, PartialOrd, Ord, Hash)]
pub struct Place16 {
    /// The line, from 0.
    pub line: u32,
    /// How many UTF-16 units of the line are before the place.
    pub unit: u32,
}
