//! Types for places in a source: lines, columns and bytes.
//!
//! An index is a place, counted from 0. An offset is the signed difference of two places. The
//! result of each operator has to be in the range of its type; that is its condition.
ghost use Rattle.std.specs.Prelude.{◌≡◌, ℕ, ◌+◌, ◌++◌, ◌<◌, ◌≤ℤ◌, pos, length, Some, codes};
ghost use Rattle.std.specs.Fmt.{decimal, signed_decimal};
ghost use Rattle.std.specs.Char.{len_utf8};

mod byte;
mod column;
mod line;

use std::fmt;
use std::fmt::{Formatter, Write};
use std::marker::Model;
use std::ops::{Add, AddAssign, Neg, Sub, SubAssign};

/// A place as a plain number. 32 bits are enough, since a source has fewer than `u32::MAX` bytes.
pub type RawIndex = u32;

/// An offset as a plain number.
pub type RawOffset = i64;

/// A line of a source, from 0.
#[derive(Clone, Copy, Default, PartialEq, Eq, Hash, PartialOrd, Ord)]
pub struct LineIndex(pub RawIndex);

impl LineIndex {
    /// The number to show for the line, from 1. The index is less than `u32::MAX`.
    pub fn number(self) -> LineNumber
        requires { self.0 < u32.MAX }
        ensures { result ≡ self.0 + 1 }
    {
        LineNumber(self.0 + 1)
    }

    /// The index as a `usize`, for use in slices.
    pub fn to_usize(self) -> usize
        ensures { result ≡ self.0 }
    {
        self.0 as usize
    }
}

impl fmt::Debug for LineIndex {
    ghost debug_output = { λ place. Some (codes "LineIndex(" ++ decimal place.0 ++ codes ")") };

    fn fmt<W: Write>(&self, f: &mut Formatter<W>) -> fmt::Result {
        write!(f, "LineIndex({})", self.0)
    }
}

impl fmt::Display for LineIndex {
    ghost output = { λ place. Some (decimal place.0) };

    fn fmt<W: Write>(&self, f: &mut Formatter<W>) -> fmt::Result {
        write!(f, "{}", self.0)
    }
}

/// A line of a source, from 1, as people count them. Contracts see it as that number.
#[derive(Clone, Copy, PartialEq, Eq, Hash, PartialOrd, Ord)]
pub struct LineNumber(RawIndex);

impl Model for LineNumber {
    ghost use Rattle.std.specs.Prelude.{ℕ};

    ghost Value = { ℕ };

    ghost view = { λ number. number.0 };

    ghost inverse = { λ number. record { 0 = number } };
}

impl LineNumber {
    /// The number as a `usize`.
    pub fn to_usize(self) -> usize
        ensures { result ≡ self }
    {
        self.0 as usize
    }
}

impl fmt::Debug for LineNumber {
    ghost debug_output = { λ number. Some (codes "LineNumber(" ++ decimal number ++ codes ")") };

    fn fmt<W: Write>(&self, f: &mut Formatter<W>) -> fmt::Result {
        write!(f, "LineNumber({})", self.0)
    }
}

impl fmt::Display for LineNumber {
    ghost output = { λ number. Some (decimal number) };

    fn fmt<W: Write>(&self, f: &mut Formatter<W>) -> fmt::Result {
        write!(f, "{}", self.0)
    }
}

/// A number of lines, forward or back.
#[derive(Clone, Copy, Default, PartialEq, Eq, Hash, PartialOrd, Ord)]
pub struct LineOffset(pub RawOffset);

impl LineOffset {
    /// The offset as a `usize`, for use in slices. It is not negative.
    pub fn to_usize(self) -> usize
        requires { pos 0 ≤ℤ self.0 }
        ensures { pos result ≡ self.0 }
    {
        self.0 as usize
    }
}

impl fmt::Debug for LineOffset {
    ghost debug_output = { λ place. Some
        (codes "LineOffset(" ++ signed_decimal place.0 ++ codes ")") };

    fn fmt<W: Write>(&self, f: &mut Formatter<W>) -> fmt::Result {
        write!(f, "LineOffset({})", self.0)
    }
}

impl fmt::Display for LineOffset {
    ghost output = { λ place. Some (signed_decimal place.0) };

    fn fmt<W: Write>(&self, f: &mut Formatter<W>) -> fmt::Result {
        write!(f, "{}", self.0)
    }
}

/// A column of a line, from 0, in characters.
#[derive(Clone, Copy, Default, PartialEq, Eq, Hash, PartialOrd, Ord)]
pub struct ColumnIndex(pub RawIndex);

impl ColumnIndex {
    /// The number to show for the column, from 1. The index is less than `u32::MAX`.
    pub fn number(self) -> ColumnNumber
        requires { self.0 < u32.MAX }
        ensures { result ≡ self.0 + 1 }
    {
        ColumnNumber(self.0 + 1)
    }

    /// The index as a `usize`, for use in slices.
    pub fn to_usize(self) -> usize
        ensures { result ≡ self.0 }
    {
        self.0 as usize
    }
}

impl fmt::Debug for ColumnIndex {
    ghost debug_output = { λ place. Some (codes "ColumnIndex(" ++ decimal place.0 ++ codes ")") };

    fn fmt<W: Write>(&self, f: &mut Formatter<W>) -> fmt::Result {
        write!(f, "ColumnIndex({})", self.0)
    }
}

impl fmt::Display for ColumnIndex {
    ghost output = { λ place. Some (decimal place.0) };

    fn fmt<W: Write>(&self, f: &mut Formatter<W>) -> fmt::Result {
        write!(f, "{}", self.0)
    }
}

/// A column of a line, from 1, as people count them. Contracts see it as that number.
#[derive(Clone, Copy, PartialEq, Eq, Hash, PartialOrd, Ord)]
pub struct ColumnNumber(RawIndex);

impl Model for ColumnNumber {
    ghost use Rattle.std.specs.Prelude.{ℕ};

    ghost Value = { ℕ };

    ghost view = { λ number. number.0 };

    ghost inverse = { λ number. record { 0 = number } };
}

impl fmt::Debug for ColumnNumber {
    ghost debug_output = { λ number. Some (codes "ColumnNumber(" ++ decimal number ++ codes ")") };

    fn fmt<W: Write>(&self, f: &mut Formatter<W>) -> fmt::Result {
        write!(f, "ColumnNumber({})", self.0)
    }
}

impl fmt::Display for ColumnNumber {
    ghost output = { λ number. Some (decimal number) };

    fn fmt<W: Write>(&self, f: &mut Formatter<W>) -> fmt::Result {
        write!(f, "{}", self.0)
    }
}

/// A number of columns, forward or back.
#[derive(Clone, Copy, Default, PartialEq, Eq, Hash, PartialOrd, Ord)]
pub struct ColumnOffset(pub RawOffset);

impl ColumnOffset {
    /// The offset as a `usize`, for use in slices. It is not negative.
    pub fn to_usize(self) -> usize
        requires { pos 0 ≤ℤ self.0 }
        ensures { pos result ≡ self.0 }
    {
        self.0 as usize
    }
}

impl fmt::Debug for ColumnOffset {
    ghost debug_output = { λ place. Some
        (codes "ColumnOffset(" ++ signed_decimal place.0 ++ codes ")") };

    fn fmt<W: Write>(&self, f: &mut Formatter<W>) -> fmt::Result {
        write!(f, "ColumnOffset({})", self.0)
    }
}

impl fmt::Display for ColumnOffset {
    ghost output = { λ place. Some (signed_decimal place.0) };

    fn fmt<W: Write>(&self, f: &mut Formatter<W>) -> fmt::Result {
        write!(f, "{}", self.0)
    }
}

/// A byte of a source, from 0, or the end of it.
#[derive(Clone, Copy, Default, PartialEq, Eq, Hash, PartialOrd, Ord)]
pub struct ByteIndex(pub RawIndex);

impl ByteIndex {
    /// The index as a `usize`, for use in slices.
    pub fn to_usize(self) -> usize
        ensures { result ≡ self.0 }
    {
        self.0 as usize
    }
}

impl fmt::Debug for ByteIndex {
    ghost debug_output = { λ place. Some (codes "ByteIndex(" ++ decimal place.0 ++ codes ")") };

    fn fmt<W: Write>(&self, f: &mut Formatter<W>) -> fmt::Result {
        write!(f, "ByteIndex({})", self.0)
    }
}

impl fmt::Display for ByteIndex {
    ghost output = { λ place. Some (decimal place.0) };

    fn fmt<W: Write>(&self, f: &mut Formatter<W>) -> fmt::Result {
        write!(f, "{}", self.0)
    }
}

/// A number of bytes, forward or back.
#[derive(Clone, Copy, Default, PartialEq, Eq, Hash, PartialOrd, Ord)]
pub struct ByteOffset(pub RawOffset);

impl ByteOffset {
    /// How many bytes the character takes in UTF-8.
    pub fn from_char_len(ch: char) -> ByteOffset
        ensures { result.0 ≡ pos (len_utf8 ch) }
    {
        ByteOffset(ch.len_utf8() as RawOffset)
    }

    /// How many bytes the text has.
    pub fn from_str_len(value: &str) -> ByteOffset
        ensures { result.0 ≡ pos (length value.now) }
    {
        ByteOffset(value.len() as RawOffset)
    }

    /// The offset as a `usize`, for use in slices. It is not negative.
    pub fn to_usize(self) -> usize
        requires { pos 0 ≤ℤ self.0 }
        ensures { pos result ≡ self.0 }
    {
        self.0 as usize
    }
}

impl fmt::Debug for ByteOffset {
    ghost debug_output = { λ place. Some
        (codes "ByteOffset(" ++ signed_decimal place.0 ++ codes ")") };

    fn fmt<W: Write>(&self, f: &mut Formatter<W>) -> fmt::Result {
        write!(f, "ByteOffset({})", self.0)
    }
}

impl fmt::Display for ByteOffset {
    ghost output = { λ place. Some (signed_decimal place.0) };

    fn fmt<W: Write>(&self, f: &mut Formatter<W>) -> fmt::Result {
        write!(f, "{}", self.0)
    }
}

/// The difference of two places of one kind. Offsets add up like numbers.
///
/// Each offset keeps these laws, where the sums are in range: `ZERO` added on either side changes
/// nothing; an offset and its opposite add up to `ZERO`; `(a + b) - b` is `a`; `a + (b - a)` is
/// `b`; and `+=` and `-=` do what `+` and `-` do.
pub trait Offset: Copy
    + Ord
    + Neg<Output = Self>
    + Add<Self, Output = Self>
    + AddAssign<Self>
    + Sub<Self, Output = Self>
    + SubAssign<Self> {
    /// The offset from a place to itself.
    const ZERO: Self;

    ghost ZERO: { Self };

    ghost zero_right: { (a r : Self) → Self.add_gives a ZERO r → r ≡ a };

    ghost zero_left: { (a r : Self) → Self.add_gives ZERO a r → r ≡ a };

    ghost opposite: { (a b r : Self) → Self.neg_gives a b → Self.add_gives a b r → r ≡ ZERO };

    ghost back: { (a b r s : Self) → Self.add_gives a b r → Self.sub_gives r b s → s ≡ a };

    ghost forth: { (a b r s : Self) → Self.sub_gives b a r → Self.add_gives a r s → s ≡ b };

    ghost adds_in_place: { (a b r : Self) → Self.add_assign_gives a b r → Self.add_gives a b r };

    ghost subtracts_in_place: { (a b r : Self) → Self.sub_assign_gives a b r
        → Self.sub_gives a b r };
}

/// A place of one kind. A place and an offset give a place, and two places give the offset between
/// them.
///
/// Each index keeps these laws, where the steps are in range: `i + ZERO` is `i`; `(i + a) - a` is
/// `i`; `i + (j - i)` is `j`; and `+=` and `-=` do what `+` and `-` do.
pub trait Index: Copy
    + Ord
    + Add<<Self as Index>::Offset, Output = Self>
    + AddAssign<<Self as Index>::Offset>
    + Sub<<Self as Index>::Offset, Output = Self>
    + SubAssign<<Self as Index>::Offset>
    + Sub<Self, Output = <Self as Index>::Offset> {
    /// The offset between two such places.
    type Offset: Offset;

    ghost stays: { (i r : Self) → Self.add_gives i Self.Offset.ZERO r → r ≡ i };

    ghost back: { (i r s : Self) (a : Self.Offset) → Self.add_gives i a r
        → Self.Sub-1.sub_gives r a s → s ≡ i };

    ghost forth: { (i j s : Self) (a : Self.Offset) → Self.Sub-2.sub_gives j i a
        → Self.add_gives i a s → s ≡ j };

    ghost adds_in_place: { (i r : Self) (a : Self.Offset) → Self.add_assign_gives i a r
        → Self.add_gives i a r };

    ghost subtracts_in_place: { (i r : Self) (a : Self.Offset) → Self.sub_assign_gives i a r
        → Self.Sub-1.sub_gives i a r };
}
