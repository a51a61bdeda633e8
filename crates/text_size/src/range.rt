// Ranges.
ghost use Rattle.std.specs.Prelude.{◌≡◌, ℕ, ◌+◌, ◌-◌, ◌<◌, ◌≤◌, ◌^◌, ◌++◌, ◌↔◌, Some, codes};
ghost use Rattle.std.specs.Prelude.{IsTrue, IsNone, IfSome, SomeIff, length, slice_range, min, max};
ghost use Rattle.std.specs.Prelude.{⊤};
ghost use Rattle.std.specs.Borrow.{sem};
ghost use Rattle.std.specs.Fmt.{decimal};
ghost use Rattle.std.specs.declared.cmp.Ordering.TheVariants.{Less, Equal, Greater};
ghost use Rattle.std.specs.Str.{IsCharBoundary};
ghost use Rattle.std.specs.declared.ops.Bound.TheVariants.{Included, Excluded};
ghost use Rattle.text_size.specs.Lending.{LendsPart};
ghost use Rattle.text_size.specs.Ranges.{HoldsRange, IsLeastHolding};

use crate::TextSize;
use std::cmp::Ordering;
use std::fmt::{Debug, Formatter, Write};
use std::marker::Model;
use std::ops::{Add, AddAssign, Bound, Range, RangeBounds, Sub, SubAssign};
use std::{cmp, fmt};

/// A range of a text in bytes: a start, and an exclusive end that is never before the start.
///
/// Contracts see it as the pair of its start and its end. Equality, hash and `Debug` are those of
/// the pair.
#[derive(Default, Copy, Clone, Eq, PartialEq, Hash)]
pub struct TextRange {
    start: TextSize,
    end: TextSize,
}

impl Model for TextRange {
    ghost Value = { ℕ × ℕ };

    ghost view = { λ range. (range.start, range.end) };

    ghost invariant = { λ range. range.start ≤ range.end };

    ghost inverse = { λ pair. record { start = pair.0; end = pair.1 } };
}

impl Debug for TextRange {
    ghost debug_output = { λ range. Some (decimal range.0 ++ codes ".." ++ decimal range.1) };

    fn fmt<W: Write>(&self, f: &mut Formatter<W>) -> fmt::Result {
        write!(f, "{:?}..{:?}", self.start, self.end)
    }
}

impl TextRange {
    /// The range from `start` to `end`, which must not be before `start`.
    #[inline]
    pub fn new(start: TextSize, end: TextSize) -> TextRange
        requires { start ≤ end }
        ensures { result ≡ (start, end) }
    {
        TextRange { start, end }
    }

    /// The range of `len` bytes from `offset`; the sum has to be at most `u32::MAX`.
    #[inline]
    pub fn at(offset: TextSize, len: TextSize) -> TextRange
        requires { offset + len < 2 ^ 32 }
        ensures { result ≡ (offset, offset + len) }
    {
        TextRange::new(offset, offset + len)
    }

    /// The empty range at `offset`.
    #[inline]
    pub fn empty(offset: TextSize) -> TextRange
        ensures { result ≡ (offset, offset) }
    {
        TextRange {
            start: offset,
            end: offset,
        }
    }

    /// The range from 0 to `end`.
    #[inline]
    pub fn up_to(end: TextSize) -> TextRange
        ensures { result ≡ (0, end) }
    {
        TextRange {
            start: 0.into(),
            end,
        }
    }
}

impl TextRange {
    /// Where the range starts.
    #[inline]
    pub fn start(self) -> TextSize
        ensures start { result ≡ self.0 }
        ensures ordered { self.0 ≤ self.1 }
    {
        self.start
    }

    /// Where the range ends: the first offset after it.
    #[inline]
    pub fn end(self) -> TextSize
        ensures end { result ≡ self.1 }
        ensures ordered { self.0 ≤ self.1 }
        ensures fits { self.1 < 2 ^ 32 }
    {
        // Reading the number makes its bound known.
        let _ = &self.end.raw;
        self.end
    }

    /// The number of bytes in the range.
    #[inline]
    pub fn len(self) -> TextSize
        ensures difference { result ≡ self.1 - self.0 }
        ensures ordered { self.0 ≤ self.1 }
    {
        self.end - self.start
    }

    /// Whether the range has no bytes.
    #[inline]
    pub fn is_empty(self) -> bool
        ensures { IsTrue result ↔ (self.0 ≡ self.1) }
    {
        self.start == self.end
    }
}

impl TextRange {
    /// Whether the offset is in the range; the end isn't.
    #[inline]
    pub fn contains(self, offset: TextSize) -> bool
        ensures { IsTrue result ↔ ((self.0 ≤ offset) × (offset < self.1)) }
    {
        self.start <= offset && offset < self.end
    }

    /// Whether the offset is in the range or at its end.
    #[inline]
    pub fn contains_inclusive(self, offset: TextSize) -> bool
        ensures { IsTrue result ↔ ((self.0 ≤ offset) × (offset ≤ self.1)) }
    {
        self.start <= offset && offset <= self.end
    }

    /// Whether `other` lies within this range.
    #[inline]
    pub fn contains_range(self, other: TextRange) -> bool
        ensures { IsTrue result ↔ HoldsRange self other }
    {
        self.start <= other.start && other.end <= self.end
    }

    /// The bytes that the two ranges have in common. Ranges that touch give an empty range; `None`
    /// is given exactly where the smaller end is less than the larger start.
    #[inline]
    pub fn intersect(self, other: TextRange) -> Option<TextRange>
        ensures apart { IsNone result ↔ (min self.1 other.1 < max self.0 other.0) }
        ensures common { IfSome result (λ range. range ≡ (max self.0 other.0, min self.1 other.1)) }
    {
        let start = cmp::max(self.start, other.start);
        let end = cmp::min(self.end, other.end);
        if end < start {
            return None;
        }
        Some(TextRange::new(start, end))
    }

    /// The least range that holds both ranges.
    #[inline]
    #[must_use]
    pub fn cover(self, other: TextRange) -> TextRange
        ensures least { IsLeastHolding result self other }
        ensures ends { result ≡ (min self.0 other.0, max self.1 other.1) }
    {
        let start = cmp::min(self.start, other.start);
        let end = cmp::max(self.end, other.end);
        TextRange::new(start, end)
    }

    /// The least range that holds this range and the empty range at `offset`.
    #[inline]
    #[must_use]
    pub fn cover_offset(self, offset: TextSize) -> TextRange
        ensures least { IsLeastHolding result self (offset, offset) }
        ensures ends { result ≡ (min self.0 offset, max self.1 offset) }
    {
        self.cover(TextRange::empty(offset))
    }

    /// The range moved up by `offset`; `None` exactly where an end would be above `u32::MAX`.
    #[inline]
    pub fn checked_add(self, offset: TextSize) -> Option<TextRange>
        ensures { SomeIff result (self.1 + offset < 2 ^ 32) (self.0 + offset, self.1 + offset) }
    {
        Some(TextRange {
            start: self.start.checked_add(offset)?,
            end: self.end.checked_add(offset)?,
        })
    }

    /// The range moved down by `offset`; `None` exactly where an end would be below 0.
    #[inline]
    pub fn checked_sub(self, offset: TextSize) -> Option<TextRange>
        ensures { SomeIff result (offset ≤ self.0) (self.0 - offset, self.1 - offset) }
    {
        Some(TextRange {
            start: self.start.checked_sub(offset)?,
            end: self.end.checked_sub(offset)?,
        })
    }

    /// `Less` where this range ends at or before the start of `other`; else `Greater` where `other`
    /// ends at or before the start of this range; else `Equal`: the two overlap.
    #[inline]
    pub fn ordering(self, other: TextRange) -> Ordering
        ensures less { (result ≡ Less) ↔ (self.1 ≤ other.0) }
        ensures greater { (result ≡ Greater) ↔ ((other.0 < self.1) × (other.1 ≤ self.0)) }
        ensures equal { (result ≡ Equal) ↔ ((other.0 < self.1) × (self.0 < other.1)) }
    {
        if self.end <= other.start {
            Ordering::Less
        } else if other.end <= self.start {
            Ordering::Greater
        } else {
            Ordering::Equal
        }
    }

    /// The range with its start moved down by `amount`, which is at most the start.
    #[inline]
    #[must_use]
    pub fn sub_start(&self, amount: TextSize) -> TextRange
        requires { amount ≤ self.now.0 }
        ensures { result ≡ (self.now.0 - amount, self.now.1) }
    {
        TextRange::new(self.start - amount, self.end)
    }

    /// The range with its start moved up by `amount`, at most to its end.
    #[inline]
    #[must_use]
    pub fn add_start(&self, amount: TextSize) -> TextRange
        requires { self.now.0 + amount ≤ self.now.1 }
        ensures { result ≡ (self.now.0 + amount, self.now.1) }
    {
        let end = self.end();
        TextRange::new(self.start + amount, end)
    }

    /// The range with its end moved down by `amount`, at most to its start.
    #[inline]
    #[must_use]
    pub fn sub_end(&self, amount: TextSize) -> TextRange
        requires { self.now.0 + amount ≤ self.now.1 }
        ensures { result ≡ (self.now.0, self.now.1 - amount) }
    {
        TextRange::new(self.start, self.end - amount)
    }

    /// The range with its end moved up by `amount`, at most to `u32::MAX`.
    #[inline]
    #[must_use]
    pub fn add_end(&self, amount: TextSize) -> TextRange
        requires { self.now.1 + amount < 2 ^ 32 }
        ensures { result ≡ (self.now.0, self.now.1 + amount) }
    {
        TextRange::new(self.start, self.end + amount)
    }
}

/// The bytes of the text in the range, whose ends are both boundaries of characters of the text.
#[inline]
pub fn slice(text: &str, range: TextRange) -> &str
    requires start { IsCharBoundary text.now range.0 }
    requires end { IsCharBoundary text.now range.1 }
    ensures { result.now ≡ slice_range text.now range.0 range.1 }
{
    &text[Range::<usize>::from(range)]
}

/// The bytes in the range, to be written. The range's end has to be at most the number of bytes.
///
/// When the borrow ends, the bytes of the range are those last written, and all others are
/// unchanged.
#[inline]
pub fn slice_mut(text: &mut [u8], range: TextRange) -> &mut [u8]
    requires { range.1 ≤ length text.old }
    ensures* writes_back { sem 𝓛 (LendsPart text.entry range.0 range.1 result) }
    ensures bytes { result.now ≡ slice_range text.old range.0 range.1 }
    ensures len { length result.now ≡ range.1 - range.0 }
{
    &mut text[range.start.raw as usize..range.end.raw as usize]
}

impl RangeBounds<TextSize> for TextRange {
    ghost has_bounds = { λ _. ⊤ };

    ghost start_bound = { λ range. Included range.0 };

    ghost end_bound = { λ range. Excluded range.1 };

    fn start_bound(&self) -> Bound<&TextSize> {
        Bound::Included(&self.start)
    }

    fn end_bound(&self) -> Bound<&TextSize> {
        Bound::Excluded(&self.end)
    }
}

impl TextRange {
    /// The same range; its end must not be before its start.
    #[inline]
    pub fn from_range(range: Range<TextSize>) -> TextRange
        requires { range.start ≤ range.end }
        ensures { result ≡ (range.start, range.end) }
    {
        TextRange::new(range.start, range.end)
    }
}

impl From<TextRange> for Range<u32> {
    ghost from_gives = { λ pair range. (range.start ≡ pair.0) × (range.end ≡ pair.1) };

    #[inline]
    fn from(range: TextRange) -> Self {
        range.start().into()..range.end().into()
    }
}

impl From<TextRange> for Range<usize> {
    ghost from_gives = { λ pair range. (range.start ≡ pair.0) × (range.end ≡ pair.1) };

    #[inline]
    fn from(range: TextRange) -> Self {
        range.start().into()..range.end().into()
    }
}

impl Add<TextSize> for TextRange {
    type Output = TextRange;

    ghost can_add = { λ r n. r.1 + n < 2 ^ 32 };

    ghost add_gives = { λ r n result. result ≡ (r.0 + n, r.1 + n) };

    #[inline]
    fn add(self, offset: TextSize) -> TextRange {
        TextRange {
            start: self.start + offset,
            end: self.end + offset,
        }
    }
}

impl Add<&TextSize> for TextRange {
    type Output = TextRange;

    ghost can_add = { λ r n. r.1 + n.now < 2 ^ 32 };

    ghost add_gives = { λ r n result. result ≡ (r.0 + n.now, r.1 + n.now) };

    #[inline]
    fn add(self, offset: &TextSize) -> TextRange {
        self + *offset
    }
}

impl Add<TextSize> for &TextRange {
    type Output = TextRange;

    ghost can_add = { λ r n. r.now.1 + n < 2 ^ 32 };

    ghost add_gives = { λ r n result. result ≡ (r.now.0 + n, r.now.1 + n) };

    #[inline]
    fn add(self, offset: TextSize) -> TextRange {
        *self + offset
    }
}

impl Add<&TextSize> for &TextRange {
    type Output = TextRange;

    ghost can_add = { λ r n. r.now.1 + n.now < 2 ^ 32 };

    ghost add_gives = { λ r n result. result ≡ (r.now.0 + n.now, r.now.1 + n.now) };

    #[inline]
    fn add(self, offset: &TextSize) -> TextRange {
        *self + *offset
    }
}

impl Sub<TextSize> for TextRange {
    type Output = TextRange;

    ghost can_sub = { λ r n. n ≤ r.0 };

    ghost sub_gives = { λ r n result. result ≡ (r.0 - n, r.1 - n) };

    #[inline]
    fn sub(self, offset: TextSize) -> TextRange {
        TextRange {
            start: self.start - offset,
            end: self.end - offset,
        }
    }
}

impl Sub<&TextSize> for TextRange {
    type Output = TextRange;

    ghost can_sub = { λ r n. n.now ≤ r.0 };

    ghost sub_gives = { λ r n result. result ≡ (r.0 - n.now, r.1 - n.now) };

    #[inline]
    fn sub(self, offset: &TextSize) -> TextRange {
        self - *offset
    }
}

impl Sub<TextSize> for &TextRange {
    type Output = TextRange;

    ghost can_sub = { λ r n. n ≤ r.now.0 };

    ghost sub_gives = { λ r n result. result ≡ (r.now.0 - n, r.now.1 - n) };

    #[inline]
    fn sub(self, offset: TextSize) -> TextRange {
        *self - offset
    }
}

impl Sub<&TextSize> for &TextRange {
    type Output = TextRange;

    ghost can_sub = { λ r n. n.now ≤ r.now.0 };

    ghost sub_gives = { λ r n result. result ≡ (r.now.0 - n.now, r.now.1 - n.now) };

    #[inline]
    fn sub(self, offset: &TextSize) -> TextRange {
        *self - *offset
    }
}

impl AddAssign<TextSize> for TextRange {
    ghost can_add_assign = { λ r n. r.1 + n < 2 ^ 32 };

    ghost add_assign_gives = { λ r n result. result ≡ (r.0 + n, r.1 + n) };

    #[inline]
    fn add_assign(&mut self, rhs: TextSize) {
        *self = *self + rhs;
    }
}

impl AddAssign<&TextSize> for TextRange {
    ghost can_add_assign = { λ r n. r.1 + n.now < 2 ^ 32 };

    ghost add_assign_gives = { λ r n result. result ≡ (r.0 + n.now, r.1 + n.now) };

    #[inline]
    fn add_assign(&mut self, rhs: &TextSize) {
        *self = *self + rhs;
    }
}

impl SubAssign<TextSize> for TextRange {
    ghost can_sub_assign = { λ r n. n ≤ r.0 };

    ghost sub_assign_gives = { λ r n result. result ≡ (r.0 - n, r.1 - n) };

    #[inline]
    fn sub_assign(&mut self, rhs: TextSize) {
        *self = *self - rhs;
    }
}

impl SubAssign<&TextSize> for TextRange {
    ghost can_sub_assign = { λ r n. n.now ≤ r.0 };

    ghost sub_assign_gives = { λ r n result. result ≡ (r.0 - n.now, r.1 - n.now) };

    #[inline]
    fn sub_assign(&mut self, rhs: &TextSize) {
        *self = *self - rhs;
    }
}
