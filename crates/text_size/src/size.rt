// Sizes and offsets.
ghost use Rattle.std.specs.Prelude.{◌≡◌, ℕ, ◌+◌, ◌-◌, ◌<◌, ◌≤◌, ◌^◌, Some, SomeIff, MatchResult};
ghost use Rattle.std.specs.Prelude.{sum, sum_by};
ghost use Rattle.std.specs.Fmt.{decimal};

use crate::TextLen;
use std::fmt;
use std::fmt::{Debug, Formatter, Write};
use std::iter::Sum;
use std::marker::Model;
use std::num::TryFromIntError;
use std::ops::{Add, AddAssign, Sub, SubAssign};

/// A number of bytes from 0 to `u32::MAX`: the length of a text, or an offset into one.
///
/// Contracts see it as that number. Equality, order, hash and `Debug` are those of the number.
#[derive(Clone, Copy, Default, PartialEq, Eq, PartialOrd, Ord, Hash)]
pub struct TextSize {
    pub(crate) raw: u32,
}

impl Model for TextSize {
    ghost Value = { ℕ };

    ghost view = { λ size. size.raw };

    ghost invariant = { λ size. size.raw < 2 ^ 32 };

    ghost inverse = { λ number. record { raw = number } };
}

impl Debug for TextSize {
    ghost debug_output = { λ size. Some (decimal size) };

    fn fmt<W: Write>(&self, f: &mut Formatter<W>) -> fmt::Result {
        write!(f, "{}", self.raw)
    }
}

impl TextSize {
    /// The size of this many bytes.
    pub fn new(offset: u32) -> Self
        ensures { result ≡ offset }
    {
        TextSize { raw: offset }
    }

    /// The length of a `&str`, a `&String` or a `char` in bytes of UTF-8, which has to be at most
    /// `u32::MAX`.
    #[inline]
    pub fn of<T: TextLen>(text: T) -> TextSize
        requires { T.byte_length text < 2 ^ 32 }
        ensures { result ≡ T.byte_length text }
    {
        text.text_len()
    }

    /// The number.
    pub fn to_u32(&self) -> u32
        ensures number { result ≡ self.now }
        ensures fits { self.now < 2 ^ 32 }
    {
        self.raw
    }

    /// The number, as an index.
    pub fn to_usize(&self) -> usize
        ensures number { result ≡ self.now }
        ensures fits { self.now < 2 ^ 32 }
    {
        self.raw as usize
    }
}

impl TextSize {
    /// The sum; `None` exactly where it is above `u32::MAX`.
    #[inline]
    pub fn checked_add(self, rhs: TextSize) -> Option<TextSize>
        ensures { SomeIff result (self + rhs < 2 ^ 32) (self + rhs) }
    {
        self.raw.checked_add(rhs.raw).map(|raw| TextSize { raw })
    }

    /// The difference; `None` exactly where it is below 0.
    #[inline]
    pub fn checked_sub(self, rhs: TextSize) -> Option<TextSize>
        ensures { SomeIff result (rhs ≤ self) (self - rhs) }
    {
        self.raw.checked_sub(rhs.raw).map(|raw| TextSize { raw })
    }
}

impl From<u32> for TextSize {
    ghost from_gives = { λ number size. size ≡ number };

    #[inline]
    fn from(raw: u32) -> Self {
        TextSize::new(raw)
    }
}

impl From<TextSize> for u32 {
    ghost from_gives = { λ size number. number ≡ size };

    #[inline]
    fn from(value: TextSize) -> Self {
        value.to_u32()
    }
}

/// An error exactly above `u32::MAX`.
impl TryFrom<usize> for TextSize {
    type Error = TryFromIntError;

    ghost try_from_gives = { λ number outcome. MatchResult outcome
        (λ size. (number < 2 ^ 32) × (size ≡ number)) (λ _. 2 ^ 32 ≤ number) };

    #[inline]
    fn try_from(number: usize) -> Result<TextSize, TryFromIntError> {
        let raw = u32::try_from(number)?;
        Ok(TextSize::new(raw))
    }
}

impl From<TextSize> for usize {
    ghost from_gives = { λ size number. number ≡ size };

    #[inline]
    fn from(value: TextSize) -> Self {
        value.to_usize()
    }
}

impl Add<TextSize> for TextSize {
    type Output = TextSize;

    ghost can_add = { λ a b. a + b < 2 ^ 32 };

    ghost add_gives = { λ a b result. result ≡ a + b };

    #[inline]
    fn add(self, other: TextSize) -> TextSize {
        TextSize {
            raw: self.raw + other.raw,
        }
    }
}

impl Add<&TextSize> for TextSize {
    type Output = TextSize;

    ghost can_add = { λ a b. a + b.now < 2 ^ 32 };

    ghost add_gives = { λ a b result. result ≡ a + b.now };

    #[inline]
    fn add(self, other: &TextSize) -> TextSize {
        self + *other
    }
}

impl Add<TextSize> for &TextSize {
    type Output = TextSize;

    ghost can_add = { λ a b. a.now + b < 2 ^ 32 };

    ghost add_gives = { λ a b result. result ≡ a.now + b };

    #[inline]
    fn add(self, other: TextSize) -> TextSize {
        *self + other
    }
}

impl Add<&TextSize> for &TextSize {
    type Output = TextSize;

    ghost can_add = { λ a b. a.now + b.now < 2 ^ 32 };

    ghost add_gives = { λ a b result. result ≡ a.now + b.now };

    #[inline]
    fn add(self, other: &TextSize) -> TextSize {
        *self + *other
    }
}

impl Sub<TextSize> for TextSize {
    type Output = TextSize;

    ghost can_sub = { λ a b. b ≤ a };

    ghost sub_gives = { λ a b result. result ≡ a - b };

    #[inline]
    fn sub(self, other: TextSize) -> TextSize {
        TextSize {
            raw: self.raw - other.raw,
        }
    }
}

impl Sub<&TextSize> for TextSize {
    type Output = TextSize;

    ghost can_sub = { λ a b. b.now ≤ a };

    ghost sub_gives = { λ a b result. result ≡ a - b.now };

    #[inline]
    fn sub(self, other: &TextSize) -> TextSize {
        self - *other
    }
}

impl Sub<TextSize> for &TextSize {
    type Output = TextSize;

    ghost can_sub = { λ a b. b ≤ a.now };

    ghost sub_gives = { λ a b result. result ≡ a.now - b };

    #[inline]
    fn sub(self, other: TextSize) -> TextSize {
        *self - other
    }
}

impl Sub<&TextSize> for &TextSize {
    type Output = TextSize;

    ghost can_sub = { λ a b. b.now ≤ a.now };

    ghost sub_gives = { λ a b result. result ≡ a.now - b.now };

    #[inline]
    fn sub(self, other: &TextSize) -> TextSize {
        *self - *other
    }
}

impl AddAssign<TextSize> for TextSize {
    ghost can_add_assign = { λ a b. a + b < 2 ^ 32 };

    ghost add_assign_gives = { λ a b result. result ≡ a + b };

    #[inline]
    fn add_assign(&mut self, rhs: TextSize) {
        *self = *self + rhs;
    }
}

impl AddAssign<&TextSize> for TextSize {
    ghost can_add_assign = { λ a b. a + b.now < 2 ^ 32 };

    ghost add_assign_gives = { λ a b result. result ≡ a + b.now };

    #[inline]
    fn add_assign(&mut self, rhs: &TextSize) {
        *self = *self + rhs;
    }
}

impl SubAssign<TextSize> for TextSize {
    ghost can_sub_assign = { λ a b. b ≤ a };

    ghost sub_assign_gives = { λ a b result. result ≡ a - b };

    #[inline]
    fn sub_assign(&mut self, rhs: TextSize) {
        *self = *self - rhs;
    }
}

impl SubAssign<&TextSize> for TextSize {
    ghost can_sub_assign = { λ a b. b.now ≤ a };

    ghost sub_assign_gives = { λ a b result. result ≡ a - b.now };

    #[inline]
    fn sub_assign(&mut self, rhs: &TextSize) {
        *self = *self - rhs;
    }
}

/// Every sum on the way has to be at most `u32::MAX`, which holds exactly where the last one is.
impl Sum<TextSize> for TextSize {
    ghost can_sum = { λ sizes. sum sizes < 2 ^ 32 };

    ghost sum_gives = { λ sizes total. total ≡ sum sizes };

    fn sum<I: Iterator<Item = TextSize>>(iter: I) -> TextSize {
        let mut total = TextSize::new(0);
        for size in iter {
            total += size;
        }
        total
    }
}

/// The same for sizes by reference.
impl<'a> Sum<&'a TextSize> for TextSize {
    ghost can_sum = { λ sizes. sum_by (λ size. size.now) sizes < 2 ^ 32 };

    ghost sum_gives = { λ sizes total. total ≡ sum_by (λ size. size.now) sizes };

    fn sum<I: Iterator<Item = &'a TextSize>>(iter: I) -> TextSize {
        let mut total = TextSize::new(0);
        for size in iter {
            total += size;
        }
        total
    }
}
