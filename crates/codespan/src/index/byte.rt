//! The operators of `ByteIndex` and `ByteOffset`.
ghost use Rattle.std.specs.Prelude.{◌≡◌, ◌<◌, pos, ◌+ℤ◌, ◌-ℤ◌, neg_ℤ, FitsSigned};
ghost use Rattle.std.specs.Int.{w32, w64, FitsUnsigned};

use super::{ByteIndex, ByteOffset, Index, Offset, RawIndex, RawOffset};
use std::ops::{Add, AddAssign, Neg, Sub, SubAssign};

impl From<RawOffset> for ByteOffset {
    ghost from_gives = { λ number offset. offset.0 ≡ number };

    fn from(number: RawOffset) -> ByteOffset {
        ByteOffset(number)
    }
}

impl From<RawIndex> for ByteIndex {
    ghost from_gives = { λ number index. index.0 ≡ number };

    fn from(number: RawIndex) -> ByteIndex {
        ByteIndex(number)
    }
}

impl From<ByteIndex> for RawIndex {
    ghost from_gives = { λ index number. number ≡ index.0 };

    fn from(index: ByteIndex) -> RawIndex {
        index.0
    }
}

impl From<ByteOffset> for RawOffset {
    ghost from_gives = { λ offset number. number ≡ offset.0 };

    fn from(offset: ByteOffset) -> RawOffset {
        offset.0
    }
}

impl From<ByteIndex> for usize {
    ghost from_gives = { λ index number. number ≡ index.0 };

    fn from(index: ByteIndex) -> usize {
        index.0 as usize
    }
}

impl Offset for ByteOffset {
    ghost use Rattle.std.specs.Prelude.{pos};
    ghost use Rattle.std.proofs.Common.{ap};
    ghost use Rattle.codespan.specs.Laws.{number_zero_right, number_zero_left, number_opposite};
    ghost use Rattle.codespan.specs.Laws.{number_back, number_forth};

    const ZERO: ByteOffset = ByteOffset(0);

    ghost ZERO = { record { 0 = pos 0 } };

    ghost zero_right = { λ a r e. ap (λ n. record { 0 = n }) (number_zero_right a.0 r.0 e) };

    ghost zero_left = { λ a r e. ap (λ n. record { 0 = n }) (number_zero_left a.0 r.0 e) };

    ghost opposite = { λ a b r e f. ap (λ n. record { 0 = n }) (number_opposite a.0 b.0 r.0 e f) };

    ghost back = { λ a b r s e f. ap (λ n. record { 0 = n }) (number_back a.0 b.0 r.0 s.0 e f) };

    ghost forth = { λ a b r s e f. ap (λ n. record { 0 = n }) (number_forth a.0 b.0 r.0 s.0 e f) };

    ghost adds_in_place = { λ a b r e. e };

    ghost subtracts_in_place = { λ a b r e. e };
}

impl Index for ByteIndex {
    type Offset = ByteOffset;

    ghost use Rattle.std.proofs.Common.{ap};
    ghost use Rattle.codespan.specs.Laws.{place_stays, place_back, place_forth};

    ghost stays = { λ i r e. ap (λ n. record { 0 = n }) (place_stays i.0 r.0 e) };

    ghost back = { λ i r s a e f. ap (λ n. record { 0 = n }) (place_back i.0 r.0 s.0 a.0 e f) };

    ghost forth = { λ i j s a e f. ap (λ n. record { 0 = n }) (place_forth i.0 j.0 s.0 a.0 e f) };

    ghost adds_in_place = { λ i r a e. e };

    ghost subtracts_in_place = { λ i r a e. e };
}

impl Add<ByteOffset> for ByteIndex {
    type Output = ByteIndex;

    ghost can_add = { λ i a. FitsUnsigned w32 (pos i.0 +ℤ a.0) };

    ghost add_gives = { λ i a r. pos r.0 ≡ (pos i.0 +ℤ a.0) };

    fn add(self, rhs: ByteOffset) -> ByteIndex {
        ByteIndex((self.0 as RawOffset + rhs.0) as RawIndex)
    }
}

impl AddAssign<ByteOffset> for ByteIndex {
    ghost can_add_assign = { λ i a. FitsUnsigned w32 (pos i.0 +ℤ a.0) };

    ghost add_assign_gives = { λ i a r. pos r.0 ≡ (pos i.0 +ℤ a.0) };

    fn add_assign(&mut self, rhs: ByteOffset) {
        *self = *self + rhs;
    }
}

impl Neg for ByteOffset {
    type Output = ByteOffset;

    ghost can_neg = { λ a. FitsSigned w64 (neg_ℤ a.0) };

    ghost neg_gives = { λ a r. r.0 ≡ neg_ℤ a.0 };

    fn neg(self) -> ByteOffset {
        ByteOffset(-self.0)
    }
}

impl Add<ByteOffset> for ByteOffset {
    type Output = ByteOffset;

    ghost can_add = { λ a b. FitsSigned w64 (a.0 +ℤ b.0) };

    ghost add_gives = { λ a b r. r.0 ≡ (a.0 +ℤ b.0) };

    fn add(self, rhs: ByteOffset) -> ByteOffset {
        ByteOffset(self.0 + rhs.0)
    }
}

impl AddAssign<ByteOffset> for ByteOffset {
    ghost can_add_assign = { λ a b. FitsSigned w64 (a.0 +ℤ b.0) };

    ghost add_assign_gives = { λ a b r. r.0 ≡ (a.0 +ℤ b.0) };

    fn add_assign(&mut self, rhs: ByteOffset) {
        self.0 += rhs.0;
    }
}

impl Sub<ByteOffset> for ByteOffset {
    type Output = ByteOffset;

    ghost can_sub = { λ a b. FitsSigned w64 (a.0 -ℤ b.0) };

    ghost sub_gives = { λ a b r. r.0 ≡ (a.0 -ℤ b.0) };

    fn sub(self, rhs: ByteOffset) -> ByteOffset {
        ByteOffset(self.0 - rhs.0)
    }
}

impl SubAssign<ByteOffset> for ByteOffset {
    ghost can_sub_assign = { λ a b. FitsSigned w64 (a.0 -ℤ b.0) };

    ghost sub_assign_gives = { λ a b r. r.0 ≡ (a.0 -ℤ b.0) };

    fn sub_assign(&mut self, rhs: ByteOffset) {
        self.0 -= rhs.0;
    }
}

impl Sub<ByteIndex> for ByteIndex {
    type Output = ByteOffset;

    ghost sub_gives = { λ i j r. r.0 ≡ (pos i.0 -ℤ pos j.0) };

    fn sub(self, rhs: ByteIndex) -> ByteOffset {
        ByteOffset(self.0 as RawOffset - rhs.0 as RawOffset)
    }
}

impl Sub<ByteOffset> for ByteIndex {
    type Output = ByteIndex;

    ghost can_sub = { λ i a. FitsUnsigned w32 (pos i.0 -ℤ a.0) };

    ghost sub_gives = { λ i a r. pos r.0 ≡ (pos i.0 -ℤ a.0) };

    fn sub(self, rhs: ByteOffset) -> ByteIndex {
        ByteIndex((self.0 as RawOffset - rhs.0) as RawIndex)
    }
}

impl SubAssign<ByteOffset> for ByteIndex {
    ghost can_sub_assign = { λ i a. FitsUnsigned w32 (pos i.0 -ℤ a.0) };

    ghost sub_assign_gives = { λ i a r. pos r.0 ≡ (pos i.0 -ℤ a.0) };

    fn sub_assign(&mut self, rhs: ByteOffset) {
        *self = *self - rhs;
    }
}
