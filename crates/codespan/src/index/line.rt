//! The operators of `LineIndex` and `LineOffset`.
ghost use Rattle.std.specs.Prelude.{◌≡◌, ◌<◌, pos, ◌+ℤ◌, ◌-ℤ◌, neg_ℤ, FitsSigned};
ghost use Rattle.std.specs.Int.{w32, w64, FitsUnsigned};

use super::{Index, LineIndex, LineOffset, Offset, RawIndex, RawOffset};
use std::ops::{Add, AddAssign, Neg, Sub, SubAssign};

impl From<RawOffset> for LineOffset {
    ghost from_gives = { λ number offset. offset.0 ≡ number };

    fn from(number: RawOffset) -> LineOffset {
        LineOffset(number)
    }
}

impl From<RawIndex> for LineIndex {
    ghost from_gives = { λ number index. index.0 ≡ number };

    fn from(number: RawIndex) -> LineIndex {
        LineIndex(number)
    }
}

impl From<LineIndex> for RawIndex {
    ghost from_gives = { λ index number. number ≡ index.0 };

    fn from(index: LineIndex) -> RawIndex {
        index.0
    }
}

impl From<LineOffset> for RawOffset {
    ghost from_gives = { λ offset number. number ≡ offset.0 };

    fn from(offset: LineOffset) -> RawOffset {
        offset.0
    }
}

impl From<LineIndex> for usize {
    ghost from_gives = { λ index number. number ≡ index.0 };

    fn from(index: LineIndex) -> usize {
        index.0 as usize
    }
}

impl Offset for LineOffset {
    ghost use Rattle.std.specs.Prelude.{pos};
    ghost use Rattle.std.proofs.Common.{ap};
    ghost use Rattle.codespan.specs.Laws.{number_zero_right, number_zero_left, number_opposite};
    ghost use Rattle.codespan.specs.Laws.{number_back, number_forth};

    const ZERO: LineOffset = LineOffset(0);

    ghost ZERO = { record { 0 = pos 0 } };

    ghost zero_right = { λ a r e. ap (λ n. record { 0 = n }) (number_zero_right a.0 r.0 e) };

    ghost zero_left = { λ a r e. ap (λ n. record { 0 = n }) (number_zero_left a.0 r.0 e) };

    ghost opposite = { λ a b r e f. ap (λ n. record { 0 = n }) (number_opposite a.0 b.0 r.0 e f) };

    ghost back = { λ a b r s e f. ap (λ n. record { 0 = n }) (number_back a.0 b.0 r.0 s.0 e f) };

    ghost forth = { λ a b r s e f. ap (λ n. record { 0 = n }) (number_forth a.0 b.0 r.0 s.0 e f) };

    ghost adds_in_place = { λ a b r e. e };

    ghost subtracts_in_place = { λ a b r e. e };
}

impl Index for LineIndex {
    type Offset = LineOffset;

    ghost use Rattle.std.proofs.Common.{ap};
    ghost use Rattle.codespan.specs.Laws.{place_stays, place_back, place_forth};

    ghost stays = { λ i r e. ap (λ n. record { 0 = n }) (place_stays i.0 r.0 e) };

    ghost back = { λ i r s a e f. ap (λ n. record { 0 = n }) (place_back i.0 r.0 s.0 a.0 e f) };

    ghost forth = { λ i j s a e f. ap (λ n. record { 0 = n }) (place_forth i.0 j.0 s.0 a.0 e f) };

    ghost adds_in_place = { λ i r a e. e };

    ghost subtracts_in_place = { λ i r a e. e };
}

impl Add<LineOffset> for LineIndex {
    type Output = LineIndex;

    ghost can_add = { λ i a. FitsUnsigned w32 (pos i.0 +ℤ a.0) };

    ghost add_gives = { λ i a r. pos r.0 ≡ (pos i.0 +ℤ a.0) };

    fn add(self, rhs: LineOffset) -> LineIndex {
        LineIndex((self.0 as RawOffset + rhs.0) as RawIndex)
    }
}

impl AddAssign<LineOffset> for LineIndex {
    ghost can_add_assign = { λ i a. FitsUnsigned w32 (pos i.0 +ℤ a.0) };

    ghost add_assign_gives = { λ i a r. pos r.0 ≡ (pos i.0 +ℤ a.0) };

    fn add_assign(&mut self, rhs: LineOffset) {
        *self = *self + rhs;
    }
}

impl Neg for LineOffset {
    type Output = LineOffset;

    ghost can_neg = { λ a. FitsSigned w64 (neg_ℤ a.0) };

    ghost neg_gives = { λ a r. r.0 ≡ neg_ℤ a.0 };

    fn neg(self) -> LineOffset {
        LineOffset(-self.0)
    }
}

impl Add<LineOffset> for LineOffset {
    type Output = LineOffset;

    ghost can_add = { λ a b. FitsSigned w64 (a.0 +ℤ b.0) };

    ghost add_gives = { λ a b r. r.0 ≡ (a.0 +ℤ b.0) };

    fn add(self, rhs: LineOffset) -> LineOffset {
        LineOffset(self.0 + rhs.0)
    }
}

impl AddAssign<LineOffset> for LineOffset {
    ghost can_add_assign = { λ a b. FitsSigned w64 (a.0 +ℤ b.0) };

    ghost add_assign_gives = { λ a b r. r.0 ≡ (a.0 +ℤ b.0) };

    fn add_assign(&mut self, rhs: LineOffset) {
        self.0 += rhs.0;
    }
}

impl Sub<LineOffset> for LineOffset {
    type Output = LineOffset;

    ghost can_sub = { λ a b. FitsSigned w64 (a.0 -ℤ b.0) };

    ghost sub_gives = { λ a b r. r.0 ≡ (a.0 -ℤ b.0) };

    fn sub(self, rhs: LineOffset) -> LineOffset {
        LineOffset(self.0 - rhs.0)
    }
}

impl SubAssign<LineOffset> for LineOffset {
    ghost can_sub_assign = { λ a b. FitsSigned w64 (a.0 -ℤ b.0) };

    ghost sub_assign_gives = { λ a b r. r.0 ≡ (a.0 -ℤ b.0) };

    fn sub_assign(&mut self, rhs: LineOffset) {
        self.0 -= rhs.0;
    }
}

impl Sub<LineIndex> for LineIndex {
    type Output = LineOffset;

    ghost sub_gives = { λ i j r. r.0 ≡ (pos i.0 -ℤ pos j.0) };

    fn sub(self, rhs: LineIndex) -> LineOffset {
        LineOffset(self.0 as RawOffset - rhs.0 as RawOffset)
    }
}

impl Sub<LineOffset> for LineIndex {
    type Output = LineIndex;

    ghost can_sub = { λ i a. FitsUnsigned w32 (pos i.0 -ℤ a.0) };

    ghost sub_gives = { λ i a r. pos r.0 ≡ (pos i.0 -ℤ a.0) };

    fn sub(self, rhs: LineOffset) -> LineIndex {
        LineIndex((self.0 as RawOffset - rhs.0) as RawIndex)
    }
}

impl SubAssign<LineOffset> for LineIndex {
    ghost can_sub_assign = { λ i a. FitsUnsigned w32 (pos i.0 -ℤ a.0) };

    ghost sub_assign_gives = { λ i a r. pos r.0 ≡ (pos i.0 -ℤ a.0) };

    fn sub_assign(&mut self, rhs: LineOffset) {
        *self = *self - rhs;
    }
}
