//! The first and the last LF or CR of some bytes, found a vector at a time.
ghost use Rattle.std.specs.Prelude.{◌≡◌, ◌≢◌, ◌↔◌, ℕ, ◌<◌, ◌≤◌, true, length, slice_index};
ghost use Rattle.std.specs.Prelude.{MatchOption};
ghost use Rattle.std.specs.Int.{bit_at};
ghost use Rattle.memchr.specs.Find.{IsFirst, IsFirstByte, IsLast, IsLastByte, Passes, is_byte2};

use std::simd::prelude::*;

/// The place of the first LF or CR.
pub(crate) fn first_of_breaks(bytes: &[u8]) -> Option<usize>
    ensures { IsFirstByte (is_byte2 10 13) bytes.now result }
{
    let mut start = 0;
    while bytes.len() - start >= 32 {
        let marked = marks(u8x32::from_slice(&bytes[start..]));
        if marked != 0 {
            return Some(start + lowest(marked));
        }
        start += 32;
    }
    first_from(bytes, start)
}

/// The place of the first LF or CR from `start` on, byte by byte.
fn first_from(bytes: &[u8], start: usize) -> Option<usize>
    requires { start ≤ length bytes.now }
    ensures { IsFirst (Passes (is_byte2 10 13) bytes.now) start (length bytes.now) result }
{
    let mut place = start;
    while place < bytes.len() {
        if matches!(bytes[place], b'\n' | b'\r') {
            return Some(place);
        }
        place += 1;
    }
    None
}

/// The place of the last LF or CR.
pub(crate) fn last_of_breaks(bytes: &[u8]) -> Option<usize>
    ensures { IsLastByte (is_byte2 10 13) bytes.now result }
{
    let mut end = bytes.len();
    while end >= 32 {
        let marked = marks(u8x32::from_slice(&bytes[end - 32..]));
        if marked != 0 {
            return Some(end - 32 + highest(marked));
        }
        end -= 32;
    }
    last_before(bytes, end)
}

/// The place of the last LF or CR before a place, byte by byte.
fn last_before(bytes: &[u8], end: usize) -> Option<usize>
    requires { end ≤ length bytes.now }
    ensures { IsLast (Passes (is_byte2 10 13) bytes.now) 0 end result }
{
    let mut place = end;
    while place > 0 {
        place -= 1;
        if matches!(bytes[place], b'\n' | b'\r') {
            return Some(place);
        }
    }
    None
}

/// The bits of the lanes that hold an LF or a CR, the first lane's the lowest.
#[inline]
fn marks(lanes: u8x32) -> u64
    ensures { (lane : ℕ) → (bit_at result lane ≡ 1)
        ↔ (is_byte2 10 13 (slice_index lanes lane) ≡ true) }
{
    let line_feeds = lanes.simd_eq(u8x32::splat(b'\n'));
    let carriage_returns = lanes.simd_eq(u8x32::splat(b'\r'));
    (line_feeds | carriage_returns).to_bitmask()
}

/// The place of the lowest bit that is set.
#[inline]
fn lowest(marked: u64) -> usize
    requires { marked ≢ 0 }
    ensures set { bit_at marked result ≡ 1 }
    ensures below { (lane : ℕ) → lane < result → bit_at marked lane ≡ 0 }
{
    marked.trailing_zeros() as usize
}

/// The place of the highest bit that is set.
#[inline]
fn highest(marked: u64) -> usize
    requires { marked ≢ 0 }
    ensures set { bit_at marked result ≡ 1 }
    ensures above { (lane : ℕ) → result < lane → bit_at marked lane ≡ 0 }
{
    marked.ilog2() as usize
}
