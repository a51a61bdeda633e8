// Whether bytes are UTF-8. ASCII is skipped in large blocks, which costs less than `simdutf8`.
ghost use Rattle.std.specs.Prelude.{◌≡◌, ◌<◌, ◌≤◌, length, take, IsTrue};
ghost use Rattle.std.specs.Str.{IsAscii, IsCharBoundary, is_utf8 as utf8};

use simdutf8::is_utf8;
use std::simd::prelude::*;

/// The size of a block that is ASCII or not.
const BLOCK: usize = 512;

/// The maximum number of bytes that `simdutf8` checks before blocks are tried again.
const PART: usize = 1024;

/// Whether the bytes are UTF-8: checks each part that isn't ASCII, cut between characters.
pub(crate) fn is_utf8_by_parts(bytes: &[u8]) -> bool
    ensures { result ≡ utf8 bytes.now }
{
    let mut at = 0;
    while at < bytes.len() {
        let start = at + ascii_blocks(&bytes[at..]);
        let end = part_end(bytes, start);
        if !is_utf8(&bytes[start..end]) {
            return false;
        }
        at = end;
    }
    true
}

/// Where a part ends that begins there: before a character, or at the end of the bytes.
fn part_end(bytes: &[u8], start: usize) -> usize
    requires { start ≤ length bytes.now }
    ensures behind { start ≤ result }
    ensures further { start < length bytes.now → start < result }
    ensures boundary { IsCharBoundary bytes.now result }
{
    if bytes.len() - start <= PART {
        return bytes.len();
    }
    let mut end = start + PART;
    while end > start {
        // the first byte of a character of UTF-8
        if bytes[end] < 128 || bytes[end] >= 192 {
            return end;
        }
        end -= 1;
    }
    bytes.len()
}

/// The number of bytes in whole blocks of ASCII at the start.
fn ascii_blocks(bytes: &[u8]) -> usize
    ensures within { result ≤ length bytes.now }
    ensures ascii { IsAscii (take result bytes.now) }
{
    let mut at = 0;
    while bytes.len() - at >= BLOCK {
        if !is_ascii(either(bits_of(&bytes[at..]), bits_of(&bytes[at + 256..]))) {
            break;
        }
        at += BLOCK;
    }
    at
}

/// The bits that are set in any of the first 256 bytes, in 64 lanes.
#[inline]
fn bits_of(bytes: &[u8]) -> u8x64
    requires { 256 ≤ length bytes.now }
    ensures { IsAscii result → IsAscii (take 256 bytes.now) }
{
    let first = either(u8x64::from_slice(bytes), u8x64::from_slice(&bytes[64..]));
    let second = either(
        u8x64::from_slice(&bytes[128..]),
        u8x64::from_slice(&bytes[192..]),
    );
    either(first, second)
}

/// The bits that are set in either.
#[inline]
fn either(lanes: u8x64, others: u8x64) -> u8x64
    ensures { IsAscii result → IsAscii lanes × IsAscii others }
{
    lanes | others
}

/// Whether no lane has its highest bit set.
#[inline]
fn is_ascii(lanes: u8x64) -> bool
    ensures { IsTrue result → IsAscii lanes }
{
    lanes.simd_ge(u8x64::splat(128)).to_bitmask() == 0
}
