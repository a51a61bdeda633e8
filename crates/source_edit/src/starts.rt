// The row starts of a text, updated after an edit.
ghost use Rattle.std.specs.Prelude.{◌≡◌, ℕ, ◌+◌, ◌-◌, ◌^◌, ◌<◌, ◌≤◌, ◌++◌, ◌∷◌, [], nat_lt};
ghost use Rattle.std.specs.Prelude.{count_by, length, map, take, drop, slice_index, ◌==◌};
ghost use Rattle.std.specs.Prelude.{if◌then◌else◌, All, IfOk, vec_capacity, vec_len};
ghost use Rattle.std.specs.List.Sorted.{IsNonDecreasing};
ghost use Rattle.source_edit.specs.Starts.{ends_row, starts_between};

use memchr::memchr2_iter;
use std::alloc::{AllocError, Global};
use text_size::{TextRange, TextSize};

/// How many rows start before a place.
fn rows_before(line_starts: &[TextSize], place: usize) -> usize
    requires { IsNonDecreasing line_starts.now }
    ensures counted { result ≡ count_by (λ start. nat_lt start place) line_starts.now }
    ensures bound { result ≤ length line_starts.now }
{
    line_starts.partition_point(|start| start.to_usize() < place)
}

/// How many rows start before a range; and how many start before it, in it or at one of its ends.
pub(crate) fn rows_near(line_starts: &[TextSize], range: TextRange) -> (usize, usize)
    requires { IsNonDecreasing line_starts.now }
    ensures first { result.0 ≡ count_by (λ start. nat_lt start range.0) line_starts.now }
    ensures behind { result.1 ≡ count_by (λ start. nat_lt start (range.1 + 1)) line_starts.now }
    ensures ordered { result.0 ≤ result.1 }
    ensures bound { result.1 ≤ length line_starts.now }
{
    let first = rows_before(line_starts, range.start().to_usize());
    let behind = rows_before(line_starts, range.end().to_usize() + 1);
    (first, behind)
}

/// The rows that start from where `insert` begins to where it ends, both offsets included, in the
/// text of `before`, `insert` and `behind`. Only the last byte of `before` and the first of
/// `behind` are read.
pub(crate) fn starts_in(
    alloc: Global,
    before: &[u8],
    insert: &[u8],
    behind: &[u8],
) -> Result<Vec<TextSize>, AllocError>
    requires { length before.now + length insert.now + length behind.now < 2 ^ 32 }
    ensures { IfOk result (λ starts. starts.items
        ≡ starts_between ((before.now ++ insert.now) ++ behind.now) (length before.now)
        (length before.now + length insert.now)) }
{
    let mut starts = first_start(alloc, before, byte_at(insert, behind, 0))?;
    for at in memchr2_iter(b'\n', b'\r', insert) {
        if ends_row(insert[at], byte_at(insert, behind, at + 1)) {
            starts.push(TextSize::new((before.len() + at + 1) as u32))?;
        }
    }
    Ok(starts)
}

/// The row that starts after some bytes, if one does, given the next byte.
fn first_start(alloc: Global, before: &[u8], next: u8) -> Result<Vec<TextSize>, AllocError>
    requires { length before.now < 2 ^ 32 }
    ensures { IfOk result (λ starts. starts.items ≡ (if length before.now == 0
        then length before.now ∷ []
        else if ends_row (slice_index before.now (length before.now - 1)) next
        then length before.now ∷ [] else [])) }
{
    let mut starts = Vec::new(alloc);
    if before.is_empty() || ends_row(before[before.len() - 1], next) {
        starts.push(TextSize::new(before.len() as u32))?;
    }
    Ok(starts)
}

/// Whether a row ends with a byte, given the byte after it, or 0 at the text's end.
fn ends_row(byte: u8, next: u8) -> bool
    ensures { result ≡ ends_row byte next }
{
    byte == b'\n' || (byte == b'\r' && next != b'\n')
}

/// The byte at a place in two texts one after the other, and 0 at their end. Of the second only the
/// first byte is read.
fn byte_at(front: &[u8], back: &[u8], place: usize) -> u8
    requires { place ≤ length front.now }
    ensures { result ≡ slice_index (front.now ++ back.now) place }
{
    if place < front.len() {
        front[place]
    } else if !back.is_empty() {
        back[0]
    } else {
        0
    }
}

/// Shifts the row starts from index `behind` on: the text before them lost `lost` bytes and gained
/// `won`.
pub(crate) fn shift_behind(line_starts: &mut Vec<TextSize>, behind: usize, lost: u32, won: u32)
    requires within { behind ≤ vec_len line_starts.old }
    requires range { All (λ start. (lost ≤ start) × (start - lost + won < 2 ^ 32))
        (drop behind line_starts.old.items) }
    ensures items { line_starts.new.items ≡ take behind line_starts.old.items ++ map
        (λ start. start - lost + won) (drop behind line_starts.old.items) }
    ensures capacity { vec_capacity line_starts.new ≡ vec_capacity line_starts.old }
{
    shift(&mut line_starts[behind..], lost, won);
}

/// Shifts all of these row starts.
fn shift(starts: &mut [TextSize], lost: u32, won: u32)
    requires { All (λ start. (lost ≤ start) × (start - lost + won < 2 ^ 32)) starts.old }
    ensures { starts.new ≡ map (λ start. start - lost + won) starts.old }
{
    for start in starts.iter_mut() {
        *start = TextSize::new(start.to_u32() - lost + won);
    }
}

/// Replaces the row starts from index `first` up to `behind`. There is room for the new ones.
pub(crate) fn put_starts(
    line_starts: &mut Vec<TextSize>,
    first: usize,
    behind: usize,
    starts: &[TextSize],
)
    requires ordered { first ≤ behind }
    requires within { behind ≤ vec_len line_starts.old }
    requires room { vec_len line_starts.old + length starts.now ≤ vec_capacity line_starts.old }
    ensures items { line_starts.new.items ≡ take first line_starts.old.items ++
        (starts.now ++ drop behind line_starts.old.items) }
    ensures capacity { vec_capacity line_starts.old ≤ vec_capacity line_starts.new }
{
    if first == behind && starts.is_empty() {
        return;
    }
    let kept = line_starts.len() - behind;
    line_starts.extend_from_slice(starts).unwrap();
    line_starts[behind..].rotate_left(kept);
    line_starts[first..].rotate_left(behind - first);
    let len = line_starts.len() - (behind - first);
    line_starts.truncate(len);
}
