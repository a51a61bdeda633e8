// Values from the original's examples, the printed texts, and what callers know of equality, order
// and hash.
ghost use Rattle.std.specs.Prelude.{◌≡◌, ◌≤◌, ◌↔◌, ◌++◌, ◌<◌, ◌^◌, IsTrue, IsSome, IfSome};
ghost use Rattle.std.specs.Prelude.{slice_range, sum, length, take, drop};
ghost use Rattle.std.specs.Hash as fed;
ghost use Rattle.std.specs.List.{fold};
ghost use Rattle.std.specs.Ordering.{nat_cmp};
ghost use Rattle.std.specs.Str.{IsCharBoundary};

use crate::texts::is_text;
use std::alloc::Global;
use std::cmp::Ordering;
use std::hash::{Hash, Hasher};
use std::ops::RangeBounds;
use text_size::{TextRange, TextSize, slice, slice_mut};

fn range(start: u32, end: u32) -> TextRange
    requires { start ≤ end }
    ensures { result ≡ (start, end) }
{
    TextRange::new(TextSize::new(start), TextSize::new(end))
}

fn compared(first: TextSize, second: TextSize) -> Ordering
    ensures { result ≡ nat_cmp first second }
{
    first.cmp(&second)
}

fn is_same_size(first: TextSize, second: TextSize) -> bool
    ensures { IsTrue result ↔ (first ≡ second) }
{
    first == second
}

fn is_same_range(first: TextRange, second: TextRange) -> bool
    ensures { IsTrue result ↔ (first ≡ second) }
{
    first == second
}

fn hash_size<H: Hasher>(size: TextSize, state: &mut H)
    ensures { state.new ≡ fold H.write state.old (fed.u32 size) }
{
    size.hash(state);
}

fn hash_range<H: Hasher>(range: TextRange, state: &mut H)
    ensures { state.new ≡ fold H.write state.old (fed.u32 range.0 ++ fed.u32 range.1) }
{
    range.hash(state);
}

fn size_by_default() -> TextSize
    ensures { result ≡ 0 }
{
    TextSize::default()
}

fn range_by_default() -> TextRange
    ensures { result ≡ (0, 0) }
{
    TextRange::default()
}

fn text_in(text: &str, range: TextRange) -> Option<&str>
    ensures found { IsSome result ↔ (IsCharBoundary text.now range.0
        × IsCharBoundary text.now range.1) }
    ensures bytes { IfSome result (λ part. part.now ≡ slice_range text.now range.0 range.1) }
{
    let start = range.start().to_usize();
    let end = range.end().to_usize();
    if text.is_char_boundary(start) && text.is_char_boundary(end) {
        Some(slice(text, range))
    } else {
        None
    }
}

// It writes, and its contract says nothing.
fn scribble(part: &mut [u8]) {
    if !part.is_empty() {
        part[0] = b'!';
    }
}

// Whatever is written into the part, the bytes before and after it are the same.
fn scribble_in(bytes: &mut [u8], range: TextRange)
    requires { range.1 ≤ length bytes.old }
    ensures before { take range.0 bytes.new ≡ take range.0 bytes.old }
    ensures behind { drop range.1 bytes.new ≡ drop range.1 bytes.old }
{
    let part = slice_mut(bytes, range);
    scribble(part);
}

fn total_of(sizes: &[TextSize]) -> TextSize
    requires { sum sizes.now < 2 ^ 32 }
    ensures { result ≡ sum sizes.now }
{
    sizes.iter().copied().sum()
}

fn total_of_lent(sizes: &[TextSize]) -> TextSize
    requires { sum sizes.now < 2 ^ 32 }
    ensures { result ≡ sum sizes.now }
{
    sizes.iter().sum()
}

// Two ranges, and how they are ordered.
type Ordered = ((u32, u32), (u32, u32), Ordering);

const ORDERED: [Ordered; 5] = [
    ((0, 3), (4, 5), Ordering::Less),
    ((0, 3), (3, 5), Ordering::Less),
    ((0, 3), (2, 5), Ordering::Equal),
    ((0, 3), (2, 2), Ordering::Equal),
    ((2, 3), (2, 2), Ordering::Greater),
];

fn are_ordered(row: &Ordered) -> bool {
    let ((start, end), (from, to), wanted) = *row;
    start <= end && from <= to && range(start, end).ordering(range(from, to)) == wanted
}

#[test]
fn ranges_are_ordered_as_in_the_original(rt: HostRuntime) {
    for row in &ORDERED {
        assert!(rt; are_ordered(row), "{}", row.1.0);
    }
}

// Whether ranges meet and cover one another.
fn meet_and_cover() -> bool {
    range(0, 10).intersect(range(5, 15)) == Some(range(5, 10))
        && range(0, 5).cover(range(15, 20)) == range(0, 20)
        && range(0, 0).cover_offset(TextSize::new(20)) == range(0, 20)
}

// Whether one end moves alone.
fn ends_move() -> bool {
    let five = range(5, 10);
    let two = TextSize::new(2);
    five.sub_start(two) == range(3, 10)
        && five.add_start(TextSize::new(3)) == range(8, 10)
        && five.sub_end(two) == range(5, 8)
        && five.add_end(two) == range(5, 12)
}

#[test]
fn ranges_meet_cover_and_move_as_in_the_original(rt: HostRuntime) {
    assert!(rt; meet_and_cover() && ends_move());
}

// Whether a character and a text have their lengths.
fn have_lengths() -> bool {
    let crab = '🦀';
    crab.len_utf8() <= 4
        && TextSize::of(crab) == TextSize::new(4)
        && TextSize::of("rust-analyzer") == TextSize::new(13)
}

// Whether an owned text has.
fn owned_has_its_length(alloc: Global) -> bool {
    match "🦀".to_string(alloc) {
        Ok(owned) => owned.len() == 4 && TextSize::of(&owned) == TextSize::new(4),
        Err(_) => false,
    }
}

// Whether a text has a part, and another none.
fn have_parts() -> bool {
    let two_to_seven = TextRange::at(TextSize::new(2), TextSize::new(5));
    text_in("0123456789", two_to_seven) == Some("23456") && text_in("🦀", two_to_seven).is_none()
}

#[test]
fn texts_have_lengths_and_parts(rt: HostRuntime) {
    assert!(rt; have_lengths() && owned_has_its_length(rt.alloc()) && have_parts());
}

// Whether sizes are summed, lent or not.
fn sizes_are_summed() -> bool {
    let sizes = [TextSize::new(3), TextSize::new(4)];
    total_of_lent(&sizes) == TextSize::new(7) && total_of(&sizes) == TextSize::new(7)
}

// Whether a range holds its start and not its end, as bounds say.
fn bounds_hold() -> bool {
    RangeBounds::contains(&range(3, 5), &TextSize::new(4))
        && !RangeBounds::contains(&range(3, 5), &TextSize::new(5))
}

#[test]
fn generic_code_takes_sizes_and_ranges(rt: HostRuntime) {
    let printed = format!(in rt.alloc(); "{:?} {:?}", TextSize::new(7), range(5, 10));
    assert!(rt; sizes_are_summed() && bounds_hold() && is_text(printed, "7 5..10"));
}

#[test]
fn writing_through_a_part_leaves_the_other_bytes(rt: HostRuntime) {
    let mut bytes = *b"0123456789";
    let two_to_seven = TextRange::at(TextSize::new(2), TextSize::new(5));
    slice_mut(&mut bytes, two_to_seven).fill(b'x');
    assert!(rt; bytes == *b"01xxxxx789");
    scribble_in(&mut bytes, two_to_seven);
    assert!(rt; bytes == *b"01!xxxx789");
}
