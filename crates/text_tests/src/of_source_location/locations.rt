ghost use Rattle.std.specs.Prelude.{◌≡◌, ◌<◌, ◌++◌, ◌⊎◌, ◌↔◌, IsTrue};
ghost use Rattle.std.specs.Hash as fed;
ghost use Rattle.std.specs.List.{fold};
ghost use Rattle.std.specs.Ordering.{nat_cmp};
ghost use Rattle.std.specs.Str.{IsCharBoundary};
ghost use Rattle.source_location.specs.Index.{index_of};

use crate::callers::row_begins_at;
use crate::texts::is_text;
use source_location::{LineIndex, OneIndexed, SourceLocation, fits};
use std::alloc::Global;
use std::cmp::Ordering;
use std::hash::{Hash, Hasher};
use text_size::TextSize;

// A text, and where its rows start.
type Started = (&'static str, &'static [usize]);

const STARTED: [Started; 8] = [
    ("", &[0]),
    ("x = 1", &[0]),
    ("x = 1\n", &[0, 6]),
    ("x = 1\ny = 2\nz = x + y\n", &[0, 6, 12, 22]),
    ("x = '🫣'", &[0]),
    ("x = '🫣'\n", &[0, 11]),
    ("x = '🫣'\ny = 2\nz = x + y\n", &[0, 11, 17, 27]),
    ("# 🫣\nclass Foo:\n    \"\"\".\"\"\"", &[0, 7, 18]),
];

// Whether an index has these starts.
fn start_so(index: &LineIndex, starts: &[usize]) -> bool {
    if index.line_starts().len() != starts.len() {
        return false;
    }
    for (start, want) in index.line_starts().iter().zip(starts) {
        if start.to_usize() != *want {
            return false;
        }
    }
    true
}

// Whether a copy of an index has these starts.
fn copy_starts_so(alloc: Global, index: &LineIndex, starts: &[usize]) -> bool {
    match index.try_clone(alloc) {
        Ok(copy) => start_so(&copy, starts),
        Err(_) => false,
    }
}

// The text's rows start there, in a copy of its index.
fn has_starts(alloc: Global, row: &Started) -> bool {
    if !fits(row.0) {
        return false;
    }
    match LineIndex::from_source_text(alloc, row.0) {
        Ok(index) => copy_starts_so(alloc, &index, row.1),
        Err(_) => false,
    }
}

#[test]
fn rows_start_after_each_break(rt: HostRuntime) {
    for row in &STARTED {
        assert!(rt; has_starts(rt.alloc(), row), "{}", row.0);
    }
}

// A text, a boundary of it, and the row and the column of that.
type Found = (&'static str, u32, u32, u32);

// The row and the column of a place in a text, and the place found again from them.
fn is_found(index: &LineIndex, row: &Found) -> bool
    requires indexed { index.now ≡ index_of row.now.0.now }
    requires boundary { IsCharBoundary row.now.0.now row.now.1 }
{
    let (text, at, line, column) = *row;
    let offset = TextSize::new(at);
    let location = index.source_location(offset, text);
    location.row.get() == line
        && location.column.get() == column
        && index.line_index(offset) == location.row
        && index.offset_of(text, location) == Some(offset)
}

fn finds(alloc: Global, row: &Found) -> bool {
    if !fits(row.0) || !row.0.is_char_boundary(row.1 as usize) {
        return false;
    }
    match LineIndex::from_source_text(alloc, row.0) {
        Ok(index) => is_found(&index, row),
        Err(_) => false,
    }
}

const BREAKS: [Found; 10] = [
    ("x = 1\ny = 2", 2, 1, 3),
    ("x = 1\ny = 2", 6, 2, 1),
    ("x = 1\ny = 2", 11, 2, 6),
    ("x = 4\ry = 3", 4, 1, 5),
    ("x = 4\ry = 3", 6, 2, 1),
    ("x = 4\ry = 3", 7, 2, 2),
    ("x = 4\r\ny = 3", 4, 1, 5),
    ("x = 4\r\ny = 3", 6, 1, 7),
    ("x = 4\r\ny = 3", 7, 2, 1),
    ("x = 4\r\ny = 3", 8, 2, 2),
];

#[test]
fn boundaries_have_a_location_and_are_found_again(rt: HostRuntime) {
    for row in &BREAKS {
        assert!(rt; finds(rt.alloc(), row), "{}", row.1);
    }
}

const WIDE: [Found; 13] = [
    ("x = '🫣'\ry = 3", 9, 1, 7),
    ("x = '🫣'\ry = 3", 11, 2, 1),
    ("x = '🫣'\ry = 3", 12, 2, 2),
    ("x = '🫣'\r\ny = 3", 9, 1, 7),
    ("x = '🫣'\r\ny = 3", 12, 2, 1),
    ("x = '🫣'\r\ny = 3", 13, 2, 2),
    ("x = '☃'\ny = 2", 0, 1, 1),
    ("x = '☃'\ny = 2", 5, 1, 6),
    ("x = '☃'\ny = 2", 8, 1, 7),
    ("x = '☃'\ny = 2", 10, 2, 1),
    ("x = '☃'\ny = 2", 15, 2, 6),
    ("def a():\n    pass", 4, 1, 5),
    ("def a():\n    pass", 13, 2, 5),
];

#[test]
fn columns_count_characters_of_several_bytes(rt: HostRuntime) {
    for row in &WIDE {
        assert!(rt; finds(rt.alloc(), row), "{}", row.1);
    }
}

// A text, and a row and a column of it.
type Missing = (&'static str, u32, u32);

const MISSING: [Missing; 4] = [
    ("x = '☃'\ny = 2", 1, 9),
    ("x = '☃'\ny = 2", 3, 1),
    ("ab\ncd", 1, 4),
    ("", 1, 2),
];

// No boundary of the text has the location.
fn finds_none(alloc: Global, missing: &Missing) -> bool {
    let (text, row, column) = *missing;
    if !fits(text) || row == 0 || column == 0 {
        return false;
    }
    let location = SourceLocation {
        row: OneIndexed::from_zero_indexed(row - 1),
        column: OneIndexed::from_zero_indexed(column - 1),
    };
    match LineIndex::from_source_text(alloc, text) {
        Ok(index) => index.offset_of(text, location) == None,
        Err(_) => false,
    }
}

#[test]
fn places_without_a_boundary(rt: HostRuntime) {
    for row in &MISSING {
        assert!(rt; finds_none(rt.alloc(), row), "{}", row.0);
    }
}

const MARKED: &str = "\u{feff}ab";

// Whether the mark at the beginning of the text is no column.
fn mark_is_no_column(alloc: Global) -> bool {
    if !fits(MARKED) {
        return false;
    }
    let Ok(index) = LineIndex::from_source_text(alloc, MARKED) else {
        return false;
    };
    let first = index.source_location(TextSize::new(0), MARKED);
    first == SourceLocation::default()
        && index.offset_of(MARKED, first) == Some(TextSize::new(3))
        && row_begins_at(&index, MARKED, OneIndexed::MIN) == Some(TextSize::new(3))
        && index.line_index(TextSize::new(100)) == OneIndexed::MIN
}

#[test]
fn a_byte_order_mark_is_no_column(rt: HostRuntime) {
    assert!(rt; mark_is_no_column(rt.alloc()));
}

// Whether numbers end at both ends of their range.
fn numbers_are_in_range() -> bool {
    OneIndexed::new(0) == None
        && OneIndexed::try_from_zero_indexed(4_294_967_296) == Err(4_294_967_296)
        && OneIndexed::MAX.saturating_add(1) == OneIndexed::MAX
        && OneIndexed::from_zero_indexed(6).saturating_sub(9) == OneIndexed::MIN
}

#[test]
fn numbers_print_as_they_count(rt: HostRuntime) {
    let seven = OneIndexed::from_zero_indexed(6);
    let printed = format!(in rt.alloc(); "{seven} {:?}", OneIndexed::MAX);
    assert!(rt; is_text(printed, "7 4294967295") && numbers_are_in_range());
}

// Numbers that count from 1 are ordered as numbers.
fn order_of(a: OneIndexed, b: OneIndexed) -> Ordering
    ensures { result ≡ nat_cmp a b }
{
    a.cmp(&b)
}

// Two locations are equal where both parts are.
fn is_same(a: SourceLocation, b: SourceLocation) -> bool
    ensures { IsTrue result ↔ (a ≡ b) }
{
    a == b
}

// Rows come first in the order of locations.
fn is_before(a: SourceLocation, b: SourceLocation) -> bool
    ensures { IsTrue result ↔ ((a.row < b.row) ⊎ ((a.row ≡ b.row) × (a.column < b.column))) }
{
    a < b
}

fn location(row: OneIndexed, column: OneIndexed) -> SourceLocation {
    SourceLocation { row, column }
}

#[test]
fn locations_are_ordered_by_row(rt: HostRuntime) {
    let one = OneIndexed::MIN;
    let two = OneIndexed::from_zero_indexed(1);
    assert!(rt;
        order_of(one, two) == Ordering::Less
            && is_before(location(one, two), location(two, one))
            && is_same(location(one, one), SourceLocation::default())
    );
}

// The least number is 1.
fn least() -> OneIndexed
    ensures { result ≡ 1 }
{
    OneIndexed::MIN
}

// The greatest number is that of a `u32`.
fn greatest() -> OneIndexed
    ensures { result ≡ 4294967295 }
{
    OneIndexed::MAX
}

// Two numbers are equal where they count the same.
fn is_same_number(a: OneIndexed, b: OneIndexed) -> bool
    ensures { IsTrue result ↔ (a ≡ b) }
{
    a == b
}

// A number is hashed as it is.
fn hash_number<H: Hasher>(number: OneIndexed, state: &mut H)
    ensures { state.new ≡ fold H.write state.old (fed.u32 number) }
{
    number.hash(state);
}

// A location is hashed as its row and then its column.
fn hash_location<H: Hasher>(place: SourceLocation, state: &mut H)
    ensures { state.new ≡ fold H.write state.old (fed.u32 place.row ++ fed.u32 place.column) }
{
    place.hash(state);
}

#[test]
fn numbers_end_at_both_ends(rt: HostRuntime) {
    assert!(rt;
        is_same_number(least(), OneIndexed::from_zero_indexed(0))
            && is_same_number(greatest(), least().saturating_add(u32::MAX))
    );
}
