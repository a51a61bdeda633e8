ghost use Rattle.std.specs.Prelude.{◌≡◌, ◌↔◌, IsTrue};
ghost use Rattle.utf16_places.specs.Places.{IsBefore};

use source_location::{LineIndex, OneIndexed, SourceLocation, fits};
use std::alloc::Global;
use text_size::TextSize;
use utf16_places::{Place16, Utf16Index};

// A text, and offsets of it, each with its line and unit.
type Placed = (&'static str, &'static [(u32, u32, u32)]);

const PLACED: [Placed; 6] = [
    (
        "a💣b\né",
        &[
            (0, 0, 0),
            (1, 0, 1),
            (5, 0, 3),
            (6, 0, 4),
            (7, 1, 0),
            (9, 1, 1),
        ],
    ),
    (
        "a\r\nb",
        &[(0, 0, 0), (1, 0, 1), (2, 0, 2), (3, 1, 0), (4, 1, 1)],
    ),
    (
        "\r\r\n\nx",
        &[
            (0, 0, 0),
            (1, 1, 0),
            (2, 1, 1),
            (3, 2, 0),
            (4, 3, 0),
            (5, 3, 1),
        ],
    ),
    ("\u{feff}a\n", &[(0, 0, 0), (3, 0, 1), (4, 0, 2), (5, 1, 0)]),
    (
        "😀😀\ré漢😀x",
        &[
            (4, 0, 2),
            (8, 0, 4),
            (9, 1, 0),
            (11, 1, 1),
            (14, 1, 2),
            (18, 1, 4),
            (19, 1, 5),
        ],
    ),
    ("", &[(0, 0, 0)]),
];

// Whether an offset has its place, is a boundary, and is found again from the place.
fn is_place(index: &Utf16Index, row: &(u32, u32, u32)) -> bool {
    let (at, line, unit) = *row;
    let offset = TextSize::new(at);
    let place = Place16 { line, unit };
    index.place_of(offset) == place
        && index.is_boundary(offset)
        && index.offset_of(place) == Some(offset)
}

fn are_places(index: &Utf16Index, rows: &[(u32, u32, u32)]) -> bool {
    for row in rows {
        if !is_place(index, row) {
            return false;
        }
    }
    true
}

// Whether each offset of a text has its place.
fn has_places(alloc: Global, text: &Placed) -> bool {
    if !fits(text.0) {
        return false;
    }
    match Utf16Index::new(alloc, text.0) {
        Ok(index) => are_places(&index, text.1),
        Err(_) => false,
    }
}

#[test]
fn boundaries_have_a_place_and_are_found_again(rt: HostRuntime) {
    for text in &PLACED {
        assert!(rt; has_places(rt.alloc(), text), "{}", text.0);
    }
}

// Texts, and places that no boundary has: a line and a unit, and the nearest boundary.
const LACKING: [Placed; 4] = [
    (
        "a💣b\né",
        &[(0, 2, 1), (0, 5, 6), (0, 99, 6), (1, 2, 9), (7, 0, 9)],
    ),
    ("a\r\nb", &[(0, 3, 1), (1, 2, 4), (2, 0, 4)]),
    ("\r\r\n\nx", &[(0, 1, 0), (1, 2, 1), (2, 1, 3), (4, 0, 5)]),
    (
        "😀😀\ré漢😀x",
        &[(0, 1, 0), (0, 3, 4), (0, 5, 8), (1, 3, 14), (1, 6, 19)],
    ),
];

// Whether no boundary has the place, and the third number is the nearest one.
fn is_none(index: &Utf16Index, row: &(u32, u32, u32)) -> bool {
    let (line, unit, at) = *row;
    let place = Place16 { line, unit };
    index.offset_of(place) == None && index.nearest(place) == TextSize::new(at)
}

fn are_none(index: &Utf16Index, rows: &[(u32, u32, u32)]) -> bool {
    for row in rows {
        if !is_none(index, row) {
            return false;
        }
    }
    true
}

// Whether no boundary of a text has a place of its row.
fn lacks_places(alloc: Global, text: &Placed) -> bool {
    if !fits(text.0) {
        return false;
    }
    match Utf16Index::new(alloc, text.0) {
        Ok(index) => are_none(&index, text.1),
        Err(_) => false,
    }
}

#[test]
fn places_without_a_boundary_have_a_nearest_one(rt: HostRuntime) {
    for text in &LACKING {
        assert!(rt; lacks_places(rt.alloc(), text), "{}", text.0);
    }
}

const CRLF: &str = "a\r\nb";

// Whether the place within the CRLF is near the CR.
fn is_near_the_cr(alloc: Global) -> bool {
    if !fits(CRLF) {
        return false;
    }
    let between = Place16 { line: 0, unit: 2 };
    match Utf16Index::new(alloc, CRLF) {
        Ok(index) => index.nearest(between) == TextSize::new(1),
        Err(_) => false,
    }
}

// Whether a location of the text has its place.
fn comes_from_a_location(alloc: Global) -> bool {
    if !fits(CRLF) {
        return false;
    }
    let two = OneIndexed::from_zero_indexed(1);
    let location = SourceLocation {
        row: two,
        column: two,
    };
    match (
        Utf16Index::new(alloc, CRLF),
        LineIndex::from_source_text(alloc, CRLF),
    ) {
        (Ok(index), Ok(lines)) => index.from_location(CRLF, &lines, location)
            == Some(Place16 { line: 1, unit: 1 }),
        _ => false,
    }
}

#[test]
fn a_place_between_cr_and_lf_is_near_the_cr(rt: HostRuntime) {
    assert!(rt; is_near_the_cr(rt.alloc()) && comes_from_a_location(rt.alloc()));
}

// Offsets inside the characters of a text.
const INSIDE: [u32; 7] = [1, 3, 4, 6, 7, 8, 10];

fn are_inside(index: &Utf16Index) -> bool {
    for at in &INSIDE {
        if index.is_boundary(TextSize::new(*at)) {
            return false;
        }
    }
    true
}

fn has_insides(alloc: Global) -> bool {
    let text = "é漢😀";
    if !fits(text) {
        return false;
    }
    match Utf16Index::new(alloc, text) {
        Ok(index) => are_inside(&index),
        Err(_) => false,
    }
}

#[test]
fn offsets_inside_characters_are_no_boundaries(rt: HostRuntime) {
    assert!(rt; has_insides(rt.alloc()));
}

// Lines come first in the order of places.
fn is_before(place: Place16, other: Place16) -> bool
    ensures { IsTrue result ↔ IsBefore place other }
{
    place < other
}

// Two places are equal where both parts are.
fn is_same(place: Place16, other: Place16) -> bool
    ensures { IsTrue result ↔ (place ≡ other) }
{
    place == other
}

#[test]
fn places_are_ordered_by_line(rt: HostRuntime) {
    let place = Place16 { line: 0, unit: 9 };
    let later = Place16 { line: 1, unit: 0 };
    assert!(rt;
        is_before(place, later)
            && !is_before(later, place)
            && is_same(Place16::default(), Place16 { line: 0, unit: 0 })
    );
}
