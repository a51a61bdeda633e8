// Tables of places, lines and changes, whose values come from a model in another language.
ghost use Rattle.std.specs.Prelude.{◌≡◌, ◌<◌, ◌++◌, IfOk, string_bytes};
ghost use Rattle.std.specs.Str.{IsCharBoundary};

use crate::texts::is_text;
use source_location::fits;
use std::alloc::{AllocError, Global};
use text_places::{Encoding, Place, TextPlaces};
use text_size::{TextRange, TextSize};

// A client's range in bytes. Both ends are boundaries of the text, whatever the client sent.
fn bytes_of(places: &TextPlaces, encoding: Encoding, start: Place, end: Place) -> TextRange
    ensures start { IsCharBoundary places.now result.0 }
    ensures end { IsCharBoundary places.now result.1 }
{
    let (from, to) = places.nearest_range(encoding, start, end);
    TextRange::new(from, to.max(from))
}

// The index of a text that is known to fit.
fn index(alloc: Global, text: &str) -> Result<TextPlaces, AllocError> {
    if !fits(text) {
        return TextPlaces::new(alloc, "");
    }
    TextPlaces::new(alloc, text)
}

// A text, an offset, a line, and a unit in each encoding: UTF-8, UTF-16, UTF-32.
type Boundary = (&'static str, u32, u32, [u32; 3]);

// The offset has the place, and is found again from it.
fn has_place(places: &TextPlaces, encoding: Encoding, at: TextSize, place: Place) -> bool {
    places.place_of(encoding, at) == place && places.offset_of(encoding, place) == Some(at)
}

// In each encoding the offset has the line and its unit, and is found again from them.
fn has_places(places: &TextPlaces, row: &Boundary) -> bool {
    let (_, offset, line, [bytes, units, characters]) = *row;
    let at = TextSize::new(offset);
    has_place(places, Encoding::Utf8, at, Place { line, unit: bytes })
        && has_place(places, Encoding::Utf16, at, Place { line, unit: units })
        && has_place(
            places,
            Encoding::Utf32,
            at,
            Place {
                line,
                unit: characters,
            },
        )
}

fn is_boundary(alloc: Global, row: &Boundary) -> bool {
    match index(alloc, row.0) {
        Ok(places) => has_places(&places, row),
        Err(_) => false,
    }
}

// In each encoding a client sees the offset in the line, at its unit.
fn has_client_places(places: &TextPlaces, row: &Boundary) -> bool {
    let (_, offset, line, [bytes, units, characters]) = *row;
    let at = TextSize::new(offset);
    places.client_place_of(Encoding::Utf8, at) == Place { line, unit: bytes }
        && places.client_place_of(Encoding::Utf16, at) == Place { line, unit: units }
        && places.client_place_of(Encoding::Utf32, at)
            == Place {
                line,
                unit: characters,
            }
}

fn is_seen(alloc: Global, row: &Boundary) -> bool {
    match index(alloc, row.0) {
        Ok(places) => has_client_places(&places, row),
        Err(_) => false,
    }
}

// An encoding, a text, a place, the nearest boundary, and the one with the place.
type Near = (Encoding, &'static str, (u32, u32), u32, Option<u32>);

// The place has the nearest boundary, and that one exactly or none.
fn has_nearest(places: &TextPlaces, row: &Near) -> bool {
    let (encoding, _, (line, unit), near, exact) = *row;
    let place = Place { line, unit };
    let found = match places.offset_of(encoding, place) {
        Some(at) => Some(at.to_u32()),
        None => None,
    };
    places.nearest(encoding, place) == TextSize::new(near) && found == exact
}

fn is_near(alloc: Global, row: &Near) -> bool {
    match index(alloc, row.1) {
        Ok(places) => has_nearest(&places, row),
        Err(_) => false,
    }
}

// A text, a line, and where it lies without its break.
type Lying = (&'static str, u32, Option<(u32, u32)>);

// The line lies there without its break, or there is none.
fn has_line(places: &TextPlaces, row: &Lying) -> bool {
    let (_, line, lies) = *row;
    match (places.line_range(line), lies) {
        (Some(range), Some((start, end))) => {
            line < places.line_count()
                && range.start().to_u32() == start
                && range.end().to_u32() == end
        }
        (None, None) => places.line_count() <= line,
        _ => false,
    }
}

fn is_line(alloc: Global, row: &Lying) -> bool {
    match index(alloc, row.0) {
        Ok(places) => has_line(&places, row),
        Err(_) => false,
    }
}

// Offsets of texts.
const BOUNDARIES: [Boundary; 15] = [
    ("", 0, 0, [0, 0, 0]),
    ("a", 0, 0, [0, 0, 0]),
    ("a", 1, 0, [1, 1, 1]),
    ("a\u{1f4a3}b\n\u{e9}", 0, 0, [0, 0, 0]),
    ("a\u{1f4a3}b\n\u{e9}", 1, 0, [1, 1, 1]),
    ("a\u{1f4a3}b\n\u{e9}", 5, 0, [5, 3, 2]),
    ("a\u{1f4a3}b\n\u{e9}", 6, 0, [6, 4, 3]),
    ("a\u{1f4a3}b\n\u{e9}", 7, 1, [0, 0, 0]),
    ("a\u{1f4a3}b\n\u{e9}", 9, 1, [2, 1, 1]),
    ("a\r\nb", 1, 0, [1, 1, 1]),
    ("a\r\nb", 2, 0, [2, 2, 2]),
    ("a\r\nb", 3, 1, [0, 0, 0]),
    ("a\r\nb", 4, 1, [1, 1, 1]),
    ("\r\r\n\nx", 0, 0, [0, 0, 0]),
    ("\r\r\n\nx", 1, 1, [0, 0, 0]),
];

#[test]
fn boundaries_have_places(rt: HostRuntime) {
    for row in &BOUNDARIES {
        assert!(rt; is_boundary(rt.alloc(), row), "{}", row.1);
    }
}

// The same after a byte order mark, and past ASCII.
const MARKS_AND_WIDE: [Boundary; 15] = [
    ("\r\r\n\nx", 2, 1, [1, 1, 1]),
    ("\r\r\n\nx", 3, 2, [0, 0, 0]),
    ("\r\r\n\nx", 4, 3, [0, 0, 0]),
    ("\r\r\n\nx", 5, 3, [1, 1, 1]),
    ("\u{feff}a\n", 0, 0, [0, 0, 0]),
    ("\u{feff}a\n", 3, 0, [3, 1, 1]),
    ("\u{feff}a\n", 4, 0, [4, 2, 2]),
    ("\u{feff}a\n", 5, 1, [0, 0, 0]),
    ("\u{e9}\u{6f22}\u{1f600}", 2, 0, [2, 1, 1]),
    ("\u{e9}\u{6f22}\u{1f600}", 5, 0, [5, 2, 2]),
    ("\u{e9}\u{6f22}\u{1f600}", 9, 0, [9, 4, 3]),
    ("no break", 8, 0, [8, 8, 8]),
    ("\u{2028}x\u{85}", 3, 0, [3, 1, 1]),
    ("\u{2028}x\u{85}", 4, 0, [4, 2, 2]),
    ("\u{2028}x\u{85}", 6, 0, [6, 3, 3]),
];

#[test]
fn boundaries_behind_a_mark_and_past_ascii_have_places(rt: HostRuntime) {
    for row in &MARKS_AND_WIDE {
        assert!(rt; is_boundary(rt.alloc(), row), "{}", row.1);
    }
}

// Places of texts.
const NEAREST: [Near; 20] = [
    (Encoding::Utf16, "", (0, 0), 0, Some(0)),
    (Encoding::Utf16, "", (0, 9), 0, None),
    (Encoding::Utf16, "", (3, 2), 0, None),
    (Encoding::Utf16, "a\u{1f4a3}b", (0, 2), 1, None),
    (Encoding::Utf16, "a\u{1f4a3}b", (0, 3), 5, Some(5)),
    (Encoding::Utf8, "a\u{1f4a3}b", (0, 4), 1, None),
    (Encoding::Utf32, "a\u{1f4a3}b", (0, 2), 5, Some(5)),
    (Encoding::Utf16, "ab\r\nc", (0, 2), 2, Some(2)),
    (Encoding::Utf16, "ab\r\nc", (0, 3), 2, Some(3)),
    (Encoding::Utf16, "ab\r\nc", (0, 4), 2, None),
    (Encoding::Utf8, "ab\rc", (0, 9), 2, None),
    (Encoding::Utf8, "ab\rc", (1, 9), 4, None),
    (Encoding::Utf8, "ab\nc", (2, 0), 4, None),
    (Encoding::Utf32, "ab\n", (1, 0), 3, Some(3)),
    (Encoding::Utf32, "ab\n", (1, 1), 3, None),
    (Encoding::Utf32, "ab\n", (2, 0), 3, None),
    (Encoding::Utf16, "\u{feff}a", (0, 1), 3, Some(3)),
    (Encoding::Utf8, "\u{feff}a", (0, 1), 0, None),
    (Encoding::Utf16, "ab", (0, 4294967295), 2, None),
    (Encoding::Utf16, "ab\nc", (4294967295, 0), 4, None),
];

#[test]
fn places_have_boundaries(rt: HostRuntime) {
    for row in &NEAREST {
        assert!(rt; is_near(rt.alloc(), row), "{}", row.1);
    }
}

// Offsets of texts, with the places at which a client sees them.
const SEEN: [Boundary; 6] = [
    ("a\r\nb", 2, 0, [1, 1, 1]),
    ("a\r\nb", 1, 0, [1, 1, 1]),
    ("\u{e9}\r\n\u{1f600}", 3, 0, [2, 1, 1]),
    ("\r\r\n\nx", 2, 1, [0, 0, 0]),
    ("\r\r\n\nx", 4, 3, [0, 0, 0]),
    ("", 0, 0, [0, 0, 0]),
];

#[test]
fn clients_see_no_place_within_a_crlf(rt: HostRuntime) {
    for row in &SEEN {
        assert!(rt; is_seen(rt.alloc(), row), "{}", row.1);
    }
}

// Lines of texts.
const LINES: [Lying; 17] = [
    ("", 0, Some((0, 0))),
    ("", 1, None),
    ("a", 0, Some((0, 1))),
    ("a", 1, None),
    ("ab\r\nc\rd\n", 0, Some((0, 2))),
    ("ab\r\nc\rd\n", 1, Some((4, 5))),
    ("ab\r\nc\rd\n", 2, Some((6, 7))),
    ("ab\r\nc\rd\n", 3, Some((8, 8))),
    ("ab\r\nc\rd\n", 4, None),
    ("\r\r\n\nx", 0, Some((0, 0))),
    ("\r\r\n\nx", 1, Some((1, 1))),
    ("\r\r\n\nx", 2, Some((3, 3))),
    ("\r\r\n\nx", 3, Some((4, 5))),
    ("\r\r\n\nx", 4, None),
    ("\u{feff}a\n\u{e9}", 0, Some((0, 4))),
    ("\u{feff}a\n\u{e9}", 1, Some((5, 7))),
    ("\u{feff}a\n\u{e9}", 2, None),
];

#[test]
fn lines_lie_without_their_breaks(rt: HostRuntime) {
    for row in &LINES {
        assert!(rt; is_line(rt.alloc(), row), "{}", row.1);
    }
}

// Three parts as one text.
fn joined(alloc: Global, front: &str, middle: &str, back: &str) -> Result<String, AllocError>
    ensures { IfOk result (λ text. string_bytes text ≡ (front.now ++ middle.now) ++ back.now) }
{
    let mut text = String::from_str(alloc, front)?;
    text.push_str(middle)?;
    text.push_str(back)?;
    Ok(text)
}

// What a change puts in place of which bytes.
type Edit<'a> = (usize, usize, &'a str);

// Whether a change of a text makes of it what it makes of a plain one.
fn changes_so(alloc: Global, places: &mut TextPlaces, text: &str, edit: &Edit<'_>) -> bool
    requires { text.now ≡ places.old }
{
    let (start, end, insert) = *edit;
    if end < start || !text.is_char_boundary(start) || !text.is_char_boundary(end) {
        return false;
    }
    let Ok(plain) = joined(alloc, &text[..start], insert, &text[end..]) else {
        return false;
    };
    if !fits(text) || !fits(plain.as_str()) {
        return false;
    }
    let range = TextRange::new(TextSize::new(start as u32), TextSize::new(end as u32));
    places.replace(alloc, range, insert).is_ok() && is_text(places.to_text(alloc), plain.as_str())
}

// The same of the text that is there.
fn changes_plainly(alloc: Global, places: &mut TextPlaces, edit: &Edit<'_>) -> bool {
    match places.to_text(alloc) {
        Ok(text) => changes_so(alloc, places, text.as_str(), edit),
        Err(_) => false,
    }
}

const ROW: &str = "let \u{e9} = '\u{1f600}';\r\n";

// Whether a text, opened with this one, changes as a plain one does; this one is inserted too.
fn long_text_changes(alloc: Global, text: &str) -> bool {
    let edits: [Edit<'_>; 9] = [
        (0, 0, "x"),
        (777, 778, ""),
        (900, 4101, ""),
        (900, 900, ROW),
        (1, 1703, "\n"),
        (1, 2, text),
        (2999, 2999, "\u{feff}"),
        (20, 5000, ""),
        (0, 20, ""),
    ];
    let Ok(mut places) = index(alloc, text) else {
        return false;
    };
    for edit in &edits {
        if !changes_plainly(alloc, &mut places, edit) {
            return false;
        }
    }
    true
}

#[test]
fn long_texts_change_as_plain_ones(rt: HostRuntime) {
    let changes = match ROW.repeat(rt.alloc(), 300) {
        Ok(text) => long_text_changes(rt.alloc(), text.as_str()),
        Err(_) => false,
    };
    assert!(rt; changes);
}

// Whether the places of a line of sixteen characters are found.
fn is_found(places: &TextPlaces, line: u32) -> bool
    requires { line < 200 }
{
    let start = 17 * line;
    let seven = (Encoding::Utf16, "", (line, 7), start + 7, Some(start + 7));
    let sixteen = (Encoding::Utf8, "", (line, 16), start + 16, Some(start + 16));
    let past = (Encoding::Utf32, "", (line, 17), start + 16, None);
    has_nearest(places, &seven) && has_nearest(places, &sixteen) && has_nearest(places, &past)
}

// Whether those of two hundred such lines are.
fn are_found(alloc: Global, text: &str) -> bool {
    let Ok(places) = index(alloc, text) else {
        return false;
    };
    for line in 0..200u32 {
        if !is_found(&places, line) {
            return false;
        }
    }
    true
}

// Lines of ASCII that lie in a page, and those that go on in the next one.
#[test]
fn lines_of_ascii_are_found(rt: HostRuntime) {
    let found = match "sixteen letters!\n".repeat(rt.alloc(), 200) {
        Ok(text) => are_found(rt.alloc(), text.as_str()),
        Err(_) => false,
    };
    assert!(rt; found);
}

// The pieces of a text, joined.
fn pieces_of(alloc: Global, places: &TextPlaces) -> Result<String, AllocError> {
    let mut joined = String::new(alloc);
    for piece in places.pieces() {
        joined.push_str(piece)?;
    }
    Ok(joined)
}

fn has_pieces(alloc: Global, text: &str) -> bool {
    match index(alloc, text) {
        Ok(places) => is_text(pieces_of(alloc, &places), text),
        Err(_) => false,
    }
}

#[test]
fn pieces_make_the_text(rt: HostRuntime) {
    let made = match "a\u{6f22}\r\n".repeat(rt.alloc(), 1000) {
        Ok(text) => has_pieces(rt.alloc(), text.as_str()),
        Err(_) => false,
    };
    assert!(rt; made);
}

// Whether a range has these places, and comes back from them.
fn goes_and_comes(places: &TextPlaces, range: TextRange) -> bool {
    let (start, end) = places.range_of(Encoding::Utf16, range);
    start == Place { line: 0, unit: 1 }
        && end == Place { line: 1, unit: 2 }
        && bytes_of(places, Encoding::Utf16, start, end) == range
}

fn range_comes_back(alloc: Global) -> bool {
    let range = TextRange::new(TextSize::new(3), TextSize::new(10));
    match index(alloc, "\u{feff}a\r\n\u{1f600}b") {
        Ok(places) => goes_and_comes(&places, range),
        Err(_) => false,
    }
}

#[test]
fn a_range_goes_to_a_client_and_back(rt: HostRuntime) {
    assert!(rt; range_comes_back(rt.alloc()));
}
