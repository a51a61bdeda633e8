ghost use Rattle.std.specs.Prelude.{◌≡◌, ◌≤◌, ℕ, List};
ghost use Rattle.std.specs.Str.{IsCharBoundary};
ghost use Rattle.utf16_places.specs.Places.{utf16_place, PartsNoCrlf};
ghost use Rattle.utf16_places.specs.Index.{IsIndexOf};

use source_location::fits;
use std::alloc::Global;
use text_size::{TextRange, TextSize};
use utf16_places::{Place16, Utf16Index};

// A client's range in bytes. Both ends are boundaries, whatever the client sent.
fn bytes_of(index: &Utf16Index, start: Place16, end: Place16) -> TextRange
    ensures start { (text : List ℕ) → IsIndexOf index.now text → IsCharBoundary text result.0 }
    ensures end { (text : List ℕ) → IsIndexOf index.now text → IsCharBoundary text result.1 }
    ensures exact { (text : List ℕ) (from to : ℕ) → IsIndexOf index.now text
        → PartsNoCrlf text from → PartsNoCrlf text to → from ≤ to → start ≡ utf16_place text from
        → end ≡ utf16_place text to → result ≡ (from, to) }
{
    let from = index.nearest(start);
    let to = index.nearest(end);
    TextRange::new(from, to.max(from))
}

// A diagnostic's bytes as a client's range, and back.
fn shown_and_back(index: &Utf16Index, range: TextRange) -> TextRange
    ensures { (text : List ℕ) → IsIndexOf index.now text → PartsNoCrlf text range.0
        → PartsNoCrlf text range.1 → result ≡ range }
{
    let (start, end) = index.range_of(range);
    bytes_of(index, start, end)
}

// Whether a range has these places, and comes back from them.
fn goes_and_comes(index: &Utf16Index) -> bool {
    let range = TextRange::new(TextSize::new(7), TextSize::new(26));
    let (start, end) = index.range_of(range);
    start == Place16 { line: 0, unit: 5 }
        && end == Place16 { line: 1, unit: 8 }
        && shown_and_back(index, range) == range
}

fn range_comes_back(alloc: Global) -> bool {
    let text = "\u{feff}let 💣 = 1;\r\nlet y = 💣;\r\n";
    if !fits(text) {
        return false;
    }
    match Utf16Index::new(alloc, text) {
        Ok(index) => goes_and_comes(&index),
        Err(_) => false,
    }
}

#[test]
fn a_range_goes_to_a_client_and_back(rt: HostRuntime) {
    assert!(rt; range_comes_back(rt.alloc()));
}
