// Laws of the definitions that the contracts cite: contracts of functions that do nothing.
ghost use Rattle.std.specs.Prelude.{◌≡◌, ℕ, ◌<◌, Option, Some};
ghost use Rattle.std.specs.Str.{IsCharBoundary};
ghost use Rattle.utf16_places.specs.Places.{utf16_place, IsBefore, IsOffsetOf, IsNearest};
ghost use Rattle.utf16_places.specs.Places.{PartsNoCrlf};

/// Positions keep the order of the boundaries of a text.
pub fn places_ascend(_text: &str, _first: usize, _second: usize)
    requires first { IsCharBoundary _text.now _first }
    requires second { IsCharBoundary _text.now _second }
    requires ordered { _first < _second }
    ensures { IsBefore (utf16_place _text.now _first) (utf16_place _text.now _second) }
{}

/// The position of a boundary leads back to that boundary, after a byte order mark too.
pub fn places_lead_back(_text: &str, _offset: usize)
    requires { IsCharBoundary _text.now _offset }
    ensures { (answer : Option ℕ) → IsOffsetOf _text.now (utf16_place _text.now _offset) answer
        → answer ≡ Some _offset }
{}

/// The nearest boundary to the position of a boundary is that boundary, unless it is the LF of a
/// CRLF.
pub fn nearest_keeps_places(_text: &str, _offset: usize)
    requires { PartsNoCrlf _text.now _offset }
    ensures { (answer : ℕ) → IsNearest _text.now (utf16_place _text.now _offset) answer
        → answer ≡ _offset }
{}
