//! Spans: pairs of byte offsets.
ghost use Rattle.std.specs.Prelude.{◌≡◌, ◌+◌, ◌<◌, ◌≤◌, ◌^◌, ◌↔◌, IsTrue};

/// The bytes from `start` to before `end`. Both count bytes from 0.
#[derive(Clone, Copy, PartialEq, Eq, Debug)]
pub struct Span {
    /// The offset of the first byte.
    pub start: u32,
    /// The offset just past the last byte.
    pub end: u32,
}

impl Span {
    /// The span from `start` to `end`, where `start` is not after `end`.
    pub fn new(start: u32, end: u32) -> Span
        requires { start ≤ end }
        ensures { result ≡ record { start = start; end = end } }
    {
        Span { start, end }
    }

    /// The span of `size` bytes from `start` on, where its end is in the range of `u32`.
    pub fn sized(start: u32, size: u32) -> Span
        requires { start + size < 2 ^ 32 }
        ensures { result ≡ record { start = start; end = start + size } }
    {
        Span::new(start, start + size)
    }

    /// The number of bytes of a span whose start is not after its end.
    pub fn size(&self) -> u32
        requires { self.now.start ≤ self.now.end }
        ensures { self.now.start + result ≡ self.now.end }
    {
        self.end - self.start
    }

    /// Whether `other` is inside this span; the ends may be equal.
    pub fn contains_inclusive(&self, other: Span) -> bool
        ensures { IsTrue result ↔ ((self.now.start ≤ other.start) × (other.end ≤ self.now.end)) }
    {
        self.start <= other.start && other.end <= self.end
    }
}
