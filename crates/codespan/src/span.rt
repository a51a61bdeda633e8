//! A range of a source by its ends.
ghost use Rattle.std.specs.Prelude.{◌≡◌, ◌≤◌, ◌<◌, ◌++◌, ◌↔◌, IsTrue, Some, codes, length};
ghost use Rattle.std.specs.Fmt.{decimal};
ghost use Rattle.codespan.specs.Spans.{Extent, merged, Covers, AreDisjoint};

use crate::{ByteIndex, RawIndex};
use std::fmt;
use std::fmt::{Formatter, Write};
use std::marker::Model;
use std::ops::Range;

/// A range of a source; the end is exclusive. Spans are ordered by their starts, then by their
/// ends. Contracts see a span as the two numbers.
#[derive(Debug, Copy, Clone, PartialEq, Eq, PartialOrd, Ord, Hash)]
pub struct Span {
    start: ByteIndex,
    end: ByteIndex,
}

impl Model for Span {
    ghost Value = { Extent };

    ghost view = { λ span. record { start = span.start.0; end = span.end.0 } };

    ghost invariant = { λ span. span.start.0 ≤ span.end.0 };

    ghost inverse = { λ extent. record {
      start = record { 0 = extent.start };
      end = record
          { 0 = extent.end };
    } };
}

impl Span {
    /// The span with these ends. The start is not after the end.
    #[must_use]
    pub fn new(start: ByteIndex, end: ByteIndex) -> Span
        requires { start.0 ≤ end.0 }
        ensures { result ≡ record { start = start.0; end = end.0 } }
    {
        Span { start, end }
    }

    /// The span of a range of places. Its start is not after its end.
    pub fn from_range(range: Range<ByteIndex>) -> Span
        requires { range.start.0 ≤ range.end.0 }
        ensures { result ≡ record { start = range.start.0; end = range.end.0 } }
    {
        Span::new(range.start, range.end)
    }

    /// The span of a range of numbers of bytes. Its start is not after its end.
    pub fn from_raw_range(range: Range<u32>) -> Span
        requires { range.start ≤ range.end }
        ensures { result ≡ record { start = range.start; end = range.end } }
    {
        Span::new(ByteIndex(range.start), ByteIndex(range.end))
    }

    /// The empty span at the start of a source.
    #[must_use]
    pub fn initial() -> Span
        ensures { result ≡ record { start = 0; end = 0 } }
    {
        Span::new(ByteIndex(0), ByteIndex(0))
    }

    /// The span of a whole text of at most `u32::MAX` bytes.
    #[must_use]
    pub fn from_str(s: &str) -> Span
        requires { length s.now ≤ u32.MAX }
        ensures { result ≡ record { start = 0; end = length s.now } }
    {
        Span::new(ByteIndex(0), ByteIndex(s.len() as u32))
    }

    /// The least span that contains both; it also contains what is between them.
    #[must_use]
    pub fn merge(self, other: Span) -> Span
        ensures merged { result ≡ merged self other }
        ensures covers { Covers result self × Covers result other }
        ensures commutative { merged self other ≡ merged other self }
        ensures associative { (third : Extent) → merged (merged self other) third
            ≡ merged self (merged other third) }
        ensures idempotent { merged self self ≡ self }
    {
        Span::new(self.start.min(other.start), self.end.max(other.end))
    }

    /// Whether one of the spans ends at or before the other's start. An empty span at the end of
    /// another span is disjoint from it; an empty span inside another one isn't, though they share
    /// no byte.
    #[must_use]
    pub fn disjoint(self, other: Span) -> bool
        ensures exact { IsTrue result ↔ AreDisjoint self other }
        ensures symmetric { IsTrue result ↔ AreDisjoint other self }
    {
        self.end <= other.start || other.end <= self.start
    }

    /// The place of the first byte.
    pub fn start(self) -> ByteIndex
        ensures place { result.0 ≡ self.start }
        ensures ordered { self.start ≤ self.end }
    {
        self.start
    }

    /// The place after the last byte.
    pub fn end(self) -> ByteIndex
        ensures place { result.0 ≡ self.end }
        ensures ordered { self.start ≤ self.end }
    {
        self.end
    }
}

impl Default for Span {
    ghost is_default = { λ span. span ≡ record { start = 0; end = 0 } };

    fn default() -> Span {
        Span::initial()
    }
}

impl fmt::Display for Span {
    ghost output = { λ span. Some
        (codes "[" ++ decimal span.start ++ codes ", " ++ decimal span.end ++ codes ")") };

    fn fmt<W: Write>(&self, f: &mut Formatter<W>) -> fmt::Result {
        write!(f, "[{}, {})", self.start, self.end)
    }
}

impl From<Span> for Range<usize> {
    ghost from_gives = { λ span range. (range ≡ record { start = span.start; end = span.end })
        × (span.start ≤ span.end) };

    fn from(span: Span) -> Range<usize> {
        span.start.to_usize()..span.end.to_usize()
    }
}

impl From<Span> for Range<RawIndex> {
    ghost from_gives = { λ span range. (range ≡ record { start = span.start; end = span.end })
        × (span.start ≤ span.end) };

    fn from(span: Span) -> Range<RawIndex> {
        span.start.0..span.end.0
    }
}
