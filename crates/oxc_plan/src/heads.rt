//! Where the head of a snippet points.
ghost use Rattle.std.specs.Prelude.{◌≡◌, ◌+◌, ◌-◌, ◌<◌, ◌≤◌, slice_index, length, map};
ghost use Rattle.std.specs.List.{find};
ghost use Rattle.oxc_windows.specs.Breaks.{breaks_of, ends_break};
ghost use Rattle.oxc_windows.specs.Rows.{place_of};
ghost use Rattle.oxc_windows.specs.Scan.{contents_of};
ghost use Rattle.oxc_plan.specs.Groups.{window_round};
ghost use Rattle.oxc_plan.specs.Plan.{head_label, ordered_view};

use crate::labels::{OrderedLabel, ordered_at};
use memchr::memchr2;
use oxc_span::Span;
use oxc_windows::{SpanContents, SpanScanner};
use std::ops::Range;

/// The label at whose start the head of a group points.
#[tactic(auto, unfolding(crate::specs::Plan::head_label))]
pub fn head_label<'a>(labels: &[OrderedLabel<'a>], group: &Range<usize>) -> OrderedLabel<'a>
    requires nonempty { group.now.start < group.now.end }
    requires within { group.now.end ≤ length labels.now }
    ensures { ordered_view result ≡ head_label (map ordered_view labels.now) group.now }
{
    if let [label] = &labels[group.start..group.end] {
        return *label;
    }
    match first_primary(&labels[group.start..group.end]) {
        Some(label) => label,
        None => ordered_at(labels, group.start),
    }
}

/// The first primary label.
fn first_primary<'a>(labels: &[OrderedLabel<'a>]) -> Option<OrderedLabel<'a>>
    ensures { result ≡ find (λ l. l.is_primary) labels.now }
{
    labels.iter().copied().find(|label| label.is_primary)
}

/// The row and the byte column, from 0, of an offset in the contents that were read for a span.
pub fn place_in<'a>(
    scanner: &SpanScanner<'a>,
    contents: &SpanContents<'a>,
    span: Span,
    offset: usize,
) -> (usize, usize)
    requires known { contents.now
        ≡ contents_of scanner.now.input (window_round scanner.now.input span) }
    requires from { contents.now.span.start ≤ offset }
    requires upto { offset ≤ span.end }
    requires within { span.end ≤ length scanner.now.input }
    ensures place { let source = scanner.now.input in
        let place = place_of (length source) (breaks_of source) offset in
        result ≡ (place.row, place.column) }
    ensures few { (result.0 ≤ offset) × (result.1 ≤ offset) }
{
    let bytes = contents.bytes();
    let begin = contents.span().start as usize;
    let mut row = contents.line();
    let mut start = begin;
    let mut at = 0;
    while let Some(found) = memchr2(b'\n', b'\r', &bytes[at..offset - begin]) {
        at += found;
        if ends_break(bytes, at) {
            row += 1;
            start = begin + at + 1;
        }
        at += 1;
    }
    (row, settled(bytes, begin, offset).saturating_sub(start))
}

/// Whether the byte at an index is the last byte of a break.
fn ends_break(bytes: &[u8], at: usize) -> bool
    requires { at < length bytes.now }
    ensures { result ≡ ends_break bytes.now at }
{
    bytes[at] == b'\n' || bytes[at] == b'\r' && bytes.get(at + 1) != Some(&b'\n')
}

/// An offset in bytes that begin at `begin`; the LF of a CRLF counts as its CR.
fn settled(bytes: &[u8], begin: usize, offset: usize) -> usize
    requires from { begin ≤ offset }
    requires upto { offset ≤ begin + length bytes.now }
    ensures pair { 0 < offset - begin
        → slice_index bytes.now (offset - begin - 1) ≡ 13
        → slice_index bytes.now (offset - begin) ≡ 10
        → result ≡ offset - 1 }
    ensures other { (0 < offset - begin
        → slice_index bytes.now (offset - begin - 1) ≡ 13
        → slice_index bytes.now (offset - begin) ≡ 10
        → ⊥)
        → result ≡ offset }
    ensures bound { result ≤ offset }
{
    let at = offset - begin;
    if at > 0 && bytes[at - 1] == b'\r' && bytes.get(at) == Some(&b'\n') {
        offset - 1
    } else {
        offset
    }
}
