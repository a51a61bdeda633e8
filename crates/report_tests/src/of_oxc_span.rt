//! Spans and labels by example.
ghost use Rattle.std.specs.Prelude.{◌≡◌, ◌+◌, ◌<◌, ◌^◌, ◌↔◌, IsTrue};

use crate::callers::span_within;
use crate::texts::reads;
use oxc_span::{LabeledSpan, Span};
use std::alloc::{AllocError, Global};

fn is_same_span(a: Span, b: Span) -> bool
    ensures { IsTrue result ↔ (a ≡ b) }
{
    a == b
}

#[test]
fn spans_by_their_ends_and_by_their_size(rt: HostRuntime) {
    let span = Span::new(2, 5);
    let sized = span == Span::sized(2, 3) && span.size() == 3;
    assert!(rt; sized && Span::sized(u32::MAX, 0).size() == 0);
}

/// Start and end of a span, and whether 2..5 contains it.
const CONTAINED: [(u32, u32, bool); 7] = [
    (2, 5, true),
    (3, 4, true),
    (5, 5, true),
    (2, 2, true),
    (1, 3, false),
    (4, 6, false),
    (6, 6, false),
];

/// Whether 2..5 contains a span as wanted.
fn is_contained(row: &(u32, u32, bool)) -> bool {
    let (start, end, inside) = *row;
    Span::new(2, 5).contains_inclusive(Span { start, end }) == inside
}

#[test]
fn containment_includes_both_ends(rt: HostRuntime) {
    for row in &CONTAINED {
        assert!(rt; is_contained(row), "from {}", row.0);
    }
}

#[test]
fn a_label_within_limits_has_its_span(rt: HostRuntime) {
    let label = LabeledSpan::new(None, 4, 3);
    let inside = span_within(&label, Span::new(4, 7)) == Some(Span::new(4, 7));
    assert!(rt; inside && span_within(&label, Span::new(4, 6)).is_none());
}

/// A label that says `here`.
fn here(alloc: Global, offset: u32, len: u32) -> Result<LabeledSpan, AllocError>
    requires { offset + len < 2 ^ 32 }
{
    let text = String::from_str(alloc, "here")?;
    Ok(LabeledSpan::new(Some(text), offset, len))
}

/// A primary label that says `here`.
fn primary_here(alloc: Global) -> Result<LabeledSpan, AllocError> {
    let text = String::from_str(alloc, "here")?;
    Ok(LabeledSpan::primary_at(Some(text), 4, 3))
}

/// Whether a label says `here`, is at 4..7, and isn't primary.
fn is_here(label: &LabeledSpan) -> bool {
    reads(label.label(), "here")
        && label.offset() == 4
        && label.len() == 3
        && label.span() == Span::new(4, 7)
        && !label.primary()
}

fn here_tells(alloc: Global) -> bool {
    match here(alloc, 4, 3) {
        Ok(label) => is_here(&label),
        Err(_) => false,
    }
}

/// Whether a label is primary, and has no text.
fn main_tells(label: &LabeledSpan) -> bool {
    label.primary() && label.label().is_none()
}

#[test]
fn labels_tell_what_they_were_made_of(rt: HostRuntime) {
    assert!(rt; here_tells(rt.alloc()) && main_tells(&LabeledSpan::primary_at(None, 4, 3)));
}

/// Whether a label is equal to its copy.
fn is_copied(alloc: Global, label: &LabeledSpan) -> bool {
    match label.try_clone(alloc) {
        Ok(copy) => *label == copy,
        Err(_) => false,
    }
}

/// Whether a label was made, and is another one.
fn is_other(label: &LabeledSpan, other: Result<LabeledSpan, AllocError>) -> bool {
    match other {
        Ok(other) => *label != other,
        Err(_) => false,
    }
}

/// Whether a label that says `here` at 4..7 is equal to its copy alone.
fn is_itself(alloc: Global, label: &LabeledSpan) -> bool {
    is_copied(alloc, label)
        && is_other(label, Ok(LabeledSpan::new(None, 4, 3)))
        && is_other(label, here(alloc, 5, 3))
        && is_other(label, here(alloc, 4, 2))
        && is_other(label, primary_here(alloc))
}

fn here_is_itself(alloc: Global) -> bool {
    match here(alloc, 4, 3) {
        Ok(label) => is_itself(alloc, &label),
        Err(_) => false,
    }
}

fn is_default(label: &LabeledSpan) -> bool {
    LabeledSpan::default() == *label
}

#[test]
fn labels_are_equal_by_all_their_parts(rt: HostRuntime) {
    assert!(rt; here_is_itself(rt.alloc()) && is_default(&LabeledSpan::new(None, 0, 0)));
}
