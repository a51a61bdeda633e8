//! A caller that is proved from contracts alone, and is tested beside the others.
ghost use Rattle.std.specs.Prelude.{◌≤◌};
ghost use Rattle.std.specs.Option.{SomeIff};
ghost use Rattle.oxc_span.specs.Label.{label_end};

use oxc_span::{LabeledSpan, Span};

/// The span of a label, unless it leaves `limits`.
pub fn span_within(label: &LabeledSpan, limits: Span) -> Option<Span>
    ensures { SomeIff result ((limits.start ≤ label.now.offset)
        × (label_end label.now ≤ limits.end))
        (record { start = label.now.offset; end = label_end label.now }) }
{
    let span = label.span();
    if limits.contains_inclusive(span) {
        Some(span)
    } else {
        None
    }
}
