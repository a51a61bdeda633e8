//! A caller that is proved from contracts alone, and is tested beside the others.
ghost use Rattle.std.specs.Prelude.{◌≤◌, ◌↔◌, All, IsTrue};
ghost use Rattle.oxc_span.specs.Label.{label_end};

use oxc_protocol::LabeledSpan;

/// Whether no label ends after `len`.
pub fn all_within(labels: &[LabeledSpan], len: usize) -> bool
    ensures { IsTrue result ↔ All (λ label. label_end label ≤ len) labels.now }
{
    labels.iter().all(|label| label.span().end as usize <= len)
}
