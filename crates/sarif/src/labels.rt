//! The spans of locations, and their labels.
ghost use Rattle.std.specs.Prelude.{◌≡◌, ◌≤◌, ◌<◌, ◌^◌, ◌==◌, ◌∷◌, [], All, map, IfOk, IfSome};
ghost use Rattle.std.specs.Prelude.{OnOk};
ghost use Rattle.std.specs.List.{list_any};
ghost use Rattle.found_reports.specs.Found.{StandsIn};
ghost use Rattle.found_reports.specs.Held.{held_of, held_text};
ghost use Rattle.sarif_spans.specs.Span.{IsSpanOf};
ghost use Rattle.sarif.specs.Seen.{borrowed};
ghost use Rattle.sarif.specs.Labels.{and_label, and_span, label_at, labels_with};
ghost use Rattle.sarif.specs.Labels.{span_beside as beside_meant, span_in_held as held_meant};
ghost use Rattle.sarif.specs.Views.{HoldsText, IsReadable, known_view, placed_view, reading_view};

use crate::known::{Known, Placed, file_at};
use crate::reading::Reading;
use oxc_span::LabeledSpan;
use sarif_log::Region;
use sarif_spans::span_in;
use std::alloc::{AllocError, Global};
use std::ops::Range;

/// The bytes of a region of a file: none if there is no text or no such region.
#[tactic(auto, unfolding(crate::specs::Views::reading_view))]
pub(crate) fn span_in_file(
    reading: &Reading<'_>,
    file: &Known<'_>,
    region: Option<Region>,
) -> Option<Range<usize>>
    requires { IsReadable (reading_view reading.now) file.now }
    ensures value { result ≡ held_meant (reading_view reading.now) (known_view file.now).held
        region }
    ensures stands { IfSome result (IsSpanOf (held_text (known_view file.now).held)) }
    ensures holds { IfSome result (λ _. HoldsText (known_view file.now).held) }
{
    let Ok(text) = file.text else {
        return None;
    };
    span_in(reading.columns, text, &file.rows, region?)
}

/// The bytes of a location in a file: none if it is in another file, or has no span there.
#[tactic(auto, unfolding(crate::specs::Labels::span_beside))]
pub(crate) fn span_beside(
    reading: &Reading<'_>,
    known: &[Known<'_>],
    file: &Known<'_>,
    it: &Placed<'_>,
) -> Option<Range<usize>>
    requires { IsReadable (reading_view reading.now) file.now }
    ensures value { result ≡ beside_meant (reading_view reading.now) (known_view file.now)
        (placed_view known.now it.now) }
    ensures stands { IfSome result (IsSpanOf (held_text (known_view file.now).held)) }
{
    let other = file_at(known, it.seat)?;
    if other.name.as_str() == file.name.as_str() {
        span_in_file(reading, file, it.region)
    } else {
        None
    }
}

/// A label on a span of a text.
pub(crate) fn label_on(
    alloc: Global,
    primary: bool,
    message: Option<&str>,
    span: Range<usize>,
) -> Result<LabeledSpan, AllocError>
    requires ordered { span.start ≤ span.end }
    requires small { span.end < 2 ^ 32 }
    ensures { IfOk result (λ it. it ≡ label_at primary (borrowed message.entry) span) }
{
    let text = match message {
        Some(message) => Some(String::from_str(alloc, message)?),
        None => None,
    };
    let start = span.start as u32;
    let len = (span.end - span.start) as u32;
    if primary {
        Ok(LabeledSpan::primary_at(text, start, len))
    } else {
        Ok(LabeledSpan::new(text, start, len))
    }
}

/// Whether one of these starts at this offset.
fn starts_there(labels: &[LabeledSpan], offset: u32) -> bool
    ensures { result ≡ list_any (λ label. label.offset == offset) labels.now }
{
    labels.iter().any(|label| label.offset() == offset)
}

/// Appends a label, unless it is empty, has no message, and starts where another one starts.
fn push_label(labels: &mut Vec<LabeledSpan>, label: LabeledSpan) -> Result<(), AllocError>
    ensures { OnOk result (labels.new.items ≡ and_label labels.old.items label) }
{
    if label.len() == 0 && label.label().is_none() && starts_there(labels, label.offset()) {
        return Ok(());
    }
    labels.push(label)?;
    Ok(())
}

/// Appends the label of a location, if it is in the file and adds something.
#[tactic(auto, using(crate::proofs::LabelLemmas::beside_rules))]
fn push_beside(
    alloc: Global,
    reading: &Reading<'_>,
    known: &[Known<'_>],
    file: &Known<'_>,
    it: &Placed<'_>,
    labels: &mut Vec<LabeledSpan>,
) -> Result<(), AllocError>
    requires readable { IsReadable (reading_view reading.now) file.now }
    requires stand { All (StandsIn (held_text (known_view file.now).held)) labels.old.items }
    ensures value { OnOk result (labels.new.items ≡ and_span labels.old.items
        (borrowed it.now.message) (beside_meant (reading_view reading.now) (known_view file.now)
        (placed_view known.now it.now))) }
    ensures stand { OnOk result (All (StandsIn (held_text (known_view file.now).held))
        labels.new.items) }
{
    match span_beside(reading, known, file, it) {
        Some(span) => push_label(labels, label_on(alloc, false, it.message, span)?),
        None => Ok(()),
    }
}

/// The labels of a file: the first, and those of the other locations in it.
#[tactic(auto, using(crate::proofs::LabelLemmas::one_stands), unfolding(crate::specs::Labels::labels_with))]
pub(crate) fn labels_of(
    alloc: Global,
    reading: &Reading<'_>,
    known: &[Known<'_>],
    file: &Known<'_>,
    first: LabeledSpan,
    others: &[Placed<'_>],
) -> Result<Vec<LabeledSpan>, AllocError>
    requires readable { IsReadable (reading_view reading.now) file.now }
    requires stands { StandsIn (held_text (known_view file.now).held) first }
    ensures value { IfOk result (λ labels. labels.items ≡ labels_with (reading_view reading.now)
        (known_view file.now) (first ∷ []) (map (placed_view known.now) others.now)) }
    ensures stand { IfOk result (λ labels. All (StandsIn (held_text (known_view file.now).held))
        labels.items) }
{
    let mut labels = Vec::new(alloc);
    labels.push(first)?;
    for it in others {
        push_beside(alloc, reading, known, file, it, &mut labels)?;
    }
    Ok(labels)
}
