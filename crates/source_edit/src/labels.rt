// Labels that move with an edit.
ghost use Rattle.std.specs.Prelude.{◌≡◌, ℕ, ◌<◌, ◌≤◌, ◌^◌, List, length, slice_range};
ghost use Rattle.std.specs.Str.{IsCharBoundary};
ghost use Rattle.oxc_span.specs.Label.{label_end};
ghost use Rattle.source_edit.specs.Edits.{change_of, edited};
ghost use Rattle.source_edit.specs.Causes.{IsAcceptable};
ghost use Rattle.source_edit.specs.Labels.{moved_start, moved_end, moved_label};

use crate::Edit;
use oxc_span::{LabeledSpan, Span};

/// Where a label of a text lies after an edit of the text.
///
/// A label wholly before or after the range covers the same text as before. The new start and end
/// have to be in the range of `u32`, as they are for a label within a text that takes the edit.
#[must_use]
pub fn move_label(label: &LabeledSpan, edit: &Edit) -> Span
    requires start { moved_start (change_of edit.now) label.now.offset < 2 ^ 32 }
    requires end { moved_end (change_of edit.now) (label_end label.now) < 2 ^ 32 }
    ensures moved { result ≡ moved_label (change_of edit.now) label.now }
    ensures boundaries { (text : List ℕ) → IsAcceptable text (change_of edit.now)
        → IsCharBoundary text label.now.offset → IsCharBoundary text (label_end label.now)
        → IsCharBoundary (edited text (change_of edit.now)) result.start
        × IsCharBoundary (edited text (change_of edit.now)) result.end }
    ensures before { (text : List ℕ) → IsAcceptable text (change_of edit.now)
        → label_end label.now ≤ edit.now.range.0
        → slice_range (edited text (change_of edit.now)) result.start result.end
        ≡ slice_range text label.now.offset (label_end label.now) }
    ensures behind { (text : List ℕ) → IsAcceptable text (change_of edit.now)
        → edit.now.range.1 ≤ label.now.offset
        → slice_range (edited text (change_of edit.now)) result.start result.end
        ≡ slice_range text label.now.offset (label_end label.now) }
{
    let span = label.span();
    let start = new_start(span.start, edit);
    let end = new_end(span.end, edit);
    Span::new(start, start.max(end))
}

/// Where a label that starts at a place starts after an edit.
fn new_start(start: u32, edit: &Edit) -> u32
    requires { moved_start (change_of edit.now) start < 2 ^ 32 }
    ensures moved { result ≡ moved_start (change_of edit.now) start }
    ensures ordered { edit.now.range.0 ≤ edit.now.range.1 }
{
    let (from, to) = (edit.range.start().to_u32(), edit.range.end().to_u32());
    if from == start && to == start {
        start + edit.insert.len() as u32
    } else if start <= from {
        start
    } else if start < to {
        from
    } else {
        start - (to - from) + edit.insert.len() as u32
    }
}

/// Where a label that ends at a place ends after an edit.
fn new_end(end: u32, edit: &Edit) -> u32
    requires { moved_end (change_of edit.now) end < 2 ^ 32 }
    ensures { result ≡ moved_end (change_of edit.now) end }
{
    let (from, to) = (edit.range.start().to_u32(), edit.range.end().to_u32());
    if end <= from {
        end
    } else if end < to {
        from + edit.insert.len() as u32
    } else {
        end - (to - from) + edit.insert.len() as u32
    }
}
