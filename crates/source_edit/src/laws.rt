// A law of the definitions that the contracts cite: the contract of a function that does nothing.
ghost use Rattle.std.specs.Prelude.{◌<◌, ◌≤◌, ◌^◌, length};
ghost use Rattle.oxc_span.specs.Label.{label_end};
ghost use Rattle.source_edit.specs.Edits.{change_of};
ghost use Rattle.source_edit.specs.Causes.{IsAcceptable};
ghost use Rattle.source_edit.specs.Labels.{moved_start, moved_end};

use crate::Edit;
use oxc_span::LabeledSpan;

/// What [`move_label`](crate::move_label) requires holds for a label within a text that takes the
/// edit.
pub fn label_stays_in_range(_text: &str, _label: &LabeledSpan, _edit: &Edit)
    requires accepted { IsAcceptable _text.now (change_of _edit.now) }
    requires within { label_end _label.now ≤ length _text.now }
    ensures start { moved_start (change_of _edit.now) _label.now.offset < 2 ^ 32 }
    ensures end { moved_end (change_of _edit.now) (label_end _label.now) < 2 ^ 32 }
{}
