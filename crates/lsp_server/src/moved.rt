// Findings that move with the text.
ghost use Rattle.std.specs.Prelude.{◌≡◌, ◌<◌, ◌≤◌, ◌^◌, All, IfOk, IfSome};
ghost use Rattle.std.specs.List.{filter_map};
ghost use Rattle.lsp_server.specs.Marks.{moved_mark};
ghost use Rattle.lsp_server.specs.Moved.{CanMove, CanMoveAll};
ghost use Rattle.lsp_server.specs.Moved.{mark_of as mark_in, moved_diagnostic as moved_in};
ghost use Rattle.lsp_server.specs.Moved.{moved_label as moved_to};

use crate::heads::head_label;
use crate::marks::{Change, Mark, move_mark};
use crate::server::push_some;
use oxc_protocol::{Diagnostic, OxcDiagnostic};
use oxc_span::LabeledSpan;
use std::alloc::{AllocError, Global};

/// Where a label's range is after a change; `None` if it became empty.
fn moved_mark_of(change: Change, label: &LabeledSpan) -> Option<Mark>
    requires { CanMove change label.now }
    ensures value { result ≡ moved_mark change (mark_in label.now) }
    ensures fits { IfSome result (λ mark. (mark.start ≤ mark.end) × (mark.end < 2 ^ 32)) }
{
    let span = label.span();
    let mark = Mark {
        start: span.start as usize,
        end: span.end as usize,
    };
    move_mark(change, mark)
}

/// A label after a change; `None` if it became empty.
///
/// # Errors
///
/// Out of memory.
#[tactic(auto, unfolding(crate::specs::Moved::moved_label))]
pub fn moved_label(
    alloc: Global,
    change: Change,
    label: &LabeledSpan,
) -> Result<Option<LabeledSpan>, AllocError>
    requires { CanMove change label.now }
    ensures { IfOk result (λ moved. moved ≡ moved_to change label.now) }
{
    let Some(mark) = moved_mark_of(change, label) else {
        return Ok(None);
    };
    let text = match label.label() {
        Some(text) => Some(String::from_str(alloc, text)?),
        None => None,
    };
    let offset = mark.start as u32;
    let len = (mark.end - mark.start) as u32;
    if label.primary() {
        Ok(Some(LabeledSpan::primary_at(text, offset, len)))
    } else {
        Ok(Some(LabeledSpan::new(text, offset, len)))
    }
}

/// The labels after a change, in order, without those that became empty.
fn moved_labels(
    alloc: Global,
    change: Change,
    labels: &[LabeledSpan],
) -> Result<Vec<LabeledSpan>, AllocError>
    requires { All (CanMove change) labels.now }
    ensures { IfOk result (λ moved. moved.items ≡ filter_map (moved_to change) labels.now) }
{
    let mut moved = Vec::with_capacity(alloc, labels.len())?;
    for label in labels {
        let label = moved_label(alloc, change, label)?;
        push_some(&mut moved, label)?;
    }
    Ok(moved)
}

/// A finding after a change: its labels move. It is dropped if its head label became empty.
///
/// # Errors
///
/// Out of memory.
#[tactic(auto, unfolding(crate::specs::Moved::moved_diagnostic, crate::specs::Moved::moved_label))]
pub fn moved_diagnostic(
    alloc: Global,
    change: Change,
    diagnostic: &OxcDiagnostic,
) -> Result<Option<OxcDiagnostic>, AllocError>
    requires { CanMoveAll change diagnostic.now }
    ensures { IfOk result (λ moved. moved ≡ moved_in change diagnostic.now) }
{
    let labels = diagnostic.labels();
    if let Some(head) = head_label(labels) {
        if moved_mark_of(change, head).is_none() {
            return Ok(None);
        }
    }
    let moved = moved_labels(alloc, change, labels)?;
    let copy = diagnostic.try_clone(alloc)?;
    let copy = copy.with_labels(alloc, moved)?;
    Ok(Some(copy))
}

/// Findings after a change, in order.
///
/// # Errors
///
/// Out of memory.
pub fn moved_all(
    alloc: Global,
    change: Change,
    found: &[OxcDiagnostic],
) -> Result<Vec<OxcDiagnostic>, AllocError>
    requires { All (CanMoveAll change) found.now }
    ensures { IfOk result (λ moved. moved.items ≡ filter_map (moved_in change) found.now) }
{
    let mut moved = Vec::with_capacity(alloc, found.len())?;
    for diagnostic in found {
        let diagnostic = moved_diagnostic(alloc, change, diagnostic)?;
        push_some(&mut moved, diagnostic)?;
    }
    Ok(moved)
}

/// Copies of findings.
///
/// # Errors
///
/// Out of memory.
pub fn copied_all(alloc: Global, found: &[OxcDiagnostic]) -> Result<Vec<OxcDiagnostic>, AllocError>
    ensures { IfOk result (λ copies. copies.items ≡ found.now) }
{
    let mut copies = Vec::with_capacity(alloc, found.len())?;
    for diagnostic in found {
        copies.push(diagnostic.try_clone(alloc)?)?;
    }
    Ok(copies)
}
