//! The open labels of a group, while its rows are planned from the first to the last.
ghost use Rattle.std.specs.Prelude.{◌≡◌, ◌-◌, ◌<◌, ◌≤◌, ◌++◌, IfOk, length, filter, All};
ghost use Rattle.std.specs.List.{range_with_len};
ghost use Rattle.oxc_plan.specs.Groups.{span_at};
ghost use Rattle.oxc_plan.specs.Sweep.{is_open};

use crate::labels::span_at;
use crate::marks::label_past;
use oxc_span::Span;
use std::alloc::AllocError;

/// Removes the labels that end before an offset.
pub fn close_before(active: &mut Vec<usize>, spans: &[Span], offset: usize)
    requires { All (λ span. span.start ≤ span.end) spans.now }
    ensures { active.new.items ≡ filter (is_open spans.now offset) active.old.items }
{
    active.retain(|at| offset < label_past(span_at(spans, *at)));
}

/// Adds the labels from index `next` on, before index `past`, while they start before an offset.
/// Returns the index of the first that isn't added.
pub fn open_before(
    active: &mut Vec<usize>,
    spans: &[Span],
    next: usize,
    past: usize,
    offset: usize,
) -> Result<usize, AllocError>
    requires from { next ≤ past }
    requires within { past ≤ length spans.now }
    ensures opened { IfOk result (λ to. active.new.items
        ≡ active.old.items ++ range_with_len next (to - next)) }
    ensures from { IfOk result (λ to. next ≤ to) }
    ensures upto { IfOk result (λ to. to ≤ past) }
    ensures starts { IfOk result (λ to. to < past → offset ≤ (span_at spans.now to).start) }
{
    let mut to = next;
    while to < past && (spans[to].start as usize) < offset {
        active.push(to)?;
        to += 1;
    }
    Ok(to)
}
