//! The rows of the first span: a count up to it, and a walk back over the rows before it.
ghost use Rattle.std.specs.Prelude.{◌≡◌, ◌+◌, ◌-◌, ◌*◌, ◌<◌, ◌≤◌, [], false, IfOk, OnOk};
ghost use Rattle.oxc_windows.specs.Rows.{row_of, row_start, is_second_byte};
ghost use Rattle.oxc_windows.specs.Held.{AreRowsOf, Back, IsCut};

use crate::held::Rows;
use crate::{BreakSource, Steps};
use std::alloc::{AllocError, Global};
use std::sync::ledger::Ledger;

/// The start of the row of an offset.
fn row_begin<L: Ledger, S: BreakSource<L>>(
    source: &S,
    at: usize,
    top: usize,
    steps: &mut Steps<L>,
) -> u32
    requires within { at ≤ S.size source.now }
    requires back { Back (S.breaks source.now) top at at [] }
    ensures value { result ≡ row_start (S.size source.now) (S.breaks source.now) top }
    ensures low { result ≤ at }
    ensures ticks { steps.new ≤ steps.old + at }
{
    if top == 0 {
        return 0;
    }
    match source.last_break(at, steps) {
        Some(found) => (found.end + 1) as u32,
        None => 0,
    }
}

/// The rows from `low` on up to the offset `cut`, whose row is `place`: a walk back from there.
fn walked_back<L: Ledger, S: BreakSource<L>>(
    alloc: Global,
    source: &S,
    cut: usize,
    place: usize,
    low: usize,
    steps: &mut Steps<L>,
) -> Result<Rows, AllocError>
    requires within { cut ≤ S.size source.now }
    requires outside { is_second_byte (S.breaks source.now) cut ≡ false }
    requires place { place ≡ row_of (S.breaks source.now) cut }
    requires low { low ≤ place }
    ensures held { IfOk result (λ r. AreRowsOf (S.size source.now) (S.breaks source.now) r) }
    ensures top { IfOk result (λ r. r.top ≡ low) }
    ensures known { IfOk result (λ r. r.known ≡ cut) }
    ensures ticks { OnOk result (steps.new ≤ steps.old + cut) }
{
    let mut starts = Vec::new(alloc);
    let mut heads = Vec::new(alloc);
    let mut at = cut;
    let mut top = place;
    while top > low {
        let Some(found) = source.last_break(at, steps) else {
            unreachable!()
        };
        starts.push((found.end + 1) as u32)?;
        heads.push(found.start as u32)?;
        at = found.start;
        top -= 1;
    }
    starts.push(row_begin(source, at, top, steps))?;
    starts.reverse();
    heads.reverse();
    Ok(Rows {
        starts,
        heads,
        top,
        known: cut,
    })
}

/// The rows of the first span: from `before` rows above its start's row up to that row.
pub fn seeded<L: Ledger, S: BreakSource<L>>(
    alloc: Global,
    source: &S,
    before: usize,
    start: usize,
    steps: &mut Steps<L>,
) -> Result<Rows, AllocError>
    requires within { start ≤ S.size source.now }
    ensures held { IfOk result (λ r. AreRowsOf (S.size source.now) (S.breaks source.now) r) }
    ensures top { IfOk result (λ r. r.top ≡ row_of (S.breaks source.now) start - before) }
    ensures known { IfOk result (λ r. (r.known ≤ start) × (start ≤ r.known + 1)) }
    ensures ticks { IfOk result (λ r. steps.new ≤ steps.old + 2 * r.known + 2) }
{
    if source.inside(start, steps) {
        seeded_at(alloc, source, before, start, start - 1, steps)
    } else {
        seeded_at(alloc, source, before, start, start, steps)
    }
}

/// The same, with the offset to which breaks are counted.
fn seeded_at<L: Ledger, S: BreakSource<L>>(
    alloc: Global,
    source: &S,
    before: usize,
    start: usize,
    cut: usize,
    steps: &mut Steps<L>,
) -> Result<Rows, AllocError>
    requires within { start ≤ S.size source.now }
    requires cut { IsCut (S.breaks source.now) start cut }
    ensures held { IfOk result (λ r. AreRowsOf (S.size source.now) (S.breaks source.now) r) }
    ensures top { IfOk result (λ r. r.top ≡ row_of (S.breaks source.now) start - before) }
    ensures known { IfOk result (λ r. r.known ≡ cut) }
    ensures ticks { OnOk result (steps.new ≤ steps.old + 2 * cut) }
{
    let place = source.count_breaks(cut, steps);
    let low = place.saturating_sub(before);
    walked_back(alloc, source, cut, place, low, steps)
}

/// The rows of the first span, the row of whose start is known: a walk back alone.
pub fn seeded_in<L: Ledger, S: BreakSource<L>>(
    alloc: Global,
    source: &S,
    before: usize,
    start: usize,
    row: usize,
    steps: &mut Steps<L>,
) -> Result<Rows, AllocError>
    requires within { start ≤ S.size source.now }
    requires row { row ≡ row_of (S.breaks source.now) start }
    ensures held { IfOk result (λ r. AreRowsOf (S.size source.now) (S.breaks source.now) r) }
    ensures top { IfOk result (λ r. r.top ≡ row - before) }
{
    let low = row.saturating_sub(before);
    if source.inside(start, steps) {
        walked_back(alloc, source, start - 1, row, low, steps)
    } else {
        walked_back(alloc, source, start, row, low, steps)
    }
}
