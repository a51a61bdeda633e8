//! The rows that an index holds, and searches from there on.
ghost use Rattle.std.specs.Prelude.{◌≡◌, ℕ, ◌⊎◌, ◌+◌, ◌-◌, ◌^◌, ◌<◌, ◌≤◌, Some, ◌∷◌, [], ◌++◌};
ghost use Rattle.std.specs.Prelude.{length, IfOk, IfErr, OnOk, slice_index_or};
ghost use Rattle.oxc_windows.specs.Rows.{row_of, row_start};
ghost use Rattle.oxc_windows.specs.Window.{window_of, window_end};
ghost use Rattle.oxc_windows.specs.Held.{AreRowsOf, past};
ghost use Rattle.oxc_windows.specs.Seen.{AreInOrder, heads_before, row_seen, seen, settled_seen};

use crate::seen::{at_or, column_seen, end_seen, heads_before, row_near};
use crate::{BreakSource, LineBreak, Steps, Window};
use std::alloc::AllocError;
use std::sync::ledger::Ledger;

/// Consecutive rows, as far as breaks are known. A row takes eight bytes.
#[derive(Drop)]
pub struct Rows {
    /// Where each row starts.
    pub starts: Vec<u32>,
    /// Where the break at the end of each row starts, except for the last row, whose break isn't
    /// known. A break ends before the start of the next row.
    pub heads: Vec<u32>,
    /// The number of the first of these rows.
    pub top: usize,
    /// The offset up to which breaks are known. It is never inside a CRLF.
    pub known: usize,
}

impl Rows {
    /// Adds a break after those held.
    fn put(&mut self, found: LineBreak) -> Result<(), AllocError>
        requires { (found.end + 1 < 4294967296) × (found.start ≤ found.end) }
        ensures top { self.new.top ≡ self.old.top }
        ensures starts { OnOk result (self.new.starts.items
            ≡ self.old.starts.items ++ (found.end + 1) ∷ []) }
        ensures heads { OnOk result (self.new.heads.items
            ≡ self.old.heads.items ++ found.start ∷ []) }
        ensures known { OnOk result (self.new.known ≡ found.end + 1) }
        ensures err { IfErr result (λ _. (self.new.starts.items ≡ self.old.starts.items)
            × (self.new.heads.items ≡ self.old.heads.items)
            × (self.new.known ≡ self.old.known)) }
    {
        self.starts.push((found.end + 1) as u32)?;
        if let Err(e) = self.heads.push(found.start as u32) {
            let _ = self.starts.pop();
            return Err(e.into());
        }
        self.known = found.end + 1;
        Ok(())
    }

    /// One search from the known offset on.
    fn step<L: Ledger, S: BreakSource<L>>(
        &mut self,
        source: &S,
        to: usize,
        steps: &mut Steps<L>,
    ) -> Result<(), AllocError>
        requires held { AreRowsOf (S.size source.now) (S.breaks source.now) self.old }
        requires ordered { self.old.known < to }
        requires within { to ≤ S.size source.now }
        ensures held { AreRowsOf (S.size source.now) (S.breaks source.now) self.new }
        ensures top { self.new.top ≡ self.old.top }
        ensures ticks { OnOk result (steps.new + self.old.known ≡ steps.old + self.new.known) }
        ensures further { self.old.known ≤ self.new.known }
        ensures near { OnOk result (self.new.known ≤ past (S.breaks source.now) to) }
        ensures most { OnOk result ((w : ℕ) → to ≡ S.size source.now
            → length self.old.heads.items < w
            → self.new.known
            ≤ row_start (S.size source.now) (S.breaks source.now) (self.new.top + w)) }
        ensures grows { OnOk result (self.old.known < self.new.known) }
    {
        match source.first_break(self.known, to, steps) {
            Some(found) => {
                self.put(found)?;
                Ok(())
            }
            None => {
                self.known = to;
                Ok(())
            }
        }
    }

    /// Searches on until the breaks that start before an offset are known.
    fn reach<L: Ledger, S: BreakSource<L>>(
        &mut self,
        source: &S,
        to: usize,
        steps: &mut Steps<L>,
    ) -> Result<(), AllocError>
        requires held { AreRowsOf (S.size source.now) (S.breaks source.now) self.old }
        requires within { to ≤ S.size source.now }
        ensures held { AreRowsOf (S.size source.now) (S.breaks source.now) self.new }
        ensures top { self.new.top ≡ self.old.top }
        ensures ticks { OnOk result (steps.new + self.old.known ≡ steps.old + self.new.known) }
        ensures reached { OnOk result (to ≤ self.new.known) }
        ensures near { OnOk result ((self.new.known ≡ self.old.known)
            ⊎ (self.new.known ≤ past (S.breaks source.now) to)) }
        ensures further { self.old.known ≤ self.new.known }
    {
        while self.known < to {
            self.step(source, to, steps)?;
        }
        Ok(())
    }

    /// Searches on until this many breaks are held, or all are known.
    fn gather<L: Ledger, S: BreakSource<L>>(
        &mut self,
        source: &S,
        want: usize,
        steps: &mut Steps<L>,
    ) -> Result<(), AllocError>
        requires held { AreRowsOf (S.size source.now) (S.breaks source.now) self.old }
        ensures held { AreRowsOf (S.size source.now) (S.breaks source.now) self.new }
        ensures top { self.new.top ≡ self.old.top }
        ensures ticks { OnOk result (steps.new + self.old.known ≡ steps.old + self.new.known) }
        ensures reached { OnOk result (length self.new.heads.items < want
            → self.new.known ≡ S.size source.now) }
        ensures most { OnOk result ((self.new.known ≡ self.old.known)
            ⊎ (self.new.known
            ≤ row_start (S.size source.now) (S.breaks source.now) (self.old.top + want))) }
        ensures further { self.old.known ≤ self.new.known }
    {
        let len = source.len();
        while self.heads.len() < want && self.known < len {
            self.step(source, len, steps)?;
        }
        Ok(())
    }

    /// Searches as far as the window of a span that ends at `end` goes, and guesses how many of the
    /// breaks then held start before `end`.
    fn search_for<L: Ledger, S: BreakSource<L>>(
        &mut self,
        source: &S,
        after: usize,
        end: usize,
        steps: &mut Steps<L>,
    ) -> Result<usize, AllocError>
        requires held { AreRowsOf (S.size source.now) (S.breaks source.now) self.old }
        requires within { end ≤ S.size source.now }
        requires low { row_start (S.size source.now) (S.breaks source.now) self.old.top ≤ end }
        ensures held { AreRowsOf (S.size source.now) (S.breaks source.now) self.new }
        ensures top { self.new.top ≡ self.old.top }
        ensures ticks { OnOk result (steps.new + self.old.known ≡ steps.old + self.new.known) }
        ensures further { self.old.known ≤ self.new.known }
        ensures reached { OnOk result (self.new.known < end - 1 + 1
            → self.new.known ≡ S.size source.now) }
        ensures gathered { OnOk result (0 < after → length self.new.heads.items
            < heads_before self.new.heads.items (end - 1 + 1) + after + 1
            → self.new.known ≡ S.size source.now) }
        ensures most { OnOk result ((self.new.known ≡ self.old.known)
            ⊎ (self.new.known ≤ window_end (S.size source.now) (S.breaks source.now) after end)) }
    {
        let upto = end.saturating_sub(1) + 1;
        self.reach(source, source.len().min(upto), steps)?;
        let below = heads_before(&self.heads, upto);
        if after == 0 {
            return Ok(below);
        }
        let want = (below + 1).saturating_add(after);
        self.gather(source, want, steps)?;
        Ok(below)
    }

    /// The window of a span whose first row is held or follows those held, with the searches that
    /// it takes.
    pub fn answer<L: Ledger, S: BreakSource<L>>(
        &mut self,
        source: &S,
        before: usize,
        after: usize,
        start: usize,
        end: usize,
        steps: &mut Steps<L>,
    ) -> Result<Window, AllocError>
        requires held { AreRowsOf (S.size source.now) (S.breaks source.now) self.old }
        requires ordered { start ≤ end }
        requires within { end ≤ S.size source.now }
        requires line { self.old.top ≤ row_of (S.breaks source.now) start - before }
        ensures held { AreRowsOf (S.size source.now) (S.breaks source.now) self.new }
        ensures top { self.new.top ≡ self.old.top }
        ensures ticks { OnOk result (steps.new + self.old.known ≡ steps.old + self.new.known) }
        ensures further { self.old.known ≤ self.new.known }
        ensures value { IfOk result (λ w. window_of (S.size source.now) (S.breaks source.now)
            before after start end ≡ Some w) }
        ensures known { IfOk result (λ w. w.end ≤ self.new.known) }
        ensures reached { OnOk result (end ≤ self.new.known) }
        ensures most { IfOk result (λ w. (self.new.known ≡ self.old.known)
            ⊎ (self.new.known ≤ w.end)) }
        ensures low { IfOk result (λ w. end ≤ w.end) }
    {
        let below = self.search_for(source, after, end, steps)?;
        Ok(self.window(source.len(), below, before, after, start, end))
    }

    /// The window of a span, from the rows held, with a guess of how many breaks start before its
    /// end.
    #[tactic(auto, unfolding(crate::specs::Seen::seen))]
    fn window(
        &self,
        len: usize,
        guess: usize,
        before: usize,
        after: usize,
        start: usize,
        end: usize,
    ) -> Window
        requires rising { AreInOrder self.now.starts.items self.now.heads.items }
        requires short { len < 2 ^ 32 }
        requires bound { self.now.top + length self.now.starts.items ≤ 2 ^ 32 }
        requires ordered { start ≤ end }
        requires within { end ≤ len }
        requires above { self.now.top
            ≤ self.now.top + row_seen self.now.starts.items start - before }
        requires column { slice_index_or
            self.now.starts.items (row_seen self.now.starts.items start) len
            ≤ settled_seen self.now.starts.items self.now.heads.items start }
        ensures { result ≡ seen len self.now.top self.now.starts.items self.now.heads.items
            before after start end }
    {
        let place = row_near(&self.starts, guess, start);
        let line = (self.top + place).saturating_sub(before);
        let stop = end_seen(len, &self.starts, &self.heads, guess, after, end);
        let last = guess.saturating_add(after).saturating_add(1);
        Window {
            begin: if before == 0 {
                start
            } else {
                at_or(&self.starts, line - self.top, len)
            },
            end: stop,
            line,
            column: if before == 0 {
                column_seen(len, &self.starts, &self.heads, place, start)
            } else {
                0
            },
            line_count: self.top + row_near(&self.starts, last.min(self.heads.len()), stop),
        }
    }
}
