//! The trait of sources of breaks.
ghost use Rattle.std.specs.Prelude.{◌≡◌, ℕ, ◌+◌, ◌<◌, ◌≤◌, List, false};
ghost use Rattle.oxc_windows.specs.declared.breaks.LineBreak.{LineBreak};
ghost use Rattle.oxc_windows.specs.Breaks.{IsBreakList};
ghost use Rattle.oxc_windows.specs.Rows.{row_of, is_second_byte};
ghost use Rattle.oxc_windows.specs.Source.{first_between, last_before, looked_at, looked_back};

use crate::{LineBreak, Steps};
use std::sync::ledger::Ledger;

/// A source that finds its breaks and counts the steps: a step is a byte that a search looked at.
///
/// Offsets are in bytes, from 0.
pub trait BreakSource<L: Ledger> {
    ghost size: { Self → ℕ };

    ghost breaks: { Self → List LineBreak };

    /// The number of bytes of the source.
    fn len(&self) -> usize
        ensures { result ≡ size self.now };

    /// The number of breaks that end before an offset that isn't inside a CRLF. It looks at all
    /// bytes before the offset.
    fn count_breaks(&self, to: usize, steps: &mut Steps<L>) -> usize
        requires within { to ≤ size self.now }
        requires outside { is_second_byte (breaks self.now) to ≡ false }
        ensures value { result ≡ row_of (breaks self.now) to }
        ensures ticks { steps.new ≡ steps.old + to };

    /// The first break that starts at or after `from`, which isn't inside a CRLF, and before `to`.
    /// It looks at the bytes from `from` to the end of what it finds, or to `to`.
    fn first_break(&self, from: usize, to: usize, steps: &mut Steps<L>) -> Option<LineBreak>
        requires ordered { from ≤ to }
        requires within { to ≤ size self.now }
        requires outside { is_second_byte (breaks self.now) from ≡ false }
        ensures value { result ≡ first_between (breaks self.now) from to }
        ensures ticks { steps.new ≡ steps.old + looked_at result from to };

    /// The last break that ends before an offset that isn't inside a CRLF. It looks at the bytes
    /// from the start of what it finds, or from the source's start, to the offset.
    fn last_break(&self, to: usize, steps: &mut Steps<L>) -> Option<LineBreak>
        requires within { to ≤ size self.now }
        requires outside { is_second_byte (breaks self.now) to ≡ false }
        ensures value { result ≡ last_before (breaks self.now) to }
        ensures ticks { steps.new ≡ steps.old + looked_back result to };

    /// Whether an offset is between a CR and its LF. It looks at two bytes.
    fn inside(&self, at: usize, steps: &mut Steps<L>) -> bool
        requires within { at ≤ size self.now }
        ensures value { result ≡ is_second_byte (breaks self.now) at }
        ensures ticks { steps.new ≡ steps.old + 2 };

    ghost short: { (s : Self) → size s < 4294967295 };

    ghost valid: { (s : Self) → IsBreakList (size s) (breaks s) };
}
