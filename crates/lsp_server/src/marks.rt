// Marks in a text that move with it: where an offset, or a range, is after a range of the text was
// replaced.
ghost use Rattle.std.specs.Prelude.{◌≡◌, ◌+◌, ◌-◌, ◌^◌, ◌<◌, ◌≤◌, ℕ};
ghost use Rattle.lsp_server.specs.Marks.{HasRoom, KeepsBoundaries, KeepsMarks, MovesInOrder};
ghost use Rattle.lsp_server.specs.Marks.{MovesWithText, StaysInside, moved_mark, moved_offset};
ghost use Rattle.lsp_server.specs.Marks.{moved_start};

/// A change: a range of bytes, from 0, is replaced by `inserted` bytes.
#[derive(Clone, Copy)]
pub struct Change {
    /// Where the range starts.
    pub start: usize,
    /// Where it ends.
    pub end: usize,
    /// How many bytes replace it.
    pub inserted: usize,
}

/// A range of a text, in bytes from 0.
#[derive(Clone, Copy)]
pub struct Mark {
    /// Where it starts.
    pub start: usize,
    /// Where it ends.
    pub end: usize,
}

/// Where an offset is after a change. Before the replaced range it stays, after it it shifts by the
/// difference in length, and inside it goes to the range's start. An offset exactly at the range's
/// start counts as before it, one exactly at its end as after it, unless the range is empty.
pub fn move_offset(change: Change, offset: usize) -> usize
    requires ordered { change.start ≤ change.end }
    requires fits { offset + change.inserted < 2 ^ 64 }
    ensures value { result ≡ moved_offset change offset }
    ensures before { offset ≤ change.start → result ≡ offset }
    ensures behind { change.start < offset → change.end ≤ offset
        → result + (change.end - change.start) ≡ offset + change.inserted }
    ensures within { change.start < offset → offset < change.end → result ≡ change.start }
    ensures inside { (len : ℕ) → StaysInside change len offset result }
{
    if offset <= change.start {
        offset
    } else if offset < change.end {
        change.start
    } else {
        offset - (change.end - change.start) + change.inserted
    }
}

/// Where the start of a mark is after a change: as `move_offset` says, but what is inserted at the
/// very place goes before it.
pub fn move_start(change: Change, offset: usize) -> usize
    requires ordered { change.start ≤ change.end }
    requires fits { offset + change.inserted < 2 ^ 64 }
    ensures value { result ≡ moved_start change offset }
    ensures inside { (len : ℕ) → StaysInside change len offset result }
{
    if change.start == change.end && offset == change.start {
        return offset + change.inserted;
    }
    move_offset(change, offset)
}

/// Where a mark is after a change; `None` if it is empty now and wasn't before. A mark that was
/// empty goes with its start.
pub fn move_mark(change: Change, mark: Mark) -> Option<Mark>
    requires ordered { change.start ≤ change.end }
    requires room { HasRoom change mark }
    ensures { result ≡ moved_mark change mark }
{
    let start = move_start(change, mark.start);
    if mark.start == mark.end {
        return Some(Mark { start, end: start });
    }
    let end = move_offset(change, mark.end);
    if start == end {
        return None;
    }
    Some(Mark { start, end })
}

/// Laws of all changes: offsets keep their order; the text before an offset that stays, and after
/// one that shifts, is the same; boundaries of characters stay boundaries; and the ends of a mark
/// stay in order, at boundaries.
pub fn mark_laws()
    ensures order { MovesInOrder }
    ensures marks { KeepsMarks }
    ensures text { MovesWithText }
    ensures boundaries { KeepsBoundaries }
{}
