//! Rows, columns and window ends, from the rows that are held.
ghost use Rattle.std.specs.Prelude.{◌≡◌, ◌⊎◌, ◌+◌, ◌-◌, ◌^◌, ◌<◌, ◌≤◌, IsTrue, length};
ghost use Rattle.std.specs.Prelude.{slice_index_or};
ghost use Rattle.std.specs.List.Sorted.{IsNonDecreasing};
ghost use Rattle.oxc_windows.specs.Seen.{AreInOrder, column_seen, end_seen, heads_before};
ghost use Rattle.oxc_windows.specs.Seen.{is_first_seen, is_second_seen, row_seen, settled_seen};

/// The number at an index of a list, or `other` if the list has no such index.
pub fn at_or(list: &[u32], place: usize, other: usize) -> usize
    ensures { result ≡ slice_index_or list.now place other }
{
    match list.get(place) {
        Some(number) => *number as usize,
        None => other,
    }
}

/// The row of an offset, counted from the first row held.
fn row_seen(starts: &[u32], offset: usize) -> usize
    requires { IsNonDecreasing starts.now }
    ensures exact { result ≡ row_seen starts.now offset }
    ensures bound { result ≤ length starts.now - 1 }
{
    let upto = starts.partition_point(|s| *s as usize <= offset);
    upto.saturating_sub(1)
}

/// Whether an offset is in a row.
fn is_row_of(starts: &[u32], row: usize, offset: usize) -> bool
    ensures { IsTrue result → (row < length starts.now)
        × (slice_index_or starts.now row 0 ≤ offset)
        × (offset < slice_index_or starts.now (row + 1) 18446744073709551615) }
{
    row < starts.len()
        && at_or(starts, row, 0) <= offset
        && offset < at_or(starts, row + 1, usize::MAX)
}

/// The row of an offset. If the guess is right, it costs no search.
#[tactic(auto, using(crate::proofs::GuessLemmas::row_guessed))]
pub fn row_near(starts: &[u32], guess: usize, offset: usize) -> usize
    requires { IsNonDecreasing starts.now }
    ensures exact { result ≡ row_seen starts.now offset }
    ensures bound { result ≤ length starts.now - 1 }
{
    if is_row_of(starts, guess, offset) {
        return guess;
    }
    row_seen(starts, offset)
}

/// How many of these breaks start before an offset.
fn count_before(heads: &[u32], to: usize) -> usize
    requires { IsNonDecreasing heads.now }
    ensures exact { result ≡ heads_before heads.now to }
    ensures bound { result ≤ length heads.now }
{
    heads.partition_point(|h| (*h as usize) < to)
}

/// How many of the breaks held start before an offset. The last eight are searched first.
pub fn heads_before(heads: &[u32], to: usize) -> usize
    requires { IsNonDecreasing heads.now }
    ensures exact { result ≡ heads_before heads.now to }
    ensures bound { result ≤ length heads.now }
{
    let tail = heads.len().saturating_sub(8);
    if at_or(heads, tail, usize::MAX) < to {
        return tail + count_before(&heads[tail..], to);
    }
    count_before(heads, to)
}

/// Whether exactly `count` breaks start before an offset.
fn is_count_of(heads: &[u32], count: usize, to: usize) -> bool
    ensures { IsTrue result → (count ≤ length heads.now)
        × ((count ≡ 0) ⊎ (slice_index_or heads.now (count - 1) 0 < to))
        × (to ≤ slice_index_or heads.now count 18446744073709551615) }
{
    count <= heads.len()
        && (count == 0 || at_or(heads, count - 1, 0) < to)
        && to <= at_or(heads, count, usize::MAX)
}

/// How many of the breaks held start before an offset. If the guess is right, it costs no search.
#[tactic(auto, using(crate::proofs::GuessLemmas::count_guessed))]
fn heads_near(heads: &[u32], guess: usize, to: usize) -> usize
    requires { IsNonDecreasing heads.now }
    ensures exact { result ≡ heads_before heads.now to }
    ensures bound { result ≤ length heads.now }
{
    if is_count_of(heads, guess, to) {
        return guess;
    }
    heads_before(heads, to)
}

/// Whether an offset is that of the CR of a CRLF held.
#[tactic(auto, unfolding(crate::specs::Seen::is_first_seen))]
fn is_first_seen(starts: &[u32], heads: &[u32], guess: usize, at: usize) -> bool
    requires order { AreInOrder starts.now heads.now }
    requires short { at + 2 < 2 ^ 64 }
    ensures { result ≡ is_first_seen starts.now heads.now at }
{
    let row = heads_near(heads, guess, at);
    at_or(heads, row, 0) == at && at_or(starts, row + 1, 0) == at + 2
}

/// Whether an offset, whose row is given, is that of the LF of a CRLF held.
#[tactic(auto, unfolding(crate::specs::Seen::is_second_seen))]
fn is_second_seen(starts: &[u32], heads: &[u32], row: usize, offset: usize) -> bool
    requires at { row ≡ row_seen starts.now offset }
    requires bound { row ≤ length starts.now }
    requires short { offset + 1 < 2 ^ 64 }
    ensures { result ≡ is_second_seen starts.now heads.now offset }
{
    at_or(starts, row + 1, 0) == offset + 1 && at_or(heads, row, 0) < offset
}

/// An offset, whose row is given, where the LF of a CRLF counts as its CR.
#[tactic(auto, unfolding(crate::specs::Seen::settled_seen))]
fn settled_seen(starts: &[u32], heads: &[u32], row: usize, offset: usize) -> usize
    requires at { row ≡ row_seen starts.now offset }
    requires bound { row ≤ length starts.now }
    requires short { offset + 1 < 2 ^ 64 }
    ensures { result ≡ settled_seen starts.now heads.now offset }
{
    if is_second_seen(starts, heads, row, offset) {
        offset.saturating_sub(1)
    } else {
        offset
    }
}

/// The column of an offset, whose row is given.
#[tactic(auto, unfolding(crate::specs::Seen::column_seen))]
pub fn column_seen(len: usize, starts: &[u32], heads: &[u32], row: usize, offset: usize) -> usize
    requires at { row ≡ row_seen starts.now offset }
    requires bound { row ≤ length starts.now }
    requires short { offset + 1 < 2 ^ 64 }
    requires from { slice_index_or starts.now row len ≤ settled_seen starts.now heads.now offset }
    ensures { result ≡ column_seen len starts.now heads.now offset }
{
    settled_seen(starts, heads, row, offset) - at_or(starts, row, len)
}

/// The end of the window of a span that ends within the source. The guess is how many breaks start
/// before the span's end. (That number plus `after` plus 1 is the row, counted from the first row
/// held, at whose start the window ends, so whether the last byte is in a break needn't be tested.
/// A sum past `usize` is cut: past the last row, a row starts at the source's end.)
#[tactic(auto, using(crate::proofs::StartsLemmas::seen_saturated), unfolding(crate::specs::Seen::end_seen))]
pub fn end_seen(
    len: usize,
    starts: &[u32],
    heads: &[u32],
    guess: usize,
    after: usize,
    end: usize,
) -> usize
    requires order { AreInOrder starts.now heads.now }
    requires short { len < 2 ^ 32 }
    requires bound { length starts.now ≤ 2 ^ 32 }
    requires within { end ≤ len }
    ensures { result ≡ end_seen len starts.now heads.now after end }
{
    let last = end.saturating_sub(1);
    if after == 0 {
        return if is_first_seen(starts, heads, guess, last) {
            last + 2
        } else {
            len.min(last + 1)
        };
    }
    let below = heads_near(heads, guess, last + 1) + 1;
    at_or(starts, after.saturating_add(below), len)
}
