//! The positions of a diagnostic in its source.
ghost use Rattle.std.specs.Prelude.{◌≡◌, ◌+◌, ◌-◌, ◌<◌, ◌≤◌, count_by, length, slice_index};
ghost use Rattle.memchr.specs.Find.{is_byte, places};
ghost use Rattle.oxc_windows.specs.Breaks.{breaks_of, is_lone_return};
ghost use Rattle.oxc_windows.specs.Rows.{byte_column, row_of};
ghost use Rattle.oxc_protocol.specs.Info.{position_of, positions_of};
ghost use Rattle.oxc_protocol.specs.Source.{Fits};
ghost use Rattle.oxc_protocol.specs.SourceViews.{ref_views};

use crate::{InfoPosition, LabeledSpan, SourceRef};
use bytecount::count;
use memchr::{memchr_iter, memrchr2};

/// The positions of the first label's start and end, if there is a source and the label ends within
/// it. Breaks are counted once up to the label's end.
pub fn positions(
    source: Option<SourceRef<'_>>,
    labels: &[LabeledSpan],
) -> Option<(InfoPosition, InfoPosition)>
    ensures { result ≡ positions_of (ref_views source.entry) labels.now }
{
    let bytes = source?.bytes();
    let span = labels.first()?.span();
    let (start, end) = (span.start as usize, span.end as usize);
    if end > bytes.len() {
        return None;
    }
    let first = breaks_ending(bytes, 0, start);
    let last = first + breaks_ending(bytes, start, end);
    Some((position(bytes, start, first), position(bytes, end, last)))
}

/// The position of an offset whose row, from 0, is known.
fn position(bytes: &[u8], offset: usize, row: usize) -> InfoPosition
    requires short { Fits bytes.now }
    requires within { offset ≤ length bytes.now }
    requires at { row ≡ row_of (breaks_of bytes.now) offset }
    ensures { result ≡ position_of bytes.now offset }
{
    InfoPosition {
        line: row + 1,
        column: column_of(bytes, offset) + 1,
    }
}

/// The number of breaks that end in a part of a source: its LFs, and its CRs that no LF follows.
fn breaks_ending(bytes: &[u8], from: usize, to: usize) -> usize
    requires ordered { from ≤ to }
    requires within { to ≤ length bytes.now }
    ensures { row_of (breaks_of bytes.now) from + result ≡ row_of (breaks_of bytes.now) to }
{
    let part = &bytes[from..to];
    count(part, b'\n') + lone_returns(part, &bytes[from..])
}

/// The number of CRs of a part that no LF follows; `rest` begins with the part and continues after
/// it.
fn lone_returns(part: &[u8], rest: &[u8]) -> usize
    ensures { result ≡ count_by (is_lone_return rest.now) (places (is_byte 13) part.now) }
{
    memchr_iter(b'\r', part)
        .filter(|at| is_lone_return(rest, *at))
        .count()
}

/// Whether the byte at an index is a CR that no LF follows.
fn is_lone_return(bytes: &[u8], at: usize) -> bool
    ensures { result ≡ is_lone_return bytes.now at }
{
    bytes.get(at) == Some(&b'\r') && bytes.get(at + 1) != Some(&b'\n')
}

/// The number of bytes from the start of its row to an offset, where the LF of a CRLF counts as its
/// CR.
fn column_of(bytes: &[u8], offset: usize) -> usize
    requires { offset ≤ length bytes.now }
    ensures exact { result ≡ byte_column (length bytes.now) (breaks_of bytes.now) offset }
    ensures bound { result ≤ offset }
{
    let settled = settled(bytes, offset);
    match memrchr2(b'\n', b'\r', &bytes[..settled]) {
        Some(at) => settled - (at + 1),
        None => settled,
    }
}

/// An offset, where the LF of a CRLF counts as its CR.
fn settled(bytes: &[u8], offset: usize) -> usize
    requires { offset ≤ length bytes.now }
    ensures pair { 0 < offset → slice_index bytes.now (offset - 1) ≡ 13
        → slice_index bytes.now offset ≡ 10 → result ≡ offset - 1 }
    ensures other { (0 < offset → slice_index bytes.now (offset - 1) ≡ 13
        → slice_index bytes.now offset ≡ 10 → ⊥) → result ≡ offset }
    ensures bound { result ≤ offset }
{
    if offset > 0 && bytes[offset - 1] == b'\r' && bytes.get(offset) == Some(&b'\n') {
        offset - 1
    } else {
        offset
    }
}
