//! The plain reader: it finds all breaks of a source from scratch for each window. The scanner and
//! the index are compared with it.
ghost use Rattle.std.specs.Prelude.{◌≡◌, ◌+◌, ◌^◌, ◌<◌, ◌≤◌, IfOk, length};
ghost use Rattle.std.specs.List.{filter_map};
ghost use Rattle.memchr.specs.Find.{is_byte2, places};
ghost use Rattle.oxc_windows.specs.Breaks.{AreBreaks, IsBreakList, break_at, breaks_of};
ghost use Rattle.oxc_windows.specs.Rows.{row_of, row_start, settled, byte_column};
ghost use Rattle.oxc_windows.specs.Window.{is_first_byte, is_in_break, row_further, window_begin};
ghost use Rattle.oxc_windows.specs.Window.{window_column, window_at, window_end, window_of};

use memchr::memchr2_iter;
use oxc_span::Span;
use oxc_windows::{LineBreak, Window};
use std::alloc::{AllocError, Global};

/// The window of a span, with rows of context before and after, and none where the span ends past
/// the source.
#[tactic(auto, unfolding(oxc_windows::specs::Window::window_of))]
pub fn plain_window(
    alloc: Global,
    bytes: &[u8],
    before: usize,
    after: usize,
    span: Span,
) -> Result<Option<Window>, AllocError>
    requires short { length bytes.now < 2 ^ 32 }
    requires ordered { span.start ≤ span.end }
    ensures { IfOk result (λ found. found ≡ window_of (length bytes.now) (breaks_of bytes.now)
        before after span.start span.end) }
{
    let len = bytes.len();
    let end = span.end as usize;
    if end > len {
        return Ok(None);
    }
    let breaks = line_breaks(alloc, bytes)?;
    Ok(Some(window_at(len, &breaks, before, after, span.start as usize, end)))
}

/// The breaks of a source, ascending.
#[tactic(auto, using(oxc_windows::proofs::PlacesLemmas::breaks_at_places))]
fn line_breaks(alloc: Global, bytes: &[u8]) -> Result<Vec<LineBreak>, AllocError>
    ensures exact { IfOk result (λ list. list.items ≡ breaks_of bytes.now) }
    ensures valid { IfOk result (λ list. IsBreakList (length bytes.now) list.items) }
{
    let list = breaks_at_bytes(alloc, bytes)?;
    Ok(list)
}

/// The breaks that start at one of the bytes that make breaks.
fn breaks_at_bytes(alloc: Global, bytes: &[u8]) -> Result<Vec<LineBreak>, AllocError>
    ensures { IfOk result (λ list. list.items
        ≡ filter_map (break_at bytes.now) (places (is_byte2 10 13) bytes.now)) }
{
    let list = memchr2_iter(b'\n', b'\r', bytes)
        .filter_map(|at| break_starting(bytes, at))
        .collect(alloc)?;
    Ok(list)
}

/// The break that starts at a place, if one does. The LF of a CRLF starts none.
fn break_starting(bytes: &[u8], at: usize) -> Option<LineBreak>
    ensures { result ≡ break_at bytes.now at }
{
    match bytes.get(at)? {
        b'\n' if at > 0 && bytes[at - 1] == b'\r' => None,
        b'\n' => Some(LineBreak { start: at, end: at }),
        b'\r' if bytes.get(at + 1) == Some(&b'\n') => Some(LineBreak {
            start: at,
            end: at + 1,
        }),
        b'\r' => Some(LineBreak { start: at, end: at }),
        _ => None,
    }
}

/// The row of an offset.
fn row_at(breaks: &[LineBreak], offset: usize) -> usize
    requires { AreBreaks breaks.now }
    ensures exact { result ≡ row_of breaks.now offset }
    ensures bound { result ≤ length breaks.now }
{
    breaks.partition_point(|b| b.end < offset)
}

/// Where a row starts, and the source's length where there is no such row.
#[tactic(auto, unfolding(oxc_windows::specs::Rows::row_start))]
fn start_of_row(len: usize, breaks: &[LineBreak], row: usize) -> usize
    requires { IsBreakList len breaks.now }
    ensures { result ≡ row_start len breaks.now row }
{
    if row == 0 {
        0
    } else if row <= breaks.len() {
        breaks[row - 1].end + 1
    } else {
        len
    }
}

/// The bytes from the start of its row to an offset, where the LF of a CRLF counts as its CR.
#[tactic(auto, unfolding(oxc_windows::specs::Rows::byte_column))]
fn column_at(len: usize, breaks: &[LineBreak], offset: usize, row: usize) -> usize
    requires valid { IsBreakList len breaks.now }
    requires at { row ≡ row_of breaks.now offset }
    ensures { result ≡ byte_column len breaks.now offset }
{
    settled_offset(len, breaks, offset, row) - start_of_row(len, breaks, row)
}

/// An offset, where the LF of a CRLF counts as its CR.
#[tactic(auto, using(oxc_windows::proofs::RowsLemmas::settled_by_row))]
fn settled_offset(len: usize, breaks: &[LineBreak], offset: usize, row: usize) -> usize
    requires valid { AreBreaks breaks.now }
    requires at { row ≡ row_of breaks.now offset }
    ensures settled { result ≡ settled breaks.now offset }
    ensures from { row_start len breaks.now row ≤ result }
{
    if row >= breaks.len() {
        return offset;
    }
    if breaks[row].end == offset {
        breaks[row].start
    } else {
        offset
    }
}

/// Whether a place lies in a break.
fn lies_in_break(breaks: &[LineBreak], at: usize) -> bool
    ensures { result ≡ is_in_break breaks.now at }
{
    breaks.iter().any(|b| b.start <= at && at <= b.end)
}

/// One row further, where a place lies in a break.
fn row_further(breaks: &[LineBreak], at: usize) -> usize
    ensures { result ≡ row_further breaks.now at }
{
    if lies_in_break(breaks, at) { 1 } else { 0 }
}

/// Whether a place is the CR of a CRLF.
fn begins_pair(breaks: &[LineBreak], at: usize) -> bool
    requires { at + 1 < 2 ^ 64 }
    ensures { result ≡ is_first_byte breaks.now at }
{
    breaks.iter().any(|b| b.start == at && b.end == at + 1)
}

/// Where the window of a span begins, given the span's start and its row.
#[tactic(auto, using(oxc_windows::proofs::WindowLemmas::row_start_before))]
fn begin_of_window(
    len: usize,
    breaks: &[LineBreak],
    before: usize,
    start: usize,
    row: usize,
) -> usize
    requires valid { IsBreakList len breaks.now }
    requires at { row ≡ row_of breaks.now start }
    ensures exact { result ≡ window_begin len breaks.now before start }
    ensures from { result ≤ start }
{
    if before == 0 {
        start
    } else {
        start_of_row(len, breaks, row.saturating_sub(before))
    }
}

/// Where the window of a span ends, given the span's end.
#[tactic(auto, using(oxc_windows::proofs::WindowLemmas::window_ends), unfolding(oxc_windows::specs::Window::window_end))]
fn end_of_window(len: usize, breaks: &[LineBreak], after: usize, end: usize) -> usize
    requires valid { IsBreakList len breaks.now }
    requires short { len < 2 ^ 32 }
    requires within { end ≤ len }
    ensures exact { result ≡ window_end len breaks.now after end }
    ensures upto { end ≤ result }
    ensures inside { result ≤ len }
{
    let last = end.saturating_sub(1);
    if after > 0 {
        let below = row_at(breaks, last) + row_further(breaks, last) + 1;
        return start_of_row(len, breaks, after.saturating_add(below));
    }
    if begins_pair(breaks, last) {
        last + 2
    } else {
        len.min(last + 1)
    }
}

/// The column that the window of a span tells, given the span's start and its row.
fn column_of_window(
    len: usize,
    breaks: &[LineBreak],
    before: usize,
    start: usize,
    row: usize,
) -> usize
    requires valid { IsBreakList len breaks.now }
    requires at { row ≡ row_of breaks.now start }
    ensures { result ≡ window_column len breaks.now before start }
{
    if before == 0 {
        column_at(len, breaks, start, row)
    } else {
        0
    }
}

/// The window of a span that ends within the source.
fn window_at(
    len: usize,
    breaks: &[LineBreak],
    before: usize,
    after: usize,
    start: usize,
    end: usize,
) -> Window
    requires valid { IsBreakList len breaks.now }
    requires short { len < 2 ^ 32 }
    requires ordered { start ≤ end }
    requires within { end ≤ len }
    ensures exact { result ≡ window_at len breaks.now before after start end }
    ensures from { result.begin ≤ start }
    ensures upto { end ≤ result.end }
    ensures inside { result.end ≤ len }
    ensures few { (result.line ≤ len) × (result.line_count ≤ len) }
{
    let row = row_at(breaks, start);
    let last = end_of_window(len, breaks, after, end);
    Window {
        begin: begin_of_window(len, breaks, before, start, row),
        end: last,
        line: row.saturating_sub(before),
        column: column_of_window(len, breaks, before, start, row),
        line_count: row_at(breaks, last),
    }
}
