// Lines of ASCII, found without reading text.
ghost use Rattle.std.specs.Prelude.{◌≡◌, ◌+◌, ◌-◌, ◌^◌, ◌<◌, ◌≤◌, ℕ, List, length, IfSome, Some};
ghost use Rattle.std.specs.Str.{IsUtf8};
ghost use Rattle.text_places.specs.declared.encoding.Encoding.{Encoding};
ghost use Rattle.text_places.specs.Ends.{AreEnds, IsRowEnd};
ghost use Rattle.text_places.specs.Pages.{bytes_in, text_of, ArePages, TellsText};
ghost use Rattle.text_places.specs.Places.{IsOffsetOf, IsNearest};
ghost use Rattle.text_places.specs.Plain.{IsPlain, IsPlainLine};

use crate::Place;
use crate::page::Page;

/// How many pages around the guessed one are searched.
const NEAR: usize = 8;

/// A line of ASCII with a break of one byte: where it starts, and where its break begins.
#[derive(Clone, Copy)]
pub(crate) struct PlainLine {
    pub(crate) start: u32,
    pub(crate) limit: u32,
}

/// How many pages there are for each row, times 2^32.
pub(crate) fn share_of_rows(pages: &[Page]) -> u64 {
    match pages.last() {
        Some(last) if last.before.rows > 0 => {
            let before = (pages.len() as u64).wrapping_sub(1);
            before.wrapping_mul(1 << 32) / last.before.rows as u64
        }
        _ => 0,
    }
}

/// Whether a row ends in a page, by its number from 1.
#[inline(always)]
fn has_row(page: &Page, row: u32) -> bool {
    row.wrapping_sub(page.before.rows).wrapping_sub(1) < page.own.rows
}

/// The number of the page in which a row is looked for first: where it would be if all pages had as
/// many rows; if it isn't there, that number corrected once by the rows it is off. There may be no
/// such page.
#[inline(always)]
fn guessed(pages: &[Page], share: u64, row: u32) -> usize {
    let whole = (row as u64).wrapping_mul(share) >> 32;
    let number = whole as usize;
    if number >= pages.len() {
        return number;
    }
    let page = &pages[number];
    if has_row(page, row) {
        return number;
    }
    let rows = (row as u64).wrapping_sub(page.before.rows as u64);
    let parts = whole
        .wrapping_mul(1 << 32)
        .wrapping_add(rows.wrapping_mul(share));
    (parts >> 32) as usize
}

/// From a page back to one before which the row doesn't end, at most a few pages.
fn back_to_row(pages: &[Page], from: usize, row: u32) -> usize
    requires { from < length pages.now }
    ensures { result < length pages.now }
{
    let least = from.saturating_sub(NEAR);
    let mut at = from;
    while at > least && pages[at].before.rows >= row {
        at -= 1;
    }
    at
}

/// From a page on to one in which the row ends, at most a few pages.
fn on_to_row(pages: &[Page], from: usize, row: u32) -> usize
    requires { from < length pages.now }
    ensures { result < length pages.now }
{
    let most = from.saturating_add(NEAR).min(pages.len() - 1);
    let mut at = from;
    while at < most && pages[at + 1].before.rows < row {
        at += 1;
    }
    at
}

/// A page near the guessed one: the page in which the row ends, if that is near.
fn near_row(pages: &[Page], share: u64, row: u32) -> usize
    requires { 0 < length pages.now }
    ensures { result < length pages.now }
{
    let number = guessed(pages, share, row).min(pages.len() - 1);
    on_to_row(pages, back_to_row(pages, number, row), row)
}

/// The page with a number.
fn page_of(pages: &[Page], number: usize) -> &Page
    requires known { ArePages pages.now }
    requires within { number < length pages.now }
    ensures { TellsText (text_of pages.now) result.now }
{
    &pages[number]
}

/// The offset in the text after a row end of a page, by its number there from 1.
fn end_in(page: &Page, ends: &[u16], row: usize) -> u32
    requires fits { page.now.before.bytes + length (bytes_in page.now) < 2 ^ 32 - 1 }
    requires ends { AreEnds (bytes_in page.now) ends.now }
    requires some { 1 ≤ row }
    requires listed { row ≤ length ends.now }
    ensures behind { page.now.before.bytes < result }
    ensures end { IsRowEnd (bytes_in page.now) row (result - page.now.before.bytes) }
{
    page.before.bytes + ends[row - 1] as u32
}

/// The line after a row end of a page, if the line ends in that page too.
#[inline(always)]
fn line_within(page: &Page, ends: &[u16], row: usize) -> PlainLine
    requires fits { page.now.before.bytes + length (bytes_in page.now) < 2 ^ 32 - 1 }
    requires plain { IsPlain (bytes_in page.now) }
    requires ends { AreEnds (bytes_in page.now) ends.now }
    requires some { 1 ≤ row }
    requires listed { row < length ends.now }
    ensures { (text : List ℕ) → IsUtf8 text → TellsText text page.now
        → IsPlainLine text (page.now.before.rows + row) result }
{
    let start = end_in(page, ends, row);
    let end = end_in(page, ends, row + 1);
    PlainLine {
        start,
        limit: end - 1,
    }
}

/// The line after the last row end of a page, which ends in the next page.
fn line_across(page: &Page, ends: &[u16], next: &Page, first: &[u16]) -> PlainLine
    requires fits { page.now.before.bytes + length (bytes_in page.now) < 2 ^ 32 - 1 }
    requires plain { IsPlain (bytes_in page.now) }
    requires ends { AreEnds (bytes_in page.now) ends.now }
    requires some { 1 ≤ length ends.now }
    requires next_fits { next.now.before.bytes + length (bytes_in next.now) < 2 ^ 32 - 1 }
    requires next_plain { IsPlain (bytes_in next.now) }
    requires next_ends { AreEnds (bytes_in next.now) first.now }
    requires next_some { 1 ≤ length first.now }
    requires bytes { next.now.before.bytes ≡ page.now.before.bytes + length (bytes_in page.now) }
    requires rows { next.now.before.rows ≡ page.now.before.rows + length ends.now }
    ensures { (text : List ℕ) → IsUtf8 text → TellsText text page.now → TellsText text next.now
        → IsPlainLine text next.now.before.rows result }
{
    let start = end_in(page, ends, ends.len());
    let end = end_in(next, first, 1);
    PlainLine {
        start,
        limit: end - 1,
    }
}

/// The line after the last row end of a page, if it is the requested one and ends in the next page.
fn line_joined(
    page: &Page,
    ends: &[u16],
    next: &Page,
    first: &[u16],
    line: u32,
) -> Option<PlainLine>
    requires fits { page.now.before.bytes + length (bytes_in page.now) < 2 ^ 32 - 1 }
    requires plain { IsPlain (bytes_in page.now) }
    requires ends { AreEnds (bytes_in page.now) ends.now }
    requires next_fits { next.now.before.bytes + length (bytes_in next.now) < 2 ^ 32 - 1 }
    requires next_plain { IsPlain (bytes_in next.now) }
    requires next_ends { AreEnds (bytes_in next.now) first.now }
    ensures { (text : List ℕ) → IsUtf8 text → TellsText text page.now → TellsText text next.now
        → IfSome result (IsPlainLine text line) }
{
    let bytes = page.before.bytes as usize + page.text.as_str().len();
    let rows = page.before.rows as usize + ends.len();
    if !ends.is_empty()
        && !first.is_empty()
        && next.before.bytes as usize == bytes
        && next.before.rows as usize == rows
        && next.before.rows == line
    {
        Some(line_across(page, ends, next, first))
    } else {
        None
    }
}

/// The same, if the next page is ASCII too.
fn line_up_to(page: &Page, ends: &[u16], next: &Page, line: u32) -> Option<PlainLine>
    requires fits { page.now.before.bytes + length (bytes_in page.now) < 2 ^ 32 - 1 }
    requires plain { IsPlain (bytes_in page.now) }
    requires ends { AreEnds (bytes_in page.now) ends.now }
    requires next_fits { next.now.before.bytes + length (bytes_in next.now) < 2 ^ 32 - 1 }
    ensures { (text : List ℕ) → IsUtf8 text → TellsText text page.now → TellsText text next.now
        → IfSome result (IsPlainLine text line) }
{
    match next.text.plain_ends() {
        Some(first) => line_joined(page, ends, next, first, line),
        None => None,
    }
}

/// A line that starts after the last row end of a page of ASCII and ends in the next page.
fn line_to_next(pages: &[Page], number: usize, line: u32) -> Option<PlainLine>
    requires known { ArePages pages.now }
    requires within { number < length pages.now }
    ensures { IfSome result (IsPlainLine (text_of pages.now) line) }
{
    if number + 1 >= pages.len() {
        return None;
    }
    let page = page_of(pages, number);
    let next = page_of(pages, number + 1);
    match page.text.plain_ends() {
        Some(ends) => line_up_to(page, ends, next, line),
        None => None,
    }
}

/// A line that starts and ends in a page of ASCII.
#[inline(always)]
fn line_listed(page: &Page, ends: &[u16], line: u32) -> Option<PlainLine>
    requires fits { page.now.before.bytes + length (bytes_in page.now) < 2 ^ 32 - 1 }
    requires plain { IsPlain (bytes_in page.now) }
    requires ends { AreEnds (bytes_in page.now) ends.now }
    ensures { (text : List ℕ) → IsUtf8 text → TellsText text page.now
        → IfSome result (IsPlainLine text line) }
{
    if line <= page.before.rows {
        return None;
    }
    let row = (line - page.before.rows) as usize;
    if row < ends.len() {
        Some(line_within(page, ends, row))
    } else {
        None
    }
}

/// A line that starts and ends in a page, if the page is ASCII.
#[inline(always)]
fn line_from(pages: &[Page], number: usize, line: u32) -> Option<PlainLine>
    requires known { ArePages pages.now }
    requires within { number < length pages.now }
    ensures { IfSome result (IsPlainLine (text_of pages.now) line) }
{
    let page = page_of(pages, number);
    match page.text.plain_ends() {
        Some(ends) => line_listed(page, ends, line),
        None => None,
    }
}

/// A line, if it is ASCII and lies in the guessed page.
#[inline(always)]
pub(crate) fn plain_line(pages: &[Page], share: u64, line: u32) -> Option<PlainLine>
    requires { ArePages pages.now }
    ensures { IfSome result (IsPlainLine (text_of pages.now) line) }
{
    let number = guessed(pages, share, line);
    if number < pages.len() {
        line_from(pages, number, line)
    } else {
        None
    }
}

/// A line, if it is ASCII and starts near the guessed page.
pub(crate) fn plain_line_near(pages: &[Page], share: u64, line: u32) -> Option<PlainLine>
    requires { ArePages pages.now }
    ensures { IfSome result (IsPlainLine (text_of pages.now) line) }
{
    let number = near_row(pages, share, line);
    match line_from(pages, number, line) {
        Some(found) => Some(found),
        None => line_to_next(pages, number, line),
    }
}

/// The boundary nearest to a position in such a line, in any encoding.
#[inline(always)]
pub(crate) fn nearest_in_plain(line: PlainLine, place: Place) -> u32
    requires { line.start ≤ line.limit }
    ensures { (encoding : Encoding) (text : List ℕ) → IsUtf8 text
        → IsPlainLine text place.line line → IsNearest encoding text place result }
{
    line.start + place.unit.min(line.limit - line.start)
}

/// The boundary with a position in such a line, in any encoding.
#[inline(always)]
pub(crate) fn offset_in_plain(line: PlainLine, place: Place) -> Option<u32>
    requires { line.start ≤ line.limit }
    ensures { (encoding : Encoding) (text : List ℕ) → IsUtf8 text
        → IsPlainLine text place.line line → IsOffsetOf encoding text place result }
{
    if place.unit <= line.limit - line.start {
        Some(line.start + place.unit)
    } else {
        None
    }
}
