// Windows by example, and that memory suffices for them.
ghost use Rattle.std.specs.Prelude.{◌≡◌, ◌+◌, ◌<◌, ◌≤◌, length, IfOk, OnOk};
ghost use Rattle.std.specs.Option.{SomeIff};
ghost use Rattle.oxc_windows.specs.Breaks.{breaks_of};
ghost use Rattle.oxc_windows.specs.Rows.{row_of, byte_column};
ghost use Rattle.oxc_windows.specs.Scan.{IsSameReader};

use crate::plain_reader::plain_window;
use oxc_span::Span;
use oxc_windows::{
    OwnLedger, Page, SliceSource, SpanContents, SpanScanner, Steps, Window, WindowIndex, read_all,
    read_spans,
};
use std::alloc::{AllocError, Global};
use std::marker::Brand;
use std::sync::ledger::{Blank, Ledger};

/// A span, what its contents are to be (begin, end, line, column, line count), and their bytes.
type Read = ((u32, u32), (u32, u32, usize, usize, usize), &'static [u8]);

fn is_read(contents: &SpanContents<'_>, read: &Read) -> bool {
    let span = contents.span();
    let (begin, end, line, column, line_count) = read.1;
    span.start == begin
        && span.end == end
        && contents.line() == line
        && contents.column() == column
        && contents.line_count() == line_count
        && contents.bytes() == read.2
}

// Whether a span is read as it is to be.
fn reads(scanner: &mut SpanScanner<'_>, read: &Read) -> Result<bool, AllocError> {
    let (start, end) = read.0;
    if end < start {
        return Ok(false);
    }
    match scanner.read_span(Span::new(start, end)) {
        Ok(Some(contents)) => Ok(is_read(&contents, read)),
        Ok(None) => Ok(false),
        Err(error) => Err(error),
    }
}

const FOUR_ROWS: &[u8] = b"a\nb\nc\nd\n";

// Two spans of the four rows.
const EARLY: Read = ((0, 1), (0, 4, 0, 0, 2), b"a\nb\n");

const LATE: Read = ((6, 7), (4, 8, 2, 0, 4), b"c\nd\n");

// Whether the late span is read, then the early one, and none past the source.
fn reads_the_late_one_first(alloc: Global) -> bool {
    let mut scanner = SpanScanner::new(alloc, FOUR_ROWS, 1, 1);
    scanner.is_for(FOUR_ROWS)
        && !scanner.is_for(b"a\nb\nc\nd")
        && reads(&mut scanner, &LATE) == Ok(true)
        && reads(&mut scanner, &EARLY) == Ok(true)
        && matches!(scanner.read_span(Span::new(8, 9)), Ok(None))
}

// Whether the early span is read, then the late one.
fn reads_the_early_one_first(alloc: Global) -> bool {
    let mut scanner = SpanScanner::new(alloc, FOUR_ROWS, 1, 1);
    reads(&mut scanner, &EARLY) == Ok(true)
        && reads(&mut scanner, &LATE) == Ok(true)
        && scanner.kept().starts_with(&[0, 2, 4, 6])
}

#[test]
fn windows_do_not_depend_on_the_order_of_reads(rt: HostRuntime) {
    assert!(rt; reads_the_late_one_first(rt.alloc()) && reads_the_early_one_first(rt.alloc()));
}

// A source, its rows of context before and after, and a span whose last byte lies in a break: one
// row further with rows of context, past the LF of its CRLF without.
const LAST_BYTES: [(&[u8], usize, usize, Read); 3] = [
    (FOUR_ROWS, 1, 1, ((0, 2), (0, 6, 0, 0, 3), b"a\nb\nc\n")),
    (b"a\nb\nc", 0, 1, ((1, 2), (1, 5, 0, 1, 2), b"\nb\nc")),
    (b"ab\r\ncd", 0, 0, ((3, 3), (3, 4, 0, 2, 1), b"\n")),
];

fn reads_further(alloc: Global, row: &(&[u8], usize, usize, Read)) -> bool {
    if row.0.len() > 100 {
        return false;
    }
    let mut scanner = SpanScanner::new(alloc, row.0, row.1, row.2);
    reads(&mut scanner, &row.3) == Ok(true)
}

#[test]
fn a_last_byte_in_a_break_moves_the_end(rt: HostRuntime) {
    for row in &LAST_BYTES {
        assert!(rt; reads_further(rt.alloc(), row), "{}", row.3.0.0);
    }
}

// Whether a span is read as it is to be, by a second read where the first found no memory.
fn reads_at_last(scanner: &mut SpanScanner<'_>, read: &Read) -> bool {
    match reads(scanner, read) {
        Ok(is_so) => is_so,
        Err(_) => reads(scanner, read) == Ok(true),
    }
}

// `tools/tries/refuse-allocations.sh` runs this with each of its allocations refused in turn.
#[test]
fn a_scanner_reads_on_after_want_of_memory(rt: HostRuntime) {
    let mut scanner = SpanScanner::new(rt.alloc(), FOUR_ROWS, 1, 1);
    assert!(rt;
        reads_at_last(&mut scanner, &LATE)
            && reads_at_last(&mut scanner, &EARLY)
            && reads_at_last(&mut scanner, &LATE)
    );
}

/// The row and the byte column of a span's start, from 0, where the span ends within the source.
fn place(scanner: &mut SpanScanner<'_>, span: Span) -> Result<Option<(usize, usize)>, AllocError>
    requires bare { scanner.old.before ≡ 0 }
    requires ordered { span.start ≤ span.end }
    ensures place { IfOk result (λ found. SomeIff found (span.end ≤ length scanner.old.input) (
      row_of (breaks_of scanner.old.input) span.start,
      byte_column (length scanner.old.input) (breaks_of scanner.old.input) span.start,
    )) }
    ensures unchanged { IsSameReader scanner.old scanner.new }
{
    match scanner.read_span(span)? {
        Some(contents) => Ok(Some((contents.line(), contents.column()))),
        None => Ok(None),
    }
}

// Whether a span has its place, and one past the source has none.
fn has_a_place(alloc: Global) -> bool {
    let mut scanner = SpanScanner::new(alloc, b"ab\r\ncd", 0, 0);
    place(&mut scanner, Span::new(3, 3)) == Ok(Some((0, 2)))
        && place(&mut scanner, Span::new(7, 7)) == Ok(None)
}

#[test]
fn without_context_the_numbers_are_a_place(rt: HostRuntime) {
    assert!(rt; has_a_place(rt.alloc()));
}

// Whether bytes are no text from the same byte on, asked twice.
fn bytes_are_no_text(alloc: Global) -> bool {
    let mut bytes = SpanScanner::new(alloc, b"a\xffb", 1, 1);
    bytes.text() == Err(1) && bytes.text() == Err(1)
}

// Whether a text is one, asked twice, and a known one is.
fn texts_are_texts(alloc: Global) -> bool {
    let mut text = SpanScanner::new(alloc, b"a\nb", 1, 1);
    let mut known = SpanScanner::of_text(alloc, "\u{e9}", 1, 1);
    text.text() == Ok("a\nb") && text.text() == Ok("a\nb") && known.text() == Ok("\u{e9}")
}

#[test]
fn a_source_is_a_text_or_is_one_so_far(rt: HostRuntime) {
    assert!(rt; bytes_are_no_text(rt.alloc()) && texts_are_texts(rt.alloc()));
}

// Whether contents have the numbers of a window.
fn is_window(contents: &SpanContents<'_>, window: &Window) -> bool {
    let span = contents.span();
    span.start as usize == window.begin
        && span.end as usize == window.end
        && contents.line() == window.line
        && contents.column() == window.column
        && contents.line_count() == window.line_count
}

// Whether a scanner gives a window of the plain reader, or none as that does.
fn is_same(
    found: Result<Option<SpanContents<'_>>, AllocError>,
    want: Result<Option<Window>, AllocError>,
) -> bool {
    match (found, want) {
        (Ok(Some(contents)), Ok(Some(window))) => is_window(&contents, &window),
        (Ok(None), Ok(None)) => true,
        _ => false,
    }
}

// Whether a scanner gives the windows of the plain reader for all spans with this start, past the
// source's end too.
fn agrees_at(
    alloc: Global,
    scanner: &mut SpanScanner<'_>,
    bytes: &[u8],
    before: usize,
    after: usize,
    start: u32,
) -> bool
    requires short { length bytes.now < 1000 }
    requires start { start < 1000 }
{
    let past = bytes.len() as u32 + 2;
    for end in start..past {
        let span = Span::new(start, end);
        let want = plain_window(alloc, bytes, before, after, span);
        if !is_same(scanner.read_span(span), want) {
            return false;
        }
    }
    true
}

// The same for all spans, after a first one.
fn agrees_after(alloc: Global, bytes: &[u8], before: usize, after: usize, first: u32) -> bool
    requires { length bytes.now < 1000 }
{
    let mut scanner = SpanScanner::new(alloc, bytes, before, after);
    if !matches!(scanner.read_span(Span::new(first, first)), Ok(Some(_))) {
        return false;
    }
    let past = bytes.len() as u32 + 1;
    for start in 0..past {
        if !agrees_at(alloc, &mut scanner, bytes, before, after, start) {
            return false;
        }
    }
    true
}

const ALL_BREAKS: &[u8] = b"a\r\n\nb\rc\r\r\n\n\rd";

// The same after each of four first spans.
fn agrees(alloc: Global, before: usize, after: usize) -> bool {
    agrees_after(alloc, ALL_BREAKS, before, after, 0)
        && agrees_after(alloc, ALL_BREAKS, before, after, 2)
        && agrees_after(alloc, ALL_BREAKS, before, after, 7)
        && agrees_after(alloc, ALL_BREAKS, before, after, 13)
}

#[test]
fn all_windows_are_those_of_the_plain_reader(rt: HostRuntime) {
    for before in 0..3 {
        for after in 0..3 {
            assert!(rt; agrees(rt.alloc(), before, after), "{before}");
        }
    }
    assert!(rt; agrees_after(rt.alloc(), FOUR_ROWS, 1, usize::MAX, 4));
}

// Four spans of one index, in any order: at most ten steps, where memory serves.
fn four_reads<L: Ledger>(
    alloc: Global,
    steps: &mut Steps<L>,
) -> Result<Vec<Option<Window>>, AllocError>
    ensures { OnOk result (steps.new ≤ steps.old + 10) }
{
    let source = SliceSource::new(FOUR_ROWS);
    let spans = [
        Span::new(0, 1),
        Span::new(4, 5),
        Span::new(2, 3),
        Span::new(6, 7),
    ];
    let mut index = WindowIndex::new(alloc, 1, 1);
    let found = read_all(alloc, &mut index, &source, &spans, steps)?;
    Ok(found)
}

// Whether two spans of one scanner, read together, both have contents.
fn both_are_read<L: Ledger>(alloc: Global, steps: &mut Steps<L>) -> bool {
    let mut scanner = SpanScanner::new(alloc, FOUR_ROWS, 1, 1);
    let spans = [Span::new(0, 1), Span::new(6, 7)];
    match read_spans(alloc, &mut scanner, &spans, steps) {
        Ok(found) => matches!(found.as_slice(), [Some(_), Some(_)]),
        Err(_) => false,
    }
}

// Two spans of one scanner: at most ten steps, where memory serves.
fn two_reads<L: Ledger>(alloc: Global, steps: &mut Steps<L>) -> Result<(), AllocError>
    ensures { OnOk result (steps.new ≤ steps.old + 10) }
{
    let mut scanner = SpanScanner::new(alloc, FOUR_ROWS, 1, 1);
    scanner.read_span_counted(Span::new(0, 1), steps)?;
    scanner.read_span_counted(Span::new(6, 7), steps)?;
    Ok(())
}

fn counted<P: Page>(alloc: Global, blank: Blank) -> Result<Vec<Option<Window>>, AllocError>
    requires named { blank.name ≡ P.number }
    requires cut { blank.parts ≡ P.pieces }
    requires some { 0 < blank.parts }
{
    let mut steps = Steps::new(OwnLedger::<P>::new(blank));
    two_reads(alloc, &mut steps)?;
    if !both_are_read(alloc, &mut steps) {
        return Ok(Vec::new(alloc));
    }
    four_reads(alloc, &mut steps)
}

// Where a window ends, and its line.
fn ends_at(window: &Option<Window>, end: usize, line: usize) -> bool {
    match window {
        Some(window) => window.end == end && window.line == line,
        None => false,
    }
}

// Whether these are the windows of the four spans.
fn are_found(found: &[Option<Window>]) -> bool {
    match found {
        [first, second, third, fourth] => {
            ends_at(first, 4, 0)
                && ends_at(second, 8, 1)
                && ends_at(third, 6, 0)
                && ends_at(fourth, 8, 2)
        }
        _ => false,
    }
}

#[test]
fn many_reads_look_at_each_byte_once(rt: HostRuntime) {
    let all_found = match counted::<Brand>(rt.alloc(), Blank::new(1)) {
        Ok(found) => are_found(found.as_slice()),
        Err(_) => false,
    };
    assert!(rt; all_found);
}

// Whether a scanner keeps no row at first, and two once it has read the first one.
fn keeps_two(scanner: &mut SpanScanner<'_>) -> bool {
    scanner.kept().is_empty()
        && scanner.read_span(Span::new(0, 1)).is_ok()
        && scanner.kept().starts_with(&[0, 2])
}

// Whether it keeps all four once it has read them, in any order.
fn keeps_four(scanner: &mut SpanScanner<'_>) -> bool {
    scanner.read_span(Span::new(4, 5)).is_ok()
        && scanner.read_span(Span::new(2, 3)).is_ok()
        && scanner.read_span(Span::new(6, 7)).is_ok()
        && scanner.kept().starts_with(&[0, 2, 4, 6])
}

#[test]
fn a_scanner_keeps_the_rows_that_it_found(rt: HostRuntime) {
    let mut scanner = SpanScanner::new(rt.alloc(), FOUR_ROWS, 1, 1);
    assert!(rt; keeps_two(&mut scanner) && keeps_four(&mut scanner));
}
