// The label order, the groups and the rows by example, and that memory suffices for them.
ghost use Rattle.std.specs.Prelude.{◌≡◌, ◌<◌, ◌≤◌, ◌↔◌, IfOk, IfSome, IsNone, length, map};
ghost use Rattle.oxc_plan.specs.Groups.{window_round};
ghost use Rattle.oxc_plan.specs.Rows.{row_view, rows_in};

use oxc_plan::{Row, groups, label_order, rows_of};
use oxc_span::{LabeledSpan, Span};
use oxc_windows::SpanScanner;
use std::alloc::{AllocError, Global};
use std::ops::Range;

const TEN_ROWS: &[u8] = b"a\nb\nc\nd\ne\nf\ng\nh\ni\nj\n";

const THIRTY_ROWS: &[u8] =
    b"a\na\na\na\na\na\na\na\na\na\na\na\na\na\na\na\na\na\na\na\na\na\na\na\na\na\na\na\na\na\n";

// Whether three labels, of which two start together, go in this order.
fn go_so(alloc: Global, wanted: &[usize]) -> bool {
    let labels = [
        LabeledSpan::new(None, 5, 0),
        LabeledSpan::new(None, 2, 4),
        LabeledSpan::new(None, 5, 1),
    ];
    match label_order(alloc, &labels) {
        Ok(order) => order.as_slice() == wanted,
        Err(_) => false,
    }
}

#[test]
fn labels_go_by_start_and_then_as_given(rt: HostRuntime) {
    assert!(rt; go_so(rt.alloc(), &[1, 0, 2]));
}

/// The groups of two labels of one byte each.
fn groups_of_two(
    alloc: Global,
    source: &[u8],
    first: u32,
    second: u32,
) -> Result<Vec<Range<usize>>, AllocError>
    requires short { length source.now < 4294967295 }
    requires first { first < length source.now }
    requires second { second < length source.now }
{
    let labels = [
        LabeledSpan::new(None, first, 1),
        LabeledSpan::new(None, second, 1),
    ];
    let mut scanner = SpanScanner::new(alloc, source, 1, 1);
    groups(alloc, &mut scanner, &labels)
}

// A source, where two labels of one byte start, and their groups.
type Reach = (&'static [u8], u32, u32, &'static [Range<usize>]);

// The line count goes from the source's first row, so late windows reach far: rows 10 and 20 of the
// thirty are joined.
const REACHES: [Reach; 3] = [
    (TEN_ROWS, 0, 6, &[0..2]),
    (TEN_ROWS, 0, 8, &[0..1, 1..2]),
    (THIRTY_ROWS, 18, 38, &[0..2]),
];

// Whether two labels have these groups.
fn is_grouped(alloc: Global, row: &Reach) -> bool {
    let (source, first, second, wanted) = *row;
    if source.len() > 100 || first as usize >= source.len() || second as usize >= source.len() {
        return false;
    }
    match groups_of_two(alloc, source, first, second) {
        Ok(groups) => groups.as_slice() == wanted,
        Err(_) => false,
    }
}

#[test]
fn labels_within_reach_share_a_snippet(rt: HostRuntime) {
    for row in &REACHES {
        assert!(rt; is_grouped(rt.alloc(), row), "{}", row.2);
    }
}

/// The rows that are drawn of a span of a text, if the span ends within it.
fn rows_round<'a>(
    alloc: Global,
    text: &'a str,
    span: Span,
) -> Result<Option<Vec<Row<'a>>>, AllocError>
    requires short { length text.now < 4294967295 }
    requires ordered { span.start ≤ span.end }
    ensures none { IfOk result (λ found. IsNone found ↔ (length text.now < span.end)) }
    ensures rows { IfOk result (λ found. IfSome found (λ rows. map row_view rows.items
        ≡ rows_in text.now (window_round text.now span))) }
{
    let mut scanner = SpanScanner::new(alloc, text.as_bytes(), 1, 1);
    match scanner.read_span(span)? {
        Some(contents) => Ok(Some(rows_of(alloc, &contents)?)),
        None => Ok(None),
    }
}

fn is_row(row: &Row<'_>, number: usize, offset: usize, length: usize, text: &str) -> bool {
    row.number == number && row.offset == offset && row.length == length && row.text == text
}

// Whether the stray CR is within the first of two rows.
fn stands_within(rows: &[Row<'_>]) -> bool {
    match rows {
        [first, second] => is_row(first, 1, 0, 4, "a\rb") && is_row(second, 2, 4, 1, "c"),
        _ => false,
    }
}

fn has_two_rows(alloc: Global) -> bool {
    match rows_round(alloc, "a\rb\nc", Span::new(2, 3)) {
        Ok(Some(rows)) => stands_within(rows.as_slice()),
        _ => false,
    }
}

#[test]
fn a_stray_cr_ends_no_drawn_row(rt: HostRuntime) {
    assert!(rt; has_two_rows(rt.alloc()));
}
