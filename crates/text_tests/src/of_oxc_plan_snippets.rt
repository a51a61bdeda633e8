// The plans of snippets by example, and that memory suffices for them.
ghost use Rattle.std.specs.Prelude.{◌≡◌, ◌<◌, ◌≤◌, ◌↔◌, All, IfOk, IfSome, IsTrue};
ghost use Rattle.std.specs.Prelude.{length, map};
ghost use Rattle.oxc_span.specs.Label.{label_end};
ghost use Rattle.oxc_plan.specs.Plan.{snippet_view, snippets_of};

use oxc_plan::{Bar, BarKind, Hang, MarkCells, RowPlan, SnippetPlan, TabWidth, plan_snippets};
use oxc_span::LabeledSpan;
use oxc_windows::SpanScanner;
use std::alloc::{AllocError, Global};

/// Whether no label ends after `len`.
fn all_within(labels: &[LabeledSpan], len: usize) -> bool
    ensures { IsTrue result ↔ All (λ label. label_end label ≤ len) labels.now }
{
    labels.iter().all(|label| label.span().end as usize <= len)
}

/// The snippets of labels of a text, if all labels end within it.
fn plans_of<'a>(
    alloc: Global,
    text: &'a str,
    labels: &[LabeledSpan],
) -> Result<Option<Vec<SnippetPlan<'a>>>, AllocError>
    requires { length text.now < 4294967295 }
    ensures { IfOk result (λ found. IfSome found (λ plans. map snippet_view plans.items
        ≡ snippets_of 4 text.now labels.now)) }
{
    if !all_within(labels, text.len()) {
        return Ok(None);
    }
    let mut scanner = SpanScanner::new(alloc, text.as_bytes(), 1, 1);
    let plans = plan_snippets(alloc, &mut scanner, labels, TabWidth::default())?;
    Ok(Some(plans))
}

/// A label that is given: its text, if it has one, where it starts, and its length.
type Given = (Option<&'static str>, u8, u8);

/// A label as it is given.
fn label(alloc: Global, given: &Given) -> Result<LabeledSpan, AllocError> {
    let (text, start, len) = *given;
    let text = match text {
        Some(text) => Some(String::from_str(alloc, text)?),
        None => None,
    };
    Ok(LabeledSpan::new(text, u32::from(start), u32::from(len)))
}

/// Labels as they are given.
fn labels_of(alloc: Global, given: &[Given]) -> Result<Vec<LabeledSpan>, AllocError> {
    let mut labels = Vec::new(alloc);
    for one in given {
        labels.push(label(alloc, one)?)?;
    }
    Ok(labels)
}

/// The snippets of labels of a short source, if all labels end within it.
fn planned<'a>(
    alloc: Global,
    source: &'a str,
    given: &[Given],
) -> Result<Option<Vec<SnippetPlan<'a>>>, AllocError> {
    let labels = labels_of(alloc, given)?;
    if source.len() > 100 {
        return Ok(None);
    }
    plans_of(alloc, source, labels.as_slice())
}

/// Whether one bar is beside a row, and nothing below it but these texts at the ends of bars.
fn has_bar(row: &RowPlan<'_>, kind: BarKind, ends: &[usize]) -> bool {
    row.bars.as_slice() == [Bar { label: 0, kind }].as_slice()
        && row.ends.as_slice() == ends
        && row.marks.is_empty()
        && row.hangs.is_empty()
}

fn has_head(plan: &SnippetPlan<'_>, line: usize, column: usize, gutter: usize) -> bool {
    plan.head_line == line && plan.head_column == column && plan.gutter == gutter
}

/// Whether a label starts in the first of three rows and ends in the third.
fn has_three_bars(rows: &[RowPlan<'_>]) -> bool {
    match rows {
        [first, second, third] => {
            has_bar(first, BarKind::Starts, &[])
                && has_bar(second, BarKind::Passes, &[])
                && has_bar(third, BarKind::Ends, &[0])
                && third.row.number == 3
        }
        _ => false,
    }
}

fn is_block(plans: &[SnippetPlan<'_>]) -> bool {
    match plans {
        [plan] => has_head(plan, 1, 3, 1) && has_three_bars(plan.rows.as_slice()),
        _ => false,
    }
}

/// Whether a label over three rows has its bars.
fn block_is_planned(alloc: Global) -> bool {
    match planned(alloc, "a {\n  b\n}\n", &[(Some("block"), 2, 7)]) {
        Ok(Some(plans)) => is_block(plans.as_slice()),
        _ => false,
    }
}

#[test]
fn a_label_over_rows_has_a_bar_beside_each(rt: HostRuntime) {
    assert!(rt; block_is_planned(rt.alloc()));
}

/// A source of one row, its labels, and their marks.
type Marked = (&'static str, &'static [Given], &'static [MarkCells]);

/// Whether there is one snippet of one row, with these marks.
fn has_marks(plans: &[SnippetPlan<'_>], marks: &[MarkCells]) -> bool {
    match plans {
        [plan] => match plan.rows.as_slice() {
            [row] => row.marks.as_slice() == marks,
            _ => false,
        },
        _ => false,
    }
}

fn is_marked(alloc: Global, example: &Marked) -> bool {
    match planned(alloc, example.0, example.1) {
        Ok(Some(plans)) => has_marks(plans.as_slice(), example.2),
        _ => false,
    }
}

/// Whether there is one snippet of `rows` rows, and these texts hang below its first row.
fn hang_below(plans: &[SnippetPlan<'_>], rows: usize, hangs: &[Hang]) -> bool {
    match plans {
        [plan] => plan.rows.len() == rows && rows > 0 && plan.rows[0].hangs.as_slice() == hangs,
        _ => false,
    }
}

const WITH_TEXTS: Marked = (
    "abcdef",
    &[(Some("A"), 0, 4), (Some("B"), 2, 4)],
    &[
        MarkCells {
            label: 0,
            start: 0,
            end: 4,
            bar: 2,
        },
        MarkCells {
            label: 1,
            start: 4,
            end: 6,
            bar: 5,
        },
    ],
);

/// Whether each text hangs at its own label.
fn texts_hang(alloc: Global) -> bool {
    match planned(alloc, WITH_TEXTS.0, WITH_TEXTS.1) {
        Ok(Some(plans)) => hang_below(
            plans.as_slice(),
            1,
            &[Hang { label: 0, at: 0 }, Hang { label: 1, at: 1 }],
        ),
        _ => false,
    }
}

#[test]
fn labels_within_a_row_have_marks_and_texts(rt: HostRuntime) {
    assert!(rt; is_marked(rt.alloc(), &WITH_TEXTS) && texts_hang(rt.alloc()));
}

const SIDE_BY_SIDE: [Marked; 2] = [
    (
        "abcdef",
        &[(None, 0, 4), (None, 2, 4)],
        &[
            MarkCells {
                label: 0,
                start: 0,
                end: 4,
                bar: 2,
            },
            MarkCells {
                label: 1,
                start: 4,
                end: 6,
                bar: 5,
            },
        ],
    ),
    (
        "\u{65e5}\u{672c} x",
        &[(None, 3, 3), (None, 7, 1)],
        &[
            MarkCells {
                label: 0,
                start: 2,
                end: 4,
                bar: 3,
            },
            MarkCells {
                label: 1,
                start: 5,
                end: 6,
                bar: 5,
            },
        ],
    ),
];

#[test]
fn marks_stand_side_by_side_under_what_is_drawn(rt: HostRuntime) {
    for example in &SIDE_BY_SIDE {
        assert!(rt; is_marked(rt.alloc(), example), "{}", example.0);
    }
}

const PAST_A_TAB: Marked = (
    "é\txyz",
    &[(None, 5, 1)],
    &[MarkCells {
        label: 0,
        start: 6,
        end: 7,
        bar: 6,
    }],
);

#[test]
fn a_mark_stands_past_a_tab(rt: HostRuntime) {
    assert!(rt; is_marked(rt.alloc(), &PAST_A_TAB));
}

/// Two labels that share a text and a span, and then a primary one.
fn two_and_a_primary(alloc: Global) -> Result<Vec<LabeledSpan>, AllocError> {
    let mut labels = labels_of(alloc, &[(Some("x"), 0, 1), (Some("x"), 0, 1)])?;
    labels.push(LabeledSpan::primary_at(None, 3, 1))?;
    Ok(labels)
}

/// Whether the head is at the primary label, and both texts hang at the first label.
fn hang_together(plans: &[SnippetPlan<'_>]) -> bool {
    match plans {
        [plan] => {
            has_head(plan, 2, 1, 0)
                && hang_below(
                    plans,
                    2,
                    &[Hang { label: 0, at: 0 }, Hang { label: 1, at: 0 }],
                )
        }
        _ => false,
    }
}

fn has_its_head(alloc: Global) -> bool {
    let Ok(labels) = two_and_a_primary(alloc) else {
        return false;
    };
    match plans_of(alloc, "a\r\nb", labels.as_slice()) {
        Ok(Some(plans)) => hang_together(plans.as_slice()),
        _ => false,
    }
}

#[test]
fn a_head_is_at_the_first_primary_label_and_equal_texts_hang_together(rt: HostRuntime) {
    assert!(rt; has_its_head(rt.alloc()));
}
