//! Many windows of one index, and of one scanner.
ghost use Rattle.std.specs.Prelude.{◌≡◌, ℕ, ◌≤◌, None, All, OnOk, IfOk, length, map};
ghost use Rattle.oxc_windows.specs.Window.{window_of};
ghost use Rattle.oxc_windows.specs.Kept.{first_after};
ghost use Rattle.oxc_windows.specs.Index.{IsIndexOf, index_view};
ghost use Rattle.oxc_windows.specs.Scan.{IsSameReader, contents_read};
ghost use Rattle.oxc_windows.specs.Total.{IsNotBefore, IsSpent, TicksAtMost, first_of, windows_of};

use crate::{BreakSource, SpanContents, SpanScanner, Steps, Window, WindowIndex};
use oxc_span::Span;
use std::alloc::{AllocError, Global};
use std::sync::ledger::Ledger;

/// One window, and what remains of the steps.
fn read_next<L: Ledger, S: BreakSource<L>>(
    index: &mut WindowIndex,
    source: &S,
    span: Span,
    steps: &mut Steps<L>,
) -> Result<Option<Window>, AllocError>
    requires index { IsIndexOf (S.size source.now) (S.breaks source.now) index.old }
    requires ordered { span.start ≤ span.end }
    ensures index { IsIndexOf (S.size source.now) (S.breaks source.now) index.new }
    ensures before { index.new.before ≡ index.old.before }
    ensures after { index.new.after ≡ index.old.after }
    ensures value { IfOk result (λ w. w ≡ window_of (S.size source.now) (S.breaks source.now)
        index.old.before index.old.after span.start span.end) }
    ensures first { OnOk result (index.new.first
        ≡ first_after (S.size source.now) index.old.first span.start span.end) }
    ensures spent { (base : ℕ) → IsNotBefore (S.size source.now) index.old.first span
        → IsSpent (S.size source.now) base index.old.first (index_view index.old).left steps.old
        → OnOk result (IsSpent (S.size source.now) base
        index.new.first (index_view index.new).left steps.new) }
{
    let window = index.read(source, span, steps)?;
    Ok(window)
}

/// The windows of spans in any order, by an index that has read nothing. No span's start is after
/// its end.
///
/// If no span that has a window starts before the first such span, all reads together look at no
/// more bytes than the source has, plus those before that span, plus two.
///
/// # Errors
///
/// Out of memory.
pub fn read_all<L: Ledger, S: BreakSource<L>>(
    alloc: Global,
    index: &mut WindowIndex,
    source: &S,
    spans: &[Span],
    steps: &mut Steps<L>,
) -> Result<Vec<Option<Window>>, AllocError>
    requires index { IsIndexOf (S.size source.now) (S.breaks source.now) index.old }
    requires first { (index_view index.old).first ≡ None }
    requires ordered { All (λ span. span.start ≤ span.end) spans.now }
    ensures index { IsIndexOf (S.size source.now) (S.breaks source.now) index.new }
    ensures value { IfOk result (λ found. found.items
        ≡ windows_of (S.size source.now) (S.breaks source.now)
        (index_view index.old).before (index_view index.old).after spans.now) }
    ensures total { All (IsNotBefore (S.size source.now) (first_of (S.size source.now) spans.now)) spans.now
        → OnOk result (TicksAtMost (S.size source.now) steps.old
        (first_of (S.size source.now) spans.now) steps.new) }
{
    let mut found = Vec::new(alloc);
    for i in 0..spans.len() {
        let window = read_next(index, source, spans[i], steps)?;
        found.push(window)?;
    }
    Ok(found)
}

/// The contents of one window, and what remains of the steps.
fn read_next_span<'a, L: Ledger>(
    scanner: &mut SpanScanner<'a>,
    span: Span,
    steps: &mut Steps<L>,
) -> Result<Option<SpanContents<'a>>, AllocError>
    requires { span.start ≤ span.end }
    ensures unchanged { IsSameReader scanner.old scanner.new }
    ensures value { IfOk result (λ contents. contents ≡ contents_read scanner.old span) }
    ensures first { OnOk result (scanner.new.first
        ≡ first_after (length scanner.old.input) scanner.old.first span.start span.end) }
    ensures spent { (base : ℕ) → IsNotBefore (length scanner.old.input) scanner.old.first span
        → IsSpent (length scanner.old.input) base scanner.old.first scanner.old.left steps.old
        → OnOk result (IsSpent (length scanner.old.input) base
        scanner.new.first scanner.new.left steps.new) }
{
    let contents = scanner.read_span_counted(span, steps)?;
    Ok(contents)
}

/// The contents of the windows of spans in any order, by a scanner that has read nothing. No span's
/// start is after its end.
///
/// If no span that has a window starts before the first such span, all reads together look at no
/// more bytes than the source has, plus those before that span, plus two.
///
/// # Errors
///
/// Out of memory.
pub fn read_spans<'a, L: Ledger>(
    alloc: Global,
    scanner: &mut SpanScanner<'a>,
    spans: &[Span],
    steps: &mut Steps<L>,
) -> Result<Vec<Option<SpanContents<'a>>>, AllocError>
    requires first { scanner.old.first ≡ None }
    requires ordered { All (λ span. span.start ≤ span.end) spans.now }
    ensures unchanged { IsSameReader scanner.old scanner.new }
    ensures value { IfOk result (λ found. found.items ≡ map (contents_read scanner.old) spans.now) }
    ensures total { All (IsNotBefore (length scanner.old.input)
        (first_of (length scanner.old.input) spans.now)) spans.now
        → OnOk result (TicksAtMost (length scanner.old.input) steps.old
        (first_of (length scanner.old.input) spans.now) steps.new) }
{
    let mut found = Vec::new(alloc);
    for i in 0..spans.len() {
        let contents = read_next_span(scanner, spans[i], steps)?;
        found.push(contents)?;
    }
    Ok(found)
}
