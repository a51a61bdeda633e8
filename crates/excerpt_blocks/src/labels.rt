//! Labels: the marks of a block with the texts that are theirs.
ghost use Rattle.std.specs.Prelude.{◌≡◌, ◌++◌, ◌∷◌, [], ◌+◌, ◌-◌, ◌<◌, ◌^◌, IfOk, OnOk, drop};
ghost use Rattle.std.specs.Prelude.{length, take};
ghost use Rattle.std.specs.List.{list_any};
ghost use Rattle.excerpt_blocks.specs.Below.{is_of as is_of_mark, state_of};
ghost use Rattle.excerpt_blocks.specs.declared.labels.Phase.TheVariants.{First};
ghost use Rattle.excerpt_blocks.specs.Labels.{begins as begins_there, begun_from};
ghost use Rattle.excerpt_blocks.specs.Labels.{covers_two as covers_both};
ghost use Rattle.excerpt_blocks.specs.Labels.{are_joined as are_runs_joined, is_elsewhere};
ghost use Rattle.excerpt_blocks.specs.Labels.{is_first_mark, is_plain as is_plain_run};
ghost use Rattle.excerpt_blocks.specs.Labels.{next_marks, next_texts};
ghost use Rattle.excerpt_blocks.specs.Labels.{extended as extended_by, has_many as has_many_in};
ghost use Rattle.excerpt_blocks.specs.Labels.{is_hung as is_hung_text, is_least as is_least_in};
ghost use Rattle.excerpt_blocks.specs.Labels.{is_new as is_new_in};
ghost use Rattle.excerpt_blocks.specs.Labels.{is_primary as is_primary_in, label_at, labels_in};
ghost use Rattle.excerpt_blocks.specs.Labels.{labels_from};
ghost use Rattle.excerpt_blocks.specs.Labels.{overlaid_from};
ghost use Rattle.excerpt_blocks.specs.Labels.{row_labels, run_labels, runs_from, says as says_so};
ghost use Rattle.excerpt_blocks.specs.Labels.{shifted as shifted_by};

use crate::below::{Below, Mark, Row, Text, is_of, is_same, tail};
use excerpt_lines::tables::CharClass;
use std::alloc::{AllocError, Global};

/// Where a finding is, as its head says: a row and a column, from 1.
#[derive(Clone, Copy)]
pub struct Spot {
    pub line: Option<u32>,
    pub column: Option<u32>,
}

/// A mark with what it says of its row.
#[derive(Clone, Copy)]
pub struct Label {
    /// The row's place among the block's rows.
    pub row: usize,
    /// The mark's place among the block's marks.
    pub mark: usize,
    /// The row in which it begins: the same, or that where a span of rows begins.
    pub start_row: usize,
    /// The character of that row's text at which it begins, and that of its own row's at which it ends,
    /// from 0.
    pub start: usize,
    pub end: usize,
    /// It marks what was found, not what belongs to it.
    pub primary: bool,
    /// Where texts hang from several cells of a mark, the cell of those of this label.
    pub hung: Option<usize>,
    /// The texts beside the mark are of this label.
    pub beside: bool,
}

/// A mark below a row, with its place among the block's marks.
#[derive(Clone, Copy)]
pub struct Run {
    mark: Mark,
    number: usize,
    /// It has a text.
    said: bool,
    /// It begins where the finding is.
    begins: bool,
}

/// Which of three runs comes next that may be one run with another drawn over it.
#[derive(Clone, Copy)]
enum Phase {
    First,
    Over,
    Covered,
}

/// Whether a text is a label's.
pub fn says(label: &Label, text: &Text) -> bool
    ensures { result ≡ says_so label.now text.now }
{
    if !is_of(text, label.mark) {
        return false;
    }
    match label.hung {
        Some(cell) => {
            if text.beside {
                label.beside
            } else {
                text.cell == cell
            }
        }
        None => true,
    }
}

/// The labels of a block, row by row.
///
/// # Errors
///
/// Out of memory.
#[tactic(auto, unfolding(crate::specs::Labels::labels_in))]
pub fn labels_of(alloc: Global, below: &Below, spot: Spot) -> Result<Vec<Label>, AllocError>
    ensures { IfOk result (λ labels. labels.items ≡ labels_in spot (state_of below.now)) }
{
    let strong = has_first(&below.marks);
    let mut labels = Vec::new(alloc);
    for (k, row) in below.rows.iter().enumerate() {
        let rest = tail(&below.rows, k + 1);
        let marks = part(&below.marks, row.marks, marks_end(rest, below));
        let texts = part(&below.texts, row.texts, texts_end(rest, below));
        push_row(alloc, &mut labels, strong, spot, *row, marks, texts)?;
    }
    Ok(labels)
}

/// How many marks come before the next row's.
fn marks_end(rest: &[Row], below: &Below) -> usize
    ensures { result ≡ next_marks rest.now (length below.now.marks.items) }
{
    match rest {
        [row, ..] => row.marks,
        [] => below.marks.len(),
    }
}

/// How many texts come before the next row's.
fn texts_end(rest: &[Row], below: &Below) -> usize
    ensures { result ≡ next_texts rest.now (length below.now.texts.items) }
{
    match rest {
        [row, ..] => row.texts,
        [] => below.texts.len(),
    }
}

/// The elements between two places.
fn part<T>(items: &[T], from: usize, to: usize) -> &[T]
    ensures value { result.now ≡ take (to - from) (drop from items.now) }
    ensures short { from + length result.now < 2 ^ 64 }
{
    let rest = tail(items, from);
    let count = to.saturating_sub(from);
    if count < rest.len() {
        &rest[..count]
    } else {
        rest
    }
}

/// Adds the labels of a row.
#[tactic(auto, using(crate::proofs::LabelLemmas::few_stay), unfolding(crate::specs::Labels::row_labels))]
fn push_row(
    alloc: Global,
    labels: &mut Vec<Label>,
    strong: bool,
    spot: Spot,
    row: Row,
    marks: &[Mark],
    texts: &[Text],
) -> Result<(), AllocError>
    requires { row.marks + length marks.now < 2 ^ 64 }
    ensures { OnOk result (labels.new.items
        ≡ labels.old.items ++ row_labels strong spot row marks.now texts.now) }
{
    let runs = runs_of(alloc, spot, row, marks, texts)?;
    if runs.len() < 3 {
        return push_runs(labels, strong, runs.as_slice(), texts);
    }
    let runs = overlaid(alloc, runs.as_slice())?;
    push_runs(labels, strong, runs.as_slice(), texts)
}

/// Adds the labels of runs, each of `^` that goes on from one of `-` at the finding's place begun
/// there.
fn push_runs(
    labels: &mut Vec<Label>,
    strong: bool,
    runs: &[Run],
    texts: &[Text],
) -> Result<(), AllocError>
    ensures { OnOk result (labels.new.items
        ≡ labels.old.items ++ labels_from strong texts.now (begun_from None runs.now)) }
{
    let mut before = None;
    for run in runs {
        let run = shifted(before, *run);
        push_run(labels, strong, run, texts)?;
        before = Some(run);
    }
    Ok(())
}

/// The runs of a row.
fn runs_of(
    alloc: Global,
    spot: Spot,
    row: Row,
    marks: &[Mark],
    texts: &[Text],
) -> Result<Vec<Run>, AllocError>
    requires { row.marks + length marks.now < 2 ^ 64 }
    ensures { IfOk result (λ runs.
        runs.items ≡ runs_from spot row texts.now row.marks marks.now) }
{
    let mut runs = Vec::new(alloc);
    let mut number = row.marks;
    for mark in marks {
        let run = Run {
            mark: *mark,
            number,
            said: is_said(texts, number),
            begins: begins(spot, row, *mark),
        };
        push_one(&mut runs, run)?;
        number += 1;
    }
    Ok(runs)
}

/// Whether one of the texts is a mark's.
fn is_said(texts: &[Text], mark: usize) -> bool
    ensures { result ≡ list_any (is_of_mark mark) texts.now }
{
    for text in texts {
        if is_of(text, mark) {
            return true;
        }
    }
    false
}

/// Whether a mark begins where the finding is.
fn begins(spot: Spot, row: Row, mark: Mark) -> bool
    ensures { result ≡ begins_there spot row mark }
{
    let Some(line) = spot.line else {
        return false;
    };
    let Some(column) = spot.column else {
        return false;
    };
    let Some(number) = row.number else {
        return false;
    };
    line == number && column > 0 && mark.start == column as usize - 1
}

/// The runs, with each that another is drawn over whole again.
fn overlaid(alloc: Global, runs: &[Run]) -> Result<Vec<Run>, AllocError>
    ensures { IfOk result (λ out. out.items ≡ overlaid_from First runs.now) }
{
    let mut out = Vec::new(alloc);
    let mut phase = Phase::First;
    for (k, run) in runs.iter().enumerate() {
        phase = overlay(&mut out, phase, *run, tail(runs, k + 1))?;
    }
    Ok(out)
}

/// Adds what a run is, with the rest after it. Gives what comes next.
fn overlay(out: &mut Vec<Run>, phase: Phase, run: Run, rest: &[Run]) -> Result<Phase, AllocError>
    ensures { IfOk result (λ next. out.new.items ++ overlaid_from next rest.now
        ≡ out.old.items ++ overlaid_from phase (run ∷ rest.now)) }
{
    match phase {
        Phase::First => {
            if covers_two(run, rest) {
                push_one(out, extended(run, rest))?;
                return Ok(Phase::Over);
            }
            push_one(out, run)?;
            Ok(Phase::First)
        }
        Phase::Over => {
            push_one(out, run)?;
            Ok(Phase::Covered)
        }
        Phase::Covered => Ok(Phase::First),
    }
}

/// Whether the next run is drawn over a run that goes on after it.
fn covers_two(run: Run, rest: &[Run]) -> bool
    ensures { result ≡ covers_both run rest.now }
{
    match rest {
        [over, covered, ..] => {
            are_joined(run, *over, *covered)
                && is_same(run.mark.class, covered.mark.class)
                && !is_same(run.mark.class, over.mark.class)
                && (run.said || run.begins)
                && !covered.said
        }
        _ => false,
    }
}

/// Whether three runs touch, and no span of rows ends at one of them.
fn are_joined(run: Run, over: Run, covered: Run) -> bool
    ensures { result ≡ are_runs_joined run over covered }
{
    is_plain(run)
        && is_plain(over)
        && is_plain(covered)
        && run.mark.end_cell == over.mark.cell
        && over.mark.end_cell == covered.mark.cell
}

/// Whether no span of rows ends at a run.
fn is_plain(run: Run) -> bool
    ensures { result ≡ is_plain_run run }
{
    run.mark.begun.is_none()
}

/// A run up to the end of the second one after it.
fn extended(run: Run, rest: &[Run]) -> Run
    ensures { result ≡ extended_by run rest.now }
{
    match rest {
        [_, covered, ..] => Run {
            mark: Mark {
                end: covered.mark.end,
                end_cell: covered.mark.end_cell,
                ..run.mark
            },
            ..run
        },
        _ => run,
    }
}

/// A run, begun where the one before it begins if it goes on from that.
fn shifted(before: Option<Run>, run: Run) -> Run
    ensures { result ≡ shifted_by before run }
{
    let Some(first) = before else {
        return run;
    };
    if is_plain(first)
        && is_plain(run)
        && first.mark.end_cell == run.mark.cell
        && first.begins
        && matches!(first.mark.class, CharClass::Dash)
        && run.mark.first
        && matches!(run.mark.class, CharClass::Caret)
    {
        Run {
            mark: Mark {
                start: first.mark.start,
                cell: first.mark.cell,
                ..run.mark
            },
            ..run
        }
    } else {
        run
    }
}

/// Adds the labels of a run: one, or one for each cell at which texts hang from it.
#[tactic(auto, unfolding(crate::specs::Labels::run_labels))]
fn push_run(
    labels: &mut Vec<Label>,
    strong: bool,
    run: Run,
    texts: &[Text],
) -> Result<(), AllocError>
    ensures { OnOk result (labels.new.items ≡ labels.old.items ++ run_labels strong run texts.now) }
{
    if !has_many(run, texts) {
        return push_label(labels, label_of(strong, run, run.mark.start, None, true));
    }
    for (k, text) in texts.iter().enumerate() {
        if is_new(run, part(texts, 0, k), *text) {
            let least = is_least(run, texts, *text);
            let start = if least { run.mark.start } else { text.column };
            push_label(labels, label_of(strong, run, start, Some(text.cell), least))?;
        }
    }
    Ok(())
}

/// A label of a run.
fn label_of(strong: bool, run: Run, start: usize, hung: Option<usize>, beside: bool) -> Label
    ensures { result ≡ label_at strong run start hung beside }
{
    let (start_row, start) = match run.mark.begun {
        Some(begun) => (begun.row, begun.column),
        None => (run.mark.row, start),
    };
    Label {
        row: run.mark.row,
        mark: run.number,
        start_row,
        start,
        end: run.mark.end,
        primary: is_primary(strong, run.mark),
        hung,
        beside,
    }
}

/// Whether a mark marks what was found; `~` does so if nothing else does.
fn is_primary(strong: bool, mark: Mark) -> bool
    ensures { result ≡ is_primary_in strong mark }
{
    mark.first || !strong && matches!(mark.class, CharClass::Caret)
}

/// Whether a text hangs from a run.
fn is_hung(run: Run, text: &Text) -> bool
    ensures { result ≡ is_hung_text run text.now }
{
    is_of(text, run.number) && !text.beside
}

/// Whether texts hang from several cells of a run.
fn has_many(run: Run, texts: &[Text]) -> bool
    ensures { result ≡ has_many_in run texts.now }
{
    for text in texts {
        if is_hung(run, text) {
            return hangs_elsewhere(run, texts, text.cell);
        }
    }
    false
}

/// Whether a text hangs from another cell of a run.
fn hangs_elsewhere(run: Run, texts: &[Text], cell: usize) -> bool
    ensures { result ≡ list_any (is_elsewhere run cell) texts.now }
{
    for text in texts {
        if is_hung(run, text) && text.cell != cell {
            return true;
        }
    }
    false
}

/// Whether a text is the first that hangs from its cell of a run.
fn is_new(run: Run, earlier: &[Text], text: Text) -> bool
    ensures { result ≡ is_new_in run earlier.now text }
{
    if !is_hung(run, &text) {
        return false;
    }
    for other in earlier {
        if is_hung(run, other) && other.cell == text.cell {
            return false;
        }
    }
    true
}

/// Whether no text hangs from a cell of a run left of this one's.
fn is_least(run: Run, texts: &[Text], text: Text) -> bool
    ensures { result ≡ is_least_in run texts.now text }
{
    for other in texts {
        if is_hung(run, other) && other.cell < text.cell {
            return false;
        }
    }
    true
}

/// Whether one of the marks marks what was found.
fn has_first(marks: &[Mark]) -> bool
    ensures { result ≡ list_any is_first_mark marks.now }
{
    for mark in marks {
        if mark.first {
            return true;
        }
    }
    false
}

fn push_one(runs: &mut Vec<Run>, run: Run) -> Result<(), AllocError>
    ensures { OnOk result (runs.new.items ≡ runs.old.items ++ run ∷ []) }
{
    runs.push(run)?;
    Ok(())
}

fn push_label(labels: &mut Vec<Label>, label: Label) -> Result<(), AllocError>
    ensures { OnOk result (labels.new.items ≡ labels.old.items ++ label ∷ []) }
{
    labels.push(label)?;
    Ok(())
}
