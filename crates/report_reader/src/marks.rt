//! The marks of a line, and the texts that hang below it.
ghost use Rattle.std.specs.Prelude.{◌≡◌, ◌+◌, ◌<◌, ◌^◌, ◌++◌, IfOk, OnOk, None, drop, is_some, map};
ghost use Rattle.std.specs.Prelude.{option_map};
ghost use Rattle.std.specs.Option.{option_to_list};
ghost use Rattle.report_reader.specs.Seen.{mark_model};
ghost use Rattle.report_reader.specs.Reading.{first_text, grown, hangs_behind, mark_by, marks_in};
ghost use Rattle.report_reader.specs.Reading.{runs_from};

use crate::seen::SeenMark;
use crate::texts::split_first;
use std::alloc::{AllocError, Global};

/// Adjacent cells that aren't spaces.
#[derive(Clone, Copy)]
pub(crate) struct Run {
    pub(crate) start: usize,
    pub(crate) end: usize,
    pub(crate) has_bar: bool,
}

fn grown_by(begun: Option<Run>, at: usize, cell: u8) -> Run
    requires { at + 1 < 2 ^ 64 }
    ensures { result ≡ grown begun at cell }
{
    match begun {
        None => Run {
            start: at,
            end: at + 1,
            has_bar: cell == b'|',
        },
        Some(run) => Run {
            start: run.start,
            end: at + 1,
            has_bar: run.has_bar || cell == b'|',
        },
    }
}

fn push_begun(runs: &mut Vec<Run>, begun: Option<Run>) -> Result<(), AllocError>
    ensures { OnOk result (runs.new.items ≡ runs.old.items ++ option_to_list begun) }
{
    if let Some(run) = begun {
        runs.push(run)?;
    }
    Ok(())
}

/// The runs of a line.
fn runs_of(alloc: Global, cells: &[u8]) -> Result<Vec<Run>, AllocError>
    ensures { IfOk result (λ runs. runs.items ≡ runs_from 0 None cells.now) }
{
    let mut runs = Vec::new(alloc);
    let mut begun = None;
    for at in 0..cells.len() {
        let cell = cells[at];
        if cell == b' ' {
            push_begun(&mut runs, begun)?;
            begun = None;
        } else {
            begun = Some(grown_by(begun, at, cell));
        }
    }
    push_begun(&mut runs, begun)?;
    Ok(runs)
}

/// The text of the hanging line at an index, if it hangs from the cell `bar`, and the index after
/// what was taken.
#[tactic(auto, using(crate::proofs::ReaderLemmas::drop_next))]
fn take_text<'a>(hangs: &[&'a str], index: usize, bar: usize) -> (Option<&'a str>, usize)
    ensures text { option_map (λ text. text.now) result.0
        ≡ first_text (map (λ line. line.now) (drop index hangs.now)) bar }
    ensures rest { map (λ line. line.now) (drop result.1 hangs.now)
        ≡ hangs_behind (is_some result.0) (map (λ line. line.now) (drop index hangs.now)) }
{
    if index < hangs.len() {
        let (front, back) = split_first(hangs[index], '`');
        if front.len() == bar {
            return (Some(split_first(back, ' ').1), index + 1);
        }
    }
    (None, index)
}

fn mark_of(alloc: Global, run: Run, text: Option<&str>) -> Result<SeenMark, AllocError>
    ensures { IfOk result (λ mark. mark_model mark
        ≡ mark_by run (option_map (λ text. text.now) text.entry)) }
{
    let arrow = text.is_some() && !run.has_bar;
    let text = match text {
        None => None,
        Some(text) => Some(String::from_str(alloc, text)?),
    };
    Ok(SeenMark {
        start: run.start,
        end: run.end,
        text,
        arrow,
    })
}

/// The marks of a line, with the lines that hang below it, the first mark's line first.
#[tactic(auto, unfolding(crate::specs::Reading::marks_in))]
pub(crate) fn marks_of(
    alloc: Global,
    line: &str,
    hangs: &[&str],
) -> Result<Vec<SeenMark>, AllocError>
    ensures { IfOk result (λ marks. map mark_model marks.items
        ≡ marks_in line.now (map (λ line. line.now) hangs.now)) }
{
    let runs = runs_of(alloc, line.as_bytes())?;
    let mut marks = Vec::new(alloc);
    let mut next = 0;
    for run in &runs {
        let bar = run.start + run.end.saturating_sub(run.start) / 2;
        let (text, rest) = take_text(hangs, next, bar);
        marks.push(mark_of(alloc, *run, text)?)?;
        next = rest;
    }
    Ok(marks)
}
