//! How a run is read: its names, rows and columns.
ghost use Rattle.std.specs.Prelude.{◌≡◌, filter, map, string_bytes, unwrap_or, option_map, []};
ghost use Rattle.std.specs.Prelude.{IfOk};
ghost use Rattle.sarif_log.specs.Log.{run_view};
ghost use Rattle.sarif.specs.Reading.{breaks_of as breaks_meant, is_some_text};
ghost use Rattle.sarif.specs.Reading.{reading_of as reading_meant};
ghost use Rattle.sarif.specs.Views.{lent_texts, reading_view};

use crate::contents::Contents;
use sarif_log::{ColumnKind, Run};
use std::alloc::{AllocError, Global};

/// How a run is read.
#[derive(Drop)]
pub(crate) struct Reading<'s> {
    /// What its names mean, and the contents that the log has.
    pub(crate) contents: Contents<'s>,
    /// What its columns count.
    pub(crate) columns: ColumnKind,
    /// What ends its rows.
    pub(crate) breaks: Vec<&'s str>,
    /// The name of its tool.
    pub(crate) scope: Option<&'s str>,
}

/// How a run is read. The caller may say what columns count.
#[tactic(auto, unfolding(crate::specs::Reading::reading_of, crate::proofs::Opened::run))]
pub(crate) fn reading_of<'s>(
    alloc: Global,
    columns: Option<ColumnKind>,
    run: &'s Run,
) -> Result<Reading<'s>, AllocError>
    ensures { IfOk result (λ it. reading_view it ≡ reading_meant columns (run_view run.now)) }
{
    Ok(Reading {
        contents: Contents::new(alloc, &run.names)?,
        columns: columns
            .or(run.counting.columns)
            .unwrap_or(ColumnKind::Characters),
        breaks: breaks_of(alloc, &run.counting.newline_sequences)?,
        scope: run.tool.driver.name.as_deref(),
    })
}

/// The line breaks that a run names, except empty ones; the usual ones if there are none.
#[tactic(auto, unfolding(crate::specs::Reading::breaks_of))]
fn breaks_of<'s>(alloc: Global, named: &'s Option<Vec<String>>) -> Result<Vec<&'s str>, AllocError>
    ensures { IfOk result (λ breaks. lent_texts breaks.items ≡ breaks_meant
        (option_map (λ list. map string_bytes list.items) named.now)) }
{
    let mut breaks = match named {
        Some(named) => some_texts(alloc, named)?,
        None => Vec::new(alloc),
    };
    if breaks.is_empty() {
        breaks.push("\r\n")?;
        breaks.push("\n")?;
        breaks.push("\r")?;
    }
    Ok(breaks)
}

/// The texts that aren't empty.
fn some_texts<'s>(alloc: Global, texts: &'s [String]) -> Result<Vec<&'s str>, AllocError>
    ensures { IfOk result (λ some. lent_texts some.items
        ≡ filter is_some_text (map string_bytes texts.now)) }
{
    let mut some = Vec::new(alloc);
    for text in texts {
        if !text.is_empty() {
            some.push(text.as_str())?;
        }
    }
    Ok(some)
}
