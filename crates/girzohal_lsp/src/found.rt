// The findings that a log has for an open file.
ghost use Rattle.std.specs.Prelude.{◌≡◌, ◌<◌, ℕ, List, All, IfOk, length, map};
ghost use Rattle.std.specs.Prelude.{string_bytes};
ghost use Rattle.std.specs.List.{filter_map, flat_map};
ghost use Rattle.found_reports.specs.Kept.{file_view, report_view};
ghost use Rattle.found_reports.specs.Listed.{held_in};
ghost use Rattle.lsp_server.specs.Seen.{StandIn};
ghost use Rattle.sarif_log.specs.Log.{log_view};
ghost use Rattle.source_store.specs.Named.{path_in as path_meant};
ghost use Rattle.source_store.specs.declared.named.Spelling.TheVariants.{Uri};
ghost use Rattle.girzohal_lsp.specs.Blocks.{block_parts, is_one_named as is_one_named_by, picked_in};
ghost use Rattle.girzohal_lsp.specs.Found.{AreFitted, AreShown, IsPicked, ShowsAt, ShowsLines};
ghost use Rattle.girzohal_lsp.specs.Found.{ShowsLog, columns_of as columns_meant};
ghost use Rattle.girzohal_lsp.specs.Found.{pick, tool_name as name_of};
ghost use Rattle.girzohal_lsp.specs.Kept.{IsKept, KeepsLines, KeepsParts};
ghost use Rattle.girzohal_lsp.specs.declared.log.LogFile.TheVariants.{Sarif};

use crate::block::Block;
use crate::kept::KeptLog;
use crate::log::LogFile;
use crate::words::Asked;
use found_reports::{FoundFile, FoundReport, FoundReports, Lack, stand_in};
use indexed_sources::IndexedSources;
use line_reports::reports_of;
use line_shapes::tables::Unit;
use line_shapes::tools::{Columns, columns_of_tool};
use lsp_server::push_some;
use oxc_protocol::{Diagnostic, OxcDiagnostic};
use sarif::{ColumnKind, Log};
use source_store::{
    Fetched, Spelling, Store, gather, gather_indexed, is_named, means_file, path_in,
};
use std::alloc::{AllocError, Global};

/// The findings of a log in a file with this URI and text. A finding whose labels don't all fit the
/// text is given without labels.
///
/// # Errors
///
/// Out of memory.
pub fn found_in(
    alloc: Global,
    kept: &KeptLog<'_>,
    uri: &str,
    text: &str,
) -> Result<Vec<OxcDiagnostic>, AllocError>
    requires { IsKept kept.now }
    ensures shown { IfOk result (λ shown. ShowsAt kept.now.asked kept.now.log.now
        (path_meant Uri uri.now) text.now shown.items) }
    ensures stand { IfOk result (λ shown. All (StandIn text.now) shown.items) }
{
    let Some(path) = path_in(alloc, Spelling::Uri, uri)? else {
        return Ok(Vec::new(alloc));
    };
    let path = path.as_str();
    match kept.log {
        LogFile::Sarif(log) => found_in_log(alloc, kept, log, path, text),
        LogFile::Lines(_) => {
            let shown = found_in_lines(alloc, kept, path, text)?;
            Ok(shown)
        }
        LogFile::Fault(_) => Ok(Vec::new(alloc)),
    }
}

/// Of a log none of whose names means the file no report is made. The options' unit counts if such
/// logs can have it.
fn found_in_log(
    alloc: Global,
    kept: &KeptLog<'_>,
    log: &Log,
    path: &str,
    text: &str,
) -> Result<Vec<OxcDiagnostic>, AllocError>
    ensures shown { IfOk result (λ shown. KeepsParts kept.now.asked (Sarif log.now)
        (map string_bytes kept.now.names.now) (map string_bytes kept.now.paths.now)
        (map block_parts kept.now.blocks.now)
        → ShowsLog kept.now.asked (log_view log.now) path.now text.now shown.items) }
    ensures stand { IfOk result (λ shown. All (StandIn text.now) shown.items) }
{
    if !is_one_named(path, kept.paths) {
        return Ok(Vec::new(alloc));
    }
    let file = OpenFile { path, text };
    let sources = gather(alloc, &file, Spelling::Uri, kept.names)?;
    let columns = match kept.asked.columns {
        Some(Unit::Characters) => Some(ColumnKind::Characters),
        Some(Unit::Utf16) => Some(ColumnKind::Utf16),
        Some(Unit::Bytes | Unit::Cells) | None => None,
    };
    let found = sarif::reports_of(alloc, log, &sources, columns)?;
    let shown = shown_of(alloc, Spelling::Uri, &found, path, text)?;
    Ok(shown)
}

/// Whether one of these paths is that of the file, or an end of it.
fn is_one_named(path: &str, paths: &[String]) -> bool
    ensures { result ≡ is_one_named_by path.now (map string_bytes paths.now) }
{
    let mut rest = paths;
    while let [it, more @ ..] = rest {
        if is_named(path.as_bytes(), it.as_bytes()) {
            return true;
        }
        rest = more;
    }
    false
}

fn found_in_lines(
    alloc: Global,
    kept: &KeptLog<'_>,
    path: &str,
    text: &str,
) -> Result<Vec<OxcDiagnostic>, AllocError>
    ensures shown { (bytes : List ℕ) → IfOk result (λ shown. KeepsLines (name_of kept.now.asked.tool)
        bytes (map string_bytes kept.now.names.now) (map block_parts kept.now.blocks.now)
        → ShowsLines kept.now.asked bytes path.now text.now shown.items) }
    ensures stand { IfOk result (λ shown. All (StandIn text.now) shown.items) }
{
    let file = OpenFile { path, text };
    let sources = gather_indexed(alloc, &file, Spelling::Path, kept.names)?;
    let shown = found_in_blocks(
        alloc,
        kept.blocks,
        &sources,
        columns_of(kept.asked),
        path,
        text,
    )?;
    Ok(shown)
}

/// The findings of blocks in the file, one block after another.
fn found_in_blocks(
    alloc: Global,
    blocks: &[Block<'_>],
    sources: &IndexedSources,
    columns: Columns,
    path: &str,
    text: &str,
) -> Result<Vec<OxcDiagnostic>, AllocError>
    ensures { IfOk result (λ shown. AreFitted text.now (flat_map
        (λ block. picked_in path.now columns (held_in sources.now.entries.items)
        (block_parts block)) blocks.now) shown.items) }
{
    let mut shown = Vec::new(alloc);
    for block in blocks {
        let mut found = found_in_block(alloc, block, sources, columns, path, text)?;
        shown.append(&mut found)?;
    }
    Ok(shown)
}

/// The findings of a block in the file. If none of its names means the file no report is made.
fn found_in_block(
    alloc: Global,
    block: &Block<'_>,
    sources: &IndexedSources,
    columns: Columns,
    path: &str,
    text: &str,
) -> Result<Vec<OxcDiagnostic>, AllocError>
    ensures { IfOk result (λ shown. AreFitted text.now
        (picked_in path.now columns (held_in sources.now.entries.items) (block_parts block.now))
        shown.items) }
{
    if !is_one_named(path, &block.paths) {
        return Ok(Vec::new(alloc));
    }
    let found = reports_of(alloc, block.lines, block.reads, sources, columns)?;
    let shown = shown_of(alloc, Spelling::Path, &found, path, text)?;
    Ok(shown)
}

/// The name of the tool; empty if none is named.
pub(crate) fn tool_name(asked: Asked<'_>) -> &str
    ensures { result.now ≡ name_of asked.entry.tool }
{
    match asked.tool {
        Some(tool) => tool,
        None => "",
    }
}

/// How columns count: as the options say, else as the tool does, else characters from 1.
fn columns_of(asked: Asked<'_>) -> Columns
    ensures { result ≡ columns_meant asked.entry }
{
    let usual = Columns {
        unit: Unit::Characters,
        first: 1,
        with_end: true,
    };
    let known = columns_of_tool(tool_name(asked)).unwrap_or(usual);
    Columns {
        unit: asked.columns.unwrap_or(known.unit),
        first: asked.first_column.unwrap_or(known.first),
        with_end: known.with_end,
    }
}

/// The one open file, as a store: each path that means it has its text.
#[derive(Drop)]
struct OpenFile<'a> {
    path: &'a str,
    text: &'a str,
}

impl<'a> Store for OpenFile<'a> {
    ghost use Rattle.girzohal_lsp.specs.Found.{told_open};

    ghost told = { λ file other. told_open file.path.now file.text.now other };

    fn fetch(&self, alloc: Global, path: &str) -> Fetched {
        if !is_named(self.path.as_bytes(), path.as_bytes()) {
            return Fetched::Lacking(Lack::Missing);
        }
        match String::from_str(alloc, self.text) {
            Ok(text) => Fetched::Text(text),
            Err(_) => Fetched::OutOfMemory,
        }
    }
}

/// The diagnostics of the reports on the file, each without labels if they don't fit the text.
fn shown_of(
    alloc: Global,
    spelling: Spelling,
    found: &FoundReports<'_>,
    path: &str,
    text: &str,
) -> Result<Vec<OxcDiagnostic>, AllocError>
    ensures shown { IfOk result (λ shown.
        AreShown spelling path.now text.now found.now.found shown.items) }
    ensures stand { IfOk result (λ shown. All (StandIn text.now) shown.items) }
{
    let files = found.files();
    let reports = found.reports();
    let shown = picked(alloc, spelling, files, reports, path, text)?;
    Ok(shown)
}

fn picked(
    alloc: Global,
    spelling: Spelling,
    files: &[FoundFile<'_>],
    reports: &[FoundReport],
    path: &str,
    text: &str,
) -> Result<Vec<OxcDiagnostic>, AllocError>
    requires { All (λ report. report.file < length files.now) reports.now }
    ensures shown { IfOk result (λ shown. AreFitted text.now
        (filter_map (λ report. pick spelling path.now
        (report_view (map file_view files.now) report)) reports.now) shown.items) }
    ensures stand { IfOk result (λ shown. All (StandIn text.now) shown.items) }
{
    let mut shown = Vec::new(alloc);
    for report in reports {
        let one = picked_one(alloc, spelling, files, report, path, text)?;
        push_some(&mut shown, one)?;
    }
    Ok(shown)
}

/// The diagnostic of a report, without its labels if they don't all fit the text; `None` if it is
/// on another file.
#[tactic(auto, unfolding(crate::specs::Found::pick))]
fn picked_one(
    alloc: Global,
    spelling: Spelling,
    files: &[FoundFile<'_>],
    report: &FoundReport,
    path: &str,
    text: &str,
) -> Result<Option<OxcDiagnostic>, AllocError>
    requires { report.now.file < length files.now }
    ensures { IfOk result (IsPicked text.now
        (pick spelling path.now (report_view (map file_view files.now) report.now))) }
{
    let file = &files[report.file];
    if !means_file(alloc, spelling, path, file.name.as_str())? {
        return Ok(None);
    }
    let copy = report.diagnostic.try_clone(alloc)?;
    if stand_in(&Ok(text), copy.labels()) {
        return Ok(Some(copy));
    }
    let bare = copy.with_labels(alloc, Vec::new(alloc))?;
    Ok(Some(bare))
}
