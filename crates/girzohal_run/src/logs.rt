// The output for a SARIF log.
ghost use Rattle.std.specs.Prelude.{◌≡◌, IfErr, IfOk, string_bytes};
ghost use Rattle.sarif_log.specs.Answer.{answer_to, log as log_is};
ghost use Rattle.sarif_log.specs.Log.{log_view};
ghost use Rattle.girzohal_run.specs.Logs.{IsNoLog, NamesPlace, ReadsLog, log_columns as columns_of};
ghost use Rattle.girzohal_run.specs.Logs.{no_log_line};
ghost use Rattle.girzohal_run.specs.Made.{HasCause, Says, Writes};

use crate::fault::Fault;
use crate::filtering::write_left;
use crate::making::Written;
use bytecount::count;
use girzohal_options::Asked;
use harmless::{Kind, harmless};
use line_shapes::tables::Unit;
use sarif::{ColumnKind, Log, LogError, names_of, read_log, reports_of};
use source_store::{Spelling, Store, gather};
use std::alloc::Global;

/// The output for a log, after `before`.
pub(crate) fn write_log<S: Store>(
    alloc: Global,
    asked: &Asked,
    before: &[u8],
    part: &[u8],
    store: &S,
) -> Result<Written, Fault>
    ensures written { IfOk result (λ it. Writes
        (ReadsLog (S.told store.now) (columns_of asked.now.columns) part.now) asked.now
        (string_bytes it.text) (string_bytes it.line) it.reached) }
    ensures cause { IfErr result (HasCause IsNoLog part.now) }
{
    let log = log_of(alloc, before, part)?;
    let names = names_of(alloc, &log)?;
    let sources = gather(alloc, store, Spelling::Uri, &names)?;
    let found = reports_of(alloc, &log, &sources, log_columns(asked.columns))?;
    write_left(alloc, asked, found, false)
}

/// The log that a text is, after `before`.
pub(crate) fn log_of(alloc: Global, before: &[u8], part: &[u8]) -> Result<Log, Fault>
    ensures log { IfOk result (λ log. answer_to part.now ≡ log_is (log_view log)) }
    ensures cause { IfErr result (HasCause IsNoLog part.now) }
{
    match read_log(alloc, part) {
        Ok(log) => Ok(log),
        Err(LogError::OutOfMemory) => Err(Fault::OutOfMemory),
        Err(LogError::NoJson { line, column }) => {
            Err(no_json(alloc, count(before, b'\n').saturating_add(line), column))
        }
        Err(LogError::Fault { path, wanted }) => Err(no_log(alloc, path.as_str(), wanted)),
    }
}

/// The unit of a log's columns.
pub(crate) fn log_columns(unit: Option<Unit>) -> Option<ColumnKind>
    ensures { result ≡ columns_of unit }
{
    match unit {
        Some(Unit::Characters) => Some(ColumnKind::Characters),
        Some(Unit::Utf16) => Some(ColumnKind::Utf16),
        Some(Unit::Bytes | Unit::Cells) | None => None,
    }
}

/// Where the JSON parser stopped.
fn no_json(alloc: Global, line: usize, column: usize) -> Fault
    ensures { Says NamesPlace result }
{
    match format!(in alloc; "girzohal: line {line}, column {column}: input is no JSON\n") {
        Ok(line) => Fault::NoForm(line.into_bytes()),
        Err(_) => Fault::OutOfMemory,
    }
}

/// What was expected in a log, and where. A path has the log's own keys, so it is sanitized.
fn no_log(alloc: Global, path: &str, wanted: &str) -> Fault
    ensures { Says (λ said. said ≡ no_log_line path.now wanted.now) result }
{
    let Ok(path) = harmless(alloc, Kind::Name, path) else {
        return Fault::OutOfMemory;
    };
    match format!(in alloc; "girzohal: {path}: wanted {wanted}\n") {
        Ok(line) => Fault::NoForm(line.into_bytes()),
        Err(_) => Fault::OutOfMemory,
    }
}
