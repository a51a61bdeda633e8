// Reads a log.
ghost use Rattle.std.specs.Prelude.{IfOk, string_bytes};
ghost use Rattle.std.specs.Option.{option_copied};
ghost use Rattle.input_forms.specs.Begun.{behind_mark};
ghost use Rattle.girzohal_lsp.specs.Kept.{IsLogOf};
ghost use Rattle.girzohal_lsp.specs.Logs.{IsRead, IsSarif, NamesPlace};

use crate::words::{Asked, Form};
use bytecount::count;
use input_forms::{Begun, begins_as, without_mark};
use sarif::{Log, LogError, log_in, read_log};
use std::alloc::{AllocError, Global};

/// The bytes of a log's file; none if it can't be read.
#[derive(Drop)]
pub struct LogBytes {
    /// The bytes.
    pub bytes: Option<Vec<u8>>,
}

/// A log.
#[derive(Drop)]
pub enum LogFile<'b> {
    /// A SARIF log.
    Sarif(Log),
    /// What a tool printed for people.
    Lines(&'b [u8]),
    /// Why there is no log.
    Fault(String),
}

/// The log in the bytes of its file.
///
/// # Errors
///
/// Out of memory.
pub fn log_of<'b>(
    alloc: Global,
    asked: Asked<'_>,
    bytes: Option<&'b [u8]>,
) -> Result<LogFile<'b>, AllocError>
    ensures { IfOk result (IsLogOf asked.entry (option_copied bytes.entry)) }
{
    match bytes {
        Some(bytes) => read_bytes(alloc, asked.from, bytes),
        None => {
            let text = String::from_str(alloc, "it can't be read")?;
            Ok(LogFile::Fault(text))
        }
    }
}

/// Reads the bytes of a log in a format. One byte order mark before them is skipped.
///
/// # Errors
///
/// Out of memory.
pub fn read_bytes(alloc: Global, form: Form, bytes: &[u8]) -> Result<LogFile<'_>, AllocError>
    ensures { IfOk result (IsRead form bytes.now) }
{
    match form {
        Form::Lines => Ok(LogFile::Lines(without_mark(bytes))),
        Form::Sarif => sarif_in(alloc, without_mark(bytes)),
        Form::Auto => match begins_as(bytes) {
            Begun::Object => sarif_in(alloc, without_mark(bytes)),
            Begun::OtherJson => {
                let why = "JSON of no known form; SARIF logs and lines are read";
                Ok(LogFile::Fault(String::from_str(alloc, why)?))
            }
            Begun::Xml => {
                let why = "XML; SARIF logs and lines are read";
                Ok(LogFile::Fault(String::from_str(alloc, why)?))
            }
            Begun::Lines => Ok(LogFile::Lines(without_mark(bytes))),
        },
    }
}

/// The SARIF log in the bytes, or why there is none.
fn sarif_in<'b>(alloc: Global, bytes: &[u8]) -> Result<LogFile<'b>, AllocError>
    ensures { IfOk result (IsSarif bytes.now) }
{
    let Some(range) = log_in(bytes) else {
        let text = String::from_str(alloc, "no SARIF log")?;
        return Ok(LogFile::Fault(text));
    };
    match read_log(alloc, &bytes[range.start..range.end]) {
        Ok(log) => Ok(LogFile::Sarif(log)),
        Err(LogError::OutOfMemory) => Err(AllocError),
        Err(LogError::NoJson { line, column }) => {
            let line = count(&bytes[..range.start], b'\n').saturating_add(line);
            let text = no_json(alloc, line, column)?;
            Ok(LogFile::Fault(text))
        }
        Err(LogError::Fault { path, wanted }) => {
            let path = path.as_str();
            let text = format!(in alloc; "{path}: wanted {wanted}")?;
            Ok(LogFile::Fault(text))
        }
    }
}

/// The message with the place where reading as JSON stopped.
fn no_json(alloc: Global, line: usize, column: usize) -> Result<String, AllocError>
    ensures { IfOk result (λ why. NamesPlace (string_bytes why)) }
{
    let why = format!(in alloc; "no JSON at {line}:{column}")?;
    Ok(why)
}
