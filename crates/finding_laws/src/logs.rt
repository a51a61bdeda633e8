// SARIF logs that are written and read back: the log that `specs/Logs/Meant.antt` defines, and the
// same reports.
ghost use Rattle.std.specs.Prelude.{◌≡◌, ◌<◌, ◌≤◌, All, IfOk, length, map, string_bytes};
ghost use Rattle.std.specs.Str.{IsCharBoundary};
ghost use Rattle.codespan.specs.Texts.{file_at};
ghost use Rattle.serde_json.specs.Written.{compact_text};
ghost use Rattle.render_files.specs.Causes.{IsJudged};
ghost use Rattle.render_files.specs.Given.{given_report};
ghost use Rattle.render_files.specs.Refusal.{refusal_of};
ghost use Rattle.sarif_log.specs.Answer.{answer_to, log as log_is};
ghost use Rattle.sarif_writing.specs.Written.{log_value};
ghost use Rattle.finding_laws.specs.Logs.Back.{ReadsBack};
ghost use Rattle.finding_laws.specs.Logs.Meant.{IsSource, log_meant};
ghost use Rattle.finding_laws.specs.Logs.Reports.{ComeBack};

use codespan::{FileId, Files};
use render_files::{FileReport, ReportError};
use sarif_writing::write_log;
use std::alloc::Global;

/// The text of the log of one run that these files and reports are, as [`write_log`] writes it.
/// `sarif_log::read_log` reads it as this log, and `sarif::reports_of` gives these reports of it,
/// as `specs/Logs/Reports.antt` defines.
///
/// # Errors
///
/// Those of [`write_log`].
pub fn written_log(
    alloc: Global,
    tool: &str,
    files: &Files<String>,
    reports: &[FileReport],
) -> Result<String, ReportError>
    ensures text { IfOk result (λ text. string_bytes text
        ≡ compact_text (log_value tool.now files.now (map given_report reports.now))) }
    ensures read { IfOk result (λ text. answer_to (string_bytes text)
        ≡ log_is (log_meant tool.now files.now (map given_report reports.now))) }
    ensures reports { IfOk result (λ text. ComeBack (string_bytes text)
        tool.now files.now (map given_report reports.now)) }
    ensures cause { IsJudged (refusal_of files.now (map given_report reports.now)) result }
{
    look_at(files);
    let text = write_log(alloc, tool, files, reports)?;
    Ok(text)
}

/// The region between two boundaries of a text, in rows and columns as the log has them, is read
/// as the bytes between them; but 0 before a byte order mark is read as 3, and an end inside a
/// CRLF as the CRLF's beginning.
pub fn region_is_read_back(_text: &str, _start: usize, _end: usize)
    requires start { IsCharBoundary _text.now _start }
    requires end { IsCharBoundary _text.now _end }
    requires order { _start ≤ _end }
    ensures { ReadsBack _text.now _start _end }
{}

/// Visits each text; each is UTF-8 and has no rows or columns past 32 bits.
#[tactic(auto, using(crate::proofs::LogLemmas::Small::no_sources))]
fn look_at(files: &Files<String>)
    ensures sources { All IsSource files.now }
    ensures few { length files.now ≤ 4294967295 }
{
    for index in 0..files.len() {
        let Some(file) = FileId::from_index(index as u32) else {
            unreachable!();
        };
        look_at_text(files, file);
    }
}

fn look_at_text(files: &Files<String>, file: FileId)
    requires { file < length files.now }
    ensures { IsSource (file_at files.now file) }
{
    let _text = files.source(file).as_str();
}
