// The formats, and texts sent to sinks.
ghost use Rattle.std.specs.Prelude.{◌≡◌, ◌≤◌, IfOk, IsErrOf, OnErr, OnOk, map, string_bytes};
ghost use Rattle.std.specs.Io.KnownBytes.{Appends};
ghost use Rattle.oxc_protocol.specs.Faults.{Rose};
ghost use Rattle.oxc_protocol.specs.Sink.{AppendsPrefix};
ghost use Rattle.ci_formats.specs.Finding.{finding_parts};
ghost use Rattle.ci_formats.specs.Format.{text_in as text_of_format};

use crate::annotation::github_text;
use crate::checkstyle::checkstyle_text;
use crate::finding::Finding;
use crate::gitlab::gitlab_text;
use crate::junit::junit_text;
use crate::problems::problems_text;
use crate::stylish::stylish_text;
use oxc_protocol::{Failed, Sink, write_all};
use std::alloc::{AllocError, Global};

/// A format that a CI system reads, or a person.
#[derive(Clone, Copy)]
pub enum CiFormat {
    /// The workflow commands of GitHub.
    Github,
    /// A code quality report of GitLab.
    Gitlab,
    /// The XML of Checkstyle.
    Checkstyle,
    /// The XML of JUnit.
    Junit,
    /// A table for people.
    Stylish,
    /// One line per problem.
    Problems,
}

/// Why a text wasn't sent.
#[derive(Drop)]
pub enum SendError {
    /// The sink failed.
    Failed,
    /// There was no memory left.
    OutOfMemory,
}

/// The text of findings in a format. GitLab's text names no tool.
///
/// # Errors
///
/// Out of memory.
pub fn text_in(alloc: Global, format: CiFormat, findings: &[Finding]) -> Result<String, AllocError>
    ensures { IfOk result (λ text. string_bytes text
        ≡ text_of_format format (map finding_parts findings.now)) }
{
    match format {
        CiFormat::Github => github_text(alloc, findings),
        CiFormat::Gitlab => gitlab_text(alloc, None, findings),
        CiFormat::Checkstyle => checkstyle_text(alloc, findings),
        CiFormat::Junit => junit_text(alloc, findings),
        CiFormat::Stylish => stylish_text(alloc, findings),
        CiFormat::Problems => problems_text(alloc, findings),
    }
}

/// Writes the text of findings to a sink.
///
/// # Errors
///
/// The sink failed, and took a first part of the text; or out of memory, and it took nothing.
pub fn send<K: Sink>(
    alloc: Global,
    format: CiFormat,
    findings: &[Finding],
    sink: &mut K,
) -> Result<(), SendError>
    ensures whole { OnOk result (Appends (K.received sink.old) (K.received sink.new)
        (text_of_format format (map finding_parts findings.now))) }
    ensures part { OnErr result (AppendsPrefix (K.received sink.old) (K.received sink.new)
        (text_of_format format (map finding_parts findings.now))) }
    ensures fault { IsErrOf result SendError.Failed
        → Rose (K.faults sink.old) (K.faults sink.new) }
    ensures later { K.faults sink.old ≤ K.faults sink.new }
    ensures untouched { IsErrOf result SendError.OutOfMemory → sink.new ≡ sink.old }
{
    let Ok(text) = text_in(alloc, format, findings) else {
        return Err(SendError::OutOfMemory);
    };
    match write_all(sink, text.as_bytes()) {
        Ok(()) => Ok(()),
        Err(Failed) => Err(SendError::Failed),
    }
}
