// The XML of Checkstyle.
ghost use Rattle.std.specs.Prelude.{◌≡◌, ◌++◌, IfOk, OnOk, map, string_bytes};
ghost use Rattle.std.specs.List.{flat_map};
ghost use Rattle.ci_formats.specs.Checkstyle.{checkstyle_of, error_element, file_element};
ghost use Rattle.ci_formats.specs.Checkstyle.{file_with, severity_word as word_of_severity};
ghost use Rattle.ci_formats.specs.Files.{names_of as names_in};
ghost use Rattle.ci_formats.specs.Finding.{finding_parts};

use crate::files::{by_file, names_of, own};
use crate::finding::Finding;
use crate::xml::{push_attribute, push_number};
use oxc_protocol::Severity;
use std::alloc::{AllocError, Global};

/// The XML of Checkstyle 4.3: each file once, in the order of its first finding, with its
/// findings.
///
/// # Errors
///
/// Out of memory.
#[tactic(auto, unfolding(crate::specs::Checkstyle::checkstyle_of))]
pub fn checkstyle_text(alloc: Global, findings: &[Finding]) -> Result<String, AllocError>
    ensures { IfOk result (λ text. string_bytes text
        ≡ checkstyle_of (map finding_parts findings.now)) }
{
    let mut text = String::new(alloc);
    text.push_str("<?xml version=\"1.0\" encoding=\"UTF-8\"?>\n")?;
    text.push_str("<checkstyle version=\"4.3\">\n")?;
    push_files(alloc, &mut text, findings)?;
    text.push_str("</checkstyle>\n")?;
    Ok(text)
}

/// Appends each file.
fn push_files(alloc: Global, out: &mut String, findings: &[Finding]) -> Result<(), AllocError>
    ensures { OnOk result (string_bytes out.new ≡ string_bytes out.old
        ++ flat_map (file_element (map finding_parts findings.now))
        (names_in (map finding_parts findings.now))) }
{
    let names = names_of(alloc, findings)?;
    let files = by_file(alloc, findings)?;
    for name in &names {
        push_file(alloc, out, name, own(&files, name))?;
    }
    Ok(())
}

/// Appends a file with these findings.
#[tactic(auto, unfolding(crate::specs::Checkstyle::file_with))]
fn push_file(
    alloc: Global,
    out: &mut String,
    name: &str,
    own: &[&Finding],
) -> Result<(), AllocError>
    ensures { OnOk result (string_bytes out.new ≡ string_bytes out.old
        ++ file_with name.now (map (λ it. finding_parts it.now) own.now)) }
{
    out.push_str("<file")?;
    push_attribute(alloc, out, "name", name)?;
    out.push_str(">\n")?;
    for finding in own {
        push_error(alloc, out, finding)?;
    }
    out.push_str("</file>\n")
}

/// Appends a finding.
#[tactic(auto, unfolding(crate::specs::Checkstyle::error_element, crate::specs::Checkstyle::place_attributes))]
fn push_error(alloc: Global, out: &mut String, finding: &Finding) -> Result<(), AllocError>
    ensures { OnOk result (string_bytes out.new
        ≡ string_bytes out.old ++ error_element (finding_parts finding.now)) }
{
    out.push_str("<error")?;
    push_number(out, "line", finding.start.row.unwrap_or(0) as usize)?;
    push_number(out, "column", finding.start.column.unwrap_or(0) as usize)?;
    push_attribute(alloc, out, "severity", severity_word(finding.severity))?;
    push_attribute(alloc, out, "message", finding.message.as_str())?;
    if let Some(code) = &finding.code {
        push_attribute(alloc, out, "source", code.as_str())?;
    }
    out.push_str("/>\n")
}

/// The word for a severity.
pub(crate) fn severity_word(severity: Severity) -> &'static str
    ensures { result.now ≡ word_of_severity severity }
{
    match severity {
        Severity::Error => "error",
        Severity::Warning => "warning",
        Severity::Advice => "info",
    }
}
