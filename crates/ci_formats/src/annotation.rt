// Annotations, as they are written.
ghost use Rattle.std.specs.Prelude.{◌≡◌, ◌++◌, IfOk, OnOk, map, string_bytes};
ghost use Rattle.std.specs.Option.{option_copied};
ghost use Rattle.ci_formats.specs.Annotation.{annotation_for, annotation_line, annotation_parts};
ghost use Rattle.ci_formats.specs.Annotation.{from_line, kept_column as kept_columns, line_of};
ghost use Rattle.ci_formats.specs.Annotation.{number_property, properties};
ghost use Rattle.ci_formats.specs.Annotation.{separator as separator_for, text_of, text_property};
ghost use Rattle.ci_formats.specs.Finding.{finding_parts};

use crate::finding::{Finding, Location, copy_of};
use crate::percent::Field;
use escapes::push_escaped;
use itoa::Buffer;
use oxc_protocol::Severity;
use std::alloc::{AllocError, Global};

/// The kind of an annotation.
#[derive(Clone, Copy)]
pub enum Level {
    /// An error.
    Error,
    /// A warning.
    Warning,
    /// Anything less severe.
    Notice,
}

/// What a workflow command for an annotation says.
#[derive(Drop)]
pub struct Annotation {
    /// The level that it is shown at.
    pub level: Level,
    /// The file.
    pub file: Option<String>,
    /// The first row, from 1.
    pub line: Option<usize>,
    /// The last row, from 1.
    pub end_line: Option<usize>,
    /// The column of the start, from 1.
    pub column: Option<usize>,
    /// The column of the end, from 1.
    pub end_column: Option<usize>,
    /// The title.
    pub title: Option<String>,
    /// The message.
    pub message: String,
}

/// The lines of findings, in order.
///
/// # Errors
///
/// Out of memory.
pub fn github_text(alloc: Global, findings: &[Finding]) -> Result<String, AllocError>
    ensures { IfOk result (λ text. string_bytes text ≡ text_of (map finding_parts findings.now)) }
{
    let mut text = String::new(alloc);
    for finding in findings {
        text.push_str(github_line(alloc, finding)?.as_str())?;
    }
    Ok(text)
}

/// The line of a finding, with its LF.
///
/// # Errors
///
/// Out of memory.
pub fn github_line(alloc: Global, finding: &Finding) -> Result<String, AllocError>
    ensures { IfOk result (λ line. string_bytes line ≡ line_of (finding_parts finding.now)) }
{
    let annotation = annotation_of(alloc, finding)?;
    write_annotation(alloc, &annotation)
}

/// The annotation for a finding. It has columns only within one row, since GitHub drops others.
///
/// # Errors
///
/// Out of memory.
#[tactic(auto, unfolding(crate::specs::Annotation::annotation_for))]
pub fn annotation_of(alloc: Global, finding: &Finding) -> Result<Annotation, AllocError>
    ensures { IfOk result (λ annotation. annotation_parts annotation
        ≡ annotation_for (finding_parts finding.now)) }
{
    let (start, end) = (finding.start, finding.end);
    Ok(Annotation {
        level: match finding.severity {
            Severity::Error => Level::Error,
            Severity::Warning => Level::Warning,
            Severity::Advice => Level::Notice,
        },
        file: if finding.name.is_empty() {
            None
        } else {
            Some(String::from_str(alloc, finding.name.as_str())?)
        },
        line: number_of(start.row),
        end_line: number_of(start.row.and(end.row)),
        column: kept_column(start, end, start.column),
        end_column: kept_column(start, end, end.column),
        title: copy_of(alloc, finding.code.as_deref())?,
        message: String::from_str(alloc, finding.message.as_str())?,
    })
}

/// An optional number as a `usize`.
fn number_of(number: Option<u32>) -> Option<usize>
    ensures { result ≡ number }
{
    match number {
        Some(number) => Some(number as usize),
        None => None,
    }
}

/// A column, if the finding is within one row.
fn kept_column(start: Location, end: Location, column: Option<u32>) -> Option<usize>
    ensures { result ≡ kept_columns start end column }
{
    match (start.row, end.row) {
        (None, _) => None,
        (Some(first), Some(last)) if last != first => None,
        _ => number_of(column),
    }
}

/// The line of an annotation, with its LF.
///
/// # Errors
///
/// Out of memory.
#[tactic(auto, unfolding(crate::specs::Annotation::annotation_line))]
pub fn write_annotation(alloc: Global, annotation: &Annotation) -> Result<String, AllocError>
    ensures { IfOk result (λ line. string_bytes line
        ≡ annotation_line (annotation_parts annotation.now)) }
{
    let mut line = String::new(alloc);
    line.push_str("::")?;
    line.push_str(match annotation.level {
        Level::Error => "error",
        Level::Warning => "warning",
        Level::Notice => "notice",
    })?;
    push_properties(&mut line, annotation)?;
    line.push_str("::")?;
    push_escaped(&mut line, &Field::Message, annotation.message.as_str())?;
    line.push_str("\n")?;
    Ok(line)
}

/// Appends the properties that are there.
#[tactic(auto, unfolding(crate::specs::Annotation::properties))]
fn push_properties(out: &mut String, annotation: &Annotation) -> Result<(), AllocError>
    ensures { OnOk result (string_bytes out.new
        ≡ string_bytes out.old ++ properties (annotation_parts annotation.now)) }
{
    push_text(out, false, "file=", annotation.file.as_deref())?;
    push_from_line(out, annotation.file.is_some(), annotation)
}

/// Appends the properties from the first row on.
#[tactic(auto, unfolding(crate::specs::Annotation::from_line))]
fn push_from_line(
    out: &mut String,
    started: bool,
    annotation: &Annotation,
) -> Result<(), AllocError>
    ensures { OnOk result (string_bytes out.new
        ≡ string_bytes out.old ++ from_line started (annotation_parts annotation.now)) }
{
    let end_line = started || annotation.line.is_some();
    let column = end_line || annotation.end_line.is_some();
    let end_column = column || annotation.column.is_some();
    let title = end_column || annotation.end_column.is_some();
    push_number(out, started, "line=", annotation.line)?;
    push_number(out, end_line, "endLine=", annotation.end_line)?;
    push_number(out, column, "col=", annotation.column)?;
    push_number(out, end_column, "endColumn=", annotation.end_column)?;
    push_text(out, title, "title=", annotation.title.as_deref())
}

/// Appends a property with a text, if it is there.
#[tactic(auto, unfolding(crate::specs::Annotation::text_property))]
fn push_text(
    out: &mut String,
    started: bool,
    key: &str,
    value: Option<&str>,
) -> Result<(), AllocError>
    ensures { OnOk result (string_bytes out.new
        ≡ string_bytes out.old ++ text_property started key.now (option_copied value.entry)) }
{
    let Some(value) = value else {
        return Ok(());
    };
    out.push_str(separator(started))?;
    out.push_str(key)?;
    push_escaped(out, &Field::Property, value)
}

/// Appends a property with a number, if it is there.
#[tactic(auto, unfolding(crate::specs::Annotation::number_property))]
fn push_number(
    out: &mut String,
    started: bool,
    key: &str,
    value: Option<usize>,
) -> Result<(), AllocError>
    ensures { OnOk result (string_bytes out.new
        ≡ string_bytes out.old ++ number_property started key.now value) }
{
    let Some(value) = value else {
        return Ok(());
    };
    out.push_str(separator(started))?;
    out.push_str(key)?;
    out.push_str(Buffer::new().format(value))
}

/// The separator before a property: a space before the first, else a comma.
pub(crate) fn separator(started: bool) -> &'static str
    ensures { result.now ≡ separator_for started }
{
    if started { "," } else { " " }
}
