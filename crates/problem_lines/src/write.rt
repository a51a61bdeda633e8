//! Lines of problems.
ghost use Rattle.std.specs.Prelude.{◌≡◌, ◌++◌, IfOk, OnOk, decimal, string_bytes};
ghost use Rattle.oxc_span.specs.Views.{text_bytes};
ghost use Rattle.oxc_protocol.specs.Info.{info_parts};
ghost use Rattle.problem_lines.specs.Line.{IsInRange, IsSmall, head_text, problem_line, place_text};
ghost use Rattle.problem_lines.specs.Line.{rule_text, severity_name as name_of_severity, tail_text};

use crate::escape::{Field, push_escaped};
use itoa::Buffer;
use oxc_protocol::{Info, InfoPosition, Severity};
use std::alloc::{AllocError, Global};

/// The line of a problem, with its LF.
///
/// It is `name:line:column:line:column: severity[rule]: message`. The first line and column are
/// those of the start, the others those of the end, in decimal without leading zeros; `[rule]` is
/// left out if there is no rule. The severity is `error`, `warning` or `advice`. In all texts a
/// backslash is `\\`, LF is `\n` and CR is `\r`; in the name `:` is `\c`, and in the rule `]` is
/// `\b`. Nothing else is escaped, and these always are, so a problem has one line.
///
/// # Errors
///
/// Out of memory.
#[tactic(auto, unfolding(crate::specs::Line::problem_line))]
pub fn write_problem(alloc: Global, info: &Info) -> Result<String, AllocError>
    ensures line { IfOk result (λ line. string_bytes line ≡ problem_line (info_parts info.now)) }
    ensures range { IfOk result (λ _. IsInRange (info_parts info.now)) }
{
    let mut line = String::new(alloc);
    push_head(&mut line, info)?;
    push_tail(&mut line, info)?;
    Ok(line)
}

/// Appends the name and both positions.
#[tactic(auto, unfolding(crate::specs::Line::head_text))]
fn push_head(out: &mut String, info: &Info) -> Result<(), AllocError>
    ensures text { OnOk result (string_bytes out.new ≡ string_bytes out.old ++ head_text
        (info_parts info.now)) }
    ensures range { OnOk result (IsInRange (info_parts info.now)) }
{
    push_escaped(out, Field::Name, info.filename.as_str())?;
    out.push_str(":")?;
    push_place(out, &info.start)?;
    push_place(out, &info.end)
}

/// Appends the severity, the rule and the message.
#[tactic(auto, unfolding(crate::specs::Line::tail_text))]
fn push_tail(out: &mut String, info: &Info) -> Result<(), AllocError>
    ensures { OnOk result (string_bytes out.new ≡ string_bytes out.old ++ tail_text
        (info_parts info.now)) }
{
    out.push_str(" ")?;
    out.push_str(severity_name(info.severity))?;
    push_rule(out, &info.rule_id)?;
    out.push_str(": ")?;
    push_escaped(out, Field::Message, info.message.as_str())?;
    out.push_str("\n")
}

/// The word for a severity.
fn severity_name(severity: Severity) -> &'static str
    ensures { result.now ≡ name_of_severity severity }
{
    match severity {
        Severity::Error => "error",
        Severity::Warning => "warning",
        Severity::Advice => "advice",
    }
}

/// Appends the rule in brackets, where there is one.
#[tactic(auto, unfolding(crate::specs::Line::rule_text))]
fn push_rule(out: &mut String, rule: &Option<String>) -> Result<(), AllocError>
    ensures { OnOk result (string_bytes out.new ≡ string_bytes out.old ++ rule_text
        (text_bytes rule.now)) }
{
    match rule {
        Some(rule) => {
            out.push_str("[")?;
            push_escaped(out, Field::Rule, rule.as_str())?;
            out.push_str("]")
        }
        None => Ok(()),
    }
}

/// Appends a line and a column, each with a colon after it.
#[tactic(auto, unfolding(crate::specs::Line::place_text))]
fn push_place(out: &mut String, place: &InfoPosition) -> Result<(), AllocError>
    ensures text { OnOk result (string_bytes out.new
        ≡ string_bytes out.old ++ place_text place.now) }
    ensures range { OnOk result (IsSmall place.now) }
{
    push_number(out, place.line)?;
    out.push_str(":")?;
    push_number(out, place.column)?;
    out.push_str(":")
}

/// Appends a number in decimal.
fn push_number(out: &mut String, number: usize) -> Result<(), AllocError>
    ensures { OnOk result (string_bytes out.new ≡ string_bytes out.old ++ decimal number) }
{
    out.push_str(Buffer::new().format(number))
}
