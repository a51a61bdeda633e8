// One line per problem.
ghost use Rattle.std.specs.Prelude.{◌≡◌, IfOk, map, string_bytes};
ghost use Rattle.ci_formats.specs.Finding.{finding_parts};
ghost use Rattle.ci_formats.specs.Problems.{position_of as position_for, problem_text, problems_of};

use crate::finding::{Finding, Location, copy_of};
use oxc_protocol::{Info, InfoPosition};
use problem_lines::write_problem;
use std::alloc::{AllocError, Global};

/// One line per finding, as `problem_lines` writes and reads it. Columns count characters; rows
/// and columns that aren't known are 0.
///
/// # Errors
///
/// Out of memory.
pub fn problems_text(alloc: Global, findings: &[Finding]) -> Result<String, AllocError>
    ensures { IfOk result (λ text. string_bytes text
        ≡ problems_of (map finding_parts findings.now)) }
{
    let mut text = String::new(alloc);
    for finding in findings {
        text.push_str(problem_line(alloc, finding)?.as_str())?;
    }
    Ok(text)
}

/// The line of one finding, with its LF.
///
/// # Errors
///
/// Out of memory.
pub fn problem_line(alloc: Global, finding: &Finding) -> Result<String, AllocError>
    ensures { IfOk result (λ line. string_bytes line ≡ problem_text (finding_parts finding.now)) }
{
    let problem = Info {
        start: position_of(finding.start),
        end: position_of(finding.end),
        filename: String::from_str(alloc, finding.name.as_str())?,
        message: String::from_str(alloc, finding.message.as_str())?,
        severity: finding.severity,
        rule_id: copy_of(alloc, finding.code.as_deref())?,
    };
    write_problem(alloc, &problem)
}

/// A position, with 0 for what isn't known.
fn position_of(at: Location) -> InfoPosition
    ensures { result ≡ position_for at }
{
    InfoPosition {
        line: at.row.unwrap_or(0) as usize,
        column: at.column.unwrap_or(0) as usize,
    }
}
