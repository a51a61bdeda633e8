// Lines of problems by example, there and back, and a caller that is proved from the contracts
// alone.
ghost use Rattle.std.specs.Prelude.{◌≡◌, Some, IfOk, option_map};
ghost use Rattle.oxc_protocol.specs.Info.{info_parts};

use oxc_protocol::{
    DiagnosticReporter, DiagnosticResult, Error, Info, InfoPosition, LabeledSpan, NamedSource,
    OxcDiagnostic, Severity, TextSource,
};
use problem_lines::{
    ProblemError, ProblemReporter, lines_read_back, read_problem, read_problems, report_lines,
    write_problem,
};
use std::alloc::{AllocError, Global};

/// A problem, written and read back.
fn there_and_back(alloc: Global, info: &Info) -> Result<Option<Info>, AllocError>
    ensures { IfOk result (λ back. option_map info_parts back ≡ Some (info_parts info.now)) }
{
    let line = write_problem(alloc, info)?;
    read_problem(alloc, line.as_str())
}

/// A problem whose texts have what has to be escaped.
fn colon_problem(alloc: Global) -> Result<Info, AllocError> {
    let filename = String::from_str(alloc, "a:b")?;
    let message = String::from_str(alloc, "x\ny")?;
    Ok(Info {
        start: InfoPosition { line: 1, column: 1 },
        end: InfoPosition { line: 1, column: 2 },
        filename,
        message,
        severity: Severity::Error,
        rule_id: None,
    })
}

fn is_colon_problem(info: &Info) -> bool {
    info.start.line == 1
        && info.start.column == 1
        && info.end.line == 1
        && info.end.column == 2
        && info.filename.as_str() == "a:b"
        && info.message.as_str() == "x\ny"
        && info.severity == Severity::Error
        && info.rule_id.is_none()
}

/// Whether there was memory for a text, and it is the wanted one.
fn is_text(text: Result<String, AllocError>, wanted: &str) -> bool {
    match text {
        Ok(text) => text.as_str() == wanted,
        Err(_) => false,
    }
}

/// Whether it comes back.
fn comes_back(alloc: Global, info: &Info) -> bool {
    match there_and_back(alloc, info) {
        Ok(Some(back)) => is_colon_problem(&back),
        _ => false,
    }
}

#[test]
fn a_line_gives_its_problem_back(rt: HostRuntime) {
    let alloc = rt.alloc();
    let is_given_back = match colon_problem(alloc) {
        Ok(info) => {
            is_text(write_problem(alloc, &info), "a\\cb:1:1:1:2: error: x\\ny\n")
                && comes_back(alloc, &info)
        }
        Err(_) => false,
    };
    assert!(rt; is_given_back);
}

const NO_LINES: [&str; 13] = [
    "a:01:1:1:1: error: x\n",
    "a.js:2:1:2:4: error: Oops",
    "a.js:2:1:2:4: error: Oops\r\n",
    "a:b:1:1:1:1: error: x\n",
    "a:1:1:1:1: error[s: x\n",
    "a:1:1:1:1: error[]]: x\n",
    "a:1:1:1:1: error: x\\\n",
    "a:1:1:1:1: error: \\q\n",
    "a:1:1:1:1: fault: x\n",
    "a:18446744073709551616:1:1:1: error: x\n",
    "2 errors, 1 warnings\n",
    "zz\n",
    "",
];

/// Whether a line is no problem's.
fn is_none(alloc: Global, line: &str) -> bool {
    match read_problem(alloc, line) {
        Ok(told) => told.is_none(),
        Err(_) => false,
    }
}

/// Whether the rule of a line's problem is read so.
fn has_rule(alloc: Global, line: &str, rule: &str) -> bool {
    match read_problem(alloc, line) {
        Ok(Some(info)) => info.rule_id.as_deref() == Some(rule),
        _ => false,
    }
}

const WITH_RULE: &str = "é:18446744073709551615:1:1:1: advice[\\b: ]: \n";

#[test]
fn other_lines_are_none(rt: HostRuntime) {
    for line in &NO_LINES {
        assert!(rt; is_none(rt.alloc(), line), "{line}");
    }
    assert!(rt; has_rule(rt.alloc(), WITH_RULE, "]: "));
}

/// Whether the second line of a text is the first that is no problem's.
fn names_the_second(alloc: Global, text: &str) -> bool {
    match read_problems(alloc, text) {
        Ok(_) => false,
        Err(error) => error == ProblemError::NotALine { line: 1 },
    }
}

#[test]
fn the_first_line_that_is_none_is_named(rt: HostRuntime) {
    let text = "a.js:2:1:2:4: error: Oops\nzz\n";
    assert!(rt; names_the_second(rt.alloc(), text));
}

fn source(alloc: Global) -> Result<NamedSource<TextSource>, AllocError> {
    let text = String::from_str(alloc, "foo\nbar\nbaz")?;
    let name = String::from_str(alloc, "a.js")?;
    Ok(NamedSource::new(name, TextSource::new(text)))
}

/// An error in the second row.
fn oops(alloc: Global) -> Result<OxcDiagnostic, AllocError> {
    let label = LabeledSpan::new(None, 4, 3);
    OxcDiagnostic::error(alloc, "Oops")?.with_label(alloc, label)
}

/// The same with a code.
fn coded(alloc: Global) -> Result<OxcDiagnostic, AllocError> {
    oops(alloc)?.with_error_code(alloc, "s", "1")
}

/// Appends a diagnostic, in the source.
fn push(alloc: Global, errors: &mut Vec<Error>, it: OxcDiagnostic) -> Result<(), AllocError> {
    let named = source(alloc)?;
    errors.push(Box::new(alloc, it.with_source_code(named))?)?;
    Ok(())
}

/// An error in a source, the same with a code, and one without a source.
fn three(alloc: Global) -> Result<Vec<Error>, AllocError> {
    let mut errors: Vec<Error> = Vec::new(alloc);
    push(alloc, &mut errors, oops(alloc)?)?;
    push(alloc, &mut errors, coded(alloc)?)?;
    errors.push(Box::new(alloc, OxcDiagnostic::error(alloc, "m")?)?)?;
    Ok(errors)
}

const THREE_LINES: &str =
    "a.js:2:1:2:4: error: Oops\na.js:2:1:2:4: error[s(1)]: Oops\n:0:0:0:0: warning: \n";

fn lines_of_three(alloc: Global) -> Result<String, AllocError> {
    let errors = three(alloc)?;
    report_lines(alloc, errors)
}

fn are_three(told: Result<Vec<Info>, ProblemError>) -> bool {
    match told {
        Ok(told) => told.len() == 3,
        Err(_) => false,
    }
}

#[test]
fn the_lines_of_diagnostics_read_back(rt: HostRuntime) {
    let alloc = rt.alloc();
    let are_read_back = match three(alloc) {
        Ok(errors) => are_three(lines_read_back(alloc, errors)),
        Err(_) => false,
    };
    assert!(rt; are_read_back && is_text(lines_of_three(alloc), THREE_LINES));
}

/// Whether two errors and a warning are counted in this line.
fn are_told(alloc: Global, exceeded: bool, line: &str) -> bool {
    let counts = DiagnosticResult::new(1, 2, exceeded);
    match ProblemReporter::new().finish(alloc, &counts) {
        Ok(Some(told)) => told.as_str() == line,
        _ => false,
    }
}

#[test]
fn the_counts_stand_in_one_line(rt: HostRuntime) {
    let alloc = rt.alloc();
    assert!(rt; !ProblemReporter::new().supports_minified_file_fallback());
    assert!(rt; are_told(alloc, false, "2 errors, 1 warnings\n"));
    assert!(rt; are_told(alloc, true, "2 errors, 1 warnings, too many warnings\n"));
}

fn shown(alloc: Global, error: ProblemError) -> Result<String, AllocError> {
    format!(in alloc; "{error}")
}

#[test]
fn errors_say_what_happened(rt: HostRuntime) {
    let third = shown(rt.alloc(), ProblemError::NotALine { line: 3 });
    let memory = shown(rt.alloc(), ProblemError::OutOfMemory);
    assert!(rt; is_text(third, "line 3 is no problem") && is_text(memory, "out of memory"));
}
