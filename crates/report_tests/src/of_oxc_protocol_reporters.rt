// Reporters and `Info` by example, and callers that are proved from the contracts alone.
ghost use Rattle.std.specs.Prelude.{◌≡◌, ◌<◌, ◌^◌, ◌+◌, ◌↔◌, None, false, true, IfOk, IsTrue, map};
ghost use Rattle.std.specs.Prelude.{string_bytes};
ghost use Rattle.std.specs.List.{concat};
ghost use Rattle.std.specs.Ordering.{nat_cmp, ordering_then};
ghost use Rattle.oxc_protocol.specs.MessageLines.{unless_skip};
ghost use Rattle.oxc_protocol.specs.Reporters.{texts_in};
ghost use Rattle.oxc_protocol.specs.Source.{Fits};

use crate::errors::{push_error, source};
use crate::texts::is_text;
use oxc_protocol::{
    Diagnostic, DiagnosticReporter, DiagnosticResult, DiagnosticWithSource, Error, Info,
    InfoPosition, LabeledSpan, NamedSource, OxcDiagnostic, Severity, TextSource,
};
use std::alloc::{AllocError, Global};
use std::cmp::Ordering;

/// Gives the message of each diagnostic, and leaves out those whose message is `skip`.
#[derive(Drop)]
struct Messages;

impl DiagnosticReporter for Messages {
    ghost use Rattle.std.specs.Prelude.{◌≡◌, None};
    ghost use Rattle.oxc_protocol.specs.MessageLines.{unless_skip};

    ghost renders = { λ _ p text _. text ≡ unless_skip p };

    ghost finishes = { λ _ _ text _. text ≡ None };

    fn finish(
        &mut self,
        _alloc: Global,
        _counts: &DiagnosticResult,
    ) -> Result<Option<String>, AllocError> {
        Ok(None)
    }

    fn render_error(&mut self, alloc: Global, error: Error) -> Result<Option<String>, AllocError> {
        if error.message() == "skip" {
            return Ok(None);
        }
        Ok(Some(String::from_str(alloc, error.message())?))
    }
}

/// The texts of all, one after another, and whether there was memory for each.
fn gathered(alloc: Global, errors: Vec<Error>) -> Result<(String, bool), AllocError>
    ensures { IfOk result (λ found. found.1 ≡ true
        → string_bytes found.0 ≡ concat (texts_in (map unless_skip (map parts errors.items)))) }
{
    let mut text = String::new(alloc);
    let mut whole = true;
    let mut push = |piece: &str| {
        if whole && text.push_str(piece).is_err() {
            whole = false;
        }
    };
    Messages.render_errors_into(alloc, errors, &mut push)?;
    Ok((text, whole))
}

fn keeps_fallback() -> bool
    ensures { result ≡ true }
{
    Messages.supports_minified_file_fallback()
}

fn order_of_positions(a: &InfoPosition, b: &InfoPosition) -> Ordering
    ensures { result
        ≡ ordering_then (nat_cmp a.now.line b.now.line) (nat_cmp a.now.column b.now.column) }
{
    a.cmp(b)
}

fn is_same_position(a: &InfoPosition, b: &InfoPosition) -> bool
    ensures { IsTrue result ↔ (a.now ≡ b.now) }
{
    a == b
}

fn no_result() -> DiagnosticResult
    ensures { result ≡ record { warnings = 0; errors = 0; exceeded = false } }
{
    DiagnosticResult::default()
}

fn three(alloc: Global) -> Result<Vec<Error>, AllocError> {
    let mut errors: Vec<Error> = Vec::new(alloc);
    push_error(alloc, &mut errors, "a")?;
    push_error(alloc, &mut errors, "skip")?;
    push_error(alloc, &mut errors, "b")?;
    Ok(errors)
}

/// Whether there was memory for all texts of these errors, and they are `a` and `b`.
fn are_handed_on(alloc: Global, errors: Vec<Error>) -> bool {
    match gathered(alloc, errors) {
        Ok((text, whole)) => whole && text.as_str() == "ab",
        Err(_) => false,
    }
}

fn finishes_with_nothing(alloc: Global) -> bool {
    match Messages.finish(alloc, &no_result()) {
        Ok(text) => text.is_none(),
        Err(_) => false,
    }
}

#[test]
fn texts_are_handed_on_in_order(rt: HostRuntime) {
    let in_order = match three(rt.alloc()) {
        Ok(errors) => are_handed_on(rt.alloc(), errors),
        Err(_) => false,
    };
    assert!(rt; in_order && finishes_with_nothing(rt.alloc()));
}

fn four(alloc: Global) -> Result<Vec<Error>, AllocError> {
    let mut errors: Vec<Error> = Vec::new(alloc);
    let with_source = sourced(alloc, "a", 0, 1)?;
    errors.push(Box::new(alloc, with_source)?)?;
    push_error(alloc, &mut errors, "skip")?;
    push_error(alloc, &mut errors, "b")?;
    push_error(alloc, &mut errors, "c")?;
    Ok(errors)
}

/// Appends a name or `-`, and a text, each with a blank after it.
fn push_offered(seen: &mut String, name: Option<&str>, text: &str) -> Result<(), AllocError> {
    seen.push_str(name.unwrap_or("-"))?;
    seen.push(' ')?;
    seen.push_str(text)?;
    seen.push(' ')
}

/// The names and texts that are offered, where the text `last` isn't kept.
fn offered(alloc: Global, last: &str) -> Result<String, AllocError> {
    let errors = four(alloc)?;
    let mut seen = String::new(alloc);
    let keep = |name: Option<&str>, text: &str| {
        push_offered(&mut seen, name, text).is_ok() && text != last
    };
    Messages.render_errors_until(alloc, errors, keep)?;
    Ok(seen)
}

/// The text that isn't kept, and what is offered.
const OFFERED: [(&str, &str); 3] = [
    ("a", "a.js a "),
    ("b", "a.js a - b "),
    ("z", "a.js a - b - c "),
];

#[test]
fn a_text_that_is_not_kept_is_the_last(rt: HostRuntime) {
    for row in &OFFERED {
        assert!(rt; is_text(offered(rt.alloc(), row.0), row.1), "{}", row.0);
    }
}

#[test]
fn a_result_keeps_its_numbers(rt: HostRuntime) {
    let counts = DiagnosticResult::new(1, 2, true);
    let counted = counts.warnings_count() == 1 && counts.errors_count() == 2;
    assert!(rt; counted && counts.max_warnings_exceeded() && keeps_fallback());
}

/// An error with one label.
fn labelled(
    alloc: Global,
    message: &str,
    offset: u32,
    len: u32,
) -> Result<OxcDiagnostic, AllocError>
    requires { offset + len < 2 ^ 32 }
{
    OxcDiagnostic::error(alloc, message)?.with_label(alloc, LabeledSpan::new(None, offset, len))
}

/// An error in `a.js` with one label.
fn sourced(
    alloc: Global,
    message: &str,
    offset: u32,
    len: u32,
) -> Result<DiagnosticWithSource<NamedSource<TextSource>>, AllocError>
    requires { offset + len < 2 ^ 32 }
{
    let named = source(alloc, "foo\nbar\nbaz")?;
    Ok(labelled(alloc, message, offset, len)?.with_source_code(named))
}

/// An error in a text with one label.
fn placed(
    alloc: Global,
    text: &str,
    offset: u32,
    len: u32,
) -> Result<DiagnosticWithSource<TextSource>, AllocError>
    requires short { Fits text.now }
    requires in_range { offset + len < 2 ^ 32 }
{
    let source = TextSource::new(String::from_str(alloc, text)?);
    Ok(labelled(alloc, "m", offset, len)?.with_source_code(source))
}

/// Where something starts or ends: the row and the column.
type At = (usize, usize);

fn is_at(info: &Info, start: At, end: At) -> bool {
    info.start.line == start.0
        && info.start.column == start.1
        && info.end.line == end.0
        && info.end.column == end.1
}

// text, offset and length of the label, where it starts and ends
type Place = (&'static str, u32, u32, At, At);

const PLACES: [Place; 6] = [
    ("foo\nbar\nbaz", 4, 3, (2, 1), (2, 4)),
    ("ab\r\ncd", 3, 2, (1, 3), (2, 2)),
    ("a\rb", 1, 2, (1, 2), (2, 2)),
    ("a\n", 2, 0, (2, 1), (2, 1)),
    ("é\n", 2, 0, (1, 3), (1, 3)),
    ("ab", 1, 2, (0, 0), (0, 0)),
];

/// Whether the `Info` of a diagnostic has this start and end.
fn is_told_at(alloc: Global, diagnostic: &dyn Diagnostic, start: At, end: At) -> bool {
    match Info::new(alloc, diagnostic) {
        Ok(info) => is_at(&info, start, end),
        Err(_) => false,
    }
}

/// Whether the `Info` of a diagnostic with one label has the start and end of the row.
fn is_told(alloc: Global, row: &Place) -> bool {
    let (text, offset, len, start, end) = *row;
    if text.len() > 99 || offset > 99 || len > 99 {
        return false;
    }
    match placed(alloc, text, offset, len) {
        Ok(diagnostic) => is_told_at(alloc, &diagnostic, start, end),
        Err(_) => false,
    }
}

#[test]
fn positions_are_rows_and_byte_columns_from_1(rt: HostRuntime) {
    for row in &PLACES {
        assert!(rt; is_told(rt.alloc(), row), "{}", row.0);
    }
}

/// Where a diagnostic starts and ends, the name of its file, its message, severity and rule.
type Told = (
    At,
    At,
    &'static str,
    &'static str,
    Severity,
    Option<&'static str>,
);

const PLACED: Told = ((2, 1), (2, 4), "a.js", "Oops", Severity::Error, None);

const LOST: Told = ((0, 0), (0, 0), "a.js", "", Severity::Warning, None);

const BARE: Told = ((0, 0), (0, 0), "", "", Severity::Warning, Some("s(1)"));

fn is_info(info: &Info, wanted: &Told) -> bool {
    is_at(info, wanted.0, wanted.1)
        && info.filename.as_str() == wanted.2
        && info.message.as_str() == wanted.3
        && info.severity == wanted.4
        && info.rule_id.as_deref() == wanted.5
}

/// Whether this is the `Info` of a diagnostic.
fn tells(alloc: Global, diagnostic: &dyn Diagnostic, wanted: &Told) -> bool {
    match Info::new(alloc, diagnostic) {
        Ok(info) => is_info(&info, wanted),
        Err(_) => false,
    }
}

/// Whether this is the `Info` of an error in `a.js` with one label.
fn oops_tells(alloc: Global, offset: u32, len: u32, wanted: &Told) -> bool
    requires { offset + len < 2 ^ 32 }
{
    match sourced(alloc, "Oops", offset, len) {
        Ok(oops) => tells(alloc, &oops, wanted),
        Err(_) => false,
    }
}

/// An error with a code and without a source.
fn coded(alloc: Global) -> Result<OxcDiagnostic, AllocError> {
    OxcDiagnostic::error(alloc, "m")?.with_error_code(alloc, "s", "1")
}

fn coded_tells(alloc: Global, wanted: &Told) -> bool {
    match coded(alloc) {
        Ok(coded) => tells(alloc, &coded, wanted),
        Err(_) => false,
    }
}

#[test]
fn without_a_position_it_is_a_warning_with_no_message(rt: HostRuntime) {
    let alloc = rt.alloc();
    let both = oops_tells(alloc, 4, 3, &PLACED) && oops_tells(alloc, 9, 3, &LOST);
    assert!(rt; both && coded_tells(alloc, &BARE));
}
