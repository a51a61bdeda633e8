// Diagnostics by example, and callers whose contracts say what the derived traits mean.
ghost use Rattle.std.specs.Prelude.{◌≡◌, ◌<◌, ◌^◌, ◌+◌, ◌↔◌, ◌∷◌, [], None, ◌++◌, Some, false};
ghost use Rattle.std.specs.Prelude.{IsTrue, IfOk, OnOk, codes, map, string_bytes};
ghost use Rattle.oxc_protocol.specs.Code.{code_cmp};
ghost use Rattle.oxc_protocol.specs.MessageLines.{message_lines};
ghost use Rattle.oxc_protocol.specs.Parts.{Parts, bare_diagnostic};
ghost use Rattle.oxc_protocol.specs.Severities.{rank};
ghost use Rattle.oxc_protocol.specs.Views.{code_parts, inner_parts};
ghost use Rattle.oxc_protocol.specs.declared.protocol.Severity.TheVariants.{Error, Warning};

use crate::errors::{push_error, source};
use crate::texts::{is_text, reads};
use oxc_protocol::{
    Diagnostic, DiagnosticWithSource, Diagnostics, Error, LabeledSpan, NamedSource, OxcCode,
    OxcDiagnostic, OxcDiagnosticInner, Severity, SourceCode, TextSource,
};
use std::alloc::{AllocError, Global};
use std::cmp::Ordering;

fn code_order(a: &OxcCode, b: &OxcCode) -> Ordering
    ensures { result ≡ code_cmp (code_parts a.now) (code_parts b.now) }
{
    a.cmp(b)
}

fn same_parts(a: &OxcDiagnosticInner, b: &OxcDiagnosticInner) -> bool
    ensures { IsTrue result ↔ (inner_parts a.now ≡ inner_parts b.now) }
{
    a == b
}

fn is_graver(a: Severity, b: Severity) -> bool
    ensures { IsTrue result ↔ (rank b < rank a) }
{
    a > b
}

fn usual_severity() -> Severity
    ensures { result ≡ Error }
{
    Severity::default()
}

/// A warning that a name is never used, with what to do about it.
fn unused(alloc: Global, name: &str, offset: u32, len: u32) -> Result<OxcDiagnostic, AllocError>
    requires { offset + len < 2 ^ 32 }
    ensures { IfOk result (λ it. it ≡ record (bare_diagnostic Warning name.now) {
      help = Some (codes "remove it");
      labels = record { text = None; offset = offset; len = len; primary = false } ∷ [];
    }) }
{
    OxcDiagnostic::warn(alloc, name)?
        .with_help(alloc, "remove it")?
        .with_label(alloc, LabeledSpan::new(None, offset, len))
}

/// Appends the message of a box and an LF.
fn push_line(lines: &mut String, error: &Error) -> Result<(), AllocError>
    ensures { OnOk result (string_bytes lines.new
        ≡ string_bytes lines.old ++ (parts error.now).message ++ 10 ∷ []) }
{
    lines.push_str(error.message())?;
    lines.push('\n')?;
    Ok(())
}

/// The messages of all boxes, each on a line of its own.
fn lines_of(alloc: Global, errors: &[Error]) -> Result<String, AllocError>
    ensures { IfOk result (λ lines. string_bytes lines ≡ message_lines (map parts errors.now)) }
{
    let mut lines = String::new(alloc);
    for error in errors {
        push_line(&mut lines, error)?;
    }
    Ok(lines)
}

/// A text, or none where it is `-`.
fn owned(alloc: Global, text: &str) -> Result<Option<String>, AllocError> {
    if text == "-" {
        return Ok(None);
    }
    Ok(Some(String::from_str(alloc, text)?))
}

/// A code of a scope and a number, each of which may be `-`.
fn code(alloc: Global, scope: &str, number: &str) -> Result<OxcCode, AllocError> {
    let scope = owned(alloc, scope)?;
    let number = owned(alloc, number)?;
    Ok(OxcCode { scope, number })
}

/// The number of a code in rising order, its scope, and its own number, or `-` where there is none.
type Ranked = (u8, &'static str, &'static str);

const ASCENDING: [Ranked; 8] = [
    (0, "-", "-"),
    (1, "-", "9"),
    (2, "", "-"),
    (3, "S", "-"),
    (4, "s", "-"),
    (5, "s", "1"),
    (6, "s", "10"),
    (7, "s", "9"),
];

/// Whether a code is ordered to another as their rows are.
fn is_ordered(alloc: Global, first: &OxcCode, at: u8, row: &Ranked) -> bool {
    match code(alloc, row.1, row.2) {
        Ok(second) => code_order(first, &second) == at.cmp(&row.0),
        Err(_) => false,
    }
}

/// Whether a code is ordered to those of all rows as its row is.
fn is_ordered_to_all(alloc: Global, first: &OxcCode, at: u8) -> bool {
    let mut in_order = true;
    for other in &ASCENDING {
        in_order = in_order && is_ordered(alloc, first, at, other);
    }
    in_order
}

/// The same of the code of a row.
fn is_in_order(alloc: Global, row: &Ranked) -> bool {
    match code(alloc, row.1, row.2) {
        Ok(first) => is_ordered_to_all(alloc, &first, row.0),
        Err(_) => false,
    }
}

#[test]
fn codes_are_ordered_none_first_and_texts_by_bytes(rt: HostRuntime) {
    for row in &ASCENDING {
        assert!(rt; is_in_order(rt.alloc(), row), "{}", row.0);
    }
}

/// A list of one label, of one byte.
fn one_label(alloc: Global, offset: u32) -> Result<Vec<LabeledSpan>, AllocError>
    requires { offset + 1 < 2 ^ 32 }
{
    let mut labels = Vec::new(alloc);
    labels.push(LabeledSpan::new(None, offset, 1))?;
    Ok(labels)
}

fn with_texts(alloc: Global) -> Result<OxcDiagnostic, AllocError> {
    OxcDiagnostic::warn(alloc, "w")?
        .with_help(alloc, "h")?
        .with_note(alloc, "n")?
        .with_url(alloc, "u")
}

fn built(alloc: Global) -> Result<OxcDiagnostic, AllocError> {
    let more = one_label(alloc, 4)?;
    with_texts(alloc)?
        .with_label(alloc, LabeledSpan::new(None, 0, 1))?
        .and_label(LabeledSpan::new(None, 2, 1))?
        .and_labels(more)
}

/// Through the trait alone, as a renderer sees it.
fn has_three_labels(diagnostic: &dyn Diagnostic) -> bool {
    match diagnostic.labels() {
        [first, second, third] => {
            first.offset() == 0 && second.offset() == 2 && third.offset() == 4
        }
        _ => false,
    }
}

fn has_one_label(diagnostic: &dyn Diagnostic) -> bool {
    match diagnostic.labels() {
        [label] => label.offset() == 6,
        _ => false,
    }
}

fn has_texts(diagnostic: &dyn Diagnostic) -> bool {
    diagnostic.message() == "w"
        && reads(diagnostic.help(), "h")
        && reads(diagnostic.note(), "n")
        && reads(diagnostic.url(), "u")
}

fn has_all(diagnostic: &dyn Diagnostic) -> bool {
    has_texts(diagnostic)
        && has_three_labels(diagnostic)
        && diagnostic.severity() == Some(Severity::Warning)
}

#[test]
fn builders_set_their_part(rt: HostRuntime) {
    let are_set = match built(rt.alloc()) {
        Ok(built) => has_all(&built),
        Err(_) => false,
    };
    assert!(rt; are_set);
}

fn is_copied(alloc: Global, built: &OxcDiagnostic) -> bool {
    match built.try_clone(alloc) {
        Ok(copy) => copy == *built,
        Err(_) => false,
    }
}

/// A copy with another label.
fn relabelled(alloc: Global, built: &OxcDiagnostic) -> Result<OxcDiagnostic, AllocError> {
    let one = one_label(alloc, 6)?;
    built.try_clone(alloc)?.with_labels(alloc, one)
}

fn is_relabelled(alloc: Global, built: &OxcDiagnostic) -> bool {
    match relabelled(alloc, built) {
        Ok(copy) => has_one_label(&copy),
        Err(_) => false,
    }
}

/// Whether a copy has the label that it is given, and what was copied has its own.
fn is_kept(alloc: Global, built: &OxcDiagnostic) -> bool {
    is_copied(alloc, built) && is_relabelled(alloc, built) && has_three_labels(built)
}

#[test]
fn labels_are_set_anew_in_a_copy_alone(rt: HostRuntime) {
    let alloc = rt.alloc();
    let are_set = match built(alloc) {
        Ok(built) => is_kept(alloc, &built),
        Err(_) => false,
    };
    assert!(rt; are_set);
}

fn bare(alloc: Global) -> Result<OxcDiagnostic, AllocError> {
    OxcDiagnostic::error(alloc, "m")
}

fn coded(alloc: Global) -> Result<OxcDiagnostic, AllocError> {
    bare(alloc)?.with_error_code(alloc, "s", "1")
}

fn scoped_again(alloc: Global) -> Result<OxcDiagnostic, AllocError> {
    coded(alloc)?.with_error_code_scope(alloc, "t")
}

fn coded_again(alloc: Global) -> Result<OxcDiagnostic, AllocError> {
    scoped_again(alloc)?.with_error_code(alloc, "u", "2")
}

fn numbered(alloc: Global) -> Result<OxcDiagnostic, AllocError> {
    bare(alloc)?.with_error_code_num(alloc, "1")
}

/// Through the trait alone, as a renderer sees it.
fn shows(alloc: Global, diagnostic: &dyn Diagnostic, wanted: Option<&str>) -> bool {
    match diagnostic.code(alloc) {
        Ok(shown) => shown.as_deref() == wanted,
        Err(_) => false,
    }
}

/// Whether a diagnostic was made, and shows a code.
fn has_code(alloc: Global, made: Result<OxcDiagnostic, AllocError>, wanted: Option<&str>) -> bool {
    match made {
        Ok(diagnostic) => shows(alloc, &diagnostic, wanted),
        Err(_) => false,
    }
}

#[test]
fn a_part_of_a_code_that_is_there_stays(rt: HostRuntime) {
    let alloc = rt.alloc();
    let once = has_code(alloc, coded(alloc), Some("s(1)"));
    let scoped = has_code(alloc, scoped_again(alloc), Some("s(1)"));
    assert!(rt; once && scoped && has_code(alloc, coded_again(alloc), Some("s(1)")));
}

fn default_is_less(alloc: Global) -> bool {
    match code(alloc, "s", "1") {
        Ok(code) => OxcCode::default() < code,
        Err(_) => false,
    }
}

#[test]
fn a_code_may_lack_parts(rt: HostRuntime) {
    let alloc = rt.alloc();
    let none = has_code(alloc, bare(alloc), None);
    let number = has_code(alloc, numbered(alloc), Some("1"));
    assert!(rt; none && number && !OxcCode::default().is_some() && default_is_less(alloc));
}

/// Whether a diagnostic's code is appended as wanted.
fn pushes(text: &mut String, it: Result<OxcDiagnostic, AllocError>, wanted: bool) -> bool {
    match it {
        Ok(it) => it.push_code(text) == Ok(wanted),
        Err(_) => false,
    }
}

/// Whether a code was made and is appended.
fn is_pushed(text: &mut String, code: Result<OxcCode, AllocError>) -> bool {
    match code {
        Ok(code) => code.push_onto(text) == Ok(true),
        Err(_) => false,
    }
}

#[test]
fn codes_are_gathered_in_one_text(rt: HostRuntime) {
    let alloc = rt.alloc();
    let mut text = String::new(alloc);
    let are_pushed = pushes(&mut text, bare(alloc), false)
        && pushes(&mut text, coded(alloc), true)
        && is_pushed(&mut text, code(alloc, "-", "9"));
    assert!(rt; are_pushed && text.as_str() == "s(1)9");
}

fn two(alloc: Global) -> Result<Vec<OxcDiagnostic>, AllocError> {
    let mut two = Vec::new(alloc);
    two.push(OxcDiagnostic::warn(alloc, "c")?)?;
    two.push(OxcDiagnostic::error(alloc, "d")?)?;
    Ok(two)
}

fn list_of_one(alloc: Global) -> Result<Diagnostics, AllocError> {
    Diagnostics::from_one(alloc, OxcDiagnostic::error(alloc, "a")?)
}

fn list_of_two(alloc: Global) -> Result<Diagnostics, AllocError> {
    let mut list = list_of_one(alloc)?;
    list.push(OxcDiagnostic::warn(alloc, "b")?)?;
    Ok(list)
}

fn list_of_four(alloc: Global) -> Result<Diagnostics, AllocError> {
    let mut list = list_of_two(alloc)?;
    list.extend(two(alloc)?)?;
    Ok(list)
}

fn has_count(list: Result<Diagnostics, AllocError>, count: usize) -> bool {
    match list {
        Ok(list) => list.as_slice().len() == count,
        Err(_) => false,
    }
}

fn is_list_copied(alloc: Global, list: &Diagnostics) -> bool {
    match list.try_clone(alloc) {
        Ok(copy) => copy == *list,
        Err(_) => false,
    }
}

/// Whether a list of four is its copy, isn't the empty one, and is a `Vec` of four.
fn are_four(alloc: Global, list: Result<Diagnostics, AllocError>) -> bool {
    match list {
        Ok(list) => {
            is_list_copied(alloc, &list)
                && list != Diagnostics::new(alloc)
                && list.into_vec().len() == 4
        }
        Err(_) => false,
    }
}

#[test]
fn lists_grow_and_copy(rt: HostRuntime) {
    let alloc = rt.alloc();
    let grow = has_count(list_of_one(alloc), 1)
        && has_count(list_of_two(alloc), 2)
        && has_count(list_of_four(alloc), 4);
    assert!(rt; grow && are_four(alloc, list_of_four(alloc)));
}

/// The messages of a list's errors.
fn errors_in(alloc: Global, list: &Diagnostics) -> Result<String, AllocError> {
    let mut messages = String::new(alloc);
    for error in list.errors() {
        messages.push_str(error.message())?;
    }
    Ok(messages)
}

/// The messages of its errors, then those of its warnings.
fn both_in(alloc: Global, list: &Diagnostics) -> Result<String, AllocError> {
    let mut messages = errors_in(alloc, list)?;
    for warning in list.warnings() {
        messages.push_str(warning.message())?;
    }
    Ok(messages)
}

/// Whether a list of a warning `c` and an error `d` tells them apart.
fn are_apart(alloc: Global, list: &Diagnostics) -> bool {
    list.has_errors()
        && list.has_warnings()
        && is_text(errors_in(alloc, list), "d")
        && is_text(both_in(alloc, list), "dc")
}

#[test]
fn errors_and_warnings_stand_apart(rt: HostRuntime) {
    let stand = match two(rt.alloc()) {
        Ok(two) => are_apart(rt.alloc(), &Diagnostics::from_vec(two)),
        Err(_) => false,
    };
    assert!(rt; stand);
}

fn make_advice(list: &mut Diagnostics) {
    for diagnostic in list.as_mut_slice() {
        diagnostic.inner_mut().severity = Severity::Advice;
    }
}

fn is_c_and_d(list: &Diagnostics) -> bool {
    for (diagnostic, message) in list.into_iter().zip(["c", "d"]) {
        if diagnostic.message() != message {
            return false;
        }
    }
    true
}

/// Whether a diagnostic is an error once it was made one.
fn becomes_error(diagnostic: OxcDiagnostic) -> bool {
    diagnostic.with_severity(Severity::Error).severity() == Some(Severity::Error)
}

fn become_errors(list: Diagnostics) -> bool {
    let mut all = true;
    for diagnostic in list {
        let grave = becomes_error(diagnostic);
        all = all && grave;
    }
    all
}

fn is_walked(mut list: Diagnostics) -> bool {
    make_advice(&mut list);
    is_c_and_d(&list) && become_errors(list)
}

#[test]
fn lists_are_walked_in_order(rt: HostRuntime) {
    let in_order = match two(rt.alloc()) {
        Ok(two) => is_walked(Diagnostics::from_vec(two)),
        Err(_) => false,
    };
    assert!(rt; in_order);
}

fn sourced(alloc: Global) -> Result<DiagnosticWithSource<NamedSource<TextSource>>, AllocError> {
    let named = source(alloc, "let a;")?;
    Ok(OxcDiagnostic::error(alloc, "b")?.with_source_code(named))
}

fn has_source(diagnostic: &dyn Diagnostic) -> bool {
    match diagnostic.source_code() {
        Some(source) => source.bytes() == "let a;".as_bytes() && reads(source.name(), "a.js"),
        None => false,
    }
}

/// An error without a source, and one with it.
fn boxes(alloc: Global) -> Result<Vec<Error>, AllocError> {
    let mut errors: Vec<Error> = Vec::new(alloc);
    push_error(alloc, &mut errors, "a")?;
    let with_source = sourced(alloc)?;
    errors.push(Box::new(alloc, with_source)?)?;
    Ok(errors)
}

fn are_shown(alloc: Global, errors: &[Error]) -> bool {
    match errors {
        [_, second] => is_text(lines_of(alloc, errors), "a\nb\n") && has_source(&**second),
        _ => false,
    }
}

fn boxes_are_shown(alloc: Global) -> bool {
    match boxes(alloc) {
        Ok(errors) => are_shown(alloc, &errors),
        Err(_) => false,
    }
}

fn source_is_shown(alloc: Global) -> bool {
    match sourced(alloc) {
        Ok(sourced) => has_source(&sourced),
        Err(_) => false,
    }
}

#[test]
fn a_box_shows_what_is_in_it(rt: HostRuntime) {
    assert!(rt; source_is_shown(rt.alloc()) && boxes_are_shown(rt.alloc()));
}
