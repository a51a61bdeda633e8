// Whether an input is lines, by its first bytes.
ghost use Rattle.std.specs.Prelude.{◌≡◌};
ghost use Rattle.input_forms.specs.Sure.{Tells, told_by as told_so};
ghost use Rattle.input_forms.specs.Sure.{may_become_mark as mark_to_come};
ghost use Rattle.input_forms.specs.Sure.{may_begin_xml as xml_to_come};
ghost use Rattle.input_forms.specs.Sure.{told_behind_angle, told_in_bracket as bracket_so};
ghost use Rattle.input_forms.specs.Sure.{told_with as with_so};

use crate::begun::{begins_xml, first_from, without_mark};

/// What the first bytes of an input tell.
#[derive(Clone, Copy, PartialEq, Eq)]
pub enum FirstBytes {
    /// It begins as lines, whatever follows.
    SurelyLines,
    /// That depends on what follows.
    Open,
    /// It doesn't begin as lines, whatever follows.
    Other,
}

/// Whether an input that begins with these bytes begins as lines, whatever follows.
#[tactic(auto, using(crate::proofs::SureLemmas::mark_tells, crate::proofs::SureLemmas::others_tell))]
pub fn first_bytes(bytes: &[u8]) -> FirstBytes
    ensures { Tells result bytes.now }
{
    if may_become_mark(bytes) {
        FirstBytes::Open
    } else {
        told_by(first_from(without_mark(bytes)))
    }
}

/// Whether bytes may still become a byte order mark.
fn may_become_mark(bytes: &[u8]) -> bool
    ensures { result ≡ mark_to_come bytes.now }
{
    match bytes {
        [] => true,
        [first] => *first == 0xEF,
        [first, second] => *first == 0xEF && *second == 0xBB,
        _ => false,
    }
}

/// The same for a text whose first byte isn't blank.
fn told_by(text: &[u8]) -> FirstBytes
    ensures { result ≡ told_so text.now }
{
    match text {
        [first, rest @ ..] => told_with(*first, rest),
        [] => FirstBytes::Open,
    }
}

/// The same for a text of this first byte and this rest.
fn told_with(first: u8, rest: &[u8]) -> FirstBytes
    ensures { result ≡ with_so first rest.now }
{
    if first == b'{' {
        FirstBytes::Other
    } else if first == b'[' {
        told_in_bracket(first_from(rest))
    } else if first == b'<' {
        told_after_angle(rest)
    } else {
        FirstBytes::SurelyLines
    }
}

/// The same after a `<`.
fn told_after_angle(rest: &[u8]) -> FirstBytes
    ensures { result ≡ told_behind_angle rest.now }
{
    if begins_xml(rest) {
        FirstBytes::Other
    } else if may_begin_xml(rest) {
        FirstBytes::Open
    } else {
        FirstBytes::SurelyLines
    }
}

/// Whether XML may still begin after a `<` and these bytes.
fn may_begin_xml(rest: &[u8]) -> bool
    ensures { result ≡ xml_to_come rest.now }
{
    b"?xml".starts_with(rest)
        || b"checkstyle".starts_with(rest)
        || b"results".starts_with(rest)
        || b"pmd".starts_with(rest)
        || b"jslint".starts_with(rest)
}

/// The same after a `[`.
fn told_in_bracket(rest: &[u8]) -> FirstBytes
    ensures { result ≡ bracket_so rest.now }
{
    match rest {
        [] => FirstBytes::Open,
        [b'{' | b'"' | b']', ..] => FirstBytes::Other,
        _ => FirstBytes::SurelyLines,
    }
}
