//! Start tags: a name and its attributes.
ghost use Rattle.std.specs.Prelude.{◌≡◌, IfErr, IfOk, Some, None, map, option_map};
ghost use Rattle.xml_values.specs.Text.{Means};
ghost use Rattle.xml_values.specs.Tag.{assigned as assigned_in, attribute as attribute_in};
ghost use Rattle.xml_values.specs.Tag.{attributes_of, closed as closed_by, is_among as among};
ghost use Rattle.xml_values.specs.Tag.{may_add as can_add, quoted as quoted_in};
ghost use Rattle.xml_values.specs.Views.{attribute_view};

use crate::error::{Wanted, XmlError, before, refused};
use crate::marks::{Class, after, begins_name, skip_blanks, split_name, split_run};
use crate::text::{is_word, push_text};
use std::alloc::Global;

/// The most names of attributes, and of elements, in an element. It keeps reading linear.
pub(crate) const MAX_NAMES: usize = 64;

/// An attribute.
#[derive(Drop)]
pub(crate) struct Attribute<'t> {
    pub name: &'t [u8],
    pub text: Vec<u8>,
}

pub(crate) fn is_among(name: &[u8], names: &[&[u8]]) -> bool
    ensures { result ≡ among name.now (map (λ it. it.now) names.now) }
{
    for other in names {
        if is_word(name, other) {
            return true;
        }
    }
    false
}

/// What is before the byte that closes a text, and after it.
fn closed<'t>(text: &'t [u8], rest: &'t [u8]) -> Option<(&'t [u8], &'t [u8])>
    ensures { option_map (λ it. (it.0.now, it.1.now)) result
        ≡ closed_by text.entry.now rest.entry.now }
{
    match rest {
        [_, more @ ..] if !text.contains(&b'<') => Some((text, more)),
        _ => None,
    }
}

/// What is between quotes, and after them.
fn quoted(bytes: &[u8]) -> Option<(&[u8], &[u8])>
    ensures { option_map (λ it. (it.0.now, it.1.now)) result ≡ quoted_in bytes.now }
{
    match bytes {
        [quote, rest @ ..] if *quote == b'"' || *quote == b'\'' => {
            let (text, from) = split_run(Class::Until(*quote), rest);
            closed(text, from)
        }
        _ => None,
    }
}

/// What is between quotes after `=`, and after them.
pub(crate) fn assigned(bytes: &[u8]) -> Option<(&[u8], &[u8])>
    ensures { option_map (λ it. (it.0.now, it.1.now)) result ≡ assigned_in bytes.now }
{
    match after(b"=", skip_blanks(bytes)) {
        Some(rest) => quoted(skip_blanks(rest)),
        None => None,
    }
}

/// What is before the quote that the rest of an input follows. No clause says that it does.
fn inside<'s>(source: &'s [u8], rest: &[u8]) -> &'s [u8] {
    match before(source, rest) {
        [inner @ .., _] => inner,
        [] => &[],
    }
}

/// An attribute, and what is after it.
fn read_attribute<'t>(
    alloc: Global,
    source: &[u8],
    rest: &'t [u8],
) -> Result<(Attribute<'t>, &'t [u8]), XmlError>
    ensures attribute { IfOk result (λ it. attribute_in rest.entry.now
        ≡ Some (attribute_view it.0, it.1.now)) }
    ensures cause { IfErr result (Means (attribute_in rest.entry.now ≡ None)) }
{
    let Some((name, from)) = split_name(rest) else {
        return Err(refused(source, rest, Wanted::TagEnd));
    };
    let Some((text, more)) = assigned(from) else {
        return Err(refused(source, from, Wanted::Value));
    };
    let mut read = Vec::new(alloc);
    push_text(inside(source, more), &mut read, text, true)?;
    Ok((Attribute { name, text: read }, more))
}

/// Whether an attribute may come after others: none has its name, and they are fewer than 64.
fn may_add(attributes: &[Attribute<'_>], it: &Attribute<'_>) -> bool
    ensures { result ≡ can_add (map attribute_view attributes.now) (attribute_view it.now) }
{
    if attributes.len() >= MAX_NAMES {
        return false;
    }
    for other in attributes {
        if is_word(it.name, other.name) {
            return false;
        }
    }
    true
}

/// What is wanted of an attribute that may not come after others.
fn wanted(attributes: &[Attribute<'_>]) -> Wanted {
    if attributes.len() < MAX_NAMES {
        Wanted::OtherName
    } else {
        Wanted::FewerNames
    }
}

/// The attributes of a start tag, and what is after them and blanks.
#[tactic(auto, using(crate::proofs::TagLemmas::attributes_end, crate::proofs::TagLemmas::attributes_bare, crate::proofs::TagLemmas::attributes_no, crate::proofs::TagLemmas::attributes_twice, crate::proofs::TagLemmas::attributes_turn, crate::proofs::TagLemmas::attributes_spent))]
pub(crate) fn read_attributes<'t>(
    alloc: Global,
    source: &[u8],
    bytes: &'t [u8],
) -> Result<(Vec<Attribute<'t>>, &'t [u8]), XmlError>
    ensures attributes { IfOk result (λ it. attributes_of bytes.entry.now
        ≡ Some (map attribute_view it.0.items, it.1.now)) }
    ensures cause { IfErr result (Means (attributes_of bytes.entry.now ≡ None)) }
{
    let mut attributes = Vec::new(alloc);
    let mut rest = bytes;
    for _turn in 0..bytes.len() + 1 {
        let (blanks, from) = split_run(Class::Blank, rest);
        if !begins_name(from) {
            return Ok((attributes, from));
        }
        if blanks.is_empty() {
            return Err(refused(source, from, Wanted::TagEnd));
        }
        let (it, more) = read_attribute(alloc, source, from)?;
        if !may_add(&attributes, &it) {
            return Err(refused(source, from, wanted(&attributes)));
        }
        attributes.push(it)?;
        rest = more;
    }
    Err(refused(source, rest, Wanted::TagEnd))
}
