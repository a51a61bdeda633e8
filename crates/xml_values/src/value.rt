//! The values that elements are.
ghost use Rattle.std.specs.Prelude.{◌≡◌, ◌++◌, ◌≤◌, IfOk, OnOk, length, map};
ghost use Rattle.json.specs.Value.{value_view};
ghost use Rattle.xml_values.specs.Element.{array_named as array_of, children_named};
ghost use Rattle.xml_values.specs.Element.{own_attributes, own_text, solid_end as end_of_solid};
ghost use Rattle.xml_values.specs.Element.{trimmed as trimmed_text};
ghost use Rattle.xml_values.specs.Views.{attribute_view, element_view, members_seen, parts_of};

use crate::element::Element;
use crate::marks::{is_blank, skip_blanks};
use crate::tag::{Attribute, is_among};
use crate::text::is_word;
use json::Value;
use std::alloc::{AllocError, Global};

/// The members of an object.
type Members<'v> = Vec<(&'v str, Value<'v>)>;

/// Bytes as a text. What is read from UTF-8 is UTF-8, so nothing else is asked of here but memory.
pub(crate) fn text_of(bytes: &[u8]) -> Result<&str, AllocError>
    ensures { IfOk result (λ text. text.now ≡ bytes.now) }
{
    match std::str::from_utf8(bytes) {
        Ok(text) => Ok(text),
        Err(_) => Err(AllocError),
    }
}

/// The index after the last byte that isn't blank.
fn solid_end(bytes: &[u8]) -> usize
    ensures value { result ≡ end_of_solid 0 0 bytes.now }
    ensures within { result ≤ length bytes.now }
{
    let mut end = 0;
    for at in 0..bytes.len() {
        if !is_blank(bytes[at]) {
            end = at + 1;
        }
    }
    end
}

/// A text without the blanks at both ends.
fn trimmed(text: &[u8]) -> &[u8]
    ensures { result.now ≡ trimmed_text text.now }
{
    let rest = skip_blanks(text);
    &rest[..solid_end(rest)]
}

/// Appends attributes whose name no child has.
fn push_attributes<'v>(
    members: &mut Members<'v>,
    names: &[&[u8]],
    attributes: &'v [Attribute<'_>],
) -> Result<(), AllocError>
    ensures { OnOk result (members_seen members.new.items ≡ members_seen members.old.items
        ++ own_attributes (map (λ it. it.now) names.now) (map attribute_view attributes.entry.now)) }
{
    for attribute in attributes {
        if !is_among(attribute.name, names) {
            let text = Value::String(text_of(&attribute.text)?);
            members.push((text_of(attribute.name)?, text))?;
        }
    }
    Ok(())
}

/// Appends the own text, unless it is blank.
fn push_own_text<'v>(members: &mut Members<'v>, text: &'v [u8]) -> Result<(), AllocError>
    ensures { OnOk result (members_seen members.new.items ≡ members_seen members.old.items
        ++ own_text (trimmed_text text.entry.now)) }
{
    let own = trimmed(text);
    if !own.is_empty() {
        members.push(("#text", Value::String(text_of(own)?)))?;
    }
    Ok(())
}

/// The values of the children of a name.
#[cycle(value)]
fn array_named<'v>(
    alloc: Global,
    name: &[u8],
    element: &'v Element<'_>,
) -> Result<Vec<Value<'v>>, AllocError>
    ensures { IfOk result (λ values. map value_view values.items
        ≡ children_named name.now (parts_of element.entry.now).children) }
{
    let mut values = Vec::new(alloc);
    for child in &element.children {
        if is_word(name, child.0) {
            values.push(element_value(alloc, &child.1)?)?;
        }
    }
    Ok(values)
}

/// Appends an array for each name of children.
#[cycle(value)]
#[tactic(auto, using(crate::proofs::ValueLemmas::array_seen))]
fn push_arrays<'v>(
    alloc: Global,
    members: &mut Members<'v>,
    element: &'v Element<'_>,
) -> Result<(), AllocError>
    ensures { OnOk result (members_seen members.new.items ≡ members_seen members.old.items
        ++ map (array_of (parts_of element.entry.now).children)
        (parts_of element.entry.now).names) }
{
    for name in &element.names {
        let values = array_named(alloc, name, element)?;
        members.push((text_of(name)?, Value::Array(values)))?;
    }
    Ok(())
}

/// The value that an element is.
#[cycle(value)]
pub(crate) fn element_value<'v>(
    alloc: Global,
    element: &'v Element<'_>,
) -> Result<Value<'v>, AllocError>
    ensures { IfOk result (λ it. value_view it ≡ element_view element.entry.now) }
{
    let mut members = Vec::new(alloc);
    push_attributes(&mut members, &element.names, &element.attributes)?;
    push_arrays(alloc, &mut members, element)?;
    push_own_text(&mut members, &element.text)?;
    Ok(Value::Object(members))
}
