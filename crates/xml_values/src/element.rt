//! Elements.
ghost use Rattle.std.specs.Prelude.{◌≡◌, [], IfErr, IfOk, None, Some, OnOk, ◌+◌, ◌++◌, false, length, map, option_map};
ghost use Rattle.std.specs.Option.{option_copied};
ghost use Rattle.xml_values.specs.Text.{Means};
ghost use Rattle.xml_values.specs.Element.{content as content_in, content_step, element as element_in};
ghost use Rattle.xml_values.specs.Element.{may_hold as can_hold, opened as with_attributes};
ghost use Rattle.xml_values.specs.Element.{passed as passed_in, past_comment as comment_in};
ghost use Rattle.xml_values.specs.Element.{past_end as end_in, past_instruction as instruction_in};
ghost use Rattle.xml_values.specs.Element.{said, section as section_in, text_step, with_child};
ghost use Rattle.xml_values.specs.Element.{with_name as names_with};
ghost use Rattle.xml_values.specs.Marks.{past, run};
ghost use Rattle.xml_values.specs.Tag.{is_among as among};
ghost use Rattle.xml_values.specs.Views.{attribute_view, element_view, parts_of};

use crate::error::{Wanted, XmlError, before, refused};
use crate::marks::{Class, after, skip_blanks, split_mark, split_name, split_run};
use crate::tag::{Attribute, MAX_NAMES, is_among, read_attributes};
use crate::text::{is_word, push_text};
use std::alloc::{AllocError, Global};

/// An element.
#[derive(Drop)]
pub struct Element<'t> {
    pub(crate) attributes: Vec<Attribute<'t>>,
    /// The names of its children, each once.
    pub(crate) names: Vec<&'t [u8]>,
    pub(crate) children: Vec<(&'t [u8], Element<'t>)>,
    pub(crate) text: Vec<u8>,
}

/// What is after an instruction.
fn past_instruction(bytes: &[u8]) -> Option<&[u8]>
    ensures { option_copied result ≡ instruction_in bytes.now }
{
    match split_mark(b"?>", after(b"<?", bytes)?) {
        Some((_, rest)) => Some(rest),
        None => None,
    }
}

/// What is after a comment.
fn past_comment(bytes: &[u8]) -> Option<&[u8]>
    ensures { option_copied result ≡ comment_in bytes.now }
{
    match split_mark(b"--", after(b"<!--", bytes)?) {
        Some((_, end)) => after(b">", end),
        None => None,
    }
}

/// What is after an instruction or a comment.
#[tactic(auto, unfolding(crate::specs::Element::passed))]
pub(crate) fn passed(bytes: &[u8]) -> Option<&[u8]>
    ensures { option_copied result ≡ passed_in bytes.now }
{
    match past_instruction(bytes) {
        Some(rest) => Some(rest),
        None => past_comment(bytes),
    }
}

/// The text of a CDATA section, and what is after it.
#[tactic(auto, unfolding(crate::specs::Element::section))]
fn section(bytes: &[u8]) -> Option<(&[u8], &[u8])>
    ensures { option_map (λ it. (it.0.now, it.1.now)) result ≡ section_in bytes.now }
{
    match after(b"<![CDATA[", bytes) {
        Some(rest) => split_mark(b"]]>", rest),
        None => None,
    }
}

/// What is after the end tag of an element, from the name on.
fn past_end<'t>(name: &[u8], bytes: &'t [u8]) -> Option<&'t [u8]>
    ensures { option_copied result ≡ end_in name.now bytes.entry.now }
{
    match split_name(bytes) {
        Some((other, rest)) if is_word(other, name) => after(b">", skip_blanks(rest)),
        _ => None,
    }
}

/// What is wanted where no element begins.
fn wanted(bytes: &[u8]) -> Wanted {
    if bytes.starts_with(b"!--") {
        Wanted::Comment
    } else if bytes.starts_with(b"?") || bytes.starts_with(b"![CDATA[") {
        Wanted::SectionEnd
    } else if bytes.starts_with(b"!") {
        Wanted::NoDocumentType
    } else {
        Wanted::Element
    }
}

/// An element with attributes, without content.
fn opened<'t>(alloc: Global, attributes: Vec<Attribute<'t>>) -> Element<'t>
    ensures { parts_of result ≡ with_attributes (map attribute_view attributes.entry.items) }
{
    Element {
        attributes,
        names: Vec::new(alloc),
        children: Vec::new(alloc),
        text: Vec::new(alloc),
    }
}

fn may_hold(element: &Element<'_>, name: &[u8]) -> bool
    ensures { result ≡ can_hold (parts_of element.now) name.now }
{
    is_among(name, &element.names) || element.names.len() < MAX_NAMES
}

/// Appends a name, unless it is one of them.
fn push_name<'t>(names: &mut Vec<&'t [u8]>, name: &'t [u8]) -> Result<(), AllocError>
    ensures { OnOk result (map (λ it. it.now) names.new.items
        ≡ names_with name.entry.now (map (λ it. it.now) names.old.items)) }
{
    if !is_among(name, names) {
        names.push(name)?;
    }
    Ok(())
}

/// Appends a child.
fn push_child<'t>(
    into: &mut Element<'t>,
    name: &'t [u8],
    child: Element<'t>,
) -> Result<(), AllocError>
    ensures { OnOk result (parts_of into.new
        ≡ with_child (parts_of into.old) (name.entry.now, element_view child.entry)) }
{
    push_name(&mut into.names, name)?;
    into.children.push((name, child))?;
    Ok(())
}

/// Appends the text of a CDATA section.
fn push_section(into: &mut Element<'_>, text: &[u8]) -> Result<(), AllocError>
    ensures { OnOk result (parts_of into.new
        ≡ said (parts_of into.old) ((parts_of into.old).text ++ text.now)) }
{
    into.text.extend_from_slice(text)
}

/// Appends the text up to `<`. Gives what is after it.
fn push_own<'t>(
    source: &[u8],
    bytes: &'t [u8],
    into: &mut Element<'t>,
) -> Result<&'t [u8], XmlError>
    ensures text { IfOk result (λ rest. text_step (parts_of into.old)
        (run (Class.Until 0x3C) bytes.entry.now) (past (Class.Until 0x3C) bytes.entry.now)
        ≡ Some (false, parts_of into.new, rest.now)) }
    ensures cause { IfErr result (Means (text_step (parts_of into.old)
        (run (Class.Until 0x3C) bytes.entry.now) (past (Class.Until 0x3C) bytes.entry.now)
        ≡ None)) }
{
    let (text, rest) = split_run(Class::Until(b'<'), bytes);
    if text.is_empty() {
        return Err(refused(source, bytes, Wanted::EndTag));
    }
    if split_mark(b"]]>", text).is_some() {
        return Err(refused(source, bytes, Wanted::NoSectionEnd));
    }
    push_text(before(source, rest), &mut into.text, text, false)?;
    Ok(rest)
}

/// Reads a part of a content. Gives whether it is the beginning of the end tag, and what is
/// after it.
#[cycle(read)]
#[tactic(auto, using(crate::proofs::ElementLemmas::part_passed, crate::proofs::ElementLemmas::part_section, crate::proofs::ElementLemmas::part_end, crate::proofs::ElementLemmas::part_text, crate::proofs::ElementLemmas::no_child, crate::proofs::ElementLemmas::full, crate::proofs::ElementLemmas::one_child))]
fn read_part<'t>(
    alloc: Global,
    source: &[u8],
    bytes: &'t [u8],
    depth: usize,
    into: &mut Element<'t>,
) -> Result<(bool, &'t [u8]), XmlError>
    ensures part { IfOk result (λ it. content_step (element_in depth) (parts_of into.old)
        bytes.entry.now ≡ Some (it.0, parts_of into.new, it.1.now)) }
    ensures cause { IfErr result (Means (content_step (element_in depth) (parts_of into.old)
        bytes.entry.now ≡ None)) }
{
    if let Some(rest) = passed(bytes) {
        return Ok((false, rest));
    }
    if let Some((text, rest)) = section(bytes) {
        push_section(into, text)?;
        return Ok((false, rest));
    }
    if let Some(rest) = after(b"</", bytes) {
        return Ok((true, rest));
    }
    if let Some(from) = after(b"<", bytes) {
        let (name, child, rest) = read_element(alloc, source, from, depth)?;
        if !may_hold(into, name) {
            return Err(refused(source, bytes, Wanted::FewerNames));
        }
        push_child(into, name, child)?;
        return Ok((false, rest));
    }
    Ok((false, push_own(source, bytes, into)?))
}

/// Reads a content up to the name in the end tag.
#[cycle(read)]
#[tactic(auto, using(crate::proofs::ContentLemmas::content_no, crate::proofs::ContentLemmas::content_end, crate::proofs::ContentLemmas::content_turn, crate::proofs::ContentLemmas::content_spent))]
fn read_content<'t>(
    alloc: Global,
    source: &[u8],
    bytes: &'t [u8],
    depth: usize,
    into: &mut Element<'t>,
) -> Result<&'t [u8], XmlError>
    ensures content { IfOk result (λ rest. content_in (element_in depth)
        (length bytes.entry.now + 1) (parts_of into.old) bytes.entry.now
        ≡ Some (parts_of into.new, rest.now)) }
    ensures cause { IfErr result (Means (content_in (element_in depth)
        (length bytes.entry.now + 1) (parts_of into.old) bytes.entry.now ≡ None)) }
{
    let mut rest = bytes;
    for _turn in 0..bytes.len() + 1 {
        let (ends, more) = read_part(alloc, source, rest, depth, into)?;
        if ends {
            return Ok(more);
        }
        rest = more;
    }
    Err(refused(source, rest, Wanted::EndTag))
}

/// An element after its `<`: its name and it, and what is after it. Elements nest no deeper
/// than `depth`.
#[cycle(read)]
#[tactic(auto, using(crate::proofs::ValueLemmas::view_is, crate::proofs::ElementLemmas::no_depth, crate::proofs::ElementLemmas::unnamed, crate::proofs::ElementLemmas::no_attributes, crate::proofs::ElementLemmas::empty_tag, crate::proofs::ElementLemmas::no_tag_end, crate::proofs::ElementLemmas::no_content, crate::proofs::ElementLemmas::no_end_tag, crate::proofs::ElementLemmas::whole_element))]
pub(crate) fn read_element<'t>(
    alloc: Global,
    source: &[u8],
    bytes: &'t [u8],
    depth: usize,
) -> Result<(&'t [u8], Element<'t>, &'t [u8]), XmlError>
    ensures element { IfOk result (λ it. element_in depth bytes.entry.now
        ≡ Some ((it.0.now, element_view it.1), it.2.now)) }
    ensures cause { IfErr result (Means (element_in depth bytes.entry.now ≡ None)) }
{
    if depth == 0 {
        return Err(refused(source, bytes, Wanted::LessDepth));
    }
    let Some((name, from)) = split_name(bytes) else {
        return Err(refused(source, bytes, wanted(bytes)));
    };
    let (attributes, from) = read_attributes(alloc, source, from)?;
    let mut element = opened(alloc, attributes);
    if let Some(rest) = after(b"/>", from) {
        return Ok((name, element, rest));
    }
    let Some(inner) = after(b">", from) else {
        return Err(refused(source, from, Wanted::TagEnd));
    };
    let end = read_content(alloc, source, inner, depth - 1, &mut element)?;
    match past_end(name, end) {
        Some(rest) => Ok((name, element, rest)),
        None => Err(refused(source, end, Wanted::EndTag)),
    }
}
