//! The rows of the tables are what their texts are read as.
use line_shapes::locations::{AFTERS, LEADS};
use line_shapes::name::NameKind;
use line_shapes::parse::{OwnShape, parse};
use line_shapes::part::Part;
use line_shapes::tables::{
    ANNOUNCED, ARROW, ARROW_PLACE, ARROW_TEXT, ARROWS, BARE, PLACES, RESTS, UNDER, UNDER_TEXT,
};
use line_shapes::tool_tables::TOOL_SHAPES;
use std::alloc::{AllocError, Global};

fn joined(alloc: Global, front: &str, text: &str) -> Result<String, AllocError> {
    let mut whole = String::from_str(alloc, front)?;
    whole.push_str(text)?;
    Ok(whole)
}

/// What a text is read as; `None` on an error.
fn read(alloc: Global, front: &str, text: &str) -> Option<OwnShape> {
    match joined(alloc, front, text) {
        Ok(whole) => parse(alloc, whole.as_str()).ok(),
        Err(_) => None,
    }
}

/// Whether a text before a name is read as these tokens.
fn is_lead(alloc: Global, text: &str, parts: &[Part], kind: NameKind) -> bool {
    let name = if let NameKind::OneWord = kind {
        "{word}"
    } else {
        "{name}"
    };
    match read(alloc, text, name) {
        Some(shape) => shape.lead.as_slice() == parts && shape.after.is_empty(),
        None => false,
    }
}

/// Whether a text after a name is read as these tokens.
fn is_behind(alloc: Global, text: &str, parts: &[Part]) -> bool {
    match read(alloc, "{name}", text) {
        Some(shape) => shape.lead.is_empty() && shape.after.as_slice() == parts,
        None => false,
    }
}

/// Whether each text after a name is read as its tokens.
fn are_behind(alloc: Global, rows: &[(&str, &[Part])]) -> bool {
    let mut so_far = true;
    for row in rows {
        so_far = so_far && is_behind(alloc, row.0, row.1);
    }
    so_far
}

#[test]
fn rows_are_their_texts(rt: HostRuntime) {
    for row in &LEADS {
        assert!(rt; is_lead(rt.alloc(), row.0, row.1, row.2), "{}", row.0);
    }
    for row in &RESTS {
        assert!(rt; is_behind(rt.alloc(), row.0, row.1), "{}", row.0);
    }
    assert!(rt; are_behind(rt.alloc(), &AFTERS), "a place");
    assert!(rt; are_behind(rt.alloc(), &BARE), "no message");
    assert!(rt; are_behind(rt.alloc(), &ANNOUNCED), "an announced line");
    assert!(rt; is_behind(rt.alloc(), UNDER_TEXT, &UNDER), "a line below");
}

/// Whether a text is read as these tokens before a name and after it.
fn is_around(alloc: Global, text: &str, lead: &[Part], after: &[Part]) -> bool {
    match read(alloc, "", text) {
        Some(shape) => shape.lead.as_slice() == lead && shape.after.as_slice() == after,
        None => false,
    }
}

/// Whether the name of a text is of this kind.
fn has_name(alloc: Global, text: &str, kind: NameKind) -> bool {
    match read(alloc, "", text) {
        Some(shape) => shape.kind == kind,
        None => false,
    }
}

#[test]
fn rows_of_whole_lines_are_their_texts(rt: HostRuntime) {
    for row in &TOOL_SHAPES {
        assert!(rt; is_around(rt.alloc(), row.1, row.2, row.4), "{}", row.1);
        assert!(rt; has_name(rt.alloc(), row.1, row.3), "{}", row.1);
    }
    assert!(rt; is_around(rt.alloc(), ARROW_TEXT, &ARROW, &ARROW_PLACE));
    for row in &ARROWS {
        assert!(rt; is_around(rt.alloc(), row.0, row.1, row.2), "{}", row.0);
    }
    for row in &PLACES {
        assert!(rt; is_around(rt.alloc(), row.0, row.1, row.3), "{}", row.0);
        assert!(rt; has_name(rt.alloc(), row.0, row.2), "{}", row.0);
    }
}
