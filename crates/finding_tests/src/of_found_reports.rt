// Notes as they are read, and sources that are asked for.
use crate::fixtures::{is_text, lost, one_source, place};
use found_reports::{Lack, Sources, note_of};
use std::alloc::Global;

/// A note, the row and the column of a place, why there is no source, and the note as it is read.
type Note = (
    Option<&'static str>,
    Option<u32>,
    Option<u32>,
    Option<Lack>,
    &'static str,
);

const NOTES: [Note; 4] = [
    (None, Some(3), Some(7), None, "at a.c:3:7"),
    (Some("see b"), Some(3), None, None, "see b\nat a.c:3"),
    (None, None, Some(7), Some(Lack::Missing), "at a.c"),
    (
        None,
        Some(3),
        Some(7),
        Some(Lack::NoText),
        "at a.c:3:7 (not read: no UTF-8)",
    ),
];

/// Whether a note on `a.c` reads so.
fn reads(alloc: Global, row: &Note) -> bool {
    let (note, line, column, why, wanted) = *row;
    is_text(
        note_of(alloc, note, "a.c", place(line, column), why),
        wanted,
    )
}

#[test]
fn notes_tell_places(rt: HostRuntime) {
    for row in &NOTES {
        assert!(rt; reads(rt.alloc(), row), "{}", row.4);
    }
}

/// Whether a source is there under its name, and no other is.
fn is_listed(alloc: Global) -> bool {
    match one_source(alloc) {
        Ok(sources) => {
            matches!(sources.source("a.c"), Ok("int x;\n"))
                && matches!(sources.source("b.c"), Err(Lack::Missing))
        }
        Err(_) => false,
    }
}

/// Whether a report is kept with its file.
fn is_kept(alloc: Global) -> bool {
    match lost(alloc, "b.c", "unused", place(Some(1), None)) {
        Ok((found, file)) => file == 0 && found.files().len() == 1 && found.reports().len() == 1,
        Err(_) => false,
    }
}

#[test]
fn a_report_keeps_its_place(rt: HostRuntime) {
    assert!(rt; is_listed(rt.alloc()) && is_kept(rt.alloc()));
}
