// What several tests need.
use found_reports::{FoundReports, GivenPlace, Lack, ListedSources, Source};
use oxc_protocol::OxcDiagnostic;
use std::alloc::{AllocError, Global};

/// Whether a text was made, and reads so.
pub(crate) fn is_text(text: Result<String, AllocError>, wanted: &str) -> bool {
    match text {
        Ok(text) => text.as_str() == wanted,
        Err(_) => false,
    }
}

/// A place that starts there.
pub(crate) fn place(line: Option<u32>, column: Option<u32>) -> GivenPlace {
    GivenPlace {
        line,
        column,
        end_line: None,
        end_column: None,
    }
}

/// One source.
pub(crate) fn one_source(alloc: Global) -> Result<ListedSources, AllocError> {
    let name = String::from_str(alloc, "a.c")?;
    let text = Ok(String::from_str(alloc, "int x;\n")?);
    let entries = Vec::from_array(alloc, [Source { name, text }])?;
    ListedSources::new(alloc, entries)
}

/// A warning on a file that wasn't read, and the number of the file.
pub(crate) fn lost(
    alloc: Global,
    name: &str,
    message: &str,
    place: GivenPlace,
) -> Result<(FoundReports<'static>, usize), AllocError> {
    let mut found = FoundReports::new(alloc);
    let file = found.add_file(String::from_str(alloc, name)?, Err(Lack::Missing))?;
    found.push(file, OxcDiagnostic::warn(alloc, message)?, Some(place))?;
    Ok((found, file))
}
