//! The user's own forms of JSON.
use crate::filters::{bytes_of, refuse};
use crate::help::MORE;
use girzohal_options::Asked;
use girzohal_run::{LIMIT, Status};
use json_inputs::{InputError, own_rows, own_text, read_forms};
use std::alloc::Global;

/// Adds the forms of the file that was asked for, and refuses what is no form.
pub(crate) fn read_shapes(
    rt: &HostRuntime,
    alloc: Global,
    asked: &mut Asked,
) -> Result<(), Status> {
    let mut rows = rows_in(rt, alloc, asked)?;
    if asked.json_shapes.append(&mut rows).is_err() {
        return Err(Status::OutOfMemory);
    }
    if asked.json_shapes.is_empty() {
        return Ok(());
    }
    let Ok(own) = own_text(alloc, &asked.json_shapes) else {
        return Err(Status::OutOfMemory);
    };
    match read_forms(alloc, own.as_str(), None) {
        Ok(_) => Ok(()),
        Err(InputError::Refused(line)) => {
            let more = MORE;
            let _told = eprintln!(rt; "{line}{more}");
            Err(Status::Usage)
        }
        Err(InputError::OutOfMemory) => Err(Status::OutOfMemory),
    }
}

/// The forms in the file, if there is one.
fn rows_in(rt: &HostRuntime, alloc: Global, asked: &Asked) -> Result<Vec<String>, Status> {
    let Some(name) = asked.json_shapes_file.as_deref() else {
        return Ok(Vec::new(alloc));
    };
    let bytes = bytes_of(rt, alloc, name, LIMIT)?;
    let Ok(text) = std::str::from_utf8(&bytes) else {
        return Err(refuse(rt, alloc, name, " ", "isn't UTF-8", Status::NoForm));
    };
    match own_rows(alloc, text) {
        Ok(rows) => Ok(rows),
        Err(_) => Err(Status::OutOfMemory),
    }
}
