// Several inputs.
use crate::filters::bytes_of;
use crate::tell_waiting;
use girzohal_run::{Input, LIMIT, Status};
use std::alloc::Global;

/// The files, or why the first one isn't read that can't be. Together they have as many bytes as
/// one may have.
pub(crate) fn inputs_in(
    rt: &HostRuntime,
    alloc: Global,
    names: &[String],
) -> Result<Vec<Input>, Status> {
    let mut inputs = Vec::new(alloc);
    let mut left = LIMIT;
    for name in names {
        if name.as_str() == "-" {
            tell_waiting(rt);
        }
        let bytes = bytes_of(rt, alloc, name.as_str(), left)?;
        left = left.saturating_sub(bytes.len());
        let Ok(name) = String::from_str(alloc, name.as_str()) else {
            return Err(Status::OutOfMemory);
        };
        match inputs.push(Input { name, bytes }) {
            Ok(()) => {}
            Err(_) => return Err(Status::OutOfMemory),
        }
    }
    Ok(inputs)
}
