// Which names mean a file.
ghost use Rattle.std.specs.Prelude.{◌≡◌, IfOk};
ghost use Rattle.source_store.specs.Matching.{is_named as is_named_by, means_file as file_meant};
ghost use Rattle.source_store.specs.Matching.{plain_name};

use crate::named::{Spelling, path_in};
use std::alloc::{AllocError, Global};

/// Whether a name in a log means the file with this path: the name's path is the file's, or the
/// file's ends in it after a slash.
///
/// # Errors
///
/// Out of memory.
#[tactic(auto, unfolding(crate::specs::Matching::means_file))]
pub fn means_file(
    alloc: Global,
    spelling: Spelling,
    path: &str,
    name: &str,
) -> Result<bool, AllocError>
    ensures { IfOk result (λ means. means ≡ file_meant spelling path.now name.now) }
{
    match path_in(alloc, spelling, name)? {
        Some(name) => Ok(is_named(path.as_bytes(), name.as_bytes())),
        None => Ok(false),
    }
}

/// Whether a name is this path, or the path ends in it after a slash. A `./` before the name is
/// ignored.
pub fn is_named(path: &[u8], name: &[u8]) -> bool
    ensures { result ≡ is_named_by path.now name.now }
{
    let name = plain(name);
    !name.is_empty()
        && name.len() <= path.len()
        && path.ends_with(name)
        && (path.len() == name.len() || path[path.len() - name.len() - 1] == b'/')
}

/// A name without the `./` before it.
fn plain(name: &[u8]) -> &[u8]
    ensures { result.now ≡ plain_name name.now }
{
    if name.len() >= 2 && name[0] == b'.' && name[1] == b'/' {
        &name[2..]
    } else {
        name
    }
}
