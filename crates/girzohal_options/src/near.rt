//! The known option that an unknown one may mean.
ghost use Rattle.std.specs.Prelude.{◌≡◌, ◌++◌, IfOk, if◌then◌else◌, map, nat_lt, Some};
ghost use Rattle.std.specs.List.{filter};
ghost use Rattle.std.specs.Option.{option_copied};
ghost use Rattle.girzohal_options.specs.Names.{long_names as names_of, setting_name};
ghost use Rattle.girzohal_options.specs.Nearest.{IsClosest, IsNearest, begins, edits};

use crate::table::{FLAGS, Program, SERVER_FLAGS, SERVER_SETTINGS, SETTINGS, Setting};
use std::alloc::{AllocError, Global};
use strsim::levenshtein;

/// The long name of an option of a program that an unknown one may mean: the only one that begins
/// with it; if none begins so, the first of those with the fewest edits, of which there are at most
/// two.
///
/// # Errors
///
/// Out of memory.
pub fn nearest(
    alloc: Global,
    program: Program,
    name: &str,
) -> Result<Option<&'static str>, AllocError>
    ensures { IfOk result (λ near. IsNearest (names_of program) name.now (option_copied near)) }
{
    let names = long_names(alloc, program)?;
    let begun = beginning(alloc, &names, name)?;
    match begun.as_slice() {
        [] => closest(alloc, &names, name),
        [only] => Ok(Some(*only)),
        [_, _, ..] => Ok(None),
    }
}

/// The long names of a program's options.
#[tactic(auto, unfolding(crate::specs::Names::flags, crate::specs::Names::settings))]
fn long_names(alloc: Global, program: Program) -> Result<Vec<&'static str>, AllocError>
    ensures { IfOk result (λ names. map (λ it. it.now) names.items ≡ names_of program) }
{
    match program {
        Program::Girzohal => names_in(alloc, &SETTINGS, &FLAGS),
        Program::Server => names_in(alloc, &SETTINGS[..SERVER_SETTINGS], &FLAGS[..SERVER_FLAGS]),
    }
}

fn names_in(
    alloc: Global,
    settings: &[Setting],
    flags: &[&'static str],
) -> Result<Vec<&'static str>, AllocError>
    ensures { IfOk result (λ names. map (λ it. it.now) names.items
        ≡ map setting_name settings.now ++ map (λ it. it.now) flags.now) }
{
    let mut names = Vec::new(alloc);
    for setting in settings {
        names.push(setting.name())?;
    }
    names.extend_from_slice(flags)?;
    Ok(names)
}

/// The names that begin with a text.
fn beginning(
    alloc: Global,
    names: &[&'static str],
    text: &str,
) -> Result<Vec<&'static str>, AllocError>
    ensures { IfOk result (λ begun. map (λ it. it.now) begun.items
        ≡ filter (begins text.now) (map (λ it. it.now) names.now)) }
{
    let mut begun = Vec::new(alloc);
    let mut rest = names;
    while let [name, more @ ..] = rest {
        if name.as_bytes().starts_with(text.as_bytes()) {
            begun.push(*name)?;
        }
        rest = more;
    }
    Ok(begun)
}

/// The best name so far.
#[derive(Clone, Copy)]
struct Near {
    name: Option<&'static str>,
    /// Its edits, less than 3; 3 if there is none.
    edits: usize,
}

/// The first of the names with the fewest edits, of which there are at most two.
fn closest(
    alloc: Global,
    names: &[&'static str],
    text: &str,
) -> Result<Option<&'static str>, AllocError>
    ensures { IfOk result (λ near.
        IsClosest (map (λ it. it.now) names.now) text.now (option_copied near)) }
{
    let mut near = Near {
        name: None,
        edits: 3,
    };
    for name in names {
        near = nearer(alloc, near, name, text)?;
    }
    Ok(near.name)
}

/// A name, if it has fewer edits than the best so far, else that.
fn nearer(alloc: Global, near: Near, name: &'static str, text: &str) -> Result<Near, AllocError>
    ensures { IfOk result (λ it. it ≡ (if nat_lt (edits text.now name.entry.now) near.edits
        then record { name = Some name.entry; edits = edits text.now name.entry.now }
        else near)) }
{
    let edits = levenshtein(alloc, text, name)?;
    if edits < near.edits {
        Ok(Near {
            name: Some(name),
            edits,
        })
    } else {
        Ok(near)
    }
}
