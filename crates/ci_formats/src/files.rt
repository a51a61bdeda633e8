// The files that findings are on, and the items on each.
ghost use Rattle.std.specs.Prelude.{◌≡◌, ◌++◌, ◌∷◌, [], ℕ, List, IfOk, OnOk, cond, map};
ghost use Rattle.std.specs.Borrow.{Bor};
ghost use Rattle.std.specs.Ordering.{is_eq};
ghost use Rattle.ci_formats.specs.Finding.{finding_parts};
ghost use Rattle.found_reports.specs.Names.{name_order};
ghost use Rattle.ci_formats.specs.Files.{AreByFile, Knows, names_of as names_in, own_in};
ghost use Rattle.ci_formats.specs.Files.{with_name};

use crate::finding::Finding;
use std::alloc::{AllocError, Global};
use std::collections::{BTreeMap, BTreeSet};

/// The items on each file, by its name.
pub(crate) type ByFile<'a, T> = BTreeMap<&'a str, Vec<T>>;

/// The names of the files, each once, in the order of their first findings.
pub(crate) fn names_of(alloc: Global, findings: &[Finding]) -> Result<Vec<&str>, AllocError>
    ensures { IfOk result (λ names. map (λ name. name.now) names.items
        ≡ names_in (map finding_parts findings.now)) }
{
    let mut names = Vec::new(alloc);
    let mut known = BTreeSet::new(alloc);
    for finding in findings {
        push_new(&mut names, &mut known, finding.name.as_str())?;
    }
    Ok(names)
}

/// Appends a name, unless it is already known.
fn push_new<'a>(
    names: &mut Vec<&'a str>,
    known: &mut BTreeSet<&'a str>,
    name: &'a str,
) -> Result<(), AllocError>
    requires { Knows known.old (map (λ it. it.now) names.old.items) }
    ensures names { OnOk result (map (λ it. it.now) names.new.items
        ≡ with_name (map (λ it. it.now) names.old.items) name.entry.now) }
    ensures known { OnOk result (Knows known.new (map (λ it. it.now) names.new.items)) }
{
    if known.insert(name)? {
        names.push(name)?;
    }
    Ok(())
}

/// The findings on each file, by its name.
pub(crate) fn by_file<'a>(
    alloc: Global,
    findings: &'a [Finding],
) -> Result<ByFile<'a, &'a Finding>, AllocError>
    ensures { IfOk result (λ files. AreByFile files (map finding_parts findings.entry.now)) }
{
    let mut files: ByFile<'a, &'a Finding> = BTreeMap::new(alloc);
    for finding in findings {
        put_on(&mut files, finding.name.as_str(), finding)?;
    }
    Ok(files)
}

/// Appends an item to those on the file of a name.
pub(crate) fn put_on<'a, T: Drop>(
    files: &mut ByFile<'a, T>,
    name: &'a str,
    item: T,
) -> Result<(), AllocError>
    ensures { OnOk result ((other : Bor (List ℕ)) → own_in files.new other
        ≡ cond (is_eq (name_order name.entry other)) (own_in files.old name.entry ++ item ∷ [])
        (own_in files.old other)) }
{
    files.entry(name)?.or_default().push(item)?;
    Ok(())
}

/// The items on the file of a name.
pub(crate) fn own<'b, 'a, T>(files: &'b ByFile<'a, T>, name: &'a str) -> &'b [T]
    ensures { result.now ≡ own_in files.entry.now name.entry }
{
    match files.get(&name) {
        Some(list) => list.as_slice(),
        None => &[],
    }
}
