// What a store has of many names.
ghost use Rattle.std.specs.Prelude.{◌≡◌, IfOk, OnOk, map, string_bytes};
ghost use Rattle.found_reports.specs.Listed.{held_as, held_in};
ghost use Rattle.source_store.specs.Given.{Adds, AddsAll, IsGiven, IsSaid, MeetsTold, told_at};
ghost use Rattle.source_store.specs.Place.{text_bytes};

use crate::fetched::{Fetched, Store};
use crate::named::{Spelling, path_in};
use found_reports::{Lack, ListedSources, Source};
use indexed_sources::{IndexedSources, SourceList};
use std::alloc::{AllocError, Global};

/// The sources of these names: for each the store's text of the path that the name means. A name
/// that comes again isn't looked up again.
///
/// # Errors
///
/// Out of memory.
#[tactic(auto, using(crate::proofs::GivenLemmas::given_all))]
pub fn gather<S: Store>(
    alloc: Global,
    store: &S,
    spelling: Spelling,
    names: &[String],
) -> Result<ListedSources, AllocError>
    ensures { IfOk result (λ sources. IsGiven (S.told store.now) spelling
        (map string_bytes names.now) (held_in sources.entries.items)) }
{
    let mut sources = ListedSources::empty(alloc);
    gather_more(alloc, store, spelling, &mut sources, names)?;
    Ok(sources)
}

/// The same, with the indexes of their rows.
///
/// # Errors
///
/// Out of memory.
#[tactic(auto, using(crate::proofs::GivenLemmas::given_all))]
pub fn gather_indexed<S: Store>(
    alloc: Global,
    store: &S,
    spelling: Spelling,
    names: &[String],
) -> Result<IndexedSources, AllocError>
    ensures { IfOk result (λ sources. IsGiven (S.told store.now) spelling
        (map string_bytes names.now) (held_in sources.entries.items)) }
{
    let mut sources = IndexedSources::empty(alloc);
    gather_more(alloc, store, spelling, &mut sources, names)?;
    Ok(sources)
}

/// Adds the sources of these names, as [`gather`] does. A name that has a source isn't looked up
/// again.
///
/// # Errors
///
/// Out of memory.
pub fn gather_more<S: Store, L: SourceList>(
    alloc: Global,
    store: &S,
    spelling: Spelling,
    sources: &mut L,
    names: &[String],
) -> Result<(), AllocError>
    ensures { OnOk result (AddsAll (S.told store.now) spelling (L.entries sources.old)
        (L.entries sources.new) (map string_bytes names.now)) }
{
    for name in names {
        add(alloc, store, spelling, sources, name.as_str())?;
    }
    Ok(())
}

/// Adds the source of a name, unless there is one.
#[tactic(auto, using(crate::proofs::GivenLemmas::adds_none, crate::proofs::GivenLemmas::adds_one))]
fn add<S: Store, L: SourceList>(
    alloc: Global,
    store: &S,
    spelling: Spelling,
    sources: &mut L,
    name: &str,
) -> Result<(), AllocError>
    ensures { OnOk result (Adds (S.told store.now) spelling (L.entries sources.old)
        (L.entries sources.new) name.now) }
{
    if !sources.is_listed(name) {
        let path = path_in(alloc, spelling, name)?;
        let text = kept(alloc, store, &path)?;
        let name = String::from_str(alloc, name)?;
        sources.push(alloc, Source { name, text })?;
    }
    Ok(())
}

/// The source of a path, or of none.
#[tactic(auto, using(crate::proofs::GivenLemmas::said_text, crate::proofs::GivenLemmas::said_lack))]
fn kept<S: Store>(
    alloc: Global,
    store: &S,
    path: &Option<String>,
) -> Result<Result<String, Lack>, AllocError>
    ensures { IfOk result (λ text. IsSaid (told_at (S.told store.now) (text_bytes path.now))
        (held_as text)) }
{
    let Some(path) = path else {
        return Ok(Err(Lack::Missing));
    };
    match store.fetch(alloc, path.as_str()) {
        Fetched::Text(text) => Ok(Ok(text)),
        Fetched::Lacking(why) => Ok(Err(why)),
        Fetched::OutOfMemory => Err(AllocError),
    }
}
