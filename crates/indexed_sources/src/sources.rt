// Sources with the indexes of their rows, which are made once.
ghost use Rattle.std.specs.Prelude.{◌≡◌, ◌<◌, ◌++◌, ◌∷◌, [], IfOk, MatchOption, OnErr, OnOk, Some};
ghost use Rattle.std.specs.Prelude.{length, map, slice_get};
ghost use Rattle.oxc_protocol.specs.Source.{Fits};
ghost use Rattle.found_reports.specs.Held.{held_of, lacks};
ghost use Rattle.found_reports.specs.Listed.{ArePlaces, held_by, held_in, place_from};
ghost use Rattle.found_reports.specs.declared.sources.Lack.TheVariants.{Missing};
ghost use Rattle.indexed_sources.specs.Indexed.{CountsAt, index_by, text_held};

use crate::list::SourceList;
use crate::row_text::RowText;
use found_reports::{Lack, Source};
use source_location::LineIndex;
use std::alloc::{AllocError, Global};
use std::collections::BTreeMap;
use std::marker::Model;

/// A list of sources, each with the index of its rows, which is made when it is added. The first
/// entry of a name counts, and a name without one is missing. Contracts see the entries.
#[derive(Drop)]
pub struct IndexedSources {
    entries: Vec<Source>,
    /// The place of the first entry of each name.
    places: BTreeMap<String, usize>,
    /// The index of each entry that has a text.
    indexes: Vec<Option<LineIndex>>,
}

impl Model for IndexedSources {
    ghost use Rattle.found_reports.specs.Listed.{Listed};
    ghost use Rattle.indexed_sources.specs.Indexed.{AreKept};

    ghost Value = { Listed };

    ghost view = { λ s. record { entries = s.entries } };

    ghost invariant = { λ s. AreKept s.entries.items s.places s.indexes.items };
}

impl IndexedSources {
    /// No sources.
    #[tactic(auto, using(crate::proofs::IndexedLemmas::none_kept))]
    pub fn empty(alloc: Global) -> IndexedSources
        ensures { result.entries.items ≡ [] }
    {
        IndexedSources {
            entries: Vec::new(alloc),
            places: BTreeMap::new(alloc),
            indexes: Vec::new(alloc),
        }
    }

    /// The entries.
    pub fn entries(&self) -> &[Source]
        ensures { result.now ≡ self.now.entries.items }
    {
        &self.entries
    }

    /// The place of the first entry of a name, from 0.
    pub fn place(&self, name: &str) -> Option<usize>
        ensures place { result ≡ place_from 0 self.now.entries.items name.now }
        ensures counts { MatchOption result (held_in self.now.entries.items name.now ≡ lacks Missing)
            (CountsAt self.now.entries.items name.now) }
    {
        match self.places.get(name) {
            Some(place) => Some(*place),
            None => None,
        }
    }

    /// The text of a name, with the index of its rows.
    ///
    /// # Errors
    ///
    /// Why there is none. A text of `u32::MAX` bytes or more is too long.
    pub fn rows(&self, name: &str) -> Result<RowText<'_>, Lack>
        ensures { text_held result ≡ held_in self.now.entries.items name.now }
    {
        match self.place(name) {
            Some(place) => self.rows_at(place),
            None => Err(Lack::Missing),
        }
    }

    /// The text of the entry at a place, with the index of its rows.
    ///
    /// # Errors
    ///
    /// Why there is none. A text of `u32::MAX` bytes or more is too long.
    pub fn rows_at(&self, place: usize) -> Result<RowText<'_>, Lack>
        requires { place < length self.now.entries.items }
        ensures { Some (text_held result) ≡ slice_get (map held_by self.now.entries.items) place }
    {
        text_with(&self.entries[place], &self.indexes[place])
    }
}

impl SourceList for IndexedSources {
    ghost entries = { λ indexed. indexed.entries.items };

    fn is_listed(&self, name: &str) -> bool {
        self.places.contains_key(name)
    }

    fn push(&mut self, alloc: Global, source: Source) -> Result<(), AllocError> {
        let index = index_of(alloc, &source)?;
        self.indexes.reserve(1)?;
        self.entries.reserve(1)?;
        add_place(alloc, &mut self.places, &self.entries, &source)?;
        self.entries.push_reserved(source);
        self.indexes.push_reserved(index);
        Ok(())
    }
}

/// Records the place of an entry after others, if it is the first of its name.
fn add_place(
    alloc: Global,
    places: &mut BTreeMap<String, usize>,
    entries: &[Source],
    source: &Source,
) -> Result<(), AllocError>
    requires { ArePlaces 0 entries.now places.old }
    ensures added { OnOk result (ArePlaces 0 (entries.now ++ source.now ∷ []) places.new) }
    ensures kept { OnErr result (ArePlaces 0 entries.now places.new) }
{
    if places.contains_key(source.name.as_str()) {
        return Ok(());
    }
    let name = String::from_str(alloc, source.name.as_str())?;
    places.insert(name, entries.len())?;
    Ok(())
}

/// The index of a source, if it has a text.
fn index_of(alloc: Global, source: &Source) -> Result<Option<LineIndex>, AllocError>
    ensures { IfOk result (λ index. index ≡ index_by source.now) }
{
    match held(source) {
        Ok(text) => Ok(Some(LineIndex::from_source_text(alloc, text)?)),
        Err(_) => Ok(None),
    }
}

/// The text of a source with its index.
fn text_with<'s>(source: &'s Source, index: &'s Option<LineIndex>) -> Result<RowText<'s>, Lack>
    requires { index.now ≡ index_by source.now }
    ensures { text_held result ≡ held_by source.now }
{
    match (held(source), index) {
        (Ok(text), Some(index)) => Ok(RowText { text, index }),
        (Err(why), _) => Err(why),
        (Ok(_), None) => unreachable!(),
    }
}

/// The text of a source, or why there is none. A text of `u32::MAX` bytes or more is too long.
fn held(source: &Source) -> Result<&str, Lack>
    ensures told { held_of result ≡ held_by source.now }
    ensures short { IfOk result (λ text. Fits text.now) }
{
    match &source.text {
        Ok(text) if text.len() >= u32::MAX as usize => Err(Lack::TooLong),
        Ok(text) => Ok(text.as_str()),
        Err(why) => Err(*why),
    }
}
