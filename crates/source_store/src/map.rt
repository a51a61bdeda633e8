// A store in memory.
use crate::fetched::{Fetched, Store};
use found_reports::{ListedSources, Sources};
use std::alloc::Global;

/// A store of listed sources, all known to contracts: the first entry of a path counts, and a path
/// without one is missing.
#[derive(Drop)]
pub struct MapStore {
    /// The sources, by their paths.
    pub listed: ListedSources,
}

impl Store for MapStore {
    ghost use Rattle.std.specs.Prelude.{Some};
    ghost use Rattle.found_reports.specs.Listed.{held_in};

    ghost told = { λ store path. Some (held_in store.listed.entries.items path) };

    fn fetch(&self, alloc: Global, path: &str) -> Fetched {
        match self.listed.source(path) {
            Ok(text) => match String::from_str(alloc, text) {
                Ok(text) => Fetched::Text(text),
                Err(_) => Fetched::OutOfMemory,
            },
            Err(why) => Fetched::Lacking(why),
        }
    }
}
