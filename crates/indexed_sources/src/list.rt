// Lists of sources that grow.
ghost use Rattle.std.specs.Prelude.{◌≡◌, ◌++◌, ◌∷◌, [], List, OnErr, OnOk};
ghost use Rattle.found_reports.specs.Listed.{listed};
ghost use Rattle.found_reports.specs.declared.sources.Source.{Source as SourceOf};

use found_reports::{ListedSources, Source};
use std::alloc::{AllocError, Global};

/// A list of names and their texts that grows. Contracts see its entries.
pub trait SourceList {
    /// The entries.
    ghost entries: { Self → List SourceOf };

    /// Whether there is an entry of a name.
    fn is_listed(&self, name: &str) -> bool
        ensures { result ≡ listed (entries self.now) name.now };

    /// Adds an entry at the end.
    ///
    /// # Errors
    ///
    /// Out of memory; then nothing has changed.
    fn push(&mut self, alloc: Global, source: Source) -> Result<(), AllocError>
        ensures added { OnOk result (entries self.new ≡ entries self.old ++ source ∷ []) }
        ensures kept { OnErr result (entries self.new ≡ entries self.old) };
}

impl SourceList for ListedSources {
    ghost entries = { λ listed. listed.entries.items };

    fn is_listed(&self, name: &str) -> bool {
        ListedSources::is_listed(self, name)
    }

    fn push(&mut self, alloc: Global, source: Source) -> Result<(), AllocError> {
        ListedSources::push(self, alloc, source)
    }
}
