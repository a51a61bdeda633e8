// A store as its callers see it.
ghost use Rattle.std.specs.Prelude.{ℕ, List, Option};
ghost use Rattle.found_reports.specs.Held.{Held};
ghost use Rattle.source_store.specs.Told.{IsTold};

use found_reports::Lack;
use std::alloc::Global;

/// What a store answers.
#[derive(Drop)]
pub enum Fetched {
    /// The text.
    Text(String),
    /// There is no text, for this reason.
    Lacking(Lack),
    /// There was no memory left.
    OutOfMemory,
}

/// Texts by path.
pub trait Store {
    /// What is known of a path: its text, or why it has none. A store may know nothing.
    ghost told: { Self → List ℕ → Option Held };

    /// The text of a path: what is known of it, if anything is; or out of memory.
    fn fetch(&self, alloc: Global, path: &str) -> Fetched
        ensures { IsTold (told self.now path.now) result };
}
