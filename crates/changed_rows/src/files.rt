// The files of a diff, by number.
ghost use Rattle.std.specs.Prelude.{◌≡◌, ℕ, List, [], map, Some, IfOk, OnOk, OnErr, string_bytes};
ghost use Rattle.changed_rows.specs.Files.{AreNumbers, number_of, with_file};

use std::alloc::{AllocError, Global};
use std::collections::BTreeMap;
use std::marker::Model;

/// Names of files, each once, numbered from 0 as they first come.
#[derive(Drop)]
pub struct Files {
    names: Vec<String>,
    /// The number of each name.
    numbers: BTreeMap<String, usize>,
}

impl Model for Files {
    ghost Value = { List (List ℕ) };

    ghost view = { λ s. map string_bytes s.names.items };

    ghost invariant = { λ s. AreNumbers (map string_bytes s.names.items) s.numbers };
}

impl Files {
    /// No files.
    pub fn new(alloc: Global) -> Files
        ensures { result ≡ [] }
    {
        Files {
            names: Vec::new(alloc),
            numbers: BTreeMap::new(alloc),
        }
    }

    /// The number of a file.
    pub fn number(&self, name: &str) -> Option<usize>
        ensures { result ≡ number_of self.now name.now }
    {
        self.numbers.get(name).copied()
    }

    /// The number of a file, which is added if it isn't there.
    ///
    /// # Errors
    ///
    /// Out of memory; then nothing has changed.
    pub fn enter(&mut self, alloc: Global, name: &str) -> Result<usize, AllocError>
        ensures number { IfOk result (λ number. number_of self.new name.now ≡ Some number) }
        ensures files { OnOk result (self.new ≡ with_file self.old name.now) }
        ensures kept { OnErr result (self.new ≡ self.old) }
    {
        if let Some(number) = self.number(name) {
            return Ok(number);
        }
        let number = self.names.len();
        let kept = String::from_str(alloc, name)?;
        let key = String::from_str(alloc, name)?;
        self.names.reserve(1)?;
        self.numbers.insert(key, number)?;
        self.names.push_reserved(kept);
        Ok(number)
    }
}
