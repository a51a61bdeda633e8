// Findings that were there before.
ghost use Rattle.std.specs.Prelude.{◌≡◌, map, IfOk, OnOk};
ghost use Rattle.finding_filters.specs.Finding.{finding_parts};
ghost use Rattle.finding_filters.specs.Texts.{exact_text};
ghost use Rattle.filtered_findings.specs.Repeats.{none_seen, repeats_from, seen_in, with_seen};

use finding_filters::{FindingView, exact_of};
use std::alloc::{AllocError, Global};
use std::collections::BTreeSet;

/// The findings that came before.
#[derive(Drop)]
pub struct Earlier {
    texts: BTreeSet<String>,
}

impl Earlier {
    /// No findings.
    pub fn new(alloc: Global) -> Earlier
        ensures { seen_in result.texts ≡ none_seen }
    {
        Earlier {
            texts: BTreeSet::new(alloc),
        }
    }

    /// Whether a finding was there before: with the same file, place, severity, scope, code and
    /// message. It is kept.
    ///
    /// # Errors
    ///
    /// Out of memory.
    pub fn meets(&mut self, alloc: Global, finding: &FindingView<'_>) -> Result<bool, AllocError>
        ensures value { IfOk result (λ is. is
            ≡ seen_in self.old.texts (exact_text (finding_parts finding.now))) }
        ensures kept { OnOk result (seen_in self.new.texts
            ≡ with_seen (seen_in self.old.texts) (exact_text (finding_parts finding.now))) }
    {
        let text = exact_of(alloc, finding)?;
        let is = self.texts.contains(text.as_str());
        self.texts.insert(text)?;
        Ok(is)
    }
}

/// For each finding, whether it was there before.
pub(crate) fn repeats(alloc: Global, findings: &[FindingView<'_>]) -> Result<Vec<bool>, AllocError>
    ensures { IfOk result (λ flags. flags.items
        ≡ repeats_from none_seen (map finding_parts findings.now)) }
{
    let mut earlier = Earlier::new(alloc);
    let mut flags = Vec::new(alloc);
    for finding in findings {
        let is = earlier.meets(alloc, finding)?;
        flags.push(is)?;
    }
    Ok(flags)
}
