// Findings on changed rows.
ghost use Rattle.std.specs.Prelude.{◌≡◌};
ghost use Rattle.finding_filters.specs.Changed.{is_changed as is_on_changed, touches_in};
ghost use Rattle.finding_filters.specs.Finding.{finding_parts};

use crate::finding::{FindingView, rows_of};
use changed_rows::{Diff, RowSet};

/// Which findings a diff leaves.
#[derive(Clone, Copy)]
pub enum FilterMode {
    /// Those on rows that were added.
    Added,
    /// Those on rows that a hunk shows.
    DiffContext,
    /// Those in its files.
    File,
    /// All.
    NoFilter,
}

/// A diff, and which findings it leaves.
#[derive(Drop)]
pub struct Changed {
    /// The diff.
    pub diff: Diff,
    /// Which findings it leaves.
    pub mode: FilterMode,
}

impl Changed {
    /// Whether the diff leaves a finding. A finding without a row goes by its file, and one without
    /// a file stays.
    #[tactic(auto, unfolding(crate::specs::Changed::is_changed))]
    pub fn leaves(&self, finding: &FindingView<'_>) -> bool
        ensures { result ≡ is_on_changed self.now.diff self.now.mode (finding_parts finding.now) }
    {
        if finding.file.is_empty() {
            return true;
        }
        match self.mode {
            FilterMode::Added => self.touches(RowSet::Added, finding),
            FilterMode::DiffContext => self.touches(RowSet::Shown, finding),
            FilterMode::File => self.diff.has_file(finding.file),
            FilterMode::NoFilter => true,
        }
    }

    fn touches(&self, set: RowSet, finding: &FindingView<'_>) -> bool
        ensures { result ≡ touches_in self.now.diff set (finding_parts finding.now) }
    {
        match rows_of(finding.start, finding.end) {
            Some((first, last)) => {
                self.diff
                    .touches(set, finding.file, first as usize, last as usize)
            }
            None => self.diff.has_file(finding.file),
        }
    }
}
