// What filters ask for.
ghost use Rattle.std.specs.Prelude.{◌≡◌, ◌==◌, ◌||◌, false, length, not};
ghost use Rattle.finding_filters.specs.declared.changed.FilterMode.{FilterMode as Mode};
ghost use Rattle.report_filters.specs.Filtered.{has_patterns as has_any, is_given as are_given};
ghost use Rattle.report_filters.specs.Filtered.{mode_of};

use crate::entries::Entry;
use changed_rows::Root;
use filtered_findings::Filters;
use finding_filters::{FilterMode, Selection};
use std::alloc::Global;

/// Filters, with what they compare.
#[derive(Drop)]
pub struct Rules {
    /// All filters but the baseline.
    pub filters: Filters,
    /// The folder from which names are compared.
    pub root: Root,
    /// The findings of the baseline.
    pub baseline: Option<Vec<Entry>>,
}

impl Rules {
    /// No filters.
    pub fn none(alloc: Global) -> Rules
        ensures { are_given result ≡ false }
    {
        Rules {
            filters: Filters {
                unique: false,
                selection: Selection {
                    include: Vec::new(alloc),
                    exclude: Vec::new(alloc),
                    select: Vec::new(alloc),
                    ignore: Vec::new(alloc),
                    least: None,
                },
                changed: None,
                compares_scopes: true,
            },
            root: Root::none(alloc),
            baseline: None,
        }
    }

    /// Whether there is a filter.
    pub fn is_given(&self) -> bool
        ensures { result ≡ are_given self.now }
    {
        self.filters.unique
            || self.filters.changed.is_some()
            || self.baseline.is_some()
            || self.filters.selection.least.is_some()
            || has_patterns(&self.filters.selection)
    }

    /// Which findings the diff leaves; all without a diff.
    pub fn mode(&self) -> FilterMode
        ensures { result ≡ mode_of self.now }
    {
        match &self.filters.changed {
            Some(changed) => changed.mode,
            None => FilterMode::NoFilter,
        }
    }
}

/// Whether a selection has patterns.
fn has_patterns(selection: &Selection) -> bool
    ensures { result ≡ has_any selection.now }
{
    !selection.include.is_empty()
        || !selection.exclude.is_empty()
        || !selection.select.is_empty()
        || !selection.ignore.is_empty()
}
