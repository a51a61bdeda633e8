// What becomes of one finding.
ghost use Rattle.std.specs.Prelude.{◌≡◌, IfOk};
ghost use Rattle.finding_filters.specs.Finding.{finding_parts};
ghost use Rattle.finding_filters.specs.Texts.{exact_text};
ghost use Rattle.filtered_findings.specs.Repeats.{seen_in};
ghost use Rattle.filtered_findings.specs.Verdicts.{is_left, next_verdict, verdict_of};

use crate::repeats::Earlier;
use finding_filters::{Changed, FindingView, Selection};
use std::alloc::{AllocError, Global};

/// What becomes of a finding.
#[derive(Clone, Copy)]
pub enum Verdict {
    /// It stays.
    Stays,
    /// It was there before.
    Twice,
    /// The baseline has it.
    InBaseline,
    /// It wasn't asked for.
    NotSelected,
    /// The diff doesn't leave it.
    NotChanged,
}

/// Filters, in the order in which they take findings; a baseline comes after the first.
#[derive(Drop)]
pub struct Filters {
    /// Whether repetitions are left out.
    pub unique: bool,
    /// Which findings were asked for.
    pub selection: Selection,
    /// What a diff leaves.
    pub changed: Option<Changed>,
    /// Whether a baseline compares the scopes of codes.
    pub compares_scopes: bool,
}

impl Filters {
    /// What becomes of a finding by the selection and the diff.
    ///
    /// # Errors
    ///
    /// Out of memory.
    #[tactic(auto, unfolding(crate::specs::Verdicts::verdict_of))]
    pub fn judge(&self, alloc: Global, finding: &FindingView<'_>) -> Result<Verdict, AllocError>
        ensures { IfOk result (λ it. it ≡ verdict_of self.now (finding_parts finding.now)) }
    {
        if !self.selection.takes(alloc, finding)? {
            Ok(Verdict::NotSelected)
        } else if !self.leaves(finding) {
            Ok(Verdict::NotChanged)
        } else {
            Ok(Verdict::Stays)
        }
    }

    /// What becomes of the next finding by all filters but a baseline.
    ///
    /// # Errors
    ///
    /// Out of memory.
    pub fn judge_next(
        &self,
        alloc: Global,
        earlier: &mut Earlier,
        finding: &FindingView<'_>,
    ) -> Result<Verdict, AllocError>
        ensures { IfOk result (λ it. it ≡ next_verdict self.now (seen_in earlier.old.texts)
            (finding_parts finding.now)) }
    {
        if self.unique && earlier.meets(alloc, finding)? {
            Ok(Verdict::Twice)
        } else {
            Ok(self.judge(alloc, finding)?)
        }
    }

    /// Whether the diff leaves a finding; without a diff all stay.
    pub(crate) fn leaves(&self, finding: &FindingView<'_>) -> bool
        ensures { result ≡ is_left self.now (finding_parts finding.now) }
    {
        match &self.changed {
            Some(changed) => changed.leaves(finding),
            None => true,
        }
    }
}
