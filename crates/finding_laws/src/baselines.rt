// Laws of baselines and of what filters leave.
ghost use Rattle.std.specs.Prelude.{◌≡◌, ◌⊎◌, ℕ, ◌≤◌, ◌++◌, Bool, IsPermutation, List, count_by};
ghost use Rattle.std.specs.Prelude.{false, map};
ghost use Rattle.found_reports.specs.Kept.{FoundParts};
ghost use Rattle.finding_filters.specs.Finding.{finding_parts};
ghost use Rattle.filtered_findings.specs.Counts.{is_verdict};
ghost use Rattle.filtered_findings.specs.Verdicts.{verdicts_of};
ghost use Rattle.filtered_findings.specs.declared.verdicts.Verdict.TheVariants.{Stays};
ghost use Rattle.report_filters.specs.Filtered.{IsLeft};
ghost use Rattle.report_filters.specs.declared.rules.Rules.{Rules};
ghost use Rattle.finding_laws.specs.Baselines.Findings.{IsOwn, once_in};
ghost use Rattle.finding_laws.specs.Baselines.Late.{HaveNoRows, HaveRows, IsLesser, TakeLateLast};
ghost use Rattle.finding_laws.specs.Baselines.Late.{TakeTheRest, is_in, is_late_in, is_late_of};
ghost use Rattle.finding_laws.specs.Baselines.Late.{is_of};
ghost use Rattle.finding_laws.specs.Baselines.Parts.{IsPartOf};

use filtered_findings::Filters;
use finding_filters::FindingView;

/// A baseline that has an entry for each finding leaves nothing, whichever of the two lacks the
/// texts of rows.
pub fn own_baseline_leaves_nothing(
    _filters: &Filters,
    _found: &[FindingView<'_>],
    _old: &[FindingView<'_>],
)
    ensures { IsOwn _filters.now (map finding_parts _found.now) (map finding_parts _old.now)
        → count_by (λ it. is_verdict Stays it) (verdicts_of _filters.now
        (map finding_parts _found.now) (map finding_parts _old.now)) ≡ 0 }
{}

/// With more entries after those of a baseline, never more is left.
pub fn longer_baseline_leaves_no_more(
    _filters: &Filters,
    _found: &[FindingView<'_>],
    _old: &[FindingView<'_>],
    _more: &[FindingView<'_>],
)
    ensures { count_by (λ it. is_verdict Stays it) (verdicts_of _filters.now
        (map finding_parts _found.now)
        (map finding_parts _old.now ++ map finding_parts _more.now))
        ≤ count_by (λ it. is_verdict Stays it) (verdicts_of _filters.now
        (map finding_parts _found.now) (map finding_parts _old.now)) }
{}

/// The order of a baseline is no matter. Where repetitions are left out, that of the entries that
/// count isn't.
pub fn order_changes_nothing(
    _filters: &Filters,
    _found: &[FindingView<'_>],
    _old: &[FindingView<'_>],
    _others: &[FindingView<'_>],
)
    ensures all { _filters.now.unique ≡ false
        → IsPermutation (map finding_parts _old.now) (map finding_parts _others.now)
        → verdicts_of _filters.now (map finding_parts _found.now) (map finding_parts _old.now)
        ≡ verdicts_of _filters.now (map finding_parts _found.now) (map finding_parts _others.now) }
    ensures once { IsPermutation (once_in _filters.now (map finding_parts _old.now))
        (once_in _filters.now (map finding_parts _others.now))
        → verdicts_of _filters.now (map finding_parts _found.now) (map finding_parts _old.now)
        ≡ verdicts_of _filters.now (map finding_parts _found.now) (map finding_parts _others.now) }
{}

/// With a baseline and a diff: on changed rows as many findings are new as there are more than
/// entries, or else all of them. Of each kind if no finding or no entry knows its row; of each kind
/// and row if each entry does.
pub fn the_lesser_is_new(_filters: &Filters, _found: &[FindingView<'_>], _old: &[FindingView<'_>])
    ensures without_rows { (kind : List ℕ) → HaveNoRows (map finding_parts _found.now)
        ⊎ HaveNoRows (map finding_parts _old.now)
        → IsLesser _filters.now (is_late_of _filters.now kind) (is_of _filters.now kind)
        (map finding_parts _found.now) (map finding_parts _old.now) }
    ensures with_rows { (class : List ℕ) → HaveRows (map finding_parts _old.now)
        → IsLesser _filters.now (is_late_in _filters.now class) (is_in _filters.now class)
        (map finding_parts _found.now) (map finding_parts _old.now) }
{}

/// If some entries know their row: of each kind the others take of what those leave, and findings
/// on changed rows last.
pub fn late_are_taken_last(_filters: &Filters, _found: &[FindingView<'_>], _old: &[FindingView<'_>])
    ensures all { (kind : List ℕ) → _filters.now.unique ≡ false → TakeTheRest _filters.now kind
        (map finding_parts _found.now) (map finding_parts _old.now) }
    ensures late { (kind : List ℕ) → _filters.now.unique ≡ false → TakeLateLast _filters.now kind
        (map finding_parts _found.now) (map finding_parts _old.now) }
{}

/// What filters leave of reports is a part of them, in order and unchanged.
pub fn what_is_left_was_read()
    ensures { (rules : Rules) (notes : Bool) (parts left : FoundParts) (line : List ℕ)
        → IsLeft rules notes parts left line → IsPartOf left.found parts.found }
{}
