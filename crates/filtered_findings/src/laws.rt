// Laws of the definitions, as contracts of functions that do nothing.
ghost use Rattle.std.specs.Prelude.{◌≡◌, [], count_by, length, map};
ghost use Rattle.finding_filters.specs.Finding.{finding_parts};
ghost use Rattle.filtered_findings.specs.Counts.{is_verdict};
ghost use Rattle.filtered_findings.specs.Verdicts.{verdicts_of};
ghost use Rattle.filtered_findings.specs.declared.verdicts.Verdict.TheVariants.{InBaseline};

use crate::verdicts::Filters;
use finding_filters::FindingView;

/// Each finding is judged: what stays is a part of what was read, in order and unchanged.
pub fn each_is_judged(_filters: &Filters, _found: &[FindingView<'_>], _old: &[FindingView<'_>])
    ensures { length (verdicts_of _filters.now (map finding_parts _found.now)
        (map finding_parts _old.now)) ≡ length _found.now }
{}

/// An empty baseline takes no finding.
pub fn nothing_takes_nothing(_filters: &Filters, _found: &[FindingView<'_>])
    ensures { count_by (λ it. is_verdict InBaseline it) (verdicts_of _filters.now
        (map finding_parts _found.now) []) ≡ 0 }
{}
