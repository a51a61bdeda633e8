// Laws of the definitions, as contracts of functions that do nothing.
ghost use Rattle.std.specs.Prelude.{◌≡◌, ℕ, List, Option, true};
ghost use Rattle.changed_rows.specs.Changes.{Says};
ghost use Rattle.changed_rows.specs.Reading.{seen_in};
ghost use Rattle.finding_filters.specs.Changed.{is_changed};
ghost use Rattle.finding_filters.specs.Finding.{finding_parts};
ghost use Rattle.finding_filters.specs.declared.changed.FilterMode.TheVariants.{Added};
ghost use Rattle.finding_filters.specs.declared.changed.FilterMode.TheVariants.{DiffContext, File};
ghost use Rattle.finding_filters.specs.declared.changed.FilterMode.TheVariants.{NoFilter};

use changed_rows::Diff;
use finding_filters::FindingView;

/// What a diff that was read leaves of findings on added rows, it leaves of those on rows that it
/// shows.
pub fn added_is_shown(_diff: &Diff, _finding: &FindingView<'_>)
    ensures { (strip : Option ℕ) (text : List ℕ) → Says _diff.now (seen_in strip text)
        → is_changed _diff.now Added (finding_parts _finding.now) ≡ true
        → is_changed _diff.now DiffContext (finding_parts _finding.now) ≡ true }
{}

/// What it leaves of these, it leaves by files; and without a filter it leaves all.
pub fn shown_is_in_a_file(_diff: &Diff, _finding: &FindingView<'_>)
    ensures file { is_changed _diff.now DiffContext (finding_parts _finding.now) ≡ true
        → is_changed _diff.now File (finding_parts _finding.now) ≡ true }
    ensures all { is_changed _diff.now NoFilter (finding_parts _finding.now) ≡ true }
{}
