// Which findings were asked for.
ghost use Rattle.std.specs.Prelude.{◌≡◌, IfOk};
ghost use Rattle.std.specs.List.{list_any};
ghost use Rattle.std.specs.Str.{chars};
ghost use Rattle.finding_filters.specs.Finding.{finding_parts};
ghost use Rattle.finding_filters.specs.Patterns.{glob_takes, rule_takes};
ghost use Rattle.finding_filters.specs.Selection.{in_files as is_in_files, in_rules as is_in_rules};
ghost use Rattle.finding_filters.specs.Selection.{is_selected, rank as rank_of, reaches as is_at_least};

use crate::finding::FindingView;
use crate::patterns::{Glob, Rule};
use oxc_protocol::Severity;
use std::alloc::{AllocError, Global};

/// Which findings were asked for, by file, rule and severity. A finding without a file passes the
/// patterns of files.
#[derive(Drop)]
pub struct Selection {
    /// Their files; all without a pattern.
    pub include: Vec<Glob>,
    /// Files that were left out.
    pub exclude: Vec<Glob>,
    /// Their rules; all without a pattern.
    pub select: Vec<Rule>,
    /// Rules that were left out.
    pub ignore: Vec<Rule>,
    /// The lowest severity.
    pub least: Option<Severity>,
}

impl Selection {
    /// All findings.
    pub fn all(alloc: Global) -> Selection {
        Selection {
            include: Vec::new(alloc),
            exclude: Vec::new(alloc),
            select: Vec::new(alloc),
            ignore: Vec::new(alloc),
            least: None,
        }
    }

    /// Whether a finding was asked for.
    ///
    /// # Errors
    ///
    /// Out of memory.
    #[tactic(auto, unfolding(crate::specs::Selection::is_selected))]
    pub fn takes(&self, alloc: Global, finding: &FindingView<'_>) -> Result<bool, AllocError>
        ensures { IfOk result (λ is. is ≡ is_selected self.now (finding_parts finding.now)) }
    {
        Ok(
            reaches(self.least, finding.severity)
                && self.in_files(alloc, finding.file)?
                && self.in_rules(alloc, finding.scope, finding.code)?,
        )
    }

    fn in_files(&self, alloc: Global, file: &str) -> Result<bool, AllocError>
        ensures { IfOk result (λ is. is ≡ is_in_files self.now file.now) }
    {
        if file.is_empty() {
            return Ok(true);
        }
        if !self.include.is_empty() && !any_glob(alloc, &self.include, file)? {
            return Ok(false);
        }
        Ok(!any_glob(alloc, &self.exclude, file)?)
    }

    fn in_rules(&self, alloc: Global, scope: &str, code: &str) -> Result<bool, AllocError>
        ensures { IfOk result (λ is. is ≡ is_in_rules self.now scope.now code.now) }
    {
        if !self.select.is_empty() && !any_rule(alloc, &self.select, scope, code)? {
            return Ok(false);
        }
        Ok(!any_rule(alloc, &self.ignore, scope, code)?)
    }
}

/// Whether one of these patterns takes a file.
fn any_glob(alloc: Global, globs: &[Glob], file: &str) -> Result<bool, AllocError>
    ensures { IfOk result (λ is. is ≡ list_any (λ glob. glob_takes glob (chars file.now)) globs.now) }
{
    for glob in globs {
        if glob.takes(alloc, file)? {
            return Ok(true);
        }
    }
    Ok(false)
}

/// Whether one of these patterns takes a rule.
fn any_rule(alloc: Global, rules: &[Rule], scope: &str, code: &str) -> Result<bool, AllocError>
    ensures { IfOk result (λ is. is ≡ list_any (λ rule. rule_takes rule scope.now code.now) rules.now) }
{
    for rule in rules {
        if rule.takes(alloc, scope, code)? {
            return Ok(true);
        }
    }
    Ok(false)
}

/// Whether a severity is at or above the lowest one, if there is one.
fn reaches(least: Option<Severity>, severity: Severity) -> bool
    ensures { result ≡ is_at_least least severity }
{
    match least {
        None => true,
        Some(least) => rank(least) <= rank(severity),
    }
}

fn rank(severity: Severity) -> u8
    ensures { result ≡ rank_of severity }
{
    match severity {
        Severity::Advice => 1,
        Severity::Warning => 2,
        Severity::Error => 3,
    }
}
