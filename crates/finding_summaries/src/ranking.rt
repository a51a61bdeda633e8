// Names by how often they occur.
ghost use Rattle.std.specs.Prelude.{◌≡◌, ◌+◌, ◌-◌, ◌++◌, ◌∷◌, ◌==◌, ◌<◌, ◌^◌, [], ℕ, List};
ghost use Rattle.std.specs.Prelude.{IfOk, OnOk, Some, cond, map};
ghost use Rattle.std.specs.Borrow.{Bor};
ghost use Rattle.std.specs.BTreeMap.{get};
ghost use Rattle.std.specs.Ordering.{is_eq};
ghost use Rattle.found_reports.specs.Names.{name_order};
ghost use Rattle.ci_formats.specs.Finding.{finding_parts};
ghost use Rattle.finding_summaries.specs.Ranking.{AreTallied, IsRanking, count_in};
ghost use Rattle.finding_summaries.specs.Ranking.{row_in, row_parts};
ghost use Rattle.finding_summaries.specs.Names.{file_of as file_named, rule_of as rule_named};

use ci_formats::Finding;
use std::alloc::{AllocError, Global};
use std::cmp::Reverse;
use std::collections::BTreeMap;

/// A name, and how often it occurs. Rows are ordered by their counts, greatest first, and by
/// their names.
#[derive(Drop, PartialEq, Eq, PartialOrd, Ord)]
pub(crate) struct Row<'a> {
    /// How often it occurs.
    pub count: Reverse<usize>,
    /// The name.
    pub name: &'a str,
}

/// The files of findings, by their numbers of findings.
pub(crate) fn ranked_files(alloc: Global, findings: &[Finding]) -> Result<Vec<Row<'_>>, AllocError>
    ensures { IfOk result (λ rows. IsRanking (map file_named (map finding_parts findings.now))
        (map row_parts rows.items)) }
{
    let mut names = Vec::with_capacity(alloc, findings.len())?;
    for finding in findings {
        names.push(file_of(finding))?;
    }
    ranked(alloc, &names)
}

/// The rules of findings, by their numbers of findings.
pub(crate) fn ranked_rules(alloc: Global, findings: &[Finding]) -> Result<Vec<Row<'_>>, AllocError>
    ensures { IfOk result (λ rows. IsRanking (map rule_named (map finding_parts findings.now))
        (map row_parts rows.items)) }
{
    let mut names = Vec::with_capacity(alloc, findings.len())?;
    for finding in findings {
        names.push(rule_of(finding))?;
    }
    ranked(alloc, &names)
}

/// The file of a finding, as summaries name it.
pub fn file_of(finding: &Finding) -> &str
    ensures { result.now ≡ file_named (finding_parts finding.now) }
{
    let name = finding.name.as_str();
    if name.is_empty() { "(no file)" } else { name }
}

/// The rule of a finding, as summaries name it: its code.
pub fn rule_of(finding: &Finding) -> &str
    ensures { result.now ≡ rule_named (finding_parts finding.now) }
{
    match &finding.code {
        Some(code) => code.as_str(),
        None => "(no rule)",
    }
}

/// The names, each once, by how often they occur.
fn ranked<'a>(alloc: Global, names: &[&'a str]) -> Result<Vec<Row<'a>>, AllocError>
    ensures { IfOk result (λ rows. IsRanking (map (λ it. it.now) names.now)
        (map row_parts rows.items)) }
{
    let mut rows = tallied(alloc, names)?;
    rows.sort()?;
    Ok(rows)
}

/// The names, each once, with how often they occur.
fn tallied<'a>(alloc: Global, names: &[&'a str]) -> Result<Vec<Row<'a>>, AllocError>
    ensures { IfOk result (λ rows. AreTallied (map (λ it. it.now) names.now)
        (map row_parts rows.items)) }
{
    let mut counts = BTreeMap::new(alloc);
    let mut each = Vec::new(alloc);
    for name in names {
        count_once(&mut counts, &mut each, *name)?;
    }
    rows_of(alloc, &counts, &each)
}

/// Counts a name once more, and appends it if it is the first of its kind.
fn count_once<'a>(
    counts: &mut BTreeMap<&'a str, usize>,
    each: &mut Vec<&'a str>,
    name: &'a str,
) -> Result<(), AllocError>
    requires room { count_in counts.old name < 2 ^ 64 - 1 }
    ensures counted { OnOk result ((other : Bor (List ℕ)) → get name_order counts.new other
        ≡ cond (is_eq (name_order name.entry other)) (Some (count_in counts.old name.entry + 1))
        (get name_order counts.old other)) }
    ensures each { OnOk result (map (λ it. it.now) each.new.items
        ≡ cond (count_in counts.old name.entry == 0)
        (map (λ it. it.now) each.old.items ++ name.entry.now ∷ [])
        (map (λ it. it.now) each.old.items)) }
{
    let before = counts.get(&name).copied().unwrap_or(0);
    counts.insert(name, before + 1)?;
    if before == 0 {
        each.push(name)?;
    }
    Ok(())
}

/// A row for each name.
fn rows_of<'a>(
    alloc: Global,
    counts: &BTreeMap<&'a str, usize>,
    each: &[&'a str],
) -> Result<Vec<Row<'a>>, AllocError>
    ensures { IfOk result (λ rows. map row_parts rows.items ≡ map (row_in counts.now) each.now) }
{
    let mut rows = Vec::with_capacity(alloc, each.len())?;
    for name in each {
        let count = Reverse(counts.get(name).copied().unwrap_or(0));
        rows.push(Row { count, name: *name })?;
    }
    Ok(rows)
}
