// What a baseline has of findings.
ghost use Rattle.std.specs.Prelude.{◌≡◌, ◌-◌, ◌<◌, ◌^◌, ℕ, List, [], map, nat_lt, unwrap_or, IfOk, OnOk};
ghost use Rattle.std.specs.BTreeMap.{get_by_text};
ghost use Rattle.std.specs.Option.{option_copied};
ghost use Rattle.finding_filters.specs.Baseline.{asked as asked_for, asks as asks_for, counted};
ghost use Rattle.finding_filters.specs.Baseline.{counted_by, item_parts, known as known_in, left_by};
ghost use Rattle.finding_filters.specs.Baseline.{left_in, less, less_if, more, none_left, offers, one_of};
ghost use Rattle.finding_filters.specs.Baseline.{passed, same as are_same, taken_away, taken_by};
ghost use Rattle.finding_filters.specs.Baseline.{turned};

use std::alloc::{AllocError, Global};
use std::collections::BTreeMap;

/// What is compared of a finding, or of an entry of the baseline.
#[derive(Drop)]
pub struct Item {
    /// Its kind: equal for findings that are alike.
    pub kind: String,
    /// Its kind and the text of its row, if that is known.
    pub class: Option<String>,
    /// Whether its turn comes after the others'.
    pub late: bool,
}

/// Which entries findings take.
#[derive(Clone, Copy)]
pub enum Round {
    /// Findings with a row take entries with an equal one.
    SameRow,
    /// Findings without a row take entries with one.
    NoRow,
    /// The others take entries without a row.
    Rest,
}

/// For each finding, whether it is taken already, or the baseline has an entry for it: in each
/// round those that aren't late first, each in order, one entry each.
pub fn known(
    alloc: Global,
    items: &[Item],
    taken: &[bool],
    entries: &[Item],
) -> Result<Vec<bool>, AllocError>
    ensures { IfOk result (λ flags. flags.items
        ≡ known_in (map item_parts items.now) taken.now (map item_parts entries.now)) }
{
    let mut rows = counts_of(alloc, Round::SameRow, entries)?;
    let mut others = counts_of(alloc, Round::NoRow, entries)?;
    let mut without = counts_of(alloc, Round::Rest, entries)?;
    let first = turns(alloc, Round::SameRow, items, taken, &mut rows)?;
    take_away(&mut others, items, taken, &first);
    let second = turns(alloc, Round::NoRow, items, &first, &mut others)?;
    let third = turns(alloc, Round::Rest, items, &second, &mut without)?;
    Ok(third)
}

/// How many entries there are for each class in a round.
fn counts_of(
    alloc: Global,
    round: Round,
    entries: &[Item],
) -> Result<BTreeMap<String, usize>, AllocError>
    ensures { IfOk result (λ counts. left_in counts
        ≡ counted none_left (map (offers round) (map item_parts entries.now))) }
{
    let mut counts = BTreeMap::new(alloc);
    for entry in entries {
        count(alloc, &mut counts, offered(round, entry))?;
    }
    Ok(counts)
}

/// Counts an entry, if it has a class.
fn count(
    alloc: Global,
    counts: &mut BTreeMap<String, usize>,
    class: Option<&str>,
) -> Result<(), AllocError>
    requires { (q : List ℕ) → left_in counts.old q < 2 ^ 63 }
    ensures { OnOk result (left_in counts.new
        ≡ counted_by (left_in counts.old) (option_copied class.entry)) }
{
    match class {
        Some(class) => add(alloc, counts, class),
        None => Ok(()),
    }
}

/// Counts one more.
fn add(alloc: Global, counts: &mut BTreeMap<String, usize>, class: &str) -> Result<(), AllocError>
    requires { left_in counts.old class.now < 2 ^ 63 }
    ensures { OnOk result (left_in counts.new ≡ more (left_in counts.old) class.now) }
{
    let count = counts.get(class).copied().unwrap_or(0);
    let key = String::from_str(alloc, class)?;
    counts.insert(key, count + 1)?;
    Ok(())
}

/// The class in which an entry can be taken in a round.
fn offered(round: Round, entry: &Item) -> Option<&str>
    ensures { option_copied result ≡ offers round (item_parts entry.now) }
{
    match (round, &entry.class) {
        (Round::SameRow, Some(class)) => Some(class.as_str()),
        (Round::NoRow, Some(_)) | (Round::Rest, None) => Some(entry.kind.as_str()),
        (Round::SameRow | Round::NoRow, None) | (Round::Rest, Some(_)) => None,
    }
}

/// The class of which a finding takes an entry in a round.
fn asked(round: Round, item: &Item) -> Option<&str>
    ensures { option_copied result ≡ asked_for round (item_parts item.now) }
{
    match (round, &item.class) {
        (Round::SameRow, Some(class)) => Some(class.as_str()),
        (Round::NoRow, None) | (Round::Rest, _) => Some(item.kind.as_str()),
        (Round::SameRow, None) | (Round::NoRow, Some(_)) => None,
    }
}

/// Takes an entry of a class, if there is one.
fn serve(counts: &mut BTreeMap<String, usize>, class: &str) -> bool
    ensures served { result ≡ nat_lt 0 (left_in counts.old class.now) }
    ensures left { left_in counts.new ≡ less (left_in counts.old) class.now }
{
    serve_one(counts, class)
}

fn serve_one(counts: &mut BTreeMap<String, usize>, class: &str) -> bool
    ensures served { result ≡ nat_lt 0 (unwrap_or (get_by_text counts.old class.now) 0) }
    ensures left { (q : List ℕ) → unwrap_or (get_by_text counts.new q) 0
        ≡ unwrap_or (get_by_text counts.old q) 0 - one_of class.now q }
{
    let Some(count) = counts.get_mut(class) else {
        return false;
    };
    if *count == 0 {
        return false;
    }
    *count -= 1;
    true
}

/// A round: those that aren't late, and then those that are.
fn turns(
    alloc: Global,
    round: Round,
    items: &[Item],
    taken: &[bool],
    counts: &mut BTreeMap<String, usize>,
) -> Result<Vec<bool>, AllocError>
    ensures { IfOk result (λ flags. flags.items
        ≡ turned round (map item_parts items.now) taken.now (left_in counts.old)) }
{
    let early = pass(alloc, round, false, items, taken, counts)?;
    let late = pass(alloc, round, true, items, &early, counts)?;
    Ok(late)
}

/// The turn of those that are late, or of the others.
fn pass(
    alloc: Global,
    round: Round,
    late: bool,
    items: &[Item],
    taken: &[bool],
    counts: &mut BTreeMap<String, usize>,
) -> Result<Vec<bool>, AllocError>
    ensures { IfOk result (λ flags. (record { taken = flags.items; left = left_in counts.new })
        ≡ passed round late [] (map item_parts items.now) taken.now (left_in counts.old)) }
{
    let mut flags = Vec::new(alloc);
    let mut rest = items;
    let mut before = taken;
    while let [item, others @ ..] = rest {
        let [flag, more @ ..] = before else {
            return Ok(flags);
        };
        flags.push(turn(round, late, item, *flag, counts))?;
        rest = others;
        before = more;
    }
    Ok(flags)
}

/// Whether a finding is taken after its turn.
fn turn(
    round: Round,
    late: bool,
    item: &Item,
    flag: bool,
    counts: &mut BTreeMap<String, usize>,
) -> bool
    ensures taken { result ≡ taken_by (left_in counts.old) flag
        (asks_for round late (item_parts item.now) flag) }
    ensures left { left_in counts.new ≡ left_by (left_in counts.old)
        (asks_for round late (item_parts item.now) flag) }
{
    match asks(round, late, item, flag) {
        Some(class) => serve(counts, class),
        None => flag,
    }
}

/// What a finding asks for in a turn; nothing if it is taken, or not in turn.
fn asks(round: Round, late: bool, item: &Item, flag: bool) -> Option<&str>
    ensures { option_copied result ≡ asks_for round late (item_parts item.now) flag }
{
    if flag || !same(item.late, late) {
        None
    } else {
        asked(round, item)
    }
}

fn same(a: bool, b: bool) -> bool
    ensures { result ≡ are_same a b }
{
    if a { b } else { !b }
}

/// Takes away an entry of the kind of each finding that was taken in a round.
fn take_away(counts: &mut BTreeMap<String, usize>, items: &[Item], before: &[bool], after: &[bool])
    ensures { left_in counts.new ≡ taken_away (left_in counts.old) (map item_parts items.now)
        before.now after.now }
{
    let mut rest = items;
    let mut before = before;
    let mut after = after;
    while let [item, others @ ..] = rest {
        let [was, earlier @ ..] = before else {
            return;
        };
        let [is, later @ ..] = after else {
            return;
        };
        serve_if(counts, !*was && *is, item.kind.as_str());
        rest = others;
        before = earlier;
        after = later;
    }
}

/// Takes an entry of a class, if it is to be taken and there is one.
fn serve_if(counts: &mut BTreeMap<String, usize>, is: bool, class: &str)
    ensures { left_in counts.new ≡ less_if (left_in counts.old) is class.now }
{
    if is {
        let _served = serve(counts, class);
    }
}
