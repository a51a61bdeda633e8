//! What a tool printed of a row of a source, laid over the source's own row.
ghost use Rattle.std.specs.Prelude.{◌≡◌, ◌+◌, ◌-◌, ◌*◌, ◌^◌, ◌≤◌, ◌<◌, IfOk, MatchBool};
ghost use Rattle.std.specs.Prelude.{MatchOption, length, min};
ghost use Rattle.std.specs.List.{list_all};
ghost use Rattle.std.specs.Option.{option_map};
ghost use Rattle.excerpt_rows.specs.Ends.{is_blank as blank};
ghost use Rattle.excerpt_rows.specs.Aligned.{OffsetsAreBoundaries, OffsetsAreWithin};
ghost use Rattle.excerpt_rows.specs.Aligned.{OffsetsAscend, aligned_parts, alignment_of, offset_in};
ghost use Rattle.excerpt_rows.specs.Alignment.{ColumnsAreRight, FirstLaid, HasNoAlignment};
ghost use Rattle.excerpt_rows.specs.Alignment.{IsAlignment, IsLaid, IsNoPart, IsNotLaid, IsOther};
ghost use Rattle.excerpt_rows.specs.Alignment.{IsPart, IsPrintedBy, IsWhole, NoneLaid, offset_at};
ghost use Rattle.excerpt_rows.specs.Alignment.{shifted};
ghost use Rattle.excerpt_rows.specs.Alignment.{spare as spare_blanks};

use crate::ends::{Edge, core_of, is_blank, leading};
use crate::expansion::{Hidden, Rule, Tabs, byte_len, expanded, is_plain, places_of};
use crate::search::only_place;
use std::alloc::{AllocError, Global};

/// The most characters of a row that is aligned.
pub const LIMIT: usize = 0x1_0000;

/// The rules by which a row may be printed otherwise than it is. The first that fits counts.
pub const RULES: [Rule; 24] = [
    Rule::Expanded(Tabs::Stops8, Hidden::Dropped),
    Rule::Expanded(Tabs::Stops8, Hidden::Pictured),
    Rule::Expanded(Tabs::Stops8, Hidden::Coded),
    Rule::Expanded(Tabs::Stops8, Hidden::Kept),
    Rule::Expanded(Tabs::Blanks4, Hidden::Dropped),
    Rule::Expanded(Tabs::Blanks4, Hidden::Pictured),
    Rule::Expanded(Tabs::Blanks4, Hidden::Coded),
    Rule::Expanded(Tabs::Blanks4, Hidden::Kept),
    Rule::Expanded(Tabs::Blanks1, Hidden::Dropped),
    Rule::Expanded(Tabs::Blanks1, Hidden::Pictured),
    Rule::Expanded(Tabs::Blanks1, Hidden::Coded),
    Rule::Expanded(Tabs::Blanks1, Hidden::Kept),
    Rule::Expanded(Tabs::Blanks2, Hidden::Dropped),
    Rule::Expanded(Tabs::Blanks2, Hidden::Pictured),
    Rule::Expanded(Tabs::Blanks2, Hidden::Coded),
    Rule::Expanded(Tabs::Blanks2, Hidden::Kept),
    Rule::Expanded(Tabs::Stops4, Hidden::Dropped),
    Rule::Expanded(Tabs::Stops4, Hidden::Pictured),
    Rule::Expanded(Tabs::Stops4, Hidden::Coded),
    Rule::Expanded(Tabs::Stops4, Hidden::Kept),
    Rule::Expanded(Tabs::ByteStops8, Hidden::Dropped),
    Rule::Expanded(Tabs::ByteStops8, Hidden::Pictured),
    Rule::Expanded(Tabs::ByteStops8, Hidden::Coded),
    Rule::Expanded(Tabs::ByteStops8, Hidden::Kept),
];

/// How a printed row lies over the expansion of a source's row: the character at `k` of the printed
/// row is the one at `k + skipped - lead` of the expansion.
#[derive(Clone, Copy)]
pub struct Shift {
    /// How many characters of the expansion come before the first that is printed.
    pub skipped: usize,
    /// How many characters of the printed row come before it.
    pub lead: usize,
}

/// A printed row that is a row of the source.
#[derive(Drop)]
pub struct Alignment {
    pub rule: Rule,
    pub shift: Shift,
    /// For each character of the expansion, the offset in bytes of the character of the source's
    /// row that it is printed for.
    pub places: Vec<usize>,
    /// The length of the source's row in bytes.
    pub end: usize,
}

/// How a printed row is the source's row: as it is, or else by the first of [`RULES`] by which it
/// is the row's expansion, but for blanks before it and at its end, or, if it was cut by `...`, a
/// part of it that is there exactly once. Rows of more than [`LIMIT`] characters aren't looked at.
///
/// For each rule it takes time in the length of both rows.
///
/// # Errors
///
/// Out of memory.
#[tactic(auto, unfolding(crate::specs::Expansion::rules))]
pub fn aligned(
    alloc: Global,
    printed: &[char],
    source: &[char],
) -> Result<Option<Alignment>, AllocError>
    ensures found { IfOk result (λ found.
        MatchOption found (HasNoAlignment printed.now source.now)
        (IsAlignment printed.now source.now)) }
    ensures value { IfOk result (λ found.
        option_map aligned_parts found ≡ alignment_of printed.now source.now) }
{
    if printed.len() > LIMIT || source.len() > LIMIT {
        return Ok(None);
    }
    let Some((rule, shift)) = rule_of(alloc, &RULES, printed, source)? else {
        return Ok(None);
    };
    Ok(Some(Alignment {
        rule,
        shift,
        places: places_of(alloc, rule, source)?,
        end: byte_len(source),
    }))
}

/// The rule by which a row is printed, and how far it is moved.
fn rule_of(
    alloc: Global,
    rules: &[Rule],
    printed: &[char],
    source: &[char],
) -> Result<Option<(Rule, Shift)>, AllocError>
    requires some { 0 < length rules.now }
    requires short { length source.now ≤ 2 ^ 20 }
    ensures { IfOk result (λ found. MatchOption found (IsOther rules.now printed.now source.now)
        (λ by. IsPrintedBy rules.now printed.now source.now by.0 by.1)) }
{
    if printed == source {
        let shift = Shift {
            skipped: 0,
            lead: 0,
        };
        return Ok(Some((Rule::Same, shift)));
    }
    if is_plain(source) {
        return first_laid(alloc, &rules[..1], printed, source);
    }
    first_laid(alloc, rules, printed, source)
}

/// The first of some rules by which a row is printed.
fn first_laid(
    alloc: Global,
    rules: &[Rule],
    printed: &[char],
    source: &[char],
) -> Result<Option<(Rule, Shift)>, AllocError>
    requires { length source.now ≤ 2 ^ 20 }
    ensures { IfOk result (λ found.
        MatchOption found (NoneLaid rules.now (length rules.now) printed.now source.now)
        (λ first. FirstLaid rules.now printed.now source.now first.0 first.1)) }
{
    for rule in rules {
        let text = expanded(alloc, *rule, source)?;
        if let Some(shift) = laid(alloc, printed, text.as_slice())? {
            return Ok(Some((*rule, shift)));
        }
    }
    Ok(None)
}

/// Where a printed row is in the expansion of a source's row.
fn laid(alloc: Global, printed: &[char], text: &[char]) -> Result<Option<Shift>, AllocError>
    ensures { IfOk result (λ found.
        MatchOption found (IsNotLaid printed.now text.now) (IsLaid printed.now text.now)) }
{
    let lead = spare(printed, text);
    if is_whole(printed, text, lead) {
        return Ok(Some(Shift { skipped: 0, lead }));
    }
    part(alloc, printed, text)
}

/// How many blanks a printed row has more in front than a text.
fn spare(printed: &[char], text: &[char]) -> usize
    ensures value { result ≡ spare_blanks printed.now text.now }
    ensures within { result ≤ length printed.now }
{
    leading(Edge::Blank, printed).saturating_sub(leading(Edge::Blank, text))
}

/// Whether a printed row, without `spare` blanks in front, is the text but for blanks at its end.
fn is_whole(printed: &[char], text: &[char], spare: usize) -> bool
    requires value { spare ≡ spare_blanks printed.now text.now }
    requires within { spare ≤ length printed.now }
    ensures { MatchBool result (IsWhole printed.now text.now) (IsWhole printed.now text.now → ⊥) }
{
    let row = &printed[spare..];
    if !text.starts_with(row) {
        return false;
    }
    are_blank(&text[row.len()..])
}

fn are_blank(text: &[char]) -> bool
    ensures { result ≡ list_all blank text.now }
{
    text.iter().all(|c| is_blank(*c))
}

/// Where the part of a text is that a printed row was cut to.
fn part(alloc: Global, printed: &[char], text: &[char]) -> Result<Option<Shift>, AllocError>
    ensures { IfOk result (λ found.
        MatchOption found (IsNoPart printed.now text.now) (IsPart printed.now text.now)) }
{
    let Some((start, end)) = core_of(printed) else {
        return Ok(None);
    };
    match only_place(alloc, &printed[start..end], text)? {
        Some(skipped) => Ok(Some(Shift {
            skipped,
            lead: start,
        })),
        None => Ok(None),
    }
}

impl Shift {
    /// The character of the expansion that a printed column is.
    fn at(self, column: usize) -> usize
        ensures { result ≡ min (shifted self column) (2 ^ 64 - 1) }
    {
        if self.lead <= self.skipped {
            column.saturating_add(self.skipped - self.lead)
        } else {
            column.saturating_sub(self.lead - self.skipped)
        }
    }
}

impl Alignment {
    /// The offset in bytes, in the source's row, of the character that the printed row has at a
    /// column, in characters from 0. Past the row it is the row's end.
    pub fn offset(&self, column: usize) -> usize
        ensures at { result ≡ offset_at self.now column }
        ensures value { result ≡ offset_in (aligned_parts self.now) column }
    {
        match self.places.get(self.shift.at(column)) {
            Some(offset) => *offset,
            None => self.end,
        }
    }
}

/// At the columns of a printed row that are of the source, [`Alignment::offset`] is the offset of
/// the source's character that is printed there.
pub fn columns_are_right()
    ensures { ColumnsAreRight }
{}

/// Each offset that [`Alignment::offset`] gives is at most the end of the source's row and between
/// two of its characters, and no later column has a smaller one.
pub fn offsets_are_right()
    ensures boundaries { OffsetsAreBoundaries }
    ensures within { OffsetsAreWithin }
    ensures ascend { OffsetsAscend }
{}
