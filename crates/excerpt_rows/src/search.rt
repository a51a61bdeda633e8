//! The one place of a text in another, found in a single pass.
ghost use Rattle.std.specs.Prelude.{◌≡◌, ◌<◌, ◌≤◌, ◌+◌, ◌-◌, IfOk, OnOk, MatchOption, length};
ghost use Rattle.std.specs.Prelude.{slice_index};
ghost use Rattle.excerpt_rows.specs.Search.{AreBorders, IsNext, IsOnlyPlace, HasNoOnlyPlace};

use std::alloc::{AllocError, Global};

/// Where `core` is in `text`, if it is there exactly once. It takes time in the length of both.
pub(crate) fn only_place(
    alloc: Global,
    core: &[char],
    text: &[char],
) -> Result<Option<usize>, AllocError>
    requires { 0 < length core.now }
    ensures { IfOk result (λ place.
        MatchOption place (HasNoOnlyPlace core.now text.now) (IsOnlyPlace core.now text.now)) }
{
    let borders = borders_of(alloc, core)?;
    let mut found = None;
    let mut matched = 0;
    for (k, c) in text.iter().enumerate() {
        matched = next(core, borders.as_slice(), matched, *c);
        if matched == core.len() {
            if found.is_some() {
                return Ok(None);
            }
            found = Some(k + 1 - core.len());
            matched = borders[core.len()];
        }
    }
    Ok(found)
}

/// For each beginning of `core`, by its length: the longest shorter one that it ends with.
fn borders_of(alloc: Global, core: &[char]) -> Result<Vec<usize>, AllocError>
    requires { 0 < length core.now }
    ensures { IfOk result (λ borders. AreBorders core.now borders.items (length core.now)) }
{
    let mut borders = vec![in alloc; 0, 0]?;
    let mut border = 0;
    for k in 1..core.len() {
        border = next(core, borders.as_slice(), border, core[k]);
        borders.push(border)?;
    }
    Ok(borders)
}

/// How much of `core` the text ends with after one more character, if it was `matched` before.
fn next(core: &[char], borders: &[usize], matched: usize, c: char) -> usize
    requires within { matched < length core.now }
    requires borders { AreBorders core.now borders.now matched }
    ensures { IsNext core.now matched c result }
{
    let mut end = matched;
    while core[end] != c {
        if end == 0 {
            return 0;
        }
        end = borders[end];
    }
    end + 1
}
