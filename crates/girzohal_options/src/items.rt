//! What arguments say: an option takes the next argument as its value.
ghost use Rattle.std.specs.Prelude.{◌≡◌, ◌∷◌, ◌≤◌, ◌++◌, IfOk, OnOk, length, map, string_bytes};
ghost use Rattle.escapes.specs.Cuts.{cut_at};
ghost use Rattle.girzohal_options.specs.Said.{file as file_said, is_file as is_no_option};
ghost use Rattle.girzohal_options.specs.Said.{kind as kind_said, kind_of as kind_meant};
ghost use Rattle.girzohal_options.specs.Said.{parted as said_parted};
ghost use Rattle.girzohal_options.specs.Said.{said, said_behind, said_by};

use crate::table::{Program, Setting, is_flag, setting_named};
use escapes::cut;
use std::alloc::{AllocError, Global};

/// What an argument says, together with the next one if that is its value.
#[derive(Clone, Copy)]
pub(crate) enum Item<'w> {
    /// An option without a value.
    Flag(&'w str),
    /// An option and its value.
    Given(Setting, &'w str),
    /// The name of a file.
    File(&'w str),
    /// The name of an unknown option.
    Unknown(&'w str),
    /// An option whose value is missing.
    Bare(Setting),
    /// An option that takes no value, with one.
    Valued(&'w str, &'w str),
}

/// What an argument is.
#[derive(Drop)]
pub(crate) enum Kind<'w> {
    /// An option that takes the next argument as its value.
    Takes(Setting),
    /// An item of its own.
    Says(Item<'w>),
}

/// An item, and the arguments after it.
#[derive(Drop)]
struct Read<'w> {
    item: Item<'w>,
    rest: &'w [String],
}

/// The items that arguments say; after `--` all are names of files.
pub(crate) fn items_of<'w>(
    alloc: Global,
    program: Program,
    words: &'w [String],
) -> Result<Vec<Item<'w>>, AllocError>
    ensures { IfOk result (λ items. map said items.items
        ≡ said_by program (map string_bytes words.now)) }
{
    let mut items = Vec::new(alloc);
    let mut rest = words;
    while let [word, more @ ..] = rest {
        if word.as_str() == "--" {
            push_files(&mut items, more)?;
            return Ok(items);
        }
        let read = read_item(program, kind_of(program, word.as_str()), more);
        items.push(read.item)?;
        rest = read.rest;
    }
    Ok(items)
}

/// Appends names of files.
fn push_files<'w>(items: &mut Vec<Item<'w>>, names: &'w [String]) -> Result<(), AllocError>
    ensures { OnOk result (map said items.new.items ≡ map said items.old.items
        ++ map (λ name. file_said name) (map string_bytes names.now)) }
{
    for name in names {
        items.push(Item::File(name.as_str()))?;
    }
    Ok(())
}

/// The item that begins with an argument of this kind, and the arguments after it.
fn read_item<'w>(_program: Program, kind: Kind<'w>, rest: &'w [String]) -> Read<'w>
    ensures said { said_behind _program (kind_said kind.entry) (map string_bytes rest.now)
        ≡ said result.item ∷ said_by _program (map string_bytes result.rest.now) }
    ensures fewer { length result.rest.now ≤ length rest.now }
{
    match kind {
        Kind::Says(item) => Read { item, rest },
        Kind::Takes(setting) => match rest {
            [value, more @ ..] => Read {
                item: Item::Given(setting, value.as_str()),
                rest: more,
            },
            [] => Read {
                item: Item::Bare(setting),
                rest,
            },
        },
    }
}

/// What an argument is.
#[tactic(auto, unfolding(crate::specs::Said::kind_of))]
fn kind_of(program: Program, word: &str) -> Kind<'_>
    ensures { kind_said result ≡ kind_meant program word.now }
{
    if is_file(word) {
        Kind::Says(Item::File(word))
    } else if is_flag(program, word) {
        Kind::Says(Item::Flag(word))
    } else {
        match setting_named(program, word) {
            Some(setting) => Kind::Takes(setting),
            None => Kind::Says(parted(program, word)),
        }
    }
}

/// An argument that is an option, an equals sign and a value; or an unknown option.
fn parted(program: Program, word: &str) -> Item<'_>
    ensures { said result ≡ said_parted program word.now (cut_at 0x3D word.now) }
{
    let Some((name, value)) = cut(word, '=') else {
        return Item::Unknown(word);
    };
    match setting_named(program, name) {
        Some(setting) => Item::Given(setting, value),
        None if is_flag(program, name) => Item::Valued(name, value),
        None => Item::Unknown(name),
    }
}

/// Whether an argument doesn't begin with a hyphen, or is just a hyphen.
fn is_file(word: &str) -> bool
    ensures { result ≡ is_no_option word.now }
{
    match word.as_bytes() {
        [first, _next, ..] => *first != b'-',
        _ => true,
    }
}
