//! Which options make no sense together.
ghost use Rattle.std.specs.Prelude.{◌≡◌, ◌++◌, IfOk, OnOk, codes, is_some, map, option_map};
ghost use Rattle.std.specs.List.{flat_map, list_any};
ghost use Rattle.std.specs.Option.{option_copied};
ghost use Rattle.girzohal_options.specs.Given.{given_with, last_text, nothing, wrong};
ghost use Rattle.girzohal_options.specs.Lists.{listed, output_by};
ghost use Rattle.girzohal_options.specs.Said.{file_named as file_said, said};
ghost use Rattle.girzohal_options.specs.Names.{setting_name};
ghost use Rattle.girzohal_options.specs.Together.{can_be_json as json_so, can_count as counts_so};
ghost use Rattle.girzohal_options.specs.Together.{first_twice as twice_first, is_given};
ghost use Rattle.girzohal_options.specs.Together.{is_stdin as is_stdin_named, names_file as file_is_named};
ghost use Rattle.girzohal_options.specs.Together.{reads_stdin as stdin_read, to_stdout};
ghost use Rattle.girzohal_options.specs.Together.{reads_twice as stdin_read_twice};
ghost use Rattle.girzohal_options.specs.Together.{stdin_twice as stdin_named_twice};
ghost use Rattle.girzohal_options.specs.Together.{wrong_together as wrong_so};

use crate::given::{Fault, Taken};
use crate::items::Item;
use crate::lists::{file_named, output_of, value_of};
use crate::reading::form_in;
use crate::table::{Program, Setting, is_among};
use crate::{InputForm, OutputForm};
use line_shapes::tables::Unit;
use std::alloc::{AllocError, Global};

/// What makes no sense together in items that are right by themselves.
#[tactic(auto, using(crate::proofs::GivenLemmas::nothing_before), unfolding(crate::specs::Given::given_with))]
pub(crate) fn wrong_together<'w>(
    alloc: Global,
    program: Program,
    items: &[Item<'w>],
    taken: &Taken<'w>,
) -> Result<Option<Fault<'w>>, AllocError>
    requires given { taken.now.given ≡ given_with nothing (map said items.now) }
    requires tool { option_copied taken.now.tool ≡ last_text (codes "--tool") (map said items.now) }
    requires changed { option_copied taken.now.changed
        ≡ last_text (codes "--changed") (map said items.now) }
    requires baseline { option_copied taken.now.baseline
        ≡ last_text (codes "--baseline") (map said items.now) }
    requires json { option_copied taken.now.json_shapes
        ≡ last_text (codes "--json-shapes") (map said items.now) }
    ensures { IfOk result (λ fault. option_map wrong fault
        ≡ wrong_so program (map said items.now)) }
{
    let given = taken.given;
    let from = form_in(alloc, program, given.from, taken.tool)?;
    if !can_count(from, given.columns) {
        return Ok(Some(Fault::Uncounted));
    }
    if !can_be_json(from) && gives(items, Setting::JsonShape) {
        return Ok(Some(Fault::NoJson(Setting::JsonShape)));
    }
    if !can_be_json(from) && taken.json_shapes.is_some() {
        return Ok(Some(Fault::NoJson(Setting::JsonShapes)));
    }
    if given.filter_mode.is_some() && taken.changed.is_none() {
        return Ok(Some(Fault::WithoutDiff(Setting::FilterMode)));
    }
    if given.strip.is_some() && taken.changed.is_none() {
        return Ok(Some(Fault::WithoutDiff(Setting::Strip)));
    }
    let written = written_in(alloc, given.to, items)?;
    if let Some(path) = first_twice(&written) {
        return Ok(Some(Fault::WrittenTwice(path)));
    }
    if reads_twice(items, taken) {
        return Ok(Some(Fault::ReadTwice));
    }
    Ok(None)
}

/// Whether the columns of an input can count a unit: those of a SARIF log don't count bytes or
/// cells.
fn can_count(form: InputForm, unit: Option<Unit>) -> bool
    ensures { result ≡ counts_so form unit }
{
    match (form, unit) {
        (InputForm::Sarif, Some(Unit::Bytes | Unit::Cells)) => false,
        _ => true,
    }
}

/// What is written: standard output for `--to`, and the outputs.
fn written_in<'w>(
    alloc: Global,
    to: Option<OutputForm>,
    items: &[Item<'w>],
) -> Result<Vec<&'w str>, AllocError>
    ensures { IfOk result (λ paths. map (λ it. it.now) paths.items
        ≡ to_stdout (is_some to)
        ++ flat_map (λ it. listed (option_map (λ output. output.1) (output_by it))) (map said items.now)) }
{
    let mut paths = Vec::new(alloc);
    if to.is_some() {
        paths.push("-")?;
    }
    for item in items {
        if let Some((_, path)) = output_of(*item) {
            paths.push(path)?;
        }
    }
    Ok(paths)
}

/// The first text that comes again.
fn first_twice<'w>(texts: &[&'w str]) -> Option<&'w str>
    ensures { option_copied result ≡ twice_first (map (λ it. it.now) texts.now) }
{
    let mut rest = texts;
    while let [text, more @ ..] = rest {
        if is_among(more, text) {
            return Some(*text);
        }
        rest = more;
    }
    None
}

/// Whether an input may be JSON of a tool.
fn can_be_json(form: InputForm) -> bool
    ensures { result ≡ json_so form }
{
    match form {
        InputForm::Auto | InputForm::Json => true,
        InputForm::Document | InputForm::Sarif | InputForm::Lines => false,
    }
}

/// Whether an option is given.
fn gives(items: &[Item<'_>], setting: Setting) -> bool
    ensures { result ≡ is_given (setting_name setting) (map said items.now) }
{
    let mut rest = items;
    while let [item, more @ ..] = rest {
        if value_of(*item, setting).is_some() {
            return true;
        }
        rest = more;
    }
    false
}

/// Whether standard input is read twice.
fn reads_twice(items: &[Item<'_>], taken: &Taken<'_>) -> bool
    requires changed { option_copied taken.now.changed
        ≡ last_text (codes "--changed") (map said items.now) }
    requires baseline { option_copied taken.now.baseline
        ≡ last_text (codes "--baseline") (map said items.now) }
    requires json { option_copied taken.now.json_shapes
        ≡ last_text (codes "--json-shapes") (map said items.now) }
    ensures { result ≡ stdin_read_twice (map said items.now) }
{
    let changed = is_stdin(taken.changed);
    let baseline = is_stdin(taken.baseline);
    let shapes = is_stdin(taken.json_shapes);
    stdin_twice(items)
        || changed && (reads_stdin(items) || baseline)
        || baseline && reads_stdin(items)
        || shapes && (reads_stdin(items) || changed || baseline)
}

/// Whether standard input is among the files, or there are none.
fn reads_stdin(items: &[Item<'_>]) -> bool
    ensures { result ≡ stdin_read (map said items.now) }
{
    !names_file(items) || names_stdin(items)
}

/// Whether a file is named.
fn names_file(items: &[Item<'_>]) -> bool
    ensures { result ≡ file_is_named (map said items.now) }
{
    let mut rest = items;
    while let [item, more @ ..] = rest {
        if file_named(*item).is_some() {
            return true;
        }
        rest = more;
    }
    false
}

/// Whether standard input is named as a file.
fn names_stdin(items: &[Item<'_>]) -> bool
    ensures { result ≡ list_any (λ it. is_stdin_named (file_said it)) (map said items.now) }
{
    let mut rest = items;
    while let [item, more @ ..] = rest {
        if is_stdin(file_named(*item)) {
            return true;
        }
        rest = more;
    }
    false
}

/// Whether standard input is named as a file more than once.
fn stdin_twice(items: &[Item<'_>]) -> bool
    ensures { result ≡ stdin_named_twice (map said items.now) }
{
    let mut rest = items;
    while let [item, more @ ..] = rest {
        if is_stdin(file_named(*item)) {
            return names_stdin(more);
        }
        rest = more;
    }
    false
}

/// Whether a name is that of standard input.
fn is_stdin(name: Option<&str>) -> bool
    ensures { result ≡ is_stdin_named (option_copied name.entry) }
{
    match name {
        Some(name) => name == "-",
        None => false,
    }
}
