//! What is said of options that count each time, and of files.
ghost use Rattle.std.specs.Prelude.{◌≡◌, ◌++◌, IfOk, OnOk, map, option_map, string_bytes};
ghost use Rattle.std.specs.Option.{option_copied};
ghost use Rattle.girzohal_options.specs.Lists.{files_in as files_said, listed, output_by as output_meant};
ghost use Rattle.girzohal_options.specs.Lists.{output_parts, outputs_in as outputs_said, texts_under};
ghost use Rattle.girzohal_options.specs.Names.{setting_name};
ghost use Rattle.girzohal_options.specs.Said.{file_named as file_said, said, value_under};

use crate::items::Item;
use crate::table::Setting;
use crate::values::output_in;
use crate::{Output, OutputForm};
use std::alloc::{AllocError, Global};

/// The files that are named, in their order.
pub(crate) fn files_in(alloc: Global, items: &[Item<'_>]) -> Result<Vec<String>, AllocError>
    ensures { IfOk result (λ files. map string_bytes files.items ≡ files_said (map said items.now)) }
{
    let mut files = Vec::new(alloc);
    for item in items {
        push_some(alloc, &mut files, file_named(*item))?;
    }
    Ok(files)
}

/// The values of an option, in their order.
pub(crate) fn texts_in(
    alloc: Global,
    items: &[Item<'_>],
    setting: Setting,
) -> Result<Vec<String>, AllocError>
    ensures { IfOk result (λ texts. map string_bytes texts.items
        ≡ texts_under (setting_name setting) (map said items.now)) }
{
    let mut texts = Vec::new(alloc);
    for item in items {
        push_some(alloc, &mut texts, value_of(*item, setting))?;
    }
    Ok(texts)
}

/// Appends a copy of a text, if there is one.
fn push_some(alloc: Global, texts: &mut Vec<String>, text: Option<&str>) -> Result<(), AllocError>
    ensures { OnOk result (map string_bytes texts.new.items
        ≡ map string_bytes texts.old.items ++ listed (option_copied text.entry)) }
{
    if let Some(text) = text {
        texts.push(String::from_str(alloc, text)?)?;
    }
    Ok(())
}

/// The outputs, in their order.
pub(crate) fn outputs_in(alloc: Global, items: &[Item<'_>]) -> Result<Vec<Output>, AllocError>
    ensures { IfOk result (λ outputs. map output_parts outputs.items
        ≡ outputs_said (map said items.now)) }
{
    let mut outputs = Vec::new(alloc);
    for item in items {
        if let Some((to, path)) = output_of(*item) {
            let path = String::from_str(alloc, path)?;
            outputs.push(Output { to, path })?;
        }
    }
    Ok(outputs)
}

/// The output that an item asks for.
pub(crate) fn output_of<'w>(item: Item<'w>) -> Option<(OutputForm, &'w str)>
    ensures { option_map (λ it. (it.0, it.1.now)) result ≡ output_meant (said item.entry) }
{
    output_in(value_of(item, Setting::Output)?)
}

/// The value of an option, if an item gives it.
pub(crate) fn value_of<'w>(item: Item<'w>, setting: Setting) -> Option<&'w str>
    ensures { option_copied result ≡ value_under (setting_name setting) (said item.entry) }
{
    match item {
        Item::Given(other, value) if other.name() == setting.name() => Some(value),
        _ => None,
    }
}

/// The file that an item names.
pub(crate) fn file_named<'w>(item: Item<'w>) -> Option<&'w str>
    ensures { option_copied result ≡ file_said (said item.entry) }
{
    match item {
        Item::File(name) => Some(name),
        _ => None,
    }
}
