//! Members of JSON objects.
ghost use Rattle.std.specs.Prelude.{OnOk};
ghost use Rattle.std.specs.Option.{option_copied};
ghost use Rattle.textwrap.specs.Appends.{Appends};
ghost use Rattle.oxc_handlers.specs.JsonText.{key_text, number_member, optional_member};
ghost use Rattle.oxc_handlers.specs.JsonText.{text_member};

use crate::json_report::escape::push_escaped;
use crate::runs::write_number;
use std::alloc::AllocError;

/// Appends a key with a text, and a comma.
#[tactic(auto, unfolding(crate::specs::JsonText::text_member))]
pub fn push_text(out: &mut String, key: &str, text: &str) -> Result<(), AllocError>
    ensures { OnOk result (Appends out.old out.new (text_member key.now text.now)) }
{
    push_key(out, key)?;
    out.push_str("\"")?;
    push_escaped(out, text)?;
    out.push_str("\",")
}

/// Appends a key, and the space before its value.
#[tactic(auto, unfolding(crate::specs::JsonText::key_text))]
pub fn push_key(out: &mut String, key: &str) -> Result<(), AllocError>
    ensures { OnOk result (Appends out.old out.new (key_text key.now)) }
{
    out.push_str("\"")?;
    out.push_str(key)?;
    out.push_str("\": ")
}

/// Appends a key with a text, and a comma, if there is a text.
pub fn push_optional(out: &mut String, key: &str, text: Option<&str>) -> Result<(), AllocError>
    ensures { OnOk result
        (Appends out.old out.new (optional_member key.now (option_copied text.entry))) }
{
    match text {
        Some(text) => push_text(out, key, text),
        None => Ok(()),
    }
}

/// Appends a key with a number, and a comma.
#[tactic(auto, unfolding(crate::specs::JsonText::number_member))]
pub fn push_number_member(out: &mut String, key: &str, number: usize) -> Result<(), AllocError>
    ensures { OnOk result (Appends out.old out.new (number_member key.now number)) }
{
    push_key(out, key)?;
    write_number(out, number)?;
    out.push_str(",")
}
