// Texts in XML.
ghost use Rattle.std.specs.Prelude.{◌≡◌, ◌++◌, false, IfOk, OnOk, string_bytes};
ghost use Rattle.std.specs.List.{list_any};
ghost use Rattle.ci_formats.specs.Xml.{attribute, held as held_text, held_char as held_for};
ghost use Rattle.ci_formats.specs.Xml.{is_markup, number_attribute, shown, unescape};

use escapes::{Spelling, push_escaped};
use itoa::Buffer;
use std::alloc::{AllocError, Global};

/// A text escaped for XML, in an attribute or between tags. U+FFFD replaces each character that
/// XML 1.0 can't hold.
///
/// # Errors
///
/// Out of memory.
#[tactic(auto, using(crate::proofs::XmlLemmas::xml_back, crate::proofs::XmlLemmas::xml_free))]
pub fn xml_escape(alloc: Global, text: &str) -> Result<String, AllocError>
    ensures text { IfOk result (λ out. string_bytes out ≡ shown text.now) }
    ensures back { IfOk result (λ out. unescape (string_bytes out) ≡ held_text text.now) }
    ensures free { IfOk result (λ out. list_any is_markup (string_bytes out) ≡ false) }
{
    let mut out = String::new(alloc);
    push_shown(alloc, &mut out, text)?;
    Ok(out)
}

/// Appends a text escaped for XML.
pub(crate) fn push_shown(alloc: Global, out: &mut String, text: &str) -> Result<(), AllocError>
    ensures { OnOk result (string_bytes out.new ≡ string_bytes out.old ++ shown text.now) }
{
    let held = held(alloc, text)?;
    push_escaped(out, &Xml, held.as_str())
}

/// Appends an attribute, with the blank before it.
#[tactic(auto, unfolding(crate::specs::Xml::attribute))]
pub(crate) fn push_attribute(
    alloc: Global,
    out: &mut String,
    key: &str,
    value: &str,
) -> Result<(), AllocError>
    ensures { OnOk result (string_bytes out.new
        ≡ string_bytes out.old ++ attribute key.now value.now) }
{
    out.push_str(" ")?;
    out.push_str(key)?;
    out.push_str("=\"")?;
    push_shown(alloc, out, value)?;
    out.push_str("\"")
}

/// Appends an attribute that is a number, with the blank before it.
#[tactic(auto, unfolding(crate::specs::Xml::number_attribute))]
pub(crate) fn push_number(out: &mut String, key: &str, number: usize) -> Result<(), AllocError>
    ensures { OnOk result (string_bytes out.new
        ≡ string_bytes out.old ++ number_attribute key.now number) }
{
    out.push_str(" ")?;
    out.push_str(key)?;
    out.push_str("=\"")?;
    out.push_str(Buffer::new().format(number))?;
    out.push_str("\"")
}

/// A text with U+FFFD instead of each character that XML can't hold.
#[tactic(auto, unfolding(crate::specs::Xml::held))]
fn held(alloc: Global, text: &str) -> Result<String, AllocError>
    ensures { IfOk result (λ out. string_bytes out ≡ held_text text.now) }
{
    text.chars().map(held_char).collect(alloc)
}

/// The character, or U+FFFD if XML 1.0 can't hold it.
fn held_char(c: char) -> char
    ensures { result ≡ held_for c }
{
    if (' ' <= c && c < '\u{FFFE}') || c == '\t' || c == '\n' || c == '\r' || '\u{10000}' <= c {
        c
    } else {
        '\u{FFFD}'
    }
}

/// Texts with entities instead of characters that would end them.
struct Xml;

impl Spelling for Xml {
    ghost use Rattle.ci_formats.specs.Xml.{entity};
    ghost use Rattle.ci_formats.specs.XmlAscii.{entity_ascii};

    ghost spelled = { λ _. entity };

    ghost ascii = { λ _. entity_ascii };

    #[tactic(auto, unfolding(crate::specs::Xml::entity))]
    fn spelling(&self, byte: u8) -> Option<&'static str> {
        match byte {
            b'&' => Some("&amp;"),
            b'<' => Some("&lt;"),
            b'>' => Some("&gt;"),
            b'"' => Some("&quot;"),
            b'\'' => Some("&apos;"),
            b'\t' => Some("&#9;"),
            b'\n' => Some("&#10;"),
            b'\r' => Some("&#13;"),
            _ => None,
        }
    }
}
