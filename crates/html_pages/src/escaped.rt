// Texts between tags and in attributes.
ghost use Rattle.std.specs.Prelude.{◌≡◌, ◌++◌, false, IfOk, OnOk, string_bytes};
ghost use Rattle.std.specs.List.{list_any};
ghost use Rattle.html_pages.specs.Escaped.{escaped_text, is_markup};
ghost use Rattle.html_pages.specs.Read.{read};

use escapes::{Spelling, push_escaped};
use std::alloc::{AllocError, Global};

/// A text as it is written between tags or in an attribute: an entity for each character that HTML
/// would read otherwise.
///
/// # Errors
///
/// Out of memory.
#[tactic(auto, using(crate::proofs::EscapedLemmas::text_back, crate::proofs::EscapedLemmas::text_free))]
pub fn html_text(alloc: Global, text: &str) -> Result<String, AllocError>
    ensures text { IfOk result (λ out. string_bytes out ≡ escaped_text text.now) }
    ensures back { IfOk result (λ out. read (string_bytes out) ≡ text.now) }
    ensures free { IfOk result (λ out. list_any is_markup (string_bytes out) ≡ false) }
{
    escaped(alloc, text)
}

/// The same, specified by its text alone.
fn escaped(alloc: Global, text: &str) -> Result<String, AllocError>
    ensures { IfOk result (λ out. string_bytes out ≡ escaped_text text.now) }
{
    let mut out = String::new(alloc);
    push_text(&mut out, text)?;
    Ok(out)
}

/// Appends a text.
pub(crate) fn push_text(out: &mut String, text: &str) -> Result<(), AllocError>
    ensures { OnOk result (string_bytes out.new ≡ string_bytes out.old ++ escaped_text text.now) }
{
    push_escaped(out, &Html, text)
}

/// Texts in HTML.
struct Html;

impl Spelling for Html {
    ghost use Rattle.html_pages.specs.Escaped.{in_html};
    ghost use Rattle.html_pages.specs.Ascii.{in_html_ascii};

    ghost spelled = { λ _. in_html };

    ghost ascii = { λ _. in_html_ascii };

    #[tactic(auto, unfolding(crate::specs::Escaped::in_html))]
    fn spelling(&self, byte: u8) -> Option<&'static str> {
        match byte {
            b'&' => Some("&amp;"),
            b'<' => Some("&lt;"),
            b'>' => Some("&gt;"),
            b'"' => Some("&quot;"),
            _ => None,
        }
    }
}
