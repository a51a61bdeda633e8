// Texts, which are ranges of one buffer.
ghost use Rattle.std.specs.Prelude.{◌≡◌, ◌≤◌, IfOk, length, option_map, string_bytes};
ghost use Rattle.std.specs.Option.{option_copied};
ghost use Rattle.oxc_span.specs.Views.{text_bytes};
ghost use Rattle.report_arrays.specs.Texts.{is_boundary, is_text, is_none, is_optional, is_filled};
ghost use Rattle.report_arrays.specs.Texts.{text_of, optional_of};

use crate::shapes::Text;
use std::alloc::{AllocError, Global};

#[tactic(auto, using(crate::proofs::Boundaries::boundary_there, crate::proofs::Boundaries::no_boundary_there))]
fn is_boundary(texts: &str, at: usize) -> bool
    requires { at ≤ length texts.now }
    ensures { result ≡ is_boundary texts.now at }
{
    if texts.is_char_boundary(at) {
        true
    } else {
        false
    }
}

/// Whether a text is in the buffer and cuts no character.
#[tactic(auto, unfolding(crate::specs::Texts::is_text))]
pub(crate) fn is_text(texts: &str, range: Text) -> bool
    ensures { result ≡ is_text texts.now range }
{
    range.start <= range.end
        && range.end <= texts.len()
        && is_boundary(texts, range.start)
        && is_boundary(texts, range.end)
}

/// Whether it is no text.
pub(crate) fn is_none(range: Text) -> bool
    ensures { result ≡ is_none range }
{
    range.start == usize::MAX && range.end == usize::MAX
}

/// Whether it is a text or none.
pub(crate) fn is_optional(texts: &str, range: Text) -> bool
    ensures { result ≡ is_optional texts.now range }
{
    is_none(range) || is_text(texts, range)
}

/// Whether it is a text that isn't empty, or none.
pub(crate) fn is_filled(texts: &str, range: Text) -> bool
    ensures { result ≡ is_filled texts.now range }
{
    is_none(range) || is_text(texts, range) && range.start < range.end
}

/// The text at a range; the empty text if the range is wrong.
#[tactic(auto, unfolding(crate::specs::Texts::is_text), using(crate::proofs::Boundaries::boundary_said))]
pub fn text(texts: &str, range: Text) -> &str
    ensures { result.now ≡ text_of texts.now range }
{
    if is_text(texts, range) {
        &texts[range.start..range.end]
    } else {
        ""
    }
}

/// The text at a range, if it is one.
pub fn optional_text(texts: &str, range: Text) -> Option<&str>
    ensures { option_copied result ≡ optional_of texts.now range }
{
    if is_none(range) {
        None
    } else {
        Some(text(texts, range))
    }
}

/// A copy of an optional text.
pub(crate) fn copied(alloc: Global, texts: &str, range: Text) -> Result<Option<String>, AllocError>
    ensures bytes { IfOk result (λ it. text_bytes it ≡ optional_of texts.now range) }
    ensures mapped { IfOk result (λ it. option_map string_bytes it ≡ optional_of texts.now range) }
{
    match optional_text(texts, range) {
        Some(text) => Ok(Some(String::from_str(alloc, text)?)),
        None => Ok(None),
    }
}
