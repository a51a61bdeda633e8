// Texts inside a workflow command, escaped and unescaped.
ghost use Rattle.std.specs.Prelude.{◌≡◌, ◌++◌, ◌∷◌, ◌≤◌, false, IfOk, length, string_bytes};
ghost use Rattle.std.specs.List.{list_any};
ghost use Rattle.ci_formats.specs.Percent.{escape as escaped_text};
ghost use Rattle.ci_formats.specs.Unescape.{ends, meant_at, unescape as unescaped_text};

use escapes::{Spelling, cut, push_escaped};
use std::alloc::{AllocError, Global};

/// A kind of text in a workflow command.
#[derive(Clone, Copy)]
pub enum Field {
    /// The message, which ends with the line.
    Message,
    /// The value of a property, which ends at a comma or a colon.
    Property,
}

impl Spelling for Field {
    ghost use Rattle.ci_formats.specs.Percent.{spelling as spelling_by, spelling_ascii};

    ghost spelled = { spelling_by };

    ghost ascii = { spelling_ascii };

    #[tactic(auto, unfolding(crate::specs::Percent::spelling))]
    fn spelling(&self, byte: u8) -> Option<&'static str> {
        match byte {
            b'%' => Some("%25"),
            b'\r' => Some("%0D"),
            b'\n' => Some("%0A"),
            _ => match self {
                Field::Property if byte == b':' => Some("%3A"),
                Field::Property if byte == b',' => Some("%2C"),
                _ => None,
            },
        }
    }
}

/// A text escaped for a workflow command.
///
/// # Errors
///
/// Out of memory.
#[tactic(auto, using(crate::proofs::PercentLemmas::percent_back, crate::proofs::PercentLemmas::percent_free))]
pub fn github_escape(alloc: Global, field: Field, text: &str) -> Result<String, AllocError>
    ensures text { IfOk result (λ out. string_bytes out ≡ escaped_text field text.now) }
    ensures back { IfOk result (λ out. unescaped_text field (string_bytes out) ≡ text.now) }
    ensures free { IfOk result (λ out. list_any (ends field) (string_bytes out) ≡ false) }
{
    let mut out = String::new(alloc);
    push_escaped(&mut out, &field, text)?;
    Ok(out)
}

/// A text with its escapes decoded. A `%` that begins no escape is kept.
///
/// # Errors
///
/// Out of memory.
#[tactic(auto, using(crate::proofs::PercentLemmas::at_percent, crate::proofs::PercentLemmas::no_percent, crate::proofs::PercentLemmas::cut_shorter))]
pub fn github_unescape(alloc: Global, field: Field, text: &str) -> Result<String, AllocError>
    ensures { IfOk result (λ out. string_bytes out ≡ unescaped_text field text.now) }
{
    let mut out = String::new(alloc);
    let mut rest = text;
    while let Some((front, behind)) = cut(rest, '%') {
        out.push_str(front)?;
        rest = push_meant(&mut out, field, behind)?;
    }
    out.push_str(rest)?;
    Ok(out)
}

/// Appends the byte that an escape means, or its `%` if it is none, and returns what follows.
#[tactic(auto, using(crate::proofs::PercentLemmas::meant_some, crate::proofs::PercentLemmas::meant_none))]
fn push_meant<'a>(out: &mut String, field: Field, behind: &'a str) -> Result<&'a str, AllocError>
    ensures text { IfOk result (λ rest. string_bytes out.new ++ unescaped_text field rest.now
        ≡ string_bytes out.old ++ unescaped_text field (0x25 ∷ behind.now)) }
    ensures shorter { IfOk result (λ rest. length rest.now ≤ length behind.now) }
{
    match meaning(field, behind) {
        Some(byte) => {
            out.push(char::from(byte))?;
            Ok(&behind[2..])
        }
        None => {
            out.push('%')?;
            Ok(behind)
        }
    }
}

/// The byte that a `%` and the first two bytes of a text mean.
fn meaning(field: Field, behind: &str) -> Option<u8>
    ensures { result ≡ meant_at field behind.now }
{
    match (field, behind.as_bytes()) {
        (_, [b'2', b'5', ..]) => Some(b'%'),
        (_, [b'0', b'D', ..]) => Some(b'\r'),
        (_, [b'0', b'A', ..]) => Some(b'\n'),
        (Field::Property, [b'3', b'A', ..]) => Some(b':'),
        (Field::Property, [b'2', b'C', ..]) => Some(b','),
        _ => None,
    }
}
