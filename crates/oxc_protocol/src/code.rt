//! Codes of diagnostics.
ghost use Rattle.std.specs.Prelude.{◌≡◌, ◌↔◌, ◌⊎◌, ◌++◌, [], IsTrue, IsSome, Some, IfOk, OnOk};
ghost use Rattle.std.specs.Prelude.{string_bytes, unwrap_or};
ghost use Rattle.oxc_protocol.specs.Code.{code_text, shown_of};
ghost use Rattle.oxc_span.specs.Views.{text_bytes};

use std::alloc::{AllocError, Global};
use std::fmt;
use std::fmt::{Display, Formatter, Write};

/// A code in two parts: a scope, such as the name of a linter's plugin, and a number, such as the
/// name of a rule in it.
///
/// Codes are ordered by scope, then by number; a missing part comes before every text, and texts
/// are ordered by their bytes. The default has neither part. A code prints as `scope(number)`, as
/// the one part that it has, or as nothing.
#[derive(Default, PartialEq, Eq, PartialOrd, Ord, Debug, Drop)]
pub struct OxcCode {
    pub scope: Option<String>,
    pub number: Option<String>,
}

impl OxcCode {
    ghost use Rattle.oxc_protocol.specs.Views.{code_parts};

    /// Whether either part is there.
    pub fn is_some(&self) -> bool
        ensures { IsTrue result ↔ (IsSome self.now.scope ⊎ IsSome self.now.number) }
    {
        self.scope.is_some() || self.number.is_some()
    }

    /// The code's text; none if it has neither part.
    pub(crate) fn shown(&self, alloc: Global) -> Result<Option<String>, AllocError>
        ensures { IfOk result (λ text. text_bytes text ≡ shown_of (code_parts self.now)) }
    {
        if !self.is_some() {
            return Ok(None);
        }
        let room = len_of(&self.scope).saturating_add(len_of(&self.number));
        let mut text = String::with_capacity(alloc, room.saturating_add(2))?;
        self.push_onto(&mut text)?;
        Ok(Some(text))
    }

    /// Appends the code's text, and returns whether there is one: the code has at least one part.
    ///
    /// # Errors
    ///
    /// Out of memory.
    pub fn push_onto(&self, out: &mut String) -> Result<bool, AllocError>
        ensures told { IfOk result (λ there. IsTrue there
            ↔ IsSome (shown_of (code_parts self.now))) }
        ensures text { OnOk result (string_bytes out.new
            ≡ string_bytes out.old ++ unwrap_or (shown_of (code_parts self.now)) []) }
    {
        match (&self.scope, &self.number) {
            (None, None) => return Ok(false),
            (Some(part), None) | (None, Some(part)) => out.push_str(part.as_str())?,
            (Some(scope), Some(number)) => {
                out.push_str(scope.as_str())?;
                out.push('(')?;
                out.push_str(number.as_str())?;
                out.push(')')?;
            }
        }
        Ok(true)
    }
}

/// The number of bytes of a part; 0 if it is missing.
fn len_of(part: &Option<String>) -> usize {
    match part {
        Some(text) => text.len(),
        None => 0,
    }
}

impl Display for OxcCode {
    ghost output = { λ c. Some (code_text (text_bytes c.scope) (text_bytes c.number)) };

    fn fmt<W: Write>(&self, f: &mut Formatter<W>) -> fmt::Result {
        match (&self.scope, &self.number) {
            (None, None) => Ok(()),
            (Some(part), None) | (None, Some(part)) => write!(f, "{part}"),
            (Some(scope), Some(number)) => write!(f, "{}({})", scope, number),
        }
    }
}
