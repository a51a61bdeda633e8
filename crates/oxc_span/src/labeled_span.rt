//! Labels: locations in a source, each with an optional text.
ghost use Rattle.std.specs.Prelude.{◌≡◌, ◌+◌, ◌<◌, ◌^◌, true, false, IfOk};
ghost use Rattle.std.specs.Option.{option_copied};
ghost use Rattle.oxc_span.specs.Label.{label_end};

use crate::Span;
use std::alloc::{AllocError, Global};
use std::marker::Model;

/// A location in a source that a diagnostic points to, with an optional text.
///
/// It is an offset from the source's first byte and a length, in bytes; their sum is in the range
/// of `u32`. A report's head shows the location of its first primary label, else of its first
/// label. The default is an empty label at 0, without a text, not primary.
#[derive(Debug, Drop)]
pub struct LabeledSpan {
    label: Option<String>,
    offset: u32,
    len: u32,
    primary: bool,
}

impl Model for LabeledSpan {
    ghost use Rattle.std.specs.Prelude.{◌+◌, ◌<◌, ◌^◌};
    ghost use Rattle.oxc_span.specs.Label.{Label};

    ghost Value = { Label };

    ghost use Rattle.oxc_span.specs.Views.{label_view};

    ghost view = { label_view };

    ghost invariant = { λ l. l.offset + l.len < 2 ^ 32 };
}

impl LabeledSpan {
    ghost use Rattle.oxc_span.specs.Views.{text_bytes};

    /// A label that is not primary. The sum of `offset` and `len` is in the range of `u32`.
    pub fn new(label: Option<String>, offset: u32, len: u32) -> Self
        requires { offset + len < 2 ^ 32 }
        ensures { result ≡ record
            { text = text_bytes label; offset = offset; len = len; primary = false } }
    {
        LabeledSpan {
            label,
            offset,
            len,
            primary: false,
        }
    }

    /// A primary label. The sum of `offset` and `len` is in the range of `u32`.
    pub fn primary_at(label: Option<String>, offset: u32, len: u32) -> Self
        requires { offset + len < 2 ^ 32 }
        ensures { result ≡ record
            { text = text_bytes label; offset = offset; len = len; primary = true } }
    {
        LabeledSpan {
            label,
            offset,
            len,
            primary: true,
        }
    }

    /// The label's text.
    pub fn label(&self) -> Option<&str>
        ensures { option_copied result ≡ self.now.text }
    {
        self.label.as_ref().map(|text| text.as_str())
    }

    /// The offset of the label's first byte.
    pub fn offset(&self) -> u32
        ensures value { result ≡ self.now.offset }
        ensures in_range { label_end self.now < 2 ^ 32 }
    {
        self.offset
    }

    /// The number of the label's bytes.
    pub fn len(&self) -> u32
        ensures value { result ≡ self.now.len }
        ensures in_range { label_end self.now < 2 ^ 32 }
    {
        self.len
    }

    /// The label's bytes as a span.
    pub fn span(&self) -> Span
        ensures value { result ≡ record { start = self.now.offset; end = label_end self.now } }
        ensures in_range { label_end self.now < 2 ^ 32 }
    {
        Span::sized(self.offset, self.len)
    }

    /// Whether this label is marked as a primary label of its diagnostic.
    pub fn primary(&self) -> bool
        ensures { result ≡ self.now.primary }
    {
        self.primary
    }

    /// An equal label with its own copy of the text.
    ///
    /// # Errors
    ///
    /// Out of memory.
    pub fn try_clone(&self, alloc: Global) -> Result<Self, AllocError>
        ensures { IfOk result (λ copy. copy ≡ self.now) }
    {
        let label = match &self.label {
            Some(text) => Some(String::from_str(alloc, text.as_str())?),
            None => None,
        };
        Ok(LabeledSpan {
            label,
            offset: self.offset,
            len: self.len,
            primary: self.primary,
        })
    }
}

impl Default for LabeledSpan {
    ghost use Rattle.std.specs.Prelude.{None};

    ghost is_default = { λ l. l ≡ record { text = None; offset = 0; len = 0; primary = false } };

    fn default() -> Self {
        LabeledSpan::new(None, 0, 0)
    }
}

impl PartialEq for LabeledSpan {
    ghost use Rattle.std.specs.Cmp.{partial_equiv_from_equiv};
    ghost use Rattle.oxc_span.specs.LabelEq.{label_eq, label_eq_equiv};

    ghost eq = { label_eq };

    ghost laws = { partial_equiv_from_equiv label_eq_equiv };

    fn eq(&self, other: &Self) -> bool {
        self.label == other.label
            && self.offset == other.offset
            && self.len == other.len
            && self.primary == other.primary
    }
}

impl Eq for LabeledSpan {
    ghost use Rattle.oxc_span.specs.LabelEq.{label_eq_equiv};

    ghost laws = { label_eq_equiv };
}
