//! Sources with a name.
ghost use Rattle.std.specs.Prelude.{◌≡◌, Some, string_bytes};

use crate::SourceCode;
use std::fmt;
use std::fmt::{Debug, Formatter, Write};

/// A source with a name, which replaces the source's own name if it has one.
#[derive(Drop)]
pub struct NamedSource<S> {
    name: String,
    source: S,
}

impl<S: SourceCode> Debug for NamedSource<S> {
    fn fmt<W: Write>(&self, f: &mut Formatter<W>) -> fmt::Result {
        f.debug_struct("NamedSource")
            .field("name", &self.name)
            .field("source", &"<redacted>")
            .finish()
    }
}

impl<S: SourceCode> NamedSource<S> {
    ghost use Rattle.oxc_protocol.specs.SourceViews.{named_view};

    /// The source with this name.
    pub fn new(name: String, source: S) -> Self
        ensures { named_view S.source result
            ≡ record { bytes = (S.source source).bytes; name = Some (string_bytes name) } }
    {
        NamedSource { name, source }
    }
}

impl<S: SourceCode> SourceCode for NamedSource<S> {
    ghost use Rattle.oxc_protocol.specs.SourceViews.{named_view};

    ghost source = { named_view S.source };

    ghost fits = { λ s. S.fits s.source };

    fn bytes(&self) -> &[u8] {
        self.source.bytes()
    }

    fn name(&self) -> Option<&str> {
        Some(self.name.as_str())
    }
}
