//! The sources of this crate.
ghost use Rattle.std.specs.Prelude.{◌≡◌, ◌<◌, None, length, string_bytes};
ghost use Rattle.oxc_protocol.specs.Source.{Fits};

use crate::SourceCode;

/// A text as a source, with no name. [`NamedSource`](crate::NamedSource) gives it one.
#[derive(Drop)]
pub struct TextSource {
    text: String,
    ghost fits: { Fits (string_bytes text) },
}

impl TextSource {
    ghost use Rattle.oxc_protocol.specs.SourceViews.{text_view};

    /// The text as a source. It has fewer than `u32::MAX` bytes.
    pub fn new(text: String) -> TextSource
        requires { Fits (string_bytes text) }
        ensures { text_view result ≡ record { bytes = string_bytes text; name = None } }
    {
        TextSource { text }
    }
}

impl SourceCode for TextSource {
    ghost use Rattle.oxc_protocol.specs.SourceViews.{text_view};

    ghost source = { text_view };

    ghost fits = { λ s. s.fits };

    fn bytes(&self) -> &[u8] {
        self.text.as_bytes()
    }

    fn name(&self) -> Option<&str> {
        None
    }
}
