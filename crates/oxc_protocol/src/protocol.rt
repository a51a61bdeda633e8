//! What a renderer asks of a diagnostic and of a source.
ghost use Rattle.std.specs.Prelude.{◌≡◌, ◌<◌, IfOk, length};
ghost use Rattle.std.specs.Option.{option_copied};
ghost use Rattle.oxc_span.specs.Views.{text_bytes};
ghost use Rattle.oxc_protocol.specs.Parts.{Parts};
ghost use Rattle.oxc_protocol.specs.Source.{Fits, SourceParts};

use crate::LabeledSpan;
use std::alloc::{AllocError, Global};

/// The parts of a diagnostic that a renderer shows.
///
/// Contracts see a diagnostic as one record, `parts`; each call returns the part of its name. An
/// implementation without a part returns none, or an empty list. (There are no default bodies: one
/// body is proved for every implementation.)
pub trait Diagnostic: Drop {
    ghost use Rattle.oxc_protocol.specs.SourceViews.{ref_views};

    ghost parts: { Self → Parts };

    /// What happened, in a line or more.
    fn message(&self) -> &str
        ensures { result.now ≡ (parts self.now).message };

    /// A code by which this kind of diagnostic can be looked up.
    ///
    /// # Errors
    ///
    /// Out of memory.
    fn code(&self, alloc: Global) -> Result<Option<String>, AllocError>
        ensures { IfOk result (λ code. text_bytes code ≡ (parts self.now).code) };

    /// Its severity. A renderer takes a missing severity as [`Severity::Error`].
    fn severity(&self) -> Option<Severity>
        ensures { result ≡ (parts self.now).severity };

    /// What the reader can do about it.
    fn help(&self) -> Option<&str>
        ensures { option_copied result ≡ (parts self.now).help };

    /// What else the reader should know, apart from the help.
    fn note(&self) -> Option<&str>
        ensures { option_copied result ≡ (parts self.now).note };

    /// The URL of a page that says more.
    fn url(&self) -> Option<&str>
        ensures { option_copied result ≡ (parts self.now).url };

    /// The source that the labels point into.
    fn source_code(&self) -> Option<SourceRef<'_>>
        ensures { ref_views result ≡ (parts self.now).source };

    /// The labels, in the given order.
    fn labels(&self) -> &[LabeledSpan]
        ensures { result.now ≡ (parts self.now).labels };
}

/// The severity of a diagnostic, in rising order. The default is an error.
#[derive(Clone, Copy, PartialEq, Eq, PartialOrd, Ord, Debug, Default)]
pub enum Severity {
    /// Advice on code that is not wrong.
    Advice,
    /// A warning: the code may be wrong.
    Warning,
    /// An error.
    #[default]
    Error,
}

/// A source that diagnostics point into: fewer than `u32::MAX` bytes, and an optional name.
///
/// An implementation that has no name returns none.
pub trait SourceCode: Drop {
    ghost source: { Self → SourceParts };

    /// The whole source.
    fn bytes(&self) -> &[u8]
        ensures { result.now ≡ (source self.now).bytes };

    /// The source's name, such as its file's.
    fn name(&self) -> Option<&str>
        ensures { option_copied result ≡ (source self.now).name };

    ghost fits: { (s : Self) → Fits (source s).bytes };
}

/// A borrowed source: its bytes and its name.
#[derive(Clone, Copy)]
pub struct SourceRef<'a> {
    bytes: &'a [u8],
    name: Option<&'a str>,
    ghost fits: { Fits bytes.now },
}

impl<'a> SourceRef<'a> {
    ghost use Rattle.oxc_protocol.specs.SourceViews.{ref_view};

    /// A source of these bytes, fewer than `u32::MAX`, with this name.
    pub fn new(bytes: &'a [u8], name: Option<&'a str>) -> Self
        requires { Fits bytes.now }
        ensures { ref_view result ≡ record { bytes = bytes.now; name = option_copied name.entry } }
    {
        SourceRef { bytes, name }
    }

    /// The whole source.
    pub fn bytes(&self) -> &'a [u8]
        ensures value { result.now ≡ (ref_view self.now).bytes }
        ensures fits { Fits result.now }
    {
        self.bytes
    }

    /// The source's name.
    pub fn name(&self) -> Option<&'a str>
        ensures { option_copied result ≡ (ref_view self.now).name }
    {
        self.name
    }
}
