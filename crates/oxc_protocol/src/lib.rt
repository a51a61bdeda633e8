//! What a linter reports, the sources that it points into, and the sinks for drawn reports.
//!
//! A linter builds an [`OxcDiagnostic`] and passes it on as a value, in a list of [`Diagnostics`],
//! or boxed as an [`Error`]. Code that shows it asks for its parts only by the trait
//! [`Diagnostic`], and for its source by [`SourceCode`].
//!
//! A [`Sink`] is any device that takes bytes and counts its own faults. [`MemorySink`] keeps what
//! it took, and can be made to fail: it is for tests, and for callers that want the text.
#![tactic(auto)]

mod code;
mod diagnostic;
mod diagnostics;
pub mod laws;
mod memory;
mod named_source;
mod place;
mod protocol;
mod reporter;
mod sink;
mod source_impls;

pub use crate::code::OxcCode;
pub use crate::diagnostic::{DiagnosticWithSource, OxcDiagnostic, OxcDiagnosticInner};
pub use crate::diagnostics::{Diagnostics, Errors, Warnings};
pub use crate::memory::MemorySink;
pub use crate::named_source::NamedSource;
pub use crate::protocol::{Diagnostic, Severity, SourceCode, SourceRef};
pub use crate::reporter::{DiagnosticReporter, DiagnosticResult, Info, InfoPosition};
pub use crate::sink::{Failed, Sink, write_all};
pub use crate::source_impls::TextSource;
pub use oxc_span::LabeledSpan;
use smallvec::SmallVec;
use std::alloc::Global;

/// A diagnostic of any kind, on the heap. The caller makes the box.
pub type Error = Box<dyn Diagnostic>;

/// A result whose error is an [`OxcDiagnostic`].
pub type Result<T> = std::result::Result<T, OxcDiagnostic>;

/// The labels of an [`OxcDiagnostic`]. Up to two are kept inline and need no allocation.
pub type Labels = SmallVec<LabeledSpan, 2, Global>;
