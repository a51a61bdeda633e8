//! Reporters, which turn diagnostics into texts, and [`Info`], what an editor needs of a
//! diagnostic.
ghost use Rattle.std.specs.Prelude.{◌≡◌, ℕ, List, Option, None, false, IfOk, OnOk, OnErr, map};
ghost use Rattle.std.specs.Prelude.{string_bytes};
ghost use Rattle.std.specs.Fn.{CalledAt};
ghost use Rattle.std.specs.Option.{option_copied};
ghost use Rattle.oxc_span.specs.Views.{text_bytes};
ghost use Rattle.oxc_protocol.specs.Source.{source_name};
ghost use Rattle.oxc_protocol.specs.SourceViews.{ref_views};
ghost use Rattle.oxc_protocol.specs.Parts.{Parts};
ghost use Rattle.oxc_protocol.specs.Counts.{Counts};
ghost use Rattle.oxc_protocol.specs.Info.{filename_of, told_severity};
ghost use Rattle.oxc_protocol.specs.Reporters.{KeepsFront, KeptAt, RendersAll, RendersFront};
ghost use Rattle.oxc_protocol.specs.Reporters.{RendersUntil};

use crate::place::positions;
use crate::{Diagnostic, Error, Severity, SourceRef};
use std::alloc::{AllocError, Global};
use std::marker::Model;

/// Renders diagnostics to a format, one text at a time.
///
/// An implementation states two relations. `renders` relates the reporter before, the diagnostic's
/// parts, the returned text or none, and the reporter after; `finishes` the reporter before, the
/// counts, the returned text or none, and the reporter after. The contracts of the list calls speak
/// of `renders` only.
pub trait DiagnosticReporter {
    ghost renders: { Self → Parts → Option (List ℕ) → Self → Type 0 };

    ghost finishes: { Self → Counts → Option (List ℕ) → Self → Type 0 };

    ghost lacks_fallback: { Self → Type 0 } = { λ _. ⊥ };

    /// To be called after the last diagnostic. A reporter that kept texts back returns them now.
    ///
    /// # Errors
    ///
    /// Out of memory.
    fn finish(
        &mut self,
        alloc: Global,
        counts: &DiagnosticResult,
    ) -> Result<Option<String>, AllocError>
        ensures { IfOk result (λ text. finishes self.old counts.now (text_bytes text) self.new) };

    /// Whether a very long line of a text may be replaced by a warning that the file is minified;
    /// true by default. A reporter whose texts are read by programs returns false, and states
    /// `lacks_fallback`.
    fn supports_minified_file_fallback(&self) -> bool
        ensures { result ≡ false → lacks_fallback self.now }
    {
        true
    }

    /// Renders one diagnostic. None omits it. After an error nothing is known of the reporter.
    ///
    /// # Errors
    ///
    /// Out of memory.
    fn render_error(&mut self, alloc: Global, error: Error) -> Result<Option<String>, AllocError>
        ensures { IfOk result (λ text. renders self.old (parts error) (text_bytes text) self.new) };

    /// Renders diagnostics in order, and passes each text on.
    ///
    /// # Errors
    ///
    /// Out of memory, after the texts of a first part of them were passed on.
    final fn render_errors<F: FnMut(&str)>(
        &mut self,
        alloc: Global,
        errors: Vec<Error>,
        mut emit: F,
    ) -> Result<(), AllocError>
    where
        Self: Sized,
        requires { F.IsAlwaysCallable emit }
        ensures all { OnOk result ((last : F)
            × RendersAll renders (λ f text g. CalledAt F.FnMut f text tt g)
            self.old emit (map parts errors.items) self.new last) }
        ensures front { OnErr result ((last : F)
            × RendersFront renders (λ f text g. CalledAt F.FnMut f text tt g)
            self.old emit (map parts errors.items) last) }
    {
        self.render_errors_into(alloc, errors, &mut emit)
    }

    /// The same with a borrowed closure, so that the caller's proof learns what the closure wrote.
    ///
    /// # Errors
    ///
    /// Out of memory, after the texts of a first part of them were passed on.
    final fn render_errors_into<F: FnMut(&str)>(
        &mut self,
        alloc: Global,
        errors: Vec<Error>,
        emit: &mut F,
    ) -> Result<(), AllocError>
    where
        Self: Sized,
        requires { F.IsAlwaysCallable emit.old }
        ensures callable { F.IsAlwaysCallable emit.new }
        ensures all { OnOk result (RendersAll renders (λ f text g. CalledAt F.FnMut f text tt g)
            self.old emit.old (map parts errors.items) self.new emit.new) }
        ensures front { OnErr result
            (RendersFront renders (λ f text g. CalledAt F.FnMut f text tt g)
            self.old emit.old (map parts errors.items) emit.new) }
    {
        for error in errors {
            if let Some(text) = self.render_error(alloc, error)? {
                emit(text.as_str());
            }
        }
        Ok(())
    }

    /// Renders diagnostics in order, and passes each text on with the name of its source, up to and
    /// including the first for which the closure returns false.
    ///
    /// # Errors
    ///
    /// Out of memory, after the texts of a first part of them were passed on, for each of which the
    /// closure returned true.
    final fn render_errors_until<F: FnMut(Option<&str>, &str) -> bool>(
        &mut self,
        alloc: Global,
        errors: Vec<Error>,
        mut keep: F,
    ) -> Result<(), AllocError>
    where
        Self: Sized,
        requires { F.IsAlwaysCallable keep }
        ensures until { OnOk result ((last : F) × RendersUntil renders (KeptAt F.step)
            self.old keep (map parts errors.items) self.new last) }
        ensures front { OnErr result ((last : F) × KeepsFront renders (KeptAt F.step)
            self.old keep (map parts errors.items) last) }
    {
        self.render_errors_until_into(alloc, errors, &mut keep)
    }

    /// The same with a borrowed closure, so that the caller's proof learns what the closure wrote.
    ///
    /// # Errors
    ///
    /// Out of memory, after the texts of a first part of them were passed on, for each of which the
    /// closure returned true.
    final fn render_errors_until_into<F: FnMut(Option<&str>, &str) -> bool>(
        &mut self,
        alloc: Global,
        errors: Vec<Error>,
        keep: &mut F,
    ) -> Result<(), AllocError>
    where
        Self: Sized,
        requires { F.IsAlwaysCallable keep.old }
        ensures callable { F.IsAlwaysCallable keep.new }
        ensures until { OnOk result (RendersUntil renders (KeptAt F.step)
            self.old keep.old (map parts errors.items) self.new keep.new) }
        ensures front { OnErr result (KeepsFront renders (KeptAt F.step)
            self.old keep.old (map parts errors.items) keep.new) }
    {
        for error in errors {
            let name = source_name(alloc, &error)?;
            if let Some(text) = self.render_error(alloc, error)? {
                let wanted = keep(lent(&name), text.as_str());
                if !wanted {
                    return Ok(());
                }
            }
        }
        Ok(())
    }
}

/// A copy of the name of a diagnostic's source.
fn source_name(alloc: Global, error: &Error) -> Result<Option<String>, AllocError>
    ensures { IfOk result (λ name. text_bytes name ≡ source_name (parts error.now).source) }
{
    name_of(alloc, error.source_code())
}

/// A copy of a source's name.
fn name_of(alloc: Global, source: Option<SourceRef<'_>>) -> Result<Option<String>, AllocError>
    ensures { IfOk result (λ name. text_bytes name ≡ source_name (ref_views source.entry)) }
{
    let Some(source) = source else {
        return Ok(None);
    };
    match source.name() {
        Some(name) => Ok(Some(String::from_str(alloc, name)?)),
        None => Ok(None),
    }
}

/// The name, borrowed, if there is one.
fn lent(name: &Option<String>) -> Option<&str>
    ensures { option_copied result ≡ text_bytes name.now }
{
    name.as_deref()
}

/// The numbers of warnings and errors, and whether there were more warnings than allowed. The
/// caller counts.
#[derive(Debug, Drop)]
pub struct DiagnosticResult {
    warnings_count: usize,
    errors_count: usize,
    max_warnings_exceeded: bool,
}

impl Model for DiagnosticResult {
    ghost use Rattle.oxc_protocol.specs.Counts.{Counts};

    ghost Value = { Counts };

    ghost view = { λ r. record {
      warnings = r.warnings_count;
      errors = r.errors_count;
      exceeded = r.max_warnings_exceeded;
    } };
}

impl DiagnosticResult {
    /// A result of these numbers.
    pub fn new(warnings_count: usize, errors_count: usize, max_warnings_exceeded: bool) -> Self
        ensures { result ≡ record {
          warnings = warnings_count;
          errors = errors_count;
          exceeded = max_warnings_exceeded;
        } }
    {
        DiagnosticResult {
            warnings_count,
            errors_count,
            max_warnings_exceeded,
        }
    }

    /// The number of warnings.
    pub fn warnings_count(&self) -> usize
        ensures { result ≡ self.now.warnings }
    {
        self.warnings_count
    }

    /// The number of errors.
    pub fn errors_count(&self) -> usize
        ensures { result ≡ self.now.errors }
    {
        self.errors_count
    }

    /// Whether there were more warnings than allowed.
    pub fn max_warnings_exceeded(&self) -> bool
        ensures { result ≡ self.now.exceeded }
    {
        self.max_warnings_exceeded
    }
}

impl Default for DiagnosticResult {
    ghost use Rattle.std.specs.Prelude.{false};

    ghost is_default = { λ r. r ≡ record { warnings = 0; errors = 0; exceeded = false } };

    fn default() -> Self {
        DiagnosticResult::new(0, 0, false)
    }
}

/// What an editor or a log needs of a diagnostic.
#[derive(Debug, Drop)]
pub struct Info {
    /// Where its first label starts.
    pub start: InfoPosition,
    /// Where its first label ends.
    pub end: InfoPosition,
    /// The name of its source; empty if it has none.
    pub filename: String,
    /// The message; empty if no position was found.
    pub message: String,
    /// An error or a warning; a warning if no position was found.
    pub severity: Severity,
    /// The code.
    pub rule_id: Option<String>,
}

/// A row and a byte column of a source, both from 1. Both are 0 if no position was found.
#[derive(PartialEq, Eq, PartialOrd, Ord, Debug, Drop)]
pub struct InfoPosition {
    /// The row, under all three breaks: LF, CR, and CRLF taken as one.
    pub line: usize,
    /// One more than the bytes from the row's start, where the LF of a CRLF counts as its CR.
    pub column: usize,
}

impl Info {
    ghost use Rattle.oxc_protocol.specs.Info.{info_of, info_parts};

    /// What an editor needs of a diagnostic.
    ///
    /// A position is found if the diagnostic has a source and a label, and its first label ends
    /// within the source. Then a missing severity is an error, and advice is a warning. If no
    /// position is found, both positions are 0, the message is empty, and the severity is a
    /// warning, whatever the diagnostic says.
    ///
    /// # Errors
    ///
    /// Out of memory.
    pub fn new(alloc: Global, diagnostic: &dyn Diagnostic) -> Result<Info, AllocError>
        ensures { IfOk result (λ info. info_parts info ≡ info_of (parts diagnostic.now)) }
    {
        let rule_id = diagnostic.code(alloc)?;
        let filename = filename(alloc, diagnostic.source_code())?;
        match positions(diagnostic.source_code(), diagnostic.labels()) {
            Some((start, end)) => Ok(Info {
                start,
                end,
                filename,
                message: String::from_str(alloc, diagnostic.message())?,
                severity: told_severity(diagnostic.severity()),
                rule_id,
            }),
            None => Ok(Info {
                start: InfoPosition { line: 0, column: 0 },
                end: InfoPosition { line: 0, column: 0 },
                filename,
                message: String::new(alloc),
                severity: Severity::Warning,
                rule_id,
            }),
        }
    }
}

/// The name of a source; empty if there is none.
fn filename(alloc: Global, source: Option<SourceRef<'_>>) -> Result<String, AllocError>
    ensures { IfOk result (λ name. string_bytes name
        ≡ filename_of (source_name (ref_views source.entry))) }
{
    let name = name_of(alloc, source)?;
    Ok(name.unwrap_or(String::new(alloc)))
}

/// The severity of the [`Info`] of a diagnostic that has a position.
fn told_severity(severity: Option<Severity>) -> Severity
    ensures { result ≡ told_severity severity }
{
    match severity {
        Some(Severity::Error) | None => Severity::Error,
        Some(Severity::Warning | Severity::Advice) => Severity::Warning,
    }
}
