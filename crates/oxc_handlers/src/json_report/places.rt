//! Where labels start in a report's source.
ghost use Rattle.std.specs.Prelude.{◌≡◌, ◌<◌, ◌+◌, ◌^◌, IfOk, IfSome};
ghost use Rattle.oxc_handlers.specs.JsonPlaces.{read_bytes, ReadsRowsAlone};
ghost use Rattle.oxc_handlers.specs.JsonText.{label_place};

use oxc_protocol::LabeledSpan;
use oxc_windows::{SpanContents, SpanScanner};
use std::alloc::AllocError;
use std::marker::Model;

/// A line and a byte column, both from 1.
#[derive(Clone, Copy)]
pub struct Place {
    pub line: usize,
    pub column: usize,
}

/// Finds the locations of labels. Contracts see the bytes of the source, if there is one.
#[derive(Drop)]
pub struct Places<'a> {
    scanner: Option<SpanScanner<'a>>,
}

impl<'a> Model for Places<'a> {
    ghost use Rattle.std.specs.Prelude.{ℕ, List, Option};

    ghost Value = { Option (List ℕ) };

    ghost use Rattle.oxc_handlers.specs.JsonPlaces.{read_bytes, ReadsRowsAlone};

    ghost view = { λ p. read_bytes p.scanner };

    ghost invariant = { λ p. ReadsRowsAlone p.scanner };
}

impl<'a> Places<'a> {
    /// The locations in the source that a scanner reads, if there is one.
    pub fn new(scanner: Option<SpanScanner<'a>>) -> Self
        requires { ReadsRowsAlone scanner }
        ensures { result ≡ read_bytes scanner.entry }
    {
        Places { scanner }
    }

    /// The scanner, which can find the locations of later labels.
    pub fn into_scanner(self) -> Option<SpanScanner<'a>>
        ensures reads { read_bytes result ≡ self.entry }
        ensures alone { ReadsRowsAlone result }
    {
        self.scanner
    }

    /// The location of a label's start; none without a source, and none if the label ends past it.
    #[tactic(auto, using(crate::proofs::JsonPlaceLemmas::column_read))]
    pub fn find(&mut self, label: &LabeledSpan) -> Result<Option<Place>, AllocError>
        ensures place { IfOk result (λ found. found ≡ label_place self.old label.now) }
        ensures small { IfOk result
            (λ found. IfSome found (λ place. (place.line < 2 ^ 64) × (place.column < 2 ^ 64))) }
        ensures same { self.new ≡ self.old }
    {
        let Some(scanner) = &mut self.scanner else {
            return Ok(None);
        };
        match scanner.read_span(label.span())? {
            Some(contents) => Ok(Some(place_in(&contents))),
            None => Ok(None),
        }
    }
}

// The line and the column of contents, from 1.
fn place_in(contents: &SpanContents<'_>) -> Place
    requires line { contents.now.line < 2 ^ 32 }
    requires column { contents.now.column < 2 ^ 32 }
    ensures { result ≡ record { line = contents.now.line + 1; column = contents.now.column + 1 } }
{
    Place {
        line: contents.line() + 1,
        column: contents.column() + 1,
    }
}
