//! The contents of a window.
ghost use Rattle.std.specs.Prelude.{◌≡◌, ◌<◌, ◌≤◌, ◌^◌, length};
ghost use Rattle.oxc_windows.specs.Scan.{IsMeasured, contents_of};

use crate::Window;
use oxc_span::Span;
use std::marker::Model;

/// Bytes of a source, their span in it, and the numbers of their rows.
#[derive(Debug, Drop)]
pub struct SpanContents<'a> {
    bytes: &'a [u8],
    span: Span,
    line: usize,
    column: usize,
    line_count: usize,
}

impl<'a> Model for SpanContents<'a> {
    ghost use Rattle.oxc_windows.specs.Scan.{Contents};

    ghost Value = { Contents };

    ghost use Rattle.oxc_windows.specs.Views.{contents_view};

    ghost view = { contents_view };
}

impl<'a> SpanContents<'a> {
    /// Contents of exactly these parts. `line` and `column` (in bytes) count from 0.
    pub fn new(bytes: &'a [u8], span: Span, line: usize, column: usize, line_count: usize) -> Self
        ensures { result ≡ record {
          bytes = bytes.now;
          span = span;
          line = line;
          column = column;
          line_count = line_count;
        } }
    {
        SpanContents {
            bytes,
            span,
            line,
            column,
            line_count,
        }
    }

    /// The bytes.
    pub fn bytes(&self) -> &'a [u8]
        ensures { result.now ≡ self.now.bytes }
    {
        self.bytes
    }

    /// The span of the bytes in the source.
    pub fn span(&self) -> &Span
        ensures { result.now ≡ self.now.span }
    {
        &self.span
    }

    /// The row of the first byte, from 0.
    pub fn line(&self) -> usize
        ensures { result ≡ self.now.line }
    {
        self.line
    }

    /// The byte column, from 0, of the start of the span that was read, if no rows of context
    /// before it were asked for; else 0.
    pub fn column(&self) -> usize
        ensures { result ≡ self.now.column }
    {
        self.column
    }

    /// The number of all breaks of the source that end before the end of these bytes.
    pub fn line_count(&self) -> usize
        ensures { result ≡ self.now.line_count }
    {
        self.line_count
    }
}

/// The contents of a window of a source.
pub fn contents_in<'a>(input: &'a [u8], window: Window) -> SpanContents<'a>
    requires short { length input.now < 2 ^ 32 }
    requires ordered { window.begin ≤ window.end }
    requires within { window.end ≤ length input.now }
    ensures exact { result ≡ contents_of input.now window }
    ensures measured { IsMeasured result }
{
    SpanContents::new(
        &input[window.begin..window.end],
        Span::new(window.begin as u32, window.end as u32),
        window.line,
        window.column,
        window.line_count,
    )
}
