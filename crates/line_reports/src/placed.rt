//! Labels of an excerpt in the source.
ghost use Rattle.std.specs.Prelude.{◌≡◌, ◌+◌, ◌<◌, ◌^◌};
ghost use Rattle.oxc_span.specs.Views.{text_bytes};

use oxc_protocol::LabeledSpan;
use sarif_spans::Row;

/// A label in the source.
#[derive(Drop)]
pub struct Placed {
    /// Where it begins, in bytes, and how many it has.
    pub start: u32,
    pub len: u32,
    /// The row of the source in which it begins.
    pub row: Row,
    /// It marks what was found.
    pub primary: bool,
    /// Its text.
    pub text: Option<String>,
    ghost short: { start + len < 2 ^ 32 },
}

impl Placed {
    /// A label over it.
    pub(crate) fn label(&self, text: Option<String>, primary: bool) -> LabeledSpan
        ensures { result ≡ record {
          text = text_bytes text;
          offset = self.now.start;
          len = self.now.len;
          primary = primary;
        } }
    {
        if primary {
            LabeledSpan::primary_at(text, self.start, self.len)
        } else {
            LabeledSpan::new(text, self.start, self.len)
        }
    }
}
