// Where a client sees labels.
ghost use Rattle.std.specs.Prelude.{◌≡◌, IfOk};
ghost use Rattle.std.specs.Str.{IsCharBoundary};
ghost use Rattle.serde_json.specs.View.{view};
ghost use Rattle.oxc_span.specs.Label.{label_end};
ghost use Rattle.found_reports.specs.Found.{StandsIn};
ghost use Rattle.lsp_server.specs.Diagnostics.{label_range as label_range_of, range_value as ranges};
ghost use Rattle.lsp_server.specs.Files.{seen};
ghost use Rattle.lsp_server.specs.Ordered.{RangesAreOrdered};
ghost use Rattle.lsp_server.specs.Seen.{client_place as client_place_of};

use crate::told::OpenFile;
use oxc_span::LabeledSpan;
use serde_json::{Value, json};
use std::alloc::{AllocError, Global};
use text_places::Place;
use text_size::TextSize;

/// Where the client sees an offset between characters.
#[tactic(auto, unfolding(crate::specs::Seen::client_place))]
pub fn client_place(file: &OpenFile<'_>, offset: u32) -> Place
    requires { IsCharBoundary file.now.places.now offset }
    ensures { result ≡ client_place_of (seen file.now) offset }
{
    file.places
        .client_place_of(file.encoding, TextSize::new(offset))
}

/// Where the client sees a label.
#[tactic(auto, unfolding(crate::specs::Diagnostics::label_range))]
pub fn label_range(
    alloc: Global,
    file: &OpenFile<'_>,
    label: &LabeledSpan,
) -> Result<Value, AllocError>
    requires { StandsIn file.now.places.now label.now }
    ensures { IfOk result (λ value. view value ≡ label_range_of (seen file.now) label.now) }
{
    let span = label.span();
    let start = client_place(file, span.start);
    let end = client_place(file, span.end);
    range_value(alloc, start, end)
}

/// A range from one position to another.
#[tactic(auto, unfolding(crate::specs::Diagnostics::range_value))]
pub fn range_value(alloc: Global, start: Place, end: Place) -> Result<Value, AllocError>
    ensures { IfOk result (λ value. view value ≡ ranges start end) }
{
    json!(in alloc; {
        "start": {"line": start.line, "character": start.unit},
        "end": {"line": end.line, "character": end.unit}
    })
}

/// No range for a client ends before it starts.
pub fn ranges_are_ordered()
    ensures { RangesAreOrdered }
{}
