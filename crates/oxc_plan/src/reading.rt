//! What the scanner reads for the spans of labels.
ghost use Rattle.std.specs.Prelude.{◌≡◌, ◌≤◌, IfOk, OnOk, Some, length};
ghost use Rattle.std.specs.Option.{unwrap_or};
ghost use Rattle.std.specs.Str.{IsUtf8};
ghost use Rattle.oxc_windows.specs.Scan.{IsMeasured, IsNumbered, contents_of};
ghost use Rattle.oxc_plan.specs.Groups.{window_round};
ghost use Rattle.oxc_plan.specs.Keeping.{KeepsRows, ReadsOn};
ghost use Rattle.oxc_plan.specs.Scanned.{ReadsRound};

use oxc_span::Span;
use oxc_windows::{SpanContents, SpanScanner};
use std::alloc::AllocError;

/// What the scanner reads for a span that ends within its input.
pub fn read<'a>(scanner: &mut SpanScanner<'a>, span: Span) -> Result<SpanContents<'a>, AllocError>
    requires round { ReadsRound scanner.old }
    requires ordered { span.start ≤ span.end }
    requires within { span.end ≤ length scanner.old.input }
    ensures exact { IfOk result (λ contents. contents
        ≡ contents_of scanner.old.input (window_round scanner.old.input span)) }
    ensures text { IsUtf8 scanner.old.input → IfOk result (λ contents. IsUtf8 contents.bytes) }
    ensures measured { IfOk result IsMeasured }
    ensures numbered { IfOk result IsNumbered }
    ensures stays { ReadsOn scanner.old scanner.new }
    ensures first { OnOk result (scanner.new.first
        ≡ Some (unwrap_or scanner.old.first span.start)) }
    ensures keeps { OnOk result (KeepsRows scanner.old.input scanner.new span.start
        (window_round scanner.old.input span).end) }
{
    match scanner.read_span(span)? {
        Some(contents) => Ok(contents),
        None => unreachable!(),
    }
}
