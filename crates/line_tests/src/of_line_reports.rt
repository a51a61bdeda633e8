// A caller that is proved from the contracts alone.
ghost use Rattle.std.specs.Prelude.{◌≡◌, IfOk, map, true};
ghost use Rattle.found_reports.specs.Listed.{held_in};
ghost use Rattle.line_shapes.specs.declared.tables.Unit.TheVariants.{Characters};
ghost use Rattle.line_reports.specs.Pieces.{read_parts};
ghost use Rattle.line_reports.specs.Reports.{reports_in};

use found_reports::FoundReports;
use indexed_sources::IndexedSources;
use line_reports::{ReadPiece, reports_of};
use line_shapes::tables::Unit;
use line_shapes::tools::Columns;
use std::alloc::{AllocError, Global};

/// The reports of a tool whose columns count characters from 1.
fn by_characters<'s>(
    alloc: Global,
    lines: &[&[u8]],
    pieces: &[ReadPiece<'_>],
    sources: &'s IndexedSources,
) -> Result<FoundReports<'s>, AllocError>
    ensures { IfOk result (λ it. it.found
        ≡ reports_in (record { unit = Characters; first = 1; with_end = true })
        (held_in sources.now.entries.items) (map (λ line. line.now) lines.now) (map read_parts pieces.now)) }
{
    let columns = Columns {
        unit: Unit::Characters,
        first: 1,
        with_end: true,
    };
    reports_of(alloc, lines, pieces, sources, columns)
}
