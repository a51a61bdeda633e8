// Blocks of a tool's lines whose reports are made together.
ghost use Rattle.std.specs.Prelude.{◌≡◌, map, string_bytes};
ghost use Rattle.std.specs.List.{filter_map};
ghost use Rattle.line_reports.specs.Names.{names_in};
ghost use Rattle.line_reports.specs.Pieces.{read_parts};
ghost use Rattle.source_store.specs.Named.{path_in};
ghost use Rattle.source_store.specs.declared.named.Spelling.TheVariants.{Path};

use line_reports::ReadPiece;

/// A block of a tool's lines, and the notes after it.
#[derive(Drop)]
pub struct Block<'l> {
    /// The lines of the first block, and all after them.
    pub lines: &'l [&'l [u8]],
    /// The pieces, with what was read of them.
    pub reads: &'l [ReadPiece<'l>],
    /// The paths that the names in them mean.
    pub paths: Vec<String>,
    ghost named: { map string_bytes paths.items ≡ filter_map (path_in Path)
        (names_in (map (λ line. line.now) lines.now) (map read_parts reads.now)) },
}
