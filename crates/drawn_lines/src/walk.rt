// Lines as they are drawn: their reports, and between them the lines that are kept.
ghost use Rattle.std.specs.Prelude.{◌≡◌, ◌∷◌, ◌++◌, [], ℕ, List, IfOk, OnOk, true, false};
ghost use Rattle.std.specs.Prelude.{drop, map, string_bytes};
ghost use Rattle.found_reports.specs.Held.{Held};
ghost use Rattle.found_reports.specs.Listed.{held_in};
ghost use Rattle.tool_lines.specs.Lines.{is_kept as is_kept_sort};
ghost use Rattle.line_reports.specs.Pieces.{ReadParts, read_parts};
ghost use Rattle.report_texts.specs.Runs.{drawn_on};
ghost use Rattle.girzohal_options.specs.declared.Asked.{Asked as AskedFor};
ghost use Rattle.drawn_lines.specs.Lines.{drawings_before, in_place as placed, reports_before};
ghost use Rattle.drawn_lines.specs.Lines.{shown_of, still as still_of};
ghost use Rattle.drawn_lines.specs.Counts.{count_of as count_meant};
ghost use Rattle.drawn_lines.specs.Seam.{BarePieces};
ghost use Rattle.drawn_lines.specs.Walk.{counted_to, walked};

use crate::count::{Count, added, counted, none};
use crate::form::has_colors;
use crate::held::lent;
use crate::kept::{behind, front, is_kept, push_kept};
use crate::reading::columns_of;
use girzohal_options::Asked;
use line_reports::{ReadPiece, reports_of};
use report_texts::Drawings;
use shown_reports::ShownSources;
use std::alloc::{AllocError, Global};

/// What blocks add to what was written, and to the reports.
#[derive(Drop)]
pub(crate) struct Share {
    pub(crate) text: String,
    pub(crate) count: Count,
}

/// The state of a walk over lines that are drawn.
#[derive(Drop)]
pub(crate) struct Walk<'l, 'a, 'p> {
    /// What is drawn so far.
    text: String,
    /// How many reports that is.
    count: Count,
    /// How many reports are still drawn at most.
    most: Option<usize>,
    /// The blocks after the last line that was kept, and those that are left.
    first: &'p [ReadPiece<'p>],
    /// How many of these were walked over.
    len: usize,
    /// The lines from the first of these blocks on.
    from: &'l [&'a [u8]],
    /// The lines after them.
    left: &'l [&'a [u8]],
    /// The same lines as they are shown.
    shown: &'l [&'a [u8]],
}

/// Reports drawn, and between them the lines that are kept, as they came where the theme has
/// colors.
pub(crate) fn drawings(
    alloc: Global,
    asked: &Asked,
    most: Option<usize>,
    lines: &[&[u8]],
    came: &[Vec<u8>],
    pieces: &[ReadPiece<'_>],
    sources: &ShownSources,
) -> Result<Share, AllocError>
    requires { BarePieces (map (λ it. it.piece) (map read_parts pieces.now)) }
    ensures text { IfOk result (λ it. string_bytes it.text
        ≡ placed asked.now (held_in sources.now.entries.items) most []
        (map (λ line. line.now) lines.now) (map (λ line. line.now) lines.now)
        (shown_of asked.now (map (λ line. line.now) lines.now) (map (λ line. line.items) came.now))
        (map read_parts pieces.now)) }
    ensures count { IfOk result (λ it. it.count ≡ count_meant asked.now
        (reports_before asked.now (held_in sources.now.entries.items)
        (map (λ line. line.now) lines.now) (map read_parts pieces.now))) }
{
    if has_colors(asked.theme) {
        let came = lent(alloc, came)?;
        in_place(alloc, asked, most, lines, &came, pieces, sources)
    } else {
        in_place(alloc, asked, most, lines, lines, pieces, sources)
    }
}

/// The same, with the kept lines as shown.
fn in_place<'l, 'a>(
    alloc: Global,
    asked: &Asked,
    most: Option<usize>,
    lines: &'l [&'a [u8]],
    shown: &'l [&'a [u8]],
    pieces: &[ReadPiece<'_>],
    sources: &ShownSources,
) -> Result<Share, AllocError>
    requires { BarePieces (map (λ it. it.piece) (map read_parts pieces.now)) }
    ensures text { IfOk result (λ it. string_bytes it.text
        ≡ placed asked.now (held_in sources.now.entries.items) most []
        (map (λ line. line.now) lines.now) (map (λ line. line.now) lines.now)
        (map (λ line. line.now) shown.now) (map read_parts pieces.now)) }
    ensures count { IfOk result (λ it. it.count ≡ count_meant asked.now
        (reports_before asked.now (held_in sources.now.entries.items)
        (map (λ line. line.now) lines.now) (map read_parts pieces.now))) }
{
    let mut walk = Walk {
        text: String::new(alloc),
        count: none(),
        most,
        first: pieces,
        len: 0,
        from: lines,
        left: lines,
        shown,
    };
    let mut drawings = Drawings::new(alloc, asked, sources);
    let mut rest = pieces;
    while let [piece, more @ ..] = rest {
        walk = step(alloc, asked, sources, &mut drawings, walk, piece, more)?;
        rest = more;
    }
    finish(alloc, asked, sources, &mut drawings, walk)
}

/// Goes on to the next block.
fn step<'l, 'a, 'p>(
    alloc: Global,
    asked: &Asked,
    sources: &ShownSources,
    drawings: &mut Drawings<'_>,
    walk: Walk<'l, 'a, 'p>,
    piece: &ReadPiece<'p>,
    more: &'p [ReadPiece<'p>],
) -> Result<Walk<'l, 'a, 'p>, AllocError>
    requires drawn { drawings.old ≡ drawn_on asked.now sources.now.entries.items }
    requires follows { drop walk.len walk.first.now ≡ piece.now ∷ more.now }
    ensures walked { IfOk result (λ next. (rest : List ReadParts)
        → walked asked.now (held_in sources.now.entries.items) next rest
        ≡ walked asked.now (held_in sources.now.entries.items) walk.entry
        (read_parts piece.now ∷ rest)) }
    ensures counted { IfOk result (λ next. (rest : List ReadParts)
        → counted_to asked.now (held_in sources.now.entries.items) next rest
        ≡ counted_to asked.now (held_in sources.now.entries.items) walk.entry
        (read_parts piece.now ∷ rest)) }
    ensures follows { IfOk result (λ next. drop next.len next.first.now ≡ more.entry.now) }
    ensures unchanged { drawings.new ≡ drawings.old }
{
    if is_kept(piece.piece.begun.sort) {
        keep(alloc, asked, sources, drawings, walk, piece, more)
    } else {
        pass(walk, piece, more)
    }
}

/// Goes on to a block that is kept: the reports before it are drawn, and then its lines.
fn keep<'l, 'a, 'p>(
    alloc: Global,
    asked: &Asked,
    sources: &ShownSources,
    drawings: &mut Drawings<'_>,
    walk: Walk<'l, 'a, 'p>,
    piece: &ReadPiece<'p>,
    more: &'p [ReadPiece<'p>],
) -> Result<Walk<'l, 'a, 'p>, AllocError>
    requires kept { is_kept_sort piece.now.piece.begun.sort ≡ true }
    requires drawn { drawings.old ≡ drawn_on asked.now sources.now.entries.items }
    requires follows { drop walk.len walk.first.now ≡ piece.now ∷ more.now }
    ensures walked { IfOk result (λ next. (rest : List ReadParts)
        → walked asked.now (held_in sources.now.entries.items) next rest
        ≡ walked asked.now (held_in sources.now.entries.items) walk.entry
        (read_parts piece.now ∷ rest)) }
    ensures counted { IfOk result (λ next. (rest : List ReadParts)
        → counted_to asked.now (held_in sources.now.entries.items) next rest
        ≡ counted_to asked.now (held_in sources.now.entries.items) walk.entry
        (read_parts piece.now ∷ rest)) }
    ensures follows { IfOk result (λ next. drop next.len next.first.now ≡ more.entry.now) }
    ensures unchanged { drawings.new ≡ drawings.old }
{
    let Walk {
        mut text,
        count,
        most,
        first,
        len,
        from,
        left,
        shown,
    } = walk;
    let before = front(first, len);
    let here = push_reports(
        alloc, &mut text, asked, most, sources, drawings, from, before,
    )?;
    let piece = &piece.piece;
    let run = front(shown, piece.lines);
    push_kept(alloc, &mut text, asked, has_colors(asked.theme), piece, run)?;
    let left = behind(left, piece.lines);
    let shown = behind(shown, piece.lines);
    Ok(Walk {
        text,
        count: added(count, here)?,
        most: still(most, here.total),
        first: more,
        len: 0,
        from: left,
        left,
        shown,
    })
}

/// How many more reports are drawn after `count`.
pub(crate) fn still(most: Option<usize>, count: usize) -> Option<usize>
    ensures { result ≡ still_of most count }
{
    match most {
        Some(most) => Some(most.saturating_sub(count)),
        None => None,
    }
}

/// Goes on to a block that isn't kept.
fn pass<'l, 'a, 'p>(
    walk: Walk<'l, 'a, 'p>,
    piece: &ReadPiece<'p>,
    more: &'p [ReadPiece<'p>],
) -> Result<Walk<'l, 'a, 'p>, AllocError>
    requires kept { is_kept_sort piece.now.piece.begun.sort ≡ false }
    requires follows { drop walk.len walk.first.now ≡ piece.now ∷ more.now }
    ensures walked { IfOk result (λ next. (asked : AskedFor) (given : List ℕ → Held)
        (rest : List ReadParts) → walked asked given next rest
        ≡ walked asked given walk.entry (read_parts piece.now ∷ rest)) }
    ensures counted { IfOk result (λ next. (asked : AskedFor) (given : List ℕ → Held)
        (rest : List ReadParts) → counted_to asked given next rest
        ≡ counted_to asked given walk.entry (read_parts piece.now ∷ rest)) }
    ensures follows { IfOk result (λ next. drop next.len next.first.now ≡ more.entry.now) }
{
    let Walk {
        text,
        count,
        most,
        first,
        len,
        from,
        left,
        shown,
    } = walk;
    let Some(len) = len.checked_add(1) else {
        return Err(AllocError);
    };
    let left = behind(left, piece.piece.lines);
    let shown = behind(shown, piece.piece.lines);
    Ok(Walk {
        text,
        count,
        most,
        first,
        len,
        from,
        left,
        shown,
    })
}

/// Draws the reports after the last line that was kept.
fn finish(
    alloc: Global,
    asked: &Asked,
    sources: &ShownSources,
    drawings: &mut Drawings<'_>,
    walk: Walk<'_, '_, '_>,
) -> Result<Share, AllocError>
    requires { drawings.old ≡ drawn_on asked.now sources.now.entries.items }
    ensures text { IfOk result (λ it. string_bytes it.text
        ≡ walked asked.now (held_in sources.now.entries.items) walk.entry []) }
    ensures count { IfOk result (λ it. it.count
        ≡ counted_to asked.now (held_in sources.now.entries.items) walk.entry []) }
{
    let Walk {
        mut text,
        count,
        most,
        first,
        len,
        from,
        left: _,
        shown: _,
    } = walk;
    let before = front(first, len);
    let here = push_reports(
        alloc, &mut text, asked, most, sources, drawings, from, before,
    )?;
    let count = added(count, here)?;
    Ok(Share { text, count })
}

/// Appends the drawings of the reports of blocks, and counts the reports.
fn push_reports(
    alloc: Global,
    text: &mut String,
    asked: &Asked,
    most: Option<usize>,
    sources: &ShownSources,
    drawings: &mut Drawings<'_>,
    from: &[&[u8]],
    before: &[ReadPiece<'_>],
) -> Result<Count, AllocError>
    requires { drawings.old ≡ drawn_on asked.now sources.now.entries.items }
    ensures text { OnOk result (string_bytes text.new ≡ string_bytes text.old
        ++ drawings_before asked.now (held_in sources.now.entries.items) most
        (map (λ line. line.now) from.now) (map read_parts before.now)) }
    ensures count { IfOk result (λ count. count ≡ count_meant asked.now
        (reports_before asked.now (held_in sources.now.entries.items)
        (map (λ line. line.now) from.now) (map read_parts before.now))) }
    ensures unchanged { drawings.new ≡ drawings.old }
{
    if before.is_empty() {
        return Ok(none());
    }
    let found = reports_of(alloc, from, before, sources.indexed(), columns_of(asked))?;
    drawings.push(text, most, &found)?;
    Ok(counted(asked, &found))
}
