// What is made of JSON values among other lines.
ghost use Rattle.std.specs.Prelude.{◌≡◌, ◌++◌, IfErr, IfOk, None, OnOk, drop, map, option_map};
ghost use Rattle.std.specs.Prelude.{string_bytes};
ghost use Rattle.found_reports.specs.Listed.{held_in};
ghost use Rattle.json.specs.Value.{value_view};
ghost use Rattle.json_inputs.specs.Forms.{AreForms, IsNoForms};
ghost use Rattle.json_inputs.specs.Input.{IsRefused, first_refused, said_in, said_view};
ghost use Rattle.json_inputs.specs.Values.{SaysRefused};
ghost use Rattle.tool_lines.specs.Lines.{piece_parts};
ghost use Rattle.line_reports.specs.Pieces.{read_parts};
ghost use Rattle.girzohal_run.specs.Made.{HasCause, IsFree, Says};
ghost use Rattle.girzohal_run.specs.Values.{FindsBeside, FindsSaid, FindsValues, IsNoValues};
ghost use Rattle.girzohal_run.specs.Values.{MakesValues, names_in};

use crate::fault::Fault;
use crate::finds::Finds;
use crate::lines::text_lines;
use crate::making::Made;
use crate::owned::OwnedReports;
use crate::several::write_found;
use drawn_lines::{columns_of, kept_text, shapes_of};
use girzohal_options::Asked;
use indexed_sources::IndexedSources;
use input_forms::without_mark;
use json::{Scratch, Value};
use json_forms::{Forms, cut_input};
use json_inputs::{
    InputError, Said, lines_beside, own_text, read_forms, read_input, rows_of, values_of,
};
use json_reports::{names_of as finding_names, reports_with};
use line_reports::{ReadPiece, names_of as line_names, read_pieces, reports_of};
use source_store::{Spelling, Store, gather_indexed};
use std::alloc::{AllocError, Global};
use tool_lines::lines::{Piece, pieces_of};
use tool_lines::paint::without_paint;

/// What is made of JSON values among other lines.
pub(crate) fn make_values<S: Store>(
    alloc: Global,
    asked: &Asked,
    bytes: &[u8],
    store: &S,
) -> Result<Made, Fault>
    ensures made { IfOk result (λ it. MakesValues (S.told store.now) asked.now bytes.now
        (string_bytes it.written.text) it.aside.items it.written.reached) }
    ensures cause { IfErr result
        (HasCause (IsNoValues asked.now.json_shapes.items asked.now.tool) bytes.now) }
{
    let finds = find_values(alloc, asked, bytes, store)?;
    write_found(alloc, asked, false, &[finds])
}

/// What JSON values among other lines have.
#[tactic(auto, using(crate::proofs::ValuesLemmas::no_json, crate::proofs::ValuesLemmas::no_forms, crate::proofs::ValuesLemmas::one_refused))]
pub(crate) fn find_values<S: Store>(
    alloc: Global,
    asked: &Asked,
    bytes: &[u8],
    store: &S,
) -> Result<Finds, Fault>
    ensures found { IfOk result (λ it. FindsValues (S.told store.now) asked.now bytes.now
        it.reports.found it.aside.items) }
    ensures cause { IfErr result
        (HasCause (IsNoValues asked.now.json_shapes.items asked.now.tool) bytes.now) }
{
    let text = without_mark(bytes);
    let cut = cut_input(alloc, text)?;
    let rows = rows_of(alloc, text, &cut.pieces)?;
    let beside = lines_beside(alloc, text, &cut.pieces)?;
    let mut scratch = Scratch::new(alloc);
    let values = values_of(alloc, text, &cut, &mut scratch)?;
    let own = own_text(alloc, &asked.json_shapes)?;
    let forms = forms_of(alloc, own.as_str(), asked)?;
    say_values(
        alloc,
        asked,
        forms.lent(),
        &rows,
        after_first(&values),
        &beside,
        store,
    )
}

/// The forms that values are read by. (The texts in them live as long as each other.)
pub(crate) fn forms_of<'t>(
    alloc: Global,
    own: &'t str,
    asked: &'t Asked,
) -> Result<Forms<'t>, InputError>
    ensures forms { IfOk result (AreForms own.now (option_map string_bytes asked.now.tool)) }
    ensures cause { IfErr result (SaysRefused IsNoForms) }
{
    read_forms(alloc, own, asked.tool.as_deref())
}

/// What values say that start in these rows, and what the lines beside them have.
#[tactic(auto, using(crate::proofs::ValuesLemmas::refused_so))]
pub(crate) fn say_values<'v, 't, S: Store>(
    alloc: Global,
    asked: &Asked,
    forms: &'v Forms<'v>,
    rows: &[usize],
    values: &'v [Value<'t>],
    beside: &[u8],
    store: &S,
) -> Result<Finds, Fault>
    ensures found { IfOk result (λ it. FindsBeside (S.told store.now) asked.now
        (said_in forms.now rows.now (map value_view values.now)) beside.now
        it.reports.found it.aside.items) }
    ensures none { OnOk result (first_refused forms.now rows.now (map value_view values.now)
        ≡ None) }
    ensures cause { IfErr result
        (Says (IsRefused forms.now rows.now (map value_view values.now))) }
{
    let said = read_input(alloc, forms, rows, values)?;
    find_beside(alloc, asked, &said, beside, store)
}

/// The elements after the first.
fn after_first<'e, 'v>(elements: &'e [Value<'v>]) -> &'e [Value<'v>]
    ensures { map value_view result.now ≡ drop 1 (map value_view elements.now) }
{
    match elements {
        [_, rest @ ..] => rest,
        [] => elements,
    }
}

/// What values say, and what the lines beside them have.
fn find_beside<S: Store>(
    alloc: Global,
    asked: &Asked,
    said: &Said<'_, '_>,
    beside: &[u8],
    store: &S,
) -> Result<Finds, Fault>
    ensures found { IfOk result (λ it. FindsBeside (S.told store.now) asked.now
        (said_view said.now) beside.now it.reports.found it.aside.items) }
    ensures cause { IfErr result IsFree }
{
    let text = without_paint(alloc, beside)?;
    let lines = text_lines(alloc, &text)?;
    let shapes = shapes_of(alloc, asked)?;
    let pieces = pieces_of(alloc, &lines, &shapes)?;
    let reads = read_pieces(alloc, &lines, &pieces)?;
    let names = names_of(alloc, said, &lines, &reads)?;
    let sources = gather_indexed(alloc, store, Spelling::Path, &names)?;
    find_said(alloc, asked, said, &lines, &pieces, &reads, &sources)
}

/// The names whose texts the findings of values and of lines need.
fn names_of(
    alloc: Global,
    said: &Said<'_, '_>,
    lines: &[&[u8]],
    reads: &[ReadPiece<'_>],
) -> Result<Vec<String>, AllocError>
    ensures { IfOk result (λ names. map string_bytes names.items
        ≡ names_in (said_view said.now).findings (map (λ line. line.now) lines.now)
        (map read_parts reads.now)) }
{
    let mut names = finding_names(alloc, &said.findings)?;
    let mut others = line_names(alloc, lines, reads)?;
    names.append(&mut others)?;
    Ok(names)
}

/// The same with the blocks of these lines, and with these sources.
fn find_said(
    alloc: Global,
    asked: &Asked,
    said: &Said<'_, '_>,
    lines: &[&[u8]],
    pieces: &[Piece<'_>],
    reads: &[ReadPiece<'_>],
    sources: &IndexedSources,
) -> Result<Finds, Fault>
    ensures found { IfOk result (λ it. FindsSaid asked.now (held_in sources.now.entries.items)
        (said_view said.now) (map (λ line. line.now) lines.now) (map piece_parts pieces.now)
        (map read_parts reads.now) it.reports.found it.aside.items) }
    ensures cause { IfErr result IsFree }
{
    let others = reports_of(alloc, lines, reads, sources, columns_of(asked))?;
    let found = reports_with(alloc, &said.findings, sources, others)?;
    let reports = OwnedReports::new(alloc, found)?;
    let mut aside = kept_text(alloc, asked, lines, pieces)?.into_bytes();
    aside.extend_from_slice(said.told.as_bytes())?;
    Ok(Finds { reports, aside })
}
