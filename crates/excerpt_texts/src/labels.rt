//! The labels of a drawing, with their texts.
ghost use Rattle.std.specs.Prelude.{◌≡◌, ◌++◌, IfOk, OnOk, None, Some, codes, if◌then◌else◌, map};
ghost use Rattle.std.specs.Prelude.{length, option_map, option_to_list, slice_get, string_bytes};
ghost use Rattle.std.specs.List.{filter_map};
ghost use Rattle.std.specs.Str.{encode_utf8_all};
ghost use Rattle.excerpt_blocks.specs.Below.{state_of};
ghost use Rattle.excerpt_blocks.specs.Labels.{says as says_so};
ghost use Rattle.excerpts.specs.Body.{block_of};
ghost use Rattle.excerpt_texts.specs.Labels.{block_labels, drawn_label, drawn_parts};
ghost use Rattle.excerpt_texts.specs.Labels.{insert as insert_of, row_texts as texts_of_row};
ghost use Rattle.excerpt_texts.specs.Labels.{text_at as text_there, texts_before, texts_from};
ghost use Rattle.excerpt_texts.specs.Labels.{with_text as with_text_after};

use crate::lines::{line_at, text_of};
use excerpt_blocks::below::{Below, Text, tail};
use excerpt_blocks::labels::{Label, says};
use excerpts::body::Block;
use excerpts::cuts::head;
use std::alloc::{AllocError, Global};

/// A label over printed rows.
#[derive(Drop)]
pub struct DrawnLabel {
    /// The row in which it begins: its place among the block's rows.
    pub start_row: usize,
    /// The character of that row's text at which it begins, from 0.
    pub start: usize,
    /// The row in which it ends.
    pub row: usize,
    /// The character of that row's text at which it ends.
    pub end: usize,
    /// It marks what was found.
    pub primary: bool,
    /// Its text.
    pub text: Option<String>,
}

/// The labels of a block, and then what the tool would insert, as labels of no length.
///
/// # Errors
///
/// Out of memory.
#[tactic(auto, unfolding(crate::specs::Labels::block_labels))]
pub fn labels_in(
    alloc: Global,
    lines: &[&[char]],
    block: &Block,
) -> Result<Vec<DrawnLabel>, AllocError>
    ensures { IfOk result (λ all. map drawn_parts all.items
        ≡ block_labels (map (λ line. line.now) lines.now) (block_of block.now)) }
{
    let mut all = Vec::new(alloc);
    push_labels(
        alloc,
        &mut all,
        lines,
        &block.below,
        block.labels.as_slice(),
    )?;
    push_inserts(alloc, &mut all, lines, block.below.texts.as_slice())?;
    Ok(all)
}

fn push_labels(
    alloc: Global,
    all: &mut Vec<DrawnLabel>,
    lines: &[&[char]],
    below: &Below,
    mut labels: &[Label],
) -> Result<(), AllocError>
    ensures { OnOk result (map drawn_parts all.new.items ≡ map drawn_parts all.old.items
        ++ map (drawn_label (map (λ line. line.now) lines.now) (state_of below.now)) labels.entry.now) }
{
    while let [label, rest @ ..] = labels {
        let drawn = drawn(alloc, lines, below, *label)?;
        all.push(drawn)?;
        labels = rest;
    }
    Ok(())
}

/// A label with its text.
#[tactic(auto, unfolding(crate::specs::Labels::drawn_label))]
fn drawn(
    alloc: Global,
    lines: &[&[char]],
    below: &Below,
    label: Label,
) -> Result<DrawnLabel, AllocError>
    ensures { IfOk result (λ it. drawn_parts it
        ≡ drawn_label (map (λ line. line.now) lines.now) (state_of below.now) label) }
{
    let text = label_text(alloc, lines, row_texts(below, label.row), label)?;
    Ok(DrawnLabel {
        start_row: label.start_row,
        start: label.start,
        row: label.row,
        end: label.end,
        primary: label.primary,
        text,
    })
}

/// The texts below a row.
#[tactic(auto, unfolding(crate::specs::Labels::row_texts))]
fn row_texts(below: &Below, row: usize) -> &[Text]
    ensures { result.now ≡ texts_of_row (state_of below.now) row }
{
    let start = texts_start(below, row);
    let end = texts_start(below, row.saturating_add(1));
    head(tail(&below.texts, start), end.saturating_sub(start))
}

/// How many texts come before those of a row.
fn texts_start(below: &Below, row: usize) -> usize
    ensures { result ≡ texts_before (slice_get below.now.rows.items row) (length below.now.texts.items) }
{
    match below.rows.get(row) {
        Some(row) => row.texts,
        None => below.texts.len(),
    }
}

/// The texts of a label, of those below its row.
fn label_text(
    alloc: Global,
    lines: &[&[char]],
    texts: &[Text],
    label: Label,
) -> Result<Option<String>, AllocError>
    ensures { IfOk result (λ it. option_map string_bytes it
        ≡ texts_from (map (λ line. line.now) lines.now) label None texts.now) }
{
    let mut all = None;
    let mut rest = texts;
    while let [text, more @ ..] = rest {
        all = with_label_text(alloc, lines, label, all, *text)?;
        rest = more;
    }
    Ok(all)
}

/// The texts of a label with one more, if that is the label's.
fn with_label_text(
    alloc: Global,
    lines: &[&[char]],
    label: Label,
    before: Option<String>,
    text: Text,
) -> Result<Option<String>, AllocError>
    ensures { IfOk result (λ it. option_map string_bytes it
        ≡ (if says_so label text then with_text_after (option_map string_bytes before)
        (text_there (map (λ line. line.now) lines.now) text) else option_map string_bytes before)) }
{
    if says(&label, &text) {
        Ok(Some(with_text(alloc, before, text_at(lines, text))?))
    } else {
        Ok(before)
    }
}

/// Texts with one more.
fn with_text(alloc: Global, before: Option<String>, text: &[char]) -> Result<String, AllocError>
    ensures { IfOk result (λ it. Some (string_bytes it)
        ≡ with_text_after (option_map string_bytes before) text.now) }
{
    let more = text_of(alloc, text)?;
    let Some(mut all) = before else {
        return Ok(more);
    };
    all.push_str("\n")?;
    all.push_str(more.as_str())?;
    Ok(all)
}

/// The characters of a text.
fn text_at<'l>(lines: &[&'l [char]], text: Text) -> &'l [char]
    ensures { result.now ≡ text_there (map (λ line. line.now) lines.now) text }
{
    let line = line_at(lines, text.line);
    head(tail(line, text.start), text.end.saturating_sub(text.start))
}

fn push_inserts(
    alloc: Global,
    all: &mut Vec<DrawnLabel>,
    lines: &[&[char]],
    mut texts: &[Text],
) -> Result<(), AllocError>
    ensures { OnOk result (map drawn_parts all.new.items ≡ map drawn_parts all.old.items
        ++ filter_map (insert_of (map (λ line. line.now) lines.now)) texts.entry.now) }
{
    while let [text, rest @ ..] = texts {
        push_insert(alloc, all, lines, *text)?;
        texts = rest;
    }
    Ok(())
}

/// Adds what the tool would insert, if a text is that.
#[tactic(auto, unfolding(crate::specs::Labels::insert))]
fn push_insert(
    alloc: Global,
    all: &mut Vec<DrawnLabel>,
    lines: &[&[char]],
    text: Text,
) -> Result<(), AllocError>
    ensures { OnOk result (map drawn_parts all.new.items ≡ map drawn_parts all.old.items
        ++ option_to_list (insert_of (map (λ line. line.now) lines.now) text)) }
{
    if text.mark.is_some() {
        return Ok(());
    }
    let label = inserted(alloc, text_at(lines, text))?;
    all.push(DrawnLabel {
        start_row: text.row,
        start: text.column,
        row: text.row,
        end: text.column,
        primary: false,
        text: Some(label),
    })?;
    Ok(())
}

/// The text of a label for what the tool would insert.
fn inserted(alloc: Global, text: &[char]) -> Result<String, AllocError>
    ensures { IfOk result (λ it. string_bytes it ≡ codes "help: " ++ encode_utf8_all text.now) }
{
    let mut label = String::from_str(alloc, "help: ")?;
    let text = text_of(alloc, text)?;
    label.push_str(text.as_str())?;
    Ok(label)
}
