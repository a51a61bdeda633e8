//! Laws of plans, each as the contract of a function that does nothing.
ghost use Rattle.oxc_plan.specs.Laws.{AreAllInOrder, HaveRowsOnce, HaveTextsOnce};
ghost use Rattle.oxc_plan.specs.Placed.{HasOnePlacedList};
ghost use Rattle.oxc_plan.specs.Rows.{row_view};

use crate::rows::Row;
use oxc_span::{LabeledSpan, Span};

/// The law that each given label is in the label order exactly once, and is among the labels of the
/// plan. It does nothing; a caller calls it to use the law.
pub fn labels_stand_once(_labels: &[LabeledSpan])
    ensures { AreAllInOrder _labels.now }
{}

/// The law that each label text is drawn once below the rows of the snippets, under the last row
/// that its label meets. Only the text of an empty label at the source's end is not drawn. It does
/// nothing; a caller calls it to use the law.
pub fn texts_hang_once(_source: &[u8], _labels: &[LabeledSpan], _tab: usize)
    ensures { HaveTextsOnce _tab _source.now _labels.now }
{}

/// The law that, if CR occurs only before LF, every row of the source that a label meets is drawn
/// exactly once, with its true number, length and text. It does nothing; a caller calls it to use
/// the law.
pub fn rows_stand_once(_source: &[u8], _labels: &[LabeledSpan], _tab: usize)
    ensures { HaveRowsOnce _tab _source.now _labels.now }
{}

/// The law that the marks of a row follow one another: each starts at its label's first cell, or
/// where the mark before it ends if that is later. No other list of marks has this property. It
/// does nothing; a caller calls it to use the law.
pub fn one_placed_list(_row: &Row<'_>, _spans: &[Span], _tab: usize)
    ensures { HasOnePlacedList _tab (row_view _row.now) _spans.now }
{}
