//! What a drawing shows of a source: which labels share a snippet, and the rows of each snippet.
//!
//! Labels are ordered by their starts ([`label_order`]). [`groups`] gives those that share a
//! snippet, and [`rows_of`] the rows of what a scanner read for one. [`column_of`] gives the column
//! of an offset in a drawn row, and [`MarkCells`] the cells under a row that a label marks.
//! [`plan_snippets`] does all of this: it gives the plan of a report's snippets, before a character
//! is drawn. Offsets and lengths count bytes.
//!
//! The modules, in the order in which labels pass through them:
//! - `order`: the label order
//! - `labels`: labels and their spans in that order
//! - `reading`: what the scanner reads around a span
//! - `grouping`: which labels share a snippet, and what is read for them
//! - `heads`: where a snippet's head points
//! - `rows`: the rows of what was read, split off one by one
//! - `sweep`: the labels that are open at a row
//! - `tabs`, `columns`, `measuring`: the columns of offsets in a row
//! - `marks`: which labels meet a row, and the cells in which they are marked
//! - `bars`: the bars beside a row, and the texts at their ends
//! - `hangs`: the texts that hang below a row
//! - `snippets`: all of this together
//! - `laws`: what holds of every plan
#![tactic(auto)]

mod bars;
mod columns;
mod grouping;
mod hangs;
mod heads;
mod labels;
mod laws;
mod marks;
mod measuring;
mod order;
mod reading;
mod rows;
mod snippets;
mod sweep;
mod tabs;

pub use crate::bars::{Bar, BarKind};
pub use crate::columns::{Pen, column_of, columns_as_drawn, moved_over};
pub use crate::grouping::{groups, one_grouping};
pub use crate::hangs::Hang;
pub use crate::laws::{labels_stand_once, one_placed_list, rows_stand_once, texts_hang_once};
pub use crate::marks::{MarkCells, exact_marks};
pub use crate::order::{label_order, one_label_order};
pub use crate::rows::{Row, rows_of};
pub use crate::snippets::{RowPlan, SnippetPlan, plan_snippets, plan_snippets_in_order};
pub use crate::tabs::TabWidth;
