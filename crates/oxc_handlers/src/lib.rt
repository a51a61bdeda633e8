//! Draws reports: from a diagnostic, its source and its labels to the text that a person sees.
//!
//! A [`GraphicalReportHandler`] draws with a [`GraphicalTheme`], a width and a tab width. What it
//! draws is a [`DiagnosticView`]: the parts of a diagnostic, all of them borrowed. A
//! [`JSONReportHandler`] writes the same parts as JSON.
//!
//! A report, with the names of its parts:
//!
//! ```text
//!                                    an empty line, then
//!   x eslint(no-undef): 'c' is not   the title: the icon, the code and the message
//!   | defined                        ... filled to the width, under its bar
//!    ,-[a.js:1:1]                    the head of a snippet: the name, the row and the column
//!  1 | ,-> foo                       a row: its number, the gutter, the row's text
//!  2 | |   bar                       ... where the bar of a multi-row label passes
//!    : |   ^|^                       the mark line: the marks of the labels within the row
//!    : |    `-- here                 a hanging text, after the bars before it
//!  3 | |-> baz
//!    : `---- block                   the text of the label that ends there
//!    `----                           the close of the snippet
//!   help: declare it                 the help, and after it the note
//! ```
//!
//! The modules, in the order in which data passes through them:
//!
//! - `reports`: boxed diagnostics, one or a list, written to a sink or passed on as texts; `plain`:
//!   one as a text without colors.
//! - `view`: what is drawn of a diagnostic, and the errors.
//! - `handler`, `theme`: the options of a drawing: width, tab width, characters and styles.
//! - `report`: a whole report: checks it, plans it by `oxc_plan`, and writes title, snippets, help
//!   and note.
//! - `setting`: what the lines of a snippet depend on.
//! - `snippet`: the head, the rows and the close of a snippet.
//! - `gutter`: what is drawn to the left of a row and of the lines under it.
//! - `line`: the text of a row, with its tabs.
//! - `label`, `marks`, `hangs`: what is drawn under a row: its marks, the texts that hang at them,
//!   and those of labels that end there; `text_lines` splits a text into lines.
//! - `runs`: runs of one character, and numbers.
//! - `json_report`: the same parts as JSON.
//! - `laws`: what the definitions mean, as the contracts of functions that do nothing.
#![tactic(auto)]

mod gutter;
mod handler;
mod hangs;
mod json_report;
mod label;
mod laws;
mod line;
mod marks;
mod plain;
mod report;
mod reports;
mod runs;
mod setting;
mod snippet;
mod text_lines;
mod theme;
mod view;

pub use crate::handler::GraphicalReportHandler;
pub use crate::json_report::{
    JSONReportHandler, escaped_text_comes_back, push_json, push_json_with_scanner,
};
pub use crate::laws::{
    colors_only, columns_as_shown, gutter_by_places, gutter_under_by_places, marks_by_columns,
};
pub use crate::plain::{render, render_with_source_code};
pub use crate::reports::Keep;
pub use crate::theme::GraphicalTheme;
pub use crate::view::{DiagnosticView, RenderError};
