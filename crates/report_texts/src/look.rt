// How reports are drawn.
ghost use Rattle.std.specs.Prelude.{◌≡◌, ◌++◌, OnOk, string_bytes};
ghost use Rattle.oxc_handlers.specs.Report.{report_of, view_parts};
ghost use Rattle.oxc_handlers.specs.Scanners.{CanDraw};
ghost use Rattle.oxc_windows.specs.Scan.{IsSameReader};
ghost use Rattle.report_texts.specs.Each.{page_look};
ghost use Rattle.report_texts.specs.LongRows.{fitted};
ghost use Rattle.report_texts.specs.Texts.{look_of, themed};

use crate::long_rows::{long_note, long_row};
use girzohal_options::{Asked, ThemeChoice};
use oxc_handlers::{DiagnosticView, GraphicalReportHandler, GraphicalTheme};
use oxc_windows::SpanScanner;
use shown_reports::ShownText;
use std::alloc::{AllocError, Global};

/// The default width of a drawing.
const WIDTH: usize = 80;

/// How reports are drawn.
#[derive(Drop)]
pub struct Look {
    /// What draws them.
    pub handler: GraphicalReportHandler,
    /// The most columns of a row that is drawn; if there is none, all rows are.
    pub max_row: Option<usize>,
}

impl Look {
    /// As it was asked for.
    pub fn new(asked: &Asked) -> Look
        ensures { result ≡ look_of asked.now }
    {
        match asked.theme {
            ThemeChoice::Plain => Look::with_theme(asked, GraphicalTheme::none()),
            ThemeChoice::Unicode => Look::with_theme(asked, GraphicalTheme::unicode()),
            ThemeChoice::Auto | ThemeChoice::UnicodeNocolor => {
                Look::with_theme(asked, GraphicalTheme::unicode_nocolor())
            }
        }
    }

    /// For a page: with styles, unless ASCII is asked for.
    pub fn of_page(asked: &Asked) -> Look
        ensures { result ≡ page_look asked.now }
    {
        match asked.theme {
            ThemeChoice::Plain => Look::with_theme(asked, GraphicalTheme::none()),
            ThemeChoice::Auto | ThemeChoice::Unicode | ThemeChoice::UnicodeNocolor => {
                Look::with_theme(asked, GraphicalTheme::unicode())
            }
        }
    }

    /// As it was asked for, but for the theme.
    fn with_theme(asked: &Asked, theme: GraphicalTheme) -> Look
        ensures { result ≡ themed asked.now theme }
    {
        Look {
            handler: GraphicalReportHandler::new_themed(theme)
                .with_width(asked.width.unwrap_or(WIDTH))
                .with_tabs(asked.tabs),
            max_row: asked.max_row,
        }
    }

    /// Appends the drawing of a view on a source of this name. A row that is too long isn't drawn.
    ///
    /// # Errors
    ///
    /// Out of memory.
    #[tactic(auto, using(crate::proofs::LongLemmas::can_bare, crate::proofs::LongLemmas::can_group, crate::proofs::LongLemmas::can_still, crate::proofs::LongLemmas::fitted_all, crate::proofs::LongLemmas::fitted_long, crate::proofs::LongLemmas::fitted_short, oxc_windows::proofs::TotalLemmas::same_then))]
    pub fn push(
        &self,
        alloc: Global,
        out: &mut String,
        name: &str,
        source: &ShownText<'_>,
        view: &DiagnosticView<'_>,
        scanner: &mut SpanScanner<'_>,
    ) -> Result<(), AllocError>
        requires source { scanner.old.input ≡ source.now }
        requires draw { CanDraw scanner.old (view_parts view.now) }
        ensures text { OnOk result (string_bytes out.new ≡ string_bytes out.old
            ++ report_of self.now.handler
            (fitted self.now.max_row name.now source.now (view_parts view.now))) }
        ensures same { IsSameReader scanner.old scanner.new }
    {
        let Some(most) = self.max_row else {
            return self
                .handler
                .push_view_with_scanner(alloc, out, view, scanner);
        };
        match long_row(alloc, source, scanner, view.labels, most)? {
            Some(row) => {
                let note = long_note(alloc, source, name, view.note, view.labels, most, row)?;
                let short = DiagnosticView {
                    note: Some(note.as_str()),
                    labels: &[],
                    ..*view
                };
                self.handler
                    .push_view_with_scanner(alloc, out, &short, scanner)
            }
            None => self
                .handler
                .push_view_with_scanner(alloc, out, view, scanner),
        }
    }
}
