//! The handler that draws reports.
ghost use Rattle.std.specs.Prelude.{◌≡◌};

use crate::theme::GraphicalTheme;
use oxc_plan::TabWidth;
use std::marker::Model;

/// Draws reports with a theme, a width to which texts are filled, and a tab width.
#[derive(Clone, Copy, Debug)]
pub struct GraphicalReportHandler {
    pub(crate) termwidth: usize,
    pub(crate) theme: GraphicalTheme,
    pub(crate) tabs: TabWidth,
}

impl Model for GraphicalReportHandler {
    ghost use Rattle.oxc_handlers.specs.Handler.{Handler};

    ghost Value = { Handler };

    ghost view = { λ handler. record {
      theme = handler.theme;
      width = handler.termwidth;
      tab = handler.tabs;
    } };

    ghost inverse = { λ handler. record {
      termwidth = handler.width;
      theme = handler.theme;
      tabs = handler.tab;
    } };
}

impl GraphicalReportHandler {
    /// A handler with this theme. It fills to 200 columns, and its tab width is 4.
    pub fn new_themed(theme: GraphicalTheme) -> Self
        ensures { result ≡ record { theme = theme; width = 200; tab = 4 } }
    {
        GraphicalReportHandler {
            termwidth: 200,
            theme,
            tabs: TabWidth::default(),
        }
    }

    /// The same handler with another theme.
    pub fn with_theme(self, theme: GraphicalTheme) -> Self
        ensures { result ≡ record { theme = theme; width = self.width; tab = self.tab } }
    {
        GraphicalReportHandler { theme, ..self }
    }

    /// The same handler with another width, in columns, to which titles, help and notes are filled.
    pub fn with_width(self, width: usize) -> Self
        ensures { result ≡ record { theme = self.theme; width = width; tab = self.tab } }
    {
        GraphicalReportHandler {
            termwidth: width,
            ..self
        }
    }

    /// The same handler with another tab width.
    pub fn with_tabs(self, tabs: TabWidth) -> Self
        ensures { result ≡ record { theme = self.theme; width = self.width; tab = tabs } }
    {
        GraphicalReportHandler { tabs, ..self }
    }
}
