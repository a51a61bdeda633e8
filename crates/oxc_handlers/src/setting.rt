//! What the lines of a snippet depend on.
ghost use Rattle.std.specs.Prelude.{◌≡◌};
ghost use Rattle.std.specs.Option.{option_copied};
ghost use Rattle.oxc_plan.specs.Order.{label_order};
ghost use Rattle.oxc_plan.specs.Plan.{in_order};
ghost use Rattle.oxc_handlers.specs.Setting.{highlight, is_empty_at, setting_for, text_at};

use crate::theme::{GraphicalTheme, Style};
use oxc_plan::TabWidth;
use oxc_protocol::LabeledSpan;
use std::marker::Model;

/// What the lines of a snippet depend on. Labels are named by their indices in label order.
#[derive(Drop)]
pub(crate) struct Setting<'a> {
    pub(crate) theme: GraphicalTheme,
    /// The report's labels, as given.
    pub(crate) labels: &'a [LabeledSpan],
    /// The label order.
    pub(crate) order: &'a [usize],
    /// The tab width.
    pub(crate) tabs: TabWidth,
    /// The most bars beside one row.
    pub(crate) gutter: usize,
    /// The number of digits of the row numbers.
    pub(crate) digits: usize,
}

impl<'a> Model for Setting<'a> {
    ghost use Rattle.oxc_handlers.specs.Setting.{SettingView};

    ghost Value = { SettingView };

    ghost use Rattle.oxc_handlers.specs.SettingView.{setting_view};

    ghost view = { setting_view };
}

impl<'a> Setting<'a> {
    /// The setting of a report with these labels and their label order. What depends on a snippet
    /// isn't set yet: there are no bars, and numbers have one digit.
    pub(crate) fn new(
        theme: GraphicalTheme,
        labels: &'a [LabeledSpan],
        order: &'a [usize],
        tabs: TabWidth,
    ) -> Self
        requires { order.now ≡ label_order labels.now }
        ensures { result ≡ setting_for theme tabs (in_order labels.now) }
    {
        Setting {
            theme,
            labels,
            order,
            tabs,
            gutter: 0,
            digits: 1,
        }
    }

    /// The text of a label.
    #[tactic(auto, unfolding(crate::specs::Setting::text_at), using(crate::proofs::SettingLemmas::at_mapped))]
    pub(crate) fn text_at(&self, label: usize) -> Option<&'a str>
        ensures { option_copied result ≡ text_at self.now.labels label }
    {
        match self.order.get(label) {
            Some(at) => match self.labels.get(*at) {
                Some(found) => found.label(),
                None => None,
            },
            None => None,
        }
    }

    /// Whether a label is empty.
    #[tactic(auto, unfolding(crate::specs::Setting::is_empty_at), using(crate::proofs::SettingLemmas::at_mapped))]
    pub(crate) fn is_empty_at(&self, label: usize) -> bool
        ensures { result ≡ is_empty_at self.now.labels label }
    {
        match self.order.get(label) {
            Some(at) => match self.labels.get(*at) {
                Some(found) => found.len() == 0,
                None => true,
            },
            None => true,
        }
    }

    /// The style of a label.
    #[tactic(auto, unfolding(crate::specs::Setting::highlight))]
    pub(crate) fn highlight(&self, label: usize) -> Style
        ensures { result ≡ highlight self.now.theme label }
    {
        self.theme.styles.highlights[label % 3]
    }
}
