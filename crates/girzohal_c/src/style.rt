// The style of a look, or which of its numbers is wrong.
ghost use Rattle.std.specs.Prelude.{◌≡◌, Some, None, MatchResult};
ghost use Rattle.girzohal_c.specs.Meaning.{wrong_look};
ghost use Rattle.girzohal_c.specs.Replies.{IsStyleOf};

use crate::shapes::Look;
use oxc_handlers::{GraphicalReportHandler, GraphicalTheme};
use oxc_plan::TabWidth;

/// The form that reports are written in.
#[derive(Drop)]
pub(crate) enum Form {
    /// Each is drawn.
    Drawing,
    /// Each is a line of JSON.
    Json,
}

/// How reports are written.
#[derive(Drop)]
pub(crate) struct Style {
    pub(crate) handler: GraphicalReportHandler,
    pub(crate) form: Form,
}

/// The style of a look.
///
/// # Errors
///
/// The first wrong field of the look, from 0.
pub(crate) fn style_of(look: &Look) -> Result<Style, usize>
    ensures { MatchResult result
        (λ style. IsStyleOf look.now style × (wrong_look look.now ≡ None))
        (λ at. wrong_look look.now ≡ Some at) }
{
    let theme = match look.theme {
        0 => GraphicalTheme::unicode(),
        1 => GraphicalTheme::unicode_nocolor(),
        2 => GraphicalTheme::none(),
        _ => return Err(0),
    };
    let Some(tabs) = TabWidth::new(look.tabs as usize) else {
        return Err(1);
    };
    let form = match look.form {
        0 => Form::Drawing,
        1 => Form::Json,
        _ => return Err(2),
    };
    let handler = GraphicalReportHandler::new_themed(theme)
        .with_width(look.width)
        .with_tabs(tabs);
    Ok(Style { handler, form })
}
