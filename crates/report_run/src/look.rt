// What a run is asked for: how the reports of a document are shown, or how many are generated.
ghost use Rattle.std.specs.Prelude.{◌≡◌, IfSome, map, option_map, string_bytes};
ghost use Rattle.report_run.specs.Drawn.{theme_of};
ghost use Rattle.report_run.specs.Tasks.{command_for};
ghost use Rattle.report_run.specs.Words.{IsFew, command_of};

use crate::words::{Command, ThemeName, read_words};
use oxc_handlers::GraphicalTheme;
use oxc_plan::TabWidth;

/// How the reports of a document are shown: the options of the arguments.
#[derive(Drop)]
pub(crate) struct Look {
    pub(crate) theme: ThemeName,
    pub(crate) width: usize,
    pub(crate) tabs: TabWidth,
    pub(crate) json: bool,
}

/// What a command asks for, with the look of the reports as one value.
#[derive(Drop)]
pub(crate) enum Task {
    Draw(Look),
    Make(u32),
}

/// What the arguments ask for, if they are right.
pub(crate) fn asked(words: &[String]) -> Option<Task>
    ensures command { option_map command_for result ≡ command_of (map string_bytes words.now) }
    ensures few { IfSome result (λ it. IsFew (command_for it)) }
{
    match read_words(words)? {
        Command::Make { count } => Some(Task::Make(count)),
        Command::Draw {
            theme,
            width,
            tabs,
            json,
        } => Some(Task::Draw(Look {
            theme,
            width,
            tabs,
            json,
        })),
    }
}

/// The theme with this name.
pub(crate) fn theme(name: ThemeName) -> GraphicalTheme
    ensures { result ≡ theme_of name }
{
    match name {
        ThemeName::Plain => GraphicalTheme::none(),
        ThemeName::Unicode => GraphicalTheme::unicode(),
        ThemeName::UnicodeNocolor => GraphicalTheme::unicode_nocolor(),
    }
}
