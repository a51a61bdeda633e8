// Colors and width from the environment.
use girzohal_options::ThemeChoice;
use std::env;

/// The default width of a drawing, in columns.
const WIDTH: usize = 80;

/// The environment.
#[derive(Clone, Copy)]
pub(crate) struct Surroundings {
    /// Whether the output is a terminal.
    terminal: bool,
    /// Whether `FORCE_COLOR` or `CLICOLOR_FORCE` is set, and neither empty nor `0`.
    forced: bool,
    /// Whether `NO_COLOR` is set and not empty, or `CLICOLOR` is `0`.
    refused: bool,
    /// Whether `TERM` is `dumb`.
    dumb: bool,
    /// The number that `COLUMNS` is, if it is one and not 0.
    columns: Option<usize>,
}

impl Surroundings {
    ghost use Rattle.std.specs.Prelude.{◌≡◌, ◌≢◌, ◌&&◌, ◌||◌, IfSome, if◌then◌else◌, not};
    ghost use Rattle.girzohal_options.specs.declared.ThemeChoice.TheVariants.{Auto, Unicode};
    ghost use Rattle.girzohal_options.specs.declared.ThemeChoice.TheVariants.{UnicodeNocolor};

    /// The environment of the program.
    pub(crate) fn of(rt: &HostRuntime, terminal: bool) -> Surroundings {
        let columns = match env::var(rt, "COLUMNS") {
            Ok(text) => width_in(text.as_str()),
            Err(_) => None,
        };
        Surroundings {
            terminal,
            forced: is_set_but(rt, "FORCE_COLOR", "0") || is_set_but(rt, "CLICOLOR_FORCE", "0"),
            refused: is_set_but(rt, "NO_COLOR", "") || is(rt, "CLICOLOR", "0"),
            dumb: is(rt, "TERM", "dumb"),
            columns,
        }
    }

    /// The theme of a choice. For `Auto` it has colors if they are forced, or if the output is a
    /// terminal and they aren't turned off.
    pub(crate) fn theme(self, choice: ThemeChoice) -> ThemeChoice
        ensures asked { choice ≢ Auto → result ≡ choice }
        ensures auto { choice ≡ Auto → result ≡ (if self.forced
            || (self.terminal && not self.refused && not self.dumb)
            then Unicode else UnicodeNocolor) }
    {
        match choice {
            ThemeChoice::Auto if self.forced || self.terminal && !self.refused && !self.dumb => {
                ThemeChoice::Unicode
            }
            ThemeChoice::Auto => ThemeChoice::UnicodeNocolor,
            chosen => chosen,
        }
    }

    /// The width of a drawing.
    pub(crate) fn width(self, asked: Option<usize>) -> usize
        ensures { IfSome asked (λ width. result ≡ width) }
    {
        match asked {
            Some(width) => width,
            None => self.columns.unwrap_or(WIDTH),
        }
    }
}

/// The width that a text is.
fn width_in(text: &str) -> Option<usize> {
    match text.parse::<usize>() {
        Ok(width) if width > 0 => Some(width),
        _ => None,
    }
}

/// Whether a variable is set to something that is neither empty nor this text. A value that isn't
/// UTF-8 counts as something.
fn is_set_but(rt: &HostRuntime, name: &str, text: &str) -> bool {
    match env::var(rt, name) {
        Ok(value) => !value.as_str().is_empty() && value.as_str() != text,
        Err(env::VarError::NotPresent) => false,
        Err(_) => true,
    }
}

/// Whether a variable is this text.
fn is(rt: &HostRuntime, name: &str, text: &str) -> bool {
    match env::var(rt, name) {
        Ok(value) => value.as_str() == text,
        Err(_) => false,
    }
}
