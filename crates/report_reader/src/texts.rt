//! Texts split at a character.
ghost use Rattle.std.specs.Prelude.{◌≡◌, ◌<◌, Some, None, IfNone, option_map};
ghost use Rattle.report_reader.specs.Reading.{back, cut, front, split_last};
ghost use Rattle.report_reader.specs.Reading.{without_spaces};

/// The text before the first `c`, or all of it, and the text after that `c`, or nothing.
pub(crate) fn split_first(text: &str, c: char) -> (&str, &str)
    requires { c < 128 }
    ensures front { result.0.now ≡ front c text.now }
    ensures back { result.1.now ≡ back c text.now }
{
    match text.split_once(c) {
        Some(parts) => parts,
        None => (text, ""),
    }
}

/// The texts before and after the last `c`.
pub(crate) fn split_behind(text: &str, c: char) -> Option<(&str, &str)>
    requires { c < 128 }
    ensures { option_map cut result ≡ split_last c text.now }
{
    text.rsplit_once(c)
}

/// The text without its leading spaces.
pub(crate) fn trimmed(text: &str) -> &str
    ensures { result.now ≡ without_spaces text.now }
{
    text.trim_start_matches(' ')
}
