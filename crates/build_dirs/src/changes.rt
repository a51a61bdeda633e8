//! Lines that say that a build enters or leaves a directory.
ghost use Rattle.std.specs.Prelude.{◌≡◌, MatchOption, option_map};
ghost use Rattle.std.specs.Option.{option_copied};
ghost use Rattle.std.specs.List.{list_all};
ghost use Rattle.build_dirs.specs.Changes.{HasNoHead, HasNoPath, HasNoVerb, IsChange, IsHead};
ghost use Rattle.build_dirs.specs.Changes.{IsNoChange};
ghost use Rattle.build_dirs.specs.Changes.{IsPath, IsVerb, HasNoClose, HasNoOpen, IsClosed};
ghost use Rattle.build_dirs.specs.Changes.{IsOpened};
ghost use Rattle.build_dirs.specs.Changes.{change_of, change_parts, closed, head_of as head_meant};
ghost use Rattle.build_dirs.specs.Changes.{opened, path_in, verb_of as verb_meant};
ghost use Rattle.build_dirs.specs.Changes.{is_program as is_program_text};
ghost use Rattle.build_dirs.specs.Changes.{is_program_byte as is_program_char};

use escapes::{behind, cut, number, without_last};

/// What a line says of a directory.
#[derive(Clone, Copy)]
pub struct Change<'a> {
    /// Who says it, as `make`.
    pub program: &'a str,
    /// How deep in other builds it is, as in `make[2]`; 0 without a number.
    pub level: usize,
    /// Whether the directory is entered, and not left.
    pub opens: bool,
    pub path: &'a str,
}

/// What a line says of a directory: `PROGRAM[N]: Entering directory 'D'`, or `Leaving`. There may
/// be no `[N]`, and other quotes.
#[tactic(auto, unfolding(crate::specs::Changes::change_of))]
pub fn change_in(line: &str) -> Option<Change<'_>>
    ensures says { MatchOption result (IsNoChange line.now)
        (λ c. IsChange line.now c.program.now c.level c.opens c.path.now) }
    ensures value { option_map change_parts result ≡ change_of line.now }
{
    // (few lines end with a quote)
    if before_quote(line).is_none() {
        return None;
    }
    let Some((head, says)) = cut(line, ':') else {
        return None;
    };
    let Some((program, level)) = head_of(head) else {
        return None;
    };
    let Some((opens, quoted)) = verb_of(says) else {
        return None;
    };
    let Some(path) = path_of(quoted) else {
        return None;
    };
    Some(Change {
        program,
        level,
        opens,
        path,
    })
}

/// A program and its level.
#[tactic(auto, unfolding(crate::specs::Changes::head_of))]
fn head_of(head: &str) -> Option<(&str, usize)>
    ensures says { MatchOption result (HasNoHead head.now) (λ x. IsHead head.now x.0.now x.1) }
    ensures value { option_map (λ x. (x.0.now, x.1)) result ≡ head_meant head.now }
{
    let Some((program, rest)) = cut(head, '[') else {
        return if is_program(head) {
            Some((head, 0))
        } else {
            None
        };
    };
    if !is_program(program) {
        return None;
    }
    let Some(digits) = without_last(rest, ']') else {
        return None;
    };
    match number(digits) {
        Some(level) => Some((program, level)),
        None => None,
    }
}

#[tactic(auto, unfolding(crate::specs::Changes::is_program))]
/// Whether a text may be the name of a program: letters, digits, `_`, `.`, `+`, `-` and `/`.
fn is_program(text: &str) -> bool
    ensures { result ≡ is_program_text text.now }
{
    if text.is_empty() {
        return false;
    }
    are_program_bytes(text.as_bytes())
}

fn are_program_bytes(bytes: &[u8]) -> bool
    ensures { result ≡ list_all is_program_char bytes.now }
{
    bytes.iter().all(|byte| is_program_byte(*byte))
}

fn is_program_byte(byte: u8) -> bool
    ensures { result ≡ is_program_char byte }
{
    byte.is_ascii_alphanumeric() || matches!(byte, b'_' | b'.' | b'+' | b'-' | b'/')
}

/// Whether a directory is entered, and what follows.
#[tactic(auto, unfolding(crate::specs::Changes::verb_of))]
fn verb_of(says: &str) -> Option<(bool, &str)>
    ensures says { MatchOption result (HasNoVerb says.now) (λ x. IsVerb says.now x.0 x.1.now) }
    ensures value { option_map (λ x. (x.0, x.1.now)) result ≡ verb_meant says.now }
{
    if let Some(quoted) = behind(says, " Entering directory ") {
        return Some((true, quoted));
    }
    match behind(says, " Leaving directory ") {
        Some(quoted) => Some((false, quoted)),
        None => None,
    }
}

/// The path between quotes.
#[tactic(auto, unfolding(crate::specs::Changes::path_in))]
fn path_of(quoted: &str) -> Option<&str>
    ensures says { MatchOption result (HasNoPath quoted.now) (λ path. IsPath quoted.now path.now) }
    ensures value { option_copied result ≡ path_in quoted.now }
{
    let Some(inner) = after_quote(quoted) else {
        return None;
    };
    let Some(path) = before_quote(inner) else {
        return None;
    };
    if path.is_empty() { None } else { Some(path) }
}

/// The text after a quote.
#[tactic(auto, unfolding(crate::specs::Changes::opened))]
fn after_quote(text: &str) -> Option<&str>
    ensures says { MatchOption result (HasNoOpen text.now) (λ rest. IsOpened text.now rest.now) }
    ensures value { option_copied result ≡ opened text.now }
{
    if let Some(rest) = behind(text, "'") {
        return Some(rest);
    }
    if let Some(rest) = behind(text, "`") {
        return Some(rest);
    }
    match behind(text, "\"") {
        Some(rest) => Some(rest),
        None => None,
    }
}

/// The text before a quote at its end.
#[tactic(auto, unfolding(crate::specs::Changes::closed))]
fn before_quote(text: &str) -> Option<&str>
    ensures says { MatchOption result (HasNoClose text.now) (λ front. IsClosed text.now front.now) }
    ensures value { option_copied result ≡ closed text.now }
{
    if let Some(front) = without_last(text, '\'') {
        return Some(front);
    }
    match without_last(text, '"') {
        Some(front) => Some(front),
        None => None,
    }
}
