// Patterns of files and of rules.
ghost use Rattle.std.specs.Prelude.{◌≡◌, ◌≤◌, true, false, IfOk, List, length, reverse};
ghost use Rattle.std.specs.List.{list_any, prefix_len, suffix_len};
ghost use Rattle.std.specs.Str.{chars};
ghost use Rattle.finding_filters.specs.Patterns.{GlobParts, glob_in, glob_takes};
ghost use Rattle.finding_filters.specs.Patterns.{is_slash, is_slash_first, rule_takes, takes_at};
ghost use Rattle.finding_filters.specs.Patterns.{takes_scope, takes_whole, tokens_at, without_dot_in};
ghost use Rattle.finding_filters.specs.Tokens.{last_value, step_row, tokens_of};
ghost use Rattle.finding_filters.specs.declared.tokens.Token.{Token};
ghost use Rattle.finding_filters.specs.declared.tokens.Token.TheVariants.{Any, Exactly};

use crate::tokens::{Ending, Token, is_last_true, step, taken, tokens_back};
use std::alloc::{AllocError, Global};
use std::marker::Model;

/// A pattern of the names of files, as `--include` and `--exclude` have it. `*` matches a run
/// without slashes, `**` for any characters, `?` for one character, and all else for itself. It
/// takes a folder with all below; without an inner slash it begins at any folder.
#[derive(Drop)]
pub struct Glob {
    /// What it takes of a name that begins at the top, from the last token on.
    absolute: Vec<Token>,
    /// What it takes of another name.
    relative: Vec<Token>,
    anywhere: bool,
    ending: Ending,
}

impl Model for Glob {
    ghost Value = { GlobParts };

    ghost view = { λ s. record {
      absolute = s.absolute.items;
      relative = s.relative.items;
      anywhere = s.anywhere;
      ending = s.ending;
    } };
}

impl Glob {
    /// The pattern of a text.
    ///
    /// # Errors
    ///
    /// Out of memory.
    #[tactic(auto, unfolding(crate::specs::Patterns::glob_in))]
    pub fn new(alloc: Global, pattern: &str) -> Result<Glob, AllocError>
        ensures { IfOk result (λ glob. glob ≡ glob_in (chars pattern.now)) }
    {
        let characters = characters(alloc, pattern)?;
        let pattern = without_dot(&characters);
        let path = &pattern[..pattern.len() - slashes_after(pattern)];
        Ok(Glob {
            absolute: tokens_back(alloc, false, path)?,
            relative: tokens_back(alloc, false, &path[slashes_before(path)..])?,
            anywhere: !has_slash(path),
            ending: if path.len() < pattern.len() {
                Ending::Slash
            } else {
                Ending::NothingOrSlash
            },
        })
    }

    /// Whether it takes a name, which is as [`Root::plain`] gives it.
    ///
    /// [`Root::plain`]: changed_rows::Root::plain
    ///
    /// # Errors
    ///
    /// Out of memory.
    pub fn takes(&self, alloc: Global, name: &str) -> Result<bool, AllocError>
        ensures { IfOk result (λ is. is ≡ glob_takes self.now (chars name.now)) }
    {
        let mut text = characters(alloc, name)?;
        let absolute = begins_at_slash(&text);
        text.reverse();
        self.takes_back(alloc, absolute, &text)
    }

    /// The same of a text from its last character on.
    #[tactic(auto, using(crate::proofs::TokenLemmas::row_rules))]
    fn takes_back(&self, alloc: Global, absolute: bool, text: &[char]) -> Result<bool, AllocError>
        ensures { IfOk result (λ is. is ≡ takes_at self.now absolute (reverse text.now)) }
    {
        let tokens = self.tokens(absolute);
        let row = taken(alloc, tokens, self.ending, text)?;
        if is_last_true(&row) {
            Ok(true)
        } else if self.anywhere {
            Ok(after_slash(alloc, text, &row)?)
        } else {
            Ok(false)
        }
    }

    /// The tokens for a name that begins at the top, or for another.
    fn tokens(&self, absolute: bool) -> &[Token]
        ensures { result.now ≡ tokens_at self.now absolute }
    {
        if absolute {
            &self.absolute
        } else {
            &self.relative
        }
    }
}

/// A pattern of rules, as `--select` and `--ignore` have it. `*` matches any characters, `?` for
/// one, and all else for itself.
#[derive(Drop)]
pub struct Rule {
    /// What it takes, from the last token on.
    tokens: Vec<Token>,
}

impl Model for Rule {
    ghost Value = { List Token };

    ghost view = { λ s. s.tokens.items };
}

impl Rule {
    /// The pattern of a text.
    ///
    /// # Errors
    ///
    /// Out of memory.
    pub fn new(alloc: Global, pattern: &str) -> Result<Rule, AllocError>
        ensures { IfOk result (λ rule. rule ≡ reverse (tokens_of true false (chars pattern.now))) }
    {
        let characters = characters(alloc, pattern)?;
        Ok(Rule {
            tokens: tokens_back(alloc, true, &characters)?,
        })
    }

    /// Whether it takes the code of a finding, its scope, `scope(code)` or `scope/code`. Both are
    /// empty where a finding has none.
    ///
    /// # Errors
    ///
    /// Out of memory.
    pub fn takes(&self, alloc: Global, scope: &str, code: &str) -> Result<bool, AllocError>
        ensures { IfOk result (λ is. is ≡ rule_takes self.now scope.now code.now) }
    {
        if self.takes_text(alloc, code)? {
            return Ok(true);
        }
        if scope.is_empty() {
            return Ok(false);
        }
        self.takes_scope(alloc, scope, code)
    }

    /// Whether it takes a scope, alone or with a code.
    fn takes_scope(&self, alloc: Global, scope: &str, code: &str) -> Result<bool, AllocError>
        ensures { IfOk result (λ is. is ≡ takes_scope self.now scope.now code.now) }
    {
        if self.takes_text(alloc, scope)? {
            return Ok(true);
        }
        let in_brackets = format!(in alloc; "{scope}({code})")?;
        if self.takes_text(alloc, in_brackets.as_str())? {
            return Ok(true);
        }
        let after_slash = format!(in alloc; "{scope}/{code}")?;
        Ok(self.takes_text(alloc, after_slash.as_str())?)
    }

    /// Whether it takes a text.
    #[tactic(auto, using(crate::proofs::TokenLemmas::row_rules))]
    fn takes_text(&self, alloc: Global, text: &str) -> Result<bool, AllocError>
        ensures { IfOk result (λ is. is ≡ takes_whole self.now (chars text.now)) }
    {
        let mut text = characters(alloc, text)?;
        text.reverse();
        let row = taken(alloc, &self.tokens, Ending::Nothing, &text)?;
        Ok(is_last_true(&row))
    }
}

/// Whether a pattern takes a text after any characters and a slash.
fn after_slash(alloc: Global, text: &[char], row: &[bool]) -> Result<bool, AllocError>
    ensures { IfOk result (λ is. is ≡ last_value (step_row Any text.now
        (step_row (Exactly 47) text.now row.now))) }
{
    let row = step(alloc, Token::Exactly('/'), text, row)?;
    let row = step(alloc, Token::Any, text, &row)?;
    Ok(is_last_true(&row))
}

/// The characters of a text.
fn characters(alloc: Global, text: &str) -> Result<Vec<char>, AllocError>
    ensures { IfOk result (λ all. all.items ≡ chars text.now) }
{
    text.chars().collect(alloc)
}

/// A pattern without `./` before it.
fn without_dot(pattern: &[char]) -> &[char]
    ensures { result.now ≡ without_dot_in pattern.now }
{
    match pattern {
        ['.', '/', rest @ ..] => rest,
        _ => pattern,
    }
}

/// The number of slashes at the end.
fn slashes_after(pattern: &[char]) -> usize
    ensures value { result ≡ suffix_len is_slash pattern.now }
    ensures within { result ≤ length pattern.now }
{
    pattern.iter().rev().take_while(|it| **it == '/').count()
}

/// The number of slashes at the beginning.
fn slashes_before(pattern: &[char]) -> usize
    ensures value { result ≡ prefix_len is_slash pattern.now }
    ensures within { result ≤ length pattern.now }
{
    pattern.iter().take_while(|it| **it == '/').count()
}

fn has_slash(pattern: &[char]) -> bool
    ensures { result ≡ list_any is_slash pattern.now }
{
    pattern.iter().any(|it| *it == '/')
}

/// Whether a name begins at the top.
fn begins_at_slash(name: &[char]) -> bool
    ensures { result ≡ is_slash_first name.now }
{
    match name {
        ['/', ..] => true,
        _ => false,
    }
}
