// The parts of patterns, and the texts that they take.
ghost use Rattle.std.specs.Prelude.{◌≡◌, [], ◌∷◌, false, IfOk, reverse};
ghost use Rattle.finding_filters.specs.Tokens.{end_of, first_value, head_value, is_star_first};
ghost use Rattle.finding_filters.specs.Tokens.{last_value, row_of, step_first as first_step, step_row, takes_all};
ghost use Rattle.finding_filters.specs.Tokens.{token_in, tokens_of as tokens_in, value_of};

use std::alloc::{AllocError, Global};

/// What a part of a pattern matches.
#[derive(Clone, Copy)]
pub enum Token {
    /// This character.
    Exactly(char),
    /// One character that is no slash.
    One,
    /// One character.
    Each,
    /// Characters that are no slashes, or none.
    Run,
    /// Any characters, or none.
    Any,
}

/// What may come after the text that a pattern takes.
#[derive(Clone, Copy)]
pub enum Ending {
    /// Nothing.
    Nothing,
    /// Nothing or a slash.
    NothingOrSlash,
    /// A slash.
    Slash,
}

/// What the characters of a pattern match, from the last on. `*` beside another `*` matches any
/// characters, and alone a run without slashes; `?` matches one character other than a slash. In a
/// `rule` slashes are like other characters.
pub fn tokens_back(alloc: Global, rule: bool, pattern: &[char]) -> Result<Vec<Token>, AllocError>
    ensures { IfOk result (λ tokens. tokens.items ≡ reverse (tokens_in rule false pattern.now)) }
{
    let mut tokens = tokens_of(alloc, rule, pattern)?;
    tokens.reverse();
    Ok(tokens)
}

fn tokens_of(alloc: Global, rule: bool, pattern: &[char]) -> Result<Vec<Token>, AllocError>
    ensures { IfOk result (λ tokens. tokens.items ≡ tokens_in rule false pattern.now) }
{
    let mut tokens = Vec::new(alloc);
    let mut rest = pattern;
    let mut after_star = false;
    while let [character, others @ ..] = rest {
        let beside = after_star || begins_with_star(others);
        tokens.push(token_of(rule, beside, *character))?;
        after_star = *character == '*';
        rest = others;
    }
    Ok(tokens)
}

fn begins_with_star(pattern: &[char]) -> bool
    ensures { result ≡ is_star_first pattern.now }
{
    match pattern {
        ['*', ..] => true,
        _ => false,
    }
}

/// What a character of a pattern matches, beside a star or not.
fn token_of(rule: bool, beside: bool, character: char) -> Token
    ensures { result ≡ token_in rule beside character }
{
    if character == '*' {
        if rule || beside {
            Token::Any
        } else {
            Token::Run
        }
    } else if character == '?' {
        if rule { Token::Each } else { Token::One }
    } else {
        Token::Exactly(character)
    }
}

/// For each end part of a text, from the empty one to the whole, whether tokens take it. The
/// tokens and the text are given from the last on.
pub fn taken(
    alloc: Global,
    tokens: &[Token],
    ending: Ending,
    text: &[char],
) -> Result<Vec<bool>, AllocError>
    ensures { IfOk result (λ row. row.items
        ≡ row_of (takes_all (end_of ending) tokens.now) text.now) }
{
    let mut row = ends(alloc, ending, text)?;
    let mut rest = tokens;
    while let [_, others @ ..] = rest {
        row = step_first(alloc, rest, text, &row)?;
        rest = others;
    }
    Ok(row)
}

/// The row for the first of these tokens before the others.
fn step_first(
    alloc: Global,
    tokens: &[Token],
    text: &[char],
    row: &[bool],
) -> Result<Vec<bool>, AllocError>
    ensures { IfOk result (λ new. new.items ≡ first_step tokens.now text.now row.now) }
{
    match tokens {
        [token, ..] => Ok(step(alloc, *token, text, row)?),
        [] => Ok(row.to_vec(alloc)?),
    }
}

/// For each end part of a text, whether it may come after a pattern.
#[tactic(auto, using(crate::proofs::TokenLemmas::ends_row))]
fn ends(alloc: Global, ending: Ending, text: &[char]) -> Result<Vec<bool>, AllocError>
    ensures { IfOk result (λ row. row.items ≡ row_of (end_of ending) text.now) }
{
    let mut row = Vec::new(alloc);
    row.push(ends_text(ending))?;
    for character in text {
        row.push(ends_before(ending, *character))?;
    }
    Ok(row)
}

/// Whether nothing may come after a pattern.
fn ends_text(ending: Ending) -> bool
    ensures { result ≡ end_of ending [] }
{
    match ending {
        Ending::Nothing | Ending::NothingOrSlash => true,
        Ending::Slash => false,
    }
}

/// Whether this character may come after a pattern.
fn ends_before(ending: Ending, character: char) -> bool
    ensures { result ≡ end_of ending (character ∷ []) }
{
    match ending {
        Ending::Nothing => false,
        Ending::NothingOrSlash | Ending::Slash => character == '/',
    }
}

/// The row for one token before the others.
#[tactic(auto, unfolding(crate::specs::Tokens::step_row))]
pub fn step(
    alloc: Global,
    token: Token,
    text: &[char],
    row: &[bool],
) -> Result<Vec<bool>, AllocError>
    ensures { IfOk result (λ new. new.items ≡ step_row token text.now row.now) }
{
    let mut new = Vec::new(alloc);
    let mut last = first(token, is_first_true(row));
    new.push(last)?;
    let mut rest = text;
    let mut row = row;
    while let [character, others @ ..] = rest {
        let [before, olds @ ..] = row else {
            return Ok(new);
        };
        last = value(token, *character, is_first_true(olds), *before, last);
        new.push(last)?;
        rest = others;
        row = olds;
    }
    Ok(new)
}

/// The value for the empty end part.
fn first(token: Token, old: bool) -> bool
    ensures { result ≡ first_value token old }
{
    match token {
        Token::Exactly(_) | Token::One | Token::Each => false,
        Token::Run | Token::Any => old,
    }
}

/// The value for an end part that begins with a character: `here` and `before` are those of the
/// row before for it and for the end part without the character, and `last` is the new one for the
/// latter.
fn value(token: Token, character: char, here: bool, before: bool, last: bool) -> bool
    ensures { result ≡ value_of token character here before last }
{
    match token {
        Token::Exactly(wanted) => character == wanted && before,
        Token::One => character != '/' && before,
        Token::Each => before,
        Token::Run => here || character != '/' && last,
        Token::Any => here || last,
    }
}

fn is_first_true(row: &[bool]) -> bool
    ensures { result ≡ head_value row.now }
{
    match row {
        [value, ..] => *value,
        [] => false,
    }
}

/// The value for the whole text.
pub fn is_last_true(row: &[bool]) -> bool
    ensures { result ≡ last_value row.now }
{
    match row {
        [.., value] => *value,
        [] => false,
    }
}
