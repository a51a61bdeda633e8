//! What a row has at its beginning and at its end.
ghost use Rattle.std.specs.Prelude.{◌≡◌, ◌≤◌, ◌-◌, ◌⊎◌, length, MatchBool, MatchOption};
ghost use Rattle.std.specs.List.{prefix_len, suffix_len};
ghost use Rattle.excerpt_rows.specs.Ends.{HasNoCore, IsCore, is_blank as blank, is_in as belongs};

/// Characters that may be cut off a row.
#[derive(Clone, Copy)]
pub(crate) enum Edge {
    Blank,
    Dot,
}

/// Whether a character is a space or a tab.
pub(crate) fn is_blank(c: char) -> bool
    ensures { result ≡ blank c }
{
    c == ' ' || c == '\t'
}

fn is_in(edge: Edge, c: char) -> bool
    ensures { result ≡ belongs edge c }
{
    match edge {
        Edge::Blank => is_blank(c),
        Edge::Dot => c == '.',
    }
}

/// How many such characters a text begins with.
pub(crate) fn leading(edge: Edge, text: &[char]) -> usize
    ensures value { result ≡ prefix_len (belongs edge) text.now }
    ensures within { result ≤ length text.now }
{
    for (k, c) in text.iter().enumerate() {
        if !is_in(edge, *c) {
            return k;
        }
    }
    text.len()
}

/// Where such characters begin that a text ends with.
fn trailing(edge: Edge, text: &[char]) -> usize
    ensures value { result ≡ length text.now - suffix_len (belongs edge) text.now }
    ensures within { result ≤ length text.now }
{
    let mut end = text.len();
    while end > 0 && is_in(edge, text[end - 1]) {
        end -= 1;
    }
    end
}

/// What is left of a row that was cut by `...`: where it begins and ends, in characters.
pub(crate) fn core_of(row: &[char]) -> Option<(usize, usize)>
    ensures { MatchOption result (HasNoCore row.now) (IsCore row.now) }
{
    let first = leading(Edge::Blank, row);
    let last = trailing(Edge::Blank, row);
    if first >= last {
        return None;
    }
    let ink = &row[first..last];
    let start = leading(Edge::Dot, ink);
    let end = trailing(Edge::Dot, ink);
    if start >= end {
        return None;
    }
    if !are_dots(start, ink.len() - end) {
        return None;
    }
    Some((first + start, first + end))
}

/// Whether the numbers of dots at the beginning and at the end say that a row was cut.
fn are_dots(before: usize, after: usize) -> bool
    ensures { MatchBool result ((3 ≤ before) ⊎ (3 ≤ after)) ((3 ≤ before) ⊎ (3 ≤ after) → ⊥) }
{
    before >= 3 || after >= 3
}
