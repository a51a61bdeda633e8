//! What drawings are made of. No row of these tables is for one tool alone.
ghost use Rattle.std.specs.Prelude.{◌≡◌, ◌==◌, ◌||◌, ◌≤◌, IfSome, None, false, length};
ghost use Rattle.std.specs.Prelude.{true};
ghost use Rattle.std.specs.List.{list_any};
ghost use Rattle.std.specs.Char.{to_ascii_lowercase};
ghost use Rattle.excerpt_lines.specs.Tables.{is_first_of_kind, is_frame as frames};
ghost use Rattle.excerpt_lines.specs.Tables.{arrow_len as arrow_length, class_of as class_meant};
ghost use Rattle.excerpt_lines.specs.Tables.{hook_of as hook_meant, is_in as belongs};
ghost use Rattle.excerpt_lines.specs.Tables.{is_capital_note as is_capital};
ghost use Rattle.excerpt_lines.specs.Tables.{leader_len as leader_length};
ghost use Rattle.excerpt_lines.specs.Tables.{kind_of_word as kind_meant, spells as is_spelled};
ghost use Rattle.excerpt_lines.specs.Tables.{word_len as word_length};

/// A class of characters.
#[derive(Clone, Copy)]
pub enum CharClass {
    /// A space or a tab.
    Blank,
    /// No blank.
    Ink,
    Space,
    Digit,
    /// What ends a gutter.
    Bar,
    Caret,
    Dash,
    Plus,
    Thick,
    Thin,
    Triangle,
    Underscore,
    /// The marks of what was found.
    First,
    /// Blanks and what frames are made of.
    Frame,
    /// Blanks and what marks without a gutter are made of.
    Loose,
    /// What may follow the location on a line of its own.
    Trail,
    /// What joins the ends of spans of rows: spaces and `|`.
    Margin,
}

/// What frames are made of.
pub const FRAME: [char; 22] = [
    '╭', '╮', '╰', '╯', '─', '━', '╴', '│', '┃', '·', '┆', '‡', '⋮', '╎', '.', ':', '|', '+', '-',
    '>', '<', '╶',
];

/// Whether a character is of a class.
pub fn is_in(class: CharClass, c: char) -> bool
    ensures { result ≡ belongs class c }
{
    match class {
        CharClass::Blank => c == ' ' || c == '\t',
        CharClass::Ink => c != ' ' && c != '\t',
        CharClass::Space => c == ' ',
        CharClass::Digit => '0' <= c && c <= '9',
        CharClass::Bar => matches!(c, '|' | '│' | '┃' | '·' | '┆'),
        CharClass::Caret => c == '^' || c == '~',
        CharClass::Dash => c == '-',
        CharClass::Plus => c == '+',
        CharClass::Thick => c == '━',
        CharClass::Thin => c == '─' || c == '┬',
        CharClass::Triangle => c == '▲',
        CharClass::Underscore => c == '_',
        CharClass::First => matches!(c, '^' | '━' | '▲' | '┬'),
        CharClass::Frame => c == ' ' || c == '\t' || is_frame(c),
        CharClass::Loose => matches!(c, ' ' | '\t' | '^' | '~' | '-' | '+' | '_' | '='),
        CharClass::Trail => matches!(c, ' ' | ':' | ']' | '─'),
        CharClass::Margin => c == ' ' || c == '|',
    }
}

/// Whether a frame is made of it.
#[tactic(auto, unfolding(crate::specs::Tables::is_frame))]
fn is_frame(c: char) -> bool
    ensures { result ≡ frames c }
{
    is_among(&FRAME, c)
}

fn is_among(known: &[char], c: char) -> bool
    ensures { result ≡ list_any (λ one. one == c) known.now }
{
    known.iter().any(|one| *one == c)
}

/// The class of marks that a character is of.
pub fn class_of(c: char) -> Option<CharClass>
    ensures value { result ≡ class_meant c }
    ensures member { IfSome result (λ class. belongs class c ≡ true) }
{
    match c {
        '^' | '~' => Some(CharClass::Caret),
        '-' => Some(CharClass::Dash),
        '+' => Some(CharClass::Plus),
        '━' => Some(CharClass::Thick),
        '─' | '┬' => Some(CharClass::Thin),
        '▲' => Some(CharClass::Triangle),
        _ => None,
    }
}

/// How a hook that begins with this character goes on.
pub fn hook_of(c: char) -> Option<CharClass>
    ensures { result ≡ hook_meant c }
{
    match c {
        '╰' | '├' | '└' => Some(CharClass::Thin),
        '`' => Some(CharClass::Dash),
        _ => None,
    }
}

/// The length of the arrow that a text begins with, in characters; 0 without one.
#[tactic(auto, unfolding(crate::specs::Tables::arrow_len))]
pub fn arrow_len(text: &[char]) -> usize
    ensures value { result ≡ arrow_length text.now }
    ensures within { result ≤ length text.now }
{
    if !may_be_arrow(text) {
        0
    } else if text.starts_with(&['-', '-', '>', ' ']) || text.starts_with(&[':', ':', ':', ' ']) {
        4
    } else if text.starts_with(&['╭', '▸', ' '])
        || text.starts_with(&['⸬', ' ', ' '])
        || text.starts_with(&['┌', '─', ' '])
        || text.starts_with(&['╭', '─', '['])
        || text.starts_with(&[',', '-', '['])
    {
        3
    } else {
        0
    }
}

/// Whether the first character of a text is that of an arrow.
fn may_be_arrow(text: &[char]) -> bool
    ensures { result ≡ false → arrow_length text.now ≡ 0 }
{
    match text {
        [c, ..] => is_arrow_head(*c),
        [] => false,
    }
}

fn is_arrow_head(c: char) -> bool
    ensures { result ≡ (0x2D == c || 0x3A == c || 0x256D == c || 0x2E2C == c || 0x250C == c
        || 0x2C == c) }
{
    matches!(c, '-' | ':' | '╭' | '⸬' | '┌' | ',')
}

/// The length of the leader of a note that a text begins with, in characters; 0 without one.
#[tactic(auto, unfolding(crate::specs::Tables::leader_len))]
pub fn leader_len(text: &[char]) -> usize
    ensures value { result ≡ leader_length text.now }
    ensures within { result ≤ length text.now }
{
    if !may_be_leader(text) {
        0
    } else if text.starts_with(&['=', ' '])
        || text.starts_with(&['├', ' '])
        || text.starts_with(&['╰', ' '])
    {
        2
    } else {
        0
    }
}

/// Whether the first character of a text is that of a leader.
fn may_be_leader(text: &[char]) -> bool
    ensures { result ≡ false → leader_length text.now ≡ 0 }
{
    match text {
        [c, ..] => is_leader_head(*c),
        [] => false,
    }
}

fn is_leader_head(c: char) -> bool
    ensures { result ≡ (0x3D == c || 0x251C == c || 0x2570 == c) }
{
    matches!(c, '=' | '├' | '╰')
}

/// Whether a text is a note without a leader in a drawing.
#[tactic(auto, unfolding(crate::specs::Tables::is_capital_note))]
pub fn is_capital_note(text: &[char]) -> bool
    ensures { result ≡ is_capital text.now }
{
    may_be_capital(text)
        && (text.starts_with(&['N', 'o', 't', 'e', ':', ' '])
            || text.starts_with(&['H', 'e', 'l', 'p', ':', ' ']))
}

/// Whether the first character of a text is that of a note without a leader.
fn may_be_capital(text: &[char]) -> bool
    ensures { result ≡ false → is_capital text.now ≡ false }
{
    match text {
        [c, ..] => is_capital_head(*c),
        [] => false,
    }
}

fn is_capital_head(c: char) -> bool
    ensures { result ≡ (0x4E == c || 0x48 == c) }
{
    c == 'N' || c == 'H'
}

/// A kind of note.
#[derive(Clone, Copy)]
pub enum NoteKind {
    Note,
    Help,
    Hint,
    Warning,
    Error,
    Info,
    Suggestion,
    Advice,
}

/// The kind that the word at the beginning of a text means, in any case, before a colon.
#[tactic(auto, unfolding(crate::specs::Tables::kind_of_word))]
pub fn kind_of_word(text: &[char]) -> Option<NoteKind>
    ensures { result ≡ kind_meant text.now }
{
    if !may_be_kind(text) {
        None
    } else if spells(text, &['n', 'o', 't', 'e', ':']) {
        Some(NoteKind::Note)
    } else if spells(text, &['h', 'e', 'l', 'p', ':']) {
        Some(NoteKind::Help)
    } else if spells(text, &['h', 'i', 'n', 't', ':']) {
        Some(NoteKind::Hint)
    } else if spells(text, &['w', 'a', 'r', 'n', 'i', 'n', 'g', ':']) {
        Some(NoteKind::Warning)
    } else if spells(text, &['e', 'r', 'r', 'o', 'r', ':']) {
        Some(NoteKind::Error)
    } else if spells(text, &['i', 'n', 'f', 'o', ':']) {
        Some(NoteKind::Info)
    } else if spells(
        text,
        &['s', 'u', 'g', 'g', 'e', 's', 't', 'i', 'o', 'n', ':'],
    ) {
        Some(NoteKind::Suggestion)
    } else if spells(text, &['a', 'd', 'v', 'i', 'c', 'e', ':']) {
        Some(NoteKind::Advice)
    } else {
        None
    }
}

/// Whether the first character of a text is that of a kind's word.
fn may_be_kind(text: &[char]) -> bool
    ensures { result ≡ false → kind_meant text.now ≡ None }
{
    match text {
        [c, ..] => is_kind_head(*c),
        [] => false,
    }
}

fn is_kind_head(c: char) -> bool
    ensures { result ≡ is_first_of_kind (to_ascii_lowercase c) }
{
    matches!(
        c.to_ascii_lowercase(),
        'n' | 'h' | 'w' | 'e' | 'i' | 's' | 'a'
    )
}

/// The length of a kind's word, in characters.
pub fn word_len(kind: NoteKind) -> usize
    ensures { result ≡ word_length kind }
{
    match kind {
        NoteKind::Note | NoteKind::Help | NoteKind::Hint | NoteKind::Info => 4,
        NoteKind::Error => 5,
        NoteKind::Advice => 6,
        NoteKind::Warning => 7,
        NoteKind::Suggestion => 10,
    }
}

/// Whether a text begins with a word in any case.
fn spells(mut text: &[char], mut word: &[char]) -> bool
    ensures { result ≡ is_spelled text.entry.now word.entry.now }
{
    while let [small, word_rest @ ..] = word {
        let [c, text_rest @ ..] = text else {
            return false;
        };
        if c.to_ascii_lowercase() != *small {
            return false;
        }
        text = text_rest;
        word = word_rest;
    }
    true
}
