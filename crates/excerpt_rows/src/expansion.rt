//! A row of a source as a tool prints it: its tabs, and the characters that have no width.
ghost use Rattle.std.specs.Prelude.{◌≡◌, ◌+◌, ◌*◌, ◌/◌, ◌%◌, ◌^◌, ◌≤◌, ◌<◌, ◌++◌, ◌∷◌, [], IfOk};
ghost use Rattle.std.specs.Prelude.{OnOk, length, replicate};
ghost use Rattle.excerpt_rows.specs.Expansion.{ArePlaces, IsMeasured, bytes_of, cells_of};
ghost use Rattle.excerpt_rows.specs.Expansion.{code_of, digits_of, expanded as expansion};
ghost use Rattle.excerpt_rows.specs.Expansion.{hex as hex_digit};
ghost use Rattle.excerpt_rows.specs.Expansion.{hidden_as, is_as_is as is_as_is_char};
ghost use Rattle.excerpt_rows.specs.Expansion.{is_hidden as is_hidden_char};
ghost use Rattle.excerpt_rows.specs.Expansion.{is_plain as is_plain_row, last_digits, picture_of};
ghost use Rattle.excerpt_rows.specs.Expansion.{shown, tab_len as tab_length, width_of};
ghost use Rattle.excerpt_rows.specs.declared.expansion.Rule.TheVariants.{Same};

use std::alloc::{AllocError, Global};
use ucd_category::GeneralCategory;
use unicode_width::UnicodeWidthChar;

/// What a tab is printed as.
#[derive(Clone, Copy)]
pub enum Tabs {
    /// Blanks to the next multiple of 8 cells.
    Stops8,
    /// Four blanks.
    Blanks4,
    /// One blank.
    Blanks1,
    /// Two blanks.
    Blanks2,
    /// Blanks to the next multiple of 4 cells.
    Stops4,
    /// Blanks to the next multiple of 8 bytes.
    ByteStops8,
}

/// What a control or format character is printed as.
#[derive(Clone, Copy)]
pub enum Hidden {
    /// Nothing.
    Dropped,
    /// The picture of it below U+0020, else U+FFFD.
    Pictured,
    /// Its number in hexadecimal digits, as `<U+200B>`.
    Coded,
    /// Itself.
    Kept,
}

/// How a tool prints the rows of a source.
#[derive(Clone, Copy)]
pub enum Rule {
    /// As they are.
    Same,
    Expanded(Tabs, Hidden),
}

/// The beginning of a row as it is printed, and how many cells and bytes it takes.
#[derive(Drop)]
struct Printed {
    text: Vec<char>,
    cells: usize,
    bytes: usize,
}

/// A row as it is printed by a rule.
pub(crate) fn expanded(alloc: Global, rule: Rule, row: &[char]) -> Result<Vec<char>, AllocError>
    requires { length row.now ≤ 2 ^ 20 }
    ensures { IfOk result (λ text. text.items ≡ expansion rule row.now) }
{
    let mut printed = Printed::new(alloc);
    for c in row {
        printed.show(rule, *c)?;
    }
    Ok(printed.text)
}

/// Whether each rule prints a row as it is.
pub(crate) fn is_plain(row: &[char]) -> bool
    ensures { result ≡ is_plain_row row.now }
{
    row.iter().all(|c| is_as_is(*c))
}

fn is_as_is(c: char) -> bool
    ensures { result ≡ is_as_is_char c }
{
    c != '\t' && !is_hidden(c)
}

/// For each character that is printed of a row, the offset in bytes of the row's character that it
/// is printed for.
pub(crate) fn places_of(alloc: Global, rule: Rule, row: &[char]) -> Result<Vec<usize>, AllocError>
    requires { length row.now ≤ 2 ^ 20 }
    ensures { IfOk result (λ places. ArePlaces rule row.now places.items) }
{
    match rule {
        Rule::Same => own_places(alloc, row),
        Rule::Expanded(_, _) => shown_places(alloc, rule, row),
    }
}

/// The offset in bytes of each character of a row.
fn own_places(alloc: Global, row: &[char]) -> Result<Vec<usize>, AllocError>
    requires { length row.now ≤ 2 ^ 20 }
    ensures { IfOk result (λ places. ArePlaces Same row.now places.items) }
{
    let mut places = Vec::with_capacity(alloc, row.len())?;
    let mut offset = 0;
    for c in row {
        push_place(&mut places, offset)?;
        offset += c.len_utf8();
    }
    Ok(places)
}

fn push_place(places: &mut Vec<usize>, offset: usize) -> Result<(), AllocError>
    ensures { OnOk result (places.new.items ≡ places.old.items ++ offset ∷ []) }
{
    places.push(offset)?;
    Ok(())
}

/// The places of what is printed by a rule.
fn shown_places(alloc: Global, rule: Rule, row: &[char]) -> Result<Vec<usize>, AllocError>
    requires { length row.now ≤ 2 ^ 20 }
    ensures { IfOk result (λ places. ArePlaces rule row.now places.items) }
{
    let mut printed = Printed::new(alloc);
    let mut places = Vec::new(alloc);
    let mut offset = 0;
    for c in row {
        printed.show(rule, *c)?;
        places.resize(printed.text.len(), offset)?;
        offset += c.len_utf8();
    }
    Ok(places)
}

/// The length of a row in bytes.
pub(crate) fn byte_len(row: &[char]) -> usize
    requires { length row.now ≤ 2 ^ 20 }
    ensures { result ≡ bytes_of row.now }
{
    let mut bytes = 0;
    for c in row {
        bytes += c.len_utf8();
    }
    bytes
}

impl Printed {
    fn new(alloc: Global) -> Printed
        ensures text { result.text.items ≡ [] }
        ensures measured { IsMeasured result }
    {
        Printed {
            text: Vec::new(alloc),
            cells: 0,
            bytes: 0,
        }
    }

    /// Adds what a character of the source is printed as.
    fn show(&mut self, rule: Rule, c: char) -> Result<(), AllocError>
        requires measured { IsMeasured self.old }
        requires few { length self.old.text.items < 2 ^ 32 }
        ensures text { OnOk result (self.new.text.items
            ≡ self.old.text.items ++ shown rule self.old.text.items c) }
        ensures measured { OnOk result (IsMeasured self.new) }
    {
        let from = self.text.len();
        push_shown(&mut self.text, self.cells, self.bytes, rule, c)?;
        let (cells, bytes) = size_of(&self.text[from..]);
        self.cells += cells;
        self.bytes += bytes;
        Ok(())
    }
}

/// The cells and bytes of what one character is printed as.
fn size_of(text: &[char]) -> (usize, usize)
    requires { length text.now ≤ 10 }
    ensures cells { result.0 ≡ cells_of text.now }
    ensures bytes { result.1 ≡ bytes_of text.now }
{
    let mut cells = 0;
    let mut bytes = 0;
    for c in text {
        cells += width(*c);
        bytes += c.len_utf8();
    }
    (cells, bytes)
}

/// How many cells a character takes.
fn width(c: char) -> usize
    ensures value { result ≡ width_of c }
    ensures few { result ≤ 3 }
{
    c.width().unwrap_or(0)
}

/// Adds what a character is printed as after a text of `cells` cells and `bytes` bytes.
fn push_shown(
    text: &mut Vec<char>,
    cells: usize,
    bytes: usize,
    rule: Rule,
    c: char,
) -> Result<(), AllocError>
    requires cells { cells ≡ cells_of text.old.items }
    requires bytes { bytes ≡ bytes_of text.old.items }
    requires few { length text.old.items < 2 ^ 32 }
    ensures { OnOk result (text.new.items ≡ text.old.items ++ shown rule text.old.items c) }
{
    match rule {
        Rule::Same => push(text, c),
        Rule::Expanded(tabs, hidden) => {
            if c == '\t' {
                push_blanks(text, tab_len(tabs, cells, bytes))
            } else if is_hidden(c) {
                push_hidden(text, hidden, c)
            } else {
                push(text, c)
            }
        }
    }
}

/// How many blanks a tab is after `cells` cells and `bytes` bytes.
fn tab_len(tabs: Tabs, cells: usize, bytes: usize) -> usize
    ensures value { result ≡ tab_length tabs cells bytes }
    ensures few { result ≤ 8 }
{
    match tabs {
        Tabs::Stops8 => 8 - cells % 8,
        Tabs::Blanks4 => 4,
        Tabs::Blanks1 => 1,
        Tabs::Blanks2 => 2,
        Tabs::Stops4 => 4 - cells % 4,
        Tabs::ByteStops8 => 8 - bytes % 8,
    }
}

/// Whether a character is a control or format character.
fn is_hidden(c: char) -> bool
    ensures { result ≡ is_hidden_char c }
{
    let category = GeneralCategory::for_char(c);
    category == GeneralCategory::Control || category == GeneralCategory::Format
}

fn push(text: &mut Vec<char>, c: char) -> Result<(), AllocError>
    ensures { OnOk result (text.new.items ≡ text.old.items ++ c ∷ []) }
{
    text.push(c)?;
    Ok(())
}

fn push_blanks(text: &mut Vec<char>, count: usize) -> Result<(), AllocError>
    requires few { count ≤ 8 }
    requires short { length text.old.items < 2 ^ 32 }
    ensures { OnOk result (text.new.items ≡ text.old.items ++ replicate count 0x20) }
{
    text.resize(text.len() + count, ' ')
}

fn push_hidden(text: &mut Vec<char>, hidden: Hidden, c: char) -> Result<(), AllocError>
    ensures { OnOk result (text.new.items ≡ text.old.items ++ hidden_as hidden c) }
{
    match hidden {
        Hidden::Dropped => Ok(()),
        Hidden::Pictured => push(text, picture(c)),
        Hidden::Coded => push_code(text, c),
        Hidden::Kept => push(text, c),
    }
}

fn picture(c: char) -> char
    ensures { result ≡ picture_of c }
{
    match c {
        '\0'..='\x1F' => char::from_u32(0x2400 + c as u32).unwrap_or('\u{FFFD}'),
        _ => '\u{FFFD}',
    }
}

fn push_code(text: &mut Vec<char>, c: char) -> Result<(), AllocError>
    ensures { OnOk result (text.new.items ≡ text.old.items ++ code_of c) }
{
    text.extend_from_slice(&['<', 'U', '+'])?;
    push_digits(text, c as u32)?;
    push(text, '>')
}

/// Adds the hexadecimal digits of a number below 2^24, four at least.
fn push_digits(text: &mut Vec<char>, n: u32) -> Result<(), AllocError>
    ensures { OnOk result (text.new.items ≡ text.old.items ++ digits_of n) }
{
    if n >= 0x10_0000 {
        push(text, hex(n / 0x10_0000))?;
        push(text, hex(n / 0x1_0000))?;
        return push_last_digits(text, n);
    }
    if n >= 0x1_0000 {
        push(text, hex(n / 0x1_0000))?;
        return push_last_digits(text, n);
    }
    push_last_digits(text, n)
}

/// Adds the last four hexadecimal digits of a number.
fn push_last_digits(text: &mut Vec<char>, n: u32) -> Result<(), AllocError>
    ensures { OnOk result (text.new.items ≡ text.old.items ++ last_digits n) }
{
    push(text, hex(n / 0x1000))?;
    push(text, hex(n / 0x100))?;
    push(text, hex(n / 0x10))?;
    push(text, hex(n))
}

/// The last hexadecimal digit of a number.
fn hex(n: u32) -> char
    ensures { result ≡ hex_digit n }
{
    let digit = (n % 16) as u8;
    if digit < 10 {
        (b'0' + digit) as char
    } else {
        (b'A' + (digit - 10)) as char
    }
}
