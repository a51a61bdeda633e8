//! The JSON values of an input, and its other lines.
ghost use Rattle.std.specs.Prelude.{◌≡◌, ◌^◌, ◌+◌, ◌++◌, ◌<◌, ◌≤◌, IfOk, IfSome, OnOk, drop};
ghost use Rattle.std.specs.Prelude.{length};
ghost use Rattle.json_forms.specs.Cut.{IsCut, IsWithin, array_text, begins_value as begins_so};
ghost use Rattle.json_forms.specs.Cut.{closed_at, deeper as deeper_so, first_at};
ghost use Rattle.json_forms.specs.Cut.{goes_on as goes_so};
ghost use Rattle.json_forms.specs.Cut.{is_blank as blank, is_break, is_inner as inner, is_solid};
ghost use Rattle.json_forms.specs.Cut.{mode_after as mode_so, next_piece as next_so, value_text};

use std::alloc::{AllocError, Global};

/// A value or another line of an input.
#[derive(Clone, Copy)]
pub struct Piece {
    pub is_value: bool,
    /// The byte at which it starts, and the one after it.
    pub start: usize,
    pub end: usize,
}

/// An input, cut into its values and its other lines.
#[derive(Drop)]
pub struct Cut {
    pub pieces: Vec<Piece>,
    /// Where a value starts whose brackets don't close: the input ends in it.
    pub unclosed: Option<usize>,
    /// A JSON array of `null` and the values.
    pub json: Vec<u8>,
}

/// What comes next in an input.
#[derive(Clone, Copy)]
enum Next {
    Ends,
    /// A value whose brackets don't close.
    Open(usize),
    Found(Piece),
}

/// Where a byte of a value is.
#[derive(Clone, Copy)]
pub(crate) enum Mode {
    Plain,
    InText,
    /// After a backslash in a text.
    Escaped,
}

fn is_blank(byte: u8) -> bool
    ensures { result ≡ blank byte }
{
    byte == b' ' || byte == b'\t' || byte == b'\r' || byte == b'\n'
}

/// The first byte that isn't blank, from one on.
fn solid_from(bytes: &[u8], from: usize) -> usize
    requires { from ≤ length bytes.now }
    ensures value { result ≡ first_at is_solid from (drop from bytes.now) }
    ensures within { (from ≤ result) × (result ≤ length bytes.now) }
{
    for at in from..bytes.len() {
        if !is_blank(bytes[at]) {
            return at;
        }
    }
    bytes.len()
}

/// The first LF, from a byte on; or the end.
fn break_from(bytes: &[u8], from: usize) -> usize
    requires { from ≤ length bytes.now }
    ensures value { result ≡ first_at is_break from (drop from bytes.now) }
    ensures within { (from ≤ result) × (result ≤ length bytes.now) }
{
    for at in from..bytes.len() {
        if bytes[at] == b'\n' {
            return at;
        }
    }
    bytes.len()
}

/// Whether a byte after `[` and blanks is one with which an array of objects, texts or nothing
/// goes on.
fn is_inner(byte: u8) -> bool
    ensures { result ≡ inner byte }
{
    byte == b'{' || byte == b'"' || byte == b']'
}

/// Whether an array of objects, texts or nothing goes on at a byte, after blanks.
fn goes_on(bytes: &[u8], from: usize) -> bool
    requires { from ≤ length bytes.now }
    ensures { result ≡ goes_so (drop from bytes.now) }
{
    for at in from..bytes.len() {
        if !is_blank(bytes[at]) {
            return is_inner(bytes[at]);
        }
    }
    false
}

/// Whether a value starts at a byte: `{`, or `[` before `{`, `"` or `]`.
fn begins_value(bytes: &[u8], at: usize) -> bool
    requires { at < length bytes.now }
    ensures { result ≡ begins_so (drop at bytes.now) }
{
    if bytes[at] == b'[' {
        goes_on(bytes, at + 1)
    } else {
        bytes[at] == b'{'
    }
}

/// How deep brackets are after a byte.
fn deeper(mode: Mode, depth: usize, byte: u8) -> usize
    requires { depth < 2 ^ 63 }
    ensures value { result ≡ deeper_so mode depth byte }
    ensures bound { result ≤ depth + 1 }
{
    match mode {
        Mode::Plain if byte == b'{' || byte == b'[' => depth + 1,
        Mode::Plain if byte == b'}' || byte == b']' => depth.saturating_sub(1),
        _ => depth,
    }
}

fn mode_after(mode: Mode, byte: u8) -> Mode
    ensures { result ≡ mode_so mode byte }
{
    match mode {
        Mode::Plain if byte == b'"' => Mode::InText,
        Mode::Plain => Mode::Plain,
        Mode::InText if byte == b'"' => Mode::Plain,
        Mode::InText if byte == b'\\' => Mode::Escaped,
        Mode::InText | Mode::Escaped => Mode::InText,
    }
}

/// Where the brackets close of a value that starts at a byte: the byte after it.
fn value_end(bytes: &[u8], from: usize) -> Option<usize>
    requires { from < length bytes.now }
    ensures value { result ≡ closed_at Mode.Plain 0 from (drop from bytes.now) }
    ensures within { IfSome result (λ end. (from < end) × (end ≤ length bytes.now)) }
{
    let mut depth = 0usize;
    let mut mode = Mode::Plain;
    for at in from..bytes.len() {
        let byte = bytes[at];
        depth = deeper(mode, depth, byte);
        if depth == 0 {
            return Some(at + 1);
        }
        mode = mode_after(mode, byte);
    }
    None
}

/// What comes next in an input, from a byte on.
#[tactic(auto, unfolding(crate::specs::Cut::next_piece))]
fn next_piece(bytes: &[u8], from: usize) -> Next
    requires { from ≤ length bytes.now }
    ensures value { result ≡ next_so bytes.now from }
    ensures within { IsWithin from (length bytes.now) result }
{
    let start = solid_from(bytes, from);
    if start == bytes.len() {
        return Next::Ends;
    }
    if !begins_value(bytes, start) {
        return Next::Found(Piece {
            is_value: false,
            start,
            end: break_from(bytes, start + 1),
        });
    }
    match value_end(bytes, start) {
        Some(end) => Next::Found(Piece {
            is_value: true,
            start,
            end,
        }),
        None => Next::Open(start),
    }
}

/// Appends a value, after a comma; another line isn't appended.
fn push_value(out: &mut Vec<u8>, bytes: &[u8], piece: Piece) -> Result<(), AllocError>
    requires { (piece.start ≤ piece.end) × (piece.end ≤ length bytes.now) }
    ensures { OnOk result (out.new.items ≡ out.old.items ++ value_text bytes.now piece) }
{
    if !piece.is_value {
        return Ok(());
    }
    out.extend_from_slice(b",")?;
    out.extend_from_slice(&bytes[piece.start..piece.end])
}

/// Cuts an input into its JSON values and its other lines, in order; blanks are skipped. Give it
/// without a byte order mark.
///
/// A value starts at `{`, or at `[` before `{`, `"` or `]`, with only blanks or a value before it
/// in its line; it ends where its brackets close, those in texts not counted. Another line goes up
/// to its LF. It takes time in the length of the input.
///
/// # Errors
///
/// Out of memory.
#[tactic(auto, unfolding(crate::specs::Cut::array_text))]
pub fn cut_input(alloc: Global, bytes: &[u8]) -> Result<Cut, AllocError>
    ensures pieces { IfOk result (λ cut. IsCut bytes.now 0 cut.pieces.items cut.unclosed) }
    ensures json { IfOk result (λ cut. cut.json.items ≡ array_text bytes.now cut.pieces.items) }
{
    let mut pieces = Vec::new(alloc);
    let mut json = Vec::from_slice(alloc, b"[null")?;
    let mut at = 0usize;
    let unclosed = loop {
        match next_piece(bytes, at) {
            Next::Ends => break None,
            Next::Open(start) => break Some(start),
            Next::Found(piece) => {
                push_value(&mut json, bytes, piece)?;
                pieces.push(piece)?;
                at = piece.end;
            }
        }
    };
    json.extend_from_slice(b"]")?;
    Ok(Cut {
        pieces,
        unclosed,
        json,
    })
}
