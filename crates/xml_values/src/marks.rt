//! Bytes of the markup: classes, marks and names.
ghost use Rattle.std.specs.Prelude.{◌≡◌, ◌+◌, ◌≤◌, IfSome, None, drop, length, option_map};
ghost use Rattle.std.specs.Option.{option_copied};
ghost use Rattle.xml_values.specs.Marks.{after as after_mark, after_first as first_left, begins_name as begins_so};
ghost use Rattle.xml_values.specs.Marks.{is_name_byte as name_byte, is_name_start as name_start};
ghost use Rattle.xml_values.specs.Marks.{is_blank as blank, is_of as is_of_class, mark_at as first_mark};
ghost use Rattle.xml_values.specs.Marks.{named, parted, past, run, run_len as len_of_run};

/// A class of bytes.
#[derive(Clone, Copy)]
pub(crate) enum Class {
    Blank,
    /// What goes on with a name.
    Name,
    /// All but one byte.
    Until(u8),
}

pub(crate) fn is_blank(byte: u8) -> bool
    ensures { result ≡ blank byte }
{
    byte == b' ' || byte == b'\t' || byte == b'\r' || byte == b'\n'
}

fn is_name_start(byte: u8) -> bool
    ensures { result ≡ name_start byte }
{
    (b'A' <= byte && byte <= b'Z') || (b'a' <= byte && byte <= b'z') || byte == b'_'
}

/// What is not ASCII may go on with a name.
fn is_name_byte(byte: u8) -> bool
    ensures { result ≡ name_byte byte }
{
    is_name_start(byte)
        || (b'0' <= byte && byte <= b':')
        || byte == b'.'
        || byte == b'-'
        || 0x80 <= byte
}

fn is_of(class: Class, byte: u8) -> bool
    ensures { result ≡ is_of_class class byte }
{
    match class {
        Class::Blank => is_blank(byte),
        Class::Name => is_name_byte(byte),
        Class::Until(stop) => byte != stop,
    }
}

/// How many of the first bytes are of a class.
fn run_len(class: Class, bytes: &[u8]) -> usize
    ensures value { result ≡ len_of_run class 0 bytes.now }
    ensures within { result ≤ length bytes.now }
{
    for at in 0..bytes.len() {
        if !is_of(class, bytes[at]) {
            return at;
        }
    }
    bytes.len()
}

/// The first bytes, which are of a class, and those from the first other.
pub(crate) fn split_run(class: Class, bytes: &[u8]) -> (&[u8], &[u8])
    ensures front { result.0.now ≡ run class bytes.now }
    ensures back { result.1.now ≡ past class bytes.now }
{
    bytes.split_at(run_len(class, bytes))
}

/// What is after blanks.
pub(crate) fn skip_blanks(bytes: &[u8]) -> &[u8]
    ensures { result.now ≡ past Class.Blank bytes.now }
{
    split_run(Class::Blank, bytes).1
}

/// What is after the first byte.
pub(crate) fn after_first(bytes: &[u8]) -> Option<&[u8]>
    ensures { option_copied result ≡ first_left bytes.now }
{
    match bytes {
        [_, rest @ ..] => Some(rest),
        [] => None,
    }
}

/// What is after a mark.
pub(crate) fn after<'t>(mark: &[u8], bytes: &'t [u8]) -> Option<&'t [u8]>
    ensures { option_copied result ≡ after_mark mark.now bytes.entry.now }
{
    if bytes.starts_with(mark) {
        Some(&bytes[mark.len()..])
    } else {
        None
    }
}

/// The first index at which a mark is.
fn mark_at(mark: &[u8], bytes: &[u8]) -> Option<usize>
    ensures value { result ≡ first_mark mark.now 0 bytes.now }
    ensures within { IfSome result (λ at. at + length mark.now ≤ length bytes.now) }
{
    for at in 0..bytes.len() {
        if bytes.split_at(at).1.starts_with(mark) {
            return Some(at);
        }
    }
    None
}

/// What is before a mark and after it.
pub(crate) fn split_mark<'t>(mark: &[u8], bytes: &'t [u8]) -> Option<(&'t [u8], &'t [u8])>
    ensures { option_map (λ it. (it.0.now, it.1.now)) result ≡ parted mark.now bytes.entry.now }
{
    match mark_at(mark, bytes) {
        Some(at) => Some((&bytes[..at], &bytes[at..][mark.len()..])),
        None => None,
    }
}

pub(crate) fn begins_name(bytes: &[u8]) -> bool
    ensures { result ≡ begins_so bytes.now }
{
    match bytes {
        [byte, ..] => is_name_start(*byte),
        [] => false,
    }
}

/// A name, and what is after it.
pub(crate) fn split_name(bytes: &[u8]) -> Option<(&[u8], &[u8])>
    ensures { option_map (λ it. (it.0.now, it.1.now)) result ≡ named bytes.now }
{
    if begins_name(bytes) {
        Some(split_run(Class::Name, bytes))
    } else {
        None
    }
}
