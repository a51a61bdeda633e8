// What an input begins as.
ghost use Rattle.std.specs.Prelude.{◌≡◌};
ghost use Rattle.input_forms.specs.Begun.{begins_xml as begins_word, behind_angle};
ghost use Rattle.input_forms.specs.Begun.{behind_bracket, behind_mark, begins_as as begins_so};
ghost use Rattle.input_forms.specs.Begun.{begun_at, begun_with, first_from};
ghost use Rattle.input_forms.specs.Begun.{is_blank as blank};

/// What an input begins as.
#[derive(Clone, Copy, PartialEq, Eq)]
pub enum Begun {
    /// A JSON object.
    Object,
    /// Other JSON: an array that is empty, or whose first element is an object or a string.
    OtherJson,
    /// XML: a declaration, or the element of a tool's report.
    Xml,
    /// Anything else.
    Lines,
}

/// What an input begins as, after an optional byte order mark and blanks: a `{` begins an object,
/// a `[` with `{`, `"` or `]` as the next byte that isn't blank begins other JSON, and `<?xml`,
/// `<checkstyle`, `<results`, `<pmd` or `<jslint` begins XML.
#[tactic(auto, unfolding(crate::specs::Begun::begins_as))]
pub fn begins_as(bytes: &[u8]) -> Begun
    ensures { result ≡ begins_so bytes.now }
{
    begun_at(first_from(without_mark(bytes)))
}

/// What a text begins as whose first byte isn't blank.
fn begun_at(text: &[u8]) -> Begun
    ensures { result ≡ begun_at text.now }
{
    match text {
        [first, rest @ ..] => begun_with(*first, rest),
        [] => Begun::Lines,
    }
}

/// What a text of this first byte and this rest begins as.
fn begun_with(first: u8, rest: &[u8]) -> Begun
    ensures { result ≡ begun_with first rest.now }
{
    if first == b'{' {
        Begun::Object
    } else if first == b'[' {
        in_bracket(first_from(rest))
    } else if first == b'<' {
        after_angle(rest)
    } else {
        Begun::Lines
    }
}

/// What a text begins as after a `<`.
fn after_angle(rest: &[u8]) -> Begun
    ensures { result ≡ behind_angle rest.now }
{
    if begins_xml(rest) {
        Begun::Xml
    } else {
        Begun::Lines
    }
}

/// Whether XML begins after a `<`.
pub(crate) fn begins_xml(rest: &[u8]) -> bool
    ensures { result ≡ begins_word rest.now }
{
    rest.starts_with(b"?xml")
        || rest.starts_with(b"checkstyle")
        || rest.starts_with(b"results")
        || rest.starts_with(b"pmd")
        || rest.starts_with(b"jslint")
}

/// What a text begins as after a `[`.
fn in_bracket(rest: &[u8]) -> Begun
    ensures { result ≡ behind_bracket rest.now }
{
    match rest {
        [b'{' | b'"' | b']', ..] => Begun::OtherJson,
        _ => Begun::Lines,
    }
}

/// A text without its byte order mark; one is skipped.
pub fn without_mark(bytes: &[u8]) -> &[u8]
    ensures { result.now ≡ behind_mark bytes.now }
{
    match bytes.strip_prefix(&[0xEF, 0xBB, 0xBF]) {
        Some(rest) => rest,
        None => bytes,
    }
}

/// A text from its first byte that isn't blank.
pub(crate) fn first_from(mut bytes: &[u8]) -> &[u8]
    ensures { result.now ≡ first_from bytes.entry.now }
{
    while let [first, rest @ ..] = bytes {
        if !is_blank(*first) {
            return bytes;
        }
        bytes = rest;
    }
    bytes
}

/// Whether a byte is a blank of JSON: a space, a tab, a CR or an LF.
fn is_blank(byte: u8) -> bool
    ensures { result ≡ blank byte }
{
    byte == b' ' || byte == b'\t' || byte == b'\r' || byte == b'\n'
}
