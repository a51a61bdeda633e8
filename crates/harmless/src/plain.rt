// Texts of ASCII that need no change.
ghost use Rattle.std.specs.Prelude.{◌≡◌};
ghost use Rattle.std.specs.List.{list_all};
ghost use Rattle.harmless.specs.Harmless.{is_layout, is_plain as is_plain_of};

use crate::Kind;

/// Whether a text is ASCII without control characters, except those of its kind.
pub(crate) fn is_plain(kind: Kind, text: &str) -> bool
    ensures { result ≡ list_all (is_plain_of kind) text.now }
{
    text.as_bytes()
        .iter()
        .all(|byte| is_plain_byte(kind, *byte))
}

fn is_plain_byte(kind: Kind, byte: u8) -> bool
    ensures { result ≡ is_plain_of kind byte }
{
    is_layout_byte(kind, byte) || (b' ' <= byte && byte <= b'~')
}

fn is_layout_byte(kind: Kind, byte: u8) -> bool
    ensures { result ≡ is_layout kind byte }
{
    match kind {
        Kind::Prose => byte == b'\t' || byte == b'\n',
        Kind::Name => false,
    }
}
