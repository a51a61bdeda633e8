// Texts with escaped bytes.
ghost use Rattle.std.specs.Prelude.{◌≡◌, ◌++◌, ◌<◌, ℕ, List, Option, true, OnOk, string_bytes};
ghost use Rattle.std.specs.List.{position};
ghost use Rattle.std.specs.Option.{is_some, option_copied};
ghost use Rattle.escapes.specs.Escape.{IsFirstSpelled, escaped, is_spelled, spelled_as};

use std::alloc::AllocError;

/// The escapes of a kind of text, for the bytes that would end it or mean something else.
pub trait Spelling {
    /// The escape of a byte, if it has one.
    ghost spelled: { Self → ℕ → Option (List ℕ) };

    /// The escape of a byte, if it has one.
    fn spelling(&self, byte: u8) -> Option<&'static str>
        ensures { option_copied result ≡ spelled self.now byte };

    ghost ascii: { (kind : Self) (byte : ℕ) → is_some (spelled kind byte) ≡ true → byte < 128 };
}

/// Appends a text with its bytes escaped. Runs without such a byte are appended whole.
///
/// # Errors
///
/// Out of memory, after a first part was appended.
pub fn push_escaped<S: Spelling>(out: &mut String, kind: &S, text: &str) -> Result<(), AllocError>
    ensures { OnOk result (string_bytes out.new
        ≡ string_bytes out.old ++ escaped (S.spelled kind.now) text.now) }
{
    let mut rest = text;
    while let Some(at) = first_spelled(kind, rest) {
        out.push_str(&rest[..at])?;
        push_byte(out, kind, rest.as_bytes()[at])?;
        rest = &rest[at + 1..];
    }
    out.push_str(rest)
}

/// The index of the first byte that has an escape.
fn first_spelled<S: Spelling>(kind: &S, text: &str) -> Option<usize>
    ensures { IsFirstSpelled (S.spelled kind.now) text.now result }
{
    first_place(kind, text.as_bytes())
}

/// The index of the first byte that has an escape.
fn first_place<S: Spelling>(kind: &S, bytes: &[u8]) -> Option<usize>
    ensures { result ≡ position (is_spelled (S.spelled kind.now)) bytes.now }
{
    bytes.iter().position(|byte| kind.spelling(*byte).is_some())
}

/// Appends an ASCII byte, escaped if it has an escape.
fn push_byte<S: Spelling>(out: &mut String, kind: &S, byte: u8) -> Result<(), AllocError>
    requires { byte < 128 }
    ensures { OnOk result (string_bytes out.new
        ≡ string_bytes out.old ++ spelled_as byte (S.spelled kind.now byte)) }
{
    match kind.spelling(byte) {
        Some(text) => out.push_str(text),
        None => out.push(char::from(byte)),
    }
}
