// Fingerprints of findings.
ghost use Rattle.std.specs.Prelude.{◌≡◌, ◌++◌, IfOk, OnOk, string_bytes};
ghost use Rattle.ci_formats.specs.Fingerprint.{AreToldApart, fingerprint as fingerprint_of};
ghost use Rattle.ci_formats.specs.Fingerprint.{measured};

use itoa::Buffer;
use sha2::{Digest, Sha256};
use std::alloc::{AllocError, Global};

/// The fingerprint of a finding: SHA-256, in hexadecimal digits, of its path, code and message,
/// and of the number of equal findings before it.
///
/// # Errors
///
/// Out of memory.
#[tactic(auto, unfolding(crate::specs::Fingerprint::marked))]
pub fn fingerprint(
    alloc: Global,
    path: &str,
    code: &str,
    message: &str,
    before: usize,
) -> Result<String, AllocError>
    ensures { IfOk result (λ text. string_bytes text
        ≡ fingerprint_of path.now code.now message.now before) }
{
    let mut text = String::new(alloc);
    push_measured(&mut text, path)?;
    push_measured(&mut text, code)?;
    push_measured(&mut text, message)?;
    text.push_str(Buffer::new().format(before))?;
    let mut hasher = Sha256::new();
    hasher.update(text.as_bytes());
    hex::encode(alloc, hasher.finalize().as_slice())
}

/// Two findings have the same hashed text only with the same path, code, message and number of
/// equal findings before.
pub fn issues_are_told_apart()
    ensures { AreToldApart }
{}

/// Appends the length of a text, and the text.
#[tactic(auto, unfolding(crate::specs::Fingerprint::measured))]
fn push_measured(out: &mut String, text: &str) -> Result<(), AllocError>
    ensures { OnOk result (string_bytes out.new ≡ string_bytes out.old ++ measured text.now) }
{
    out.push_str(Buffer::new().format(text.len()))?;
    out.push_str(":")?;
    out.push_str(text)
}
