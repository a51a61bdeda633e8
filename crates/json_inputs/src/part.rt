//! Parts of an input.
ghost use Rattle.std.specs.Prelude.{◌≡◌};
ghost use Rattle.json_inputs.specs.Parts.{part_of};

/// The bytes from one to another; none if they are in another order, or past the end.
pub(crate) fn part(bytes: &[u8], start: usize, end: usize) -> &[u8]
    ensures { result.now ≡ part_of bytes.now start end }
{
    if start <= end && end <= bytes.len() {
        &bytes[start..end]
    } else {
        &[]
    }
}
