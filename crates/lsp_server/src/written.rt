// Writes frames.
ghost use Rattle.std.specs.Prelude.{◌≡◌, ◌≤◌, IfOk, length};
ghost use Rattle.lsp_server.specs.Run.{frame};
ghost use Rattle.lsp_server.specs.Written.{CanEnd, CutsAgree, FramesAreRead, IsWhole};
ghost use Rattle.lsp_server.specs.Written.{RefusedForGood};

use crate::head::LONGEST_BODY;
use itoa::Buffer;
use std::alloc::{AllocError, Global};

/// The frame of a body: its length in bytes, and the body. [`Frames`](crate::Frames) rejects the
/// frame of a body of more than [`LONGEST_BODY`] bytes.
///
/// # Errors
///
/// Out of memory.
pub fn write_frame(alloc: Global, body: &[u8]) -> Result<Vec<u8>, AllocError>
    ensures frame { IfOk result (λ bytes. bytes.items ≡ frame body.now) }
    ensures read { length body.now ≤ LONGEST_BODY
        → IfOk result (λ bytes. IsWhole bytes.items body.now) }
{
    let bytes = framed(alloc, body)?;
    Ok(bytes)
}

/// The same, with a contract about its bytes alone.
fn framed(alloc: Global, body: &[u8]) -> Result<Vec<u8>, AllocError>
    ensures { IfOk result (λ bytes. bytes.items ≡ frame body.now) }
{
    let mut buffer = Buffer::new();
    let mut bytes = Vec::from_slice(alloc, b"Content-Length: ")?;
    bytes.extend_from_slice(buffer.format(body.len()).as_bytes())?;
    bytes.extend_from_slice(b"\r\n\r\n")?;
    bytes.extend_from_slice(body)?;
    Ok(bytes)
}

/// Laws of all lists of bytes: however they are split, the same bodies come; frames are read as
/// their bodies; after a rejected byte no body comes; and bytes of which none was rejected can go
/// on to whole frames, if a head has 40 bytes left below its bound.
pub fn frame_laws()
    ensures cuts { CutsAgree }
    ensures frames { FramesAreRead }
    ensures refused { RefusedForGood }
    ensures can_end { CanEnd }
{}
