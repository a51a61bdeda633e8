//! Callers that are proved from contracts alone, and are tested beside the others.
ghost use Rattle.std.specs.Prelude.{◌≡◌, ◌<◌, All, IfOk, IfSome, IsTrue, OnErr, Some, length};
ghost use Rattle.std.specs.Prelude.{string_bytes};
ghost use Rattle.serde_json.specs.Read.{read};
ghost use Rattle.lsp_server.specs.Diagnostics.{published_value};
ghost use Rattle.lsp_server.specs.Files.{seen};
ghost use Rattle.lsp_server.specs.Seen.{StandIn};
ghost use Rattle.lsp_server.specs.Ends.{shown};
ghost use Rattle.lsp_server.specs.Run.{bodies};
ghost use Rattle.lsp_server.specs.Documents.{IsKept};

use lsp_server::{
    Answer, Change, End, Frames, OpenFile, Server, message_in, move_offset, published,
};
use oxc_protocol::OxcDiagnostic;
use std::alloc::{AllocError, Global};

/// Whether an offset moves when a byte is put in front of a text: each but the first does.
pub fn moves(offset: u32) -> bool
    requires { 0 < offset }
    ensures { IsTrue result }
{
    let change = Change {
        start: 0,
        end: 0,
        inserted: 1,
    };
    move_offset(change, offset as usize) > offset as usize
}

/// Reads one chunk, and says how many messages ended in it, or none where a byte was refused or
/// memory was wanted.
pub fn count_in(alloc: Global, frames: &mut Frames, bytes: &[u8]) -> Option<usize>
    ensures { IfSome result (λ count. count ≡ length (bodies (shown frames.old) bytes.now)) }
{
    let mut used = 0;
    let mut count = 0;
    while used < bytes.len() {
        let taken = frames.next(alloc, &bytes[used..]);
        used += taken.used;
        match taken.end {
            End::More => return Some(count),
            End::Message(_) => count += 1,
            End::Refused(_) => return None,
            End::OutOfMemory => return None,
        }
    }
    Some(count)
}

/// What is published to an editor for a file, as a text. `all_stand` tests the condition on the labels.
pub fn told(
    alloc: Global,
    file: &OpenFile<'_>,
    found: &[OxcDiagnostic],
) -> Result<String, AllocError>
    requires { All (StandIn file.now.places.now) found.now }
    ensures { IfOk result (λ text. read (string_bytes text)
        ≡ Some (published_value (seen file.now) found.now)) }
{
    let value = published(alloc, file, found)?;
    let text = value.to_string(alloc)?;
    Ok(text)
}

/// What one body is answered. Without memory all is as it was.
pub fn answer_to(
    alloc: Global,
    server: &mut Server,
    body: &[u8],
) -> Result<Option<Answer>, AllocError>
    ensures { OnErr result (IsKept server.old server.new) }
{
    let message = message_in(alloc, body)?;
    server.take(alloc, message)
}
