// The trait of sources, and the loop that reads one to its end.
ghost use Rattle.std.specs.Prelude.{ℕ, ◌≤◌, List, Option};
ghost use Rattle.std.specs.Io.{ReadsAtMost};
ghost use Rattle.std.specs.Io.KnownBytes.{ReadConsumes};
ghost use Rattle.oxc_protocol.specs.Faults.{HasCause};
ghost use Rattle.documents.specs.Reading.{Says, HasReadingCause};

use oxc_protocol::Failed;
use std::alloc::Global;

const CHUNK: usize = 4096;

/// A device that gives bytes.
pub trait Source {
    /// The remaining bytes; none if they aren't known.
    ghost left: { Self → Option (List ℕ) };

    /// How often the device failed: a number that never falls, and stops at its type's end.
    ghost faults: { Self → ℕ };

    /// Puts the next bytes at the front of `buf` and returns how many. For a `buf` that isn't
    /// empty, 0 means the end.
    ///
    /// # Errors
    ///
    /// `Failed`, only if the count of faults rose; nothing was taken.
    fn read(&mut self, buf: &mut [u8]) -> Result<usize, Failed>
        ensures bound { ReadsAtMost result buf.new }
        ensures bytes { ReadConsumes (left self.old) (left self.new) result buf.new }
        ensures cause { HasCause (faults self.old) (faults self.new) result };
}

/// The result of reading a source to its end.
#[derive(Drop)]
pub enum Reading {
    /// All its bytes.
    Whole(Vec<u8>),
    /// There are more bytes than the limit.
    TooLong,
    /// The source failed.
    Fault,
    /// Out of memory.
    OutOfMemory,
}

/// Reads a source to its end, or until it has taken one byte more than `limit`.
pub fn read_all<I: Source>(alloc: Global, input: &mut I, limit: usize) -> Reading
    ensures says { Says result (I.left input.old) (I.left input.new) limit }
    ensures cause { HasReadingCause (I.faults input.old) (I.faults input.new) result }
    ensures later { I.faults input.old ≤ I.faults input.new }
{
    let mut bytes: Vec<u8> = Vec::new(alloc);
    let mut chunk = [0u8; CHUNK];
    loop {
        let room = (limit - bytes.len()).min(CHUNK - 1) + 1;
        let piece = &mut chunk[..room];
        match input.read(piece) {
            Err(Failed) => return Reading::Fault,
            Ok(0) => return Reading::Whole(bytes),
            Ok(count) => {
                if count > limit - bytes.len() {
                    return Reading::TooLong;
                }
                if bytes.extend_from_slice(&piece[..count]).is_err() {
                    return Reading::OutOfMemory;
                }
            }
        }
    }
}
