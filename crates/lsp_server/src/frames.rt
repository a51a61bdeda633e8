// Reads frames from bytes as they come.
ghost use Rattle.std.specs.Prelude.{◌≡◌, ◌≤◌, ◌<◌, length};
ghost use Rattle.lsp_server.specs.Run.{start};

use crate::head::{Head, START, Step, Why, read_byte};
use std::alloc::Global;

/// The state of a reader.
#[derive(Drop)]
pub enum State {
    /// In a head, of which this has been read.
    InHead(Head),
    /// In a body; this many bytes are missing after the next one.
    InBody(u32),
    /// After a byte that no frame can have.
    Dead(Why),
}

/// A reader of frames. It holds the frame that isn't whole yet.
#[derive(Drop)]
pub struct Frames {
    state: State,
    body: Vec<u8>,
}

/// The result of a call.
#[derive(Drop)]
pub enum End {
    /// All bytes are used, and no message is whole.
    More,
    /// The body of a whole message.
    Message(Vec<u8>),
    /// The next byte is the first that no frame can have.
    Refused(Why),
    /// Out of memory at the next byte; the call may be repeated.
    OutOfMemory,
}

/// The result of a call, and how many bytes it used.
#[derive(Drop)]
pub struct Taken {
    /// How many of the bytes were used; the next call takes those after them.
    pub used: usize,
    /// A message, no message yet, or why there is none.
    pub end: End,
}

impl Frames {
    ghost use Rattle.lsp_server.specs.Ends.{shown, Ends, IsMore, IsMessage};

    /// A reader before its first frame.
    pub fn new(alloc: Global) -> Frames
        ensures { shown result ≡ start }
    {
        Frames {
            state: State::InHead(START),
            body: Vec::new(alloc),
        }
    }

    /// Reads up to the end of the next message, or of the bytes, and returns how many it used. Call
    /// it again with the bytes after those. After a rejected byte each call gives the same error;
    /// after out of memory, the call can be repeated with the unused bytes. Memory is taken only
    /// for bytes that arrived, never for a length that a head claims.
    pub fn next(&mut self, alloc: Global, bytes: &[u8]) -> Taken
        ensures within { result.used ≤ length bytes.now }
        ensures ends { Ends result.end (shown self.old) bytes.now result.used (shown self.new) }
        ensures more { IsMore result.end → result.used ≡ length bytes.now }
        ensures message { IsMessage result.end → 0 < result.used }
    {
        let mut used = 0;
        while used < bytes.len() {
            let taken = self.advance(alloc, &bytes[used..]);
            let now = used + taken.used;
            match taken.end {
                End::More => used = now,
                end => return Taken { used: now, end },
            }
        }
        Taken {
            used,
            end: End::More,
        }
    }

    /// Reads one byte of a head, or as much as there is of a body.
    fn advance(&mut self, alloc: Global, bytes: &[u8]) -> Taken
        requires { 0 < length bytes.now }
        ensures within { result.used ≤ length bytes.now }
        ensures ends { Ends result.end (shown self.old) bytes.now result.used (shown self.new) }
        ensures more { IsMore result.end → 0 < result.used }
        ensures message { IsMessage result.end → 0 < result.used }
    {
        match self.state {
            State::Dead(why) => Taken {
                used: 0,
                end: End::Refused(why),
            },
            State::InHead(head) => self.advance_head(alloc, head, bytes),
            State::InBody(more) => self.advance_body(alloc, more, bytes),
        }
    }

    /// Reads one byte of a head.
    fn advance_head(&mut self, alloc: Global, head: Head, bytes: &[u8]) -> Taken
        requires first { 0 < length bytes.now }
        requires state { self.old.state ≡ State.InHead head }
        ensures within { result.used ≤ length bytes.now }
        ensures ends { Ends result.end (shown self.old) bytes.now result.used (shown self.new) }
        ensures more { IsMore result.end → 0 < result.used }
        ensures message { IsMessage result.end → 0 < result.used }
    {
        let byte = bytes[0];
        match read_byte(head, byte) {
            Step::On(next) => {
                self.state = State::InHead(next);
                Taken {
                    used: 1,
                    end: End::More,
                }
            }
            Step::Fault(why) => {
                self.state = State::Dead(why);
                Taken {
                    used: 0,
                    end: End::Refused(why),
                }
            }
            Step::Begins(0) => {
                self.body = Vec::new(alloc);
                self.state = State::InHead(START);
                Taken {
                    used: 1,
                    end: End::Message(Vec::new(alloc)),
                }
            }
            Step::Begins(length) => {
                self.body.clear();
                self.state = State::InBody(length - 1);
                Taken {
                    used: 1,
                    end: End::More,
                }
            }
        }
    }

    /// Reads as much as there is of a body.
    fn advance_body(&mut self, alloc: Global, more: u32, bytes: &[u8]) -> Taken
        requires first { 0 < length bytes.now }
        requires state { self.old.state ≡ State.InBody more }
        ensures within { result.used ≤ length bytes.now }
        ensures ends { Ends result.end (shown self.old) bytes.now result.used (shown self.new) }
        ensures more { IsMore result.end → 0 < result.used }
        ensures message { IsMessage result.end → 0 < result.used }
    {
        let wanted = more as usize + 1;
        if bytes.len() < wanted {
            let used = bytes.len();
            if self.body.extend_from_slice(bytes).is_err() {
                return Taken {
                    used: 0,
                    end: End::OutOfMemory,
                };
            }
            self.state = State::InBody((wanted - used - 1) as u32);
            Taken {
                used,
                end: End::More,
            }
        } else {
            if self.body.extend_from_slice(&bytes[..wanted]).is_err() {
                return Taken {
                    used: 0,
                    end: End::OutOfMemory,
                };
            }
            self.state = State::InHead(START);
            let whole = std::mem::replace(&mut self.body, Vec::new(alloc));
            Taken {
                used: wanted,
                end: End::Message(whole),
            }
        }
    }
}
