// A sink in memory, which fails at given calls.
ghost use Rattle.std.specs.Prelude.{◌≡◌, [], ◌<◌, ◌≤◌, ◌↔◌, length, Some, vec_capacity, IfOk};
ghost use Rattle.std.specs.Prelude.{IsErr, OnErr, OnOk};
ghost use Rattle.std.specs.Io.{WritesAtMost};
ghost use Rattle.std.specs.Io.KnownBytes.{WriteAppends};
ghost use Rattle.oxc_protocol.specs.Faults.{HasCause};
ghost use Rattle.oxc_protocol.specs.MemorySink.{Refuses, SinkState, after_fault, after_write};
ghost use Rattle.oxc_protocol.specs.MemorySink.{taken};

use crate::{Failed, Sink};
use std::alloc::{AllocError, Global};
use std::marker::Model;

/// A sink that keeps what it took, in memory allocated beforehand.
///
/// Contracts see its [`SinkState`](../specs/MemorySink.antt): the bytes taken, the room for all of
/// them, the most that one call takes, the numbers of the calls that fail (the first call is 0),
/// and how many calls and faults there were.
#[derive(Drop)]
pub struct MemorySink {
    bytes: Vec<u8>,
    room: usize,
    most: usize,
    failing: Vec<u64>,
    calls: u64,
    faults: u64,
}

impl Model for MemorySink {
    ghost Value = { SinkState };

    ghost view = { λ s. record {
      received = s.bytes.items;
      room = s.room;
      most = s.most;
      failing = s.failing.items;
      calls = s.calls;
      faults = s.faults;
    } };

    ghost invariant = { λ s. (0 < s.most)
        × (s.room ≤ vec_capacity s.bytes) × (length s.bytes.items ≤ s.room) };
}

impl MemorySink {
    /// Allocates room for `room` bytes; no later call allocates.
    ///
    /// # Errors
    ///
    /// Out of memory.
    pub fn new(
        alloc: Global,
        room: usize,
        most: usize,
        failing: Vec<u64>,
    ) -> Result<MemorySink, AllocError>
        requires { 0 < most }
        ensures { IfOk result (λ s. s ≡ record {
          received = [];
          room = room;
          most = most;
          failing = failing.items;
          calls = 0;
          faults = 0;
        }) }
    {
        Ok(MemorySink {
            bytes: Vec::with_capacity(alloc, room)?,
            room,
            most,
            failing,
            calls: 0,
            faults: 0,
        })
    }

    /// The bytes taken so far.
    pub fn received(&self) -> &[u8]
        ensures { result.now ≡ self.now.received }
    {
        &self.bytes
    }

    /// How many calls failed.
    pub fn faults(&self) -> u64
        ensures { result ≡ self.now.faults }
    {
        self.faults
    }
}

impl Sink for MemorySink {
    ghost received = { λ s. Some s.received };

    ghost faults = { λ s. s.faults };

    fn write(&mut self, bytes: &[u8]) -> Result<usize, Failed>
        ensures refused { IsErr result ↔ Refuses self.old bytes.now }
        ensures taken { IfOk result (λ n. n ≡ taken self.old bytes.now) }
        ensures failed { OnErr result (self.new ≡ after_fault self.old) }
        ensures done { OnOk result (self.new ≡ after_write self.old bytes.now) }

        // The clauses of `Sink`.
        ensures bound { WritesAtMost result bytes.now }
        ensures takes { IfOk result (λ n. 0 < length bytes.now → 0 < n) }
        ensures bytes { WriteAppends
            (Some self.old.received) (Some self.new.received) result bytes.now }
        ensures cause { HasCause self.old.faults self.new.faults result }
    {
        let fails = self.failing.contains(&self.calls);
        self.calls = self.calls.saturating_add(1);
        let left = self.room - self.bytes.len();
        if fails || (left == 0 && !bytes.is_empty()) {
            self.faults = self.faults.saturating_add(1);
            return Err(Failed);
        }
        let count = bytes.len().min(self.most).min(left);
        self.bytes.extend_from_slice(&bytes[..count]).unwrap();
        Ok(count)
    }
}
