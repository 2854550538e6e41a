//! A sink in memory, for tests.
ghost use Rattle.std.specs.Prelude.{◌≡◌, ℕ, ◌+◌, ◌-◌, ◌<◌, ◌≤◌, ◌++◌, [], length, take, false, true, Some, vec_capacity, vec_len, IfOk, IsErr, IsOk, OnErr, OnOk};
ghost use Rattle.syn_io.specs.Outside.{GrewByPart, Rose};

use crate::{Calls, Sink, SinkFailed};
use std::alloc::{AllocError, Global};

/// A sink that keeps what it takes. It has room for so many bytes, reserved when it is made, and its
/// calls may be told to fail.
#[derive(Debug, Drop)]
pub struct MemSink {
    bytes: Vec<u8>,
    room: usize,
    calls: Calls,
    faults: u64,
    ghost within: { vec_len bytes ≤ room },
    ghost reserved: { room ≤ vec_capacity bytes },
}

impl MemSink {
    ghost use Rattle.syn_io.specs.MemSink.{bytes_taken, room_of, sink_calls, sink_faults};

    /// A sink with room for so many bytes. The calls of `put` with these numbers, counted from 1, are to
    /// fail and take nothing.
    pub fn new(alloc: Global, room: usize, failing: Vec<u64>) -> Result<MemSink, AllocError>
        ensures empty { IfOk result (λ sink. bytes_taken sink ≡ []) }
        ensures room { IfOk result (λ sink. room_of sink ≡ room) }
        ensures calls { IfOk result (λ sink. sink_calls sink ≡ record { made = 0; failing = failing }) }
        ensures faults { IfOk result (λ sink. sink_faults sink ≡ 0) }
    {
        Ok(MemSink {
            bytes: Vec::with_capacity(alloc, room)?,
            room,
            calls: Calls::failing(failing),
            faults: 0,
        })
    }

    /// The bytes taken.
    pub fn bytes(&self) -> &[u8]
        ensures { result.now ≡ bytes_taken self.now }
    {
        self.bytes.as_slice()
    }
}

impl Sink for MemSink {
    ghost use Rattle.syn_io.specs.MemSink.{bytes_taken, room_of, screen_of, sink_calls, sink_faults};
    ghost use Rattle.syn_io.specs.Calls.{after_call, next_fails};

    ghost screen = { screen_of };

    fn put(&mut self, piece: &[u8]) -> Result<(), SinkFailed>
        ensures taken { OnOk result (bytes_taken self.new ≡ bytes_taken self.old ++ piece.now) }
        ensures part { OnErr result (GrewByPart (bytes_taken self.old) piece.now (bytes_taken self.new)) }
        ensures failed { OnErr result (Rose (sink_faults self.old) (sink_faults self.new)) }
        ensures later { sink_faults self.old ≤ sink_faults self.new }

        // A call whose number is listed fails and takes nothing.
        ensures listed { next_fails (sink_calls self.old) ≡ true → IsErr result }
        ensures nothing { next_fails (sink_calls self.old) ≡ true → bytes_taken self.new ≡ bytes_taken self.old }

        // Any other takes the bytes for which there is room, and fails where not all of them fit.
        ensures fits { next_fails (sink_calls self.old) ≡ false → length (bytes_taken self.old) + length piece.now ≤ room_of self.old → IsOk result }
        ensures stands { OnOk result (sink_faults self.new ≡ sink_faults self.old) }
        ensures fills { next_fails (sink_calls self.old) ≡ false →
            bytes_taken self.new ≡ bytes_taken self.old ++ take (room_of self.old - length (bytes_taken self.old)) piece.now }
        ensures room { room_of self.new ≡ room_of self.old }
        ensures counted { sink_calls self.new ≡ after_call (sink_calls self.old) }
    {
        if self.calls.begin() {
            self.faults = self.faults.saturating_add(1);
            return Err(SinkFailed);
        }
        let free = self.room - self.bytes.len();
        let (part, rest) = piece.split_at(piece.len().min(free));
        self.bytes.extend_from_slice(part).unwrap();
        if !rest.is_empty() {
            self.faults = self.faults.saturating_add(1);
            return Err(SinkFailed);
        }
        Ok(())
    }
}
