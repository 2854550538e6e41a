//! Lines in memory, for tests.
ghost use Rattle.std.specs.Prelude.{◌≡◌, ℕ, ◌<◌, ◌≤◌, length, option_map, Some, false, true, IfOk, IfSome, IsErrOf, IsSomeAnd, OnErr, OnOk};
ghost use Rattle.std.specs.List.{position_or_len};
ghost use Rattle.syn_io.specs.Outside.{after_line, is_line_feed, next_line, Rose};

use crate::{Calls, LineFault, Lines};
use std::alloc::Global;

/// Bytes in memory that are taken line by line. They tell what is left, and their calls may be told to fail.
#[derive(Debug, Drop)]
pub struct MemLines {
    bytes: Vec<u8>,
    at: usize,
    calls: Calls,
    faults: u64,
    ghost within: { at ≤ length bytes.items },
}

// How many bytes stand before the first line feed, or before the end where there is none.
pub(crate) fn line_len(bytes: &[u8]) -> usize
    ensures value { result ≡ position_or_len is_line_feed bytes.now }
    ensures within { result ≤ length bytes.now }
{
    for (i, byte) in bytes.iter().enumerate() {
        if *byte == b'\n' {
            return i;
        }
    }
    bytes.len()
}

impl MemLines {
    ghost use Rattle.syn_io.specs.MemLines.{bytes_left, line_calls, line_faults};

    /// The lines of these bytes. The calls of `next` with these numbers, counted from 1, are to fail.
    pub fn new(bytes: Vec<u8>, failing: Vec<u64>) -> MemLines
        ensures left { bytes_left result ≡ bytes.items }
        ensures calls { line_calls result ≡ record { made = 0; failing = failing } }
        ensures faults { line_faults result ≡ 0 }
    {
        MemLines {
            bytes,
            at: 0,
            calls: Calls::failing(failing),
            faults: 0,
        }
    }

    /// The bytes that are left.
    pub fn left(&self) -> &[u8]
        ensures { result.now ≡ bytes_left self.now }
    {
        self.bytes.as_slice().split_at(self.at).1
    }
}

impl Lines for MemLines {
    ghost use Rattle.syn_io.specs.MemLines.{bytes_left, input_of, line_calls, line_faults};
    ghost use Rattle.syn_io.specs.Calls.{after_call, next_fails};

    ghost input = { input_of };

    fn next(&mut self, alloc: Global, limit: u64) -> Result<Option<Vec<u8>>, LineFault>
        ensures line { IfOk result (λ line. option_map (λ bytes. bytes.items) line ≡ next_line (bytes_left self.old)) }
        ensures left { OnOk result (bytes_left self.new ≡ after_line (bytes_left self.old)) }
        ensures within { IfOk result (λ line. IfSome line (λ bytes. length bytes.items ≤ limit)) }
        ensures too_long { IsErrOf result LineFault.TooLong → IsSomeAnd (next_line (bytes_left self.old)) (λ line. limit < length line) }
        ensures failed { IsErrOf result LineFault.Failed → Rose (line_faults self.old) (line_faults self.new) }
        ensures later { line_faults self.old ≤ line_faults self.new }

        // A call whose number is listed fails, and no other. A refused one takes nothing.
        ensures listed { next_fails (line_calls self.old) ≡ true → IsErrOf result LineFault.Failed }
        ensures stands { next_fails (line_calls self.old) ≡ false → line_faults self.new ≡ line_faults self.old }
        ensures refused { OnErr result (bytes_left self.new ≡ bytes_left self.old) }
        ensures counted { line_calls self.new ≡ after_call (line_calls self.old) }
    {
        if self.calls.begin() {
            self.faults = self.faults.saturating_add(1);
            return Err(LineFault::Failed);
        }
        let left = self.left();
        if left.is_empty() {
            return Ok(None);
        }
        let length = line_len(left);
        if length as u64 > limit {
            return Err(LineFault::TooLong);
        }
        let line = Vec::from_slice(alloc, left.split_at(length).0)?;
        self.at += left.len().min(length + 1);
        Ok(Some(line))
    }
}
