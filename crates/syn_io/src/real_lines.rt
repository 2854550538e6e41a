//! Lines of a reader, as standard input.
ghost use Rattle.std.specs.Prelude.{◌≡◌, ◌≢◌, ◌+◌, ◌<◌, ◌≤◌, ◌++◌, false, IfErr, IfOk, IfSome, IsErrOf, IsSomeAnd, length, OnOk, option_map, Some, true, vec_len};
ghost use Rattle.std.specs.Io.KnownBytes.{IsAtEnd, Keeps};
ghost use Rattle.std.specs.List.{after_first, before_first, position_or_len};
ghost use Rattle.syn_io.specs.Outside.{after_line, is_line_feed, next_line};

use crate::mem_lines::line_len;
use crate::pieces::{PIECE, buffer_of};
use crate::{LineFault, Lines};
use std::alloc::Global;
use std::io::Read;

/// Lines of a reader, which is read in large pieces. They tell what is left where the reader does; standard
/// input tells nothing.
#[derive(Drop)]
pub struct RealLines<R> {
    reader: R,
    buffer: Vec<u8>,
    at: usize,
    end: usize,
    faults: u64,
    ghost within: { at ≤ end },
    ghost filled: { end ≤ vec_len buffer },
}

impl<R: Read> RealLines<R> {
    ghost use Rattle.syn_io.specs.RealLines.{known_left, unread};

    /// The lines that the reader gives, as `rt.reader()` those of standard input. It takes no memory: the room for a
    /// piece is made when a line is first asked for.
    pub fn new(alloc: Global, reader: R) -> RealLines<R>
    where
        R: Drop,
        ensures told { IfSome (R.remaining reader) (λ left. known_left R.remaining result ≡ Some left) }
        ensures faults { (⟦<RealLines<R> as Lines>⟧.input result).faults ≡ 0 }
    {
        RealLines {
            reader,
            buffer: Vec::new(alloc),
            at: 0,
            end: 0,
            faults: 0,
        }
    }

    // Makes the room for a piece, once. Nothing was read before.
    fn make_room(&mut self, alloc: Global) -> Result<(), LineFault>
        ensures room { OnOk result (0 < vec_len self.new.buffer) }
        ensures reader { self.new.reader ≡ self.old.reader }
        ensures places { (self.new.at ≡ self.old.at) × (self.new.end ≡ self.old.end) }
        ensures faults { self.new.faults ≡ self.old.faults }
        ensures refused { IfErr result (λ fault. fault ≡ LineFault.NoMemory) }
    {
        if self.buffer.is_empty() {
            self.buffer = buffer_of(alloc, PIECE)?;
        }
        Ok(())
    }

    // Reads one more piece where none is left. False at the end.
    fn fill(&mut self, alloc: Global) -> Result<bool, LineFault>
        ensures kept { OnOk result (Keeps (known_left R.remaining self.old) (known_left R.remaining self.new)) }
        ensures end { IfOk result (λ more. more ≡ false → IsAtEnd (known_left R.remaining self.new)) }
        ensures there { IfOk result (λ more. more ≡ true → self.new.at < self.new.end) }
        ensures refused { IfErr result (λ fault. fault ≢ LineFault.TooLong) }
        ensures faults { self.new.faults ≡ self.old.faults }
    {
        if self.at < self.end {
            return Ok(true);
        }
        self.make_room(alloc)?;
        let Ok(count) = self.reader.read(self.buffer.as_mut_slice()) else {
            return Err(LineFault::Failed);
        };
        self.at = 0;
        self.end = count;
        Ok(count > 0)
    }

    // Adds what is left of the piece to the line, up to the next line feed. True where there is one.
    fn take_part(&mut self, line: &mut Vec<u8>, limit: u64) -> Result<bool, LineFault>
        requires { vec_len line.old ≤ limit }
        ensures part { OnOk result (line.new.items ≡ line.old.items ++ before_first is_line_feed (unread self.old)) }
        ensures found { IfOk result (λ found. found ≡ true → position_or_len is_line_feed (unread self.old) < length (unread self.old)) }
        ensures missing { IfOk result (λ found. found ≡ false → length (unread self.old) ≤ position_or_len is_line_feed (unread self.old)) }
        ensures rest { OnOk result (unread self.new ≡ after_first is_line_feed (unread self.old)) }
        ensures within { OnOk result (vec_len line.new ≤ limit) }
        ensures too_long { IsErrOf result LineFault.TooLong → limit < length line.old.items + position_or_len is_line_feed (unread self.old) }
        ensures reader { self.new.reader ≡ self.old.reader }
        ensures faults { self.new.faults ≡ self.old.faults }
    {
        let piece = &self.buffer[self.at..self.end];
        let length = line_len(piece);
        if length as u64 > limit - line.len() as u64 {
            return Err(LineFault::TooLong);
        }
        line.extend_from_slice(piece.split_at(length).0)?;
        let found = length < piece.len();
        self.at = self.end.min(self.at + length + 1);
        Ok(found)
    }

    fn take_line(&mut self, alloc: Global, limit: u64) -> Result<Option<Vec<u8>>, LineFault>
        ensures line { IfOk result (λ line. IfSome (known_left R.remaining self.old) (λ left. option_map (λ bytes. bytes.items) line ≡ next_line left)) }
        ensures left { OnOk result (IfSome (known_left R.remaining self.old) (λ left. known_left R.remaining self.new ≡ Some (after_line left))) }
        ensures too_long { IsErrOf result LineFault.TooLong →
            IfSome (known_left R.remaining self.old) (λ left. IsSomeAnd (next_line left) (λ line. limit < length line)) }
        ensures within { IfOk result (λ line. IfSome line (λ bytes. length bytes.items ≤ limit)) }
        ensures faults { self.new.faults ≡ self.old.faults }
    {
        let mut line = Vec::new(alloc);
        for _ in 0..u64::MAX {
            if !self.fill(alloc)? {
                if line.is_empty() {
                    return Ok(None);
                }
                return Ok(Some(line));
            }
            if self.take_part(&mut line, limit)? {
                return Ok(Some(line));
            }
        }
        Err(LineFault::Failed)
    }
}

impl<R: Read> Lines for RealLines<R> {
    ghost use Rattle.syn_io.specs.RealLines.{input_over, known_left};

    ghost input = { input_over R.remaining };

    fn next(&mut self, alloc: Global, limit: u64) -> Result<Option<Vec<u8>>, LineFault> {
        let answer = self.take_line(alloc, limit);
        if let Err(LineFault::Failed) = answer {
            self.faults = self.faults.saturating_add(1);
        }
        answer
    }
}
