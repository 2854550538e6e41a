//! Loops over a reader's and a writer's own calls, each of which may take a part.
ghost use Rattle.std.specs.Prelude.{◌≡◌, ℕ, ◌<◌, ◌≤◌, length, IfOk, IfSome, IsErrOf, IsSomeAnd, OnErr, OnOk, vec_len};
ghost use Rattle.std.specs.Io.KnownBytes.{Appends};
ghost use Rattle.syn_io.specs.Outside.{GrewByPart};

use crate::{GetFault, SinkFailed};
use std::alloc::{AllocError, Global};
use std::io::{Read, Write};

/// How many bytes are asked of a file or of standard input in one read.
pub(crate) const PIECE: usize = 65_536;

// A buffer of so many bytes.
pub(crate) fn buffer_of(alloc: Global, size: usize) -> Result<Vec<u8>, AllocError>
    ensures { IfOk result (λ buffer. vec_len buffer ≡ size) }
{
    vec![in alloc; 0; size]
}

// Reads to the end, at most one byte past the limit. A read that gives nothing is the end.
pub(crate) fn read_within<R: Read>(
    alloc: Global,
    reader: &mut R,
    buffer: &mut [u8],
    limit: u64,
) -> Result<Vec<u8>, GetFault>
    requires { 0 < length buffer.old }
    ensures within { IfOk result (λ bytes. length bytes.items ≤ limit) }
    ensures bytes { IfOk result (λ bytes. IfSome (R.remaining reader.old) (λ all. bytes.items ≡ all)) }
    ensures too_long { IsErrOf result GetFault.TooLong → IfSome (R.remaining reader.old) (λ all. limit < length all) }
{
    let mut bytes = Vec::new(alloc);
    for _ in 0..u64::MAX {
        let free = limit - bytes.len() as u64;
        let most = free.saturating_add(1).min(buffer.len() as u64) as usize;
        let piece = &mut buffer[..most];
        let Ok(count) = reader.read(piece) else {
            return Err(GetFault::Failed);
        };
        if count == 0 {
            return Ok(bytes);
        }
        if count as u64 > free {
            return Err(GetFault::TooLong);
        }
        bytes.extend_from_slice(&piece[..count])?;
    }
    Err(GetFault::Failed)
}

// Writes all bytes, or fails after a part of them. A write that takes nothing is a fault.
pub(crate) fn write_whole<W: Write>(writer: &mut W, bytes: &[u8]) -> Result<(), SinkFailed>
    ensures written { OnOk result (Appends (W.contents writer.old) (W.contents writer.new) bytes.now) }
    ensures part { OnErr result (IfSome (W.contents writer.old) (λ before. IsSomeAnd (W.contents writer.new) (GrewByPart before bytes.now))) }
{
    let mut rest = bytes;
    while !rest.is_empty() {
        let Ok(count) = writer.write(rest) else {
            return Err(SinkFailed);
        };
        if count == 0 {
            return Err(SinkFailed);
        }
        rest = rest.split_at(count).1;
    }
    Ok(())
}
