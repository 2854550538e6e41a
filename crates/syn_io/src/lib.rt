//! What stands outside of the shell: files by name, lines, and a sink. Each is a trait, with one
//! type over the system and one in memory whose calls may be told to fail.
//!
//! Each counts its faults, and may tell its contents. Clauses on contents hold where they are told;
//! an answer `Failed` comes only where the count rose in the call, told or not.
#![tactic(auto)]

ghost use Rattle.std.specs.Prelude.{◌≡◌, ◌<◌, ◌≤◌, ◌++◌, length, None, Some, IfOk, IfSome, IsErrOf, IsSomeAnd, OnErr, OnOk, option_map, true};
ghost use Rattle.syn_io.specs.Outside.{after_line, Disk, file_at, GrewByPart, has_distinct_names, Input, next_line, Rose, Screen, without_file};

use std::alloc::{AllocError, AllocFailed, Global};

mod calls;
mod mem_files;
mod mem_lines;
mod mem_sink;
mod pieces;
mod real_files;
mod real_lines;
mod real_sink;

pub use calls::Calls;
pub use mem_files::MemFiles;
pub use mem_lines::MemLines;
pub use mem_sink::MemSink;
pub use real_files::RealFiles;
pub use real_lines::RealLines;
pub use real_sink::RealSink;

/// Why a file was not got.
#[derive(Clone, Copy, Debug, PartialEq, Eq)]
pub enum GetFault {
    /// The file is missing, or could not be read. The count of faults rose.
    Failed,
    /// The file has more bytes than the limit.
    TooLong,
    NoMemory,
}

/// Why a file was not put.
#[derive(Clone, Copy, Debug, PartialEq, Eq)]
pub enum PutFault {
    /// The file could not be written. The count of faults rose.
    Failed,
    NoMemory,
}

/// Why no line was given.
#[derive(Clone, Copy, Debug, PartialEq, Eq)]
pub enum LineFault {
    /// The bytes could not be read. The count of faults rose.
    Failed,
    /// The next line has more bytes than the limit.
    TooLong,
    NoMemory,
}

/// A sink did not take the whole piece. Its count of faults rose.
#[derive(Clone, Copy, Debug, PartialEq, Eq)]
pub struct SinkFailed;

/// Files by name.
pub trait Files {
    /// The names, which are distinct, each with its bytes, where that is told, and how often a call has failed.
    ghost disk: { Self → Disk };

    /// The bytes of the file of that name, where it has at most `limit`. A missing name is a fault.
    fn get(&mut self, alloc: Global, name: &str, limit: u64) -> Result<Vec<u8>, GetFault>
        ensures bytes { IfOk result (λ bytes. IfSome (disk self.old).told (λ files. file_at name.now files ≡ Some bytes.items)) }
        ensures within { IfOk result (λ bytes. length bytes.items ≤ limit) }
        ensures too_long { IsErrOf result GetFault.TooLong →
            IfSome (disk self.old).told (λ files. IsSomeAnd (file_at name.now files) (λ bytes. limit < length bytes)) }
        ensures failed { IsErrOf result GetFault.Failed → Rose (disk self.old).faults (disk self.new).faults }
        ensures unchanged { (disk self.new).told ≡ (disk self.old).told }
        ensures later { (disk self.old).faults ≤ (disk self.new).faults };

    /// Makes the file of that name have these bytes. After a refusal the named file alone is untold.
    fn put(&mut self, alloc: Global, name: &str, bytes: &[u8]) -> Result<(), PutFault>
        ensures bytes { OnOk result (IfSome (disk self.new).told (λ files. file_at name.now files ≡ Some bytes.now)) }
        ensures others { IfSome (disk self.old).told (λ before. IsSomeAnd (disk self.new).told
            (λ after. without_file name.now after ≡ without_file name.now before)) }
        ensures failed { IsErrOf result PutFault.Failed → Rose (disk self.old).faults (disk self.new).faults }
        ensures later { (disk self.old).faults ≤ (disk self.new).faults };

    /// No name is told twice.
    ghost distinct: { (files : Self) → IfSome (disk files).told (λ list. has_distinct_names list ≡ true) };
}

/// Bytes that are taken line by line.
pub trait Lines {
    /// The bytes that are left, where that is told, and how often a call has failed.
    ghost input: { Self → Input };

    /// The next line without its line feed, where it has at most `limit` bytes; `None` where nothing is
    /// left. After a refusal it is untold what is left.
    fn next(&mut self, alloc: Global, limit: u64) -> Result<Option<Vec<u8>>, LineFault>
        ensures line { IfOk result (λ line. IfSome (input self.old).told (λ left. option_map (λ bytes. bytes.items) line ≡ next_line left)) }
        ensures left { OnOk result (IfSome (input self.old).told (λ left. (input self.new).told ≡ Some (after_line left))) }
        ensures within { IfOk result (λ line. IfSome line (λ bytes. length bytes.items ≤ limit)) }
        ensures too_long { IsErrOf result LineFault.TooLong →
            IfSome (input self.old).told (λ left. IsSomeAnd (next_line left) (λ line. limit < length line)) }
        ensures failed { IsErrOf result LineFault.Failed → Rose (input self.old).faults (input self.new).faults }
        ensures later { (input self.old).faults ≤ (input self.new).faults };
}

/// Takes bytes, piece by piece.
pub trait Sink {
    /// The bytes taken so far, where that is told, and how often a call has failed.
    ghost screen: { Self → Screen };

    /// Takes the whole piece, or fails after a part of it. It takes no memory.
    fn put(&mut self, piece: &[u8]) -> Result<(), SinkFailed>
        ensures taken { OnOk result (IfSome (screen self.old).told (λ before. (screen self.new).told ≡ Some (before ++ piece.now))) }
        ensures part { OnErr result (IfSome (screen self.old).told (λ before. IsSomeAnd (screen self.new).told (GrewByPart before piece.now))) }
        ensures failed { OnErr result (Rose (screen self.old).faults (screen self.new).faults) }
        ensures later { (screen self.old).faults ≤ (screen self.new).faults };
}

impl From<AllocError> for GetFault {
    ghost use Rattle.syn_io.specs.declared.GetFault.TheVariants.{NoMemory};

    ghost from_gives = { λ _ fault. fault ≡ NoMemory };

    fn from(_error: AllocError) -> GetFault {
        GetFault::NoMemory
    }
}

impl From<AllocError> for PutFault {
    ghost use Rattle.syn_io.specs.declared.PutFault.TheVariants.{NoMemory};

    ghost from_gives = { λ _ fault. fault ≡ NoMemory };

    fn from(_error: AllocError) -> PutFault {
        PutFault::NoMemory
    }
}

impl<T: Drop> From<AllocFailed<T>> for PutFault {
    ghost use Rattle.syn_io.specs.declared.PutFault.TheVariants.{NoMemory};

    ghost from_gives = { λ _ fault. fault ≡ NoMemory };

    fn from(_error: AllocFailed<T>) -> PutFault {
        PutFault::NoMemory
    }
}

impl From<AllocError> for LineFault {
    ghost use Rattle.syn_io.specs.declared.LineFault.TheVariants.{NoMemory};

    ghost from_gives = { λ _ fault. fault ≡ NoMemory };

    fn from(_error: AllocError) -> LineFault {
        LineFault::NoMemory
    }
}
