//! The system's files.
ghost use Rattle.std.specs.Prelude.{◌≡◌, ◌≤◌, IfOk, length};
ghost use Rattle.syn_io.specs.RealFiles.{untold_disk};

use crate::pieces::{PIECE, buffer_of, read_within, write_whole};
use crate::{Files, GetFault, PutFault, SinkFailed};
use std::alloc::Global;
use std::fs;
use std::rt::Files as HostFiles;

/// The files of the system `R`, named by their paths. They tell nothing of their contents.
#[derive(Drop)]
pub struct RealFiles<'a, R> {
    rt: &'a R,
    faults: u64,
}

impl<'a, R: HostFiles> RealFiles<'a, R> {
    /// No call has failed yet.
    pub fn new(rt: &'a R) -> RealFiles<'a, R>
        ensures { (⟦<RealFiles<'a, R> as Files>⟧.disk result).faults ≡ 0 }
    {
        RealFiles { rt, faults: 0 }
    }

    fn read(&self, alloc: Global, name: &str, limit: u64) -> Result<Vec<u8>, GetFault>
        ensures { IfOk result (λ bytes. length bytes.items ≤ limit) }
    {
        let mut buffer = buffer_of(alloc, PIECE)?;
        let Ok(mut file) = fs::open(self.rt, name) else {
            return Err(GetFault::Failed);
        };
        read_within(alloc, &mut file, buffer.as_mut_slice(), limit)
    }

    fn write(&self, name: &str, bytes: &[u8]) -> Result<(), SinkFailed> {
        let Ok(mut file) = fs::create(self.rt, name) else {
            return Err(SinkFailed);
        };
        write_whole(&mut file, bytes)
    }
}

impl<'a, R: HostFiles> Files for RealFiles<'a, R> {
    ghost disk = { λ files. untold_disk files.faults };

    ghost distinct = { λ _. tt };

    fn get(&mut self, alloc: Global, name: &str, limit: u64) -> Result<Vec<u8>, GetFault> {
        let answer = self.read(alloc, name, limit);
        if let Err(GetFault::Failed) = answer {
            self.faults = self.faults.saturating_add(1);
        }
        answer
    }

    fn put(&mut self, _alloc: Global, name: &str, bytes: &[u8]) -> Result<(), PutFault> {
        if self.write(name, bytes).is_err() {
            self.faults = self.faults.saturating_add(1);
            return Err(PutFault::Failed);
        }
        Ok(())
    }
}
