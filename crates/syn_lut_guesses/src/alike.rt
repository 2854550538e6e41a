//! Signals that had the same words, or opposite ones, in the beginning. Nothing is promised of them.

use crate::references::NONE;
use crate::words::Words;
use std::alloc::{AllocError, Global};
use syn_sat::{at, put};

/// By signal, one before it in the same bucket.
#[derive(Debug, Drop)]
pub(crate) struct Alike {
    keys: Vec<u64>,
    before: Vec<u32>,
}

impl Alike {
    /// Chains of so many signals. The only error is want of memory.
    pub(crate) fn new(alloc: Global, words: &Words, signals: usize) -> Result<Alike, AllocError> {
        let mut alike = Alike {
            keys: Vec::new(alloc),
            before: Vec::new(alloc),
        };
        let mut last = vec![in alloc; NONE; 65_536]?;
        for i in 0..signals {
            let signal = u32::try_from(i).unwrap_or(NONE);
            let key = words.key(signal);
            let bucket = (key >> 48) as usize;
            alike.keys.push(key)?;
            let before = at(last.as_slice(), bucket, NONE);
            alike.before.push(before)?;
            put(last.as_mut_slice(), bucket, signal);
        }
        Ok(alike)
    }

    fn key(&self, signal: u32) -> u64 {
        at(self.keys.as_slice(), signal as usize, 0)
    }

    /// The last signal before one that may be alike to a signal, past the last signal where there is none.
    pub(crate) fn before(&self, signal: u32, one: u32) -> u32 {
        let key = self.key(signal);
        let mut other = one;
        for _ in 0..1000 {
            other = at(self.before.as_slice(), other as usize, NONE);
            if other as usize >= self.keys.len() || self.key(other) == key {
                break;
            }
        }
        other
    }
}
