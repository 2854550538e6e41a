//! Hints: where the row of a pair may stand. They suggest, and promise nothing.

use std::alloc::{AllocError, Global};
use std::sync::atomic::{AtomicU64, Ordering};
use syn_rows::Lit;

// The words in which the hint of one pair may stand.
const BLOCK: usize = 8;

/// Words that all workers read and write in single steps: each holds a node, and a tag of the pair that was noted with it.
/// Two pairs may share a tag and a word, and a node may have got another row since, so what is suggested has to be compared.
#[derive(Drop)]
pub struct Hints {
    words: Vec<AtomicU64>,
}

// A pair's number, in which each bit of the two literals tells on the upper bits.
fn mixed(pair: (Lit, Lit)) -> u64 {
    let both = (pair.0.0 as u64) << 32 | pair.1.0 as u64;
    let first = (both ^ both >> 29).wrapping_mul(0x9e37_79b9_7f4a_7c15);
    (first ^ first >> 32).wrapping_mul(0xbf58_476d_1ce4_e5b9)
}

// The tag of a pair, never 0: 0 is the word of no hint.
fn tag_of(number: u64) -> u64 {
    number >> 32 | 1
}

impl Hints {
    /// Room for at least so many hints. The only error is want of memory, and no other call takes any.
    pub fn new(alloc: Global, words: u32) -> Result<Hints, AllocError> {
        let count = (words as usize + BLOCK - 1) / BLOCK * BLOCK;
        let mut room = Vec::with_capacity(alloc, count)?;
        for _ in 0..count {
            room.push(AtomicU64::new(0))?;
        }
        Ok(Hints { words: room })
    }

    // The words of a pair's block.
    fn block(&self, number: u64) -> &[AtomicU64] {
        let words = self.words.as_slice();
        let blocks = words.len() / BLOCK;
        if blocks == 0 {
            return words;
        }
        let start = (number & 0xffff_ffff) as usize % blocks * BLOCK;
        &words[start..start + BLOCK]
    }

    /// The node that was noted for the pair, as far as is known; 0 is none.
    pub fn suggest(&self, pair: (Lit, Lit)) -> u32 {
        let number = mixed(pair);
        let tag = tag_of(number);
        for word in self.block(number) {
            let found = word.load(Ordering::SeqCst);
            if found >> 32 == tag {
                return (found & 0xffff_ffff) as u32;
            }
        }
        0
    }

    /// Notes the node for the pair: in the pair's own word, else in one that is free, else over an older hint.
    pub fn note(&self, pair: (Lit, Lit), node: u32) {
        let number = mixed(pair);
        let tag = tag_of(number);
        let block = self.block(number);
        let hint = tag << 32 | node as u64;
        for word in block {
            let found = word.load(Ordering::SeqCst);
            if found == 0 || found >> 32 == tag {
                word.store(hint, Ordering::SeqCst);
                return;
            }
        }
        let older = (tag >> 1) as usize % BLOCK;
        if older < block.len() {
            block[older].store(hint, Ordering::SeqCst);
        }
    }
}
