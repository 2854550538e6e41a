//! A table of ANDs by their pairs of literals. Nothing is promised of it.

use crate::hashes::{NONE, table_size};
use std::alloc::{AllocError, Global};
use syn_rows::{Lit, Row};
use syn_sat::{at, put};

/// Nodes in open addressing, by their pairs; a power of two.
#[derive(Debug, Drop)]
pub(crate) struct Pairs {
    nodes: Vec<u32>,
}

// The hash of a pair.
#[inline]
fn hash(a: Lit, b: Lit) -> usize {
    let word = a.0 as u64 | (b.0 as u64) << 32;
    let product = word.wrapping_mul(0x9E37_79B9_7F4A_7C15);
    (product >> 32) as usize
}

impl Pairs {
    /// A table with a power of two of places, at least twice as many as nodes. The only error is want of memory.
    pub(crate) fn new(alloc: Global, count: usize) -> Result<Pairs, AllocError> {
        Ok(Pairs {
            nodes: vec![in alloc; NONE; table_size(count)]?,
        })
    }

    /// The node with the AND that this one has, which is put in where there is none.
    pub(crate) fn same(&mut self, now: &[Row], node: u32) -> u32 {
        let row = at(now, node as usize, Row::Free);
        let Row::And(a, b) = row else {
            return NONE;
        };
        let mask = self.nodes.len().saturating_sub(1);
        let mut place = hash(a, b) & mask;
        for _ in 0..=mask {
            let other = at(self.nodes.as_slice(), place, NONE);
            if other == NONE {
                put(self.nodes.as_mut_slice(), place, node);
                return NONE;
            }
            if at(now, other as usize, Row::Free) == row {
                return other;
            }
            place = place.wrapping_add(1) & mask;
        }
        NONE
    }
}
