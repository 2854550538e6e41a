//! A table of nodes by the hashes of their values. Nothing is promised of it.

use std::alloc::{AllocError, Global};
use syn_sat::{at, put};

/// No node.
pub(crate) const NONE: u32 = u32::MAX;

/// A hash with one more word.
#[inline]
pub(crate) fn mixed(hash: u64, word: u64) -> u64 {
    let product = (hash ^ word).wrapping_mul(0x9E37_79B9_7F4A_7C15);
    product ^ (product >> 29)
}

/// A power of two, at least twice as many.
pub(crate) fn table_size(count: usize) -> usize {
    let mut size: usize = 2;
    for _ in 0..40 {
        if size / 2 >= count {
            break;
        }
        size = size.saturating_mul(2);
    }
    size
}

/// The first node of each hash, in open addressing; a power of two.
#[derive(Debug, Drop)]
pub(crate) struct FirstNodes {
    nodes: Vec<u32>,
    mask: usize,
}

impl FirstNodes {
    /// Room for so many hashes. The only error is want of memory.
    pub(crate) fn new(alloc: Global, count: usize) -> Result<FirstNodes, AllocError> {
        let size = table_size(count);
        Ok(FirstNodes {
            nodes: vec![in alloc; NONE; size]?,
            mask: size.saturating_sub(1),
        })
    }

    /// Empties it, for no more hashes than before.
    pub(crate) fn clear(&mut self, count: usize) {
        let size = table_size(count);
        for i in 0..size {
            put(self.nodes.as_mut_slice(), i, NONE);
        }
        self.mask = size.saturating_sub(1);
    }

    /// The first node of a node's hash: the node itself where there is none yet.
    pub(crate) fn find(&mut self, hashes: &[u64], node: u32) -> u32 {
        let hash = at(hashes, node as usize, 0);
        let mut place = hash as usize & self.mask;
        for _ in 0..=self.mask {
            let other = at(self.nodes.as_slice(), place, NONE);
            if other == NONE {
                put(self.nodes.as_mut_slice(), place, node);
                return node;
            }
            if at(hashes, other as usize, 0) == hash {
                return other;
            }
            place = place.wrapping_add(1) & self.mask;
        }
        node
    }
}
