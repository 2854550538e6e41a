//! Nodes by the keys of their words. Nothing is promised of them.

use std::alloc::{AllocError, Global};
use syn_sat::{at, put};

/// No node.
pub(crate) const NONE: u32 = u32::MAX;

/// The number of the node at a place.
#[inline]
pub(crate) fn number(place: usize) -> u32 {
    u32::try_from(place).unwrap_or(NONE)
}

/// Chains of nodes, by their keys.
#[derive(Debug, Drop)]
pub(crate) struct Alike {
    // The last node of each bucket, a power of two; for each node the one before of its bucket.
    heads: Vec<u32>,
    next: Vec<u32>,
}

impl Alike {
    /// No nodes. The only error of this call and of the next is want of memory.
    pub(crate) fn new(alloc: Global) -> Result<Alike, AllocError> {
        Ok(Alike {
            heads: vec![in alloc; NONE; 1024]?,
            next: Vec::new(alloc),
        })
    }

    // The bucket of a key.
    #[inline]
    fn bucket(&self, key: u64) -> usize {
        (key >> 24) as usize & self.heads.len().saturating_sub(1)
    }

    // Puts a node in front of its bucket.
    fn link(&mut self, node: u32, key: u64) {
        let bucket = self.bucket(key);
        let head = at(self.heads.as_slice(), bucket, NONE);
        put(self.next.as_mut_slice(), node as usize, head);
        put(self.heads.as_mut_slice(), bucket, node);
    }

    /// Puts the next node in; the keys are those of all nodes.
    pub(crate) fn push(&mut self, keys: &[u64]) -> Result<(), AllocError> {
        let node = self.next.len();
        self.next.push(NONE)?;
        if node < self.heads.len() {
            self.link(number(node), at(keys, node, 0));
            return Ok(());
        }
        let size = self.heads.len().saturating_mul(2);
        self.heads.clear();
        self.heads.resize(size, NONE)?;
        for i in 0..=node {
            self.link(number(i), at(keys, i, 0));
        }
        Ok(())
    }

    /// The last node that may have the key.
    pub(crate) fn first(&self, key: u64) -> u32 {
        at(self.heads.as_slice(), self.bucket(key), NONE)
    }

    /// The one before it.
    pub(crate) fn next(&self, node: u32) -> u32 {
        at(self.next.as_slice(), node as usize, NONE)
    }
}
