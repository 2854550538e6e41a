//! The leaves near a node: those of the cuts of which its own cuts are made, as the bits of a word.

use crate::figures::{Cost, Figures, figures_at, with_leaf};
use crate::lists::Listed;
use arrayvec::ArrayVec;
use std::alloc::{AllocError, Global};
use syn_cuts::Cut;

/// So many leaves have bits.
pub(crate) const MAX_NEAR: usize = 64;

/// So many cuts of a fan-in are looked at.
pub(crate) const MAX_PARTS: usize = 9;

/// A cut of a fan-in: its leaves, all bits where one has none, what a LUT over them costs beside its price, and its place in
/// its list.
#[derive(Clone, Copy, Debug, Default)]
pub(crate) struct Part {
    pub(crate) leaves: u64,
    pub(crate) cost: Cost,
    pub(crate) place: u8,
}

/// The leaves near a node, each bit's in its place, in the order in which they were seen.
#[derive(Drop)]
pub(crate) struct Near {
    /// The bit that each node had where it was near last.
    bits: Vec<u8>,
    leaves: ArrayVec<u32, MAX_NEAR>,
}

// No bit of any of so many nodes.
fn no_bits(alloc: Global, count: usize) -> Result<Vec<u8>, AllocError> {
    vec![in alloc; 0; count]
}

// The lowest bit of a word.
#[inline(always)]
fn lowest(word: u64) -> usize {
    word.trailing_zeros() as usize
}

// A word without its lowest bit.
#[inline(always)]
fn without_lowest(word: u64) -> u64 {
    word & word.wrapping_sub(1)
}

impl Near {
    /// No leaf of so many nodes.
    pub(crate) fn none(alloc: Global, count: usize) -> Result<Near, AllocError> {
        Ok(Near {
            bits: no_bits(alloc, count)?,
            leaves: ArrayVec::new(),
        })
    }

    /// Forgets all leaves.
    pub(crate) fn clear(&mut self) {
        self.leaves.clear();
    }

    /// The leaves, by bit.
    pub(crate) fn leaves(&self) -> &[u32] {
        self.leaves.as_slice()
    }

    // Gives a leaf the next bit and returns it; all bits where there is none left.
    #[inline]
    fn see(&mut self, node: u32) -> u64 {
        let bit = self.leaves.len();
        if bit >= MAX_NEAR || node as usize >= self.bits.len() {
            return u64::MAX;
        }
        self.bits[node as usize] = bit as u8;
        self.leaves.push(node);
        1u64 << bit
    }

    // The bit of a leaf; all bits where it has none.
    #[inline(always)]
    fn bit_of(&mut self, node: u32) -> u64 {
        if (node as usize) < self.bits.len() {
            let bit = self.bits[node as usize] as usize;
            if bit < self.leaves.len() && self.leaves.as_slice()[bit] == node {
                return 1u64 << bit;
            }
        }
        self.see(node)
    }

    /// These leaves as bits, all of them where one has none.
    pub(crate) fn word(&mut self, leaves: &[u32]) -> u64 {
        let mut word = 0;
        for leaf in leaves {
            word |= self.bit_of(*leaf);
        }
        word
    }

    /// The first cuts of a list as parts.
    pub(crate) fn parts(&mut self, listed: &[Listed]) -> ArrayVec<Part, MAX_PARTS> {
        let mut parts = ArrayVec::new();
        for one in listed {
            if parts.is_full() {
                return parts;
            }
            let place = parts.len() as u8;
            parts.push(Part {
                leaves: self.word(one.cut.as_slice()),
                cost: one.cost,
                place,
            });
        }
        parts
    }

    // What is estimated of the leaf of a bit.
    #[inline(always)]
    fn figures_of(&self, figures: &[Figures], bit: usize) -> Figures {
        if bit < self.leaves.len() {
            figures_at(figures, self.leaves.as_slice()[bit])
        } else {
            Figures::default()
        }
    }

    /// What a LUT costs that reads these leaves too, beside its price.
    #[inline]
    pub(crate) fn with_leaves(&self, figures: &[Figures], cost: Cost, leaves: u64) -> Cost {
        let mut cost = cost;
        let mut rest = leaves;
        for _ in 0..leaves.count_ones() {
            cost = with_leaf(cost, self.figures_of(figures, lowest(rest)));
            rest = without_lowest(rest);
        }
        cost
    }

    /// The nodes of these leaves, as far as a cut has room for them.
    pub(crate) fn nodes(&self, leaves: u64) -> Cut {
        let mut nodes = Cut::new();
        let mut rest = leaves;
        for _ in 0..leaves.count_ones() {
            let bit = lowest(rest);
            if bit < self.leaves.len() && !nodes.is_full() {
                nodes.push(self.leaves.as_slice()[bit]);
            }
            rest = without_lowest(rest);
        }
        nodes
    }
}
