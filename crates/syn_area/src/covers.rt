//! The cover of chosen cuts: which nodes have LUTs, how often each is read, and when it has to arrive.

ghost use Rattle.std.specs.Prelude.{◌<◌, ◌^◌, length};

use crate::chosen::Chosen;
use crate::prices::Prices;
use arrayvec::ArrayVec;
use std::alloc::{AllocError, Global};
use syn_rows::Lit;

/// How often each node is read, and when it has to arrive.
#[derive(Drop)]
pub(crate) struct Cover {
    source_count: u32,
    /// How many LUTs and observed literals read each node.
    pub(crate) refs: Vec<u32>,
    /// The latest arrival of each node; of one that nothing reads any.
    required: Vec<u32>,
    /// ANDs whose leaves are still to be visited.
    waiting: ArrayVec<u32, MAX_TOUCHED>,
    /// The nodes that got a reader, one after the other, while LUTs were added.
    added: ArrayVec<u32, MAX_TOUCHED>,
    /// Those that lost one while LUTs were taken out.
    removed: ArrayVec<u32, MAX_TOUCHED>,
}

// So many LUTs are followed at most below a cut that is added or taken out, so that each node takes so much time at most.
const MAX_FOLLOWED: u32 = 32;

// So many leaves are those of a cut and of the LUTs that are followed below it, each of at most eight.
const MAX_TOUCHED: usize = 264;

// So many times a number.
fn numbers(alloc: Global, count: usize, number: u32) -> Result<Vec<u32>, AllocError> {
    vec![in alloc; number; count]
}

// The number at a place, 0 past the end.
#[inline]
fn number_at(numbers: &[u32], node: u32) -> u32 {
    if (node as usize) < numbers.len() {
        numbers[node as usize]
    } else {
        0
    }
}

// Adds one at a place, where it is there, and returns what stood there.
#[inline]
fn add_one(numbers: &mut [u32], node: u32) -> u32 {
    if (node as usize) < numbers.len() {
        let before = numbers[node as usize];
        numbers[node as usize] = before.saturating_add(1);
        before
    } else {
        0
    }
}

// Takes one away at a place, where it is there, and returns what is left.
#[inline]
fn take_one(numbers: &mut [u32], node: u32) -> u32 {
    if (node as usize) < numbers.len() {
        let after = numbers[node as usize].saturating_sub(1);
        numbers[node as usize] = after;
        after
    } else {
        0
    }
}

// Sets a number at a place to the lesser of it and another.
#[inline]
fn lower(numbers: &mut [u32], node: u32, number: u32) {
    if (node as usize) < numbers.len() && number < numbers[node as usize] {
        numbers[node as usize] = number;
    }
}

impl Cover {
    /// Of so many nodes, none of which is read.
    pub(crate) fn empty(
        alloc: Global,
        count: usize,
        source_count: u32,
    ) -> Result<Cover, AllocError> {
        Ok(Cover {
            source_count,
            refs: numbers(alloc, count, 0)?,
            required: numbers(alloc, count, u32::MAX)?,
            waiting: ArrayVec::new(),
            added: ArrayVec::new(),
            removed: ArrayVec::new(),
        })
    }

    /// Whether a node is read.
    pub(crate) fn is_read(&self, node: u32) -> bool {
        number_at(self.refs.as_slice(), node) > 0
    }

    /// Whether a node is an AND whose LUT isn't in the cover.
    #[inline]
    pub(crate) fn is_missing(&self, node: u32) -> bool {
        node > self.source_count && !self.is_read(node)
    }

    /// When a node has to arrive at the latest.
    pub(crate) fn required(&self, node: u32) -> u32 {
        number_at(self.required.as_slice(), node)
    }

    /// Adds a reader of a node.
    pub(crate) fn read(&mut self, node: u32) {
        add_one(self.refs.as_mut_slice(), node);
    }

    // Adds a reader of each leaf; the ANDs that had none wait.
    fn read_leaves(&mut self, leaves: &[u32]) {
        for leaf in leaves {
            if self.added.is_full() || self.waiting.is_full() {
                return;
            }
            self.added.push(*leaf);
            if add_one(self.refs.as_mut_slice(), *leaf) == 0 && *leaf > self.source_count {
                self.waiting.push(*leaf);
            }
        }
    }

    // Takes a reader of each leaf away; the ANDs that have none left wait.
    fn leave_leaves(&mut self, leaves: &[u32]) {
        for leaf in leaves {
            if self.removed.is_full() || self.waiting.is_full() {
                return;
            }
            self.removed.push(*leaf);
            if take_one(self.refs.as_mut_slice(), *leaf) == 0 && *leaf > self.source_count {
                self.waiting.push(*leaf);
            }
        }
    }

    /// Adds a LUT over these leaves to the cover, and those that it needs: the sum of their prices, as far as they are
    /// followed, which they are until it is at least this.
    pub(crate) fn add(
        &mut self,
        chosen: &Chosen,
        leaves: &[u32],
        prices: &Prices,
        most: u32,
    ) -> u32 {
        self.added.clear();
        self.waiting.clear();
        self.read_leaves(leaves);
        let mut price: u32 = 0;
        for _ in 0..MAX_FOLLOWED {
            if price >= most {
                return price;
            }
            let Some(node) = self.waiting.pop() else {
                return price;
            };
            let leaves = chosen.of(node);
            price = price.saturating_add(prices.at(leaves.len() as u32));
            self.read_leaves(leaves);
        }
        price
    }

    /// Takes what was added last out again.
    pub(crate) fn undo_add(&mut self) {
        for node in self.added.as_slice() {
            take_one(self.refs.as_mut_slice(), *node);
        }
        self.added.clear();
    }

    /// Takes a LUT over these leaves out of the cover, and those that nothing else needs, as far as they are followed.
    pub(crate) fn remove(&mut self, chosen: &Chosen, leaves: &[u32]) {
        self.removed.clear();
        self.waiting.clear();
        self.leave_leaves(leaves);
        for _ in 0..MAX_FOLLOWED {
            let Some(node) = self.waiting.pop() else {
                return;
            };
            self.leave_leaves(chosen.of(node));
        }
    }

    /// Adds what was taken out last again.
    pub(crate) fn undo_remove(&mut self) {
        for node in self.removed.as_slice() {
            add_one(self.refs.as_mut_slice(), *node);
        }
        self.removed.clear();
    }

    // Lets nothing be read.
    fn clear(&mut self) {
        for refs in self.refs.as_mut_slice() {
            *refs = 0;
        }
        for required in self.required.as_mut_slice() {
            *required = u32::MAX;
        }
    }

    // Adds the observed literals as readers, each of which has to arrive by then.
    fn read_observed(&mut self, observed: &[Lit], depth: u32) {
        for lit in observed {
            self.read(lit.node());
            lower(self.required.as_mut_slice(), lit.node(), depth);
        }
    }

    /// The cover of these cuts whose observed nodes arrive at this depth at the latest.
    pub(crate) fn cover(&mut self, chosen: &Chosen, observed: &[Lit], depth: u32)
        requires { length chosen.now < 2 ^ 32 }
    {
        self.clear();
        self.read_observed(observed, depth);
        for node in (0..chosen.len()).rev() {
            if node as u32 > self.source_count && self.is_read(node as u32) {
                self.read_lut(chosen.of(node as u32), node as u32);
            }
        }
    }

    // Adds the LUT of a node as a reader of its leaves.
    fn read_lut(&mut self, leaves: &[u32], node: u32) {
        let required = self.required(node).saturating_sub(1);
        for leaf in leaves {
            self.read(*leaf);
            lower(self.required.as_mut_slice(), *leaf, required);
        }
    }
}
