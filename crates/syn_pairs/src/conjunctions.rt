//! The conjunctions of a graph, as lists of literals in which pairs become new literals. Nothing is promised of them.

use crate::leaves::leaves;
use crate::lists::{at, put, short};
use std::alloc::{AllocError, Global};
use syn_rows::{Lit, Row};

/// No pairs are looked for in conjunctions of more literals.
const MOST: usize = 200;

/// The conjunctions by node, which have no literals at other nodes. A literal is one of the graph, or a new one beyond these.
#[derive(Debug, Drop)]
pub(crate) struct Conjunctions {
    // Where the lists of each node begin.
    starts: Vec<u32>,
    // The literals that are left, each with its place among the leaves, and how many of each node.
    items: Vec<(u32, u32)>,
    sizes: Vec<u32>,
    // Pairs of places that were joined, and how many of each node.
    steps: Vec<(u32, u32)>,
    counts: Vec<u32>,
}

impl Conjunctions {
    // No conjunctions. The only error of the calls below is want of memory.
    fn new(alloc: Global) -> Conjunctions {
        Conjunctions {
            starts: Vec::new(alloc),
            items: Vec::new(alloc),
            sizes: Vec::new(alloc),
            steps: Vec::new(alloc),
            counts: Vec::new(alloc),
        }
    }

    /// The conjunctions of rows, with these inner nodes.
    pub(crate) fn of(
        alloc: Global,
        rows: &[Row],
        inner: &[bool],
    ) -> Result<Conjunctions, AllocError> {
        let mut all = Conjunctions::new(alloc);
        for node in 0..rows.len() {
            all.starts.push(short(all.items.len()))?;
            all.sizes.push(0)?;
            all.counts.push(0)?;
            match rows[node] {
                Row::And(a, b) if !at(inner, node, false) => {
                    let leaves = leaves(alloc, rows, inner, short(node), a, b)?;
                    all.add(node, leaves.as_slice())?;
                }
                _ => {}
            }
        }
        Ok(all)
    }

    // Where the lists of a node begin.
    fn start(&self, node: usize) -> usize {
        at(self.starts.as_slice(), node, 0) as usize
    }

    /// The literals of a node's conjunction that are left, with their places.
    pub(crate) fn items(&self, node: usize) -> &[(u32, u32)] {
        let items = self.items.as_slice();
        let start = self.start(node);
        let end = start.saturating_add(at(self.sizes.as_slice(), node, 0) as usize);
        if end <= items.len() && start <= end {
            &items[start..end]
        } else {
            &items[..0]
        }
    }

    /// The pairs of places that a node's conjunction joins first.
    pub(crate) fn steps(&self, node: usize) -> &[(u32, u32)] {
        let steps = self.steps.as_slice();
        let start = self.start(node);
        let end = start.saturating_add(at(self.counts.as_slice(), node, 0) as usize);
        if end <= steps.len() && start <= end {
            &steps[start..end]
        } else {
            &steps[..0]
        }
    }

    // Two places are joined.
    fn step(&mut self, node: usize, first: u32, second: u32) {
        let count = at(self.counts.as_slice(), node, 0);
        let place = self.start(node).saturating_add(count as usize);
        put(self.steps.as_mut_slice(), place, (first, second));
        put(self.counts.as_mut_slice(), node, count.saturating_add(1));
    }

    // The leaves of a node, the last that has any.
    fn add(&mut self, node: usize, leaves: &[Lit]) -> Result<(), AllocError> {
        let start = self.items.len();
        for place in 0..leaves.len() {
            self.items.push((leaves[place].0, short(place)))?;
            self.steps.push((0, 0))?;
        }
        if leaves.len() <= MOST {
            self.settle(node, start);
        }
        Ok(())
    }

    // Sorts the literals of the last node. Equal ones are joined; where two are opposite, none are left.
    fn settle(&mut self, node: usize, start: usize) {
        let end = self.items.len();
        if start <= end {
            self.items.as_mut_slice()[start..end].sort_unstable();
        }
        let mut kept = start;
        for i in start..end {
            let item = at(self.items.as_slice(), i, (0, 0));
            let last = at(self.items.as_slice(), kept.saturating_sub(1), (0, 0));
            if kept > start && last.0 / 2 == item.0 / 2 {
                self.step(node, last.1, item.1);
                if last.0 != item.0 {
                    return;
                }
            } else {
                put(self.items.as_mut_slice(), kept, item);
                kept = kept.saturating_add(1);
            }
        }
        put(
            self.sizes.as_mut_slice(),
            node,
            short(kept.saturating_sub(start)),
        );
    }

    // The index of a literal among those that are left of a node.
    fn index(&self, node: usize, lit: u32) -> Option<usize> {
        for (i, item) in self.items(node).iter().enumerate() {
            if item.0 == lit {
                return Some(i);
            }
        }
        None
    }

    /// Whether the conjunction of a node holds both literals.
    pub(crate) fn holds(&self, node: usize, first: u32, second: u32) -> bool {
        self.index(node, first).is_some() && self.index(node, second).is_some()
    }

    /// Puts a new literal in place of two that the conjunction of a node holds.
    pub(crate) fn join(&mut self, node: usize, first: u32, second: u32, new: u32) {
        let (Some(i), Some(j)) = (self.index(node, first), self.index(node, second)) else {
            return;
        };
        let start = self.start(node);
        let (i, j) = (start.saturating_add(i), start.saturating_add(j));
        let place = at(self.items.as_slice(), i, (0, 0)).1;
        let other = at(self.items.as_slice(), j, (0, 0)).1;
        self.step(node, place, other);
        let size = at(self.sizes.as_slice(), node, 0).saturating_sub(1);
        let last = at(
            self.items.as_slice(),
            start.saturating_add(size as usize),
            (0, 0),
        );
        put(self.items.as_mut_slice(), i, (new, place));
        if i == start.saturating_add(size as usize) {
            put(self.items.as_mut_slice(), j, (new, place));
        } else {
            put(self.items.as_mut_slice(), j, last);
        }
        put(self.sizes.as_mut_slice(), node, size);
    }
}
