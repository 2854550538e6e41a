//! Pairs of literals that two or more conjunctions hold. Nothing is promised of them.

use crate::conjunctions::Conjunctions;
use crate::lists::{at, put, short};
use std::alloc::{AllocError, Global};
use std::cmp::Reverse;
use std::collections::BinaryHeap;

// No pair.
const NONE: u32 = u32::MAX;

/// A pair of literals, and where its conjunctions stand.
#[derive(Clone, Copy, Debug)]
pub(crate) struct Pair {
    pub first: u32,
    pub second: u32,
    // The nodes of the conjunctions: so many from a place on.
    start: u32,
    count: u32,
}

/// All pairs, those that most conjunctions hold in front.
#[derive(Drop)]
pub(crate) struct Pairs {
    list: Vec<Pair>,
    holders: Vec<u32>,
    // The number of conjunctions of each pair when it was last counted, its level and its index.
    waiting: BinaryHeap<(u32, Reverse<u32>, Reverse<u32>)>,
    // By literal, for the other one of its pair while this one's are counted: how many, and the pair.
    tallies: Vec<u32>,
    ids: Vec<u32>,
    // The level of each node, the new ones too.
    levels: Vec<u32>,
    // Literals of the graph are smaller than this.
    bound: u32,
}

impl Pairs {
    /// No pairs, over nodes of these levels. The only error of the calls below is want of memory.
    pub(crate) fn new(alloc: Global, levels: Vec<u32>) -> Result<Pairs, AllocError> {
        let count = levels.len().saturating_mul(2);
        Ok(Pairs {
            list: Vec::new(alloc),
            holders: Vec::new(alloc),
            waiting: BinaryHeap::new(alloc),
            tallies: vec![in alloc; 0; count]?,
            ids: vec![in alloc; NONE; count]?,
            levels,
            bound: short(count),
        })
    }

    fn level(&self, lit: u32) -> u32 {
        at(self.levels.as_slice(), lit as usize / 2, 0)
    }

    // Whether the pair of two literals is counted when those of the first are: each pair of the graph's once.
    fn is_own(&self, first: u32, second: u32) -> bool {
        second > first || (first >= self.bound && second < first)
    }

    // How many of the conjunctions hold each literal beside one.
    fn tally(&mut self, all: &Conjunctions, lit: u32, nodes: &[u32]) {
        for node in nodes {
            for item in all.items(*node as usize) {
                if self.is_own(lit, item.0) {
                    let count = at(self.tallies.as_slice(), item.0 as usize, 0);
                    put(
                        self.tallies.as_mut_slice(),
                        item.0 as usize,
                        count.saturating_add(1),
                    );
                }
            }
        }
    }

    // The pair of two literals, a new one where it isn't there.
    fn pair_of(&mut self, first: u32, second: u32, count: u32) -> Result<u32, AllocError> {
        let id = at(self.ids.as_slice(), second as usize, NONE);
        if id != NONE {
            return Ok(id);
        }
        let id = short(self.list.len());
        put(self.ids.as_mut_slice(), second as usize, id);
        let start = short(self.holders.len());
        self.list.push(Pair {
            first,
            second,
            start,
            count: 0,
        })?;
        let end = self.holders.len().saturating_add(count as usize);
        self.holders.resize(end, 0)?;
        let level = self.level(first).max(self.level(second));
        self.waiting.push((count, Reverse(level), Reverse(id)))?;
        Ok(id)
    }

    // A conjunction more that holds a pair.
    fn hold(&mut self, id: u32, node: u32) {
        if (id as usize) < self.list.len() {
            let pair = &mut self.list[id as usize];
            let place = pair.start.saturating_add(pair.count);
            pair.count = pair.count.saturating_add(1);
            put(self.holders.as_mut_slice(), place as usize, node);
        }
    }

    // The pairs of a literal with those of which two or more were counted.
    fn list_pairs(
        &mut self,
        all: &Conjunctions,
        lit: u32,
        nodes: &[u32],
    ) -> Result<(), AllocError> {
        for node in nodes {
            for item in all.items(*node as usize) {
                let count = at(self.tallies.as_slice(), item.0 as usize, 0);
                if count > 1 && self.is_own(lit, item.0) {
                    let id = self.pair_of(lit, item.0, count)?;
                    self.hold(id, *node);
                }
            }
        }
        Ok(())
    }

    // Forgets what was counted.
    fn forget(&mut self, all: &Conjunctions, nodes: &[u32]) {
        for node in nodes {
            for item in all.items(*node as usize) {
                put(self.tallies.as_mut_slice(), item.0 as usize, 0);
                put(self.ids.as_mut_slice(), item.0 as usize, NONE);
            }
        }
    }

    /// Takes in the pairs of a literal that two or more of the conjunctions at these nodes hold; each of them holds the literal.
    pub(crate) fn add(
        &mut self,
        all: &Conjunctions,
        lit: u32,
        nodes: &[u32],
    ) -> Result<(), AllocError> {
        if nodes.len() > 1 {
            self.tally(all, lit, nodes);
            self.list_pairs(all, lit, nodes)?;
            self.forget(all, nodes);
        }
        Ok(())
    }

    // The conjunctions that still hold a pair; the others are dropped.
    fn recount(
        &mut self,
        all: &Conjunctions,
        id: usize,
        nodes: &mut Vec<u32>,
    ) -> Result<Pair, AllocError> {
        nodes.clear();
        let mut pair = at(self.list.as_slice(), id, Pair::none());
        for i in 0..pair.count {
            let place = pair.start.saturating_add(i) as usize;
            let node = at(self.holders.as_slice(), place, 0);
            if all.holds(node as usize, pair.first, pair.second) {
                let kept = (pair.start as usize).saturating_add(nodes.len());
                put(self.holders.as_mut_slice(), kept, node);
                nodes.push(node)?;
            }
        }
        pair.count = short(nodes.len());
        put(self.list.as_mut_slice(), id, pair);
        Ok(pair)
    }

    /// Takes the pair out that most conjunctions hold, and finds these; `None` where no two hold one.
    pub(crate) fn take(
        &mut self,
        all: &Conjunctions,
        nodes: &mut Vec<u32>,
    ) -> Result<Option<Pair>, AllocError> {
        for _ in 0..u64::MAX {
            let Some((count, level, Reverse(id))) = self.waiting.pop() else {
                break;
            };
            let pair = self.recount(all, id as usize, nodes)?;
            if pair.count > 1 && pair.count == count {
                return Ok(Some(pair));
            }
            if pair.count > 1 {
                self.waiting.push((pair.count, level, Reverse(id)))?;
            }
        }
        Ok(None)
    }

    /// The new literal for the AND of a pair.
    pub(crate) fn new_literal(&mut self, pair: Pair) -> Result<u32, AllocError> {
        let lit = short(self.levels.len().saturating_mul(2));
        let level = self.level(pair.first).max(self.level(pair.second));
        self.levels.push(level.saturating_add(1))?;
        for _ in 0..2 {
            self.tallies.push(0)?;
            self.ids.push(NONE)?;
        }
        Ok(lit)
    }
}

impl Pair {
    // No pair.
    fn none() -> Pair {
        Pair {
            first: 0,
            second: 0,
            start: 0,
            count: 0,
        }
    }
}
