//! Which nodes are looked at in place of one: its divisors. Nothing is promised of them.

use crate::references::References;
use std::alloc::{AllocError, Global};
use syn_rows::Row;
use syn_sat::{at, put};

/// At most so many nodes of the cone, and as many that are made of these.
const MOST: usize = 64;

/// A node with more edges than this is not looked at for what is made of it.
const MANY: u32 = 40;

/// The divisors of a node.
#[derive(Debug, Drop)]
pub(crate) struct Divisors {
    /// The nodes, the greatest of the cone first, then those that are made of these.
    pub nodes: Vec<u32>,
    // Nodes of the cone that are still to be taken, in order, the greatest last.
    waiting: Vec<u32>,
    // By node: the last search that has seen it.
    seen: Vec<u32>,
    search: u32,
}

impl Divisors {
    /// No divisors. The only error of the calls below is want of memory.
    pub(crate) fn new(alloc: Global) -> Divisors {
        Divisors {
            nodes: Vec::new(alloc),
            waiting: Vec::new(alloc),
            seen: Vec::new(alloc),
            search: 0,
        }
    }

    fn is_seen(&self, node: u32) -> bool {
        at(self.seen.as_slice(), node as usize, 0) == self.search
    }

    // Whether the node was not seen in this search; it is from now on.
    fn see(&mut self, node: u32) -> bool {
        if self.is_seen(node) {
            return false;
        }
        put(self.seen.as_mut_slice(), node as usize, self.search);
        true
    }

    // Lets a node wait, if it wasn't seen.
    fn wait(&mut self, node: u32) -> Result<(), AllocError> {
        if node == 0 || !self.see(node) {
            return Ok(());
        }
        self.waiting.push(node)?;
        let waiting = self.waiting.as_mut_slice();
        for i in (1..waiting.len()).rev() {
            if waiting[i - 1] <= waiting[i] {
                break;
            }
            waiting.swap(i - 1, i);
        }
        Ok(())
    }

    // Takes the greatest nodes of a cone below some.
    fn take_cone(&mut self, rows: &[Row]) -> Result<(), AllocError> {
        for _ in 0..MOST {
            let Some(node) = self.waiting.pop() else {
                break;
            };
            self.nodes.push(node)?;
            if let Row::And(a, b) = at(rows, node as usize, Row::Free) {
                self.wait(a.node())?;
                self.wait(b.node())?;
            }
        }
        // what waits was seen, and isn't taken
        for i in 0..self.waiting.len() {
            let node = at(self.waiting.as_slice(), i, 0);
            put(self.seen.as_mut_slice(), node as usize, 0);
        }
        self.waiting.clear();
        Ok(())
    }

    // Takes a row before the node both of whose fan-ins are taken.
    fn take_made(&mut self, rows: &[Row], made: u32, node: u32) -> Result<(), AllocError> {
        if made >= node || self.is_seen(made) {
            return Ok(());
        }
        if let Row::And(a, b) = at(rows, made as usize, Row::Free) {
            if self.is_seen(a.node()) && self.is_seen(b.node()) {
                self.see(made);
                self.nodes.push(made)?;
            }
        }
        Ok(())
    }

    // Takes rows that are made of a divisor and another one.
    fn take_above(
        &mut self,
        rows: &[Row],
        references: &References,
        divisor: u32,
        node: u32,
    ) -> Result<(), AllocError> {
        let mut edge = references.first_edge(divisor);
        for _ in 0..MANY {
            let made = edge / 2;
            if self.nodes.len() >= 2 * MOST || made as usize >= rows.len() {
                break;
            }
            if references.count(made) > 0 {
                self.take_made(rows, made, node)?;
            }
            edge = references.next_edge(edge);
        }
        Ok(())
    }

    // Drops the nodes of a cone, and those that are dead.
    fn leave_out(&mut self, references: &References, cone: &[u32]) {
        for own in cone {
            put(self.seen.as_mut_slice(), *own as usize, 0);
        }
        let mut kept: usize = 0;
        for i in 0..self.nodes.len() {
            let node = at(self.nodes.as_slice(), i, 0);
            if self.is_seen(node) && references.count(node) > 0 {
                put(self.nodes.as_mut_slice(), kept, node);
                kept = kept.saturating_add(1);
            }
        }
        self.nodes.truncate(kept);
    }

    /// Finds the divisors of a node: the greatest nodes of its cone, and rows before it that are made of these, but none of
    /// the cone that it alone refers to.
    pub(crate) fn find(
        &mut self,
        rows: &[Row],
        references: &References,
        node: u32,
        cone: &[u32],
    ) -> Result<(), AllocError> {
        for _ in self.seen.len()..rows.len() {
            self.seen.push(0)?;
        }
        self.search = self.search.wrapping_add(1);
        self.nodes.clear();
        self.waiting.clear();
        if let Row::And(a, b) = at(rows, node as usize, Row::Free) {
            self.wait(a.node())?;
            self.wait(b.node())?;
        }
        self.take_cone(rows)?;
        for i in 0..2 * MOST {
            if i >= self.nodes.len() || self.nodes.len() >= 2 * MOST {
                break;
            }
            let divisor = at(self.nodes.as_slice(), i, 0);
            self.take_above(rows, references, divisor, node)?;
        }
        self.leave_out(references, cone);
        Ok(())
    }
}
