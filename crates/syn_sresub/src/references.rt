//! Which new rows are still needed: references from needed rows, and from old rows that are still to be made. Nothing is
//! promised of them.

use crate::alike::{NONE, number};
use std::alloc::{AllocError, Global};
use syn_rows::Row;
use syn_sat::{at, put};

/// Counts of references by new node. A row without references is dead: it refers to nothing.
#[derive(Debug, Drop)]
pub(crate) struct References {
    counts: Vec<u32>,
    // The rows that refer to each node: edge 2 m + s is that of literal s of row m; the next edge of the same node, and the
    // first one of each.
    next: Vec<u32>,
    first: Vec<u32>,
    // Nodes whose counts came to 0, or rose from it.
    stack: Vec<u32>,
}

impl References {
    /// No rows. The only error of the calls below is want of memory.
    pub(crate) fn new(alloc: Global) -> References {
        References {
            counts: Vec::new(alloc),
            next: Vec::new(alloc),
            first: Vec::new(alloc),
            stack: Vec::new(alloc),
        }
    }

    /// How often a node is referred to.
    #[inline]
    pub(crate) fn count(&self, node: u32) -> u32 {
        at(self.counts.as_slice(), node as usize, 0)
    }

    // Puts an edge in front of those of a node.
    fn link(&mut self, edge: u32, node: u32) -> Result<(), AllocError> {
        let head = at(self.first.as_slice(), node as usize, NONE);
        self.next.push(head)?;
        put(self.first.as_mut_slice(), node as usize, edge);
        Ok(())
    }

    /// Takes the rows in that are new; nothing refers to them.
    pub(crate) fn grow(&mut self, rows: &[Row]) -> Result<(), AllocError> {
        for node in self.counts.len()..rows.len() {
            self.counts.push(0)?;
            self.first.push(NONE)?;
            let edge = number(node).saturating_mul(2);
            if let Row::And(a, b) = rows[node] {
                self.link(edge, a.node())?;
                self.link(edge.saturating_add(1), b.node())?;
            } else {
                self.next.push(NONE)?;
                self.next.push(NONE)?;
            }
        }
        Ok(())
    }

    // One reference more: the count before.
    fn raise(&mut self, node: u32, by: u32) -> u32 {
        let count = self.count(node);
        put(
            self.counts.as_mut_slice(),
            node as usize,
            count.saturating_add(by),
        );
        count
    }

    /// So many references more to a node; a row that had none refers to its fan-ins again.
    pub(crate) fn add(&mut self, rows: &[Row], node: u32, by: u32) -> Result<(), AllocError> {
        if by == 0 || self.raise(node, by) > 0 {
            return Ok(());
        }
        self.stack.clear();
        self.stack.push(node)?;
        for _ in 0..u64::MAX {
            let Some(top) = self.stack.pop() else {
                break;
            };
            if let Row::And(a, b) = at(rows, top as usize, Row::Free) {
                for below in [a.node(), b.node()] {
                    if self.raise(below, 1) == 0 {
                        self.stack.push(below)?;
                    }
                }
            }
        }
        Ok(())
    }

    // One reference less: whether it was the last.
    fn lower(&mut self, node: u32, by: u32) -> bool {
        let count = self.count(node);
        put(
            self.counts.as_mut_slice(),
            node as usize,
            count.saturating_sub(by),
        );
        count > 0 && count <= by
    }

    /// So many references less to a node; a row that has none left refers to its fan-ins no more.
    pub(crate) fn sub(&mut self, rows: &[Row], node: u32, by: u32) -> Result<(), AllocError> {
        if !self.lower(node, by) {
            return Ok(());
        }
        self.stack.clear();
        self.stack.push(node)?;
        for _ in 0..u64::MAX {
            let Some(top) = self.stack.pop() else {
                break;
            };
            if let Row::And(a, b) = at(rows, top as usize, Row::Free) {
                for below in [a.node(), b.node()] {
                    if self.lower(below, 1) {
                        self.stack.push(below)?;
                    }
                }
            }
        }
        Ok(())
    }

    /// The rows that would be dead if nothing referred to a node: its maximal fan-out-free cone, the node first.
    pub(crate) fn cone(
        &mut self,
        rows: &[Row],
        node: u32,
        cone: &mut Vec<u32>,
    ) -> Result<(), AllocError> {
        cone.clear();
        cone.push(node)?;
        let mut place: usize = 0;
        for _ in 0..u64::MAX {
            if place >= cone.len() {
                break;
            }
            let top = cone[place];
            place = place.saturating_add(1);
            if let Row::And(a, b) = at(rows, top as usize, Row::Free) {
                for below in [a.node(), b.node()] {
                    let is_last = self.lower(below, 1);
                    let is_and = matches!(at(rows, below as usize, Row::Free), Row::And(_, _));
                    if is_last && is_and {
                        cone.push(below)?;
                    }
                }
            }
        }
        self.restore(rows, cone.as_slice());
        Ok(())
    }

    // Puts the references of a cone's rows back.
    fn restore(&mut self, rows: &[Row], cone: &[u32]) {
        for node in cone {
            if let Row::And(a, b) = at(rows, *node as usize, Row::Free) {
                self.raise(a.node(), 1);
                self.raise(b.node(), 1);
            }
        }
    }

    /// The first edge of a node, past the last node where there is none.
    pub(crate) fn first_edge(&self, node: u32) -> u32 {
        at(self.first.as_slice(), node as usize, NONE)
    }

    /// The next edge of the same node.
    pub(crate) fn next_edge(&self, edge: u32) -> u32 {
        at(self.next.as_slice(), edge as usize, NONE)
    }
}
