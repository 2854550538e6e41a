//! How deep nodes lie while a sweep goes on. Nothing is promised of it.

ghost use Rattle.std.specs.Prelude.{◌<◌, length};
ghost use Rattle.syn_rows.specs.declared.TheConstants.{NODE_LIMIT};

use std::alloc::{AllocError, Global};
use syn_rows::{Lit, Row};
use syn_sat::{at, put};

/// The levels of nodes, by the rows before and after the sweep.
#[derive(Debug, Drop)]
pub(crate) struct Depths {
    // By node.
    before: Vec<u32>,
    after: Vec<u32>,
    // Whether no node may get deeper.
    kept: bool,
}

impl Depths {
    /// Those of rows that no sweep has changed. The only error is want of memory.
    pub(crate) fn new(alloc: Global, rows: &[Row], kept: bool) -> Result<Depths, AllocError>
        requires { length rows.now < NODE_LIMIT }
    {
        Ok(Depths {
            before: syn_rows::levels(alloc, rows)?,
            after: vec![in alloc; 0; rows.len()]?,
            kept,
        })
    }

    fn level(&self, lit: Lit) -> u32 {
        at(self.after.as_slice(), lit.node() as usize, 0)
    }

    /// Takes a node's row over.
    pub(crate) fn enter(&mut self, now: &[Row], node: u32) {
        let level = match at(now, node as usize, Row::Free) {
            Row::And(a, b) => self.level(a).max(self.level(b)).saturating_add(1),
            Row::Alias(a) => self.level(a),
            _ => 0,
        };
        put(self.after.as_mut_slice(), node as usize, level);
    }

    /// Whether a literal may take a node's place.
    pub(crate) fn is_low(&self, node: u32, lit: Lit) -> bool {
        !self.kept || self.level(lit) <= at(self.before.as_slice(), node as usize, 0)
    }
}
