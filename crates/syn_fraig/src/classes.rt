//! Candidates: classes of nodes that have the same values, or the opposite ones, in all patterns so far. Nothing is promised
//! of them.

ghost use Rattle.std.specs.Prelude.{◌<◌, length};
ghost use Rattle.syn_rows.specs.declared.TheConstants.{NODE_LIMIT};

use crate::hashes::{FirstNodes, NONE, mixed};
use crate::simulation::Simulation;
use std::alloc::{AllocError, Global};
use syn_rows::{Lit, Row};
use syn_sat::{Solver, at, put};

// So many words of random patterns.
const ROUNDS: u32 = 32;

/// Classes by the hash of each node's values, complemented where the first one is 1.
#[derive(Debug, Drop)]
pub(crate) struct Classes {
    simulation: Simulation,
    // By node: the hash of its words, and whether its first value is 1.
    hashes: Vec<u64>,
    flips: Vec<bool>,
    // By node: the first node of its class, and the next one; by first node: the last one.
    firsts: Vec<u32>,
    nexts: Vec<u32>,
    lasts: Vec<u32>,
    // The nodes of classes that have another node still to come, in order.
    members: Vec<u32>,
    first_nodes: FirstNodes,
}

impl Classes {
    /// Classes by random patterns. The only error is want of memory.
    pub(crate) fn new(alloc: Global, rows: &[Row], sources: u32) -> Result<Classes, AllocError>
        requires { length rows.now < NODE_LIMIT }
    {
        let count = rows.len();
        let mut members = Vec::with_capacity(alloc, count)?;
        for node in 0..count as u32 {
            members.push(node)?;
        }
        let mut classes = Classes {
            simulation: Simulation::new(alloc, sources, count)?,
            hashes: vec![in alloc; 0; count]?,
            flips: vec![in alloc; false; count]?,
            firsts: vec![in alloc; NONE; count]?,
            nexts: vec![in alloc; NONE; count]?,
            lasts: vec![in alloc; 0; count]?,
            members,
            first_nodes: FirstNodes::new(alloc, count)?,
        };
        for round in 0..ROUNDS {
            classes.simulation.run_random(rows);
            if round == 0 {
                classes.set_flips();
            }
            classes.mix();
        }
        classes.group(0);
        Ok(classes)
    }

    fn set_flips(&mut self) {
        for i in 0..self.members.len() {
            let node = at(self.members.as_slice(), i, 0);
            let flip = self.simulation.word(node) % 2 == 1;
            put(self.flips.as_mut_slice(), node as usize, flip);
        }
    }

    // Puts the last words into the members' hashes.
    fn mix(&mut self) {
        for i in 0..self.members.len() {
            let node = at(self.members.as_slice(), i, 0);
            let word = self.simulation.word(node);
            let flip = at(self.flips.as_slice(), node as usize, false);
            let hash = at(self.hashes.as_slice(), node as usize, 0);
            let mixed = mixed(hash, if flip { !word } else { word });
            put(self.hashes.as_mut_slice(), node as usize, mixed);
        }
    }

    // Whether a member's class has another node from this one on.
    fn is_open(&self, member: u32, node: u32) -> bool {
        let first = at(self.firsts.as_slice(), member as usize, member);
        let last = at(self.lasts.as_slice(), first as usize, first);
        last != first && last >= node
    }

    // Puts a member behind the others of a class.
    fn join(&mut self, member: u32, first: u32) {
        let m = member as usize;
        put(self.firsts.as_mut_slice(), m, first);
        put(self.nexts.as_mut_slice(), m, NONE);
        if first != member {
            let last = at(self.lasts.as_slice(), first as usize, first);
            put(self.nexts.as_mut_slice(), last as usize, member);
        }
        put(self.lasts.as_mut_slice(), first as usize, member);
    }

    // Groups the members by their hashes, and keeps those of classes that have another node from this one on.
    fn group(&mut self, node: u32) {
        self.first_nodes.clear(self.members.len());
        for i in 0..self.members.len() {
            let member = at(self.members.as_slice(), i, 0);
            let first = self.first_nodes.find(self.hashes.as_slice(), member);
            self.join(member, first);
        }
        let mut kept: usize = 0;
        for i in 0..self.members.len() {
            let member = at(self.members.as_slice(), i, 0);
            if self.is_open(member, node) {
                put(self.members.as_mut_slice(), kept, member);
                kept = kept.saturating_add(1);
            } else {
                put(self.firsts.as_mut_slice(), member as usize, member);
            }
        }
        self.members.truncate(kept);
    }

    /// The literal that the node may be equal to, if there is one: that of the first node of its class.
    pub(crate) fn candidate(&self, node: u32) -> Option<Lit> {
        let n = node as usize;
        let first = at(self.firsts.as_slice(), n, node);
        if first >= node || first >= 2_147_483_648 {
            return None;
        }
        let flips = self.flips.as_slice();
        let opposite = at(flips, n, false) != at(flips, first as usize, false);
        Some(Lit::of(first, opposite))
    }

    /// Makes a node the first of its class for those behind it; the one before leaves the class.
    pub(crate) fn lead(&mut self, node: u32) {
        let n = node as usize;
        let old = at(self.firsts.as_slice(), n, node);
        let last = at(self.lasts.as_slice(), old as usize, node);
        let mut member = node;
        for _ in 0..self.firsts.len() {
            put(self.firsts.as_mut_slice(), member as usize, node);
            member = at(self.nexts.as_slice(), member as usize, NONE);
            if member == NONE {
                break;
            }
        }
        put(self.lasts.as_mut_slice(), n, last);
        let hash = at(self.hashes.as_slice(), old as usize, 0);
        put(
            self.hashes.as_mut_slice(),
            old as usize,
            mixed(hash, old as u64),
        );
    }

    /// Splits the classes that have a node from this one on by the last model.
    pub(crate) fn refine(&mut self, rows: &[Row], solver: &Solver, node: u32) {
        self.simulation.run_model(rows, solver);
        self.mix();
        self.group(node);
    }
}
