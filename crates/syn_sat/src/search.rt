//! The state of a search for values under which clauses are true: clauses with watched literals, values by level. Nothing is
//! promised of what it finds, only that each call ends.

use crate::gate_heap::GateHeap;
use crate::lists::{at, put, short};
use std::alloc::{AllocError, Global};
use syn_rows::Lit;

/// No clause, and no watch.
pub(crate) const NONE: u32 = u32::MAX;

/// No value.
pub(crate) const OPEN: u8 = 0;

/// The value of a literal that is true.
pub(crate) const TRUE: u8 = 1;

/// The value of a literal that is false.
pub(crate) const FALSE: u8 = 2;

/// The pair of no gate.
pub(crate) const NO_GATE: (Lit, Lit) = (Lit(0), Lit(0));

/// The watch of one of a clause's two watched literals.
#[derive(Clone, Copy, Debug)]
pub(crate) struct Watch {
    /// The next watch of the same literal.
    pub next: u32,
    /// A literal of the clause that makes it true where it is true; of a binary clause the other literal.
    pub blocker: Lit,
    /// Whether the clause has two literals.
    pub binary: bool,
}

/// A watch that isn't there.
pub(crate) const NO_WATCH: Watch = Watch {
    next: NONE,
    blocker: Lit(0),
    binary: false,
};

/// How a node got its value.
#[derive(Clone, Copy, Debug)]
pub(crate) struct Given {
    /// The level.
    pub level: u32,
    /// The clause that gave it, `NONE` for an assumption or a decision.
    pub reason: u32,
    /// Its place in the trail.
    pub place: u32,
}

/// The entry of a node that has no value.
pub(crate) const NOT_GIVEN: Given = Given {
    level: 0,
    reason: NONE,
    place: 0,
};

/// Clauses by number, values of literals, and the order in which they were given.
#[derive(Debug, Drop)]
pub(crate) struct Search {
    /// The literals of each clause, the two that are watched first.
    pub arena: Vec<Lit>,
    /// Where each clause begins in the arena, and where the last ends.
    pub starts: Vec<u32>,
    /// Watch 2 c + s is that of literal s of clause c.
    pub watches: Vec<Watch>,
    /// By literal: its first watch.
    pub first: Vec<u32>,
    /// By literal.
    pub values: Vec<u8>,
    /// By node.
    pub given: Vec<Given>,
    /// By node: whether it was last true.
    pub phases: Vec<bool>,
    /// By node: marks of the walk along a conflict.
    pub marks: Vec<bool>,
    /// By node: whether the clause that is traced has it.
    pub kept: Vec<bool>,
    /// By node: the two literals of its gate.
    pub gates: Vec<(Lit, Lit)>,
    /// The nodes that have gates.
    pub loaded: Vec<u32>,
    /// The literals that are true, in order.
    pub trail: Vec<Lit>,
    /// How many of these are propagated.
    pub head: usize,
    /// Where each level begins in the trail.
    pub bounds: Vec<u32>,
    /// The gates that may wait for a literal that is false.
    pub heap: GateHeap,
    /// The gates that were taken from it.
    pub taken: Vec<u32>,
    /// Where each level begins among them.
    pub taken_bounds: Vec<u32>,
    /// The conflicts since the last restart.
    pub since: u32,
    /// How many there may be before the next.
    pub patience: u32,
}

// So many pairs of no gate.
fn no_gates(alloc: Global, count: usize) -> Result<Vec<(Lit, Lit)>, AllocError> {
    vec![in alloc; NO_GATE; count]
}

// So many entries of nodes without values.
fn none_given(alloc: Global, count: usize) -> Result<Vec<Given>, AllocError> {
    vec![in alloc; NOT_GIVEN; count]
}

impl Search {
    /// No clauses, over so many nodes. The only error of this call and of those below is want of memory.
    pub(crate) fn new(alloc: Global, nodes: u32) -> Result<Search, AllocError> {
        let count = nodes as usize;
        let mut starts = Vec::new(alloc);
        starts.push(0)?;
        Ok(Search {
            arena: Vec::new(alloc),
            starts,
            watches: Vec::new(alloc),
            first: vec![in alloc; NONE; 2 * count]?,
            values: vec![in alloc; OPEN; 2 * count]?,
            given: none_given(alloc, count)?,
            phases: vec![in alloc; false; count]?,
            marks: vec![in alloc; false; count]?,
            kept: vec![in alloc; false; count]?,
            gates: no_gates(alloc, count)?,
            loaded: Vec::new(alloc),
            trail: Vec::new(alloc),
            head: 0,
            bounds: Vec::new(alloc),
            heap: GateHeap::new(alloc, count)?,
            taken: Vec::new(alloc),
            taken_bounds: Vec::new(alloc),
            since: 0,
            patience: 32,
        })
    }

    /// Room for so many nodes, if there was less.
    pub(crate) fn grow(&mut self, nodes: u32) -> Result<(), AllocError> {
        let count = nodes as usize;
        if count > self.given.len() {
            self.first.resize(2 * count, NONE)?;
            self.values.resize(2 * count, OPEN)?;
            self.phases.resize(count, false)?;
            self.marks.resize(count, false)?;
            self.kept.resize(count, false)?;
            self.gates.resize(count, NO_GATE)?;
            self.heap.grow_to(count)?;
            self.given.resize(count, NOT_GIVEN)?;
        }
        Ok(())
    }

    /// The value of a literal.
    #[inline]
    pub(crate) fn value(&self, lit: Lit) -> u8 {
        at(self.values.as_slice(), lit.0 as usize, OPEN)
    }

    /// Whether the node is true, if it has a value.
    pub(crate) fn node_value(&self, node: u32) -> Option<bool> {
        match at(self.values.as_slice(), 2 * node as usize, OPEN) {
            TRUE => Some(true),
            FALSE => Some(false),
            _ => None,
        }
    }

    /// The number of levels.
    pub(crate) fn level(&self) -> usize {
        self.bounds.len()
    }

    /// The number of clauses.
    pub(crate) fn count(&self) -> u32 {
        short(self.starts.len()).saturating_sub(1)
    }

    /// How a node got its value.
    #[inline]
    pub(crate) fn given(&self, lit: Lit) -> Given {
        at(self.given.as_slice(), lit.node() as usize, NOT_GIVEN)
    }

    /// Where a clause begins and ends in the arena.
    #[inline]
    pub(crate) fn span(&self, clause: u32) -> (usize, usize) {
        let starts = self.starts.as_slice();
        let start = at(starts, clause as usize, 0) as usize;
        let end = at(starts, clause as usize + 1, 0) as usize;
        (start, end)
    }

    /// Begins a level.
    pub(crate) fn new_level(&mut self) -> Result<(), AllocError> {
        self.bounds.push(short(self.trail.len()))?;
        self.taken_bounds.push(short(self.taken.len()))?;
        Ok(())
    }

    /// Makes a literal true.
    pub(crate) fn assign(&mut self, lit: Lit, reason: u32) -> Result<(), AllocError> {
        let node = lit.node() as usize;
        put(self.values.as_mut_slice(), lit.0 as usize, TRUE);
        put(self.values.as_mut_slice(), lit.not().0 as usize, FALSE);
        let given = Given {
            level: short(self.bounds.len()),
            reason,
            place: short(self.trail.len()),
        };
        put(self.given.as_mut_slice(), node, given);
        self.trail.push(lit)?;
        let gate = at(self.gates.as_slice(), node, NO_GATE);
        if lit.complemented() && gate != NO_GATE && !self.bounds.is_empty() {
            self.heap.insert(lit.node())?;
        }
        Ok(())
    }

    // Takes a literal's value back.
    fn unassign(&mut self, lit: Lit) {
        let node = lit.node() as usize;
        put(self.values.as_mut_slice(), lit.0 as usize, OPEN);
        put(self.values.as_mut_slice(), lit.not().0 as usize, OPEN);
        put(self.phases.as_mut_slice(), node, !lit.complemented());
    }

    // Takes back the values from a place of the trail on.
    fn unassign_from(&mut self, keep: usize) {
        for _ in keep..self.trail.len() {
            if let Some(lit) = self.trail.pop() {
                self.unassign(lit);
            }
        }
        if self.head > keep {
            self.head = keep;
        }
    }

    /// Takes back all levels above the first so many.
    pub(crate) fn back(&mut self, level: usize) -> Result<(), AllocError> {
        if self.bounds.len() <= level {
            return Ok(());
        }
        let keep = at(self.bounds.as_slice(), level, 0) as usize;
        self.unassign_from(keep);
        self.bounds.truncate(level);
        let keep_taken = at(self.taken_bounds.as_slice(), level, 0) as usize;
        for _ in keep_taken..self.taken.len() {
            if let Some(gate) = self.taken.pop() {
                if self.node_value(gate) == Some(false) {
                    self.heap.insert(gate)?;
                }
            }
        }
        self.taken_bounds.truncate(level);
        Ok(())
    }

    /// Takes back all but what needs no assumption.
    pub(crate) fn begin(&mut self) -> Result<(), AllocError> {
        self.back(0)?;
        self.heap.clear();
        self.taken.clear();
        self.since = 0;
        self.patience = 32;
        Ok(())
    }

    /// Takes back all decisions after many conflicts.
    pub(crate) fn rest(&mut self) -> Result<(), AllocError> {
        if self.since < self.patience {
            return Ok(());
        }
        self.since = 0;
        self.patience = self.patience.saturating_add(self.patience / 2);
        self.back(0)
    }

    /// A gate: the node of an AND of two literals.
    pub(crate) fn set_gate(&mut self, node: u32, a: Lit, b: Lit) -> Result<(), AllocError> {
        put(self.gates.as_mut_slice(), node as usize, (a, b));
        self.loaded.push(node)?;
        Ok(())
    }

    /// Whether the node has a gate, or no room.
    pub(crate) fn has_gate(&self, node: u32) -> bool {
        let n = node as usize;
        n >= self.gates.len() || self.gates[n] != NO_GATE
    }

    // Drops the watches of a node's literals.
    fn unwatch(&mut self, node: u32) {
        put(self.first.as_mut_slice(), 2 * node as usize, NONE);
        put(self.first.as_mut_slice(), 2 * node as usize + 1, NONE);
    }

    /// Drops all clauses, gates and values.
    pub(crate) fn clear(&mut self) -> Result<(), AllocError> {
        self.begin()?;
        self.unassign_from(0);
        for i in 0..self.loaded.len() {
            let node = at(self.loaded.as_slice(), i, 0);
            let (a, b) = at(self.gates.as_slice(), node as usize, NO_GATE);
            self.unwatch(node);
            self.unwatch(a.node());
            self.unwatch(b.node());
            put(self.gates.as_mut_slice(), node as usize, NO_GATE);
        }
        self.heap.forget(self.loaded.as_slice());
        self.loaded.clear();
        self.arena.clear();
        self.watches.clear();
        self.starts.truncate(1);
        Ok(())
    }
}
