//! What a conflict comes to: the clause that is learned, and the clauses by which it follows.

use crate::lists::{at, put, short};
use crate::search::{FALSE, NONE, Search};
use std::alloc::AllocError;
use syn_rows::Lit;

impl Search {
    // Marks the nodes of a clause: how many of this level are new; those of lower ones go to the learned clause.
    fn mark_clause(
        &mut self,
        clause: u32,
        here: u32,
        learned: &mut Vec<Lit>,
    ) -> Result<u32, AllocError> {
        let (start, end) = self.span(clause);
        let mut count: u32 = 0;
        for k in start..end {
            let lit = at(self.arena.as_slice(), k, Lit(0));
            let node = lit.node() as usize;
            let level = self.given(lit).level;
            if self.value(lit) == FALSE && level > 0 && !at(self.marks.as_slice(), node, true) {
                put(self.marks.as_mut_slice(), node, true);
                self.heap.bump(lit.node());
                if level == here {
                    count = count.saturating_add(1);
                } else {
                    learned.push(lit)?;
                }
            }
        }
        Ok(count)
    }

    // The last place of the trail before this one whose node is marked.
    fn marked_before(&self, place: usize) -> usize {
        for i in (0..place).rev() {
            let lit = at(self.trail.as_slice(), i, Lit(0));
            if at(self.marks.as_slice(), lit.node() as usize, false) {
                return i;
            }
        }
        0
    }

    // Whether all other literals of a node's reason are marked, or have their values without assumptions.
    fn is_implied(&self, lit: Lit) -> bool {
        let reason = self.given(lit).reason;
        if reason == NONE {
            return false;
        }
        let (start, end) = self.span(reason);
        for k in start..end {
            let other = at(self.arena.as_slice(), k, Lit(0));
            if other.node() != lit.node()
                && !at(self.marks.as_slice(), other.node() as usize, false)
                && self.given(other).level > 0
            {
                return false;
            }
        }
        true
    }

    // Puts the literal of the highest level second: that level.
    fn order(&self, learned: &mut [Lit]) -> usize {
        let mut best: u32 = 0;
        for k in 1..learned.len() {
            let level = self.given(learned[k]).level;
            if level > best {
                best = level;
                learned.swap(1, k);
            }
        }
        best as usize
    }

    // Drops the literals behind the first that the others imply, and takes all marks back.
    fn reduce(&mut self, learned: &mut Vec<Lit>) {
        let all = learned.len();
        let mut end: usize = 1;
        for k in 1..all {
            let lit = at(learned.as_slice(), k, Lit(0));
            if !self.is_implied(lit) {
                // those that are dropped stay behind the end, to be unmarked
                let other = at(learned.as_slice(), end, Lit(0));
                put(learned.as_mut_slice(), end, lit);
                put(learned.as_mut_slice(), k, other);
                end = end.saturating_add(1);
            }
        }
        for k in 0..all {
            let lit = at(learned.as_slice(), k, Lit(0));
            put(self.marks.as_mut_slice(), lit.node() as usize, false);
        }
        learned.truncate(end);
    }

    /// What a conflict comes to: a clause of which one literal, its first, is of this level. The level of its second.
    pub(crate) fn analyze(
        &mut self,
        conflict: u32,
        learned: &mut Vec<Lit>,
    ) -> Result<usize, AllocError> {
        self.since = self.since.saturating_add(1);
        learned.clear();
        learned.push(Lit(0))?;
        let here = short(self.bounds.len());
        let mut clause = conflict;
        let mut open: u32 = 0;
        let mut place = self.trail.len();
        for _ in 0..u64::MAX {
            open = open.saturating_add(self.mark_clause(clause, here, learned)?);
            place = self.marked_before(place);
            let lit = at(self.trail.as_slice(), place, Lit(0));
            put(self.marks.as_mut_slice(), lit.node() as usize, false);
            open = open.saturating_sub(1);
            clause = self.given(lit).reason;
            if open == 0 || clause == NONE {
                put(learned.as_mut_slice(), 0, lit.not());
                break;
            }
        }
        self.reduce(learned);
        self.heap.grow();
        Ok(self.order(learned.as_mut_slice()))
    }

    // Marks the nodes of a clause from which a conflict is traced back: how many are new.
    fn need(&mut self, clause: u32) -> u32 {
        let (start, end) = self.span(clause);
        let mut count: u32 = 0;
        for k in start..end {
            let lit = at(self.arena.as_slice(), k, Lit(0));
            let node = lit.node() as usize;
            if !at(self.marks.as_slice(), node, true) {
                put(self.marks.as_mut_slice(), node, true);
                count = count.saturating_add(1);
            }
        }
        count
    }

    // Says of the nodes of a clause whether it is the one that is traced.
    fn keep(&mut self, clause: &[Lit], keep: bool) {
        for lit in clause {
            put(self.kept.as_mut_slice(), lit.node() as usize, keep);
        }
    }

    /// The clauses by which a clause follows, in the order in which propagation uses them: from a conflict back to the
    /// clause's own literals.
    pub(crate) fn trace(
        &mut self,
        conflict: u32,
        clause: &[Lit],
        hints: &mut Vec<u32>,
    ) -> Result<(), AllocError> {
        hints.clear();
        self.keep(clause, true);
        hints.push(conflict)?;
        let mut open = self.need(conflict);
        for place in (0..self.trail.len()).rev() {
            if open == 0 {
                break;
            }
            let lit = at(self.trail.as_slice(), place, Lit(0));
            let node = lit.node() as usize;
            if at(self.marks.as_slice(), node, false) {
                // still marked while its reason, which has it too, is marked
                open = open.saturating_sub(1);
                let reason = self.given(lit).reason;
                if reason != NONE && !at(self.kept.as_slice(), node, false) {
                    hints.push(reason)?;
                    open = open.saturating_add(self.need(reason));
                }
                put(self.marks.as_mut_slice(), node, false);
            }
        }
        self.keep(clause, false);
        hints.reverse();
        Ok(())
    }
}
