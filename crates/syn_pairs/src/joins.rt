//! Which literals of a conjunction are joined next. Nothing is promised of it.

use crate::lists::{at, short};
use std::alloc::{AllocError, Global};
use std::cmp::Reverse;
use std::collections::BinaryHeap;
use syn_rows::{Lit, Row, TRUE};

/// The next places of one conjunction: those that its steps name, then each time the two of least level.
#[derive(Drop)]
pub(crate) struct Joins {
    // The level of each new node.
    levels: Vec<u32>,
    // Once the steps are done: what is left, by level, literal and place.
    left: BinaryHeap<Reverse<(u32, u32, u32)>>,
    is_filled: bool,
    // How many steps are done.
    done: usize,
    // The place of the last AND.
    last: usize,
}

impl Joins {
    /// No conjunction. The only error of the calls below is want of memory.
    pub(crate) fn new(alloc: Global) -> Joins {
        Joins {
            levels: Vec::new(alloc),
            left: BinaryHeap::new(alloc),
            is_filled: false,
            done: 0,
            last: 0,
        }
    }

    /// Begins a conjunction.
    pub(crate) fn begin(&mut self) {
        self.left.clear();
        self.is_filled = false;
        self.done = 0;
    }

    fn level(&self, lit: Lit) -> u32 {
        at(self.levels.as_slice(), lit.node() as usize, 0)
    }

    // Levels for the rows that have none yet.
    fn grow(&mut self, rows: &[Row]) -> Result<(), AllocError> {
        for node in self.levels.len()..rows.len() {
            let level = match rows[node] {
                Row::And(a, b) => self.level(a).max(self.level(b)).saturating_add(1),
                Row::Free | Row::Source | Row::Alias(_) => 0,
            };
            self.levels.push(level)?;
        }
        Ok(())
    }

    // Puts the literal at a place to what is left.
    fn put_back(&mut self, lits: &[Lit], place: usize) -> Result<(), AllocError> {
        let lit = at(lits, place, TRUE);
        if lit != TRUE {
            let entry = (self.level(lit), lit.0, short(place));
            self.left.push(Reverse(entry))?;
        }
        Ok(())
    }

    // What is left, with the last AND in it.
    fn fill(&mut self, rows: &[Row], lits: &[Lit]) -> Result<(), AllocError> {
        self.grow(rows)?;
        if self.is_filled {
            return self.put_back(lits, self.last);
        }
        self.is_filled = true;
        for place in 0..lits.len() {
            self.put_back(lits, place)?;
        }
        Ok(())
    }

    /// The next two places, where two literals are left.
    pub(crate) fn next(
        &mut self,
        rows: &[Row],
        steps: &[(u32, u32)],
        lits: &[Lit],
    ) -> Result<Option<(usize, usize)>, AllocError> {
        if self.done < steps.len() {
            let (first, second) = steps[self.done];
            self.done += 1;
            return Ok(Some((first as usize, second as usize)));
        }
        if lits.len() == 2 {
            return Ok(Some((0, 1)));
        }
        self.fill(rows, lits)?;
        let Some(Reverse((_, _, first))) = self.left.pop() else {
            return Ok(None);
        };
        let Some(Reverse((_, _, second))) = self.left.pop() else {
            return Ok(None);
        };
        self.last = first as usize;
        Ok(Some((first as usize, second as usize)))
    }
}
