//! Which literal gets a value where nothing is left to propagate: an assumption, or one that justifies a gate.

use crate::lists::at;
use crate::search::{FALSE, NO_GATE, NONE, OPEN, Search};
use std::alloc::AllocError;
use syn_rows::Lit;

/// What is next where nothing is left to propagate.
#[derive(Clone, Copy, Debug)]
pub(crate) enum Next {
    /// Another value was given.
    Given,
    /// An assumption is false already, by this clause.
    Refuted(u32),
    /// Nothing: the values are a model.
    Model,
}

impl Search {
    // Which of a gate's literals becomes false: the one that was last, else the more active one.
    fn pick(&self, gate: (Lit, Lit)) -> Lit {
        let (a, b) = gate;
        let phases = self.phases.as_slice();
        let first = at(phases, a.node() as usize, false) == a.complemented();
        let second = at(phases, b.node() as usize, false) == b.complemented();
        if first != second {
            if first { a } else { b }
        } else if self.heap.activity(a.node()) >= self.heap.activity(b.node()) {
            a
        } else {
            b
        }
    }

    // A literal of a gate that is 0 and has none that is 0, made false on a level of its own: whether there is such a gate.
    fn decide(&mut self) -> Result<bool, AllocError> {
        for _ in 0..u64::MAX {
            let Some(gate) = self.heap.pop() else {
                return Ok(false);
            };
            let two = at(self.gates.as_slice(), gate as usize, NO_GATE);
            let waits = self.node_value(gate) == Some(false)
                && self.value(two.0) != FALSE
                && self.value(two.1) != FALSE;
            if waits {
                let lit = self.pick(two);
                if self.value(lit) != OPEN {
                    return Ok(false);
                }
                self.new_level()?;
                self.taken.push(gate)?;
                self.assign(lit.not(), NONE)?;
                return Ok(true);
            }
            self.taken.push(gate)?;
        }
        Ok(false)
    }

    /// The next assumption, or decision.
    pub(crate) fn go_on(&mut self, assumed: &[Lit]) -> Result<Next, AllocError> {
        let level = self.bounds.len();
        if level < assumed.len() {
            let lit = assumed[level];
            if self.value(lit) == FALSE {
                return Ok(Next::Refuted(self.given(lit).reason));
            }
            self.new_level()?;
            if self.value(lit) == OPEN {
                self.assign(lit, NONE)?;
            }
            return Ok(Next::Given);
        }
        let decided = self.decide()?;
        Ok(if decided { Next::Given } else { Next::Model })
    }
}
