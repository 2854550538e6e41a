//! Unit propagation by watched literals.

use crate::lists::{at, put, short};
use crate::search::{FALSE, NO_WATCH, NONE, OPEN, Search, TRUE, Watch};
use std::alloc::AllocError;
use syn_rows::Lit;

// What becomes of a watch whose literal is false.
#[derive(Clone, Copy, Debug)]
enum Turn {
    Stays,
    Moves(Lit),
    Gives(Lit),
    Conflict,
}

impl Search {
    // Puts a watch in front of those of a literal.
    #[inline]
    fn link(&mut self, watch: u32, lit: Lit, blocker: Lit, binary: bool) {
        let next = at(self.first.as_slice(), lit.0 as usize, NONE);
        let new = Watch {
            next,
            blocker,
            binary,
        };
        put(self.watches.as_mut_slice(), watch as usize, new);
        put(self.first.as_mut_slice(), lit.0 as usize, watch);
    }

    /// Puts a clause behind the others, as its caller has it under the same number.
    pub(crate) fn attach(&mut self, clause: &[Lit]) -> Result<(), AllocError> {
        self.arena.extend_from_slice(clause)?;
        self.starts.push(short(self.arena.len()))?;
        let watch = short(self.watches.len());
        self.watches.push(NO_WATCH)?;
        self.watches.push(NO_WATCH)?;
        if clause.len() >= 2 && watch < NONE {
            let binary = clause.len() == 2;
            self.link(watch, clause[0], clause[1], binary);
            self.link(watch + 1, clause[1], clause[0], binary);
        }
        Ok(())
    }

    /// Propagates again from the value of a node, if it has one.
    pub(crate) fn touch(&mut self, lit: Lit) {
        if self.value(lit) != OPEN {
            let place = self.given(lit).place as usize;
            if place < self.head {
                self.head = place;
            }
        }
    }

    // What becomes of the watch of a clause of three literals or more, whose literal is false.
    fn turn(&mut self, watch: u32, lit: Lit) -> Turn {
        let (start, end) = self.span(watch / 2);
        let side = (watch % 2) as usize;
        let other = at(
            self.arena.as_slice(),
            start.saturating_add(1 - side),
            Lit(0),
        );
        let value = self.value(other);
        if value == TRUE {
            return Turn::Stays;
        }
        for k in start.saturating_add(2)..end {
            let new = at(self.arena.as_slice(), k, Lit(0));
            if self.value(new) != FALSE {
                put(self.arena.as_mut_slice(), start.saturating_add(side), new);
                put(self.arena.as_mut_slice(), k, lit);
                return Turn::Moves(new);
            }
        }
        if value == FALSE {
            Turn::Conflict
        } else {
            Turn::Gives(other)
        }
    }

    // The same of any clause.
    #[inline]
    fn turn_watch(&mut self, id: u32, watch: Watch, lit: Lit) -> Turn {
        let value = self.value(watch.blocker);
        if value == TRUE {
            Turn::Stays
        } else if !watch.binary {
            self.turn(id, lit)
        } else if value == FALSE {
            Turn::Conflict
        } else {
            Turn::Gives(watch.blocker)
        }
    }

    // Takes a watch, that is behind another or the first, from those of its literal.
    #[inline]
    fn unlink(&mut self, before: u32, lit: Lit, next: u32) {
        if before == NONE {
            put(self.first.as_mut_slice(), lit.0 as usize, next);
        } else {
            let mut watch = at(self.watches.as_slice(), before as usize, NO_WATCH);
            watch.next = next;
            put(self.watches.as_mut_slice(), before as usize, watch);
        }
    }

    // Looks at all clauses that watch a literal that is false: the one that is a conflict, if any.
    fn visit(&mut self, lit: Lit) -> Result<Option<u32>, AllocError> {
        let mut before = NONE;
        let mut id = at(self.first.as_slice(), lit.0 as usize, NONE);
        for _ in 0..u64::MAX {
            if id == NONE {
                return Ok(None);
            }
            let watch = at(self.watches.as_slice(), id as usize, NO_WATCH);
            match self.turn_watch(id, watch, lit) {
                Turn::Stays => before = id,
                Turn::Moves(new) => {
                    self.unlink(before, lit, watch.next);
                    self.link(id, new, watch.blocker, false);
                }
                Turn::Gives(other) => {
                    before = id;
                    self.assign(other, id / 2)?;
                }
                Turn::Conflict => return Ok(Some(id / 2)),
            }
            id = watch.next;
        }
        Ok(None)
    }

    /// Propagates what has not been: the clause that is a conflict, if any.
    pub(crate) fn propagate(&mut self) -> Result<Option<u32>, AllocError> {
        for _ in 0..u64::MAX {
            if self.head >= self.trail.len() {
                return Ok(None);
            }
            let lit = self.trail[self.head];
            self.head += 1;
            if let Some(clause) = self.visit(lit.not())? {
                self.head = self.trail.len();
                return Ok(Some(clause));
            }
        }
        Ok(None)
    }

    /// Makes the literal of the last clause that isn't false true by it, where there is one alone.
    pub(crate) fn assert_last(&mut self, clause: &[Lit], number: u32) -> Result<(), AllocError> {
        let mut count: u32 = 0;
        let mut last = Lit(0);
        for lit in clause {
            if self.value(*lit) != FALSE {
                count = count.saturating_add(1);
                last = *lit;
            }
        }
        if count == 1 {
            self.assert(last, number)?;
        }
        Ok(())
    }

    /// Makes a literal of a clause, all of whose others are false, true by it.
    pub(crate) fn assert(&mut self, lit: Lit, clause: u32) -> Result<(), AllocError> {
        if self.value(lit) == OPEN {
            self.assign(lit, clause)?;
        }
        Ok(())
    }
}
