//! Whether literals can be true together.

ghost use Rattle.std.specs.Prelude.{◌≡◌, ◌<◌, ◌&&◌, ℕ, Bool, true, false, All, List, IfOk, OnOk, IsTrue};
ghost use Rattle.syn_rows.specs.Values.{lit_value};
ghost use Rattle.syn_sat.specs.Clauses.{clause_value};
ghost use Rattle.syn_sat.specs.Holding.{Holds};

use crate::Clauses;
use crate::decisions::Next;
use crate::search::{NONE, Search};
use std::alloc::{AllocError, Global};
use syn_rows::{Lit, TRUE};

/// What a search for values comes to.
#[derive(Clone, Copy, Debug, PartialEq, Eq)]
pub enum Answer {
    /// There are none.
    Refuted,
    /// It has found some, by its own account.
    Model,
    /// It gave up.
    Undecided,
}

// So many clauses more than the first call after a clearing left make the solver large.
const MANY: usize = 30_000;

/// Clauses, and a search for values under which they are true.
#[derive(Debug, Drop)]
pub struct Solver {
    /// The clauses.
    pub clauses: Clauses,
    search: Search,
    // How many clauses make it large.
    limit: usize,
    // Room for the clause that is learned, and for its hints.
    clause: Vec<Lit>,
    hints: Vec<u32>,
}

// The complements of literals.
fn complements(lits: &[Lit], clause: &mut Vec<Lit>) -> Result<(), AllocError>
    ensures { OnOk result ((v : ℕ → Bool) → All (λ l. lit_value v l ≡ true) lits.now → clause_value v clause.new.items ≡ false) }
{
    clause.clear();
    for lit in lits {
        clause.push(lit.not())?;
    }
    Ok(())
}

impl Solver {
    /// The clause that node 0 is false, and no others, over so many nodes. The only error of this call and of those below is
    /// want of memory.
    pub fn new(alloc: Global, nodes: u32) -> Result<Solver, AllocError>
        ensures { IfOk result (λ s. (v : ℕ → Bool) → v 0 ≡ false → Holds s.clauses v) }
    {
        let mut solver = Solver {
            clauses: Clauses::new(alloc, 2 * nodes as usize)?,
            search: Search::new(alloc, nodes)?,
            limit: 0,
            clause: Vec::new(alloc),
            hints: Vec::new(alloc),
        };
        solver.push_constant()?;
        Ok(solver)
    }

    /// Room for so many nodes, if there was less.
    pub fn grow(&mut self, nodes: u32) -> Result<(), AllocError>
        ensures { (v : ℕ → Bool) → Holds self.old.clauses v → Holds self.new.clauses v }
    {
        self.clauses.grow(2 * nodes as usize)?;
        self.search.grow(nodes)
    }

    /// What a node has in the model of the last call, if anything. Nothing is promised of it.
    pub fn value(&self, node: u32) -> Option<bool> {
        self.search.node_value(node)
    }

    /// Whether the clauses of a gate at the node were put in, or there is no room for the node. Nothing is promised of it.
    pub fn has_gate(&self, node: u32) -> bool {
        self.search.has_gate(node)
    }

    /// Whether so many clauses were learned that the calls get slow. Nothing is promised of it.
    pub fn is_large(&self) -> bool {
        self.limit > 0 && self.clauses.count() > self.limit
    }

    // The clause that node 0 is false.
    fn push_constant(&mut self) -> Result<(), AllocError>
        ensures { (v : ℕ → Bool) → Holds self.old.clauses v → v 0 ≡ false → Holds self.new.clauses v }
    {
        let number = self.search.count();
        self.clauses.push(&[TRUE])?;
        self.search.attach(&[TRUE])?;
        self.search.assert(TRUE, number)
    }

    /// Drops all clauses but that node 0 is false.
    pub fn clear(&mut self) -> Result<(), AllocError>
        ensures { (v : ℕ → Bool) → v 0 ≡ false → Holds self.new.clauses v }
    {
        self.clauses.clear();
        self.limit = 0;
        self.search.clear()?;
        self.push_constant()
    }

    /// The three clauses of an AND of two literals at a node.
    pub fn push_and(&mut self, node: u32, a: Lit, b: Lit) -> Result<(), AllocError>
        requires { node < 2147483648 }
        ensures { (v : ℕ → Bool) → Holds self.old.clauses v → v node ≡ (lit_value v a && lit_value v b) → Holds self.new.clauses v }
    {
        let lit = Lit::of(node, false);
        self.search.begin()?;
        self.clauses.push_and(lit, a, b)?;
        self.search.attach(&[lit.not(), a])?;
        self.search.attach(&[lit.not(), b])?;
        self.search.attach(&[lit, a.not(), b.not()])?;
        self.search.set_gate(node, a, b)?;
        self.search.touch(lit);
        self.search.touch(a);
        self.search.touch(b);
        Ok(())
    }

    // Learns what a conflict comes to, and goes back: whether the clause was accepted.
    fn learn(&mut self, conflict: u32) -> Result<bool, AllocError>
        ensures { (v : ℕ → Bool) → Holds self.old.clauses v → Holds self.new.clauses v }
    {
        let level = self.search.analyze(conflict, &mut self.clause)?;
        self.search
            .trace(conflict, self.clause.as_slice(), &mut self.hints)?;
        let accepted = self
            .clauses
            .learn(self.clause.as_slice(), self.hints.as_slice())?;
        if accepted {
            self.search.back(level)?;
            let number = self.search.count();
            self.search.attach(self.clause.as_slice())?;
            if !self.clause.is_empty() {
                self.search.assert(self.clause[0], number)?;
            }
        }
        Ok(accepted)
    }

    // Learns that the assumptions can't be true together, from a conflict under them alone.
    fn conclude(&mut self, assumed: &[Lit], conflict: u32) -> Result<Answer, AllocError>
        ensures refuted { IfOk result (λ a. a ≡ Answer.Refuted → (v : ℕ → Bool) → Holds self.old.clauses v → All (λ l. lit_value v l ≡ true) assumed.now → ⊥) }
        ensures kept { (v : ℕ → Bool) → Holds self.old.clauses v → Holds self.new.clauses v }
    {
        complements(assumed, &mut self.clause)?;
        self.search
            .trace(conflict, self.clause.as_slice(), &mut self.hints)?;
        let accepted = self
            .clauses
            .learn(self.clause.as_slice(), self.hints.as_slice())?;
        if !accepted {
            return Ok(Answer::Undecided);
        }
        self.search.back(0)?;
        let number = self.search.count();
        self.search.attach(self.clause.as_slice())?;
        self.search.assert_last(self.clause.as_slice(), number)?;
        Ok(Answer::Refuted)
    }

    // Goes back to no assumptions, and sets the number of clauses that make it large after a clearing.
    fn begin(&mut self) -> Result<(), AllocError>
        ensures { self.new.clauses ≡ self.old.clauses }
    {
        if self.limit == 0 {
            self.limit = self.clauses.count().saturating_add(MANY);
        }
        self.search.begin()
    }

    /// Whether the literals can be true together, by at most so many conflicts.
    pub fn refute(&mut self, assumed: &[Lit], conflicts: u32) -> Result<Answer, AllocError>
        ensures refuted { IfOk result (λ a. a ≡ Answer.Refuted → (v : ℕ → Bool) → Holds self.old.clauses v → All (λ l. lit_value v l ≡ true) assumed.now → ⊥) }
        ensures kept { (v : ℕ → Bool) → Holds self.old.clauses v → Holds self.new.clauses v }
    {
        self.begin()?;
        let mut left = conflicts;
        for _ in 0..u64::MAX {
            match self.search.propagate()? {
                Some(conflict) => {
                    if self.search.level() <= assumed.len() {
                        return self.conclude(assumed, conflict);
                    }
                    if left == 0 {
                        return Ok(Answer::Undecided);
                    }
                    left -= 1;
                    let accepted = self.learn(conflict)?;
                    if !accepted {
                        return Ok(Answer::Undecided);
                    }
                }
                None => {
                    self.search.rest()?;
                    match self.search.go_on(assumed)? {
                        Next::Given => {}
                        Next::Model => return Ok(Answer::Model),
                        Next::Refuted(reason) => {
                            if reason == NONE {
                                return Ok(Answer::Undecided);
                            }
                            return self.conclude(assumed, reason);
                        }
                    }
                }
            }
        }
        Ok(Answer::Undecided)
    }
}
