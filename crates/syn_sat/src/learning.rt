//! Clauses that are kept.

ghost use Rattle.std.specs.Prelude.{◌≡◌, ◌≤◌, ◌<◌, ◌+◌, ◌^◌, ◌&&◌, ◌++◌, ◌∷◌, [], ℕ, Bool, true, false, All, List, length, IfOk, IsTrue, vec_len};
ghost use Rattle.syn_rows.specs.Values.{lit_value};
ghost use Rattle.syn_rows.specs.Joining.{lit_of};
ghost use Rattle.syn_sat.specs.Clauses.{AllTrue, clause_value, IsWithin};
ghost use Rattle.syn_sat.specs.Checking.{AreUpTo};
ghost use Rattle.syn_sat.specs.Holding.{Holds};

use crate::Clauses;
use crate::checking::{mark_false, refutes};
use std::alloc::{AllocError, Global};
use syn_rows::Lit;

// So many stamps of no check.
fn no_stamps(alloc: Global, count: usize) -> Result<Vec<u32>, AllocError>
    ensures { IfOk result (λ v. AreUpTo v.items 0) }
{
    vec![in alloc; 0; count]
}

impl Clauses {
    /// No clauses, over literals below a number. The only error of this call and of those below is want of memory.
    pub fn new(alloc: Global, literals: usize) -> Result<Clauses, AllocError>
        ensures { IfOk result (λ c. (v : ℕ → Bool) → Holds c v) }
    {
        Ok(Clauses {
            lits: Vec::new(alloc),
            spans: Vec::new(alloc),
            stamps: no_stamps(alloc, literals)?,
            checks: 0,
        })
    }

    /// Room for literals below a number, if there was less.
    pub fn grow(&mut self, literals: usize) -> Result<(), AllocError>
        ensures { (v : ℕ → Bool) → Holds self.old v → Holds self.new v }
    {
        if literals > self.stamps.len() {
            self.stamps.resize(literals, 0)?;
        }
        Ok(())
    }

    /// The number of clauses.
    pub fn count(&self) -> usize {
        self.spans.len()
    }

    /// Puts a clause behind the others.
    pub fn push(&mut self, clause: &[Lit]) -> Result<(), AllocError>
        ensures { (v : ℕ → Bool) → Holds self.old v → clause_value v clause.now ≡ true → Holds self.new v }
    {
        let start = self.lits.len();
        self.lits.extend_from_slice(clause)?;
        let end = self.lits.len();
        if end < 4_294_967_296 {
            self.spans.push((start as u32, end as u32))?;
        }
        Ok(())
    }

    // Whether the clause follows from those that the hints name.
    fn follows(&mut self, clause: &[Lit], hints: &[u32]) -> bool
        ensures follows { result ≡ true → (v : ℕ → Bool) → Holds self.old v → clause_value v clause.now ≡ true }
        ensures kept { (v : ℕ → Bool) → Holds self.old v → Holds self.new v }
    {
        if self.checks == u32::MAX {
            return false;
        }
        self.checks += 1;
        let now = self.checks;
        mark_false(self.stamps.as_mut_slice(), now, clause);
        refutes(
            self.lits.as_slice(),
            self.spans.as_slice(),
            hints,
            self.stamps.as_mut_slice(),
            now,
        )
    }

    /// Puts a clause behind the others where unit propagation along those that the hints name, in their order, shows that
    /// it follows. Whether it does.
    pub fn learn(&mut self, clause: &[Lit], hints: &[u32]) -> Result<bool, AllocError>
        ensures learned { IfOk result (λ yes. IsTrue yes → (v : ℕ → Bool) → Holds self.old v → clause_value v clause.now ≡ true) }
        ensures kept { (v : ℕ → Bool) → Holds self.old v → Holds self.new v }
    {
        let follows = self.follows(clause, hints);
        if follows {
            self.push(clause)?;
        }
        Ok(follows)
    }

    /// The three clauses of an AND of two literals at a node.
    pub fn push_and(&mut self, node: Lit, a: Lit, b: Lit) -> Result<(), AllocError>
        ensures { (v : ℕ → Bool) → Holds self.old v → lit_value v node ≡ (lit_value v a && lit_value v b) → Holds self.new v }
    {
        self.push(&[node.not(), a])?;
        self.push(&[node.not(), b])?;
        self.push(&[node, a.not(), b.not()])
    }

    /// Drops all clauses.
    pub fn clear(&mut self)
        ensures { (v : ℕ → Bool) → Holds self.new v }
    {
        self.spans.clear();
        self.lits.clear();
    }
}
