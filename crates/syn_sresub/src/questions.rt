//! Whether a literal is the AND of two others.

ghost use Rattle.std.specs.Prelude.{◌≡◌, ◌&&◌, ℕ, Bool, true, IfOk};
ghost use Rattle.syn_rows.specs.Values.{lit_value};
ghost use Rattle.syn_sat.specs.Holding.{Holds};

use std::alloc::AllocError;
use syn_rows::Lit;
use syn_sat::{Answer, Solver};

// Whether a literal can be true while another is false.
fn implies(solver: &mut Solver, m: Lit, x: Lit, conflicts: u32) -> Result<Answer, AllocError>
    ensures implied { IfOk result (λ a. a ≡ Answer.Refuted → (v : ℕ → Bool) → Holds solver.old.clauses v → lit_value v m ≡ true → lit_value v x ≡ true) }
    ensures kept { (v : ℕ → Bool) → Holds solver.old.clauses v → Holds solver.new.clauses v }
{
    solver.refute(&[m, x.not()], conflicts)
}

// Whether two literals can be true while a third is false.
fn join(solver: &mut Solver, m: Lit, x: Lit, y: Lit, conflicts: u32) -> Result<Answer, AllocError>
    ensures joined { IfOk result (λ a. a ≡ Answer.Refuted → (v : ℕ → Bool) → Holds solver.old.clauses v → lit_value v x ≡ true → lit_value v y ≡ true → lit_value v m ≡ true) }
    ensures kept { (v : ℕ → Bool) → Holds solver.old.clauses v → Holds solver.new.clauses v }
{
    solver.refute(&[m.not(), x, y], conflicts)
}

// Whether a literal implies the second of two others, and these together imply it.
fn is_rest(
    solver: &mut Solver,
    m: Lit,
    x: Lit,
    y: Lit,
    conflicts: u32,
) -> Result<Answer, AllocError>
    ensures implied { IfOk result (λ a. a ≡ Answer.Refuted → (v : ℕ → Bool) → Holds solver.old.clauses v → lit_value v m ≡ true → lit_value v y ≡ true) }
    ensures joined { IfOk result (λ a. a ≡ Answer.Refuted → (v : ℕ → Bool) → Holds solver.old.clauses v → lit_value v x ≡ true → lit_value v y ≡ true → lit_value v m ≡ true) }
    ensures kept { (v : ℕ → Bool) → Holds solver.old.clauses v → Holds solver.new.clauses v }
{
    match implies(solver, m, y, conflicts)? {
        Answer::Refuted => join(solver, m, x, y, conflicts),
        Answer::Model => Ok(Answer::Model),
        Answer::Undecided => Ok(Answer::Undecided),
    }
}

/// Whether a literal is the AND of two others, by at most so many conflicts for each of three questions. The only error is
/// want of memory.
pub(crate) fn is_and(
    solver: &mut Solver,
    m: Lit,
    x: Lit,
    y: Lit,
    conflicts: u32,
) -> Result<Answer, AllocError>
    ensures same { IfOk result (λ a. a ≡ Answer.Refuted → (v : ℕ → Bool) → Holds solver.old.clauses v → lit_value v m ≡ (lit_value v x && lit_value v y)) }
    ensures kept { (v : ℕ → Bool) → Holds solver.old.clauses v → Holds solver.new.clauses v }
{
    match implies(solver, m, x, conflicts)? {
        Answer::Refuted => is_rest(solver, m, x, y, conflicts),
        Answer::Model => Ok(Answer::Model),
        Answer::Undecided => Ok(Answer::Undecided),
    }
}
