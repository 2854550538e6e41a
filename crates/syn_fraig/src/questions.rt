//! Whether two literals of rows have one value.

ghost use Rattle.std.specs.Prelude.{◌≡◌, ◌<◌, ◌+◌, ℕ, Bool, List, length, IfOk, OnOk};
ghost use Rattle.syn_rows.specs.declared.TheConstants.{NODE_LIMIT};
ghost use Rattle.syn_rows.specs.Values.{Fits, lit_value};
ghost use Rattle.syn_sat.specs.Holding.{Holds};
ghost use Rattle.syn_fraig.specs.Sweeping.{AreTrueBy};

use std::alloc::AllocError;
use syn_rows::{Lit, Row};
use syn_sat::{Answer, Solver};

/// A solver with more clauses than these is emptied before a question: an assumption is propagated through all of them, also
/// through those of earlier questions.
const MANY: usize = 5000;

/// Empties a solver that has many clauses, and gives it room for all rows. The only error of this call and of those below is
/// want of memory.
pub fn refresh(rows: &[Row], solver: &mut Solver) -> Result<(), AllocError>
    requires few { length rows.now < NODE_LIMIT }
    ensures { OnOk result (AreTrueBy rows.now solver.old.clauses → AreTrueBy rows.now solver.new.clauses) }
{
    solver.grow(rows.len() as u32)?;
    if solver.clauses.count() > MANY {
        solver.clear()?;
    }
    Ok(())
}

// Loads the gate of a node that has none in the solver, and puts the nodes below it behind the others.
fn visit(
    rows: &[Row],
    stack: &mut Vec<u32>,
    solver: &mut Solver,
    node: u32,
) -> Result<(), AllocError>
    requires few { length rows.now < NODE_LIMIT }
    ensures { (v : ℕ → Bool) → Fits rows.now v → Holds solver.old.clauses v → Holds solver.new.clauses v }
{
    if (node as usize) < rows.len() && !solver.has_gate(node) {
        let row = rows[node as usize];
        if let Row::And(a, b) = row {
            solver.push_and(node, a, b)?;
            stack.push(a.node())?;
            stack.push(b.node())?;
        }
    }
    Ok(())
}

/// Loads the gates of the nodes on the stack and of all below them that the solver lacks.
pub fn load_cones(rows: &[Row], stack: &mut Vec<u32>, solver: &mut Solver) -> Result<(), AllocError>
    requires few { length rows.now < NODE_LIMIT }
    ensures { (v : ℕ → Bool) → Fits rows.now v → Holds solver.old.clauses v → Holds solver.new.clauses v }
{
    for _ in 0..u64::MAX {
        let Some(node) = stack.pop() else {
            return Ok(());
        };
        visit(rows, stack, solver, node)?;
    }
    Ok(())
}

/// Loads the gates of the nodes of a queue and of those below them that the solver lacks, the nearest first: so many nodes are
/// looked at. The queue is empty then. In a deep graph most cones are most of the graph, and a question would cost as much as
/// all of it. What some of the gates refute is refuted; what needs the others too is left.
pub fn load_nearest(
    rows: &[Row],
    queue: &mut Vec<u32>,
    solver: &mut Solver,
    nodes: usize,
) -> Result<(), AllocError>
    requires few { length rows.now < NODE_LIMIT }
    ensures { (v : ℕ → Bool) → Fits rows.now v → Holds solver.old.clauses v → Holds solver.new.clauses v }
{
    for place in 0..nodes {
        if place >= queue.len() {
            break;
        }
        let node = queue[place];
        visit(rows, queue, solver, node)?;
    }
    queue.clear();
    Ok(())
}

/// Whether two literals have one value, by at most so many conflicts for each of two questions.
pub fn equal(solver: &mut Solver, l: Lit, m: Lit, conflicts: u32) -> Result<Answer, AllocError>
    ensures same { IfOk result (λ a. a ≡ Answer.Refuted → (v : ℕ → Bool) → Holds solver.old.clauses v → lit_value v l ≡ lit_value v m) }
    ensures kept { (v : ℕ → Bool) → Holds solver.old.clauses v → Holds solver.new.clauses v }
{
    match solver.refute(&[l, m.not()], conflicts)? {
        Answer::Refuted => solver.refute(&[l.not(), m], conflicts),
        Answer::Model => Ok(Answer::Model),
        Answer::Undecided => Ok(Answer::Undecided),
    }
}
