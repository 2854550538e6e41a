//! What a pass works with beside the rows and the LUTs.

ghost use Rattle.std.specs.Prelude.{◌≡◌, ℕ, Bool, false, IfOk};
ghost use Rattle.syn_sat.specs.Holding.{Holds};

use std::alloc::{AllocError, Global};
use syn_lut_guesses::Guesses;
use syn_lutnet::{Lut, LutNet};
use syn_sat::Solver;

/// The limits of a pass.
#[derive(Clone, Copy, Debug, PartialEq, Eq)]
pub struct Limits {
    /// A question is asked over a window of about so many LUTs at most.
    pub nodes: u32,
    /// At most so many conflicts for each of its two halves.
    pub conflicts: u32,
}

/// The solver, the guesses, and room for the nodes of a question and for the values of sources.
#[derive(Debug, Drop)]
pub(crate) struct Tools {
    pub(crate) solver: Solver,
    pub(crate) guesses: Guesses,
    pub(crate) queue: Vec<u32>,
    pub(crate) values: Vec<bool>,
    pub(crate) source_count: u32,
    pub(crate) limits: Limits,
}

// The values of so many sources in the last model. The only error of this call and of those below is want of memory.
fn read_model(
    solver: &Solver,
    source_count: u32,
    values: &mut Vec<bool>,
) -> Result<(), AllocError> {
    values.clear();
    for source in 0..source_count {
        let node = source.saturating_add(1);
        values.push(solver.value(node).unwrap_or(false))?;
    }
    Ok(())
}

impl Tools {
    /// The tools for a net that takes so many rows, with no clauses.
    pub(crate) fn new(
        alloc: Global,
        net: &LutNet,
        rows: u32,
        limits: &Limits,
    ) -> Result<Tools, AllocError>
        ensures { IfOk result (λ t. (v : ℕ → Bool) → v 0 ≡ false → Holds t.solver.clauses v) }
    {
        let solver = Solver::new(alloc, rows)?;
        let guesses = Guesses::with_slack(alloc, net)?;
        Ok(Tools {
            solver,
            guesses,
            queue: Vec::new(alloc),
            values: Vec::new(alloc),
            source_count: net.source_count,
            limits: *limits,
        })
    }

    /// Tells the guesses of the last model.
    pub(crate) fn note(&mut self, luts: &[Lut]) -> Result<(), AllocError>
        ensures { self.new.solver ≡ self.old.solver }
    {
        read_model(&self.solver, self.source_count, &mut self.values)?;
        self.guesses.note(luts, self.values.as_slice())
    }
}
