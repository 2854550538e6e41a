//! Whether a LUT has the value of a signal.

ghost use Rattle.std.specs.Prelude.{◌≡◌, ◌+◌, ◌<◌, true, length, IfOk, OnOk};
ghost use Rattle.std.specs.List.{list_all};
ghost use Rattle.syn_rows.specs.declared.TheConstants.{NODE_LIMIT};
ghost use Rattle.syn_fraig.specs.Merging.{SameBy};
ghost use Rattle.syn_fraig.specs.Sweeping.{AreTrueBy};
ghost use Rattle.syn_hashed.specs.Growing.{Extends};
ghost use Rattle.syn_lutnet.specs.Data.{lut_data};
ghost use Rattle.syn_lut_rows.specs.LutLiterals.{AllThere, reads_below};
ghost use Rattle.syn_mfs.specs.Placing.{HasValue};

use crate::tools::Tools;
use std::alloc::AllocError;
use syn_fraig::{equal, load_nearest, refresh};
use syn_hashed::HashedRows;
use syn_lut_rows::lut_literal;
use syn_lutnet::Lut;
use syn_rows::{Lit, NODE_LIMIT, Row};
use syn_sat::Answer;

// So many ANDs of a window stand for one LUT.
const GATES: usize = 10;

// Whether two literals have one value, by some of the gates below them.
fn ask(rows: &[Row], tools: &mut Tools, l: Lit, m: Lit) -> Result<Answer, AllocError>
    requires few { length rows.now < NODE_LIMIT }
    requires clauses { AreTrueBy rows.now tools.old.solver.clauses }
    ensures same { IfOk result (λ a. a ≡ Answer.Refuted → SameBy rows.now l m) }
    ensures clauses { OnOk result (AreTrueBy rows.now tools.new.solver.clauses) }
{
    if l.0 == m.0 {
        return Ok(Answer::Refuted);
    }
    let nodes = (tools.limits.nodes as usize).saturating_mul(GATES);
    let conflicts = tools.limits.conflicts;
    refresh(rows, &mut tools.solver)?;
    tools.queue.push(l.node())?;
    tools.queue.push(m.node())?;
    load_nearest(rows, &mut tools.queue, &mut tools.solver, nodes)?;
    equal(&mut tools.solver, l, m, conflicts)
}

/// Whether a LUT has the value of a signal; its gates are put into the rows, unless there is no room. The only error is want of
/// memory.
pub(crate) fn ask_lut(
    hashed: &mut HashedRows,
    lits: &[Lit],
    tools: &mut Tools,
    lut: &Lut,
    signal: u32,
) -> Result<Answer, AllocError>
    requires few { length hashed.old.rows.items < NODE_LIMIT }
    requires inputs { list_all (reads_below (length lits.now)) lut.now.inputs.items ≡ true }
    requires signal { signal < length lits.now }
    requires there { AllThere hashed.old.rows.items lits.now }
    requires clauses { AreTrueBy hashed.old.rows.items tools.old.solver.clauses }
    ensures sources { hashed.new.source_count ≡ hashed.old.source_count }
    ensures grows { Extends hashed.old.rows.items hashed.new.rows.items }
    ensures few { length hashed.new.rows.items < NODE_LIMIT }
    ensures value { IfOk result (λ a. a ≡ Answer.Refuted → HasValue hashed.new.rows.items lits.now (lut_data lut.now) signal) }
    ensures clauses { OnOk result (AreTrueBy hashed.new.rows.items tools.new.solver.clauses) }
{
    let gates = lut.gates() as usize;
    if hashed.rows.len() + gates >= NODE_LIMIT {
        return Ok(Answer::Undecided);
    }
    let lit = lut_literal(hashed, lits, lut)?;
    ask(hashed.rows.as_slice(), tools, lit, lits[signal as usize])
}
