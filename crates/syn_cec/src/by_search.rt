//! Comparison by a sweep, and a search for each pair of observed literals.

ghost use Rattle.std.specs.Prelude.{◌≡◌, ◌+◌, ◌<◌, length, IfOk, OnOk};
ghost use Rattle.syn_rows.specs.declared.TheConstants.{NODE_LIMIT};
ghost use Rattle.syn_fraig.specs.Merging.{SameBy};
ghost use Rattle.syn_fraig.specs.Sweeping.{AreTrueBy};
ghost use Rattle.syn_cec.specs.Both.{ObservesBoth};
ghost use Rattle.syn_cec.specs.Compared.{IsCompared};
ghost use Rattle.syn_cec.specs.Verdicts.{IsNoProof, IsVerdict};

use crate::Equality;
use crate::differences::difference;
use crate::joint::{have_room, joint};
use std::alloc::{AllocError, Global};
use syn_fraig::{Limits, fraig, load_cones};
use syn_graph::Graph;
use syn_rows::{Lit, Row};
use syn_sat::{Answer, Solver};

// Whether two literals have one value: the same ones have.
fn ask(
    rows: &[Row],
    stack: &mut Vec<u32>,
    solver: &mut Solver,
    l: Lit,
    m: Lit,
    conflicts: u32,
) -> Result<Answer, AllocError>
    requires few { length rows.now < NODE_LIMIT }
    requires clauses { AreTrueBy rows.now solver.old.clauses }
    ensures same { IfOk result (λ a. a ≡ Answer.Refuted → SameBy rows.now l m) }
    ensures clauses { OnOk result (AreTrueBy rows.now solver.new.clauses) }
{
    if l.0 == m.0 {
        return Ok(Answer::Refuted);
    }
    stack.push(l.node())?;
    stack.push(m.node())?;
    load_cones(rows, stack, solver)?;
    syn_fraig::equal(solver, l, m, conflicts)
}

// The values of so many sources in the last model.
fn model(alloc: Global, solver: &Solver, sources: u32) -> Result<Vec<bool>, AllocError>
    ensures { IfOk result (λ v. length v.items ≡ sources) }
{
    let mut values = Vec::new(alloc);
    for source in 0..sources {
        let node = source.saturating_add(1);
        values.push(solver.value(node).unwrap_or(false))?;
    }
    Ok(values)
}

// What one pair of observed literals comes to.
#[derive(Debug, Drop)]
enum Verdict {
    // They have one value.
    Same,
    // The graphs differ at a place for these values of the sources.
    Differs(usize, Vec<bool>),
    // It was not found out.
    Open,
}

// What a pair comes to that a search has values for.
fn tested(
    alloc: Global,
    first: &Graph,
    second: &Graph,
    solver: &Solver,
) -> Result<Verdict, AllocError>
    requires { length second.now.observed ≡ length first.now.observed }
    ensures { IfOk result (IsNoProof first.now second.now) }
{
    let values = model(alloc, solver, first.source_count)?;
    match difference(alloc, first, second, values.as_slice())? {
        Some(signal) => Ok(Verdict::Differs(signal, values)),
        None => Ok(Verdict::Open),
    }
}

// What a pair of literals comes to.
fn compared_pair(
    alloc: Global,
    first: &Graph,
    second: &Graph,
    rows: &[Row],
    stack: &mut Vec<u32>,
    solver: &mut Solver,
    pair: (Lit, Lit),
    conflicts: u32,
) -> Result<Verdict, AllocError>
    requires observed { length second.now.observed ≡ length first.now.observed }
    requires few { length rows.now < NODE_LIMIT }
    requires clauses { AreTrueBy rows.now solver.old.clauses }
    ensures verdict { IfOk result (IsVerdict first.now second.now rows.now pair.0 pair.1) }
    ensures clauses { OnOk result (AreTrueBy rows.now solver.new.clauses) }
{
    match ask(rows, stack, solver, pair.0, pair.1, conflicts)? {
        Answer::Refuted => Ok(Verdict::Same),
        Answer::Model => tested(alloc, first, second, solver),
        Answer::Undecided => Ok(Verdict::Open),
    }
}

// What graphs come to of which so many places were left, and the others are the same.
fn left_open(signals: usize) -> Equality
    ensures none { signals ≡ 0 → result ≡ Equality.Equivalent }
    ensures some { 0 < signals → result ≡ Equality.Undecided signals }
{
    if signals == 0 {
        Equality::Equivalent
    } else {
        Equality::Undecided { signals }
    }
}

// Compares the pairs of a graph's observed literals: those of the first graph and, behind them, those of the second.
fn compared_pairs(
    alloc: Global,
    first: &Graph,
    second: &Graph,
    swept: &Graph,
    solver: &mut Solver,
    conflicts: u32,
) -> Result<Equality, AllocError>
    requires many { 12 < first.now.source_count }
    requires observed { length second.now.observed ≡ length first.now.observed }
    requires pairs { length swept.now.observed ≡ length first.now.observed + length second.now.observed }
    requires values { ObservesBoth first.now second.now swept.now }
    requires clauses { AreTrueBy swept.now.rows solver.old.clauses }
    ensures { IfOk result (IsCompared first.now second.now) }
{
    let rows = swept.rows.as_slice();
    let lits = swept.observed.as_slice();
    let count = first.observed.as_slice().len();
    let mut stack = Vec::new(alloc);
    let mut open: usize = 0;
    for place in 0..count {
        let pair = (lits[place], lits[count + place]);
        match compared_pair(
            alloc, first, second, rows, &mut stack, solver, pair, conflicts,
        )? {
            Verdict::Same => {}
            Verdict::Differs(signal, values) => {
                return Ok(Equality::Different { signal, values });
            }
            Verdict::Open => open += 1,
        }
    }
    Ok(left_open(open))
}

/// How two graphs compare, by at most so many conflicts for a question of the sweep, and a hundred times as many for a pair.
pub(crate) fn compared_by_search(
    alloc: Global,
    first: &Graph,
    second: &Graph,
    conflicts: u32,
) -> Result<Equality, AllocError>
    requires many { 12 < first.now.source_count }
    requires sources { second.now.source_count ≡ first.now.source_count }
    requires observed { length second.now.observed ≡ length first.now.observed }
    ensures { IfOk result (IsCompared first.now second.now) }
{
    if !have_room(first, second) {
        return Ok(left_open(first.observed.as_slice().len()));
    }
    let limits = Limits {
        conflicts,
        levels: false,
    };
    let both = joint(alloc, first, second)?;
    let swept = fraig(alloc, &both, &limits)?;
    drop(both);
    let mut solver = Solver::new(alloc, swept.rows.as_slice().len() as u32)?;
    let most = conflicts.saturating_mul(100);
    compared_pairs(alloc, first, second, &swept, &mut solver, most)
}
