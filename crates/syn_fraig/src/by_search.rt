//! The sweep by a search: nodes in order, each merged into an earlier one that has its values, where a search shows it.

ghost use Rattle.std.specs.Prelude.{◌≡◌, ◌<◌, ◌+◌, ℕ, List, length, OnOk};
ghost use Rattle.syn_rows.specs.declared.Row.{Row};
ghost use Rattle.syn_rows.specs.declared.TheConstants.{NODE_LIMIT};
ghost use Rattle.syn_rows.specs.Joining.{lit_of};
ghost use Rattle.syn_rows.specs.Rows.{node_of};
ghost use Rattle.syn_fraig.specs.Merging.{FitsAlso, IsMerged, SameBy};
ghost use Rattle.syn_fraig.specs.Sweeping.{AreTrueBy};

use crate::Limits;
use crate::classes::Classes;
use crate::depths::Depths;
use crate::merging::{copy_gate, merge, merge_same, reduce, standing};
use crate::pairs::Pairs;
use crate::questions::{equal, load_cones};
use std::alloc::{AllocError, Global};
use syn_rows::{Lit, Row};
use syn_sat::{Answer, Solver, at, put};

// What a sweep works with, of which nothing is promised.
#[derive(Debug, Drop)]
struct Work {
    stack: Vec<u32>,
    classes: Classes,
    pairs: Pairs,
    // By node: whether it, or one below it, was given up.
    given_up: Vec<bool>,
    depths: Depths,
    // At most so many conflicts for each question.
    conflicts: u32,
}

impl Work {
    fn new(alloc: Global, rows: &[Row], count: u32, limits: &Limits) -> Result<Work, AllocError>
        requires { length rows.now < NODE_LIMIT }
    {
        Ok(Work {
            stack: Vec::new(alloc),
            classes: Classes::new(alloc, rows, count)?,
            pairs: Pairs::new(alloc, rows.len())?,
            given_up: vec![in alloc; false; rows.len()]?,
            depths: Depths::new(alloc, rows, limits.levels)?,
            conflicts: limits.conflicts,
        })
    }

    fn is_given_up(&self, lit: Lit) -> bool {
        at(self.given_up.as_slice(), lit.node() as usize, false)
    }

    // Takes a node's row over: its level, and whether a node below it was given up.
    fn enter(&mut self, now: &[Row], node: u32) {
        self.depths.enter(now, node);
        let given_up = match at(now, node as usize, Row::Free) {
            Row::And(a, b) => self.is_given_up(a) || self.is_given_up(b),
            Row::Alias(a) => self.is_given_up(a),
            _ => false,
        };
        put(self.given_up.as_mut_slice(), node as usize, given_up);
    }

    // The conflicts for a question: a quarter where a node was given up.
    fn conflicts(&self, node: u32, lit: Lit) -> u32 {
        if self.is_given_up(lit) || at(self.given_up.as_slice(), node as usize, false) {
            self.conflicts / 4
        } else {
            self.conflicts
        }
    }
}

// Merges a node where the answer says so.
fn merge_if(answer: Answer, rows: &[Row], now: &mut [Row], node: u32, lit: Lit)
    requires there { node < length now.old }
    requires below { node_of lit < node }
    requires same { answer ≡ Answer.Refuted → SameBy rows.now (lit_of node) lit }
    ensures { (count : ℕ) → count < node → IsMerged count rows.now now.old → IsMerged count rows.now now.new }
{
    match answer {
        Answer::Refuted => merge(rows, now, node, lit),
        Answer::Model | Answer::Undecided => {}
    }
}

// Empties a solver that has grown large.
fn refresh(solver: &mut Solver) -> Result<(), AllocError>
    ensures { (rows : List Row) → AreTrueBy rows solver.old.clauses → AreTrueBy rows solver.new.clauses }
{
    if solver.is_large() {
        solver.clear()
    } else {
        Ok(())
    }
}

// Asks whether a node has the value of an earlier literal, and merges it if so.
fn ask(
    count: u32,
    rows: &[Row],
    now: &mut [Row],
    gates: &[Row],
    solver: &mut Solver,
    work: &mut Work,
    node: u32,
    lit: Lit,
) -> Result<Answer, AllocError>
    requires merged { IsMerged count rows.now now.old }
    requires fits { FitsAlso rows.now gates.now }
    requires clauses { AreTrueBy rows.now solver.old.clauses }
    requires few { length gates.now < NODE_LIMIT }
    requires gate { count < node }
    requires there { node < length now.old }
    requires low { node < NODE_LIMIT }
    requires below { node_of lit < node }
    ensures merged { OnOk result (IsMerged count rows.now now.new) }
    ensures clauses { OnOk result (AreTrueBy rows.now solver.new.clauses) }
{
    let _ = count;
    refresh(solver)?;
    work.stack.push(node)?;
    work.stack.push(lit.node())?;
    load_cones(gates, &mut work.stack, solver)?;
    let conflicts = work.conflicts(node, lit);
    let answer = equal(solver, Lit::of(node, false), lit, conflicts)?;
    merge_if(answer, rows, now, node, lit);
    Ok(answer)
}

// Asks about the node's next candidate: whether there may be another.
fn turn(
    count: u32,
    rows: &[Row],
    now: &mut [Row],
    gates: &[Row],
    solver: &mut Solver,
    work: &mut Work,
    node: u32,
) -> Result<bool, AllocError>
    requires merged { IsMerged count rows.now now.old }
    requires fits { FitsAlso rows.now gates.now }
    requires clauses { AreTrueBy rows.now solver.old.clauses }
    requires few { length gates.now < NODE_LIMIT }
    requires gate { count < node }
    requires there { node < length now.old }
    requires low { node < NODE_LIMIT }
    ensures merged { OnOk result (IsMerged count rows.now now.new) }
    ensures clauses { OnOk result (AreTrueBy rows.now solver.new.clauses) }
{
    let Some(first) = work.classes.candidate(node) else {
        return Ok(false);
    };
    if !matches!(at(now, node as usize, Row::Free), Row::And(_, _)) {
        return Ok(false);
    }
    if first.node() as usize >= now.len() {
        return Ok(false);
    }
    let lit = standing(now, first);
    if lit.node() >= node {
        return Ok(false);
    }
    if !work.depths.is_low(node, lit) {
        work.classes.lead(node);
        return Ok(false);
    }
    match ask(count, rows, now, gates, solver, work, node, lit)? {
        Answer::Model => {
            work.classes.refine(rows, solver, node);
            Ok(true)
        }
        Answer::Undecided => {
            put(work.given_up.as_mut_slice(), node as usize, true);
            Ok(false)
        }
        Answer::Refuted => Ok(false),
    }
}

// One node.
fn step(
    count: u32,
    rows: &[Row],
    now: &mut [Row],
    gates: &mut [Row],
    solver: &mut Solver,
    work: &mut Work,
    node: u32,
) -> Result<(), AllocError>
    requires merged { IsMerged count rows.now now.old }
    requires fits { FitsAlso rows.now gates.old }
    requires clauses { AreTrueBy rows.now solver.old.clauses }
    requires few { length gates.old < NODE_LIMIT }
    requires gate { count < node }
    requires there { node < length now.old }
    requires low { node < NODE_LIMIT }
    ensures merged { OnOk result (IsMerged count rows.now now.new) }
    ensures fits { OnOk result (FitsAlso rows.now gates.new) }
    ensures clauses { OnOk result (AreTrueBy rows.now solver.new.clauses) }
{
    reduce(count, rows, now, node);
    copy_gate(rows, now, gates, node);
    let other = work.pairs.same(now, node);
    merge_same(count, rows, now, node, other);
    work.enter(now, node);
    for _ in 0..1000 {
        let more = turn(count, rows, now, gates, solver, work, node)?;
        if !more {
            break;
        }
    }
    Ok(())
}

// All nodes in order.
fn sweep_all(
    count: u32,
    rows: &[Row],
    now: &mut [Row],
    gates: &mut [Row],
    solver: &mut Solver,
    work: &mut Work,
) -> Result<(), AllocError>
    requires merged { IsMerged count rows.now now.old }
    requires fits { FitsAlso rows.now gates.old }
    requires clauses { AreTrueBy rows.now solver.old.clauses }
    requires long { length gates.old ≡ length rows.now }
    requires few { length rows.now < NODE_LIMIT }
    requires sources { count < length rows.now }
    ensures { OnOk result (IsMerged count rows.now now.new) }
{
    for node in count + 1..rows.len() as u32 {
        step(count, rows, now, gates, solver, work, node)?;
    }
    Ok(())
}

/// Sweeps the rows of a graph. The only error is want of memory.
pub(crate) fn sweep_by_search(
    alloc: Global,
    count: u32,
    rows: &[Row],
    now: &mut [Row],
    limits: &Limits,
) -> Result<(), AllocError>
    requires merged { IsMerged count rows.now now.old }
    requires few { length rows.now < NODE_LIMIT }
    requires sources { count < length rows.now }
    ensures { OnOk result (IsMerged count rows.now now.new) }
{
    let mut gates = Vec::from_slice(alloc, rows)?;
    let mut solver = Solver::new(alloc, rows.len() as u32)?;
    let mut work = Work::new(alloc, rows, count, limits)?;
    sweep_all(
        count,
        rows,
        now,
        gates.as_mut_slice(),
        &mut solver,
        &mut work,
    )
}
