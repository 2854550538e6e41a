//! All nodes made again, each replaced where another literal is shown to have its value.

ghost use Rattle.std.specs.Prelude.{◌≡◌, ◌+◌, ◌<◌, length, true, IfOk, OnOk};
ghost use Rattle.syn_rows.specs.declared.Row.{Row};
ghost use Rattle.syn_rows.specs.declared.TheConstants.{NODE_LIMIT};
ghost use Rattle.syn_rows.specs.Joining.{lit_of};
ghost use Rattle.syn_rows.specs.Rows.{row_at};
ghost use Rattle.syn_hashed.specs.Growing.{Extends};
ghost use Rattle.syn_hashed.specs.Hashed.{IsHashed};
ghost use Rattle.syn_graph.specs.Relations.{Follows, SameFunction};
ghost use Rattle.syn_levels.specs.Levels.{IsNoDeeper};
ghost use Rattle.syn_remaking.specs.Remaking.{AllStand, SourcesStay, Stands};
ghost use Rattle.syn_fraig.specs.Sweeping.{AreTrueBy};

use crate::attempts::improve;
use crate::tools::Tools;
use std::alloc::{AllocError, Global};
use syn_graph::Graph;
use syn_hashed::HashedRows;
use syn_levels::is_no_deeper;
use syn_remaking::{fan_ins, joined, moved, remade_graph};
use syn_rows::{Lit, Row};
use syn_sat::Solver;

/// How far resubstitution goes.
#[derive(Clone, Copy, Debug)]
pub struct Limits {
    /// The most ANDs that take the place of one: none (merging alone), 1 or 2.
    pub gates: u32,
    /// At most so many conflicts of a search for each question.
    pub conflicts: u32,
    /// Whether no observed signal may get deeper.
    pub levels: bool,
}

// The literal of an AND, or another of its value.
fn improved(
    hashed: &mut HashedRows,
    solver: &mut Solver,
    tools: &mut Tools,
    rows: &[Row],
    literals: &[Lit],
    node: u32,
    a: Lit,
    b: Lit,
) -> Result<Lit, AllocError>
    requires hashed { IsHashed hashed.old.source_count rows.now }
    requires few { length hashed.old.rows.items < NODE_LIMIT }
    requires row { row_at rows.now node ≡ Row.And a b }
    requires node { node ≡ length literals.now }
    requires standing { AllStand rows.now hashed.old.rows.items literals.now }
    requires clauses { AreTrueBy hashed.old.rows.items solver.old.clauses }
    ensures sources { hashed.new.source_count ≡ hashed.old.source_count }
    ensures grows { Extends hashed.old.rows.items hashed.new.rows.items }
    ensures few { length hashed.new.rows.items < NODE_LIMIT }
    ensures stands { IfOk result (Stands rows.now hashed.new.rows.items node) }
    ensures clauses { OnOk result (AreTrueBy hashed.new.rows.items solver.new.clauses) }
{
    let literal = joined(hashed, rows, literals, node, a, b)?;
    let below = (moved(literals, a), moved(literals, b));
    let is_open = tools.made(hashed.rows.as_slice(), node, below, literal)?;
    if !is_open {
        return Ok(literal);
    }
    let other = improve(hashed, solver, tools, literal)?;
    tools.replaced(hashed.rows.as_slice(), literal, other)?;
    Ok(other)
}

// The literal of one node: a source's own, or that of its AND.
fn made(
    hashed: &mut HashedRows,
    solver: &mut Solver,
    tools: &mut Tools,
    rows: &[Row],
    literals: &[Lit],
    node: u32,
) -> Result<Lit, AllocError>
    requires hashed { IsHashed hashed.old.source_count rows.now }
    requires limit { length rows.now < NODE_LIMIT }
    requires few { length hashed.old.rows.items < NODE_LIMIT }
    requires inside { node < length rows.now }
    requires node { node ≡ length literals.now }
    requires standing { AllStand rows.now hashed.old.rows.items literals.now }
    requires clauses { AreTrueBy hashed.old.rows.items solver.old.clauses }
    ensures sources { hashed.new.source_count ≡ hashed.old.source_count }
    ensures grows { Extends hashed.old.rows.items hashed.new.rows.items }
    ensures few { length hashed.new.rows.items < NODE_LIMIT }
    ensures stands { IfOk result (Stands rows.now hashed.new.rows.items node) }
    ensures clauses { OnOk result (AreTrueBy hashed.new.rows.items solver.new.clauses) }
    ensures source { IfOk result (λ l. node < hashed.old.source_count + 1 → l ≡ lit_of node) }
{
    match fan_ins(rows[node as usize]) {
        None => Ok(Lit::of(node, false)),
        Some((a, b)) => improved(hashed, solver, tools, rows, literals, node, a, b),
    }
}

// The literals of all nodes.
fn remade(
    alloc: Global,
    hashed: &mut HashedRows,
    solver: &mut Solver,
    tools: &mut Tools,
    rows: &[Row],
) -> Result<Vec<Lit>, AllocError>
    requires hashed { IsHashed hashed.old.source_count rows.now }
    requires limit { length rows.now < NODE_LIMIT }
    requires few { length hashed.old.rows.items < NODE_LIMIT }
    requires clauses { AreTrueBy hashed.old.rows.items solver.old.clauses }
    ensures sources { hashed.new.source_count ≡ hashed.old.source_count }
    ensures few { length hashed.new.rows.items < NODE_LIMIT }
    ensures all { IfOk result (λ v. length v.items ≡ length rows.now) }
    ensures standing { IfOk result (λ v. AllStand rows.now hashed.new.rows.items v.items) }
    ensures stay { IfOk result (λ v. SourcesStay hashed.old.source_count v.items) }
{
    let mut literals = Vec::with_capacity(alloc, rows.len())?;
    for node in 0..rows.len() as u32 {
        let before = literals.as_slice();
        let literal = made(hashed, solver, tools, rows, before, node)?;
        literals.push(literal)?;
    }
    Ok(literals)
}

// The literals of all nodes of a graph over new rows, which have its sources alone at first.
fn literals_of(
    alloc: Global,
    hashed: &mut HashedRows,
    graph: &Graph,
    limits: &Limits,
) -> Result<Vec<Lit>, AllocError>
    requires sources { hashed.old.source_count ≡ graph.now.source_count }
    requires few { length hashed.old.rows.items < NODE_LIMIT }
    ensures sources { hashed.new.source_count ≡ graph.now.source_count }
    ensures few { length hashed.new.rows.items < NODE_LIMIT }
    ensures all { IfOk result (λ v. length v.items ≡ length graph.now.rows) }
    ensures standing { IfOk result (λ v. AllStand graph.now.rows hashed.new.rows.items v.items) }
    ensures stay { IfOk result (λ v. SourcesStay graph.now.source_count v.items) }
{
    let rows = graph.rows.as_slice();
    let mut solver = Solver::new(alloc, rows.len() as u32)?;
    let mut tools = Tools::new(alloc, graph, limits)?;
    tools.begin(hashed.rows.as_slice())?;
    remade(alloc, hashed, &mut solver, &mut tools, rows)
}

// The graph made again. Nothing is said of the number of ANDs.
fn resubstituted(alloc: Global, graph: &Graph, limits: &Limits) -> Result<Graph, AllocError>
    ensures { IfOk result (SameFunction graph.now) }
{
    let mut hashed = HashedRows::new(alloc, graph.source_count as usize)?;
    let literals = literals_of(alloc, &mut hashed, graph, limits)?;
    remade_graph(alloc, graph, hashed, literals.as_slice())
}

// Whether a graph may take another's place: it has fewer ANDs, and is no deeper where that is asked.
fn is_better(alloc: Global, old: &Graph, new: &Graph, levels: bool) -> Result<bool, AllocError>
    ensures fewer { IfOk result (λ yes. yes ≡ true → length new.now.rows < length old.now.rows) }
    ensures levels { IfOk result (λ yes. yes ≡ true → levels ≡ true → IsNoDeeper old.now new.now) }
{
    if new.rows.as_slice().len() >= old.rows.as_slice().len() {
        return Ok(false);
    }
    if !levels {
        return Ok(true);
    }
    is_no_deeper(alloc, old, new)
}

/// The graph with ANDs replaced by literals of the same value for all values of the sources: older ones, or ANDs of others,
/// where a search within the limits shows it: the same function, and no more ANDs; no observed signal is deeper where that is
/// asked. The only error is want of memory.
pub fn sresub(alloc: Global, graph: &Graph, limits: &Limits) -> Result<Graph, AllocError>
    ensures follows { IfOk result (Follows graph.now 0) }
    ensures levels { limits.now.levels ≡ true → IfOk result (IsNoDeeper graph.now) }
{
    let new = resubstituted(alloc, graph, limits)?;
    let is_better = is_better(alloc, graph, &new, limits.levels)?;
    if is_better {
        return Ok(new);
    }
    drop(new);
    graph.copy(alloc)
}
