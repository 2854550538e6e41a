//! The rows of a graph made again, with conjunctions that share pairs.

ghost use Rattle.std.specs.Prelude.{◌≡◌, ◌+◌, ◌<◌, length, true, IfOk};
ghost use Rattle.syn_rows.specs.declared.Row.{Row};
ghost use Rattle.syn_rows.specs.declared.TheConstants.{NODE_LIMIT};
ghost use Rattle.syn_rows.specs.Joining.{lit_of};
ghost use Rattle.syn_rows.specs.Rows.{row_at};
ghost use Rattle.syn_hashed.specs.Growing.{Extends};
ghost use Rattle.syn_hashed.specs.Hashed.{IsHashed};
ghost use Rattle.syn_graph.specs.Relations.{Follows, SameFunction};
ghost use Rattle.syn_remaking.specs.Remaking.{AllStand, SourcesStay, Stands};

use crate::conjunctions::Conjunctions;
use crate::joining::join_all;
use crate::joins::Joins;
use crate::leaves::{inner_nodes, leaves};
use crate::lists::at;
use crate::sharing::shared;
use std::alloc::{AllocError, Global};
use syn_graph::Graph;
use syn_hashed::HashedRows;
use syn_remaking::{all_moved, fan_ins, joined, remade_graph};
use syn_rows::{Lit, Row};

// What tells how conjunctions are joined. Nothing is promised of it.
#[derive(Drop)]
struct Plan {
    // The nodes that another conjunction takes in.
    inner: Vec<bool>,
    conjunctions: Conjunctions,
    joins: Joins,
}

impl Plan {
    // The plan for a graph. The only error of the calls below is want of memory or of a node number.
    fn of(alloc: Global, graph: &Graph) -> Result<Plan, AllocError> {
        let inner = inner_nodes(alloc, graph)?;
        let conjunctions = shared(alloc, graph, inner.as_slice())?;
        let joins = Joins::new(alloc);
        Ok(Plan {
            inner,
            conjunctions,
            joins,
        })
    }
}

// The literal of an AND: that of its leaves.
fn conjoined(
    alloc: Global,
    hashed: &mut HashedRows,
    plan: &mut Plan,
    rows: &[Row],
    literals: &[Lit],
    node: u32,
    a: Lit,
    b: Lit,
) -> Result<Lit, AllocError>
    requires hashed { IsHashed hashed.old.source_count rows.now }
    requires row { row_at rows.now node ≡ Row.And a b }
    requires node { node ≡ length literals.now }
    requires standing { AllStand rows.now hashed.old.rows.items literals.now }
    ensures sources { hashed.new.source_count ≡ hashed.old.source_count }
    ensures grows { Extends hashed.old.rows.items hashed.new.rows.items }
    ensures few { length hashed.old.rows.items < NODE_LIMIT → length hashed.new.rows.items < NODE_LIMIT }
    ensures stands { IfOk result (Stands rows.now hashed.new.rows.items node) }
{
    let leaves = leaves(alloc, rows, plan.inner.as_slice(), node, a, b)?;
    let mut lits = all_moved(alloc, literals, leaves.as_slice())?;
    let steps = plan.conjunctions.steps(node as usize);
    join_all(hashed, &mut plan.joins, steps, lits.as_mut_slice())
}

// The literal of one node: a source's own, or that of its AND, which is joined again where no other conjunction takes it in.
fn made(
    alloc: Global,
    hashed: &mut HashedRows,
    plan: &mut Plan,
    rows: &[Row],
    literals: &[Lit],
    node: u32,
) -> Result<Lit, AllocError>
    requires hashed { IsHashed hashed.old.source_count rows.now }
    requires limit { length rows.now < NODE_LIMIT }
    requires inside { node < length rows.now }
    requires node { node ≡ length literals.now }
    requires standing { AllStand rows.now hashed.old.rows.items literals.now }
    ensures sources { hashed.new.source_count ≡ hashed.old.source_count }
    ensures grows { Extends hashed.old.rows.items hashed.new.rows.items }
    ensures few { length hashed.old.rows.items < NODE_LIMIT → length hashed.new.rows.items < NODE_LIMIT }
    ensures stands { IfOk result (Stands rows.now hashed.new.rows.items node) }
    ensures source { IfOk result (λ l. node < hashed.old.source_count + 1 → l ≡ lit_of node) }
{
    let is_inner = at(plan.inner.as_slice(), node as usize, false);
    match fan_ins(rows[node as usize]) {
        None => Ok(Lit::of(node, false)),
        Some((a, b)) if is_inner => joined(hashed, rows, literals, node, a, b),
        Some((a, b)) => conjoined(alloc, hashed, plan, rows, literals, node, a, b),
    }
}

// The literals of all nodes.
fn remade(
    alloc: Global,
    hashed: &mut HashedRows,
    plan: &mut Plan,
    rows: &[Row],
) -> Result<Vec<Lit>, AllocError>
    requires hashed { IsHashed hashed.old.source_count rows.now }
    requires limit { length rows.now < NODE_LIMIT }
    requires few { length hashed.old.rows.items < NODE_LIMIT }
    ensures sources { hashed.new.source_count ≡ hashed.old.source_count }
    ensures few { length hashed.new.rows.items < NODE_LIMIT }
    ensures all { IfOk result (λ v. length v.items ≡ length rows.now) }
    ensures standing { IfOk result (λ v. AllStand rows.now hashed.new.rows.items v.items) }
    ensures stay { IfOk result (λ v. SourcesStay hashed.old.source_count v.items) }
{
    let mut literals = Vec::with_capacity(alloc, rows.len())?;
    for node in 0..rows.len() as u32 {
        let before = literals.as_slice();
        let literal = made(alloc, hashed, plan, rows, before, node)?;
        literals.push(literal)?;
    }
    Ok(literals)
}

// The literals of all nodes of a graph over new rows, which have its sources alone at first.
fn literals_of(
    alloc: Global,
    hashed: &mut HashedRows,
    graph: &Graph,
) -> Result<Vec<Lit>, AllocError>
    requires sources { hashed.old.source_count ≡ graph.now.source_count }
    requires few { length hashed.old.rows.items < NODE_LIMIT }
    ensures sources { hashed.new.source_count ≡ graph.now.source_count }
    ensures few { length hashed.new.rows.items < NODE_LIMIT }
    ensures all { IfOk result (λ v. length v.items ≡ length graph.now.rows) }
    ensures standing { IfOk result (λ v. AllStand graph.now.rows hashed.new.rows.items v.items) }
    ensures stay { IfOk result (λ v. SourcesStay graph.now.source_count v.items) }
{
    let mut plan = Plan::of(alloc, graph)?;
    remade(alloc, hashed, &mut plan, graph.rows.as_slice())
}

// The graph made again. Nothing is said of the number of ANDs.
fn remade_shared(alloc: Global, graph: &Graph) -> Result<Graph, AllocError>
    ensures { IfOk result (SameFunction graph.now) }
{
    let mut hashed = HashedRows::new(alloc, graph.source_count as usize)?;
    let literals = literals_of(alloc, &mut hashed, graph)?;
    remade_graph(alloc, graph, hashed, literals.as_slice())
}

/// The graph with shared pairs: conjunctions are gathered as balancing does; the pair of literals that most conjunctions hold
/// becomes one AND in all of them, again and again, and what is left of each is joined by level: the same function, and no more
/// ANDs. The graph itself is given back (copied) where the new one has no fewer. Nothing is promised of levels. The only error
/// is want of memory.
pub fn share_pairs(alloc: Global, graph: &Graph) -> Result<Graph, AllocError>
    ensures follows { IfOk result (Follows graph.now 0) }
{
    let new = remade_shared(alloc, graph)?;
    if new.rows.as_slice().len() < graph.rows.as_slice().len() {
        return Ok(new);
    }
    drop(new);
    graph.copy(alloc)
}
