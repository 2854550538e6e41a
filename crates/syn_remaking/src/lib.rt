//! Graphs made again over rows that grow: which literals of the new rows stand for the old nodes, and the graph of the new rows
//! once all nodes have one.
#![tactic(auto)]

ghost use Rattle.std.specs.Prelude.{◌≡◌, ◌+◌, ◌<◌, false, length, map, slice_index_or, IfNone, IfOk, IfSome};
ghost use Rattle.syn_rows.specs.declared.Row.{Row};
ghost use Rattle.syn_rows.specs.declared.TheConstants.{NODE_LIMIT};
ghost use Rattle.syn_rows.specs.Joining.{constant};
ghost use Rattle.syn_rows.specs.Reach.{is_and};
ghost use Rattle.syn_rows.specs.Rows.{row_at};
ghost use Rattle.syn_hashed.specs.Growing.{Extends};
ghost use Rattle.syn_hashed.specs.Hashed.{IsHashed};
ghost use Rattle.syn_graph.specs.Relations.{SameFunction};
ghost use Rattle.syn_remaking.specs.Remaking.{AllStand, SourcesStay, Stands, moved};

use std::alloc::{AllocError, Global};
use syn_graph::{Graph, finish};
use syn_hashed::HashedRows;
use syn_rows::{FALSE, Lit, NODE_LIMIT, Row};

// The literal at a place, the constant 0 past the end.
fn literal_at(literals: &[Lit], index: usize) -> Lit
    ensures { result ≡ slice_index_or literals.now index constant }
{
    if index < literals.len() {
        literals[index]
    } else {
        FALSE
    }
}

/// The literal that stands for an old one, where the nodes' are these.
pub fn moved(literals: &[Lit], lit: Lit) -> Lit
    ensures { result ≡ moved literals.now lit }
{
    let plain = literal_at(literals, lit.node() as usize);
    if lit.complemented() {
        plain.not()
    } else {
        plain
    }
}

/// The literals that stand for old ones. The only error is want of memory.
pub fn all_moved(alloc: Global, literals: &[Lit], lits: &[Lit]) -> Result<Vec<Lit>, AllocError>
    ensures { IfOk result (λ v. v.items ≡ map (moved literals.now) lits.now) }
{
    let mut found = Vec::with_capacity(alloc, lits.len())?;
    for lit in lits {
        found.push(moved(literals, *lit))?;
    }
    Ok(found)
}

/// The fan-ins of an AND.
pub fn fan_ins(row: Row) -> Option<(Lit, Lit)>
    ensures some { IfSome result (λ both. row ≡ Row.And both.0 both.1) }
    ensures none { IfNone result (is_and row ≡ false) }
{
    match row {
        Row::And(a, b) => Some((a, b)),
        Row::Free | Row::Source | Row::Alias(_) => None,
    }
}

/// The literal of an AND, the next of the old nodes. The only error is want of memory or of a node number.
pub fn joined(
    hashed: &mut HashedRows,
    rows: &[Row],
    literals: &[Lit],
    node: u32,
    a: Lit,
    b: Lit,
) -> Result<Lit, AllocError>
    requires hashed { IsHashed hashed.old.source_count rows.now }
    requires row { row_at rows.now node ≡ Row.And a b }
    requires node { node ≡ length literals.now }
    requires standing { AllStand rows.now hashed.old.rows.items literals.now }
    ensures sources { hashed.new.source_count ≡ hashed.old.source_count }
    ensures grows { Extends hashed.old.rows.items hashed.new.rows.items }
    ensures few { length hashed.old.rows.items < NODE_LIMIT → length hashed.new.rows.items < NODE_LIMIT }
    ensures stands { IfOk result (Stands rows.now hashed.new.rows.items node) }
{
    let first = moved(literals, a);
    let second = moved(literals, b);
    if hashed.rows.len() + 1 < NODE_LIMIT {
        hashed.and(first, second)
    } else {
        Err(AllocError)
    }
}

/// The graph of rows in which a literal stands for each of a graph's nodes: the same function. Nothing is said of the number
/// of ANDs. The only error is want of memory.
pub fn remade_graph(
    alloc: Global,
    graph: &Graph,
    hashed: HashedRows,
    literals: &[Lit],
) -> Result<Graph, AllocError>
    requires sources { hashed.source_count ≡ graph.now.source_count }
    requires few { length hashed.rows.items < NODE_LIMIT }
    requires all { length literals.now ≡ length graph.now.rows }
    requires standing { AllStand graph.now.rows hashed.rows.items literals.now }
    requires stay { SourcesStay graph.now.source_count literals.now }
    ensures { IfOk result (SameFunction graph.now) }
{
    let observed = all_moved(alloc, literals, graph.observed.as_slice())?;
    finish(alloc, hashed, observed.as_slice())
}
