//! A graph's sources in another order.

ghost use Rattle.std.specs.Prelude.{◌≡◌, ◌+◌, ◌^◌, ◌<◌, suc, All, Bool, List, length, map, IfOk, true};
ghost use Rattle.syn_rows.specs.declared.TheConstants.{NODE_LIMIT};
ghost use Rattle.syn_rows.specs.Rows.{node_of};
ghost use Rattle.syn_rows.specs.Values.{rows_function};
ghost use Rattle.syn_hashed.specs.Compacting.{moved_lit, moved_row};
ghost use Rattle.syn_netlist.specs.Numbers.{all_below};
ghost use Rattle.syn_compare.specs.Renaming.{node_in, nodes_of, values_at};

use std::alloc::{AllocError, Global};
use syn_graph::{Graph, compact};
use syn_rows::{Lit, Row};

// The node of the source at a place.
fn source_node(place: usize) -> u32
    requires { place + 1 < NODE_LIMIT }
    ensures node { result ≡ suc place }
    ensures below { result < NODE_LIMIT }
{
    place as u32 + 1
}

// Node 0 and the nodes of the sources at these places.
fn nodes_of(alloc: Global, places: &[usize]) -> Result<Vec<u32>, AllocError>
    requires few { length places.now + 1 < NODE_LIMIT }
    requires below { all_below (length places.now) places.now ≡ true }
    ensures nodes { IfOk result (λ v. v.items ≡ nodes_of places.now) }
    ensures below { IfOk result (λ v. all_below NODE_LIMIT v.items ≡ true) }
{
    let mut nodes = Vec::new(alloc);
    nodes.push(0)?;
    for place in places {
        nodes.push(source_node(*place))?;
    }
    Ok(nodes)
}

// The node that takes a node's place: the one at its place in the list, past the end itself.
fn renamed_node(nodes: &[u32], node: u32) -> u32
    requires below { all_below NODE_LIMIT nodes.now ≡ true }
    requires small { node < 2 ^ 31 }
    ensures node { result ≡ node_in nodes.now node }
    ensures small { result < 2 ^ 31 }
{
    if (node as usize) < nodes.len() {
        nodes[node as usize]
    } else {
        node
    }
}

fn renamed_lit(nodes: &[u32], lit: Lit) -> Lit
    requires { all_below NODE_LIMIT nodes.now ≡ true }
    ensures { result ≡ moved_lit (node_in nodes.now) lit }
{
    Lit::of(renamed_node(nodes, lit.node()), lit.complemented())
}

fn renamed_row(nodes: &[u32], row: Row) -> Row
    requires { all_below NODE_LIMIT nodes.now ≡ true }
    ensures { result ≡ moved_row (node_in nodes.now) row }
{
    match row {
        Row::Free => Row::Free,
        Row::Source => Row::Source,
        Row::And(a, b) => Row::And(renamed_lit(nodes, a), renamed_lit(nodes, b)),
        Row::Alias(a) => Row::Alias(renamed_lit(nodes, a)),
    }
}

fn renamed_rows(alloc: Global, nodes: &[u32], rows: &[Row]) -> Result<Vec<Row>, AllocError>
    requires { all_below NODE_LIMIT nodes.now ≡ true }
    ensures { IfOk result (λ v. v.items ≡ map (moved_row (node_in nodes.now)) rows.now) }
{
    let mut found = Vec::with_capacity(alloc, rows.len())?;
    for row in rows {
        found.push(renamed_row(nodes, *row))?;
    }
    Ok(found)
}

fn renamed_lits(alloc: Global, nodes: &[u32], lits: &[Lit]) -> Result<Vec<Lit>, AllocError>
    requires { all_below NODE_LIMIT nodes.now ≡ true }
    ensures { IfOk result (λ v. v.items ≡ map (moved_lit (node_in nodes.now)) lits.now) }
{
    let mut found = Vec::with_capacity(alloc, lits.len())?;
    for lit in lits {
        found.push(renamed_lit(nodes, *lit))?;
    }
    Ok(found)
}

/// A graph of as many sources that observes these literals of a graph, each of its sources at its new place. The only error is
/// want of memory.
pub(crate) fn renamed(
    alloc: Global,
    graph: &Graph,
    places: &[usize],
    lits: &[Lit],
) -> Result<Graph, AllocError>
    requires count { length places.now ≡ graph.now.source_count }
    requires below { all_below (length places.now) places.now ≡ true }
    requires within { All (λ l. node_of l < length graph.now.rows) lits.now }
    requires few { length lits.now < 2 ^ 31 }
    ensures sources { IfOk result (λ g. g.source_count ≡ graph.now.source_count) }
    ensures count { IfOk result (λ g. length g.observed ≡ length lits.now) }
    ensures values { IfOk result (λ g. (bits : List Bool) → rows_function g.rows g.observed bits ≡ rows_function graph.now.rows lits.now (values_at places.now bits)) }
{
    let nodes = nodes_of(alloc, places)?;
    let rows = renamed_rows(alloc, nodes.as_slice(), graph.rows.as_slice())?;
    let observed = renamed_lits(alloc, nodes.as_slice(), lits)?;
    compact(
        alloc,
        graph.source_count,
        rows.as_slice(),
        observed.as_slice(),
    )
}
