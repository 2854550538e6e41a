//! Calls on graphs. A graph is its number of sources, the pairs of literals of its ANDs, and the observed literals.

ghost use Rattle.std.specs.Prelude.{◌≤◌, ◌<◌, All, IfOk, length};
ghost use Rattle.syn_rows.specs.Rows.{node_of};

use crate::answers::put;
use crate::hashed_rows::join;
use crate::operands::{Operands, small};
use std::alloc::{AllocError, Global};
use syn_graph::{Graph, finish};
use syn_hashed::HashedRows;
use syn_rows::Lit;
use syn_table::spread;

// The first of a list's literals that name one of so many nodes.
fn within(alloc: Global, list: &[u128], count: usize) -> Result<Vec<Lit>, AllocError>
    ensures within { IfOk result (λ v. All (λ l. node_of l < count) v.items) }
    ensures few { IfOk result (λ v. length v.items ≤ 100) }
{
    let mut lits = Vec::new(alloc);
    for place in 0..100 {
        let lit = Lit(small(list, place));
        if lit.node() as usize >= count {
            return Ok(lits);
        }
        lits.push(lit)?;
    }
    Ok(lits)
}

/// The graph of the first three lists.
pub fn graph_of(alloc: Global, operands: &Operands) -> Result<Graph, AllocError> {
    let mut hashed = HashedRows::new(alloc, operands.number(0).min(100) as usize)?;
    join(alloc, &mut hashed, operands.list(1))?;
    let lits = within(alloc, operands.list(2), hashed.rows.len())?;
    finish(alloc, hashed, lits.as_slice())
}

// The values of the observed literals.
fn put_values(
    alloc: Global,
    out: &mut String,
    graph: &Graph,
    operands: &Operands,
) -> Result<(), AllocError> {
    let sources = operands.values(alloc, 3)?;
    put(out, graph.eval(alloc, sources.as_slice()))
}

/// The answer to a call.
pub fn answer(
    alloc: Global,
    out: &mut String,
    call: &str,
    graph: &Graph,
    operands: &Operands,
) -> Result<(), AllocError> {
    match call {
        "count" => put(out, Ok(graph.count())),
        "levels" => put(out, graph.levels(alloc)),
        "references" => put(out, graph.refs(alloc)),
        "values" => put_values(alloc, out, graph, operands),
        "keys" => put(out, spread(alloc, graph)),
        _ => put(out, graph.copy(alloc)),
    }
}
