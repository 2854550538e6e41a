//! What a round begins with: the table, the hints, and the nodes to visit.

ghost use Rattle.std.specs.Prelude.{◌≡◌, ℕ, ◌+◌, ◌*◌, ◌<◌, ◌≤◌, ◌^◌, length, slice_index, IfOk};
ghost use Rattle.syn_rows.specs.declared.TheConstants.{NODE_LIMIT};
ghost use Rattle.syn_rows.specs.declared.Row.TheVariants.{Source};
ghost use Rattle.syn_rows.specs.Rows.{Rises, row_at};
ghost use Rattle.syn_table.specs.Openings.{AreKeys, with_spare};
ghost use Rattle.syn_table.specs.Rule.{first_seat};
ghost use Rattle.syn_table.specs.Seating.{IsOf, graph_of, known_of, nodes_of, spare_of};
ghost use Rattle.syn_pool.specs.Keys.{HasKeys, key_of_row};

use crate::rounds::visits::is_gate;
use std::alloc::{AllocError, Global};
use syn_commit::{Hints, MAX_SPARE};
use syn_graph::Graph;
use syn_rows::Row;
use syn_table::{KEY_GAP, Seat, Shared, spread};
use syn_workers::Workers;

/// Which nodes come later on a round's table: a commit uses rows that come before its root.
#[derive(Clone, Copy, Debug, PartialEq, Eq)]
pub(crate) enum Order {
    /// Those of a greater level, so that a commit may use any row of a smaller level than its root.
    Levels,
    /// Those of a greater number, so that it may use the rows that the check counts with.
    Numbers,
}

/// The spare nodes of a worker: as many as its pool takes in.
pub(crate) const SPARE: u32 = MAX_SPARE as u32;

// The key of a node with this row by its number: 0 where it is no AND.
fn key_of_row(node: u32, row: Row) -> u64
    ensures { result ≡ key_of_row node row }
{
    match row {
        Row::And(_, _) => u64::from(node) * KEY_GAP,
        Row::Free | Row::Source | Row::Alias(_) => 0,
    }
}

// The keys of rows by their numbers.
fn keys_of_rows(alloc: Global, rows: &[Row]) -> Result<Vec<u64>, AllocError>
    requires { length rows.now < NODE_LIMIT }
    ensures { IfOk result (λ v. HasKeys rows.now v.items) }
{
    let mut keys = Vec::with_capacity(alloc, rows.len())?;
    for (node, row) in rows.iter().enumerate() {
        keys.push(key_of_row(node as u32, *row))?;
    }
    Ok(keys)
}

// The key of each node by its number: 0 for node 0 and the sources. So a commit may use every row that stands before its
// root, as those that are counted on a graph.
fn numbered(alloc: Global, graph: &Graph) -> Result<Vec<u64>, AllocError>
    ensures count { IfOk result (λ v. length v.items ≡ length graph.now.rows) }
    ensures sources { IfOk result (λ v. (n : ℕ) → row_at graph.now.rows n ≡ Source → slice_index v.items n ≡ 0) }
    ensures rises { IfOk result (λ v. Rises graph.now.rows (λ n. slice_index v.items n)) }
{
    let _count = graph.count();
    let keys = keys_of_rows(alloc, graph.rows.as_slice())?;
    Ok(keys)
}

// The key of each node in this order.
fn keys_of(alloc: Global, graph: &Graph, order: Order) -> Result<Vec<u64>, AllocError>
    ensures { IfOk result (λ v. AreKeys graph.now.rows v.items) }
{
    match order {
        Order::Levels => spread(alloc, graph),
        Order::Numbers => numbered(alloc, graph),
    }
}

/// The table of a graph, with the spare nodes of so many workers and keys in this order, and its first seat. The only error is
/// want of memory.
pub(crate) fn opened(
    alloc: Global,
    graph: &Graph,
    workers: Workers,
    order: Order,
) -> Result<(Shared, Seat), AllocError>
    requires nodes { length graph.now.rows + 512 * workers < NODE_LIMIT }
    requires literals { length graph.now.observed < 2 ^ 30 }
    ensures graph { IfOk result (λ t. graph_of t.0 ≡ graph.now) }
    ensures spare { IfOk result (λ t. spare_of t.0 ≡ 512 * workers) }
    ensures nodes { IfOk result (λ t. nodes_of t.0 ≡ length graph.now.rows + 512 * workers) }
    ensures table { IfOk result (λ t. IsOf t.1 t.0) }
    ensures known { IfOk result (λ t. known_of t.1 ≡ first_seat (with_spare graph.now.rows (512 * workers)) graph.now.observed) }
    ensures numbers { IfOk result (λ t. workers ≤ length (known_of t.1).numbers) }
{
    let keys = keys_of(alloc, graph, order)?;
    Shared::start(
        alloc,
        graph,
        keys.as_slice(),
        SPARE * u32::from(workers.number()),
    )
}

/// Hints with the pairs of all ANDs, two words for each row. The only error is want of memory.
pub(crate) fn noted(alloc: Global, graph: &Graph) -> Result<Hints, AllocError> {
    let rows = graph.rows.as_slice();
    let hints = Hints::new(alloc, 2 * rows.len() as u32)?;
    for (node, row) in rows.iter().enumerate() {
        if let Row::And(a, b) = *row {
            hints.note((a, b), node as u32);
        }
    }
    Ok(hints)
}

/// The ANDs, the last one first. The only error is want of memory.
pub(crate) fn gates_of(alloc: Global, graph: &Graph) -> Result<Vec<u32>, AllocError> {
    let mut gates = Vec::new(alloc);
    for node in (0..graph.rows.as_slice().len() as u32).rev() {
        if is_gate(graph, node) {
            gates.push(node)?;
        }
    }
    Ok(gates)
}
