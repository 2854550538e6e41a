//! The leaves and divisors of an AND, with their tables.

ghost use Rattle.std.specs.Prelude.{◌≡◌, ℕ, ◌<◌, ◌≤◌, true, IfOk, length, slice_index_or};
ghost use Rattle.syn_rows.specs.Joining.{lit_of};
ghost use Rattle.syn_rows.specs.Nodes.{has_node};
ghost use Rattle.syn_rows.specs.Reach.{is_and};
ghost use Rattle.syn_rows.specs.Rows.{node_of, row_at};
ghost use Rattle.syn_cones.specs.Values.{value_over};
ghost use Rattle.syn_cones.specs.Walk.{rises};
ghost use Rattle.syn_growing.specs.Cones.{AreLeaves};
ghost use Rattle.syn_resub.specs.Divided.{AreDivided, AreTablesOf, HasValues, lit_over};
ghost use Rattle.syn_resub.specs.Divisors.{divides};
ghost use Rattle.syn_resub.specs.FanOuts.{AreFanOuts};
ghost use Rattle.syn_resub.specs.Laws.{AreDivisors};

use crate::FanOuts;
use crate::divisors::divisors;
use crate::nodes::{MAX_DIVISORS, Nodes, place_of};
use arrayvec::ArrayVec;
use std::alloc::{AllocError, Global};
use syn_cones::function;
use syn_gain::node_at;
use syn_graph::Graph;
use syn_growing::{Leaves, cone_leaves};
use syn_rows::{Lit, Row};
use syn_truth::Truth;

/// The tables of divisors.
pub(crate) type Tables = ArrayVec<Truth, MAX_DIVISORS>;

/// An AND as resubstitution looks at it.
#[derive(Debug, Drop)]
pub struct Divided {
    /// The leaves of its cone.
    pub leaves: Leaves,
    /// The table of its function over them.
    pub table: Truth,
    /// Its divisors.
    pub nodes: Nodes,
    /// The tables of their functions over the leaves.
    pub tables: Tables,
}

// The table of a divisor that stands before the next one.
fn table_before(graph: &Graph, leaves: &[u32], nodes: &[u32], tables: &[Truth], node: u32) -> Truth
    requires tables { AreTablesOf graph.now.rows leaves.now nodes.now tables.now }
    requires there { (i : ℕ) → i < length nodes.now → slice_index_or nodes.now i 0 ≡ node → i < length tables.now }
    requires has { has_node nodes.now node ≡ true }
    ensures { HasValues (length leaves.now) result (value_over graph.now.rows leaves.now node) }
{
    let _ = graph;
    let _ = leaves;
    match place_of(nodes, node) {
        Some(i) => tables[i],
        None => Truth::default(),
    }
}

// The table of a literal, from those of the first divisors, among which its node is.
fn lit_table(graph: &Graph, leaves: &[u32], nodes: &[u32], tables: &[Truth], lit: Lit) -> Truth
    requires tables { AreTablesOf graph.now.rows leaves.now nodes.now tables.now }
    requires there { (i : ℕ) → i < length nodes.now → slice_index_or nodes.now i 0 ≡ node_of lit → i < length tables.now }
    requires has { has_node nodes.now (node_of lit) ≡ true }
    ensures { HasValues (length leaves.now) result (lit_over graph.now.rows leaves.now lit) }
{
    let table = table_before(graph, leaves, nodes, tables, lit.node());
    if lit.complemented() {
        table.not()
    } else {
        table
    }
}

// The table of the next divisor, from those before it.
fn divisor_table(graph: &Graph, node: u32, leaves: &[u32], nodes: &[u32], tables: &[Truth]) -> Truth
    requires gate { is_and (row_at graph.now.rows node) ≡ true }
    requires leaves { AreLeaves graph.now.rows node leaves.now }
    requires divisors { AreDivisors graph.now.rows leaves.now node nodes.now }
    requires tables { AreTablesOf graph.now.rows leaves.now nodes.now tables.now }
    requires next { length tables.now < length nodes.now }
    ensures { HasValues (length leaves.now) result (value_over graph.now.rows leaves.now (slice_index_or nodes.now (length tables.now) 0)) }
{
    let divisor = node_at(nodes, tables.len());
    if let Some(i) = place_of(leaves, divisor) {
        return Truth::var(leaves.len() as u8, i as u8);
    }
    match graph.rows.as_slice()[divisor as usize] {
        Row::And(a, b) => {
            let first = lit_table(graph, leaves, nodes, tables, a);
            first.and(lit_table(graph, leaves, nodes, tables, b))
        }
        _ => Truth::default(),
    }
}

// The tables of the divisors.
fn divisor_tables(graph: &Graph, node: u32, leaves: &[u32], nodes: &[u32]) -> Tables
    requires gate { is_and (row_at graph.now.rows node) ≡ true }
    requires leaves { AreLeaves graph.now.rows node leaves.now }
    requires divisors { AreDivisors graph.now.rows leaves.now node nodes.now }
    ensures count { length result.items ≡ length nodes.now }
    ensures tables { AreTablesOf graph.now.rows leaves.now nodes.now result.items }
{
    let mut tables = Tables::new();
    while tables.len() < nodes.len() {
        let table = divisor_table(graph, node, leaves, nodes, tables.as_slice());
        tables.push(table);
    }
    tables
}

/// An AND with the leaves of its cone and its divisors. The only error is want of memory, which a small cone doesn't take.
pub(crate) fn divide(
    alloc: Global,
    graph: &Graph,
    fan_outs: &FanOuts,
    node: u32,
) -> Result<Divided, AllocError>
    requires fan_outs { AreFanOuts fan_outs.now graph.now.rows }
    requires gate { is_and (row_at graph.now.rows node) ≡ true }
    ensures { IfOk result (AreDivided graph.now.rows node) }
{
    let leaves = cone_leaves(graph, node);
    let table = function(alloc, graph.rows.as_slice(), node, leaves.as_slice())?;
    let nodes = divisors(graph, fan_outs, node, leaves.as_slice());
    let tables = divisor_tables(graph, node, leaves.as_slice(), nodes.as_slice());
    Ok(Divided {
        leaves,
        table,
        nodes,
        tables,
    })
}

impl Divided {
    /// The plain literal of the divisor at a place, with its table.
    pub(crate) fn literal(&self, graph: &Graph, node: u32, place: usize) -> (Lit, Truth)
        requires divided { AreDivided graph.now.rows node self.now }
        requires place { place < length self.now.nodes.items }
        ensures lit { result.0 ≡ lit_of (slice_index_or self.now.nodes.items place 0) }
        ensures table { HasValues (length self.now.leaves.items) result.1 (lit_over graph.now.rows self.now.leaves.items result.0) }
    {
        (
            Lit::of(node_at(self.nodes.as_slice(), place), false),
            self.tables[place],
        )
    }
}
