//! The ANDs of a graph by their second fan-in.

ghost use Rattle.std.specs.Prelude.{◌≡◌, ◌+◌, ◌<◌, ◌^◌, IfOk, length, replicate, suc, true};
ghost use Rattle.syn_rows.specs.Rows.{InOrder, row_at};
ghost use Rattle.syn_resub.specs.FanOuts.{AreFanOuts, AreListedFrom, IsFirstOver, is_over};

use std::alloc::{AllocError, Global};
use syn_gain::node_at;
use syn_graph::Graph;
use syn_rows::Row;

/// The ANDs of a graph by their second fan-in, which is the greater one.
#[derive(Debug, Drop)]
pub struct FanOuts {
    /// For each node the first AND whose second fan-in it is, the number of nodes where there is none.
    pub first: Vec<u32>,
    /// For each AND the next one with the same second fan-in, the number of nodes where there is none.
    pub next: Vec<u32>,
}

// Puts a node before those behind it that have the same second fan-in.
fn list_node(rows: &[Row], node: usize, first: &mut [u32], next: &mut [u32])
    requires order { InOrder rows.now }
    requires there { node < length rows.now }
    requires small { length rows.now < 2 ^ 32 }
    requires listed { AreListedFrom first.old next.old rows.now (node + 1) }
    ensures listed { AreListedFrom first.new next.new rows.now node }
{
    if let Row::And(_, b) = rows[node] {
        let over = b.node() as usize;
        next[node] = first[over];
        first[over] = node as u32;
    }
}

// Puts all nodes, from the last one down.
fn list_all_nodes(rows: &[Row], first: &mut [u32], next: &mut [u32])
    requires order { InOrder rows.now }
    requires small { length rows.now < 2 ^ 32 }
    requires listed { AreListedFrom first.old next.old rows.now (length rows.now) }
    ensures listed { AreListedFrom first.new next.new rows.now 0 }
{
    let mut node = rows.len();
    while node > 0 {
        node -= 1;
        list_node(rows, node, first, next);
    }
}

// So many numbers, all the same.
fn repeated(alloc: Global, number: u32, count: usize) -> Result<Vec<u32>, AllocError>
    ensures { IfOk result (λ v. v.items ≡ replicate count number) }
{
    vec![in alloc; number; count]
}

impl FanOuts {
    /// The fan-outs of a graph. The only error is want of memory.
    pub fn of(alloc: Global, graph: &Graph) -> Result<FanOuts, AllocError>
        ensures { IfOk result (λ f. AreFanOuts f graph.now.rows) }
    {
        let rows = graph.rows.as_slice();
        let none = rows.len() as u32;
        let mut first = repeated(alloc, none, rows.len())?;
        let mut next = repeated(alloc, none, rows.len())?;
        list_all_nodes(rows, first.as_mut_slice(), next.as_mut_slice());
        Ok(FanOuts { first, next })
    }

    /// The first AND whose second fan-in is a node, the number of nodes where there is none.
    #[inline]
    pub(crate) fn first_over(&self, graph: &Graph, node: u32) -> u32
        requires fan_outs { AreFanOuts self.now graph.now.rows }
        requires node { node < length graph.now.rows }
        ensures { IsFirstOver graph.now.rows node 0 result }
    {
        let _ = graph;
        node_at(self.first.as_slice(), node as usize)
    }

    /// The next one behind an AND over the same node.
    #[inline]
    pub(crate) fn next_over(&self, graph: &Graph, node: u32, and: u32) -> u32
        requires fan_outs { AreFanOuts self.now graph.now.rows }
        requires and { and < length graph.now.rows }
        requires over { is_over node (row_at graph.now.rows and) ≡ true }
        ensures { IsFirstOver graph.now.rows node (suc and) result }
    {
        let _ = graph;
        let _ = node;
        node_at(self.next.as_slice(), and as usize)
    }
}
