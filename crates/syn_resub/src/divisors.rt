//! The divisors of an AND.

ghost use Rattle.std.specs.Prelude.{◌≡◌, ℕ, suc, ◌<◌, ◌≤◌, true, length, take};
ghost use Rattle.syn_rows.specs.Reach.{is_and};
ghost use Rattle.syn_rows.specs.Rows.{row_at};
ghost use Rattle.syn_growing.specs.Cones.{AreLeaves};
ghost use Rattle.syn_resub.specs.Divisors.{divisors};
ghost use Rattle.syn_resub.specs.FanOuts.{AreFanOuts, is_over};
ghost use Rattle.syn_resub.specs.Scanning.{IsPutUpTo};

use crate::FanOuts;
use crate::nodes::{Nodes, put};
use syn_gain::node_at;
use syn_graph::Graph;
use syn_rows::{Row, has_node};

// Puts an AND over divisor d, where its first fan-in is a divisor too.
fn put_fan_out(graph: &Graph, leaves: &[u32], node: u32, d: u32, m: u32, nodes: &mut Nodes)
    requires there { m < length graph.now.rows }
    requires below { m < node }
    requires over { is_over d (row_at graph.now.rows m) ≡ true }
    requires put { IsPutUpTo graph.now.rows leaves.now node d m nodes.old.items }
    ensures put { IsPutUpTo graph.now.rows leaves.now node d (suc m) nodes.new.items }
{
    if let Row::And(a, _b) = graph.rows.as_slice()[m as usize] {
        if has_node(nodes.as_slice(), a.node()) {
            put(nodes, m);
        }
    }
}

// Puts the ANDs below the node over divisor d, and over divisors before it.
fn put_fan_outs(
    graph: &Graph,
    fan_outs: &FanOuts,
    leaves: &[u32],
    node: u32,
    d: u32,
    nodes: &mut Nodes,
)
    requires fan_outs { AreFanOuts fan_outs.now graph.now.rows }
    requires node { node < length graph.now.rows }
    requires below { d < node }
    requires put { IsPutUpTo graph.now.rows leaves.now node d 0 nodes.old.items }
    ensures put { IsPutUpTo graph.now.rows leaves.now node d node nodes.new.items }
{
    let mut m = fan_outs.first_over(graph, d);
    while m < node {
        put_fan_out(graph, leaves, node, d, m, nodes);
        m = fan_outs.next_over(graph, d, m);
    }
}

/// The divisors of an AND over the leaves of its cone. It takes no memory, and looks at the fan-outs of the divisors alone.
pub(crate) fn divisors(graph: &Graph, fan_outs: &FanOuts, node: u32, leaves: &[u32]) -> Nodes
    requires fan_outs { AreFanOuts fan_outs.now graph.now.rows }
    requires gate { is_and (row_at graph.now.rows node) ≡ true }
    requires leaves { AreLeaves graph.now.rows node leaves.now }
    ensures divisors { result.items ≡ divisors graph.now.rows leaves.now node }
{
    let mut nodes = Nodes::new();
    for leaf in leaves {
        nodes.push(*leaf);
    }
    let mut i = 0;
    while i < nodes.len() {
        let d = node_at(nodes.as_slice(), i);
        put_fan_outs(graph, fan_outs, leaves, node, d, &mut nodes);
        i += 1;
    }
    nodes
}
