//! Growing the cone of a node.

ghost use Rattle.std.specs.Prelude.{◌≡◌, ℕ, ◌<◌, true, false, IfNone, IfSome, length};
ghost use Rattle.syn_rows.specs.Reach.{is_and};
ghost use Rattle.syn_rows.specs.Rows.{row_at};
ghost use Rattle.syn_rows.specs.Nodes.{has_node};
ghost use Rattle.syn_cones.specs.Leaves.{are_below, rise_above};
ghost use Rattle.syn_cones.specs.Walk.{rises};
ghost use Rattle.syn_growing.specs.Cones.{AreLeaves, HaveFanIns};
ghost use Rattle.syn_growing.specs.Growing.{cone_leaves, count_with, may_be_replaced, next_leaf, over_fan_ins, replaced};

use crate::leaves::{Inner, Leaves, MAX_LEAVES, has_room, nodes_of, one_new, put_inner, replaced};
use arrayvec::ArrayVec;
use std::marker::Model;
use syn_graph::Graph;
use syn_rows::Row;

// A cone that grows: its leaves, and its inner nodes. Contracts see both lists.
#[derive(Debug, Drop)]
struct Cone {
    leaves: Leaves,
    inner: Inner,
}

impl Model for Cone {
    ghost use Rattle.syn_growing.specs.Growing.{ConeNodes};

    ghost Value = { ConeNodes };

    ghost view = { λ c. record { leaves = c.leaves.items; inner = c.inner.items } };
}

impl Cone {
    // An AND over its fan-ins.
    fn over_fan_ins(rows: &[Row], node: u32) -> Cone
        requires there { node < length rows.now }
        requires gate { is_and (row_at rows.now node) ≡ true }
        ensures { result ≡ over_fan_ins rows.now node }
    {
        let leaves = match rows[node as usize] {
            Row::And(a, b) => nodes_of(a, b),
            _ => ArrayVec::new(),
        };
        let mut inner = ArrayVec::new();
        inner.push(node);
        Cone { leaves, inner }
    }

    // How many leaves there are where one is replaced by its fan-ins; none where it may not be, or gives more than `most`.
    fn count_within(&self, rows: &[Row], leaf: u32, most: usize) -> Option<usize>
        requires rows { HaveFanIns rows.now }
        requires rise { rises self.now.leaves ≡ true }
        requires leaf { has_node self.now.leaves leaf ≡ true }
        requires there { leaf < length rows.now }
        ensures some { IfSome result (λ count. (may_be_replaced rows.now self.now most leaf ≡ true) × (count ≡ count_with rows.now self.now.leaves leaf)) }
        ensures none { IfNone result (may_be_replaced rows.now self.now most leaf ≡ false) }
    {
        let Row::And(a, b) = rows[leaf as usize] else {
            return None;
        };
        let leaves = self.leaves.as_slice();
        let first = one_new(leaves, a.node());
        let second = one_new(leaves, b.node());
        let count = leaves.len() - 1 + first + second;
        if count <= most && has_room(self.inner.as_slice(), leaf, a.node(), b.node()) {
            Some(count)
        } else {
            None
        }
    }

    // The leaf that is replaced next: of those that may be, one that gives the fewest leaves; of equals the greatest.
    fn next_leaf(&self, rows: &[Row]) -> Option<u32>
        requires rows { HaveFanIns rows.now }
        requires rise { rises self.now.leaves ≡ true }
        requires there { (m : ℕ) → has_node self.now.leaves m ≡ true → m < length rows.now }
        ensures { result ≡ next_leaf rows.now self.now }
    {
        let mut chosen = None;
        let mut most = MAX_LEAVES;
        for leaf in self.leaves.as_slice() {
            if let Some(count) = self.count_within(rows, *leaf, most) {
                chosen = Some(*leaf);
                most = count;
            }
        }
        chosen
    }

    // Replaces a leaf by its fan-ins.
    fn replace(&mut self, rows: &[Row], leaf: u32)
        requires there { leaf < length rows.now }
        requires may { may_be_replaced rows.now self.old 8 leaf ≡ true }
        ensures { self.new ≡ replaced rows.now self.old leaf }
    {
        if let Row::And(a, b) = rows[leaf as usize] {
            self.leaves = replaced(self.leaves.as_slice(), leaf, a, b);
            put_inner(&mut self.inner, leaf, a.node(), b.node());
        }
    }
}

// The leaves of an AND's cone. It looks at the leaves and their fan-ins alone.
fn grown_leaves(rows: &[Row], node: u32) -> Leaves
    requires rows { HaveFanIns rows.now }
    requires there { node < length rows.now }
    requires gate { is_and (row_at rows.now node) ≡ true }
    ensures leaves { result.items ≡ cone_leaves rows.now node }
    ensures are { AreLeaves rows.now node result.items }
{
    let mut cone = Cone::over_fan_ins(rows, node);
    while let Some(leaf) = cone.next_leaf(rows) {
        cone.replace(rows, leaf);
    }
    cone.leaves
}

/// The leaves of the cone of an AND: at most eight, rising, and all below it. Every path from it down to a source meets one. It
/// takes no memory.
pub fn cone_leaves(graph: &Graph, node: u32) -> Leaves
    requires { is_and (row_at graph.now.rows node) ≡ true }
    ensures leaves { result.items ≡ cone_leaves graph.now.rows node }
    ensures are { AreLeaves graph.now.rows node result.items }
    ensures rising { rise_above 0 result.items ≡ true }
    ensures below { are_below node result.items ≡ true }
{
    grown_leaves(graph.rows.as_slice(), node)
}
