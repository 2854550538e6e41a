//! A look before a commit, at the graph that the table was opened with. It chooses what is tried, and nothing rests on it.

ghost use Rattle.std.specs.Prelude.{◌≤◌};

use arrayvec::ArrayVec;
use syn_decide::MAX_INNER;
use syn_gain::Proposal;
use syn_graph::Graph;
use syn_rows::{Row, has_node};

// The rows between a root and leaves, each once.
type Inner = ArrayVec<u32, MAX_INNER>;

// Meets a node: one that is neither a leaf nor among the rows, none of which is below the least, joins them. False where
// there is no room for it.
fn meet(inner: &mut Inner, least: &mut u32, leaves: &[u32], node: u32) -> bool {
    if has_node(leaves, node) || (node >= *least && has_node(inner.as_slice(), node)) {
        return true;
    }
    if inner.is_full() {
        return false;
    }
    inner.push(node);
    *least = node.min(*least);
    true
}

/// Whether there are no more rows between a proposal's root and its leaves than a commit takes.
pub(crate) fn fits_commit_limit(graph: &Graph, proposal: &Proposal) -> bool {
    let rows = graph.rows.as_slice();
    let leaves = proposal.leaves.as_slice();
    let mut inner = Inner::new();
    let mut least = proposal.root;
    inner.push(least);
    for place in 0..MAX_INNER {
        let node = match inner.as_slice().get(place) {
            Some(node) => *node,
            None => return true,
        };
        if let Some(Row::And(a, b)) = rows.get(node as usize) {
            if !meet(&mut inner, &mut least, leaves, a.node())
                || !meet(&mut inner, &mut least, leaves, b.node())
            {
                return false;
            }
        }
    }
    true
}

/// Whether a proposal's leaves are the fan-ins of its root.
pub(crate) fn is_over_fan_ins(graph: &Graph, proposal: &Proposal) -> bool {
    let leaves = proposal.leaves.as_slice();
    match graph.rows.as_slice().get(proposal.root as usize) {
        Some(Row::And(a, b)) => {
            leaves.len() == 2 && has_node(leaves, a.node()) && has_node(leaves, b.node())
        }
        _ => false,
    }
}

/// A place in a list of so many, by a hash of a node's number; 0 in an empty one.
pub(crate) fn place_of(node: u32, count: usize) -> usize
    ensures { result ≤ count }
{
    if count == 0 {
        return 0;
    }
    let hash = node.wrapping_mul(0x9E37_79B1);
    (hash >> 16) as usize % count
}
