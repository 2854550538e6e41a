//! Lists of nodes.

ghost use Rattle.std.specs.Prelude.{◌≡◌, ◌<◌, ◌≤◌, true, false, IfNone, IfSome, length, slice_index_or, take};
ghost use Rattle.syn_rows.specs.Nodes.{has_node};
ghost use Rattle.syn_cones.specs.Walk.{put_node};
ghost use Rattle.syn_resub.specs.Resubstitution.{place_of};

use arrayvec::ArrayVec;
use syn_cones::gap_for;

/// The most divisors of a node.
pub(crate) const MAX_DIVISORS: usize = 64;

/// Rising nodes, with room for one that is dropped at once.
pub(crate) type Nodes = ArrayVec<u32, 65>;

/// The place of a node, the first one.
pub(crate) fn place_of(nodes: &[u32], node: u32) -> Option<usize>
    ensures some { IfSome result (λ i. (i ≡ place_of node nodes.now) × (i < length nodes.now) × (slice_index_or nodes.now i 0 ≡ node)) }
    ensures there { IfSome result (λ _. has_node nodes.now node ≡ true) }
    ensures none { IfNone result (has_node nodes.now node ≡ false) }
{
    for (i, other) in nodes.iter().enumerate() {
        if *other == node {
            return Some(i);
        }
    }
    None
}

/// Puts a node in its place among rising nodes, where it isn't there, and drops the last of more than 64.
pub(crate) fn put(nodes: &mut Nodes, node: u32)
    requires { length nodes.old.items ≤ 64 }
    ensures { nodes.new.items ≡ take 64 (put_node node nodes.old.items) }
{
    if let Some(place) = gap_for(nodes.as_slice(), node) {
        nodes.insert(place, node);
        nodes.truncate(MAX_DIVISORS);
    }
}
