//! Rising lists of at most eight leaves, and lists of inner nodes.

ghost use Rattle.std.specs.Prelude.{◌≡◌, ◌+◌, ◌<◌, ◌≤◌, [], ◌∷◌, ◌++◌, nat_le, length};
ghost use Rattle.syn_rows.specs.Nodes.{has_node};
ghost use Rattle.syn_rows.specs.Rows.{node_of};
ghost use Rattle.syn_lists.specs.Numbers.{without_numbers};
ghost use Rattle.syn_cones.specs.Walk.{put_node, put_nodes};
ghost use Rattle.syn_growing.specs.Growing.{one_new, without_node};

use arrayvec::ArrayVec;
use syn_cones::gap_for;
use syn_rows::{Lit, has_node};

/// The most leaves of a cone.
pub const MAX_LEAVES: usize = 8;

/// The most inner nodes of a cone.
pub(crate) const MAX_INNER: usize = 48;

/// Leaves, rising.
pub type Leaves = ArrayVec<u32, MAX_LEAVES>;

/// Inner nodes, in the order in which they were replaced.
pub(crate) type Inner = ArrayVec<u32, MAX_INNER>;

/// How many leaves a node adds: one where it isn't among them yet, else none.
pub(crate) fn one_new(leaves: &[u32], node: u32) -> usize
    ensures value { result ≡ one_new leaves.now node }
    ensures one { result ≤ 1 }
{
    if has_node(leaves, node) { 0 } else { 1 }
}

// Puts a node in its place, where it isn't there.
fn put_node(leaves: &mut Leaves, node: u32)
    requires { length (put_node node leaves.old.items) ≤ 8 }
    ensures { leaves.new.items ≡ put_node node leaves.old.items }
{
    if let Some(place) = gap_for(leaves.as_slice(), node) {
        leaves.insert(place, node);
    }
}

// The leaves but one.
fn without(leaves: &[u32], leaf: u32) -> Leaves
    requires { length leaves.now ≤ 8 }
    ensures { result.items ≡ without_node leaf leaves.now }
{
    let mut rest = ArrayVec::new();
    for node in leaves {
        if *node != leaf {
            rest.push(*node);
        }
    }
    rest
}

/// The nodes of two literals.
pub(crate) fn nodes_of(a: Lit, b: Lit) -> Leaves
    ensures { result.items ≡ put_nodes (node_of a ∷ node_of b ∷ []) [] }
{
    let mut leaves = ArrayVec::new();
    put_node(&mut leaves, a.node());
    put_node(&mut leaves, b.node());
    leaves
}

/// The leaves where one of them is replaced by the nodes of two literals.
pub(crate) fn replaced(leaves: &[u32], leaf: u32, a: Lit, b: Lit) -> Leaves
    requires leaves { length leaves.now ≤ 8 }
    requires few { length (put_nodes (node_of a ∷ node_of b ∷ []) (without_node leaf leaves.now)) ≤ 8 }
    ensures { result.items ≡ put_nodes (node_of a ∷ node_of b ∷ []) (without_node leaf leaves.now) }
{
    let mut after = without(leaves, leaf);
    put_node(&mut after, a.node());
    put_node(&mut after, b.node());
    after
}

/// Whether there are at most 48 inner nodes where a leaf with these two fan-ins becomes one. Among 48 one of the two has
/// to be, which is a leaf again then.
pub(crate) fn has_room(inner: &[u32], leaf: u32, a: u32, b: u32) -> bool
    requires { length inner.now ≤ 48 }
    ensures { result ≡ nat_le (length (without_numbers (a ∷ b ∷ []) inner.now ++ leaf ∷ [])) 48 }
{
    inner.len() < MAX_INNER || has_node(inner, a) || has_node(inner, b)
}

// Takes two nodes out.
fn take_out(inner: &mut Inner, a: u32, b: u32)
    ensures { inner.new.items ≡ without_numbers (a ∷ b ∷ []) inner.old.items }
{
    inner.retain(|node| *node != a && *node != b);
}

/// A leaf with these two fan-ins becomes an inner node; they aren't inner nodes any more.
pub(crate) fn put_inner(inner: &mut Inner, leaf: u32, a: u32, b: u32)
    requires { length (without_numbers (a ∷ b ∷ []) inner.old.items ++ leaf ∷ []) ≤ 48 }
    ensures { inner.new.items ≡ without_numbers (a ∷ b ∷ []) inner.old.items ++ leaf ∷ [] }
{
    take_out(inner, a, b);
    inner.push(leaf);
}
