//! Lists of nodes, and marks of nodes.

ghost use Rattle.std.specs.Prelude.{◌≡◌, IfOk, false, replicate};
ghost use Rattle.syn_rows.specs.Nodes.{has_node};

use std::alloc::{AllocError, Global};

/// Whether a node is one of some.
#[inline]
pub fn has_node(nodes: &[u32], node: u32) -> bool
    ensures { result ≡ has_node nodes.now node }
{
    for other in nodes {
        if *other == node {
            return true;
        }
    }
    false
}

/// So many marks, none of them set. The only error is want of memory.
pub fn no_marks(alloc: Global, count: usize) -> Result<Vec<bool>, AllocError>
    ensures { IfOk result (λ v. v.items ≡ replicate count false) }
{
    vec![in alloc; false; count]
}
