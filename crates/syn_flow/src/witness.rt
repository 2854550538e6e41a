//! Labels, and the paths that bear them out.

use syn_lists::Items;

/// Labels of nodes, and the paths that bear them out.
#[derive(Debug, Drop)]
pub struct FlowProof {
    /// A label for each row.
    pub labels: Items<u32>,
    /// Paths for each AND whose label is above the greatest of its fan-ins', where that is above 0.
    pub paths: Items<Paths>,
}

/// Paths that share no node, from sources into the top of a node.
#[derive(Debug, Drop)]
pub struct Paths {
    /// The node.
    pub node: u32,
    /// The paths, each from its source up.
    pub lists: Items<Items<u32>>,
}
