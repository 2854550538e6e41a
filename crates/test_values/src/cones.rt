//! Calls on what refactoring proposes.

use crate::answers::put;
use crate::saved::is_and;
use std::alloc::{AllocError, Global};
use syn_graph::Graph;
use syn_proposals::Proposer;
use syn_refactor::{Cones, KnownPlans};

/// The leaves of each proposal for a node.
pub fn answer(alloc: Global, out: &mut String, graph: &Graph, node: u32) -> Result<(), AllocError> {
    if !is_and(graph, node) {
        return Ok(());
    }
    let lists = KnownPlans::new(alloc)?;
    for proposal in Cones.propose(alloc, graph, &lists, node)? {
        put(out, Ok(proposal.leaves.as_slice()))?;
    }
    Ok(())
}
