//! Balancing: ANDs that belong together are joined again, those of least level first.
#![tactic(auto)]

ghost use Rattle.std.specs.Prelude.{IfOk};
ghost use Rattle.syn_hashed.specs.Compacting.{IsCompaction};
ghost use Rattle.syn_balance.specs.Balanced.{FollowsRule, IsBalanced};

mod balancer;
mod joiner;
mod roots;

use balancer::made_again;
use std::alloc::{AllocError, Global};
use syn_graph::Graph;
use syn_hashed::{Rows, compact_hashed};

/// The graph balanced (DAG-aware rewriting's balancing, DAC 2006): each AND that is observed, has two or more references or is
/// named by a complemented literal is the AND of its leaves, which are joined again, each time the two of least level. The
/// function stays; the number of ANDs and the levels of the observed literals don't rise. The only error is want of memory.
pub fn balance(alloc: Global, graph: &Graph) -> Result<Graph, AllocError>
    ensures balanced { IfOk result (IsBalanced graph.now) }
    ensures rule { IfOk result (λ new. FollowsRule graph.now.source_count graph.now.rows graph.now.observed new.rows new.observed) }
{
    let kept = balanced(alloc, graph)?;
    Ok(Graph::over(graph.source_count, kept.rows, kept.observed))
}

// The balanced rows, compacted.
fn balanced(alloc: Global, graph: &Graph) -> Result<Rows, AllocError>
    ensures compact { IfOk result (λ r. IsCompaction graph.now.source_count graph.now.rows graph.now.observed r.rows.items r.observed.items) }
    ensures rule { IfOk result (λ r. FollowsRule graph.now.source_count graph.now.rows graph.now.observed r.rows.items r.observed.items) }
{
    let count = graph.source_count;
    let made = made_again(
        alloc,
        count,
        graph.rows.as_slice(),
        graph.observed.as_slice(),
    )?;
    let kept = compact_hashed(alloc, count, made.rows.as_slice(), made.observed.as_slice())?;
    Ok(kept)
}
