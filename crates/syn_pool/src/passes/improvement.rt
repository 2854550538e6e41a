//! The one way in which a proposer is run over a graph.

ghost use Rattle.std.specs.Prelude.{IfNone, IfOk, IfSome};
ghost use Rattle.syn_proposals.specs.Closing.{Closed};
ghost use Rattle.syn_pool.specs.Improving.{allowed, IsImproved};

use crate::passes::kept_levels::kept_closed;
use crate::passes::pass;
use crate::rounds::contexts::PassContext;
use std::alloc::{AllocError, Global};
use std::thread::Threads;
use syn_commit::CommitHook;
use syn_graph::Graph;
use syn_proposals::{Keeping, Proposer};
use syn_workers::Workers;

/// How a pass goes over a graph.
#[derive(Clone, Copy, Debug)]
pub struct PassSettings {
    /// The most worker threads, 1 to 16.
    pub workers: Workers,
    /// Whether commits of gain 0 are let through before the graph is checked.
    pub zero_gain: bool,
    /// Whether levels are kept: no observed signal becomes deeper, and what is looked for keeps its root's level.
    pub levels: bool,
}

/// The graph that a pass of a proposer leaves, without its report: the same function, no more ANDs, and no proposal saves; where
/// levels are kept, no observed signal is deeper, and no proposal saves that keeps its root's level. None comes where that is so of
/// the given graph. With one worker, as tests show, it is the same each time; with several it may depend on which commits first.
/// The hook is told of each commit. The only error is want of memory.
pub fn improve<R: Threads + Sync, P: Proposer + Drop, H: CommitHook>(
    rt: &R,
    alloc: Global,
    graph: &Graph,
    proposer: P,
    settings: PassSettings,
    hook: &H,
) -> Result<Option<Graph>, AllocError>
    ensures some { IfOk result (λ made. IfSome made (IsImproved (P.proposals proposer) settings.levels graph.now)) }
    ensures none { IfOk result (λ made. IfNone made (Closed graph.now.rows graph.now.observed (allowed settings.levels (P.proposals proposer) graph.now.rows))) }
{
    let PassSettings {
        workers,
        zero_gain,
        levels,
    } = settings;
    if !levels {
        return match pass(rt, alloc, graph, &proposer, workers, zero_gain, hook)? {
            Some((made, _report)) => Ok(Some(made)),
            None => Ok(None),
        };
    }
    let keeping = Keeping { proposer };
    let context = PassContext {
        rt,
        alloc,
        proposer: &keeping,
        hook,
        workers,
        zero_gain,
    };
    kept_closed(&context, graph)
}
