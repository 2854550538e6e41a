//! Resubstitution until nothing is left to save.

ghost use Rattle.std.specs.Prelude.{IfNone, IfOk, IfSome};
ghost use Rattle.syn_proposals.specs.Closing.{Closed};
ghost use Rattle.syn_pool.specs.Improving.{allowed, IsImproved};
ghost use Rattle.syn_resub.specs.Resubstitution.{resubstitutions};

use crate::Divisors;
use std::alloc::{AllocError, Global};
use std::thread::Threads;
use syn_commit::CommitHook;
use syn_graph::Graph;
use syn_pool::{PassSettings, improve};

/// Resubstitutes in a graph until no proposal of resubstitution for any of its ANDs saves: the same function, and no more ANDs. None
/// comes where that is so of the given graph. Where levels are kept, no observed signal is deeper, and no proposal that keeps its
/// root's level saves. Up to as many workers as the settings say commit proposals, and look at proposals again: with one, as
/// tests show, the graph is the same each time; with several it may depend on which commits first. Where the settings let
/// gains of 0 through, proposals that save nothing are made too, before the graph is checked. The hook is told of each commit.
/// The only error is want of memory.
pub fn resub<R: Threads + Sync, H: CommitHook>(
    rt: &R,
    alloc: Global,
    graph: &Graph,
    settings: PassSettings,
    hook: &H,
) -> Result<Option<Graph>, AllocError>
    ensures some { IfOk result (λ made. IfSome made (IsImproved resubstitutions settings.levels graph.now)) }
    ensures none { IfOk result (λ made. IfNone made (Closed graph.now.rows graph.now.observed (allowed settings.levels resubstitutions graph.now.rows))) }
{
    improve(rt, alloc, graph, Divisors, settings, hook)
}
