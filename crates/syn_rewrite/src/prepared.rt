//! What is listed once for a graph.

ghost use Rattle.std.specs.Prelude.{IfOk};
ghost use Rattle.syn_rewrite.specs.Prepared.{IsPreparedFor};

use std::alloc::{AllocError, Global};
use std::thread::Threads;
use syn_cut_functions::cut_truths;
use syn_cuts::{CutLists, listed};
use syn_function_plans::PlanCache;
use syn_graph::Graph;
use syn_library::Prepared as Classes;
use syn_workers::Workers;

/// The most leaves of a cut that is looked at.
pub(crate) const MAX_LEAVES: u8 = 4;

/// The listed cuts of each node, and the functions of each AND over those that are looked at.
#[derive(Drop)]
pub struct Prepared {
    /// The listed cuts of at most four leaves.
    pub cuts: CutLists,
    /// The functions of an AND over its listed cuts but the last, in order.
    pub functions: Vec<Vec<u16>>,
    /// The plans of these functions, and of those of graphs before.
    pub known: PlanCache,
}

/// What is listed for a graph, where these plans are known from other graphs.
pub(crate) fn prepare<R: Threads + Sync>(
    rt: &R,
    alloc: Global,
    classes: &Classes,
    graph: &Graph,
    known: PlanCache,
    workers: Workers,
) -> Result<Prepared, AllocError>
    ensures { IfOk result (λ lists. IsPreparedFor lists graph.now.rows) }
{
    let mut known = known;
    let cuts = listed(rt, alloc, graph, MAX_LEAVES, workers)?;
    let functions = cut_truths(rt, alloc, graph, &cuts, workers)?;
    known.insert_missing_lists(classes, functions.as_slice())?;
    Ok(Prepared {
        cuts,
        functions,
        known,
    })
}
