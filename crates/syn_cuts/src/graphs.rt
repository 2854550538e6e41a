//! Listed cuts and functions over cuts of the nodes of a graph.

ghost use Rattle.std.specs.Prelude.{◌≡◌, ℕ, ◌<◌, ◌≤◌, All, IfOk, length};
ghost use Rattle.syn_truth.specs.declared.TheConstants.{MAX_VARS};
ghost use Rattle.syn_cones.specs.Cones.{IsCut, IsTruthOver};
ghost use Rattle.syn_cuts.specs.Cuts.{listed_cuts};
ghost use Rattle.syn_cuts.specs.Lists.{list_at};

use crate::Cut;
use crate::lists::CutLists;
use crate::node_cuts::listed_rows;
use std::alloc::{AllocError, Global};
use std::thread::Threads;
use syn_graph::Graph;
use syn_truth::Truth;
use syn_workers::Workers;

/// The listed cuts of each node of a graph: of an AND the first 31 unions, by size and then by
/// leaves, of a listed cut of each fan-in, with at most `k` leaves, and then the node alone; of a
/// source the node alone.
///
/// The lists are the same for every number of workers. Levels of few nodes are listed in the
/// caller's own thread. An error comes only where memory was refused.
pub fn listed<R: Threads + Sync>(
    rt: &R,
    alloc: Global,
    graph: &Graph,
    k: u8,
    workers: Workers,
) -> Result<CutLists, AllocError>
    requires { k ≤ MAX_VARS }
    ensures lists { IfOk result (λ lists. lists ≡ listed_cuts k graph.now.rows) }
    ensures cuts { IfOk result (λ lists. (n : ℕ) → n < length graph.now.rows → All (λ c. IsCut graph.now.rows c n) (list_at lists n)) }
{
    listed_rows(rt, alloc, graph.rows.as_slice(), k as usize, workers)
}

/// The function of a node of a graph over any cut of it: variable i is leaf i.
///
/// For each choice of values of the leaves its value is that of the node in every valuation that
/// has these at the leaves and fits the rows between; the rows of leaves aren't looked at. An
/// error comes only where memory was refused.
pub fn function(alloc: Global, graph: &Graph, node: u32, cut: &Cut) -> Result<Truth, AllocError>
    requires node { node < length graph.now.rows }
    requires cut { IsCut graph.now.rows cut.now.items node }
    ensures { IfOk result (IsTruthOver graph.now.rows cut.now.items node) }
{
    syn_cones::function(alloc, graph.rows.as_slice(), node, cut.as_slice())
}
