//! Nets of few LUTs.

ghost use Rattle.std.specs.Prelude.{◌≡◌, ◌+◌, ◌≤◌, true, IfOk, length};
ghost use Rattle.syn_truth.specs.declared.TheConstants.{MAX_VARS};
ghost use Rattle.syn_lutnet.specs.LutData.{none_exceeds};
ghost use Rattle.syn_lutnet.specs.Data.{luts_data};
ghost use Rattle.syn_lutnet.specs.Nets.{HasFunctionOf};
ghost use Rattle.syn_area.specs.Areas.{CostAlike};
ghost use Rattle.syn_area.specs.Plain.{NoDearerThanPlain, NoDeeperThanPlain, NoMoreThanPlain};
ghost use Rattle.syn_absorb.specs.Flips.{AllShown, MostShown};
ghost use Rattle.syn_absorb.specs.Needed.{AllDepend};

use crate::settling::settle;
use std::alloc::{AllocError, Global};
use std::thread::Threads;
use syn_area::map_for_area;
use syn_graph::Graph;
use syn_lutnet::LutNet;
use syn_workers::Workers;

/// A graph mapped to LUTs that cost little, each of which reads only what it depends on, and none of which more literals
/// observe complemented than plain. A LUT costs the least of the areas of those of as many inputs or more; the areas are those
/// of LUTs of one input, of two, and so on. The only error is want of memory.
pub fn few_luts<R: Threads + Sync>(
    rt: &R,
    alloc: Global,
    graph: &Graph,
    k: u8,
    areas: &[u32],
    workers: Workers,
) -> Result<LutNet, AllocError>
    requires many { 2 ≤ k }
    requires few { k ≤ MAX_VARS }
    ensures function { IfOk result (HasFunctionOf graph.now) }
    ensures inputs { IfOk result (λ net. none_exceeds k (luts_data net.luts) ≡ true) }
    ensures depth { IfOk result (NoDeeperThanPlain k graph.now) }
    ensures cost { IfOk result (NoDearerThanPlain k areas.now graph.now) }
    ensures fewer { CostAlike k areas.now → IfOk result (NoMoreThanPlain k graph.now) }
    ensures count { IfOk result (λ net. length net.luts + (graph.now.source_count + 1) ≤ length graph.now.rows) }
    ensures depend { IfOk result (λ net. AllDepend (luts_data net.luts)) }
    ensures most { IfOk result (λ net. MostShown (graph.now.source_count + 1) net.observed) }
    ensures shown { IfOk result (λ net. AllShown (graph.now.source_count + 1) net.observed) }
{
    let mapped = map_for_area(rt, alloc, graph, k, areas, workers)?;
    settle(alloc, &mapped)
}
