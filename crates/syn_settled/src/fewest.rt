//! Nets of few LUTs whatever their depth.

ghost use Rattle.std.specs.Prelude.{◌≡◌, ◌+◌, ◌≤◌, true, IfOk, length};
ghost use Rattle.syn_truth.specs.declared.TheConstants.{MAX_VARS};
ghost use Rattle.syn_lutnet.specs.LutData.{none_exceeds};
ghost use Rattle.syn_lutnet.specs.Data.{luts_data};
ghost use Rattle.syn_lutnet.specs.Nets.{HasFunctionOf};
ghost use Rattle.syn_absorb.specs.Flips.{AllShown, MostShown};
ghost use Rattle.syn_absorb.specs.Needed.{AllDepend};
ghost use Rattle.syn_settled.specs.Fewest.{AreFewLutsOf, AreFewestLutsOf, AreWrittenLutsOf, IsRoom};

use crate::few::few_luts;
use crate::settling::settle;
use std::alloc::{AllocError, Global};
use std::thread::Threads;
use syn_area::{cheaper, map_for_least_area};
use syn_graph::Graph;
use syn_lutnet::LutNet;
use syn_workers::Workers;

/// A graph mapped to LUTs that cost little whatever their depth, or at most so many levels deeper than those of `few_luts`:
/// they never cost more than those, and where they cost the same they are no more. Each reads only what it depends on, and none
/// is observed by more literals complemented than plain. A LUT costs the least of the areas of those of as many inputs or
/// more; the areas are those of LUTs of one input, of two, and so on. The only error is want of memory.
pub fn fewest_luts<R: Threads + Sync>(
    rt: &R,
    alloc: Global,
    graph: &Graph,
    k: u8,
    areas: &[u32],
    slack: Option<u32>,
    workers: Workers,
) -> Result<LutNet, AllocError>
    requires many { 2 ≤ k }
    requires few { k ≤ MAX_VARS }
    ensures function { IfOk result (HasFunctionOf graph.now) }
    ensures inputs { IfOk result (λ net. none_exceeds k (luts_data net.luts) ≡ true) }
    ensures count { IfOk result (λ net. length net.luts + (graph.now.source_count + 1) ≤ length graph.now.rows) }
    ensures depend { IfOk result (λ net. AllDepend (luts_data net.luts)) }
    ensures most { IfOk result (λ net. MostShown (graph.now.source_count + 1) net.observed) }
    ensures shown { IfOk result (λ net. AllShown (graph.now.source_count + 1) net.observed) }
    ensures fewest { IfOk result (AreFewestLutsOf k areas.now slack graph.now) }
{
    let few = few_luts(rt, alloc, graph, k, areas, workers)?;
    bettered(alloc, graph, k, areas, slack, few)
}

// The LUTs that are found where there is room up to so many levels more than few LUTs have, where they are no dearer than
// those and no deeper than that; else the few.
fn bettered(
    alloc: Global,
    graph: &Graph,
    k: u8,
    areas: &[u32],
    slack: Option<u32>,
    few: LutNet,
) -> Result<LutNet, AllocError>
    requires many { 2 ≤ k }
    requires few { k ≤ MAX_VARS }
    requires luts { AreFewLutsOf k areas.now graph.now few }
    ensures luts { IfOk result (AreWrittenLutsOf k graph.now) }
    ensures fewest { IfOk result (AreFewestLutsOf k areas.now slack graph.now) }
{
    match found_beside(alloc, graph, k, areas, slack, &few) {
        Ok((net, room)) => cheaper(alloc, areas, net, few, room),
        Err(error) => {
            drop(few);
            Err(error)
        }
    }
}

// The LUTs that are found where there is room up to so many levels more than a net has, and that room.
fn found_beside(
    alloc: Global,
    graph: &Graph,
    k: u8,
    areas: &[u32],
    slack: Option<u32>,
    few: &LutNet,
) -> Result<(LutNet, u32), AllocError>
    requires many { 2 ≤ k }
    requires few { k ≤ MAX_VARS }
    ensures luts { IfOk result (λ found. AreWrittenLutsOf k graph.now found.0) }
    ensures room { IfOk result (λ found. IsRoom slack few.now found.1) }
{
    let room = room_over(alloc, slack, few)?;
    let net = found(alloc, graph, k, areas, room)?;
    Ok((net, room))
}

// As many levels as a net has and so many more; the greatest number where that isn't bounded.
fn room_over(alloc: Global, slack: Option<u32>, few: &LutNet) -> Result<u32, AllocError>
    ensures { IfOk result (IsRoom slack few.now) }
{
    match slack {
        None => Ok(u32::MAX),
        Some(levels) => {
            let depth = few.depth(alloc)?;
            Ok(depth.saturating_add(levels))
        }
    }
}

// The LUTs that are found where there is room up to a depth, as they are written.
fn found(
    alloc: Global,
    graph: &Graph,
    k: u8,
    areas: &[u32],
    room: u32,
) -> Result<LutNet, AllocError>
    requires many { 2 ≤ k }
    requires few { k ≤ MAX_VARS }
    ensures { IfOk result (AreWrittenLutsOf k graph.now) }
{
    let mapped = map_for_least_area(alloc, graph, k, areas, room)?;
    settle(alloc, &mapped)
}
