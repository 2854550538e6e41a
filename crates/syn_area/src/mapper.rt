//! From a graph to a LUT net.

ghost use Rattle.std.specs.Prelude.{◌≡◌, ◌+◌, ◌≤◌, true, IfOk, length};
ghost use Rattle.syn_truth.specs.declared.TheConstants.{MAX_VARS};
ghost use Rattle.syn_lutnet.specs.LutData.{net_depth, none_exceeds};
ghost use Rattle.syn_lutnet.specs.Data.{luts_data};
ghost use Rattle.syn_lutnet.specs.Nets.{HasFunctionOf};
ghost use Rattle.syn_area.specs.Areas.{CostAlike};
ghost use Rattle.syn_area.specs.Plain.{AreLutsOf, IsNoWorse, NoDearerThanPlain, NoDeeperThanPlain, NoMoreThanPlain};

use crate::nets::cheaper;
use crate::prices::Prices;
use crate::rounds::choose;
use std::alloc::{AllocError, Global};
use std::thread::Threads;
use syn_covering::net_of;
use syn_graph::Graph;
use syn_lutnet::LutNet;
use syn_workers::Workers;

/// LUTs of at most `k` inputs of a graph that cost little: never more than those that `map` makes of it, and never deeper. A
/// LUT costs the least of the areas of those of as many inputs or more; the areas are those of LUTs of one input, of two, and
/// so on. Where LUTs of 2 to `k` inputs all cost the same, they are never more LUTs than `map`'s.
///
/// The cuts of `map` are listed by so many workers; the net is the same for every number of them. The only error is want of
/// memory.
pub fn map_for_area<R: Threads + Sync>(
    rt: &R,
    alloc: Global,
    graph: &Graph,
    k: u8,
    areas: &[u32],
    workers: Workers,
) -> Result<LutNet, AllocError>
    requires many { 2 ≤ k }
    requires few { k ≤ MAX_VARS }
    ensures function { IfOk result (HasFunctionOf graph.now) }
    ensures inputs { IfOk result (λ net. none_exceeds k (luts_data net.luts) ≡ true) }
    ensures depth { IfOk result (NoDeeperThanPlain k graph.now) }
    ensures cost { IfOk result (NoDearerThanPlain k areas.now graph.now) }
    ensures fewer { CostAlike k areas.now → IfOk result (NoMoreThanPlain k graph.now) }
    ensures count { IfOk result (λ net. length net.luts + (graph.now.source_count + 1) ≤ length graph.now.rows) }
{
    let plain = syn_map::map(rt, alloc, graph, k, workers)?;
    best(alloc, graph, k, areas, plain)
}

// The best of a net and of what is searched: for LUTs that all cost the same; and where they don't, for their prices, with room
// up to the net's depth.
fn best(
    alloc: Global,
    graph: &Graph,
    k: u8,
    areas: &[u32],
    plain: LutNet,
) -> Result<LutNet, AllocError>
    requires many { 2 ≤ k }
    requires few { k ≤ MAX_VARS }
    requires luts { AreLutsOf k graph.now plain }
    ensures luts { IfOk result (AreLutsOf k graph.now) }
    ensures no_worse { IfOk result (λ kept. IsNoWorse k areas.now kept plain) }
{
    let equal = Prices::equal();
    let prices = Prices::of(areas, k);
    if prices.are_equal() {
        return bettered(alloc, graph, k, areas, &equal, 0, plain);
    }
    match plain.depth(alloc) {
        Ok(room) => {
            let kept = bettered(alloc, graph, k, areas, &equal, 0, plain)?;
            bettered(alloc, graph, k, areas, &prices, room, kept)
        }
        Err(error) => {
            drop(plain);
            Err(error)
        }
    }
}

// What is searched for LUTs of these prices, with room up to a depth, where it is no worse than a net; else that.
fn bettered(
    alloc: Global,
    graph: &Graph,
    k: u8,
    areas: &[u32],
    prices: &Prices,
    room: u32,
    plain: LutNet,
) -> Result<LutNet, AllocError>
    requires many { 2 ≤ k }
    requires few { k ≤ MAX_VARS }
    requires luts { AreLutsOf k graph.now plain }
    ensures luts { IfOk result (AreLutsOf k graph.now) }
    ensures no_worse { IfOk result (λ kept. IsNoWorse k areas.now kept plain) }
{
    match searched_beside(alloc, graph, k, prices, room, &plain) {
        Ok((net, most)) => cheaper(alloc, areas, net, plain, most),
        Err(error) => {
            drop(plain);
            Err(error)
        }
    }
}

// What is searched, and how deep another net is.
fn searched_beside(
    alloc: Global,
    graph: &Graph,
    k: u8,
    prices: &Prices,
    room: u32,
    plain: &LutNet,
) -> Result<(LutNet, u32), AllocError>
    requires many { 2 ≤ k }
    requires few { k ≤ MAX_VARS }
    ensures luts { IfOk result (λ found. AreLutsOf k graph.now found.0) }
    ensures depth { IfOk result (λ found. found.1 ≡ net_depth plain.now.source_count (luts_data plain.now.luts)) }
{
    let depth = plain.depth(alloc)?;
    let net = searched(alloc, graph, k, prices, room)?;
    Ok((net, depth))
}

// The LUTs over the cuts that the rounds choose.
fn searched(
    alloc: Global,
    graph: &Graph,
    k: u8,
    prices: &Prices,
    room: u32,
) -> Result<LutNet, AllocError>
    requires many { 2 ≤ k }
    requires few { k ≤ MAX_VARS }
    ensures { IfOk result (AreLutsOf k graph.now) }
{
    let chosen = choose(alloc, graph, k, prices, room)?;
    net_of(alloc, graph, &chosen)
}

/// LUTs of at most `k` inputs of a graph that cost little, as they are found where there is room up to a depth. They mostly
/// cost less than those of `map_for_area`, yet nothing is promised of that; `cheaper` tells. The only error is want of
/// memory.
pub fn map_for_least_area(
    alloc: Global,
    graph: &Graph,
    k: u8,
    areas: &[u32],
    room: u32,
) -> Result<LutNet, AllocError>
    requires many { 2 ≤ k }
    requires few { k ≤ MAX_VARS }
    ensures { IfOk result (AreLutsOf k graph.now) }
{
    let prices = Prices::of(areas, k);
    searched(alloc, graph, k, &prices, room)
}
