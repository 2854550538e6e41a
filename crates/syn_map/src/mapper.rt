//! From a graph to a LUT net.

ghost use Rattle.std.specs.Prelude.{◌≡◌, ◌+◌, ◌≤◌, true, IfOk, length, map};
ghost use Rattle.syn_rows.specs.Rows.{node_of};
ghost use Rattle.syn_truth.specs.declared.TheConstants.{MAX_VARS};
ghost use Rattle.syn_lutnet.specs.LutData.{greatest, net_depth, none_exceeds};
ghost use Rattle.syn_lutnet.specs.Data.{luts_data};
ghost use Rattle.syn_lutnet.specs.Nets.{HasFunctionOf};
ghost use Rattle.syn_map.specs.Labels.{label_of};
ghost use Rattle.syn_map.specs.Mappings.{IsMapped};

use crate::labelled::Labelled;
use std::alloc::{AllocError, Global};
use std::thread::Threads;
use syn_covering::net_of;
use syn_graph::Graph;
use syn_lutnet::LutNet;
use syn_workers::Workers;

/// The LUTs, of at most `k` inputs, of a graph: of the observed ANDs, and again and again of the ANDs among the leaves of
/// chosen cuts, in node order. The label of a source is 0, that of an AND one more than the least, over its listed cuts of
/// at most `k` leaves but the last, of the greatest label of a leaf; the chosen cut is the first that gives the least. So
/// the net has the least depth that the listed cuts allow.
///
/// The cuts are listed by so many workers; the net is the same for every number of them. The only error is want of memory.
pub fn map<R: Threads + Sync>(
    rt: &R,
    alloc: Global,
    graph: &Graph,
    k: u8,
    workers: Workers,
) -> Result<LutNet, AllocError>
    requires many { 2 ≤ k }
    requires few { k ≤ MAX_VARS }
    ensures mapping { IfOk result (IsMapped k graph.now) }
    ensures function { IfOk result (HasFunctionOf graph.now) }
    ensures depth { IfOk result (λ net. net_depth graph.now.source_count (luts_data net.luts) ≡ greatest (label_of k graph.now.rows) (map node_of graph.now.observed)) }
    ensures inputs { IfOk result (λ net. none_exceeds k (luts_data net.luts) ≡ true) }
    ensures count { IfOk result (λ net. length net.luts + (graph.now.source_count + 1) ≤ length graph.now.rows) }
{
    let labelled = Labelled::of(rt, alloc, graph, k, workers)?;
    net_of(alloc, graph, &labelled)
}
