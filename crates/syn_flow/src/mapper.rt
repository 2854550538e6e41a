//! From a graph to a LUT net of least depth.

ghost use Rattle.std.specs.Prelude.{◌≡◌, ◌+◌, ◌≤◌, true, IfOk, length, map};
ghost use Rattle.syn_rows.specs.Rows.{node_of};
ghost use Rattle.syn_truth.specs.declared.TheConstants.{MAX_VARS};
ghost use Rattle.syn_lutnet.specs.LutData.{greatest, net_depth, none_exceeds};
ghost use Rattle.syn_lutnet.specs.Data.{luts_data};
ghost use Rattle.syn_lutnet.specs.Nets.{HasFunctionOf};
ghost use Rattle.syn_paths.specs.Tops.{label_in};
ghost use Rattle.syn_flow.specs.Flows.{HasLeastDepth, IsCoveredBy, IsFlowMapping, IsWitness};

use crate::labels::{Labelling, label_all};
use crate::witness::FlowProof;
use std::alloc::{AllocError, Global};
use syn_covering::net_of;
use syn_graph::Graph;
use syn_lists::Items;
use syn_lutnet::LutNet;

/// The LUTs, of at most `k` inputs, of a graph at the least depth that any covering has, and what bears out the labels. The
/// label of a source is 0, that of an AND over sources alone 1. Else let p be the greatest label of its fan-ins, and its top
/// the node with the nodes of label p in its cone: the label is p where at most `k` nodes cut the top off, and the chosen
/// cut is, of those with fewest leaves, the one whose inside is least; else it is p + 1, and the two fan-ins are the cut.
/// LUTs are made for the observed ANDs, and again and again for the ANDs among the leaves of chosen cuts, in node order. The
/// only error is want of memory.
pub fn flow(alloc: Global, graph: &Graph, k: u8) -> Result<(LutNet, FlowProof), AllocError>
    requires many { 2 ≤ k }
    requires few { k ≤ MAX_VARS }
    ensures mapping { IfOk result (λ r. IsFlowMapping k graph.now r.0 r.1) }
    ensures function { IfOk result (λ r. HasFunctionOf graph.now r.0) }
    ensures depth { IfOk result (λ r. net_depth graph.now.source_count (luts_data r.0.luts) ≡ greatest (label_in r.1.labels) (map node_of graph.now.observed)) }
    ensures covering { IfOk result (λ r. IsCoveredBy k graph.now r.0) }
    ensures least { IfOk result (λ r. HasLeastDepth k graph.now r.0) }
    ensures witness { IfOk result (λ r. IsWitness k graph.now.rows r.1) }
    ensures inputs { IfOk result (λ r. none_exceeds k (luts_data r.0.luts) ≡ true) }
    ensures count { IfOk result (λ r. length r.0.luts + (graph.now.source_count + 1) ≤ length graph.now.rows) }
{
    let labelling = label_all(alloc, graph.rows.as_slice(), k)?;
    let net = net_of(alloc, graph, &labelling)?;
    let Labelling {
        labels,
        cuts: _,
        paths,
    } = labelling;
    let proof = FlowProof {
        labels: Items::of(labels),
        paths: Items::of(paths),
    };
    Ok((net, proof))
}
