//! Nets of LUTs of the least depth.

ghost use Rattle.std.specs.Prelude.{◌≡◌, ◌+◌, ◌≤◌, true, IfOk, length};
ghost use Rattle.syn_truth.specs.declared.TheConstants.{MAX_VARS};
ghost use Rattle.syn_lutnet.specs.LutData.{none_exceeds};
ghost use Rattle.syn_lutnet.specs.Data.{luts_data};
ghost use Rattle.syn_lutnet.specs.Nets.{HasFunctionOf};
ghost use Rattle.syn_flow.specs.Flows.{HasLeastDepth};
ghost use Rattle.syn_absorb.specs.Flips.{AllShown, MostShown};
ghost use Rattle.syn_absorb.specs.Needed.{AllDepend};

use crate::settling::settle;
use std::alloc::{AllocError, Global};
use syn_flow::flow;
use syn_graph::Graph;
use syn_lutnet::LutNet;

/// A graph mapped at the least depth, to LUTs each of which reads only what it depends on, and none of which more literals
/// observe complemented than plain. The only error is want of memory.
pub fn least_luts(alloc: Global, graph: &Graph, k: u8) -> Result<LutNet, AllocError>
    requires many { 2 ≤ k }
    requires few { k ≤ MAX_VARS }
    ensures function { IfOk result (HasFunctionOf graph.now) }
    ensures least { IfOk result (HasLeastDepth k graph.now) }
    ensures inputs { IfOk result (λ net. none_exceeds k (luts_data net.luts) ≡ true) }
    ensures count { IfOk result (λ net. length net.luts + (graph.now.source_count + 1) ≤ length graph.now.rows) }
    ensures depend { IfOk result (λ net. AllDepend (luts_data net.luts)) }
    ensures most { IfOk result (λ net. MostShown (graph.now.source_count + 1) net.observed) }
    ensures shown { IfOk result (λ net. AllShown (graph.now.source_count + 1) net.observed) }
{
    let (mapped, _proof) = flow(alloc, graph, k)?;
    settle(alloc, &mapped)
}
