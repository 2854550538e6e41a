//! From a graph and its cuts to a LUT net.

ghost use Rattle.std.specs.Prelude.{◌≡◌, ℕ, ◌+◌, ◌≤◌, true, IfOk, length};
ghost use Rattle.syn_truth.specs.declared.TheConstants.{MAX_VARS};
ghost use Rattle.syn_lutnet.specs.LutData.{none_exceeds};
ghost use Rattle.syn_lutnet.specs.Data.{luts_data};
ghost use Rattle.syn_lutnet.specs.Nets.{HasFunctionOf};
ghost use Rattle.syn_covering.specs.Cuts.{AreLutCuts};
ghost use Rattle.syn_covering.specs.Making.{HasDepthOver, IsMappedBy};

use crate::choice::Choice;
use crate::luts::{make_luts, signal_literals};
use crate::needs::needed;
use crate::signals::number;
use std::alloc::{AllocError, Global};
use syn_graph::Graph;
use syn_lists::Items;
use syn_lutnet::LutNet;

/// The LUTs of a graph over one cut for each AND: of the observed ANDs, and again and again of the ANDs among the leaves of
/// their cuts, in node order. Where the label of an AND is one more than the greatest of a leaf of its cut, and any other's
/// is 0, the net is as deep as the greatest label of an observed node. The only error is want of memory.
pub fn net_of<C: Choice>(alloc: Global, graph: &Graph, choice: &C) -> Result<LutNet, AllocError>
    requires count { C.count choice.now ≡ length graph.now.rows }
    requires cuts { AreLutCuts MAX_VARS graph.now.rows (C.leaves choice.now) }
    ensures mapping { IfOk result (IsMappedBy (C.leaves choice.now) graph.now) }
    ensures function { IfOk result (HasFunctionOf graph.now) }
    ensures depth { IfOk result (HasDepthOver (C.leaves choice.now) graph.now) }
    ensures inputs { IfOk result (λ net. (k : ℕ) → AreLutCuts k graph.now.rows (C.leaves choice.now) → none_exceeds k (luts_data net.luts) ≡ true) }
    ensures count { IfOk result (λ net. length net.luts + (graph.now.source_count + 1) ≤ length graph.now.rows) }
{
    make_net(alloc, graph, choice)
}

// The LUTs of a graph's cuts.
fn make_net<C: Choice>(alloc: Global, graph: &Graph, choice: &C) -> Result<LutNet, AllocError>
    requires count { C.count choice.now ≡ length graph.now.rows }
    requires cuts { AreLutCuts MAX_VARS graph.now.rows (C.leaves choice.now) }
    ensures { IfOk result (λ net. (net.source_count ≡ graph.now.source_count) × IsMappedBy (C.leaves choice.now) graph.now net) }
{
    let rows = graph.rows.as_slice();
    let observed = graph.observed.as_slice();
    let marks = needed(alloc, rows, choice, observed)?;
    let numbering = number(alloc, marks.as_slice(), graph.source_count)?;
    let signals = numbering.signals.as_slice();
    let luts = make_luts(alloc, rows, choice, signals, numbering.nodes.as_slice())?;
    let outs = signal_literals(alloc, signals, observed)?;
    Ok(LutNet {
        source_count: graph.source_count,
        luts: Items::of(luts),
        observed: Items::of(outs),
    })
}
