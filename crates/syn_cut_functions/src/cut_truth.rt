//! The function of an AND over a cut, from the functions of its fan-ins.

ghost use Rattle.std.specs.Prelude.{◌≡◌, ◌<◌, ◌≤◌, false, List, IfOk, IfSome, length};
ghost use Rattle.syn_rows.specs.declared.Row.{Row};
ghost use Rattle.syn_rows.specs.declared.Row.TheVariants.{And};
ghost use Rattle.syn_rows.specs.Rows.{InOrder, node_of, row_at};
ghost use Rattle.syn_cones.specs.CutTruth.{IsCutFunction};
ghost use Rattle.syn_cuts.specs.Cuts.{listed_cuts};
ghost use Rattle.syn_cuts.specs.Leaves.{leaves_of};
ghost use Rattle.syn_cut_functions.specs.CutTruth.{AreCarried, AreOfLit, FollowsFrom};
ghost use Rattle.syn_cut_functions.specs.Cuts.{AreLeavesOf, cuts_of};

use std::alloc::{AllocError, Global};
use syn_cones::CutFunction;
use syn_cuts::{Cut, CutLists, signature};
use syn_graph::Graph;
use syn_rows::Lit;

// The function of a node over a cut, and the cut's signature, by which cuts that can't serve are passed over.
#[derive(Clone, Copy, Debug)]
pub(crate) struct CutTruth {
    pub(crate) function: CutFunction,
    pub(crate) signature: u64,
}

/// The functions of a node over its cuts, in order: as they are carried on, and as numbers until these are taken.
#[derive(Drop)]
pub struct Functions {
    pub(crate) carried: Vec<CutTruth>,
    pub(crate) numbers: Option<Vec<u16>>,
}

// The function of a node over leaves, from the first of its functions over cuts that serves.
fn from_cuts(
    node: u32,
    cuts: &[Cut],
    known: &[CutTruth],
    leaves: &[u32],
    bits: u64,
) -> Option<CutFunction>
    requires few { length leaves.now ≤ 4 }
    ensures { IfSome result (λ f. (rows : List Row) → InOrder rows → AreCarried rows node (leaves_of cuts.now) known.now → IsCutFunction rows leaves.now node f) }
{
    for (i, one) in known.iter().enumerate() {
        if i < cuts.len() && one.signature & !bits == 0 {
            if let Some(found) = one.function.over_more(node, cuts[i].as_slice(), leaves) {
                return Some(found);
            }
        }
    }
    None
}

// The function of a node over leaves: a leaf's own, or from its functions over cuts.
fn fan_in(
    cuts: &CutLists,
    known: &[CutTruth],
    node: u32,
    leaves: &[u32],
    bits: u64,
) -> Option<CutFunction>
    requires few { length leaves.now ≤ 4 }
    requires within { node < length cuts.now }
    ensures { IfSome result (λ f. (rows : List Row) → InOrder rows → cuts.now ≡ listed_cuts 4 rows → AreCarried rows node (cuts_of rows node) known.now → IsCutFunction rows leaves.now node f) }
{
    if let Some(own) = CutFunction::of_leaf(leaves, node) {
        return Some(own);
    }
    let found = from_cuts(node, cuts.nontrivial(node), known, leaves, bits)?;
    Some(found)
}

/// The fan-ins of an AND, and what is known of their functions over their cuts.
#[derive(Clone, Copy)]
pub(crate) struct FanIns<'a> {
    pub(crate) first: Lit,
    pub(crate) second: Lit,
    pub(crate) left: &'a [CutTruth],
    pub(crate) right: &'a [CutTruth],
}

// The function of an AND over leaves, from those of its fan-ins, where some of their cuts serve.
fn from_fan_ins(
    cuts: &CutLists,
    node: u32,
    known: FanIns<'_>,
    leaves: &[u32],
    bits: u64,
) -> Option<CutFunction>
    requires few { length leaves.now ≤ 4 }
    requires first { node_of known.first < length cuts.now }
    requires second { node_of known.second < length cuts.now }
    ensures { IfSome result (FollowsFrom node known.entry.first known.entry.second known.entry.left.now known.entry.right.now leaves.now cuts.now) }
{
    let left = fan_in(cuts, known.left, known.first.node(), leaves, bits)?;
    let right = fan_in(cuts, known.right, known.second.node(), leaves, bits)?;
    Some(CutFunction::of_and(node, known.first, left, known.second, right))
}

/// The function of an AND with these fan-ins over a cut of it, and the cut's signature: from those of its fan-ins where some of
/// their cuts serve, else by the rows between. The only error is want of memory.
pub(crate) fn over_cut(
    alloc: Global,
    graph: &Graph,
    cuts: &CutLists,
    node: u32,
    known: FanIns<'_>,
    leaves: &[u32],
) -> Result<CutTruth, AllocError>
    requires node { node < length graph.now.rows }
    requires row { row_at graph.now.rows node ≡ And known.first known.second }
    requires cuts { cuts.now ≡ listed_cuts 4 graph.now.rows }
    requires left { AreOfLit graph.now.rows known.first known.left.now }
    requires right { AreOfLit graph.now.rows known.second known.right.now }
    requires leaves { AreLeavesOf graph.now.rows node leaves.now }
    ensures { IfOk result (λ c. IsCutFunction graph.now.rows leaves.now node c.function) }
{
    let signature = signature(leaves);
    if let Some(function) = from_fan_ins(cuts, node, known, leaves, signature) {
        return Ok(CutTruth {
            function,
            signature,
        });
    }
    let function = CutFunction::of_cone(alloc, graph.rows.as_slice(), node, leaves)?;
    Ok(CutTruth {
        function,
        signature,
    })
}
