//! The functions of nodes over their cuts.

ghost use Rattle.std.specs.Prelude.{◌≡◌, ℕ, ◌<◌, ◌≤◌, true, List, IfOk, length};
ghost use Rattle.syn_rows.specs.declared.Row.{Row};
ghost use Rattle.syn_rows.specs.declared.Row.TheVariants.{And};
ghost use Rattle.syn_rows.specs.Reach.{is_and};
ghost use Rattle.syn_rows.specs.Rows.{row_at};
ghost use Rattle.syn_cones.specs.CutTruth.{IsCutFunction};
ghost use Rattle.syn_cuts.specs.Cuts.{listed_cuts};
ghost use Rattle.syn_cuts.specs.Leaves.{leaves_of};
ghost use Rattle.syn_cut_functions.specs.CutTruth.{AreCarried, AreOfLit, HaveCarried};
ghost use Rattle.syn_cut_functions.specs.Functions.{AreFunctionsOver, IsFunctionOver};
ghost use Rattle.syn_cut_functions.specs.Cuts.{cuts_of};

use crate::cut_truth::{CutTruth, FanIns, Functions, over_cut};
use std::alloc::{AllocError, Global};
use syn_cuts::{Cut, CutLists};
use syn_graph::Graph;
use syn_rows::{Lit, Row};

// The number of a function over leaves.
#[inline]
fn number_of(one: &CutTruth, leaves: &[u32]) -> u16
    requires { length leaves.now ≤ 4 }
    ensures { (rows : List Row) (node : ℕ) → IsCutFunction rows leaves.now node one.now.function → IsFunctionOver rows leaves.now node result }
{
    one.function.table(leaves).to_bits()
}

/// The functions of an AND over its cuts, in order, as they are carried on. The only error is want of memory.
pub(crate) fn carried_over(
    alloc: Global,
    graph: &Graph,
    cuts: &CutLists,
    node: u32,
    known: FanIns<'_>,
) -> Result<Vec<CutTruth>, AllocError>
    requires node { node < length graph.now.rows }
    requires row { row_at graph.now.rows node ≡ And known.first known.second }
    requires cuts { cuts.now ≡ listed_cuts 4 graph.now.rows }
    requires left { AreOfLit graph.now.rows known.first known.left.now }
    requires right { AreOfLit graph.now.rows known.second known.right.now }
    ensures carried { IfOk result (λ v. AreCarried graph.now.rows node (cuts_of graph.now.rows node) v.items) }
    ensures all { IfOk result (λ v. length (cuts_of graph.now.rows node) ≤ length v.items) }
{
    let own = cuts.nontrivial(node);
    let mut carried = Vec::with_capacity(alloc, own.len())?;
    for i in 0..own.len() {
        let leaves = own[i].as_slice();
        let one = over_cut(alloc, graph, cuts, node, known, leaves)?;
        carried.push(one)?;
    }
    Ok(carried)
}

// The functions of a literal's node over its cuts; none where it has no list.
fn carried_of(lists: &[Functions], lit: Lit) -> &[CutTruth]
    ensures { (rows : List Row) → HaveCarried rows lists.now → AreOfLit rows lit result.now }
{
    let node = lit.node();
    if (node as usize) < lists.len() {
        return lists[node as usize].carried.as_slice();
    }
    &[]
}

/// The functions of a node over its cuts, as they are carried on from those of all nodes below; none where it is no AND. The
/// only error is want of memory.
pub(crate) fn cut_truths_at(
    alloc: Global,
    graph: &Graph,
    cuts: &CutLists,
    lists: &[Functions],
    node: u32,
) -> Result<Vec<CutTruth>, AllocError>
    requires node { node < length graph.now.rows }
    requires cuts { cuts.now ≡ listed_cuts 4 graph.now.rows }
    requires count { node ≤ length lists.now }
    requires lists { HaveCarried graph.now.rows lists.now }
    ensures carried { IfOk result (λ v. AreCarried graph.now.rows node (cuts_of graph.now.rows node) v.items) }
    ensures all { IfOk result (λ v. is_and (row_at graph.now.rows node) ≡ true → length (cuts_of graph.now.rows node) ≤ length v.items) }
{
    match graph.rows.as_slice()[node as usize] {
        Row::And(first, second) => {
            let known = FanIns {
                first,
                second,
                left: carried_of(lists, first),
                right: carried_of(lists, second),
            };
            carried_over(alloc, graph, cuts, node, known)
        }
        _ => Ok(Vec::new(alloc)),
    }
}

// The numbers of the functions over cuts.
fn numbers_over(
    alloc: Global,
    graph: &Graph,
    node: u32,
    own: &[Cut],
    carried: &[CutTruth],
) -> Result<Vec<u16>, AllocError>
    requires node { is_and (row_at graph.now.rows node) ≡ true }
    requires own { leaves_of own.now ≡ cuts_of graph.now.rows node }
    requires all { length own.now ≤ length carried.now }
    requires carried { AreCarried graph.now.rows node (cuts_of graph.now.rows node) carried.now }
    ensures { IfOk result (λ v. AreFunctionsOver graph.now.rows node (cuts_of graph.now.rows node) v.items) }
{
    let mut numbers = Vec::with_capacity(alloc, own.len())?;
    for (i, cut) in own.iter().enumerate() {
        numbers.push(number_of(&carried[i], cut.as_slice()))?;
    }
    Ok(numbers)
}

/// The functions of a node over its cuts as numbers; none where it is no AND. The only error is want of memory.
pub(crate) fn numbers_at(
    alloc: Global,
    graph: &Graph,
    cuts: &CutLists,
    node: u32,
    carried: &[CutTruth],
) -> Result<Vec<u16>, AllocError>
    requires node { node < length graph.now.rows }
    requires cuts { cuts.now ≡ listed_cuts 4 graph.now.rows }
    requires all { is_and (row_at graph.now.rows node) ≡ true → length (cuts_of graph.now.rows node) ≤ length carried.now }
    requires carried { AreCarried graph.now.rows node (cuts_of graph.now.rows node) carried.now }
    ensures { IfOk result (λ v. is_and (row_at graph.now.rows node) ≡ true → AreFunctionsOver graph.now.rows node (cuts_of graph.now.rows node) v.items) }
{
    match graph.rows.as_slice()[node as usize] {
        Row::And(_, _) => numbers_over(alloc, graph, node, cuts.nontrivial(node), carried),
        _ => Ok(Vec::new(alloc)),
    }
}
