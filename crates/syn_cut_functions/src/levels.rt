//! The functions of nodes over their cuts, level by level.

ghost use Rattle.std.specs.Prelude.{◌≡◌, ◌<◌, ◌≤◌, List, true, All, IfOk, OnOk, length};
ghost use Rattle.syn_rows.specs.declared.Row.{Row};
ghost use Rattle.syn_rows.specs.Reach.{is_and};
ghost use Rattle.syn_rows.specs.Rows.{row_at};
ghost use Rattle.syn_rows.specs.declared.TheConstants.{NODE_LIMIT};
ghost use Rattle.syn_cuts.specs.Cuts.{listed_cuts};
ghost use Rattle.syn_cuts.specs.Naming.{numbers_of};
ghost use Rattle.syn_cut_functions.specs.CutTruth.{AreCarried, AreFoundFor, AreFoundIn, AreOfAll, AreOfLit, IsFoundIn};
ghost use Rattle.syn_cut_functions.specs.Cuts.{cuts_of};

use crate::cut_truth::{CutTruth, FanIns, Functions};
use crate::functions::{carried_over, numbers_at};
use boxcar::slot::SlotRule;
use boxcar::tag::{Names, Tag};
use std::alloc::{AllocError, Global};
use std::thread::Threads;
use syn_cuts::{Board, CutLists, Finder, found_by_levels};
use syn_graph::Graph;
use syn_rows::{Lit, Row};
use syn_workers::Workers;

/// A node with its functions.
#[derive(Drop)]
pub struct Found {
    pub(crate) node: u32,
    pub(crate) own: Functions,
}

// The functions of a node over its cuts, where they are at this place of those that were found; else none.
fn own_at(found: &[Found], index: usize, node: u32) -> &[CutTruth]
    ensures { (rows : List Row) → All (IsFoundIn rows) found.now → AreCarried rows node (cuts_of rows node) result.now }
{
    if index < found.len() && found[index].node == node {
        found[index].own.carried.as_slice()
    } else {
        &[]
    }
}

// The functions of a literal's node over its cuts; none where they aren't known.
fn carried_at(known: &Board<Vec<Found>, AreFunctionsFor>, lit: Lit) -> &[CutTruth]
    ensures { (rows : List Row) → known.now.tag.numbers ≡ numbers_of rows → AreOfLit rows lit result.now }
{
    match known.of(lit.node()) {
        Some((found, index)) => own_at(found, index, lit.node()),
        None => &[],
    }
}

// The functions of a node over its cuts, as they are carried on; none where it is no AND.
fn carried(
    alloc: Global,
    graph: &Graph,
    cuts: &CutLists,
    known: &Board<Vec<Found>, AreFunctionsFor>,
    node: u32,
) -> Result<Vec<CutTruth>, AllocError>
    requires node { node < length graph.now.rows }
    requires cuts { cuts.now ≡ listed_cuts 4 graph.now.rows }
    requires name { known.now.tag.numbers ≡ numbers_of graph.now.rows }
    ensures carried { IfOk result (λ v. AreCarried graph.now.rows node (cuts_of graph.now.rows node) v.items) }
    ensures all { IfOk result (λ v. is_and (row_at graph.now.rows node) ≡ true → length (cuts_of graph.now.rows node) ≤ length v.items) }
{
    match graph.rows.as_slice()[node as usize] {
        Row::And(first, second) => {
            let known = FanIns {
                first,
                second,
                left: carried_at(known, first),
                right: carried_at(known, second),
            };
            carried_over(alloc, graph, cuts, node, known)
        }
        _ => Ok(Vec::new(alloc)),
    }
}

// The functions of a node.
fn find(
    alloc: Global,
    graph: &Graph,
    cuts: &CutLists,
    known: &Board<Vec<Found>, AreFunctionsFor>,
    node: u32,
) -> Result<Found, AllocError>
    requires cuts { cuts.now ≡ listed_cuts 4 graph.now.rows }
    requires name { known.now.tag.numbers ≡ numbers_of graph.now.rows }
    requires node { node < length graph.now.rows }
    ensures { IfOk result (IsFoundIn graph.now.rows) }
{
    let carried = carried(alloc, graph, cuts, known, node)?;
    let numbers = Some(numbers_at(alloc, graph, cuts, node, carried.as_slice())?);
    let own = Functions { carried, numbers };
    Ok(Found { node, own })
}

// The functions of these nodes.
fn find_all(
    alloc: Global,
    graph: &Graph,
    cuts: &CutLists,
    known: &Board<Vec<Found>, AreFunctionsFor>,
    nodes: &[u32],
) -> Result<Vec<Found>, AllocError>
    requires cuts { cuts.now ≡ listed_cuts 4 graph.now.rows }
    requires name { known.now.tag.numbers ≡ numbers_of graph.now.rows }
    ensures { IfOk result (AreFoundIn graph.now.rows) }
{
    let count = graph.rows.as_slice().len();
    let mut found = Vec::with_capacity(alloc, nodes.len())?;
    for node in nodes {
        if (*node as usize) < count {
            found.push(find(alloc, graph, cuts, known, *node)?)?;
        }
    }
    Ok(found)
}

// Sets the functions of a node.
fn set(graph: &Graph, lists: &mut Vec<Functions>, found: Found)
    requires lists { AreOfAll graph.now.rows lists.old.items }
    requires found { IsFoundIn graph.now.rows found }
    ensures { AreOfAll graph.now.rows lists.new.items }
{
    let Found { node, own } = found;
    lists[node as usize] = own;
}

// Sets the functions of nodes that were found.
fn set_all(graph: &Graph, lists: &mut Vec<Functions>, all: Vec<Found>)
    requires lists { AreOfAll graph.now.rows lists.old.items }
    requires all { AreFoundIn graph.now.rows all }
    ensures { AreOfAll graph.now.rows lists.new.items }
{
    for found in all {
        set(graph, lists, found);
    }
}

// Sets the functions of the nodes of all chunks.
fn set_each(graph: &Graph, lists: &mut Vec<Functions>, found: Vec<Vec<Found>>)
    requires lists { AreOfAll graph.now.rows lists.old.items }
    requires found { All (λ all. All (IsFoundIn graph.now.rows) all.items) found.items }
    ensures { AreOfAll graph.now.rows lists.new.items }
{
    for all in found {
        set_all(graph, lists, all);
    }
}

// A graph with its listed cuts, of whose nodes the functions are found.
#[derive(Drop)]
struct Carrying<'a> {
    graph: &'a Graph,
    cuts: &'a CutLists,
    ghost cuts_are: { cuts.now ≡ listed_cuts 4 graph.now.rows },
}

// What is found for rows of this name are functions over their nodes' cuts.
pub struct AreFunctionsFor;

impl SlotRule<Vec<Found>> for AreFunctionsFor {
    ghost holds = { AreFoundFor };
}

impl<'a> Names<Carrying<'a>> for AreFunctionsFor {
    ghost numbers = { λ c. numbers_of c.graph.now.rows };
}

impl<'a> Finder<Vec<Found>, AreFunctionsFor> for Carrying<'a> {
    ghost is_named = { λ c name. name ≡ numbers_of c.graph.now.rows };

    fn find(
        &self,
        alloc: Global,
        known: &Board<Vec<Found>, AreFunctionsFor>,
        nodes: &[u32],
    ) -> Result<Vec<Found>, AllocError> {
        let all = find_all(alloc, self.graph, self.cuts, known, nodes)?;
        Ok(all)
    }
}

// The functions of all nodes, as found by several workers.
fn found_functions<R: Threads + Sync>(
    rt: &R,
    alloc: Global,
    graph: &Graph,
    cuts: &CutLists,
    workers: Workers,
) -> Result<Vec<Vec<Found>>, AllocError>
    requires cuts { cuts.now ≡ listed_cuts 4 graph.now.rows }
    requires few { length graph.now.rows < NODE_LIMIT }
    ensures { IfOk result (λ found. All (λ all. All (IsFoundIn graph.now.rows) all.items) found.items) }
{
    let carrying = Carrying { graph, cuts };
    let name = Tag::of::<Carrying<'_>, AreFunctionsFor>(&carrying);
    let rows = graph.rows.as_slice();
    let all = found_by_levels(rt, alloc, rows, &carrying, &name, workers)?;
    Ok(all)
}

/// Sets the functions of all nodes, those of a level together, found by up to `workers` threads. The only error is want of
/// memory.
pub(crate) fn set_functions<R: Threads + Sync>(
    rt: &R,
    alloc: Global,
    graph: &Graph,
    cuts: &CutLists,
    lists: &mut Vec<Functions>,
    workers: Workers,
) -> Result<(), AllocError>
    requires cuts { cuts.now ≡ listed_cuts 4 graph.now.rows }
    requires few { length graph.now.rows < NODE_LIMIT }
    requires lists { AreOfAll graph.now.rows lists.old.items }
    ensures { OnOk result (AreOfAll graph.now.rows lists.new.items) }
{
    let found = found_functions(rt, alloc, graph, cuts, workers)?;
    set_each(graph, lists, found);
    Ok(())
}
