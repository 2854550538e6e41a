//! The functions of each AND over its cuts, as numbers.

ghost use Rattle.std.specs.Prelude.{◌≡◌, ◌<◌, true, List, IfOk, OnOk, length};
ghost use Rattle.syn_rows.specs.declared.Row.{Row};
ghost use Rattle.syn_rows.specs.declared.TheConstants.{NODE_LIMIT};
ghost use Rattle.syn_rows.specs.Reach.{is_and};
ghost use Rattle.syn_rows.specs.Rows.{row_at};
ghost use Rattle.syn_cuts.specs.Cuts.{listed_cuts};
ghost use Rattle.syn_cut_functions.specs.CutTruth.{AreOfAll};
ghost use Rattle.syn_cut_functions.specs.Functions.{AreFunctionsOver, HaveFunctions};
ghost use Rattle.syn_cut_functions.specs.Cuts.{cuts_of};

use crate::cut_truth::Functions;
use crate::functions::{cut_truths_at, numbers_at};
use crate::levels::set_functions;
use std::alloc::{AllocError, Global};
use std::thread::Threads;
use syn_cuts::CutLists;
use syn_graph::Graph;
use syn_workers::Workers;

// No functions of so many nodes.
fn none_found(alloc: Global, count: usize) -> Result<Vec<Functions>, AllocError>
    ensures { (rows : List Row) → count ≡ length rows → IfOk result (λ v. AreOfAll rows v.items) }
{
    let mut lists = Vec::with_capacity(alloc, count)?;
    for _ in 0..count {
        lists.push(Functions {
            carried: Vec::new(alloc),
            numbers: None,
        })?;
    }
    Ok(lists)
}

// The numbers of a node's functions: those that it has, or else from the functions of its fan-ins.
fn take_numbers(
    alloc: Global,
    graph: &Graph,
    cuts: &CutLists,
    lists: &mut Vec<Functions>,
    node: u32,
) -> Result<Vec<u16>, AllocError>
    requires cuts { cuts.now ≡ listed_cuts 4 graph.now.rows }
    requires lists { AreOfAll graph.now.rows lists.old.items }
    requires node { node < length graph.now.rows }
    ensures lists { OnOk result (AreOfAll graph.now.rows lists.new.items) }
    ensures numbers { IfOk result (λ v. is_and (row_at graph.now.rows node) ≡ true → AreFunctionsOver graph.now.rows node (cuts_of graph.now.rows node) v.items) }
{
    let own = &mut lists[node as usize];
    if let Some(numbers) = own.numbers.take() {
        return Ok(numbers);
    }
    let carried = cut_truths_at(alloc, graph, cuts, lists, node)?;
    let numbers = numbers_at(alloc, graph, cuts, node, carried.as_slice())?;
    lists[node as usize].carried = carried;
    Ok(numbers)
}

// The numbers of the functions of all nodes, from those that were found.
fn all_numbers(
    alloc: Global,
    graph: &Graph,
    cuts: &CutLists,
    lists: Vec<Functions>,
) -> Result<Vec<Vec<u16>>, AllocError>
    requires cuts { cuts.now ≡ listed_cuts 4 graph.now.rows }
    requires few { length graph.now.rows < NODE_LIMIT }
    requires lists { AreOfAll graph.now.rows lists.items }
    ensures count { IfOk result (λ v. length v.items ≡ length graph.now.rows) }
    ensures functions { IfOk result (λ v. HaveFunctions graph.now.rows v.items) }
{
    let mut lists = lists;
    let count = lists.len();
    let mut all = Vec::with_capacity(alloc, count)?;
    for node in 0..count {
        let numbers = take_numbers(alloc, graph, cuts, &mut lists, node as u32)?;
        all.push(numbers)?;
    }
    Ok(all)
}

/// The functions of each AND over its cuts, as numbers. Up to `workers` threads find them. The only error is want of memory.
pub fn cut_truths<R: Threads + Sync>(
    rt: &R,
    alloc: Global,
    graph: &Graph,
    cuts: &CutLists,
    workers: Workers,
) -> Result<Vec<Vec<u16>>, AllocError>
    requires { cuts.now ≡ listed_cuts 4 graph.now.rows }
    ensures count { IfOk result (λ v. length v.items ≡ length graph.now.rows) }
    ensures functions { IfOk result (λ v. HaveFunctions graph.now.rows v.items) }
{
    let _count = graph.count();
    let mut lists = none_found(alloc, graph.rows.as_slice().len())?;
    if workers.number() > 1 {
        set_functions(rt, alloc, graph, cuts, &mut lists, workers)?;
    }
    all_numbers(alloc, graph, cuts, lists)
}
