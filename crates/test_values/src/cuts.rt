//! Calls on listed cuts, and functions over them.

ghost use Rattle.std.specs.Prelude.{◌≡◌, ◌≤◌, ℕ, ◌<◌, All, length, IfSome};
ghost use Rattle.syn_cones.specs.Cones.{IsCut};
ghost use Rattle.syn_cuts.specs.Lists.{list_at};

use crate::answers::{put, put_words};
use crate::operands::Operands;
use std::alloc::{AllocError, Global};
use std::thread::Threads;
use syn_cuts::{Cut, CutLists, function, listed};
use syn_graph::Graph;
use syn_truth::Truth;
use syn_workers::Workers;

// The cuts of a node; those of the constant where there is no such node.
fn cuts_at(lists: &CutLists, node: u32) -> &[Cut] {
    if node as usize >= lists.len() {
        return &[];
    }
    lists.of(node)
}

// How many nodes have cuts of up to four leaves by so many workers, and those of a node.
fn put_cuts<R: Threads + Sync>(
    rt: &R,
    alloc: Global,
    out: &mut String,
    graph: &Graph,
    node: u32,
    workers: u8,
) -> Result<(), AllocError>
    requires some { 1 ≤ workers }
    requires few { workers ≤ 16 }
{
    let lists = listed(rt, alloc, graph, 4, Workers::new(workers))?;
    put(out, Ok(lists.len()))?;
    put(out, Ok(cuts_at(&lists, node)))
}

// The same by 1 to 16 workers, each different answer once.
fn put_all_cuts<R: Threads + Sync>(
    rt: &R,
    alloc: Global,
    out: &mut String,
    graph: &Graph,
    node: u32,
) -> Result<(), AllocError> {
    put_cuts(rt, alloc, out, graph, node, 1)?;
    for workers in 2..17 {
        let mut other = String::new(alloc);
        put_cuts(rt, alloc, &mut other, graph, node, workers)?;
        if other.as_str() != out.as_str() {
            return put(out, Ok(workers));
        }
    }
    Ok(())
}

/// The listed cut of a node at this place; none where there is none.
pub fn cut_at<'a>(graph: &Graph, lists: &'a CutLists, node: u32, place: usize) -> Option<&'a Cut>
    requires { (n : ℕ) → n < length graph.now.rows → All (λ c. IsCut graph.now.rows c n) (list_at lists.now n) }
    ensures { IfSome result (λ c. (node < length graph.now.rows) × IsCut graph.now.rows c.now.items node) }
{
    if node as usize >= lists.len() || node as usize >= graph.rows.as_slice().len() {
        return None;
    }
    let cuts = lists.of(node);
    if place >= cuts.len() {
        return None;
    }
    Some(&cuts[place])
}

// The variables and the words of a function.
fn put_function(out: &mut String, found: Result<Truth, AllocError>) -> Result<(), AllocError> {
    let truth = found?;
    write!(out, "{} ", truth.vars)?;
    put_words(out, truth.low, truth.high)
}

// The function of a node over its listed cut at a place.
fn put_listed<R: Threads + Sync>(
    rt: &R,
    alloc: Global,
    out: &mut String,
    graph: &Graph,
    node: u32,
    place: u32,
) -> Result<(), AllocError> {
    let lists = listed(rt, alloc, graph, 4, Workers::new(1))?;
    match cut_at(graph, &lists, node, place as usize) {
        Some(cut) => put_function(out, function(alloc, graph, node, cut)),
        None => Ok(()),
    }
}

/// The answer to a call.
pub fn answer<R: Threads + Sync>(
    rt: &R,
    alloc: Global,
    out: &mut String,
    call: &str,
    graph: &Graph,
    operands: &Operands,
) -> Result<(), AllocError> {
    let node = operands.number(3);
    match call {
        "function" => put_listed(rt, alloc, out, graph, node, operands.number(4)),
        _ => put_all_cuts(rt, alloc, out, graph, node),
    }
}
