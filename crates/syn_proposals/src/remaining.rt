//! The check of a graph: the proposals that save, or that none does.

ghost use Rattle.std.specs.Prelude.{◌≡◌, ◌-◌, ◌<◌, ◌≤◌, ◌++◌, All, IfOk, IfSome, OnOk, length, map, option_map, option_to_list};
ghost use Rattle.syn_gain.specs.Uses.{IsUsesOf};
ghost use Rattle.syn_gain.specs.Proposals.{replacement};
ghost use Rattle.syn_proposals.specs.Closing.{Closed};
ghost use Rattle.syn_proposals.specs.Leftovers.{AreFirst, AreLeftovers, IsAddedBy, IsPartOf, listed};
ghost use Rattle.syn_proposals.specs.Sound.{IsLeftover, IsSound};

use crate::{BlockCounter, Proposer};
use std::alloc::{AllocError, Global};
use std::thread;
use std::thread::Threads;
use syn_gain::{Proposal, Uses};
use syn_graph::Graph;
use syn_rows::Row;
use syn_workers::Workers;

// How many nodes are worth a thread.
const MIN_CHUNK: usize = 256;

// What was found among the nodes at the places from one on, before another: of each AND the first proposal that saves, if one
// does.
#[derive(Drop)]
struct Part {
    from: usize,
    to: usize,
    found: Vec<Proposal>,
}

// How many threads are worth so many nodes, at most one a worker.
fn threads_for(nodes: usize, workers: Workers) -> usize {
    nodes
        .div_ceil(MIN_CHUNK)
        .min(workers.number() as usize)
        .max(1)
}

// The first proposal of a node that saves, if it is an AND of the graph and has one.
#[tactic(auto, using(crate::proofs::Gathered::none_behind))]
fn first_at<P: Proposer>(
    alloc: Global,
    graph: &Graph,
    uses: &Uses,
    proposer: &P,
    lists: &P::Lists,
    node: u32,
) -> Result<Option<Proposal>, AllocError>
    requires uses { IsUsesOf uses.now graph.now }
    requires lists { P.is_lists_of proposer.now lists.now graph.now.rows }
    ensures added { IfOk result (λ found. IsAddedBy graph.now.rows graph.now.observed (P.proposals proposer.now graph.now.rows) node (option_map replacement found)) }
    ensures sound { IfOk result (λ found. IfSome found (IsSound graph.now.rows)) }
{
    if node as usize >= graph.rows.as_slice().len() {
        return Ok(None);
    }
    match graph.rows.as_slice()[node as usize] {
        Row::And(_, _) => proposer.first_saving(alloc, graph, uses, lists, node),
        _ => Ok(None),
    }
}

// Adds a proposal that was found to a list.
fn add_found(found: &mut Vec<Proposal>, more: Option<Proposal>) -> Result<(), AllocError>
    ensures { OnOk result (found.new.items ≡ found.old.items ++ option_to_list more) }
{
    if let Some(proposal) = more {
        found.push(proposal)?;
    }
    Ok(())
}

// The leftovers of the nodes at the places from one on, before another.
fn found_between<P: Proposer>(
    alloc: Global,
    graph: &Graph,
    uses: &Uses,
    proposer: &P,
    lists: &P::Lists,
    nodes: &[u32],
    from: usize,
    to: usize,
) -> Result<Vec<Proposal>, AllocError>
    requires uses { IsUsesOf uses.now graph.now }
    requires lists { P.is_lists_of proposer.now lists.now graph.now.rows }
    requires order { from ≤ to }
    requires within { to ≤ length nodes.now }
    ensures all { IfOk result (λ found. AreLeftovers graph.now.rows graph.now.observed (P.proposals proposer.now graph.now.rows) (listed nodes.now) from (to - from) (map replacement found.items)) }
    ensures sound { IfOk result (λ found. All (IsSound graph.now.rows) found.items) }
{
    let mut found = Vec::new(alloc);
    for place in from..to {
        let first = first_at(alloc, graph, uses, proposer, lists, nodes[place])?;
        add_found(&mut found, first)?;
    }
    Ok(found)
}

// One part of the nodes.
fn part_of<P: Proposer>(
    alloc: Global,
    graph: &Graph,
    uses: &Uses,
    proposer: &P,
    lists: &P::Lists,
    nodes: &[u32],
    from: usize,
    to: usize,
) -> Result<Part, AllocError>
    requires uses { IsUsesOf uses.now graph.now }
    requires lists { P.is_lists_of proposer.now lists.now graph.now.rows }
    requires order { from ≤ to }
    requires within { to ≤ length nodes.now }
    ensures { IfOk result (IsPartOf graph.now.rows graph.now.observed (P.proposals proposer.now graph.now.rows) nodes.now) }
{
    let found = found_between(alloc, graph, uses, proposer, lists, nodes, from, to)?;
    Ok(Part { from, to, found })
}

// The parts of the blocks that one thread draws, until none is left.
fn parts_drawn<P: Proposer>(
    alloc: Global,
    graph: &Graph,
    uses: &Uses,
    proposer: &P,
    lists: &P::Lists,
    nodes: &[u32],
    turns: &BlockCounter,
) -> Result<Vec<Part>, AllocError>
    requires uses { IsUsesOf uses.now graph.now }
    requires lists { P.is_lists_of proposer.now lists.now graph.now.rows }
    ensures { IfOk result (λ parts. All (IsPartOf graph.now.rows graph.now.observed (P.proposals proposer.now graph.now.rows) nodes.now) parts.items) }
{
    let count = nodes.len();
    let mut parts = Vec::new(alloc);
    for _turn in 0..count {
        let (from, to) = turns.next_block(count);
        if from == to {
            break;
        }
        let part = part_of(alloc, graph, uses, proposer, lists, nodes, from, to)?;
        parts.push(part)?;
    }
    Ok(parts)
}

// The parts of all threads together.
fn gathered<P: Proposer>(
    alloc: Global,
    graph: &Graph,
    proposer: &P,
    nodes: &[u32],
    drawn: Vec<Result<Vec<Part>, AllocError>>,
) -> Result<Vec<Part>, AllocError>
    requires { All (λ more. IfOk more (λ parts. All (IsPartOf graph.now.rows graph.now.observed (P.proposals proposer.now graph.now.rows) nodes.now) parts.items)) drawn.items }
    ensures { IfOk result (λ parts. All (IsPartOf graph.now.rows graph.now.observed (P.proposals proposer.now graph.now.rows) nodes.now) parts.items) }
{
    let mut parts = Vec::new(alloc);
    for more in drawn {
        let mut more = more?;
        parts.append(&mut more)?;
    }
    Ok(parts)
}

// All parts in the nodes' order, found by threads that draw the nodes' blocks. One thread is this one.
fn find_parts<R: Threads + Sync, P: Proposer>(
    rt: &R,
    alloc: Global,
    graph: &Graph,
    uses: &Uses,
    proposer: &P,
    lists: &P::Lists,
    nodes: &[u32],
    workers: Workers,
) -> Result<Vec<Part>, AllocError>
    requires uses { IsUsesOf uses.now graph.now }
    requires lists { P.is_lists_of proposer.now lists.now graph.now.rows }
    ensures { IfOk result (λ parts. All (IsPartOf graph.now.rows graph.now.observed (P.proposals proposer.now graph.now.rows) nodes.now) parts.items) }
{
    let turns = &BlockCounter::new();
    let work = move |_thread: usize| -> Result<Vec<Part>, AllocError>
        requires { IsUsesOf uses.now graph.now × P.is_lists_of proposer.now lists.now graph.now.rows }
        ensures { IfOk result (λ parts. All (IsPartOf graph.entry.now.rows graph.entry.now.observed (P.proposals proposer.entry.now graph.entry.now.rows) nodes.entry.now) parts.items) }
    { parts_drawn(alloc, graph, uses, proposer, lists, nodes, turns) };
    let threads = threads_for(nodes.len(), workers);
    let drawn = thread::map_indices(rt, alloc, threads, &work)?;
    let mut parts = gathered(alloc, graph, proposer, nodes, drawn)?;
    parts.sort_unstable_by_key(|part| part.from);
    Ok(parts)
}

// Adds the leftovers of a part to those of the nodes before it: of how many nodes they are now. A part that begins
// elsewhere is left out.
fn take_part<P: Proposer>(
    graph: &Graph,
    proposer: &P,
    nodes: &[u32],
    found: &mut Vec<Proposal>,
    part: Part,
    reached: usize,
) -> Result<usize, AllocError>
    requires within { reached ≤ length nodes.now }
    requires all { AreLeftovers graph.now.rows graph.now.observed (P.proposals proposer.now graph.now.rows) (listed nodes.now) 0 reached (map replacement found.old.items) }
    requires sound { All (IsSound graph.now.rows) found.old.items }
    requires part { IsPartOf graph.now.rows graph.now.observed (P.proposals proposer.now graph.now.rows) nodes.now part }
    ensures within { IfOk result (λ n. n ≤ length nodes.now) }
    ensures all { IfOk result (λ n. AreLeftovers graph.now.rows graph.now.observed (P.proposals proposer.now graph.now.rows) (listed nodes.now) 0 n (map replacement found.new.items)) }
    ensures sound { OnOk result (All (IsSound graph.now.rows) found.new.items) }
{
    let Part {
        from,
        to,
        found: mut more,
    } = part;
    if from != reached {
        return Ok(reached);
    }
    found.append(&mut more)?;
    Ok(to)
}

// The leftovers of the parts, and of the nodes behind them.
fn found_in_parts<P: Proposer>(
    alloc: Global,
    graph: &Graph,
    uses: &Uses,
    proposer: &P,
    lists: &P::Lists,
    nodes: &[u32],
    parts: Vec<Part>,
) -> Result<Vec<Proposal>, AllocError>
    requires uses { IsUsesOf uses.now graph.now }
    requires lists { P.is_lists_of proposer.now lists.now graph.now.rows }
    requires parts { All (IsPartOf graph.now.rows graph.now.observed (P.proposals proposer.now graph.now.rows) nodes.now) parts.items }
    ensures all { IfOk result (λ found. AreLeftovers graph.now.rows graph.now.observed (P.proposals proposer.now graph.now.rows) (listed nodes.now) 0 (length nodes.now) (map replacement found.items)) }
    ensures sound { IfOk result (λ found. All (IsSound graph.now.rows) found.items) }
{
    let mut found = Vec::new(alloc);
    let mut reached = 0;
    for part in parts {
        reached = take_part(graph, proposer, nodes, &mut found, part, reached)?;
    }
    let count = nodes.len();
    let mut more = found_between(alloc, graph, uses, proposer, lists, nodes, reached, count)?;
    found.append(&mut more)?;
    Ok(found)
}

// The first so many nodes.
fn first_nodes(alloc: Global, count: u32) -> Result<Vec<u32>, AllocError>
    ensures { IfOk result (λ nodes. AreFirst count nodes.items) }
{
    let mut nodes = Vec::with_capacity(alloc, count as usize)?;
    for node in 0..count {
        nodes.push(node)?;
    }
    Ok(nodes)
}

/// The leftovers of a proposer on a graph with these lists: of each AND in node order the first proposal that saves, if one
/// does, and nothing else, so that they are the same for every number of workers. There are none where the graph is
/// closed. With several workers the nodes are shared among them. The only error is want of memory.
pub fn leftovers<R: Threads + Sync, P: Proposer>(
    rt: &R,
    alloc: Global,
    graph: &Graph,
    uses: &Uses,
    proposer: &P,
    lists: &P::Lists,
    workers: Workers,
) -> Result<Vec<Proposal>, AllocError>
    requires uses { IsUsesOf uses.now graph.now }
    requires lists { P.is_lists_of proposer.now lists.now graph.now.rows }
    ensures all { IfOk result (λ found. AreLeftovers graph.now.rows graph.now.observed (P.proposals proposer.now graph.now.rows) (λ k. k) 0 (length graph.now.rows) (map replacement found.items)) }
    ensures each { IfOk result (λ found. All (IsLeftover graph.now.rows graph.now.observed (P.proposals proposer.now graph.now.rows)) found.items) }
    ensures none { IfOk result (λ found. length found.items ≡ 0 → Closed graph.now.rows graph.now.observed (P.proposals proposer.now graph.now.rows)) }
{
    let _count = graph.count();
    let nodes = first_nodes(alloc, graph.rows.as_slice().len() as u32)?;
    let nodes = nodes.as_slice();
    leftovers_among(rt, alloc, graph, uses, proposer, lists, nodes, workers)
}

/// The leftovers among some nodes: of each AND of these, in their order, the first proposal that saves, if one does. It takes less
/// than `leftovers`, and tells nothing of other nodes. With several workers the nodes are shared among them, unless they are
/// few. The only error is want of memory.
pub fn leftovers_among<R: Threads + Sync, P: Proposer>(
    rt: &R,
    alloc: Global,
    graph: &Graph,
    uses: &Uses,
    proposer: &P,
    lists: &P::Lists,
    nodes: &[u32],
    workers: Workers,
) -> Result<Vec<Proposal>, AllocError>
    requires uses { IsUsesOf uses.now graph.now }
    requires lists { P.is_lists_of proposer.now lists.now graph.now.rows }
    ensures all { IfOk result (λ found. AreLeftovers graph.now.rows graph.now.observed (P.proposals proposer.now graph.now.rows) (listed nodes.now) 0 (length nodes.now) (map replacement found.items)) }
    ensures each { IfOk result (λ found. All (IsLeftover graph.now.rows graph.now.observed (P.proposals proposer.now graph.now.rows)) found.items) }
{
    let parts = find_parts(rt, alloc, graph, uses, proposer, lists, nodes, workers)?;
    found_in_parts(alloc, graph, uses, proposer, lists, nodes, parts)
}
