//! Calls on what proposals save.

ghost use Rattle.std.specs.Prelude.{◌≡◌, ℕ, ◌<◌, IfOk, IfSome, length, true};
ghost use Rattle.syn_rows.specs.Rows.{row_at};
ghost use Rattle.syn_rows.specs.Reach.{is_and};
ghost use Rattle.syn_cones.specs.Cones.{IsCut};
ghost use Rattle.syn_gain.specs.Proposals.{replacement};
ghost use Rattle.syn_gain.specs.Uses.{IsUsesOf};
ghost use Rattle.syn_apply.specs.Sound.{IsSoundBy};

use crate::answers::put;
use crate::cuts::cut_at;
use crate::operands::Operands;
use arrayvec::ArrayVec;
use std::alloc::{AllocError, Global};
use std::thread::Threads;
use syn_apply::applied;
use syn_cuts::{Cut, function, listed};
use syn_gain::{Candidate, Proposal, Room, Uses, are_below, mffc_size, rise_above, saved, saves};
use syn_graph::Graph;
use syn_plan::{PLit, Plan, factor};
use syn_rows::{NODE_LIMIT, Row};
use syn_workers::Workers;

/// Whether the node's row is an AND.
pub fn is_and(graph: &Graph, node: u32) -> bool
    ensures { result ≡ is_and (row_at graph.now.rows node) }
{
    let rows = graph.rows.as_slice();
    if node as usize >= rows.len() {
        return false;
    }
    match rows[node as usize] {
        Row::And(_, _) => true,
        _ => false,
    }
}

// The complement of the AND of the first leaf with "the second or the third".
fn shared_gate() -> Plan
    ensures { result.leaves ≡ 3 }
{
    let mut plan = Plan::new(3);
    let neither = plan.and(PLit(5), PLit(7));
    let both = plan.and(PLit(2), neither.not());
    plan.out = both.not();
    plan
}

// What a candidate saves, how many ANDs go with its root where its leaves stay, and whether it saves, where that is asked first.
fn put_saved(
    alloc: Global,
    out: &mut String,
    graph: &Graph,
    uses: &Uses,
    candidate: Candidate,
) -> Result<(), AllocError>
    requires uses { IsUsesOf uses.now graph.now }
    requires root { is_and (row_at graph.now.rows candidate.root) ≡ true }
{
    let Candidate { root, leaves, .. } = candidate;
    let most = mffc_size(alloc, graph, uses, root, leaves, u32::MAX)?;
    let mut room = Room::new(alloc);
    let some = saves(alloc, graph, uses, candidate, most, &mut room);
    put(out, saved(alloc, graph, uses, candidate))?;
    put(out, Ok(most))?;
    put(out, some)
}

// The same of the plan in place of node 6 over the nodes 1 to 3.
fn put_plan(alloc: Global, out: &mut String, graph: &Graph) -> Result<(), AllocError> {
    if !is_and(graph, 6) {
        return Ok(());
    }
    let plan = shared_gate();
    let uses = Uses::new(alloc, graph)?;
    put_saved(
        alloc,
        out,
        graph,
        &uses,
        Candidate::over(6, &[1, 2, 3], &plan),
    )
}

// The nodes as the leaves of a proposal; none where there are too many.
fn leaves_of(nodes: &[u32]) -> Option<ArrayVec<u32, 8>>
    ensures { IfSome result (λ leaves. leaves.items ≡ nodes.now) }
{
    let mut leaves = ArrayVec::new();
    for node in nodes {
        leaves.try_push(*node).ok()?;
    }
    Some(leaves)
}

// The proposal to replace a node by the factored form of its function over a cut; none where the leaves don't rise below it.
fn factored(
    alloc: Global,
    graph: &Graph,
    node: u32,
    cut: &Cut,
) -> Result<Option<Proposal>, AllocError>
    requires node { node < length graph.now.rows }
    requires cut { IsCut graph.now.rows cut.now.items node }
    ensures { IfOk result (λ found. IfSome found (λ p. IsSoundBy graph.now.rows (replacement p))) }
{
    if node == 0 || !rise_above(0, cut.as_slice()) || !are_below(node, cut.as_slice()) {
        return Ok(None);
    }
    let truth = function(alloc, graph, node, cut)?;
    syn_gain::all_leaf_values();
    let Some(leaves) = leaves_of(cut.as_slice()) else {
        return Ok(None);
    };
    Ok(Some(Proposal::over(node, leaves, factor(truth))))
}

// The graph in which a proposal is applied; the same graph where it would have too many rows.
fn applied_to(alloc: Global, graph: &Graph, proposal: &Proposal) -> Result<Graph, AllocError>
    requires { IsSoundBy graph.now.rows (replacement proposal.now) }
{
    syn_gain::rows_after_are_few();
    let gates = proposal.plan.gates.as_slice();
    if graph.rows.as_slice().len() + gates.len() >= NODE_LIMIT {
        return graph.copy(alloc);
    }
    applied(alloc, graph, proposal.borrow())
}

// How many ANDs that graph has, and its values where the first and third of four inputs are true.
fn put_applied(
    alloc: Global,
    out: &mut String,
    graph: &Graph,
    proposal: &Proposal,
) -> Result<(), AllocError>
    requires { IsSoundBy graph.now.rows (replacement proposal.now) }
{
    let after = applied_to(alloc, graph, proposal)?;
    put(out, Ok(after.count()))?;
    put(out, after.eval(alloc, &[true, false, true, false]))
}

// The same of the proposal over a node's listed cut at a place.
fn put_listed<R: Threads + Sync>(
    rt: &R,
    alloc: Global,
    out: &mut String,
    graph: &Graph,
    node: u32,
    place: u32,
) -> Result<(), AllocError> {
    let lists = listed(rt, alloc, graph, 4, Workers::new(1))?;
    let Some(cut) = cut_at(graph, &lists, node, place as usize) else {
        return Ok(());
    };
    match factored(alloc, graph, node, cut)? {
        Some(proposal) => put_applied(alloc, out, graph, &proposal),
        None => Ok(()),
    }
}

/// The answer to a call.
pub fn answer<R: Threads + Sync>(
    rt: &R,
    alloc: Global,
    out: &mut String,
    call: &str,
    graph: &Graph,
    operands: &Operands,
) -> Result<(), AllocError> {
    match call {
        "applied" => put_listed(
            rt,
            alloc,
            out,
            graph,
            operands.number(3),
            operands.number(4),
        ),
        _ => put_plan(alloc, out, graph),
    }
}
