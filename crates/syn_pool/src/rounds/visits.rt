//! What one worker does: it visits nodes.

ghost use Rattle.std.specs.Prelude.{◌≡◌, ◌<◌, false, true, length};
ghost use Rattle.syn_rows.specs.Reach.{is_and};
ghost use Rattle.syn_rows.specs.Rows.{row_at};
ghost use Rattle.syn_table.specs.Seating.{nodes_of};
ghost use Rattle.syn_pool.specs.Readiness.{IsReady};
ghost use Rattle.syn_pool.specs.Working.{HasWorked, IsAtWork};

use crate::rounds::attempts::{try_each, try_from_some_place};
use crate::rounds::contexts::WorkerContext;
use crate::rounds::queues::{Queue, next_node};
use crate::rounds::revisits::{Scratch, revisit_fanouts, try_best};
use crate::rounds::workers::Worker;
use std::alloc::AllocError;
use syn_commit::{CommitHook, Tools};
use syn_graph::Graph;
use syn_proposals::Proposer;
use syn_rows::Row;

/// Whether the node is an AND of the graph.
pub(crate) fn is_gate(graph: &Graph, node: u32) -> bool
    ensures gate { result ≡ true → is_and (row_at graph.now.rows node) ≡ true }
    ensures within { result ≡ true → node < length graph.now.rows }
{
    match graph.rows.as_slice().get(node as usize) {
        Some(Row::And(_, _)) => true,
        _ => false,
    }
}

// Whether a look at the table shows an AND at the node, and the worker doesn't hold it as a spare one.
fn may_change<H: CommitHook>(tools: &Tools<'_, H>, worker: &Worker, node: u32) -> bool
    requires { node < nodes_of tools.now.shared.now }
{
    let (row, _count) = tools.shared.peek(node);
    matches!(row, Row::And(_, _)) && !worker.pool.has(node)
}

// Proposes for a node on the graph that the table was opened with, and commits the proposals that may save in order, until one
// is done; then it looks around, if workers do.
#[tactic(auto, using(crate::proofs::Works::has_both, crate::proofs::Works::has_not, crate::proofs::Works::has_saved))]
fn visit_for_gain<P: Proposer, H: CommitHook>(
    context: &WorkerContext<'_, P, P::Lists, H>,
    worker: &mut Worker,
    scratch: &mut Scratch,
    node: u32,
) -> Result<bool, AllocError>
    requires ready { IsReady P.is_lists_of context.now }
    requires lists { P.is_lists_of context.now.proposer.now context.now.lists.now context.now.graph.now.rows }
    requires gate { is_and (row_at context.now.graph.now.rows node) ≡ true }
    requires at_work { IsAtWork context.now.tools.shared.now worker.old }
    ensures at_work { IsAtWork context.now.tools.shared.now worker.new }
    ensures worked { HasWorked false worker.old worker.new }
{
    let WorkerContext {
        shared_state,
        graph,
        uses,
        proposer,
        lists,
        tools,
    } = context;
    let saving = proposer.commit_candidates(shared_state.alloc, graph, uses, lists, node, false)?;
    let done = try_each(graph, tools, worker, saving.as_slice(), false, true);
    if done && !shared_state.fan_outs.is_empty() {
        revisit_fanouts(context, worker, scratch, node);
    }
    Ok(done)
}

// The same, and where none saves, one of gain 0 is let through.
#[tactic(auto, using(crate::proofs::Works::has_both, crate::proofs::Works::has_not, crate::proofs::Works::has_saved))]
fn visit_for_any<P: Proposer, H: CommitHook>(
    context: &WorkerContext<'_, P, P::Lists, H>,
    worker: &mut Worker,
    scratch: &mut Scratch,
    node: u32,
) -> Result<(), AllocError>
    requires ready { IsReady P.is_lists_of context.now }
    requires lists { P.is_lists_of context.now.proposer.now context.now.lists.now context.now.graph.now.rows }
    requires gate { is_and (row_at context.now.graph.now.rows node) ≡ true }
    requires at_work { IsAtWork context.now.tools.shared.now worker.old }
    ensures at_work { IsAtWork context.now.tools.shared.now worker.new }
    ensures worked { HasWorked true worker.old worker.new }
{
    if visit_for_gain(context, worker, scratch, node)? {
        return Ok(());
    }
    let WorkerContext {
        shared_state,
        graph,
        uses,
        proposer,
        lists,
        tools,
    } = context;
    let proposals = proposer.commit_candidates(shared_state.alloc, graph, uses, lists, node, true)?;
    try_from_some_place(graph, tools, worker, node, proposals.as_slice(), true);
    Ok(())
}

/// Commits a proposal for a node, if one seems worth it: the difference in ANDs falls by at least what the worker's report
/// gains. Where the shared_state says so, one of gain 0 is let through if none saves, and only the cuts of the table as it stands are
/// looked at. A node is left as it is that is no AND of the
/// graph, that a look at the table shows as none, or that is one of the worker's spare nodes. The only error is want of memory
/// for the proposals; the clauses hold then too.
#[tactic(auto, using(crate::proofs::Works::has_both, crate::proofs::Works::has_not, crate::proofs::Works::has_saved))]
fn visit<P: Proposer, H: CommitHook>(
    context: &WorkerContext<'_, P, P::Lists, H>,
    worker: &mut Worker,
    scratch: &mut Scratch,
    node: u32,
) -> Result<(), AllocError>
    requires ready { IsReady P.is_lists_of context.now }
    requires at_work { IsAtWork context.now.tools.shared.now worker.old }
    ensures at_work { IsAtWork context.now.tools.shared.now worker.new }
    ensures worked { HasWorked context.now.shared_state.now.zero_gain worker.old worker.new }
{
    if !is_gate(context.graph, node) || !may_change(&context.tools, worker, node) {
        return Ok(());
    }
    if context.shared_state.looks {
        try_best(context, worker, scratch, node);
        return Ok(());
    }
    if context.shared_state.zero_gain {
        return visit_for_any(context, worker, scratch, node);
    }
    let _done = visit_for_gain(context, worker, scratch, node)?;
    Ok(())
}

/// Visits the nodes of the worker's own queue, and then what it takes of the others'. Want of memory ends it, and what was done
/// before stands in the worker's report.
#[tactic(auto, using(crate::proofs::Works::has_both, crate::proofs::Works::has_not, crate::proofs::Works::has_saved))]
pub(crate) fn take_all<P: Proposer, H: CommitHook>(
    context: &WorkerContext<'_, P, P::Lists, H>,
    worker: &mut Worker,
    queue: Queue,
) -> Result<(), AllocError>
    requires ready { IsReady P.is_lists_of context.now }
    requires at_work { IsAtWork context.now.tools.shared.now worker.old }
    ensures at_work { IsAtWork context.now.tools.shared.now worker.new }
    ensures worked { HasWorked context.now.shared_state.now.zero_gain worker.old worker.new }
{
    let mut queue = queue;
    let mut scratch = Scratch::new();
    let thieves = context.shared_state.thieves.as_slice();
    for _ in context.graph.rows.as_slice() {
        let Some(node) = next_node(&mut queue, thieves, context.tools.worker) else {
            break;
        };
        visit(context, worker, &mut scratch, node)?;
    }
    Ok(())
}
