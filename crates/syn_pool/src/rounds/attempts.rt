//! Commits of one worker, and what is told of them.

ghost use Rattle.std.specs.Prelude.{◌≡◌, ◌+◌, ◌<◌, ◌≤◌, if◌then◌else◌, All, length};
ghost use Rattle.syn_commit_laws.specs.Freeing.{redefines};
ghost use Rattle.syn_table.specs.Seating.{nodes_of, view_of};
ghost use Rattle.syn_commit.specs.Committed.{changes_since};
ghost use Rattle.syn_pool.specs.Reports.{with_gain};
ghost use Rattle.syn_pool.specs.Working.{HasWorked, IsAtWork};

use crate::looks::previews::{fits_commit_limit, is_over_fan_ins, place_of};
use crate::rounds::workers::Worker;
use syn_commit::{CommitHook, Tools, try_commit};
use syn_decide::Outcome;
use syn_gain::Proposal;
use syn_graph::Graph;
use syn_proposals::Report;

// The report with one commit more, of this gain.
fn with_done(report: Report, gain: u32) -> Report
    ensures sum { result ≡ with_gain report gain }
    ensures gained { result.gained ≤ report.gained + gain }
    ensures done { report.done ≤ report.gained → 1 ≤ gain → result.done ≤ result.gained }
{
    Report {
        done: report.done.saturating_add(1),
        gained: report.gained.saturating_add(u64::from(gain)),
    }
}

/// Commits one proposal, unless the root is one of the worker's spare nodes: whether it was done, which is so where the commit
/// gave a row another one.
pub(crate) fn is_done<H: CommitHook>(
    tools: &Tools<'_, H>,
    worker: &mut Worker,
    proposal: &Proposal,
    zero_gain: bool,
) -> bool
    requires at_work { IsAtWork tools.now.shared.now worker.old }
    requires root { proposal.now.root < nodes_of tools.now.shared.now }
    ensures at_work { IsAtWork tools.now.shared.now worker.new }
    ensures worked { HasWorked zero_gain worker.old worker.new }
    ensures done { length (redefines (changes_since (view_of worker.old.seat) (view_of worker.new.seat))) ≡ (if result then 1 else 0) }
{
    if worker.pool.has(proposal.root) {
        return false;
    }
    let outcome = try_commit(
        tools,
        &mut worker.seat,
        &mut worker.pool,
        proposal,
        zero_gain,
    );
    match outcome {
        Outcome::Done(gain) => {
            worker.report = with_done(worker.report, gain);
            true
        }
        _ => false,
    }
}

/// Commits the proposals in order, until one is done: whether one was. One that has more rows between root and leaves than a
/// commit takes, on the graph that the table was opened with, is passed over: claims on all of them would be for nothing. So
/// are those over the fan-ins of their root, unless these are wanted too.
#[tactic(auto, using(crate::proofs::Works::has_both, crate::proofs::Works::has_not, crate::proofs::Works::has_saved))]
pub(crate) fn try_each<H: CommitHook>(
    graph: &Graph,
    tools: &Tools<'_, H>,
    worker: &mut Worker,
    proposals: &[Proposal],
    zero_gain: bool,
    over_fan_ins: bool,
) -> bool
    requires at_work { IsAtWork tools.now.shared.now worker.old }
    requires roots { All (λ p. p.root < nodes_of tools.now.shared.now) proposals.now }
    ensures at_work { IsAtWork tools.now.shared.now worker.new }
    ensures worked { HasWorked zero_gain worker.old worker.new }
{
    for proposal in proposals {
        if !fits_commit_limit(graph, proposal)
            || (!over_fan_ins && is_over_fan_ins(graph, proposal))
        {
            continue;
        }
        if is_done(tools, worker, proposal, zero_gain) {
            return true;
        }
    }
    false
}

/// Commits one of the proposals for a node, also one of gain 0. Which one stands first is told by the node's number, so that
/// neighbours choose differently; those over the node's own fan-ins stand last, as they make the same row again.
pub(crate) fn try_from_some_place<H: CommitHook>(
    graph: &Graph,
    tools: &Tools<'_, H>,
    worker: &mut Worker,
    node: u32,
    proposals: &[Proposal],
    zero_gain: bool,
)
    requires at_work { IsAtWork tools.now.shared.now worker.old }
    requires roots { All (λ p. p.root < nodes_of tools.now.shared.now) proposals.now }
    ensures at_work { IsAtWork tools.now.shared.now worker.new }
    ensures worked { HasWorked zero_gain worker.old worker.new }
{
    let (last, first) = proposals.split_at(place_of(node, proposals.len()));
    let _done = try_each(graph, tools, worker, first, zero_gain, false)
        || try_each(graph, tools, worker, last, zero_gain, false)
        || try_each(graph, tools, worker, proposals, zero_gain, true);
}
