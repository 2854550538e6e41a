//! Rounds until the graph is closed.

ghost use Rattle.std.specs.Prelude.{◌≡◌, ◌+◌, ◌≤◌, ℕ, false, not, List, IfErr, IfNone, IfOk, IfSome, length};
ghost use Rattle.syn_proposals.specs.Closing.{Closed};
ghost use Rattle.syn_proposals.specs.Following.{Follows};
ghost use Rattle.syn_proposals.specs.Gains.{IsGain};
ghost use Rattle.syn_pool.specs.Turns.{IsPassReport};
ghost use Rattle.syn_pool.specs.Steps.{IsStepOf};

pub(crate) mod checks;
pub(crate) mod improvement;
pub(crate) mod kept_levels;
pub(crate) mod steps;

use crate::looks::neighbourhoods::Seen;
use crate::passes::steps::{Step, one_step};
use crate::rounds::contexts::PassContext;
use crate::rounds::reports::both;
use std::alloc::{AllocError, Global};
use std::thread::Threads;
use syn_commit::CommitHook;
use syn_graph::Graph;
use syn_proposals::{Proposer, Report};
use syn_workers::Workers;

// Steps on a graph in place of another, until it is closed; the lists are those of one before it. Whether workers commit in the
// first of them is given; in a later one they do if the one before it says so.
fn close<R: Threads + Sync, P: Proposer, H: CommitHook>(
    pass: &PassContext<'_, R, P, H>,
    start: &Graph,
    graph: Graph,
    report: Report,
    lists: P::Lists,
    commits: bool,
    seen: &mut Seen,
) -> Result<(Graph, Report), AllocError>
    requires follows { Follows start.now report.gained graph }
    requires gain { IsGain (not pass.now.zero_gain) report }
    requires report { IsPassReport (not pass.now.zero_gain) start.now graph report }
    ensures follows { IfOk result (λ r. Follows start.now r.1.gained r.0) }
    ensures closed { IfOk result (λ r. Closed r.0.rows r.0.observed (P.proposals pass.now.proposer.now r.0.rows)) }
    ensures gain { IfOk result (λ r. IsGain (not pass.now.zero_gain) r.1) }
    ensures report { IfOk result (λ r. IsPassReport (not pass.now.zero_gain) start.now r.0 r.1) }
{
    let mut graph = graph;
    let mut report = report;
    let mut lists = lists;
    let mut commits = commits;
    loop {
        let before = Some(lists);
        match one_step(pass, &graph, before, commits, seen)? {
            Step::Stays => return Ok((graph, report)),
            Step::Ends(next, more) => return Ok((next, both(report, more))),
            Step::GoesOn(next, more, used, again) => {
                commits = again;
                graph = next;
                report = both(report, more);
                lists = used;
            }
        }
    }
}

/// A closed graph in place of the given one; none where that is closed. Workers commit in the first step.
pub(crate) fn closed<R: Threads + Sync, P: Proposer, H: CommitHook>(
    pass: &PassContext<'_, R, P, H>,
    graph: &Graph,
) -> Result<Option<(Graph, Report)>, AllocError>
    ensures some { IfOk result (λ made. IfSome made (λ r. Follows graph.now r.1.gained r.0 × Closed r.0.rows r.0.observed (P.proposals pass.now.proposer.now r.0.rows) × IsGain (not pass.now.zero_gain) r.1 × IsPassReport (not pass.now.zero_gain) graph.now r.0 r.1)) }
    ensures none { IfOk result (λ made. IfNone made (Closed graph.now.rows graph.now.observed (P.proposals pass.now.proposer.now graph.now.rows))) }
{
    let mut seen = Seen::new(pass.alloc, graph)?;
    match one_step(pass, graph, None, true, &mut seen)? {
        Step::Stays => Ok(None),
        Step::Ends(next, report) => Ok(Some((next, report))),
        Step::GoesOn(next, report, lists, again) => {
            Ok(Some(close(pass, graph, next, report, lists, again, &mut seen)?))
        }
    }
}

/// Lets workers commit proposals on a graph, and then checks it; workers commit for what the check finds, or it is applied,
/// again and again until no proposal saves: the same function, fewer ANDs by at least what the report says, and closed. None
/// comes where the graph is closed. The report has what the workers' commits did and gained, and nothing of what was applied
/// without them. Where `zero_gain` is true, commits of gain 0 are let through, and workers commit again before the first check
/// for as long as a round leads to much, for ANDs in whose neighbourhood something is new. The hook is told of each commit. The
/// only error is want of memory.
pub fn pass<R: Threads + Sync, P: Proposer, H: CommitHook>(
    rt: &R,
    alloc: Global,
    graph: &Graph,
    proposer: &P,
    workers: Workers,
    zero_gain: bool,
    hook: &H,
) -> Result<Option<(Graph, Report)>, AllocError>
    ensures some { IfOk result (λ made. IfSome made (λ r. Follows graph.now r.1.gained r.0 × Closed r.0.rows r.0.observed (P.proposals proposer.now r.0.rows) × IsGain (not zero_gain) r.1 × IsPassReport (not zero_gain) graph.now r.0 r.1)) }
    ensures none { IfOk result (λ made. IfNone made (Closed graph.now.rows graph.now.observed (P.proposals proposer.now graph.now.rows))) }
{
    let context = PassContext {
        rt,
        alloc,
        proposer,
        hook,
        workers,
        zero_gain,
    };
    closed(&context, graph)
}
