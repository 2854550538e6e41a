//! A round: workers commit proposals on a table of a graph, which leaves another.
//!
//! A round goes by a graph with what is known of it (`Viewed`) and by what its workers do (`RoundTask`): which nodes they visit, in
//! which order, and whether commits of gain 0 are let through. The table is opened with the graph's rows and the workers' spare
//! nodes (`opened_table`). What all workers use is `RoundShared`; one of them goes by a `WorkerContext`, and has a `Worker`: a seat
//! with its spare nodes and its report. It takes nodes of its queue, visits each (`visits`), tries the proposals for it
//! (`attempts`), and may look around what it did (`revisits`). When all seats are joined again, the table is closed
//! (`closed_table`).

ghost use Rattle.std.specs.Prelude.{◌≡◌, ◌⊎◌, ◌+◌, ◌*◌, ◌<◌, ◌≤◌, ◌^◌, max, min, not, true, false, length, IfNone, IfOk, IfSome};
ghost use Rattle.syn_rows.specs.declared.TheConstants.{NODE_LIMIT};
ghost use Rattle.syn_proposals.specs.Following.{Follows};
ghost use Rattle.syn_proposals.specs.Gains.{IsGain};
ghost use Rattle.syn_table.specs.Seating.{IsOf, known_of, nodes_of, view_of};
ghost use Rattle.syn_commit.specs.Giving.{IsAtRest};
ghost use Rattle.syn_pool.specs.Views.{IsViewed};
ghost use Rattle.syn_pool.specs.Working.{HasNoRoom, HasSwept, IsRound, NothingDone};

pub(crate) mod attempts;
pub(crate) mod closed_table;
pub(crate) mod contexts;
pub(crate) mod opened_table;
pub(crate) mod queues;
pub(crate) mod reports;
pub(crate) mod revisits;
pub(crate) mod views;
pub(crate) mod visits;
pub(crate) mod worker_threads;
pub(crate) mod workers;

use crate::looks::fan_outs::FanOuts;
use crate::looks::neighbourhoods::Neighbourhoods;
use crate::rounds::closed_table::close;
use crate::rounds::contexts::{PassContext, RoundShared, RoundTask, WorkerQueues};
use crate::rounds::opened_table::{Order, SPARE, gates_of, noted, opened};
use crate::rounds::queues::{queues_of, thieves_of};
use crate::rounds::views::{Viewed, looks};
use crate::rounds::worker_threads::{WorkerResult, run_workers};
use std::alloc::{AllocError, Global};
use std::thread::Threads;
use syn_commit::CommitHook;
use syn_graph::Graph;
use syn_proposals::{Improved, Proposer};
use syn_rows::NODE_LIMIT;
use syn_table::{Seat, Shared};
use syn_workers::Workers;

// Whether a table of the graph can be opened, for so many workers.
fn has_room(graph: &Graph, workers: Workers) -> bool
    ensures nodes { result ≡ true → length graph.now.rows + 512 * workers < NODE_LIMIT }
    ensures literals { result ≡ true → length graph.now.observed < 2 ^ 30 }
    ensures none { result ≡ false → HasNoRoom graph.now workers }
{
    let nodes = graph.rows.as_slice().len() + SPARE as usize * workers.number() as usize;
    nodes < NODE_LIMIT && graph.observed.as_slice().len() < 1 << 30
}

// The fan-outs, none where workers don't look around their commits: they do on the tables of leftovers, of which there are
// few.
fn fan_outs_of(alloc: Global, graph: &Graph, order: Order) -> Result<FanOuts, AllocError> {
    match order {
        Order::Levels => Ok(FanOuts::none(alloc)),
        Order::Numbers => FanOuts::new(alloc, graph),
    }
}

// Visits the nodes of a task by its workers: the seat is at rest again, and the table with it.
fn swept<R: Threads + Sync, P: Proposer, H: CommitHook>(
    pass: &PassContext<'_, R, P, H>,
    viewed: &Viewed<'_, P::Lists>,
    task: &RoundTask<'_>,
    shared: Shared,
    seat: Seat,
) -> Result<(Shared, WorkerResult), AllocError>
    requires viewed { IsViewed P.is_lists_of pass.now.proposer.now viewed.now }
    requires lists { task.now.looks ≡ false → viewed.now.listed ≡ true }
    requires nodes { length viewed.now.graph.now.rows + 512 * task.now.workers ≤ nodes_of shared }
    requires table { IsOf seat shared }
    requires numbers { task.now.workers ≤ length (known_of seat).numbers }
    requires rest { IsAtRest (view_of seat) }
    ensures same { IfOk result (λ r. r.0 ≡ shared) }
    ensures swept { IfOk result (λ r. HasSwept shared task.now.zero_gain seat r.1.seat r.1.report) }
{
    let (alloc, graph) = (pass.alloc, viewed.graph);
    let queues = queues_of(alloc, task.nodes, task.workers)?;
    let shared_state = RoundShared {
        alloc,
        shared,
        hints: noted(alloc, graph)?,
        fan_outs: fan_outs_of(alloc, graph, task.order)?,
        thieves: thieves_of(alloc, queues.as_slice())?,
        zero_gain: task.zero_gain,
        looks: task.looks,
    };
    let waiting = WorkerQueues { seat, queues };
    let swept = run_workers(
        pass.rt,
        &shared_state,
        graph,
        &viewed.uses,
        pass.proposer,
        &viewed.lists,
        pass.hook,
        waiting,
    );
    Ok((shared_state.shared, swept))
}

// The graph after one round on its table; none where nothing was done.
fn improved<R: Threads + Sync, P: Proposer, H: CommitHook>(
    pass: &PassContext<'_, R, P, H>,
    viewed: &Viewed<'_, P::Lists>,
    task: &RoundTask<'_>,
) -> Result<Option<Improved>, AllocError>
    requires viewed { IsViewed P.is_lists_of pass.now.proposer.now viewed.now }
    requires lists { task.now.looks ≡ false → viewed.now.listed ≡ true }
    requires nodes { length viewed.now.graph.now.rows + 512 * task.now.workers < NODE_LIMIT }
    requires literals { length viewed.now.graph.now.observed < 2 ^ 30 }
    ensures follows { IfOk result (λ made. IfSome made (λ m. Follows viewed.now.graph.now m.report.gained m.graph)) }
    ensures gain { IfOk result (λ made. IfSome made (λ m. IsGain (not task.now.zero_gain) m.report)) }
    ensures round { IfOk result (λ made. IfSome made (λ m. IsRound viewed.now.graph.now task.now.zero_gain m.report m.graph)) }
    ensures done { IfOk result (λ made. IfSome made (λ m. 1 ≤ m.report.done)) }
    ensures none { IfOk result (λ made. IfNone made (NothingDone viewed.now.graph.now task.now.zero_gain)) }
{
    let (alloc, graph) = (pass.alloc, viewed.graph);
    let (table, seat) = opened(alloc, graph, task.workers, task.order)?;
    let (shared, swept) = swept(pass, viewed, task, table, seat)?;
    swept.memory?;
    if swept.report.done == 0 {
        return Ok(None);
    }
    let next = close(alloc, graph, shared, swept.seat)?;
    Ok(Some(Improved {
        graph: next,
        report: swept.report,
    }))
}

/// One round: commits proposals for the nodes of a task on the graph's table, and closes the table. The graph that comes has the
/// same function, and fewer ANDs by at least what the report says. Each worker has a thread of its own and a part of the nodes,
/// and takes of the others' when its own is done; the work of a thread that can't be made is done by the caller's. None comes, and
/// the graph stays, where nothing was done, and where it has no room for the workers' spare nodes below the limit of nodes,
/// or 2^30 observed signals or more. The hook is told each commit. The only error is want of memory.
pub(crate) fn round_at<R: Threads + Sync, P: Proposer, H: CommitHook>(
    pass: &PassContext<'_, R, P, H>,
    viewed: &Viewed<'_, P::Lists>,
    task: &RoundTask<'_>,
) -> Result<Option<Improved>, AllocError>
    requires viewed { IsViewed P.is_lists_of pass.now.proposer.now viewed.now }
    requires lists { task.now.looks ≡ false → viewed.now.listed ≡ true }
    ensures follows { IfOk result (λ made. IfSome made (λ m. Follows viewed.now.graph.now m.report.gained m.graph)) }
    ensures gain { IfOk result (λ made. IfSome made (λ m. IsGain (not task.now.zero_gain) m.report)) }
    ensures round { IfOk result (λ made. IfSome made (λ m. IsRound viewed.now.graph.now task.now.zero_gain m.report m.graph)) }
    ensures done { IfOk result (λ made. IfSome made (λ m. 1 ≤ m.report.done)) }
    ensures none { IfOk result (λ made. IfNone made (HasNoRoom viewed.now.graph.now task.now.workers ⊎ NothingDone viewed.now.graph.now task.now.zero_gain)) }
{
    if !has_room(viewed.graph, task.workers) {
        return Ok(None);
    }
    improved(pass, viewed, task)
}

/// A round on the ANDs of the graph with the workers of the pass, the last one first: where gains of 0 are let through, on those
/// whose neighbourhoods weren't visited, and the first one first where cuts of the table are looked at, for which the lists may be
/// those of another graph. None comes where nothing was done, the graph has no room, or the proposer wouldn't take what they leave.
pub(crate) fn round<R: Threads + Sync, P: Proposer, H: CommitHook>(
    pass: &PassContext<'_, R, P, H>,
    viewed: &Viewed<'_, P::Lists>,
    visited: &mut Neighbourhoods,
) -> Result<Option<Improved>, AllocError>
    requires { IsViewed P.is_lists_of pass.now.proposer.now viewed.now }
    ensures follows { IfOk result (λ made. IfSome made (λ m. Follows viewed.now.graph.now m.report.gained m.graph)) }
    ensures gain { IfOk result (λ made. IfSome made (λ m. IsGain (not pass.now.zero_gain) m.report)) }
    ensures round { IfOk result (λ made. IfSome made (λ m. IsRound viewed.now.graph.now pass.now.zero_gain m.report m.graph)) }
    ensures done { IfOk result (λ made. IfSome made (λ m. 1 ≤ m.report.done)) }
{
    let mut nodes = if pass.zero_gain {
        visited.visit(pass.alloc, viewed.graph)?
    } else {
        gates_of(pass.alloc, viewed.graph)?
    };
    let looks = !viewed.listed || looks(pass, &viewed.lists);
    if looks {
        nodes.reverse();
    }
    let task = RoundTask {
        nodes: nodes.as_slice(),
        order: Order::Levels,
        workers: pass.workers,
        zero_gain: pass.zero_gain,
        looks,
    };
    let Some(improved) = round_at(pass, viewed, &task)? else {
        return Ok(None);
    };
    let may = pass
        .proposer
        .may_take(pass.alloc, viewed.graph, &improved.graph)?;
    if may { Ok(Some(improved)) } else { Ok(None) }
}
