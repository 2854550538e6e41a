//! The sweep of several workers, each in a thread of its own.

ghost use Rattle.std.specs.Prelude.{◌≡◌, ◌+◌, ◌*◌, ◌<◌, ◌≤◌, false, length};
ghost use Rattle.std.specs.Thread.{IsSync};
ghost use Rattle.syn_gain.specs.Uses.{IsUsesOf};
ghost use Rattle.syn_table.specs.Seating.{IsOf, known_of, nodes_of, view_of};
ghost use Rattle.syn_table.specs.Splitting.{with_joined};
ghost use Rattle.syn_commit.specs.Giving.{IsAtRest};
ghost use Rattle.syn_pool.specs.Reports.{told};
ghost use Rattle.syn_pool.specs.Working.{HasSwept};

use crate::rounds::contexts::{RoundShared, WorkerContext, WorkerQueues, WorkerStart};
use crate::rounds::opened_table::SPARE;
use crate::rounds::reports::{NOTHING, both};
use crate::rounds::visits::take_all;
use crate::rounds::workers::Worker;
use std::alloc::AllocError;
use std::thread::{Threads, join};
use syn_commit::{CommitHook, Tools};
use syn_gain::Uses;
use syn_graph::Graph;
use syn_proposals::{Proposer, Report};
use syn_table::{Seat, Shared};

/// What comes back of workers: the seat, at rest again, what was gained, and whether memory was enough.
#[derive(Drop)]
pub(crate) struct WorkerResult {
    /// The seat, which has the numbers that it had.
    pub seat: Seat,
    /// What the commits gained, also those before want of memory.
    pub report: Report,
    /// The error is want of memory for proposals.
    pub memory: Result<(), AllocError>,
}

// What two workers have done, where the second one's seat was split from the first one's: its seat is taken in.
fn joined(shared: &Shared, first: WorkerResult, second: WorkerResult) -> WorkerResult
    requires table { IsOf first.seat shared.now }
    requires second_table { IsOf second.seat shared.now }
    requires rest { IsAtRest (view_of second.seat) }
    ensures table { IsOf result.seat shared.now }
    ensures seat { known_of result.seat ≡ with_joined (known_of first.seat) (known_of second.seat) }
    ensures sum { (result.report.done ≡ told (first.report.done + second.report.done)) × (result.report.gained ≡ told (first.report.gained + second.report.gained)) }
    ensures gained { result.report.gained ≤ first.report.gained + second.report.gained }
    ensures done { first.report.done ≤ first.report.gained → second.report.done ≤ second.report.gained → result.report.done ≤ result.report.gained }
{
    let mut seat = first.seat;
    shared.join(&mut seat, second.seat);
    WorkerResult {
        seat,
        report: both(first.report, second.report),
        memory: first.memory.and(second.memory),
    }
}

// Nothing was done.
fn no_work(seat: Seat, memory: Result<(), AllocError>) -> WorkerResult
    ensures seat { result.seat ≡ seat }
    ensures gained { result.report.gained ≡ 0 }
    ensures done { result.report.done ≡ 0 }
{
    WorkerResult {
        seat,
        report: NOTHING,
        memory,
    }
}

// Visits nodes as one worker, whose spare nodes are those of its number: of its own queue first.
fn run_worker<P: Proposer, H: CommitHook>(
    shared_state: &RoundShared,
    graph: &Graph,
    uses: &Uses,
    proposer: &P,
    lists: &P::Lists,
    hook: &H,
    start: WorkerStart,
) -> WorkerResult
    requires uses { IsUsesOf uses.now graph.now }
    requires lists { shared_state.now.looks ≡ false → P.is_lists_of proposer.now lists.now graph.now.rows }
    requires nodes { length graph.now.rows + 512 * (start.number + 1) ≤ nodes_of shared_state.now.shared }
    requires table { IsOf start.seat shared_state.now.shared }
    requires rest { IsAtRest (view_of start.seat) }
    ensures { HasSwept shared_state.now.shared shared_state.now.zero_gain start.seat result.seat result.report }
{
    let WorkerStart {
        number,
        seat,
        queue,
    } = start;
    let shared = &shared_state.shared;
    let first = graph.rows.as_slice().len() as u32 + SPARE * u32::from(number);
    let mut own = Worker::start(shared, seat, first, SPARE);
    let context = WorkerContext {
        shared_state,
        graph,
        uses,
        proposer,
        lists,
        tools: Tools {
            shared,
            hints: &shared_state.hints,
            hook,
            worker: number,
        },
    };
    let memory = take_all(&context, &mut own, queue);
    let (seat, report) = own.stop(shared);
    WorkerResult {
        seat,
        report,
        memory,
    }
}

/// Visits the nodes of the queues by a worker each, the last of them in a thread of its own, as all before it but the first.
/// Where no thread can be made, this one does the work. All seats are joined again when it returns.
#[cycle(shares)]
pub(crate) fn run_workers<R: Threads + Sync, P: Proposer, H: CommitHook>(
    rt: &R,
    shared_state: &RoundShared,
    graph: &Graph,
    uses: &Uses,
    proposer: &P,
    lists: &P::Lists,
    hook: &H,
    waiting: WorkerQueues,
) -> WorkerResult
    requires uses { IsUsesOf uses.now graph.now }
    requires lists { shared_state.now.looks ≡ false → P.is_lists_of proposer.now lists.now graph.now.rows }
    requires nodes { length graph.now.rows + 512 * length waiting.queues.items ≤ nodes_of shared_state.now.shared }
    requires table { IsOf waiting.seat shared_state.now.shared }
    requires numbers { length waiting.queues.items ≤ length (known_of waiting.seat).numbers }
    requires few { length waiting.queues.items ≤ 16 }
    requires rest { IsAtRest (view_of waiting.seat) }
    ensures { HasSwept shared_state.now.shared shared_state.now.zero_gain waiting.seat result.seat result.report }
{
    let WorkerQueues {
        mut seat,
        mut queues,
    } = waiting;
    let Some(queue) = queues.pop() else {
        return no_work(seat, Ok(()));
    };
    let number = queues.len() as u8;
    if number == 0 {
        let start = WorkerStart {
            number,
            seat,
            queue,
        };
        return run_worker(shared_state, graph, uses, proposer, lists, hook, start);
    }
    let Ok(other) = shared_state.shared.split(&mut seat) else {
        return no_work(seat, Err(AllocError));
    };
    let start = WorkerStart {
        number,
        seat: other,
        queue,
    };
    let fewer = WorkerQueues { seat, queues };
    let alone = move || -> WorkerResult
        requires { IsUsesOf uses.now graph.now × (shared_state.now.looks ≡ false → P.is_lists_of proposer.now lists.now graph.now.rows) × (length graph.now.rows + 512 * (start.number + 1) ≤ nodes_of shared_state.now.shared) × IsOf start.seat shared_state.now.shared × IsAtRest (view_of start.seat) }
        ensures { HasSwept shared_state.entry.now.shared shared_state.entry.now.zero_gain start.seat result.seat result.report }
    { run_worker(shared_state, graph, uses, proposer, lists, hook, start) };
    let by_others = move || -> WorkerResult
        requires { IsSync R.row × IsSync P.row × IsSync H.row × IsSync P.Lists.row × IsUsesOf uses.now graph.now × (shared_state.now.looks ≡ false → P.is_lists_of proposer.now lists.now graph.now.rows) × (length graph.now.rows + 512 * length fewer.queues.items ≤ nodes_of shared_state.now.shared) × IsOf fewer.seat shared_state.now.shared × (length fewer.queues.items ≤ length (known_of fewer.seat).numbers) × (length fewer.queues.items ≤ 16) × IsAtRest (view_of fewer.seat) }
        ensures { HasSwept shared_state.entry.now.shared shared_state.entry.now.zero_gain fewer.seat result.seat result.report }
    { run_workers(rt, shared_state, graph, uses, proposer, lists, hook, fewer) };
    let (second, first) = join(rt, alone, by_others);
    joined(&shared_state.shared, first, second)
}
