//! What a pass, its rounds and their workers go by.

use crate::looks::fan_outs::FanOuts;
use crate::rounds::opened_table::Order;
use crate::rounds::queues::{Queue, Thief};
use std::alloc::Global;
use syn_commit::{Hints, Tools};
use syn_gain::Uses;
use syn_graph::Graph;
use syn_table::{Seat, Shared};
use syn_workers::Workers;

/// What a pass goes by, from its first step to its last.
#[derive(Drop)]
pub(crate) struct PassContext<'a, R, P, H> {
    /// What starts threads.
    pub rt: &'a R,
    /// Where lists go.
    pub alloc: Global,
    /// What proposes.
    pub proposer: &'a P,
    /// What is told of each commit.
    pub hook: &'a H,
    /// The most workers.
    pub workers: Workers,
    /// Whether commits of gain 0 are let through.
    pub zero_gain: bool,
}

/// What the workers of a round do.
#[derive(Drop)]
pub(crate) struct RoundTask<'a> {
    /// The nodes that they visit, in order.
    pub nodes: &'a [u32],
    /// Which nodes come later on the table.
    pub order: Order,
    /// How many they are.
    pub workers: Workers,
    /// Whether commits of gain 0 are let through.
    pub zero_gain: bool,
    /// Whether these are looked for among the cuts of the table as it stands, for which the lists needn't be the graph's.
    pub looks: bool,
}

/// What all workers of a round use beside the graph, what is known of it, and the proposer. It owns all that it has: of a value whose type names a
/// lifetime, closures that call one another by turns in threads learn nothing.
#[derive(Drop)]
pub(crate) struct RoundShared {
    /// Where lists go.
    pub alloc: Global,
    /// The table of the graph.
    pub shared: Shared,
    /// Where a pair of literals may stand.
    pub hints: Hints,
    /// The graph's fan-outs, none where workers don't look around their commits.
    pub fan_outs: FanOuts,
    /// The far ends of the workers' queues.
    pub thieves: Vec<Thief>,
    /// Whether commits of gain 0 are let through.
    pub zero_gain: bool,
    /// Whether these are looked for among the cuts of the table as it stands.
    pub looks: bool,
}

/// Workers that haven't started yet: the seat that they share, and a queue for each, in the order of their numbers.
#[derive(Drop)]
pub(crate) struct WorkerQueues {
    /// The seat, which has a number for each.
    pub seat: Seat,
    /// The queues.
    pub queues: Vec<Queue>,
}

/// What one worker starts with.
#[derive(Drop)]
pub(crate) struct WorkerStart {
    /// The worker's number.
    pub number: u8,
    /// Its seat.
    pub seat: Seat,
    /// The nodes that it visits first.
    pub queue: Queue,
}

/// What one worker goes by while it visits nodes.
#[derive(Drop)]
pub(crate) struct WorkerContext<'a, P, L, H> {
    /// What it shares with the others.
    pub shared_state: &'a RoundShared,
    /// The graph that the table was opened with.
    pub graph: &'a Graph,
    /// Its pairs and its references.
    pub uses: &'a Uses,
    /// What proposes.
    pub proposer: &'a P,
    /// What the proposer listed for the graph.
    pub lists: &'a L,
    /// What its commits use.
    pub tools: Tools<'a, H>,
}
