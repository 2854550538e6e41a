//! Looks around commits that were done, at the table as it stands: one gain may open the next.

ghost use Rattle.std.specs.Prelude.{◌<◌, false, true};
ghost use Rattle.syn_table.specs.Seating.{nodes_of};
ghost use Rattle.syn_pool.specs.Working.{HasWorked, IsAtWork};

use crate::looks::added_rows::added;
use crate::looks::cuts::{Cuts, MAX_LEAVES, TableCut, fan_ins};
use crate::looks::fan_outs::FanOuts;
use crate::looks::freed::{Inner, going};
use crate::rounds::attempts::is_done;
use crate::rounds::contexts::WorkerContext;
use crate::rounds::workers::Worker;
use arrayvec::ArrayVec;
use syn_commit::{CommitHook, Hints, Tools};
use syn_decide::{Cone, Words};
use syn_gain::{Candidate, owned};
use syn_graph::Graph;
use syn_plan::Plan;
use syn_proposals::Proposer;
use syn_rows::{Row, has_node};
use syn_table::Shared;

// The most nodes that wait for a look; more are left to the check.
const MAX_PENDING: usize = 64;

// The most fan-outs of a node that are looked at.
const MAX_FAN_OUTS: usize = 6;

// The most looks that one commit leads to.
const MAX_LOOKS: u32 = 1 << 24;

// The functions of an AND over its fan-ins, the smaller node first.
const FAN_IN_FUNCTIONS: [u16; 4] = [0x8888, 0x4444, 0x2222, 0x1111];

/// The nodes that wait for a look, the next one last.
pub(crate) type Worklist = ArrayVec<u32, MAX_PENDING>;

// What the looks go by: the graph that the table was opened with, and its fan-outs.
#[derive(Drop)]
struct Neighbours<'a> {
    graph: &'a Graph,
    fan_outs: &'a FanOuts,
    shared: &'a Shared,
}

/// What a worker keeps for its looks: room for the cuts of a node, for the rows above a cut's leaves, and for their words.
#[derive(Drop)]
pub(crate) struct Scratch {
    cuts: Cuts,
    inner: Inner,
    words: Words,
}

impl Scratch {
    /// Nothing.
    pub(crate) fn new() -> Scratch {
        Scratch {
            cuts: Cuts::new(),
            inner: Inner::new(),
            words: Words::new(),
        }
    }
}

// Lets a node wait for a look, unless it waits already or there is no room.
fn note(pending: &mut Worklist, node: u32) {
    if !pending.is_full() && !has_node(pending.as_slice(), node) {
        pending.push(node);
    }
}

// Lets nodes wait for a look.
fn note_all(pending: &mut Worklist, nodes: &[u32]) {
    for node in nodes {
        note(pending, *node);
    }
}

impl Neighbours<'_> {
    // The first fan-outs of a node in the graph.
    fn fan_outs(&self, node: u32) -> &[u32] {
        let all = self.fan_outs.of(node);
        let count = all.len().min(MAX_FAN_OUTS);
        &all[..count]
    }

    // Whether the table shows another row at a node than the graph.
    fn is_new(&self, node: u32) -> bool {
        if node >= self.shared.nodes() {
            return false;
        }
        let (row, _count) = self.shared.peek(node);
        match self.graph.rows.as_slice().get(node as usize) {
            Some(was) => *was != row,
            None => true,
        }
    }

    // Lets a node wait if its row is new, and its fan-outs.
    fn note_at(&self, node: u32, pending: &mut Worklist) {
        note_all(pending, self.fan_outs(node));
        if self.is_new(node) {
            note(pending, node);
        }
    }

    // Lets what is near a node and its fan-ins wait.
    fn note_below(&self, node: u32, pending: &mut Worklist) {
        self.note_at(node, pending);
        if let Some((a, b)) = fan_ins(self.shared, node) {
            self.note_at(a.node(), pending);
            self.note_at(b.node(), pending);
        }
    }

    // Lets the nodes near a new row wait.
    fn add_neighbours(&self, node: u32, pending: &mut Worklist) {
        if let Some(Row::And(a, b)) = self.graph.rows.as_slice().get(node as usize) {
            self.note_below(a.node(), pending);
            self.note_below(b.node(), pending);
        }
        if let Some((a, b)) = fan_ins(self.shared, node) {
            self.note_below(a.node(), pending);
            self.note_below(b.node(), pending);
        }
        self.note_at(node, pending);
    }
}

// The root's function over a cut, by the rows above the leaves as they stand, which are left in `inner`. None where there are
// more leaves than a plan has, or rows that lead elsewhere.
fn read_cut(
    shared: &Shared,
    cut: &TableCut,
    root: u32,
    inner: &mut Inner,
    words: &mut Words,
) -> Option<u16> {
    if cut.leaves.len() > MAX_LEAVES {
        return None;
    }
    inner.read(shared, cut);
    let cone = Cone {
        leaves: cut.leaves.as_slice(),
        last: false,
        inner: inner.rows.as_slice(),
    };
    let word = cone.root_word(root, words)?;
    Some((word & 0xffff) as u16)
}

// Commits the first of the plans over a cut that seems to save: whether it was done.
#[tactic(auto, using(crate::proofs::Works::has_both, crate::proofs::Works::has_not, crate::proofs::Works::has_saved))]
fn try_plans<H: CommitHook>(
    tools: &Tools<'_, H>,
    worker: &mut Worker,
    root: u32,
    cut: &TableCut,
    inner: &Inner,
    plans: &[Plan],
) -> bool
    requires at_work { IsAtWork tools.now.shared.now worker.old }
    requires root { root < nodes_of tools.now.shared.now }
    ensures at_work { IsAtWork tools.now.shared.now worker.new }
    ensures worked { HasWorked false worker.old worker.new }
{
    let leaves = cut.leaves.as_slice();
    let freed = going(inner);
    for plan in plans {
        let most = freed.len().saturating_sub(1);
        if added(
            tools.shared,
            tools.hints,
            leaves,
            plan,
            freed.as_slice(),
            most,
        )
        .is_none()
        {
            continue;
        }
        let Some(candidate) = Candidate::tested(root, leaves, plan) else {
            continue;
        };
        if is_done(tools, worker, &owned(candidate), false) {
            return true;
        }
    }
    false
}

// Looks at the cuts of a node, and commits the first plan that seems to save: whether one was done.
#[tactic(auto, using(crate::proofs::Works::has_both, crate::proofs::Works::has_not, crate::proofs::Works::has_saved))]
fn look<P: Proposer, H: CommitHook>(
    context: &WorkerContext<'_, P, P::Lists, H>,
    worker: &mut Worker,
    scratch: &mut Scratch,
    root: u32,
) -> bool
    requires at_work { IsAtWork context.now.tools.shared.now worker.old }
    requires root { root < nodes_of context.now.tools.shared.now }
    ensures at_work { IsAtWork context.now.tools.shared.now worker.new }
    ensures worked { HasWorked false worker.old worker.new }
{
    let shared = context.tools.shared;
    let Scratch { cuts, inner, words } = scratch;
    cuts.find(shared, root);
    for cut in cuts.as_slice() {
        let Some(function) = read_cut(shared, cut, root, inner, words) else {
            continue;
        };
        let plans = context.proposer.plans_over(context.lists, function);
        if try_plans(&context.tools, worker, root, cut, inner, plans) {
            return true;
        }
    }
    false
}

// The plan over a cut that seems to save most, if it saves `least` or more: with what it saves.
fn best_over<'a>(
    shared: &Shared,
    hints: &Hints,
    cut: &TableCut,
    inner: &Inner,
    plans: &'a [Plan],
    least: usize,
) -> Option<(&'a Plan, usize)> {
    let freed = going(inner);
    let (leaves, freed) = (cut.leaves.as_slice(), freed.as_slice());
    let mut least = least;
    let mut best = None;
    for plan in plans {
        if freed.len() < least {
            break;
        }
        let most = freed.len() - least;
        if let Some(new) = added(shared, hints, leaves, plan, freed, most) {
            let saved = freed.len().saturating_sub(new);
            best = Some((plan, saved));
            least = saved + 1;
        }
    }
    best
}

/// Whether a proposer has plans over the two fan-ins of an AND, and so over more cuts.
pub(crate) fn has_plans<P: Proposer>(proposer: &P, lists: &P::Lists) -> bool {
    for function in FAN_IN_FUNCTIONS {
        if !proposer.plans_over(lists, function).is_empty() {
            return true;
        }
    }
    false
}

/// Looks at the cuts of a node, and commits the plan that seems to save most; where gains of 0 are let through, also one that saves
/// nothing.
#[tactic(auto, using(crate::proofs::Works::has_both, crate::proofs::Works::has_not, crate::proofs::Works::has_saved))]
pub(crate) fn try_best<P: Proposer, H: CommitHook>(
    context: &WorkerContext<'_, P, P::Lists, H>,
    worker: &mut Worker,
    scratch: &mut Scratch,
    root: u32,
)
    requires at_work { IsAtWork context.now.tools.shared.now worker.old }
    requires root { root < nodes_of context.now.tools.shared.now }
    ensures at_work { IsAtWork context.now.tools.shared.now worker.new }
    ensures worked { HasWorked context.now.shared_state.now.zero_gain worker.old worker.new }
{
    let shared = context.tools.shared;
    let Scratch { cuts, inner, words } = scratch;
    cuts.find(shared, root);
    let mut least = 0;
    let mut best = None;
    for cut in cuts.as_slice() {
        let Some(function) = read_cut(shared, cut, root, inner, words) else {
            continue;
        };
        let plans = context.proposer.plans_over(context.lists, function);
        if let Some((plan, saved)) = best_over(
            shared,
            context.tools.hints,
            cut,
            inner,
            plans,
            least,
        ) {
            best = Some((cut, plan));
            least = saved.saturating_add(1);
        }
    }
    let Some((cut, plan)) = best else {
        return;
    };
    if let Some(candidate) = Candidate::tested(root, cut.leaves.as_slice(), plan) {
        let zero_gain = context.shared_state.zero_gain;
        let _done = is_done(&context.tools, worker, &owned(candidate), zero_gain);
    }
}

// Looks at a node that may be none of the table's, or no AND.
#[tactic(auto, using(crate::proofs::Works::has_both, crate::proofs::Works::has_not, crate::proofs::Works::has_saved))]
fn look_at<P: Proposer, H: CommitHook>(
    context: &WorkerContext<'_, P, P::Lists, H>,
    worker: &mut Worker,
    scratch: &mut Scratch,
    node: u32,
) -> bool
    requires at_work { IsAtWork context.now.tools.shared.now worker.old }
    ensures at_work { IsAtWork context.now.tools.shared.now worker.new }
    ensures worked { HasWorked false worker.old worker.new }
{
    let shared = context.tools.shared;
    if node >= shared.nodes() {
        return false;
    }
    let (row, _count) = shared.peek(node);
    matches!(row, Row::And(_, _)) && look(context, worker, scratch, node)
}

/// Looks around a commit that was done at a node, and around each that follows, until nothing is gained near any of them.
#[tactic(auto, using(crate::proofs::Works::has_both, crate::proofs::Works::has_not, crate::proofs::Works::has_saved))]
pub(crate) fn revisit_fanouts<P: Proposer, H: CommitHook>(
    context: &WorkerContext<'_, P, P::Lists, H>,
    worker: &mut Worker,
    scratch: &mut Scratch,
    node: u32,
)
    requires at_work { IsAtWork context.now.tools.shared.now worker.old }
    ensures at_work { IsAtWork context.now.tools.shared.now worker.new }
    ensures worked { HasWorked false worker.old worker.new }
{
    let around = Neighbours {
        graph: context.graph,
        fan_outs: &context.shared_state.fan_outs,
        shared: context.tools.shared,
    };
    let mut pending = Worklist::new();
    around.add_neighbours(node, &mut pending);
    for _ in 0..MAX_LOOKS {
        let Some(next) = pending.pop() else {
            return;
        };
        if look_at(context, worker, scratch, next) {
            around.add_neighbours(next, &mut pending);
        }
    }
}
