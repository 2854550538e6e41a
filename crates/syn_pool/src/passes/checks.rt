//! The check of a graph: no proposal saves, or what those that save make of it.

ghost use Rattle.std.specs.Prelude.{◌≡◌, ◌<◌, ◌≤◌, true, All, IfNone, IfOk, IfSome, length};
ghost use Rattle.syn_rows.specs.Reach.{is_and};
ghost use Rattle.syn_rows.specs.Rows.{row_at};
ghost use Rattle.syn_gain.specs.Proposals.{replacement};
ghost use Rattle.syn_proposals.specs.Closing.{Closed, SavesSome};
ghost use Rattle.syn_proposals.specs.Sound.{IsLeftover, IsSound};
ghost use Rattle.syn_pool.specs.Steps.{IsCheck, IsFewer};
ghost use Rattle.syn_pool.specs.Views.{IsViewed};

use crate::looks::neighbourhoods::Neighbourhoods;
use crate::rounds::contexts::{PassContext, RoundTask};
use crate::rounds::opened_table::Order;
use crate::rounds::reports::NOTHING;
use crate::rounds::round_at;
use crate::rounds::views::Viewed;
use std::alloc::{AllocError, Global};
use std::thread::Threads;
use syn_commit::CommitHook;
use syn_gain::Proposal;
use syn_graph::Graph;
use syn_proposals::{Improved, Proposer, is_better, leftovers, leftovers_among, smaller};
use syn_workers::Workers;

// The most leftovers that are committed for at once; more are applied first, which takes less for each.
const MAX_COMMITTED: usize = 1024;

// Where applying leftovers takes away less than one AND for so many of them, they are in each other's way, and committing for
// them may gain more.
const MIN_APPLIED: usize = 4;

// The most leftovers that are left to one worker: several would meet around so few, and leave more to the next check.
const MAX_ALONE: usize = 256;

// One in so many of the nodes are few: what is among these is looked for first.
const FEW: usize = 4;

// The roots of proposals, the last one first.
fn roots_of(alloc: Global, proposals: &[Proposal]) -> Result<Vec<u32>, AllocError> {
    let mut roots = Vec::new(alloc);
    for proposal in proposals.iter().rev() {
        roots.push(proposal.root)?;
    }
    Ok(roots)
}

// How many workers commit for so many leftovers.
fn workers_for(leftovers: usize, workers: Workers) -> Workers {
    if leftovers <= MAX_ALONE {
        Workers::new(1)
    } else {
        workers
    }
}

// A graph in place of one with leftovers, and better than another that isn't larger: workers commit for their roots and around
// them. There may be none.
#[tactic(auto, using(crate::proofs::Turning::one_saving_round))]
fn committed<R: Threads + Sync, P: Proposer, H: CommitHook>(
    pass: &PassContext<'_, R, P, H>,
    viewed: &Viewed<'_, P::Lists>,
    found: &[Proposal],
    than: &Graph,
) -> Result<Option<Improved>, AllocError>
    requires viewed { IsViewed P.is_lists_of pass.now.proposer.now viewed.now }
    requires own { viewed.now.listed ≡ true }
    requires than { length than.now.rows ≤ length viewed.now.graph.now.rows }
    ensures { IfOk result (λ made. IfSome made (λ m. IsFewer viewed.now.graph.now m.report m.graph)) }
{
    let roots = roots_of(pass.alloc, found)?;
    let task = RoundTask {
        nodes: roots.as_slice(),
        order: Order::Numbers,
        workers: workers_for(found.len(), pass.workers),
        zero_gain: false,
        looks: false,
    };
    if let Some(improved) = round_at(pass, viewed, &task)? {
        if is_better(pass.alloc, pass.proposer, than, &improved.graph)? {
            return Ok(Some(improved));
        }
    }
    Ok(None)
}

// Whether a graph that comes of applying so many leftovers of another is hardly smaller than that.
fn gains_little(graph: &Graph, next: &Graph, leftovers: usize) -> bool {
    let (before, after) = (graph.rows.as_slice().len(), next.rows.as_slice().len());
    before.saturating_sub(after) < leftovers / MIN_APPLIED
}

/// A graph with fewer ANDs in place of one with leftovers: workers commit for their roots and around them; where there are
/// many, or nothing is gained so, the leftovers are applied. Where that takes away few ANDs for many leftovers, workers commit for
/// these, and the smaller graph comes. The only error is want of memory, as of all calls below.
pub(crate) fn commit_or_apply<R: Threads + Sync, P: Proposer, H: CommitHook>(
    pass: &PassContext<'_, R, P, H>,
    viewed: &Viewed<'_, P::Lists>,
    found: &[Proposal],
) -> Result<Improved, AllocError>
    requires viewed { IsViewed P.is_lists_of pass.now.proposer.now viewed.now }
    requires own { viewed.now.listed ≡ true }
    requires some { 0 < length found.now }
    requires ands { All (λ p. is_and (row_at viewed.now.graph.now.rows p.root) ≡ true) found.now }
    requires saves { All (λ p. SavesSome viewed.now.graph.now.rows viewed.now.graph.now.observed (replacement p)) found.now }
    requires sound { All (IsSound viewed.now.graph.now.rows) found.now }
    ensures { IfOk result (λ m. IsFewer viewed.now.graph.now m.report m.graph) }
{
    let graph = viewed.graph;
    let is_many = found.len() > MAX_COMMITTED;
    if !is_many {
        if let Some(improved) = committed(pass, viewed, found, graph)? {
            return Ok(improved);
        }
    }
    let next = smaller(pass.alloc, graph, &viewed.uses, pass.proposer, found)?;
    if is_many && gains_little(graph, &next, found.len()) {
        if let Some(improved) = committed(pass, viewed, found, &next)? {
            return Ok(improved);
        }
    }
    Ok(Improved {
        graph: next,
        report: NOTHING,
    })
}

// The leftovers of a graph: where few of its neighbourhoods aren't known to be clean, those of these, if there are any, and else
// all.
fn left_among<R: Threads + Sync, P: Proposer, H: CommitHook>(
    pass: &PassContext<'_, R, P, H>,
    viewed: &Viewed<'_, P::Lists>,
    others: &[u32],
) -> Result<Vec<Proposal>, AllocError>
    requires viewed { IsViewed P.is_lists_of pass.now.proposer.now viewed.now }
    requires own { viewed.now.listed ≡ true }
    ensures each { IfOk result (λ found. All (IsLeftover viewed.now.graph.now.rows viewed.now.graph.now.observed (P.proposals pass.now.proposer.now viewed.now.graph.now.rows)) found.items) }
    ensures none { IfOk result (λ found. length found.items ≡ 0 → Closed viewed.now.graph.now.rows viewed.now.graph.now.observed (P.proposals pass.now.proposer.now viewed.now.graph.now.rows)) }
{
    let (rt, alloc, proposer, workers) = (pass.rt, pass.alloc, pass.proposer, pass.workers);
    let (graph, uses, lists) = (viewed.graph, &viewed.uses, &viewed.lists);
    if others.len() < graph.rows.as_slice().len() / FEW {
        let found = leftovers_among(rt, alloc, graph, uses, proposer, lists, others, workers)?;
        if found.len() > 0 {
            return Ok(found);
        }
    }
    leftovers(rt, alloc, graph, uses, proposer, lists, workers)
}

/// Leftovers of a graph, none where it is closed: those among neighbourhoods that aren't known to be clean, if these are few and
/// have any, and else all. The other neighbourhoods are known to be clean from now on.
pub(crate) fn left<R: Threads + Sync, P: Proposer, H: CommitHook>(
    pass: &PassContext<'_, R, P, H>,
    viewed: &Viewed<'_, P::Lists>,
    clean: &mut Neighbourhoods,
) -> Result<Vec<Proposal>, AllocError>
    requires viewed { IsViewed P.is_lists_of pass.now.proposer.now viewed.now }
    requires own { viewed.now.listed ≡ true }
    ensures each { IfOk result (λ found. All (IsLeftover viewed.now.graph.now.rows viewed.now.graph.now.observed (P.proposals pass.now.proposer.now viewed.now.graph.now.rows)) found.items) }
    ensures none { IfOk result (λ found. length found.items ≡ 0 → Closed viewed.now.graph.now.rows viewed.now.graph.now.observed (P.proposals pass.now.proposer.now viewed.now.graph.now.rows)) }
{
    let others = clean.others(pass.alloc, viewed.graph)?;
    let found = left_among(pass, viewed, others.nodes.as_slice())?;
    clean.add_but(&others, found.as_slice());
    Ok(found)
}

/// The check of a graph: one with fewer ANDs in place of it, and none where it is closed.
pub(crate) fn check<R: Threads + Sync, P: Proposer, H: CommitHook>(
    pass: &PassContext<'_, R, P, H>,
    viewed: &Viewed<'_, P::Lists>,
    clean: &mut Neighbourhoods,
) -> Result<Option<Improved>, AllocError>
    requires viewed { IsViewed P.is_lists_of pass.now.proposer.now viewed.now }
    requires own { viewed.now.listed ≡ true }
    ensures { IfOk result (IsCheck viewed.now.graph.now (P.proposals pass.now.proposer.now)) }
{
    let found = left(pass, viewed, clean)?;
    if found.len() == 0 {
        return Ok(None);
    }
    let made = commit_or_apply(pass, viewed, found.as_slice())?;
    Ok(Some(made))
}
