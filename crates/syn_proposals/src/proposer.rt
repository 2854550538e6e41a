//! Proposers.

ghost use Rattle.std.specs.Prelude.{◌≡◌, ℕ, ◌<◌, true, false, All, List, IfNone, IfOk, IfSome, length, map, slice_index_or};
ghost use Rattle.std.specs.List.{AllWithin, HoldsAt};
ghost use Rattle.std.specs.Thread.{IsSync};
ghost use Rattle.syn_rows.specs.declared.Row.{Row};
ghost use Rattle.syn_rows.specs.Rows.{row_at};
ghost use Rattle.syn_rows.specs.Reach.{is_and};
ghost use Rattle.syn_gain.specs.Proposals.{replacement, replacement_of};
ghost use Rattle.syn_gain.specs.Replacements.{Replacement, SavesNothing, SavesSome};
ghost use Rattle.syn_gain.specs.Uses.{IsUsesOf};
ghost use Rattle.syn_proposals.specs.Sound.{IsSound};
ghost use Rattle.syn_proposals.specs.Closing.{IsFirst};

use std::alloc::{AllocError, Global};
use std::thread::Threads;
use syn_gain::{Candidate, Proposal, Uses, saved};
use syn_graph::Graph;
use syn_plan::Plan;
use syn_workers::Workers;

/// Proposes plans in place of the ANDs of a graph.
pub trait Proposer: Sync {
    /// What is listed once for a graph, before any of its nodes is asked for.
    type Lists: Sync + Drop;

    /// The definition of its proposals for a node of rows.
    ghost proposals: { Self → List Row → ℕ → List Replacement };

    /// What the lists of a graph with these rows are.
    ghost is_lists_of: { Self → Self.Lists → List Row → Type 0 };

    /// The lists of a graph. The only error is want of memory, as of all calls below.
    fn prepare<R: Threads + Sync>(
        &self,
        rt: &R,
        alloc: Global,
        graph: &Graph,
        workers: Workers,
    ) -> Result<Self::Lists, AllocError>
        requires { IsSync R.row }
        ensures { IfOk result (λ lists. is_lists_of self.now lists graph.now.rows) };

    /// The same where another graph was listed before. A proposer that keeps in its lists what serves every graph may take it
    /// over from these.
    fn prepare_again<R: Threads + Sync>(
        &self,
        rt: &R,
        alloc: Global,
        graph: &Graph,
        lists: Self::Lists,
        workers: Workers,
    ) -> Result<Self::Lists, AllocError>
        requires { IsSync R.row }
        ensures { IfOk result (λ lists. is_lists_of self.now lists graph.now.rows) }
    {
        drop(lists);
        self.prepare(rt, alloc, graph, workers)
    }

    /// The proposals for an AND, in order.
    fn propose(
        &self,
        alloc: Global,
        graph: &Graph,
        lists: &Self::Lists,
        node: u32,
    ) -> Result<Vec<Proposal>, AllocError>
        requires lists { is_lists_of self.now lists.now graph.now.rows }
        requires node { is_and (row_at graph.now.rows node) ≡ true }
        ensures proposals { IfOk result (λ v. map replacement v.items ≡ proposals self.now graph.now.rows node) }
        ensures roots { IfOk result (λ v. All (λ p. p.root ≡ node) v.items) }
        ensures sound { IfOk result (λ v. All (IsSound graph.now.rows) v.items) };

    /// The first of them that saves. A proposer that finds it without a list of all may give a body of its own.
    fn first_saving(
        &self,
        alloc: Global,
        graph: &Graph,
        uses: &Uses,
        lists: &Self::Lists,
        node: u32,
    ) -> Result<Option<Proposal>, AllocError>
        requires uses { IsUsesOf uses.now graph.now }
        requires lists { is_lists_of self.now lists.now graph.now.rows }
        requires node { is_and (row_at graph.now.rows node) ≡ true }
        ensures first { IfOk result (λ found. IfSome found (λ p. IsFirst graph.now.rows graph.now.observed (proposals self.now graph.now.rows node) (replacement p))) }
        ensures root { IfOk result (λ found. IfSome found (λ p. p.root ≡ node)) }
        ensures sound { IfOk result (λ found. IfSome found (IsSound graph.now.rows)) }
        ensures none { IfOk result (λ found. IfNone found (All (SavesNothing graph.now.rows graph.now.observed) (proposals self.now graph.now.rows node))) }
    {
        let proposals = self.propose(alloc, graph, lists, node)?;
        first_of(alloc, graph, uses, node, proposals)
    }

    /// Those of them that are worth a commit, in order: with `zero_gain` also those that save nothing. Which are left out is
    /// free, and nothing rests on it: a commit judges each one again. A proposer that tells it without a list of all may give
    /// a body of its own.
    fn commit_candidates(
        &self,
        alloc: Global,
        graph: &Graph,
        uses: &Uses,
        lists: &Self::Lists,
        node: u32,
        zero_gain: bool,
    ) -> Result<Vec<Proposal>, AllocError>
        requires uses { IsUsesOf uses.now graph.now }
        requires lists { is_lists_of self.now lists.now graph.now.rows }
        requires node { is_and (row_at graph.now.rows node) ≡ true }
        ensures roots { IfOk result (λ v. All (λ p. p.root ≡ node) v.items) }
    {
        let _ = uses;
        let _ = zero_gain;
        self.propose(alloc, graph, lists, node)
    }

    /// Whether a graph that workers made of another, or that many proposals made of it, may take its place; where it may not, the
    /// pass goes on with the other one. Nothing rests on the answer, and the only error is want of memory.
    fn may_take(&self, alloc: Global, was: &Graph, now: &Graph) -> Result<bool, AllocError> {
        let _ = alloc;
        let _ = was;
        let _ = now;
        Ok(true)
    }

    /// Plans for a function of four variables that are worth a look where rows have changed, with variable i for the leaf at
    /// place i. Which they are is free, as a commit judges each one; a proposer may have none.
    fn plans_over<'a>(&'a self, lists: &'a Self::Lists, function: u16) -> &'a [Plan] {
        let _ = lists;
        let _ = function;
        &[]
    }
}

/// The first of these proposals for a node that saves.
pub(crate) fn first_of(
    alloc: Global,
    graph: &Graph,
    uses: &Uses,
    node: u32,
    proposals: Vec<Proposal>,
) -> Result<Option<Proposal>, AllocError>
    requires uses { IsUsesOf uses.now graph.now }
    requires node { is_and (row_at graph.now.rows node) ≡ true }
    requires roots { All (λ p. p.root ≡ node) proposals.items }
    requires sound { All (IsSound graph.now.rows) proposals.items }
    ensures first { IfOk result (λ found. IfSome found (λ p. IsFirst graph.now.rows graph.now.observed (map replacement proposals.items) (replacement p))) }
    ensures root { IfOk result (λ found. IfSome found (λ p. p.root ≡ node)) }
    ensures sound { IfOk result (λ found. IfSome found (IsSound graph.now.rows)) }
    ensures none { IfOk result (λ found. IfNone found (All (SavesNothing graph.now.rows graph.now.observed) (map replacement proposals.items))) }
{
    let mut proposals = proposals;
    match place_of_first(alloc, graph, uses, proposals.as_slice())? {
        Some(place) => Ok(Some(proposals.swap_remove(place))),
        None => Ok(None),
    }
}

// The place of the first of these proposals for ANDs that saves.
fn place_of_first(
    alloc: Global,
    graph: &Graph,
    uses: &Uses,
    proposals: &[Proposal],
) -> Result<Option<usize>, AllocError>
    requires uses { IsUsesOf uses.now graph.now }
    requires roots { All (λ p. is_and (row_at graph.now.rows p.root) ≡ true) proposals.now }
    ensures there { IfOk result (λ found. IfSome found (λ i. i < length proposals.now)) }
    ensures saves { IfOk result (λ found. IfSome found (λ i. HoldsAt (λ p. SavesSome graph.now.rows graph.now.observed (replacement p)) proposals.now i)) }
    ensures before { IfOk result (λ found. IfSome found (λ i. AllWithin (λ p. SavesNothing graph.now.rows graph.now.observed (replacement p)) proposals.now 0 i)) }
    ensures none { IfOk result (λ found. IfNone found (All (λ p. SavesNothing graph.now.rows graph.now.observed (replacement p)) proposals.now)) }
{
    for (i, proposal) in proposals.iter().enumerate() {
        if saves(alloc, graph, uses, proposal.borrow())? {
            return Ok(Some(i));
        }
    }
    Ok(None)
}

/// Whether a proposal for an AND saves.
#[tactic(auto, unfolding(syn_gain::specs::Replacements::SavesNothing, syn_gain::specs::Replacements::SavesSome))]
pub fn saves(
    alloc: Global,
    graph: &Graph,
    uses: &Uses,
    candidate: Candidate,
) -> Result<bool, AllocError>
    requires uses { IsUsesOf uses.now graph.now }
    requires root { is_and (row_at graph.now.rows candidate.root) ≡ true }
    ensures some { IfOk result (λ some. some ≡ true → SavesSome graph.now.rows graph.now.observed (replacement_of candidate.entry)) }
    ensures none { IfOk result (λ some. some ≡ false → SavesNothing graph.now.rows graph.now.observed (replacement_of candidate.entry)) }
{
    Ok(saved(alloc, graph, uses, candidate)? > 0)
}
