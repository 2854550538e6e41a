//! A proposer whose proposals keep the level of their root.

ghost use Rattle.std.specs.Prelude.{◌≡◌, ◌++◌, ◌∷◌, [], if◌then◌else◌, true, All, IfNone, IfOk, IfSome, OnOk, map};
ghost use Rattle.std.specs.List.{filter};
ghost use Rattle.syn_rows.specs.Reach.{is_and};
ghost use Rattle.syn_rows.specs.Rows.{row_at};
ghost use Rattle.syn_gain.specs.Proposals.{replacement};
ghost use Rattle.syn_gain.specs.Uses.{IsUsesOf};
ghost use Rattle.syn_levels.specs.Levels.{keeping, keeps_level};
ghost use Rattle.syn_proposals.specs.Closing.{IsFirst, SavesNothing};
ghost use Rattle.syn_proposals.specs.Leveled.{IsLeveled};
ghost use Rattle.syn_proposals.specs.Sound.{IsSound};

use crate::Proposer;
use crate::proposer::first_of;
use std::alloc::{AllocError, Global};
use std::thread::Threads;
use syn_gain::{Proposal, Uses};
use syn_graph::Graph;
use syn_hashed::PairIndex;
use syn_levels::{is_low, is_no_deeper, keeps_level, levels};
use syn_workers::Workers;

/// Proposes for each AND those of the proposals of a proposer that keep the AND's level, in their order.
#[derive(Drop)]
pub struct Keeping<P> {
    /// The proposer.
    pub proposer: P,
}

/// What is listed for a graph: what its proposer lists, the index of its pairs, and the levels of its nodes.
#[derive(Drop)]
pub struct Leveled<L> {
    /// The proposer's lists.
    pub lists: L,
    /// The index of the pairs.
    pub pairs: PairIndex,
    /// The level of each node.
    pub levels: Vec<u32>,
}

// A proposer's lists with the index and the levels of a graph.
fn with_levels<L: Drop>(alloc: Global, graph: &Graph, lists: L) -> Result<Leveled<L>, AllocError>
    ensures lists { IfOk result (λ l. l.lists ≡ lists) }
    ensures leveled { IfOk result (λ l. IsLeveled graph.now.rows l.pairs l.levels.items) }
{
    let pairs = PairIndex::of(alloc, graph.rows.as_slice())?;
    let levels = levels(alloc, graph)?;
    Ok(Leveled {
        lists,
        pairs,
        levels,
    })
}

// Adds a proposal for a node to those that are kept, where it keeps the node's level.
fn keep(
    alloc: Global,
    graph: &Graph,
    pairs: &PairIndex,
    levels: &[u32],
    proposal: Proposal,
    kept: &mut Vec<Proposal>,
) -> Result<(), AllocError>
    requires leveled { IsLeveled graph.now.rows pairs.now levels.now }
    requires root { is_and (row_at graph.now.rows proposal.root) ≡ true }
    ensures { OnOk result (kept.new.items ≡ kept.old.items ++ (if keeps_level graph.now.rows (replacement proposal) then proposal ∷ [] else [])) }
{
    let keeps = keeps_level(alloc, graph, pairs, levels, proposal.borrow())?;
    if keeps {
        kept.push(proposal)?;
    }
    Ok(())
}

// Those of some proposals for nodes that keep the level of their root, in order.
fn kept(
    alloc: Global,
    graph: &Graph,
    pairs: &PairIndex,
    levels: &[u32],
    proposals: Vec<Proposal>,
) -> Result<Vec<Proposal>, AllocError>
    requires leveled { IsLeveled graph.now.rows pairs.now levels.now }
    requires roots { All (λ p. is_and (row_at graph.now.rows p.root) ≡ true) proposals.items }
    ensures { IfOk result (λ v. v.items ≡ filter (λ p. keeps_level graph.now.rows (replacement p)) proposals.items) }
{
    let mut kept = Vec::new(alloc);
    for proposal in proposals {
        keep(alloc, graph, pairs, levels, proposal, &mut kept)?;
    }
    Ok(kept)
}

// The first of some proposals for an AND that keeps the AND's level and saves.
fn first_of_kept(
    alloc: Global,
    graph: &Graph,
    uses: &Uses,
    pairs: &PairIndex,
    levels: &[u32],
    node: u32,
    all: Vec<Proposal>,
) -> Result<Option<Proposal>, AllocError>
    requires uses { IsUsesOf uses.now graph.now }
    requires leveled { IsLeveled graph.now.rows pairs.now levels.now }
    requires node { is_and (row_at graph.now.rows node) ≡ true }
    requires roots { All (λ p. p.root ≡ node) all.items }
    requires sound { All (IsSound graph.now.rows) all.items }
    ensures first { IfOk result (λ found. IfSome found (λ p. IsFirst graph.now.rows graph.now.observed (filter (keeps_level graph.now.rows) (map replacement all.items)) (replacement p))) }
    ensures root { IfOk result (λ found. IfSome found (λ p. p.root ≡ node)) }
    ensures sound { IfOk result (λ found. IfSome found (IsSound graph.now.rows)) }
    ensures none { IfOk result (λ found. IfNone found (All (SavesNothing graph.now.rows graph.now.observed) (filter (keeps_level graph.now.rows) (map replacement all.items)))) }
{
    let proposals = kept(alloc, graph, pairs, levels, all)?;
    first_of(alloc, graph, uses, node, proposals)
}

// Those of some proposals for a node whose plans lie no higher than their root, without any hit.
fn low(
    alloc: Global,
    levels: &[u32],
    node: u32,
    proposals: Vec<Proposal>,
) -> Result<Vec<Proposal>, AllocError>
    requires roots { All (λ p. p.root ≡ node) proposals.items }
    ensures roots { IfOk result (λ v. All (λ p. p.root ≡ node) v.items) }
{
    let _ = node;
    let mut low = Vec::new(alloc);
    for proposal in proposals {
        if is_low(alloc, levels, proposal.borrow())? {
            low.push(proposal)?;
        }
    }
    Ok(low)
}

impl<P: Proposer> Proposer for Keeping<P> {
    type Lists = Leveled<P::Lists>;

    ghost proposals = { λ s rows node. keeping (P.proposals s.proposer) rows node };

    ghost is_lists_of = { λ s lists rows. P.is_lists_of s.proposer lists.lists rows × IsLeveled rows lists.pairs lists.levels.items };

    fn prepare<R: Threads + Sync>(
        &self,
        rt: &R,
        alloc: Global,
        graph: &Graph,
        workers: Workers,
    ) -> Result<Leveled<P::Lists>, AllocError> {
        let lists = self.proposer.prepare(rt, alloc, graph, workers)?;
        with_levels(alloc, graph, lists)
    }

    fn prepare_again<R: Threads + Sync>(
        &self,
        rt: &R,
        alloc: Global,
        graph: &Graph,
        lists: Leveled<P::Lists>,
        workers: Workers,
    ) -> Result<Leveled<P::Lists>, AllocError> {
        let Leveled { lists, .. } = lists;
        let lists = self
            .proposer
            .prepare_again(rt, alloc, graph, lists, workers)?;
        with_levels(alloc, graph, lists)
    }

    fn propose(
        &self,
        alloc: Global,
        graph: &Graph,
        lists: &Leveled<P::Lists>,
        node: u32,
    ) -> Result<Vec<Proposal>, AllocError> {
        let all = self.proposer.propose(alloc, graph, &lists.lists, node)?;
        kept(alloc, graph, &lists.pairs, lists.levels.as_slice(), all)
    }

    fn first_saving(
        &self,
        alloc: Global,
        graph: &Graph,
        uses: &Uses,
        lists: &Leveled<P::Lists>,
        node: u32,
    ) -> Result<Option<Proposal>, AllocError> {
        let Some(first) = self
            .proposer
            .first_saving(alloc, graph, uses, &lists.lists, node)?
        else {
            return Ok(None);
        };
        let levels = lists.levels.as_slice();
        let keeps = keeps_level(alloc, graph, &lists.pairs, levels, first.borrow())?;
        if keeps {
            return Ok(Some(first));
        }
        let all = self.proposer.propose(alloc, graph, &lists.lists, node)?;
        first_of_kept(alloc, graph, uses, &lists.pairs, levels, node, all)
    }

    // Those that workers commit are told by their plans alone, whatever rows are there: a commit of such a one on the shared
    // table raises no level.
    fn commit_candidates(
        &self,
        alloc: Global,
        graph: &Graph,
        uses: &Uses,
        lists: &Leveled<P::Lists>,
        node: u32,
        zero_gain: bool,
    ) -> Result<Vec<Proposal>, AllocError> {
        let all = self
            .proposer
            .commit_candidates(alloc, graph, uses, &lists.lists, node, zero_gain)?;
        low(alloc, lists.levels.as_slice(), node, all)
    }

    fn may_take(&self, alloc: Global, was: &Graph, now: &Graph) -> Result<bool, AllocError> {
        is_no_deeper(alloc, was, now)
    }
}
