//! The proposer.

ghost use Rattle.std.specs.Prelude.{◌≡◌, ◌∷◌, ◌≤◌, [], true, All, IfNone, IfOk, IfSome, ⊤, length};
ghost use Rattle.syn_rows.specs.Rows.{row_at};
ghost use Rattle.syn_rows.specs.Reach.{is_and};
ghost use Rattle.syn_apply.specs.Sound.{IsSoundBy};
ghost use Rattle.syn_gain.specs.Proposals.{replacement, replacement_of};
ghost use Rattle.syn_gain.specs.Uses.{IsUsesOf};
ghost use Rattle.syn_proposals.specs.Closing.{IsFirst, SavesNothing};
ghost use Rattle.syn_proposals.specs.Sound.{IsSound};
ghost use Rattle.syn_refactor.specs.Cones.{IsConeOf};
ghost use Rattle.syn_refactor.specs.Known.{IsFactored};
ghost use Rattle.syn_refactor.specs.Refactoring.{refactorings};

use crate::known_plans::KnownPlans;
use std::alloc::{AllocError, Global};
use std::thread::Threads;
use syn_cones::function;
use syn_gain::{Candidate, Proposal, Uses, owned};
use syn_graph::Graph;
use syn_growing::{Leaves, cone_leaves, may_save};
use syn_plan::Plan;
use syn_proposals::{Proposer, saves};
use syn_truth::Truth;
use syn_workers::Workers;

/// Proposes for each AND the factored plan of its function over the leaves of its cone.
#[derive(Clone, Copy, Debug)]
pub struct Cones;

// The leaves of a node's cone, and its function over them.
#[derive(Drop)]
struct Cone {
    leaves: Leaves,
    function: Truth,
}

// The cone of an AND.
fn cone_of(alloc: Global, graph: &Graph, node: u32) -> Result<Cone, AllocError>
    requires { is_and (row_at graph.now.rows node) ≡ true }
    ensures is { IfOk result (λ cone. IsConeOf graph.now.rows node cone.leaves.items cone.function) }
{
    let leaves = cone_leaves(graph, node);
    let table = function(alloc, graph.rows.as_slice(), node, leaves.as_slice())?;
    Ok(Cone {
        leaves,
        function: table,
    })
}

// The factored plan of an AND's function over the leaves of its cone, in place of the AND.
fn candidate<'a>(graph: &Graph, node: u32, cone: &'a Cone, plan: &'a Plan) -> Candidate<'a>
    requires gate { is_and (row_at graph.now.rows node) ≡ true }
    requires cone { IsConeOf graph.now.rows node cone.now.leaves.items cone.now.function }
    requires plan { IsFactored cone.now.function plan.now }
    ensures root { result.root ≡ node }
    ensures few { length result.leaves.now ≤ 8 }
    ensures is { replacement_of result ∷ [] ≡ refactorings graph.now.rows node }
    ensures sound { IsSoundBy graph.now.rows (replacement_of result) }
{
    syn_gain::all_leaf_values();
    Candidate::over(node, cone.leaves.as_slice(), plan)
}

// The proposal for an AND.
fn proposal(
    alloc: Global,
    graph: &Graph,
    lists: &KnownPlans,
    node: u32,
) -> Result<Proposal, AllocError>
    requires { is_and (row_at graph.now.rows node) ≡ true }
    ensures proposal { IfOk result (λ p. replacement p ∷ [] ≡ refactorings graph.now.rows node) }
    ensures root { IfOk result (λ p. p.root ≡ node) }
    ensures sound { IfOk result (IsSound graph.now.rows) }
{
    let cone = cone_of(alloc, graph, node)?;
    let mut spare = None;
    let plan = lists.plan(alloc, cone.function, &mut spare)?;
    Ok(owned(candidate(graph, node, &cone, plan)))
}

// The proposal for an AND, if it saves.
#[tactic(auto, using(crate::proofs::Saving::first_of_one, crate::proofs::Saving::none_of_one, crate::proofs::Saving::has_root, crate::proofs::Saving::sound))]
fn where_saving(
    alloc: Global,
    graph: &Graph,
    uses: &Uses,
    node: u32,
    candidate: Candidate,
) -> Result<Option<Proposal>, AllocError>
    requires uses { IsUsesOf uses.now graph.now }
    requires gate { is_and (row_at graph.now.rows node) ≡ true }
    requires root { candidate.root ≡ node }
    requires few { length candidate.leaves.now ≤ 8 }
    requires is { replacement_of candidate ∷ [] ≡ refactorings graph.now.rows node }
    requires sound { IsSoundBy graph.now.rows (replacement_of candidate) }
    ensures first { IfOk result (λ found. IfSome found (λ p. IsFirst graph.now.rows graph.now.observed (refactorings graph.now.rows node) (replacement p))) }
    ensures root { IfOk result (λ found. IfSome found (λ p. p.root ≡ node)) }
    ensures sound { IfOk result (λ found. IfSome found (IsSound graph.now.rows)) }
    ensures none { IfOk result (λ found. IfNone found (All (SavesNothing graph.now.rows graph.now.observed) (refactorings graph.now.rows node))) }
{
    if saves(alloc, graph, uses, candidate)? {
        Ok(Some(owned(candidate)))
    } else {
        Ok(None)
    }
}

impl Proposer for Cones {
    type Lists = KnownPlans;

    ghost proposals = { λ _ rows node. refactorings rows node };

    ghost is_lists_of = { λ _ _ _. ⊤ };

    fn prepare<R: Threads + Sync>(
        &self,
        _rt: &R,
        alloc: Global,
        _graph: &Graph,
        _workers: Workers,
    ) -> Result<KnownPlans, AllocError> {
        KnownPlans::new(alloc)
    }

    fn prepare_again<R: Threads + Sync>(
        &self,
        _rt: &R,
        _alloc: Global,
        _graph: &Graph,
        lists: KnownPlans,
        _workers: Workers,
    ) -> Result<KnownPlans, AllocError> {
        Ok(lists)
    }

    fn propose(
        &self,
        alloc: Global,
        graph: &Graph,
        lists: &KnownPlans,
        node: u32,
    ) -> Result<Vec<Proposal>, AllocError> {
        let mut proposals = Vec::with_capacity(alloc, 1)?;
        proposals.push(proposal(alloc, graph, lists, node)?)?;
        Ok(proposals)
    }

    fn first_saving(
        &self,
        alloc: Global,
        graph: &Graph,
        uses: &Uses,
        lists: &KnownPlans,
        node: u32,
    ) -> Result<Option<Proposal>, AllocError> {
        let cone = cone_of(alloc, graph, node)?;
        let mut spare = None;
        let plan = lists.plan(alloc, cone.function, &mut spare)?;
        let candidate = candidate(graph, node, &cone, plan);
        where_saving(alloc, graph, uses, node, candidate)
    }

    fn commit_candidates(
        &self,
        alloc: Global,
        graph: &Graph,
        uses: &Uses,
        lists: &KnownPlans,
        node: u32,
        zero_gain: bool,
    ) -> Result<Vec<Proposal>, AllocError> {
        let proposal = proposal(alloc, graph, lists, node)?;
        let mut proposals = Vec::new(alloc);
        if may_save(alloc, graph, uses, &proposal, zero_gain)? {
            proposals.push(proposal)?;
        }
        Ok(proposals)
    }
}
