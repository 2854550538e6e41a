//! The proposals that are worth a commit. Nothing rests on which they are.

ghost use Rattle.std.specs.Prelude.{◌≡◌, true, All, OnOk};
ghost use Rattle.syn_rows.specs.Rows.{row_at};
ghost use Rattle.syn_rows.specs.Reach.{is_and};
ghost use Rattle.syn_gain.specs.Uses.{IsUsesOf};
ghost use Rattle.syn_weighing.specs.Weighing.{BeginsWith};
ghost use Rattle.syn_function_plans.specs.PlansOf.{ArePlansOf};
ghost use Rattle.syn_rewrite.specs.Prepared.{IsRooted};

use crate::prepared::MAX_LEAVES;
use crate::proposer::{MAX_COUNTED, candidate};
use crate::rooted::RootedCut;
use std::alloc::{AllocError, Global};
use syn_function_plans::{FunctionPlans, PlanSource};
use syn_gain::{Candidate, Proposal, Room, Uses, adds_fewer, literal_for, mffc_size, owned};
use syn_graph::Graph;
use syn_library::Prepared as Classes;
use syn_plan::Plan;
use syn_weighing::{DryRun, dry_run, dry_run_over};

/// Which proposals are worth a commit.
#[derive(Clone, Copy, Debug)]
pub(crate) struct Worth {
    // They add fewer new rows than so many.
    limit: u32,
    // It may be one that becomes the row that is there.
    own_row: bool,
}

// Whether a weighed plan becomes the root itself.
fn is_root(candidate: Candidate, weighed: &DryRun) -> bool {
    literal_for(weighed.literals.as_slice(), candidate.plan.out).node() == candidate.root
}

// Whether a proposal for an AND is worth a commit, where its gates may be those of any row. The only error is want of memory,
// which a small plan doesn't take.
fn is_worth(
    graph: &Graph,
    uses: &Uses,
    candidate: Candidate,
    worth: Worth,
    weighed: &mut DryRun,
    room: &mut Room,
) -> Result<bool, AllocError>
    requires uses { IsUsesOf uses.now graph.now }
    requires root { is_and (row_at graph.now.rows candidate.root) ≡ true }
    requires begins { BeginsWith candidate.plan.now.leaves candidate.leaves.now weighed.old }
    ensures begins { OnOk result (BeginsWith candidate.entry.plan.now.leaves candidate.entry.leaves.now weighed.new) }
{
    let limit = worth.limit as usize;
    if candidate.plan.gates.len() < limit {
        return Ok(true);
    }
    let any = graph.rows.as_slice().len() as u32;
    if dry_run(graph, uses, candidate, any, limit, weighed) {
        return Ok(weighed.extra.len() < limit && (worth.own_row || !is_root(candidate, weighed)));
    }
    Ok(adds_fewer(graph, uses, candidate, worth.limit, room))
}

// Adds those of the plans of an AND's function over a cut that are worth a commit, in order.
fn push_worth(
    graph: &Graph,
    uses: &Uses,
    cut: RootedCut,
    plans: &[Plan],
    worth: Worth,
    room: &mut Room,
    proposals: &mut Vec<Proposal>,
) -> Result<(), AllocError>
    requires uses { IsUsesOf uses.now graph.now }
    requires rooted { IsRooted graph.now.rows cut.root cut.leaves.now cut.function }
    requires plans { ArePlansOf cut.function plans.now }
    ensures { OnOk result (All (λ p. p.root ≡ cut.entry.root) proposals.old.items → All (λ p. p.root ≡ cut.entry.root) proposals.new.items) }
{
    let mut weighed = dry_run_over(MAX_LEAVES, cut.leaves);
    for plan in plans {
        let candidate = candidate(graph, cut, plan);
        if !is_worth(graph, uses, candidate, worth, &mut weighed, room)? {
            continue;
        }
        proposals.push(owned(candidate))?;
    }
    Ok(())
}

// The same of plans that are made here. They are large, and a function fills its locals as it begins: so this one is called
// only where the plans weren't made before.
fn push_fitted(
    graph: &Graph,
    uses: &Uses,
    classes: &Classes,
    cut: RootedCut,
    worth: Worth,
    room: &mut Room,
    proposals: &mut Vec<Proposal>,
) -> Result<(), AllocError>
    requires uses { IsUsesOf uses.now graph.now }
    requires rooted { IsRooted graph.now.rows cut.root cut.leaves.now cut.function }
    ensures { OnOk result (All (λ p. p.root ≡ cut.entry.root) proposals.old.items → All (λ p. p.root ≡ cut.entry.root) proposals.new.items) }
{
    let plans = FunctionPlans::fitted(classes, cut.function);
    push_worth(graph, uses, cut, plans.as_slice(), worth, room, proposals)
}

/// Which proposals over a cut are worth a commit on a shared table of the graph: those that may save, and with `zero_gain`
/// those that lose nothing. They add fewer new rows than go with the root's row where the leaves stay, or as many; a plan that
/// becomes the row that is there is one of those that lose nothing. The only error is want of memory.
pub(crate) fn worth_over(
    alloc: Global,
    graph: &Graph,
    uses: &Uses,
    cut: RootedCut,
    zero_gain: bool,
) -> Result<Worth, AllocError>
    requires uses { IsUsesOf uses.now graph.now }
    requires rooted { IsRooted graph.now.rows cut.root cut.leaves.now cut.function }
{
    let lost = mffc_size(alloc, graph, uses, cut.root, cut.leaves, MAX_COUNTED)?;
    Ok(Worth {
        limit: lost.saturating_add(u32::from(zero_gain)),
        own_row: zero_gain,
    })
}

/// Adds those of the plans of an AND's function over a cut that are worth a commit, in order.
pub(crate) fn push_candidates(
    graph: &Graph,
    uses: &Uses,
    source: PlanSource,
    cut: RootedCut,
    worth: Worth,
    room: &mut Room,
    proposals: &mut Vec<Proposal>,
) -> Result<(), AllocError>
    requires uses { IsUsesOf uses.now graph.now }
    requires rooted { IsRooted graph.now.rows cut.root cut.leaves.now cut.function }
    ensures { OnOk result (All (λ p. p.root ≡ cut.entry.root) proposals.old.items → All (λ p. p.root ≡ cut.entry.root) proposals.new.items) }
{
    match source.known.plans(cut.function) {
        Some(found) => push_worth(graph, uses, cut, found.as_slice(), worth, room, proposals),
        None => push_fitted(graph, uses, source.classes, cut, worth, room, proposals),
    }
}
