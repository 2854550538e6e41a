//! The proposer.

ghost use Rattle.std.specs.Prelude.{◌≡◌, ℕ, ◌<◌, ◌≤◌, ◌++◌, [], true, false, All, List, OnOk, IfNone, IfOk, IfSome, length, map, slice_index_or};
ghost use Rattle.syn_rows.specs.declared.Row.{Row};
ghost use Rattle.syn_rows.specs.Rows.{row_at};
ghost use Rattle.syn_rows.specs.Reach.{is_and};
ghost use Rattle.syn_plan.specs.Naming.{built_of};
ghost use Rattle.syn_library.specs.Library.{NamesOwn};
ghost use Rattle.syn_fanout_free.specs.Bounding.{IsMostLost};
ghost use Rattle.syn_fanout_free.specs.Saved.{count_in};
ghost use Rattle.syn_gain.specs.Leaves.{rise_above};
ghost use Rattle.syn_gain.specs.Proposals.{replacement, replacement_of};
ghost use Rattle.syn_gain.specs.Uses.{IsUsesOf};
ghost use Rattle.syn_proposals.specs.Closing.{IsFirst, SavesNothing};
ghost use Rattle.syn_proposals.specs.Sound.{IsSound};
ghost use Rattle.syn_weighing.specs.AllNew.{are_apart};
ghost use Rattle.syn_function_plans.specs.PlansOf.{ArePlansOf};
ghost use Rattle.syn_rewrite.specs.Prepared.{IsPreparedFor, IsRooted};
ghost use Rattle.syn_rewrite.specs.Rewriting.{cut_proposals, over, rewritings};

use crate::commit_candidates::{push_candidates, worth_over};
use crate::prepared::{MAX_LEAVES, Prepared, prepare};
use crate::rooted::{RootedCut, rooted_at};
use std::alloc::{AllocError, Global};
use std::thread::Threads;
use syn_function_plans::{FunctionPlans, PlanCache, PlanSource, plans_of};
use syn_gain::{Candidate, Proposal, Room, Uses, mffc_size, owned, saves};
use syn_graph::Graph;
use syn_library::Prepared as Classes;
use syn_plan::Plan;
use syn_proposals::Proposer;
use syn_weighing::{are_apart, dry_run_over, names_within, saves_nothing};
use syn_workers::Workers;

/// How many ANDs that go with a row are counted before its plans are looked at; hardly a plan of four leaves adds as many.
pub(crate) const MAX_COUNTED: u32 = 16;

// So few ANDs that go where no node stays aren't counted again where leaves stay: it takes as long as what it spares.
const FEW_ANDS: u32 = 2;

/// Proposes for each AND, cut by cut, the plans of its function over the cut.
#[derive(Drop)]
pub struct CutPlans {
    classes: Classes,
}

impl CutPlans {
    /// The proposer, with the plans of all classes. The only error is want of memory.
    pub fn new(alloc: Global) -> Result<CutPlans, AllocError> {
        Ok(CutPlans {
            classes: Classes::new(alloc)?,
        })
    }

    // The plans of functions, by the lists of a graph.
    fn source<'a>(&'a self, lists: &'a Prepared) -> PlanSource<'a> {
        PlanSource {
            known: &lists.known,
            classes: &self.classes,
        }
    }
}

/// A plan of an AND's function over a cut, in place of the AND.
pub(crate) fn candidate<'a>(graph: &Graph, cut: RootedCut<'a>, plan: &'a Plan) -> Candidate<'a>
    requires rooted { IsRooted graph.now.rows cut.root cut.leaves.now cut.function }
    requires count { plan.now.leaves ≡ 4 }
    requires names { NamesOwn plan.now cut.function }
    ensures root { result.root ≡ cut.entry.root }
    ensures leaves { result.leaves.now ≡ cut.entry.leaves.now }
    ensures plan { result.plan.now ≡ plan.now }
    ensures few { length result.leaves.now ≤ 4 }
    ensures is { replacement_of result ≡ over cut.entry.root cut.entry.leaves.now (built_of plan.now) }
{
    Candidate {
        root: cut.root,
        leaves: cut.leaves,
        plan,
    }
}

// Adds the plans of an AND's function over a cut, in order.
fn push_plans(
    graph: &Graph,
    cut: RootedCut,
    plans: &[Plan],
    proposals: &mut Vec<Proposal>,
) -> Result<(), AllocError>
    requires rooted { IsRooted graph.now.rows cut.root cut.leaves.now cut.function }
    requires plans { ArePlansOf cut.function plans.now }
    ensures proposals { OnOk result (map replacement proposals.new.items ≡ map replacement proposals.old.items ++ cut_proposals graph.now.rows cut.entry.root cut.entry.leaves.now) }
    ensures roots { OnOk result (All (λ p. p.root ≡ cut.entry.root) proposals.old.items → All (λ p. p.root ≡ cut.entry.root) proposals.new.items) }
    ensures sound { OnOk result (All (IsSound graph.now.rows) proposals.old.items → All (IsSound graph.now.rows) proposals.new.items) }
{
    for plan in plans {
        let candidate = candidate(graph, cut, plan);
        proposals.push(owned(candidate))?;
    }
    Ok(())
}

// Whether none of a cut's leaves is made of others.
fn leaves_apart(graph: &Graph, cut: RootedCut) -> bool
    requires rooted { IsRooted graph.now.rows cut.root cut.leaves.now cut.function }
    ensures { result ≡ true → (levels : ℕ) × (are_apart levels graph.now.rows cut.entry.leaves.now ≡ true) }
{
    are_apart(graph.rows.as_slice(), cut.leaves)
}

// The leaves of a cut where each of the plans over it names them all, and else none.
fn spared_leaves<'a>(cut: RootedCut<'a>, plans: &FunctionPlans) -> &'a [u32]
    requires rise { rise_above 0 cut.leaves.now ≡ true }
    ensures named { length result.now ≤ plans.now.leaves_named }
    ensures few { length result.now ≤ length cut.entry.leaves.now }
    ensures first { (i : ℕ) → i < length result.now → slice_index_or result.now i 0 ≡ slice_index_or cut.entry.leaves.now i 0 }
    ensures rise { rise_above 0 result.now ≡ true }
{
    if cut.leaves.len() <= plans.leaves_named as usize {
        cut.leaves
    } else {
        &[]
    }
}

// No fewer ANDs than go with an AND's row where these nodes stay, where `most` are no fewer than go where none stays.
fn most_sparing(
    alloc: Global,
    graph: &Graph,
    uses: &Uses,
    root: u32,
    spared: &[u32],
    most: u32,
) -> Result<u32, AllocError>
    requires uses { IsUsesOf uses.now graph.now }
    requires root { is_and (row_at graph.now.rows root) ≡ true }
    requires rise { rise_above 0 spared.now ≡ true }
    requires most { IsMostLost graph.now.rows (count_in uses.now.counts.items) root [] most }
    ensures { IfOk result (IsMostLost graph.now.rows (count_in uses.now.counts.items) root spared.now) }
{
    if spared.is_empty() || most <= FEW_ANDS {
        return Ok(most);
    }
    mffc_size(alloc, graph, uses, root, spared, MAX_COUNTED)
}

// Whether one of the plans of an AND's function over a cut saves, where no more than `most` ANDs go with the AND's row.
// Most plans add so many new rows that they aren't placed. An answer without a proposal is small: most cuts have none.
fn some_saves(
    alloc: Global,
    graph: &Graph,
    uses: &Uses,
    cut: RootedCut,
    plans: &FunctionPlans,
    most: u32,
    room: &mut Room,
) -> Result<bool, AllocError>
    requires uses { IsUsesOf uses.now graph.now }
    requires rooted { IsRooted graph.now.rows cut.root cut.leaves.now cut.function }
    requires function { plans.now.function ≡ cut.function }
    requires most { IsMostLost graph.now.rows (count_in uses.now.counts.items) cut.root [] most }
    ensures none { IfOk result (λ some. some ≡ false → All (SavesNothing graph.now.rows graph.now.observed) (cut_proposals graph.now.rows cut.entry.root cut.entry.leaves.now)) }
{
    let all = plans.as_slice();
    let told = plans.apart.as_slice();
    let leaves_apart = leaves_apart(graph, cut);
    let spared = spared_leaves(cut, plans);
    let most = most_sparing(alloc, graph, uses, cut.root, spared, most)?;
    let mut weighed = dry_run_over(MAX_LEAVES, cut.leaves);
    for (i, plan) in all.iter().enumerate() {
        let apart = leaves_apart && names_within(told, i, cut.leaves);
        let candidate = candidate(graph, cut, plan);
        if plans.irredundant
            && saves_nothing(
                alloc,
                graph,
                uses,
                candidate,
                spared,
                most,
                apart,
                &mut weighed,
            )?
        {
            continue;
        }
        let bound = mffc_size(alloc, graph, uses, cut.root, cut.leaves, MAX_COUNTED)?;
        if saves(alloc, graph, uses, candidate, bound, room)? {
            return Ok(true);
        }
    }
    Ok(false)
}

// The same of plans that are made here. They are large, and a function fills its locals as it begins: so this one is called
// only where the plans weren't made before.
fn some_fitted_saves(
    alloc: Global,
    graph: &Graph,
    uses: &Uses,
    classes: &Classes,
    cut: RootedCut,
    most: u32,
    room: &mut Room,
) -> Result<bool, AllocError>
    requires uses { IsUsesOf uses.now graph.now }
    requires rooted { IsRooted graph.now.rows cut.root cut.leaves.now cut.function }
    requires most { IsMostLost graph.now.rows (count_in uses.now.counts.items) cut.root [] most }
    ensures none { IfOk result (λ some. some ≡ false → All (SavesNothing graph.now.rows graph.now.observed) (cut_proposals graph.now.rows cut.entry.root cut.entry.leaves.now)) }
{
    let plans = FunctionPlans::fitted(classes, cut.function);
    some_saves(alloc, graph, uses, cut, &plans, most, room)
}

// The same of the plans that were made before, or else are made here.
fn some_of_function_saves(
    alloc: Global,
    graph: &Graph,
    uses: &Uses,
    source: PlanSource,
    cut: RootedCut,
    most: u32,
    room: &mut Room,
) -> Result<bool, AllocError>
    requires uses { IsUsesOf uses.now graph.now }
    requires rooted { IsRooted graph.now.rows cut.root cut.leaves.now cut.function }
    requires most { IsMostLost graph.now.rows (count_in uses.now.counts.items) cut.root [] most }
    ensures none { IfOk result (λ some. some ≡ false → All (SavesNothing graph.now.rows graph.now.observed) (cut_proposals graph.now.rows cut.entry.root cut.entry.leaves.now)) }
{
    match source.known.plans(cut.function) {
        Some(plans) => some_saves(alloc, graph, uses, cut, plans, most, room),
        None => some_fitted_saves(alloc, graph, uses, source.classes, cut, most, room),
    }
}

// The first of the plans of an AND's function over a cut that saves.
fn first_over(
    alloc: Global,
    graph: &Graph,
    uses: &Uses,
    cut: RootedCut,
    plans: &[Plan],
    room: &mut Room,
) -> Result<Option<Proposal>, AllocError>
    requires uses { IsUsesOf uses.now graph.now }
    requires rooted { IsRooted graph.now.rows cut.root cut.leaves.now cut.function }
    requires plans { ArePlansOf cut.function plans.now }
    ensures first { IfOk result (λ found. IfSome found (λ p. IsFirst graph.now.rows graph.now.observed (cut_proposals graph.now.rows cut.entry.root cut.entry.leaves.now) (replacement p))) }
    ensures root { IfOk result (λ found. IfSome found (λ p. p.root ≡ cut.entry.root)) }
    ensures sound { IfOk result (λ found. IfSome found (IsSound graph.now.rows)) }
    ensures none { IfOk result (λ found. IfNone found (All (SavesNothing graph.now.rows graph.now.observed) (cut_proposals graph.now.rows cut.entry.root cut.entry.leaves.now))) }
{
    let most = mffc_size(alloc, graph, uses, cut.root, cut.leaves, MAX_COUNTED)?;
    for plan in plans {
        let candidate = candidate(graph, cut, plan);
        if saves(alloc, graph, uses, candidate, most, room)? {
            return Ok(Some(owned(candidate)));
        }
    }
    Ok(None)
}

// The first of the plans of an AND's function over a cut that saves: those that were made before, or else made here.
fn first_of_function(
    alloc: Global,
    graph: &Graph,
    uses: &Uses,
    source: PlanSource,
    cut: RootedCut,
    room: &mut Room,
) -> Result<Option<Proposal>, AllocError>
    requires uses { IsUsesOf uses.now graph.now }
    requires rooted { IsRooted graph.now.rows cut.root cut.leaves.now cut.function }
    ensures first { IfOk result (λ found. IfSome found (λ p. IsFirst graph.now.rows graph.now.observed (cut_proposals graph.now.rows cut.entry.root cut.entry.leaves.now) (replacement p))) }
    ensures root { IfOk result (λ found. IfSome found (λ p. p.root ≡ cut.entry.root)) }
    ensures sound { IfOk result (λ found. IfSome found (IsSound graph.now.rows)) }
    ensures none { IfOk result (λ found. IfNone found (All (SavesNothing graph.now.rows graph.now.observed) (cut_proposals graph.now.rows cut.entry.root cut.entry.leaves.now))) }
{
    if let Some(found) = source.known.plans(cut.function) {
        return first_over(alloc, graph, uses, cut, found.as_slice(), room);
    }
    let plans = FunctionPlans::fitted(source.classes, cut.function);
    first_over(alloc, graph, uses, cut, plans.as_slice(), room)
}

impl Proposer for CutPlans {
    type Lists = Prepared;

    ghost proposals = { λ _ rows node. rewritings rows node };

    ghost is_lists_of = { λ _ lists rows. IsPreparedFor lists rows };

    fn prepare<R: Threads + Sync>(
        &self,
        rt: &R,
        alloc: Global,
        graph: &Graph,
        workers: Workers,
    ) -> Result<Prepared, AllocError> {
        let known = PlanCache::new(alloc)?;
        prepare(rt, alloc, &self.classes, graph, known, workers)
    }

    fn prepare_again<R: Threads + Sync>(
        &self,
        rt: &R,
        alloc: Global,
        graph: &Graph,
        lists: Prepared,
        workers: Workers,
    ) -> Result<Prepared, AllocError> {
        let Prepared { known, .. } = lists;
        prepare(rt, alloc, &self.classes, graph, known, workers)
    }

    fn propose(
        &self,
        alloc: Global,
        graph: &Graph,
        lists: &Prepared,
        node: u32,
    ) -> Result<Vec<Proposal>, AllocError> {
        let cuts = lists.cuts.nontrivial(node);
        let mut proposals = Vec::new(alloc);
        for i in 0..cuts.len() {
            let cut = rooted_at(graph, lists, node, cuts, i);
            let plans = plans_of(&self.classes, cut.function);
            push_plans(graph, cut, plans.as_slice(), &mut proposals)?;
        }
        Ok(proposals)
    }

    fn first_saving(
        &self,
        alloc: Global,
        graph: &Graph,
        uses: &Uses,
        lists: &Prepared,
        node: u32,
    ) -> Result<Option<Proposal>, AllocError> {
        let cuts = lists.cuts.nontrivial(node);
        let most = mffc_size(alloc, graph, uses, node, &[], MAX_COUNTED)?;
        let source = self.source(lists);
        let mut room = Room::new(alloc);
        for i in 0..cuts.len() {
            let cut = rooted_at(graph, lists, node, cuts, i);
            if !some_of_function_saves(alloc, graph, uses, source, cut, most, &mut room)? {
                continue;
            }
            if let Some(found) = first_of_function(alloc, graph, uses, source, cut, &mut room)? {
                return Ok(Some(found));
            }
        }
        Ok(None)
    }

    fn commit_candidates(
        &self,
        alloc: Global,
        graph: &Graph,
        uses: &Uses,
        lists: &Prepared,
        node: u32,
        zero_gain: bool,
    ) -> Result<Vec<Proposal>, AllocError> {
        let cuts = lists.cuts.nontrivial(node);
        let source = self.source(lists);
        let mut room = Room::new(alloc);
        let mut proposals = Vec::new(alloc);
        for i in 0..cuts.len() {
            let cut = rooted_at(graph, lists, node, cuts, i);
            let worth = worth_over(alloc, graph, uses, cut, zero_gain)?;
            push_candidates(graph, uses, source, cut, worth, &mut room, &mut proposals)?;
        }
        Ok(proposals)
    }

    fn plans_over<'a>(&'a self, lists: &'a Prepared, function: u16) -> &'a [Plan] {
        match lists.known.plans(function) {
            Some(found) => found.as_slice(),
            None => &[],
        }
    }
}
