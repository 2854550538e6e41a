//! The proposer.

ghost use Rattle.std.specs.Prelude.{◌≡◌, ◌<◌, ◌≤◌, true, All, OnOk, length, slice_index_or};
ghost use Rattle.syn_rows.specs.Reach.{is_and};
ghost use Rattle.syn_rows.specs.Rows.{row_at};
ghost use Rattle.syn_gain.specs.Proposals.{replacement};
ghost use Rattle.syn_gain.specs.Uses.{IsUsesOf};
ghost use Rattle.syn_growing.specs.Plans.{over};
ghost use Rattle.syn_proposals.specs.Sound.{IsSound};
ghost use Rattle.syn_resub.specs.Divided.{AreDivided};
ghost use Rattle.syn_resub.specs.FanOuts.{AreFanOuts};
ghost use Rattle.syn_resub.specs.Forms.{stands_for};
ghost use Rattle.syn_resub.specs.Needed.{IsMadeOf};
ghost use Rattle.syn_resub.specs.Resubstitution.{plan_for, resubstitutions};

use crate::divided::{Divided, divide};
use crate::form_search::found_forms;
use crate::placed_forms::{MAX_MADE, form_at, makes_row, place_of_first};
use crate::plans::plan_for;
use crate::{FanOuts, Form};
use std::alloc::{AllocError, Global};
use std::thread::Threads;
use syn_gain::{Proposal, Uses, mffc_size};
use syn_graph::Graph;
use syn_growing::Leaves;
use syn_proposals::Proposer;
use syn_rows::Row;
use syn_workers::Workers;

/// Proposes for each AND the forms that stand for it over the leaves of its cone.
#[derive(Clone, Copy, Debug)]
pub struct Divisors;

// The same leaves.
fn copied(leaves: &[u32]) -> Leaves
    requires { length leaves.now ≤ 8 }
    ensures { result.items ≡ leaves.now }
{
    let mut copy = Leaves::new();
    for leaf in leaves {
        copy.push(*leaf);
    }
    copy
}

// A form in place of an AND.
fn proposal(graph: &Graph, node: u32, divided: &Divided, form: Form) -> Proposal
    requires gate { is_and (row_at graph.now.rows node) ≡ true }
    requires divided { AreDivided graph.now.rows node divided.now }
    requires made { IsMadeOf divided.now.nodes.items form }
    requires stands { stands_for graph.now.rows divided.now.leaves.items node form ≡ true }
    ensures proposal { replacement result ≡ over node divided.now.leaves.items (plan_for graph.now.rows divided.now.leaves.items node form) }
    ensures root { result.root ≡ node }
    ensures sound { IsSound graph.now.rows result }
{
    syn_gain::all_leaf_values();
    let plan = plan_for(graph, node, divided, form);
    Proposal::over(node, copied(divided.leaves.as_slice()), plan)
}

// Whether a form is the AND's own row.
fn is_own(graph: &Graph, node: u32, form: Form) -> bool
    requires { is_and (row_at graph.now.rows node) ≡ true }
{
    match (form, graph.rows.as_slice()[node as usize]) {
        (Form::Both(first, second, false), Row::And(a, b)) => first == a && second == b,
        _ => false,
    }
}

// Whether a form is worth a commit: it isn't the AND's own row, and where a new row doesn't pay, it makes none.
fn may_save(graph: &Graph, uses: &Uses, node: u32, form: Form, row_pays: bool) -> bool
    requires uses { IsUsesOf uses.now graph.now }
    requires gate { is_and (row_at graph.now.rows node) ≡ true }
{
    if is_own(graph, node, form) {
        return false;
    }
    row_pays || !makes_row(graph, uses, form)
}

// Adds a form's proposal, where it may save.
fn push_candidates(
    graph: &Graph,
    uses: &Uses,
    node: u32,
    divided: &Divided,
    form: Form,
    row_pays: bool,
    proposals: &mut Vec<Proposal>,
) -> Result<(), AllocError>
    requires uses { IsUsesOf uses.now graph.now }
    requires gate { is_and (row_at graph.now.rows node) ≡ true }
    requires divided { AreDivided graph.now.rows node divided.now }
    requires made { IsMadeOf divided.now.nodes.items form }
    requires stands { stands_for graph.now.rows divided.now.leaves.items node form ≡ true }
    requires roots { All (λ p. p.root ≡ node) proposals.old.items }
    ensures roots { OnOk result (All (λ p. p.root ≡ node) proposals.new.items) }
{
    if may_save(graph, uses, node, form, row_pays) {
        proposals.push(proposal(graph, node, divided, form))?;
    }
    Ok(())
}

impl Proposer for Divisors {
    type Lists = FanOuts;

    ghost proposals = { λ _ rows node. resubstitutions rows node };

    ghost is_lists_of = { λ _ lists rows. AreFanOuts lists rows };

    fn prepare<R: Threads + Sync>(
        &self,
        _rt: &R,
        alloc: Global,
        graph: &Graph,
        _workers: Workers,
    ) -> Result<FanOuts, AllocError> {
        FanOuts::of(alloc, graph)
    }

    fn propose(
        &self,
        alloc: Global,
        graph: &Graph,
        lists: &FanOuts,
        node: u32,
    ) -> Result<Vec<Proposal>, AllocError> {
        let divided = divide(alloc, graph, lists, node)?;
        let forms = found_forms(graph, node, &divided);
        let mut proposals = Vec::with_capacity(alloc, forms.len())?;
        for place in 0..forms.len() {
            let form = form_at(forms.as_slice(), place);
            proposals.push(proposal(graph, node, &divided, form))?;
        }
        Ok(proposals)
    }

    fn first_saving(
        &self,
        alloc: Global,
        graph: &Graph,
        uses: &Uses,
        lists: &FanOuts,
        node: u32,
    ) -> Result<Option<Proposal>, AllocError> {
        let divided = divide(alloc, graph, lists, node)?;
        let forms = found_forms(graph, node, &divided);
        let all = forms.as_slice();
        match place_of_first(alloc, graph, uses, node, &divided, all)? {
            Some(place) => {
                let form = form_at(all, place);
                Ok(Some(proposal(graph, node, &divided, form)))
            }
            None => Ok(None),
        }
    }

    fn commit_candidates(
        &self,
        alloc: Global,
        graph: &Graph,
        uses: &Uses,
        lists: &FanOuts,
        node: u32,
        zero_gain: bool,
    ) -> Result<Vec<Proposal>, AllocError> {
        let divided = divide(alloc, graph, lists, node)?;
        let forms = found_forms(graph, node, &divided);
        let leaves = divided.leaves.as_slice();
        let lost = mffc_size(alloc, graph, uses, node, leaves, MAX_MADE)?;
        let row_pays = zero_gain || lost > MAX_MADE;
        let mut proposals = Vec::new(alloc);
        for place in 0..forms.len() {
            let form = form_at(forms.as_slice(), place);
            push_candidates(graph, uses, node, &divided, form, row_pays, &mut proposals)?;
        }
        Ok(proposals)
    }
}
