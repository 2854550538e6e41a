//! What rewriting proposes for a node, and what it finds to save.

ghost use Rattle.std.specs.Prelude.{◌≡◌, true};
ghost use Rattle.syn_rows.specs.Reach.{is_and};
ghost use Rattle.syn_rows.specs.Rows.{row_at};

use crate::harness::{CONE, graph_of};
use std::alloc::{AllocError, Global};
use std::test::Fail;
use std::thread::Threads;
use syn_gain::{Proposal, Uses};
use syn_graph::Graph;
use syn_proposals::Proposer;
use syn_rewrite::CutPlans;
use syn_rows::Row;
use syn_workers::Workers;

// The node of the cone's root: node 4 is the AND of a and b, node 5 that of a and c.
const ROOT: u32 = 6;

// Whether the node's row is an AND.
fn is_gate(graph: &Graph, node: u32) -> bool
    ensures { result ≡ true → is_and (row_at graph.now.rows node) ≡ true }
{
    match graph.rows.as_slice().get(node as usize) {
        Some(Row::And(_, _)) => true,
        _ => false,
    }
}

// Whether these are the leaves at a place.
fn is_at(wanted: &[&[u32]], place: usize, leaves: &[u32]) -> bool {
    match wanted.get(place) {
        Some(there) => *there == leaves,
        None => false,
    }
}

// Whether plans are proposed over cuts with these leaves, in order, those over one cut together.
fn are_over(proposals: &[Proposal], wanted: &[&[u32]]) -> bool {
    let mut place = 0usize;
    for proposal in proposals {
        let leaves = proposal.leaves.as_slice();
        if !is_at(wanted, place, leaves) {
            place = place.saturating_add(1);
            if !is_at(wanted, place, leaves) {
                return false;
            }
        }
    }
    place.saturating_add(1) == wanted.len()
}

// Whether the root's proposals are over these cuts.
fn are_proposed<P: Proposer>(
    alloc: Global,
    graph: &Graph,
    proposer: &P,
    lists: &P::Lists,
    wanted: &[&[u32]],
) -> Result<bool, AllocError>
    requires lists { P.is_lists_of proposer.now lists.now graph.now.rows }
    requires root { is_and (row_at graph.now.rows 6) ≡ true }
{
    let proposals = proposer.propose(alloc, graph, lists, ROOT)?;
    Ok(are_over(proposals.as_slice(), wanted))
}

// Whether a proposal is over the inputs, with two gates.
fn is_over_inputs(proposal: &Proposal) -> bool {
    proposal.leaves.as_slice() == [1, 2, 3].as_slice() && proposal.plan.gates.len() == 2
}

// Whether the first of the root's proposals that saves is such.
fn is_first<P: Proposer>(
    alloc: Global,
    graph: &Graph,
    proposer: &P,
    lists: &P::Lists,
) -> Result<bool, AllocError>
    requires lists { P.is_lists_of proposer.now lists.now graph.now.rows }
    requires root { is_and (row_at graph.now.rows 6) ≡ true }
{
    let uses = Uses::new(alloc, graph)?;
    match proposer.first_saving(alloc, graph, &uses, lists, ROOT)? {
        Some(proposal) => Ok(is_over_inputs(&proposal)),
        None => Ok(false),
    }
}

// Whether rewriting proposes so for the root. Two leaves come before three, and of three the smaller ones first. Over the
// inputs an AND and an OR do.
fn is_worked<R: Threads + Sync>(rt: &R, alloc: Global, graph: &Graph) -> Result<bool, AllocError>
    requires { is_and (row_at graph.now.rows 6) ≡ true }
{
    let proposer = CutPlans::new(alloc)?;
    let lists = proposer.prepare(rt, alloc, graph, Workers::new(1))?;
    let wanted: [&[u32]; 4] = [&[4, 5], &[1, 2, 3], &[1, 2, 5], &[1, 3, 4]];
    Ok(
        are_proposed(alloc, graph, &proposer, &lists, &wanted)?
            && is_first(alloc, graph, &proposer, &lists)?,
    )
}

#[test]
fn proposes_over_each_cut(rt: HostRuntime) -> Result<(), Fail> {
    let Some(graph) = graph_of(rt.alloc(), CONE.as_bytes()) else {
        panic!(rt; "no graph");
    };
    if !is_gate(&graph, ROOT) {
        panic!(rt; "no AND");
    }
    assert!(rt; is_worked(&rt, rt.alloc(), &graph)?);
    Ok(())
}
