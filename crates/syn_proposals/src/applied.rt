//! The check of a graph, and proposals that save applied.

ghost use Rattle.std.specs.Prelude.{◌≡◌, ◌+◌, ◌<◌, ◌≤◌, ℕ, true, List, All, IfNone, IfOk, IfSome, length};
ghost use Rattle.syn_rows.specs.declared.Row.{Row};
ghost use Rattle.syn_rows.specs.Reach.{is_and};
ghost use Rattle.syn_rows.specs.Rows.{row_at};
ghost use Rattle.syn_gain.specs.Proposals.{replacement};
ghost use Rattle.syn_gain.specs.Replacements.{Replacement, rows_after_by};
ghost use Rattle.syn_gain.specs.Uses.{IsUsesOf};
ghost use Rattle.syn_proposals.specs.Closing.{Closed, SavesSome};
ghost use Rattle.syn_levels.specs.Levels.{IsNoDeeper, keeps_level};
ghost use Rattle.syn_proposals.specs.Following.{Follows};
ghost use Rattle.syn_apply.specs.Applied.{IsAppliedAlone};
ghost use Rattle.syn_proposals.specs.Sound.{AppliesSome, IsSound};

use crate::Proposer;
use crate::compatible::select_compatible;
use std::alloc::{AllocError, Global};
use syn_apply::{applied, applied_together};
use syn_gain::{Proposal, Uses, rows_after_are_few};
use syn_graph::Graph;
use syn_rows::NODE_LIMIT;

// Whether a graph has room for the rows of a plan.
fn has_room(graph: &Graph, proposal: &Proposal) -> bool
    ensures { result ≡ true → length (rows_after_by graph.now.rows (replacement proposal.now)) < NODE_LIMIT }
{
    rows_after_are_few();
    graph.rows.as_slice().len() + proposal.plan.gates.len() < NODE_LIMIT
}

/// The graph after a leftover alone: it saves, so there are fewer ANDs; where it keeps its root's level, no observed signal is
/// deeper. The only error is want of memory.
pub fn first_applied(alloc: Global, graph: &Graph, proposal: &Proposal) -> Result<Graph, AllocError>
    requires sound { IsSound graph.now.rows proposal.now }
    requires saves { SavesSome graph.now.rows graph.now.observed (replacement proposal.now) }
    ensures follows { IfOk result (Follows graph.now 1) }
    ensures alone { IfOk result (IsAppliedAlone graph.now (replacement proposal.now)) }
    ensures levels { IfOk result (λ g. keeps_level graph.now.rows (replacement proposal.now) ≡ true → IsNoDeeper graph.now g) }
{
    if has_room(graph, proposal) {
        applied(alloc, graph, proposal.borrow())
    } else {
        Err(AllocError)
    }
}

// Whether a graph has fewer rows than another.
fn is_smaller(next: &Graph, graph: &Graph) -> bool
    ensures { result ≡ true → length next.now.rows + 1 ≤ length graph.now.rows }
{
    next.rows.as_slice().len() < graph.rows.as_slice().len()
}

/// Whether a graph has fewer rows than another, and a proposer would take it in that one's place. The only error is want of
/// memory.
pub fn is_better<P: Proposer>(
    alloc: Global,
    proposer: &P,
    graph: &Graph,
    next: &Graph,
) -> Result<bool, AllocError>
    ensures { IfOk result (λ better. better ≡ true → length next.now.rows + 1 ≤ length graph.now.rows) }
{
    if is_smaller(next, graph) {
        proposer.may_take(alloc, graph, next)
    } else {
        Ok(false)
    }
}

/// A smaller graph in place of one with leftovers: that after many of them, or after the first alone where what the many
/// save doesn't add up, or the proposer wouldn't take it. The only error is want of memory.
pub fn smaller<P: Proposer>(
    alloc: Global,
    graph: &Graph,
    uses: &Uses,
    proposer: &P,
    found: &[Proposal],
) -> Result<Graph, AllocError>
    requires uses { IsUsesOf uses.now graph.now }
    requires some { 0 < length found.now }
    requires ands { All (λ p. is_and (row_at graph.now.rows p.root) ≡ true) found.now }
    requires saves { All (λ p. SavesSome graph.now.rows graph.now.observed (replacement p)) found.now }
    requires sound { All (IsSound graph.now.rows) found.now }
    ensures follows { IfOk result (Follows graph.now 1) }
    ensures applied { IfOk result (AppliesSome graph.now found.now) }
{
    let marks = select_compatible(alloc, graph, uses, found)?;
    let next = applied_together(alloc, graph, found, marks.as_slice())?;
    let better = is_better(alloc, proposer, graph, &next)?;
    if better {
        Ok(next)
    } else {
        first_applied(alloc, graph, &found[0])
    }
}
