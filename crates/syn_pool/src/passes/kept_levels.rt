//! Passes that keep levels.

ghost use Rattle.std.specs.Prelude.{◌≡◌, ◌<◌, true, All, IfNone, IfOk, IfSome, length};
ghost use Rattle.syn_levels.specs.Levels.{AllKeep, IsNoDeeper};
ghost use Rattle.syn_proposals.specs.Closing.{Closed};
ghost use Rattle.syn_proposals.specs.Following.{Follows};
ghost use Rattle.syn_proposals.specs.Sound.{IsLeftover};
ghost use Rattle.syn_pool.specs.Views.{IsViewed};

use crate::looks::neighbourhoods::Neighbourhoods;
use crate::passes::checks::{commit_or_apply, left};
use crate::passes::closed;
use crate::rounds::contexts::PassContext;
use crate::rounds::views::{Viewed, view};
use std::alloc::{AllocError, Global};
use std::thread::Threads;
use syn_commit::CommitHook;
use syn_gain::Proposal;
use syn_graph::Graph;
use syn_levels::is_no_deeper;
use syn_proposals::{Proposer, first_applied};

// The graph after the first of the leftovers alone.
fn first_left_applied<K: Proposer>(
    alloc: Global,
    graph: &Graph,
    proposer: &K,
    found: &[Proposal],
) -> Result<Graph, AllocError>
    requires keep { AllKeep (K.proposals proposer.now) }
    requires some { 0 < length found.now }
    requires each { All (IsLeftover graph.now.rows graph.now.observed (K.proposals proposer.now graph.now.rows)) found.now }
    ensures follows { IfOk result (Follows graph.now 1) }
    ensures levels { IfOk result (IsNoDeeper graph.now) }
{
    let _ = proposer;
    first_applied(alloc, graph, &found[0])
}

// A graph with fewer ANDs in place of one with leftovers, in which no observed signal is deeper: what workers or many leftovers make
// of it, or the first leftover alone.
fn kept_or_first<R: Threads + Sync, K: Proposer, H: CommitHook>(
    pass: &PassContext<'_, R, K, H>,
    viewed: &Viewed<'_, K::Lists>,
    found: &[Proposal],
) -> Result<Graph, AllocError>
    requires keep { AllKeep (K.proposals pass.now.proposer.now) }
    requires viewed { IsViewed K.is_lists_of pass.now.proposer.now viewed.now }
    requires own { viewed.now.listed ≡ true }
    requires some { 0 < length found.now }
    requires each { All (IsLeftover viewed.now.graph.now.rows viewed.now.graph.now.observed (K.proposals pass.now.proposer.now viewed.now.graph.now.rows)) found.now }
    ensures follows { IfOk result (Follows viewed.now.graph.now 1) }
    ensures levels { IfOk result (IsNoDeeper viewed.now.graph.now) }
{
    let many = commit_or_apply(pass, viewed, found)?.graph;
    let keeps = is_no_deeper(pass.alloc, viewed.graph, &many)?;
    if keeps {
        return Ok(many);
    }
    drop(many);
    first_left_applied(pass.alloc, viewed.graph, pass.proposer, found)
}

// One check of a graph: one with fewer ANDs in place of it, in which no observed signal is deeper, and none where it is closed.
fn checked<R: Threads + Sync, K: Proposer, H: CommitHook>(
    pass: &PassContext<'_, R, K, H>,
    graph: &Graph,
    clean: &mut Neighbourhoods,
) -> Result<Option<Graph>, AllocError>
    requires keep { AllKeep (K.proposals pass.now.proposer.now) }
    ensures follows { IfOk result (λ made. IfSome made (Follows graph.now 1)) }
    ensures levels { IfOk result (λ made. IfSome made (IsNoDeeper graph.now)) }
    ensures none { IfOk result (λ made. IfNone made (Closed graph.now.rows graph.now.observed (K.proposals pass.now.proposer.now graph.now.rows))) }
{
    let viewed = view(pass, graph, None)?;
    let found = left(pass, &viewed, clean)?;
    if found.len() == 0 {
        return Ok(None);
    }
    let made = kept_or_first(pass, &viewed, found.as_slice())?;
    Ok(Some(made))
}

// A closed graph in place of the given one, in which no observed signal is deeper, by checks alone; none where that is closed.
fn closed_by_checks<R: Threads + Sync, K: Proposer, H: CommitHook>(
    pass: &PassContext<'_, R, K, H>,
    start: &Graph,
) -> Result<Option<Graph>, AllocError>
    requires keep { AllKeep (K.proposals pass.now.proposer.now) }
    ensures follows { IfOk result (λ made. IfSome made (Follows start.now 0)) }
    ensures levels { IfOk result (λ made. IfSome made (IsNoDeeper start.now)) }
    ensures closed { IfOk result (λ made. IfSome made (λ g. Closed g.rows g.observed (K.proposals pass.now.proposer.now g.rows))) }
    ensures none { IfOk result (λ made. IfNone made (Closed start.now.rows start.now.observed (K.proposals pass.now.proposer.now start.now.rows))) }
{
    let mut clean = Neighbourhoods::new(pass.alloc, start)?;
    let Some(first) = checked(pass, start, &mut clean)? else {
        return Ok(None);
    };
    let mut graph = first;
    while let Some(next) = checked(pass, &graph, &mut clean)? {
        graph = next;
    }
    Ok(Some(graph))
}

/// A closed graph in place of the given one, in which no observed signal is deeper, of a proposer whose proposals keep the level of
/// their root: what a pass makes, and where a signal is deeper in that, what checks alone make; none where the given one is closed.
pub(crate) fn kept_closed<R: Threads + Sync, K: Proposer, H: CommitHook>(
    pass: &PassContext<'_, R, K, H>,
    graph: &Graph,
) -> Result<Option<Graph>, AllocError>
    requires keep { AllKeep (K.proposals pass.now.proposer.now) }
    ensures follows { IfOk result (λ made. IfSome made (Follows graph.now 0)) }
    ensures levels { IfOk result (λ made. IfSome made (IsNoDeeper graph.now)) }
    ensures closed { IfOk result (λ made. IfSome made (λ g. Closed g.rows g.observed (K.proposals pass.now.proposer.now g.rows))) }
    ensures none { IfOk result (λ made. IfNone made (Closed graph.now.rows graph.now.observed (K.proposals pass.now.proposer.now graph.now.rows))) }
{
    match closed(pass, graph)? {
        Some((made, _report)) => {
            let keeps = is_no_deeper(pass.alloc, graph, &made)?;
            if keeps {
                return Ok(Some(made));
            }
            closed_by_checks(pass, graph)
        }
        None => Ok(None),
    }
}
