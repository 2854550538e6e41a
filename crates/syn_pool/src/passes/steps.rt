//! One step of a pass: a round of workers, then the check, and what it finds is committed or applied.

ghost use Rattle.std.specs.Prelude.{◌≡◌, ◌<◌, Bool, not, true, IfOk, length};
ghost use Rattle.syn_proposals.specs.Following.{Follows};
ghost use Rattle.syn_proposals.specs.Gains.{IsGain};
ghost use Rattle.syn_pool.specs.Turns.{IsPassReport};
ghost use Rattle.syn_pool.specs.Steps.{IsCheck, IsStepOf};
ghost use Rattle.syn_pool.specs.Views.{IsViewed};

use crate::looks::neighbourhoods::{Neighbourhoods, Seen};
use crate::passes::checks::check;
use crate::rounds::contexts::PassContext;
use crate::rounds::reports::both;
use crate::rounds::round;
use crate::rounds::views::{Viewed, view, view_for_round, with_own_lists};
use std::alloc::AllocError;
use std::thread::Threads;
use syn_commit::CommitHook;
use syn_graph::Graph;
use syn_proposals::{Improved, Proposer, Report};

/// What a step makes of a graph.
#[derive(Drop)]
pub(crate) enum Step<L> {
    /// It is closed.
    Stays,
    /// This graph in its place is closed.
    Ends(Graph, Report),
    /// This graph is in its place, with fewer ANDs; these are the lists of one before it, and whether workers commit again
    /// before the check.
    GoesOn(Graph, Report, L, bool),
}

// Gains of 0 are worth another round where the last one took away one in so many of the ANDs.
const MIN_SHARE: usize = 1024;

// The check of a graph: what it makes, and the lists that it went by.
fn check_viewed<R: Threads + Sync, P: Proposer, H: CommitHook>(
    pass: &PassContext<'_, R, P, H>,
    viewed: Viewed<'_, P::Lists>,
    clean: &mut Neighbourhoods,
) -> Result<(Option<Improved>, P::Lists), AllocError>
    requires viewed { IsViewed P.is_lists_of pass.now.proposer.now viewed }
    requires own { viewed.listed ≡ true }
    ensures { IfOk result (λ r. IsCheck viewed.entry.graph.now (P.proposals pass.now.proposer.now) r.0) }
{
    let made = check(pass, &viewed, clean)?;
    Ok((made, viewed.lists))
}

// The same, where these are the lists of a graph before it, if there was one.
fn check_listed<R: Threads + Sync, P: Proposer, H: CommitHook>(
    pass: &PassContext<'_, R, P, H>,
    graph: &Graph,
    before: Option<P::Lists>,
    clean: &mut Neighbourhoods,
) -> Result<(Option<Improved>, P::Lists), AllocError>
    ensures { IfOk result (λ r. IsCheck graph.now (P.proposals pass.now.proposer.now) r.0) }
{
    let viewed = view(pass, graph, before)?;
    check_viewed(pass, viewed, clean)
}

// The check of a graph as a step.
fn check_step<R: Threads + Sync, P: Proposer, H: CommitHook>(
    pass: &PassContext<'_, R, P, H>,
    viewed: Viewed<'_, P::Lists>,
    clean: &mut Neighbourhoods,
) -> Result<Step<P::Lists>, AllocError>
    requires viewed { IsViewed P.is_lists_of pass.now.proposer.now viewed }
    requires own { viewed.listed ≡ true }
    ensures { (strict : Bool) → IfOk result (IsStepOf viewed.entry.graph.now (P.proposals pass.now.proposer.now) strict) }
{
    let (made, lists) = check_viewed(pass, viewed, clean)?;
    match made {
        Some(next) => Ok(Step::GoesOn(next.graph, next.report, lists, false)),
        None => Ok(Step::Stays),
    }
}

// The check of a graph in place of a given one, which has these lists.
fn check_improved<R: Threads + Sync, P: Proposer, H: CommitHook>(
    pass: &PassContext<'_, R, P, H>,
    graph: &Graph,
    improved: Improved,
    lists: P::Lists,
    clean: &mut Neighbourhoods,
) -> Result<Step<P::Lists>, AllocError>
    requires follows { Follows graph.now improved.report.gained improved.graph }
    requires gain { IsGain (not pass.now.zero_gain) improved.report }
    requires report { IsPassReport (not pass.now.zero_gain) graph.now improved.graph improved.report }
    ensures { IfOk result (IsStepOf graph.now (P.proposals pass.now.proposer.now) (not pass.now.zero_gain)) }
{
    let report = improved.report;
    let (made, lists) = check_listed(pass, &improved.graph, Some(lists), clean)?;
    match made {
        Some(next) => Ok(Step::GoesOn(next.graph, both(report, next.report), lists, false)),
        None => Ok(Step::Ends(improved.graph, report)),
    }
}

// Whether another round of gains of 0 is worth it, where the last one made one graph of another.
fn is_worth_another(graph: &Graph, next: &Graph) -> bool
    ensures { result ≡ true → length next.now.rows < length graph.now.rows }
{
    let (before, after) = (graph.rows.as_slice().len(), next.rows.as_slice().len());
    after < before && (before - after).saturating_mul(MIN_SHARE) >= before
}

// What comes after a round that made a graph in place of the given one, which has these lists: another round, or the check.
fn goes_on<R: Threads + Sync, P: Proposer, H: CommitHook>(
    pass: &PassContext<'_, R, P, H>,
    graph: &Graph,
    improved: Improved,
    lists: P::Lists,
    clean: &mut Neighbourhoods,
) -> Result<Step<P::Lists>, AllocError>
    requires follows { Follows graph.now improved.report.gained improved.graph }
    requires gain { IsGain (not pass.now.zero_gain) improved.report }
    requires report { IsPassReport (not pass.now.zero_gain) graph.now improved.graph improved.report }
    ensures { IfOk result (IsStepOf graph.now (P.proposals pass.now.proposer.now) (not pass.now.zero_gain)) }
{
    if pass.zero_gain && is_worth_another(graph, &improved.graph) {
        return Ok(Step::GoesOn(improved.graph, improved.report, lists, true));
    }
    check_improved(pass, graph, improved, lists, clean)
}

// A step in which workers commit. Where nothing was done, the graph has no room for them, or the proposer wouldn't take what they
// leave, the graph is checked.
fn round_step<R: Threads + Sync, P: Proposer, H: CommitHook>(
    pass: &PassContext<'_, R, P, H>,
    viewed: Viewed<'_, P::Lists>,
    seen: &mut Seen,
) -> Result<Step<P::Lists>, AllocError>
    requires { IsViewed P.is_lists_of pass.now.proposer.now viewed }
    ensures { IfOk result (IsStepOf viewed.entry.graph.now (P.proposals pass.now.proposer.now) (not pass.now.zero_gain)) }
{
    if let Some(improved) = round(pass, &viewed, &mut seen.visited)? {
        return goes_on(pass, viewed.graph, improved, viewed.lists, &mut seen.clean);
    }
    let own = with_own_lists(pass, viewed)?;
    check_step(pass, own, &mut seen.clean)
}

/// One step on a graph: workers commit, if they are to, and the graph that they leave is checked, unless they are to commit again
/// first. Where they are not to, or do nothing, the graph itself is checked. The lists are those of a graph before it, if there was
/// one. The only error is want of memory.
pub(crate) fn one_step<R: Threads + Sync, P: Proposer, H: CommitHook>(
    pass: &PassContext<'_, R, P, H>,
    graph: &Graph,
    before: Option<P::Lists>,
    commits: bool,
    seen: &mut Seen,
) -> Result<Step<P::Lists>, AllocError>
    ensures { IfOk result (IsStepOf graph.now (P.proposals pass.now.proposer.now) (not pass.now.zero_gain)) }
{
    if commits {
        let viewed = view_for_round(pass, graph, before)?;
        round_step(pass, viewed, seen)
    } else {
        let viewed = view(pass, graph, before)?;
        check_step(pass, viewed, &mut seen.clean)
    }
}
