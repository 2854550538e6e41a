//! A graph with what is known of it.

ghost use Rattle.std.specs.Prelude.{◌≡◌, false, true, IfOk};
ghost use Rattle.syn_pool.specs.Views.{IsViewed};

use crate::rounds::contexts::PassContext;
use crate::rounds::revisits::has_plans;
use std::alloc::AllocError;
use std::thread::Threads;
use syn_commit::CommitHook;
use syn_gain::Uses;
use syn_graph::Graph;
use syn_proposals::Proposer;

/// A graph with what is known of it: what the steps, rounds and checks of a pass go by.
#[derive(Drop)]
pub(crate) struct Viewed<'a, L> {
    /// The graph.
    pub graph: &'a Graph,
    /// Its pairs and its references.
    pub uses: Uses,
    /// What the proposer listed, for the graph or for one before it.
    pub lists: L,
    /// Whether it was for the graph.
    pub listed: bool,
}

// The lists of a graph, where these are those of one before it, if there was one.
fn listed<R: Threads + Sync, P: Proposer, H: CommitHook>(
    pass: &PassContext<'_, R, P, H>,
    graph: &Graph,
    before: Option<P::Lists>,
) -> Result<P::Lists, AllocError>
    ensures { IfOk result (λ lists. P.is_lists_of pass.now.proposer.now lists graph.now.rows) }
{
    let (rt, alloc, workers) = (pass.rt, pass.alloc, pass.workers);
    match before {
        Some(lists) => pass
            .proposer
            .prepare_again(rt, alloc, graph, lists, workers),
        None => pass.proposer.prepare(rt, alloc, graph, workers),
    }
}

/// A graph with its own lists, where these are those of one before it, if there was one.
pub(crate) fn view<'a, R: Threads + Sync, P: Proposer, H: CommitHook>(
    pass: &PassContext<'_, R, P, H>,
    graph: &'a Graph,
    before: Option<P::Lists>,
) -> Result<Viewed<'a, P::Lists>, AllocError>
    ensures graph { IfOk result (λ v. v.graph.now ≡ graph.now) }
    ensures viewed { IfOk result (IsViewed P.is_lists_of pass.now.proposer.now) }
    ensures own { IfOk result (λ v. v.listed ≡ true) }
{
    let uses = Uses::new(pass.alloc, graph)?;
    let lists = listed(pass, graph, before)?;
    Ok(Viewed {
        graph,
        uses,
        lists,
        listed: true,
    })
}

/// Whether the workers of a round look at the table's cuts alone.
pub(crate) fn looks<R: Threads + Sync, P: Proposer, H: CommitHook>(
    pass: &PassContext<'_, R, P, H>,
    lists: &P::Lists,
) -> bool {
    pass.zero_gain && has_plans(pass.proposer, lists)
}

/// A graph as a round goes by it: with its own lists, but where workers look at the table's cuts alone, for which those of a graph
/// before it serve.
pub(crate) fn view_for_round<'a, R: Threads + Sync, P: Proposer, H: CommitHook>(
    pass: &PassContext<'_, R, P, H>,
    graph: &'a Graph,
    before: Option<P::Lists>,
) -> Result<Viewed<'a, P::Lists>, AllocError>
    ensures graph { IfOk result (λ v. v.graph.now ≡ graph.now) }
    ensures viewed { IfOk result (IsViewed P.is_lists_of pass.now.proposer.now) }
{
    match before {
        Some(lists) if looks(pass, &lists) => {
            let uses = Uses::new(pass.alloc, graph)?;
            Ok(Viewed {
                graph,
                uses,
                lists,
                listed: false,
            })
        }
        before => view(pass, graph, before),
    }
}

/// The same graph with its own lists.
pub(crate) fn with_own_lists<'a, R: Threads + Sync, P: Proposer, H: CommitHook>(
    pass: &PassContext<'_, R, P, H>,
    viewed: Viewed<'a, P::Lists>,
) -> Result<Viewed<'a, P::Lists>, AllocError>
    requires { IsViewed P.is_lists_of pass.now.proposer.now viewed }
    ensures graph { IfOk result (λ v. v.graph.now ≡ viewed.entry.graph.now) }
    ensures viewed { IfOk result (IsViewed P.is_lists_of pass.now.proposer.now) }
    ensures own { IfOk result (λ v. v.listed ≡ true) }
{
    if viewed.listed {
        return Ok(viewed);
    }
    let Viewed {
        graph,
        uses,
        lists,
        ..
    } = viewed;
    let lists = listed(pass, graph, Some(lists))?;
    Ok(Viewed {
        graph,
        uses,
        lists,
        listed: true,
    })
}
