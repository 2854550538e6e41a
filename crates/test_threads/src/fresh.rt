//! Commits on a fresh table of a text's graph.

ghost use Rattle.std.specs.Prelude.{◌≡◌, ◌+◌, ◌<◌, ◌≤◌};
ghost use Rattle.syn_table.specs.Seating.{IsOf, known_of, nodes_of, view_of};
ghost use Rattle.syn_table.specs.Steps.{with_view};
ghost use Rattle.syn_commit.specs.Giving.{IsAtRest};

use crate::tables::{ands_left, opened_as};
use std::alloc::Global;
use syn_commit::{Hints, NoHook, Pool, Tools, try_commit};
use syn_decide::Outcome;
use syn_gain::Proposal;
use syn_rows::Lit;
use syn_table::{Seat, Shared};

/// Fills a pool with so many nodes from the first spare one on, tries the proposal, with no gain let through or not, and lets
/// the pool go: the answer.
pub fn committed(
    tools: &Tools<'_, NoHook>,
    seat: &mut Seat,
    proposal: &Proposal,
    first: u32,
    spare: u32,
    zero_gain: bool,
) -> Outcome
    requires table { IsOf seat.old tools.now.shared.now }
    requires resting { IsAtRest (view_of seat.old) }
    requires nodes { first + spare ≤ nodes_of tools.now.shared.now }
    requires root { proposal.now.root < first }
    ensures table { IsOf seat.new tools.now.shared.now }
    ensures known { known_of seat.new ≡ with_view (known_of seat.old) (view_of seat.new) }
    ensures resting { IsAtRest (view_of seat.new) }
{
    let mut pool = Pool::new();
    pool.fill(tools.shared, seat, first, spare);
    let answer = try_commit(tools, seat, &mut pool, proposal, zero_gain);
    pool.empty(tools.shared, seat);
    answer
}

// The answer of a seat on a table whose spare nodes begin with the first one; none where the root is one of them.
fn tried(
    shared: &Shared,
    seat: &mut Seat,
    hints: &Hints,
    proposal: &Proposal,
    first: u32,
    spare: u32,
) -> Option<Outcome>
    requires table { IsOf seat.old shared.now }
    requires resting { IsAtRest (view_of seat.old) }
    requires nodes { first + spare ≤ nodes_of shared.now }
    ensures table { IsOf seat.new shared.now }
    ensures known { known_of seat.new ≡ with_view (known_of seat.old) (view_of seat.new) }
    ensures resting { IsAtRest (view_of seat.new) }
{
    if proposal.root >= first {
        return None;
    }
    let tools = Tools {
        shared,
        hints,
        hook: &NoHook,
        worker: 0,
    };
    Some(committed(&tools, seat, proposal, first, spare, false))
}

/// The answer of one seat on a fresh table of the text's graph, with a pool of so many nodes, and how many `And` rows are
/// left. Where a node is named, it is noted for the pair of literals 5 and 7 before.
pub fn answered(
    alloc: Global,
    text: &[u8],
    keys: Option<&[u64]>,
    proposal: &Proposal,
    spare: u32,
    noted: Option<u32>,
) -> Option<(Outcome, u32)>
    requires spare { spare ≤ 1024 }
{
    let hints = Hints::new(alloc, 1024).ok()?;
    if let Some(node) = noted {
        hints.note((Lit(5), Lit(7)), node);
    }
    let (shared, mut seat, first) = opened_as(alloc, text, keys)?;
    let answer = tried(&shared, &mut seat, &hints, proposal, first, spare);
    let ands = ands_left(alloc, shared, seat);
    Some((answer?, ands?))
}
