//! One commit.

ghost use Rattle.std.specs.Prelude.{◌≡◌, ◌<◌, ℕ, [], ◌++◌, false, length};
ghost use Rattle.syn_rows.specs.Nodes.{has_node};
ghost use Rattle.syn_decide.specs.Decided.{Answered, Busy, told_answer};
ghost use Rattle.syn_decide.specs.Fold as fold;
ghost use Rattle.syn_decide.specs.Tasks.{asked};
ghost use Rattle.syn_table.specs.Seating.{IsOf, known_of, nodes_of, view_of};
ghost use Rattle.syn_table.specs.Steps.{with_view};
ghost use Rattle.syn_commit.specs.Committed.{EndsInMiss, FellSince, StoredSince, changes_since, makes_since, met_since};
ghost use Rattle.syn_commit.specs.Giving.{HoldsAlone};
ghost use Rattle.syn_commit.specs.Pools.{KeepsPool, found_claimed};
ghost use Rattle.syn_commit.specs.Verdicts.{HasAnswered, IsOver};

use crate::answers::{answer, outcome};
use crate::done::{Stores, store};
use crate::returns::{Holding, give_up};
use crate::spare::Spare;
use crate::trial::{Trial, Verdict};
use crate::{CommitHook, Moment, Pool, Tools};
use std::snapshot::Snapshot;
use syn_decide::{Attempt, Outcome};
use syn_gain::Proposal;
use syn_table::Seat;

// What follows the answer: `Done` is stored, and at any other one the commit gives up.
fn store_or_give_up(
    verdict: &Verdict<'_>,
    seat: &mut Seat,
    pool: &mut Spare,
    holding: &mut Holding,
    stores: &mut Stores,
    outcome: Outcome,
)
    requires answered { HasAnswered verdict.now pool.old seat.old holding.old.pins.items }
    requires answer { Answered (told_answer outcome) ≡ fold.wants verdict.now.deciding.now }
    ensures { IsOver verdict.now (told_answer outcome) pool.old seat.old seat.new pool.new }
{
    match outcome {
        Outcome::Done(_) => store(verdict, seat, pool, holding, stores),
        _ => give_up(verdict, seat, pool, holding),
    }
}

/// Tries to replace the root's row by the proposal's plan, under claims, and answers what its own reads decide: the rows
/// between the leaves and the root are loaded again, so that it doesn't matter what changed since the proposal was made. At
/// `Done` the root has a new row; at any other answer no row changed but those to which nobody refers any more. It answers
/// `Busy` only of a node that another seat held, and so never to a seat that has all numbers. The seat holds its pool alone
/// before and after. It takes no memory and waits for nobody.
pub fn try_commit<H: CommitHook>(
    tools: &Tools<'_, H>,
    seat: &mut Seat,
    pool: &mut Pool,
    proposal: &Proposal,
    zero_gain: bool,
) -> Outcome
    requires table { IsOf seat.old tools.now.shared.now }
    requires spare { KeepsPool (view_of seat.old) pool.old }
    requires held { (n : ℕ) → has_node (view_of seat.old).held n ≡ has_node pool.old n }
    requires pins { (view_of seat.old).pins ≡ [] }
    requires root { proposal.now.root < nodes_of tools.now.shared.now }
    requires not_spare { has_node pool.old proposal.now.root ≡ false }
    ensures table { IsOf seat.new tools.now.shared.now }
    ensures known { known_of seat.new ≡ with_view (known_of seat.old) (view_of seat.new) }
    ensures alone { HoldsAlone pool.new (view_of seat.new) }
    ensures reads { (view_of seat.new).reads ≡ (view_of seat.old).reads ++ met_since (view_of seat.old) (view_of seat.new) }
    ensures misses { (view_of seat.new).misses ≡ (view_of seat.old).misses ++ found_claimed (met_since (view_of seat.old) (view_of seat.new)) }
    ensures answer { fold.decided (asked proposal.now zero_gain (length pool.old)) (met_since (view_of seat.old) (view_of seat.new)) ≡ Answered (told_answer result) }
    ensures busy { (n : ℕ) → told_answer result ≡ Busy n → EndsInMiss (met_since (view_of seat.old) (view_of seat.new)) n }
    ensures free { length (known_of seat.old).numbers ≡ 64 → (n : ℕ) → told_answer result ≡ Busy n → ⊥ }
    ensures changes { (view_of seat.new).changes ≡ (view_of seat.old).changes ++ changes_since (view_of seat.old) (view_of seat.new) }
    ensures makes { (view_of seat.new).makes ≡ (view_of seat.old).makes ++ makes_since (view_of seat.old) (view_of seat.new) }
    ensures stored { StoredSince (asked proposal.now zero_gain (length pool.old)) (view_of seat.old) pool.old (told_answer result) (view_of seat.new) pool.new }
    ensures fell { FellSince (asked proposal.now zero_gain (length pool.old)) (view_of seat.old) (told_answer result) (view_of seat.new) }
{
    tools.shared.seats_reach_nodes(seat);
    let start = Snapshot::of(seat);
    let attempt = Attempt::of(proposal, zero_gain, pool.spare.len());
    pool.room.deciding.restart(&attempt);
    pool.room.holding.pins.clear();
    let trial = Trial {
        shared: tools.shared,
        hints: tools.hints,
        pool: &pool.spare,
        attempt,
        start: &start,
    };
    answer(
        tools,
        &trial,
        seat,
        &mut pool.room.deciding,
        &mut pool.room.holding.pins,
        &mut pool.room.stores.rows,
    );
    let outcome = outcome(&pool.room.deciding);
    let verdict = Verdict {
        shared: tools.shared,
        hints: tools.hints,
        attempt,
        deciding: &pool.room.deciding,
        start: &start,
    };
    store_or_give_up(
        &verdict,
        seat,
        &mut pool.spare,
        &mut pool.room.holding,
        &mut pool.room.stores,
        outcome,
    );
    tools.hook.at(
        tools.worker,
        Moment::Answered(matches!(outcome, Outcome::Done(_))),
    );
    outcome
}
