//! A commit up to its answer.

ghost use Rattle.std.specs.Prelude.{◌≡◌, ◌≤◌, ℕ, [], length};
ghost use Rattle.syn_decide.specs.Decided.{Answered, Busy, told_answer};
ghost use Rattle.syn_decide.specs.Fold as fold;
ghost use Rattle.syn_table.specs.Seating.{known_of, nodes_of, view_of};
ghost use Rattle.syn_table.specs.Steps.{with_view};
ghost use Rattle.syn_commit.specs.Counts.{CountsAreLoaded};
ghost use Rattle.syn_commit.specs.Stages.{HasEnded};
ghost use Rattle.syn_commit.specs.Trials.{Begins, IsUnderWay};

use crate::cone_walk::walk;
use crate::loaded::{MAX_PINS, counts, keys};
use crate::suggestions::try_hints;
use crate::trial::Trial;
use crate::{CommitHook, Moment, Tools};
use arrayvec::ArrayVec;
use syn_decide::{Attempt, Deciding, Decision, NewRows, Outcome, StaleCause};
use syn_table::Seat;

// Whether all inner rows are claimed, behind the walk.
fn is_claimed(attempt: &Attempt<'_>, deciding: &Deciding) -> bool {
    match deciding.wants() {
        Decision::Answer(Outcome::Busy(_)) => false,
        Decision::Answer(Outcome::Stale(StaleCause::Wide(_))) => false,
        Decision::Answer(Outcome::Stale(StaleCause::Reach(node))) => {
            attempt.candidate.leaves.contains(&node)
        }
        _ => true,
    }
}

/// From the walk to the answer: what is loaded is what the decision asks for, and hints. The rows are room.
pub(crate) fn answer<H: CommitHook>(
    tools: &Tools<'_, H>,
    trial: &Trial<'_>,
    seat: &mut Seat,
    deciding: &mut Deciding,
    pins: &mut ArrayVec<u32, MAX_PINS>,
    rows: &mut NewRows,
)
    requires begins { Begins trial.now seat.old deciding.old }
    requires none { pins.old.items ≡ [] }
    ensures known { known_of seat.new ≡ with_view (known_of seat.old) (view_of seat.new) }
    ensures way { IsUnderWay trial.now seat.new pins.new.items deciding.new }
    ensures free { length (known_of seat.old).numbers ≡ 64 → (n : ℕ) → fold.wants deciding.new ≡ Answered (Busy n) → ⊥ }
    ensures ended { HasEnded deciding.new.stage }
    ensures loaded { CountsAreLoaded (nodes_of trial.now.shared.now) (view_of seat.new) deciding.new }
    ensures few { length pins.new.items ≤ 390 }
{
    walk(trial, seat, deciding);
    if is_claimed(&trial.attempt, deciding) {
        tools.hook.at(tools.worker, Moment::Claimed);
    }
    keys(trial, seat, deciding, pins);
    try_hints(trial, seat, deciding, pins, rows);
    counts(trial, seat, deciding, pins);
}

/// The answer of a decision that has ended.
pub(crate) fn outcome(deciding: &Deciding) -> Outcome
    requires { HasEnded deciding.now.stage }
    ensures { Answered (told_answer result) ≡ fold.wants deciding.now }
{
    match deciding.wants() {
        Decision::Answer(outcome) => outcome,
        Decision::Next(_) | Decision::Unfit => unreachable!(),
    }
}
