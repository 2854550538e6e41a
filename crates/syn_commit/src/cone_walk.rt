//! The walk of a commit, from the root to the leaves, under claims.

ghost use Rattle.std.specs.Prelude.{◌≡◌, ◌<◌, false, length};
ghost use Rattle.syn_rows.specs.Nodes.{has_node};
ghost use Rattle.syn_decide.specs.Tasks.{task_of};
ghost use Rattle.syn_table.specs.Seating.{IsOf, known_of, nodes_of, view_of};
ghost use Rattle.syn_table.specs.Steps.{with_view};
ghost use Rattle.syn_commit.specs.Stages.{IsPastWalk};
ghost use Rattle.syn_commit.specs.Trials.{Begins, HasWalked};
ghost use Rattle.syn_commit.specs.Walks.{IsEntered, IsWalking};

use crate::trial::Trial;
use syn_core_laws::Seen;
use syn_decide::{Attempt, Deciding, Decision, Want};
use syn_table::{Seat, Shared};

// Claims a node, loads its row and reads it. A node that is no gate is let go again.
fn enter(
    shared: &Shared,
    seat: &mut Seat,
    attempt: &Attempt<'_>,
    deciding: &mut Deciding,
    node: u32,
)
    requires table { IsOf seat.old shared.now }
    requires node { node < nodes_of shared.now }
    requires free { has_node (view_of seat.old).held node ≡ false }
    ensures table { IsOf seat.new shared.now }
    ensures known { known_of seat.new ≡ with_view (known_of seat.old) (view_of seat.new) }
    ensures entered { IsEntered (task_of attempt.now) (nodes_of shared.now) (length (known_of seat.old).numbers) node (view_of seat.old) deciding.old (view_of seat.new) deciding.new }
{
    shared.seats_reach_nodes(seat);
    if !shared.claim(seat, node) {
        deciding.read(attempt, Seen::Miss(node));
        return;
    }
    let row = shared.row_of(seat, node);
    shared.seats_reach_nodes(seat);
    deciding.read(attempt, Seen::Row(node, row));
    if !row.is_derived() {
        shared.release(seat, node);
    }
}

// Loads rows as long as the decision asks for rows.
fn load_rows(trial: &Trial<'_>, seat: &mut Seat, deciding: &mut Deciding)
    requires { Begins trial.now seat.old deciding.old }
    ensures table { IsOf seat.new trial.now.shared.now }
    ensures known { known_of seat.new ≡ with_view (known_of seat.old) (view_of seat.new) }
    ensures walking { IsWalking (task_of trial.now.attempt) (view_of seat.old) trial.now.pool.now (view_of seat.new) deciding.new }
    ensures past { IsPastWalk deciding.new.stage }
    ensures sole { length (known_of seat.old).numbers ≡ 64 → (view_of seat.new).misses ≡ (view_of seat.old).misses }
{
    while let Decision::Next(Want::Row(node)) = deciding.wants() {
        trial.shared.seats_reach_nodes(seat);
        enter(trial.shared, seat, &trial.attempt, deciding, node);
    }
}

/// Loads the rows between the root and the leaves, from the commit's start.
pub(crate) fn walk(trial: &Trial<'_>, seat: &mut Seat, deciding: &mut Deciding)
    requires { Begins trial.now seat.old deciding.old }
    ensures known { known_of seat.new ≡ with_view (known_of seat.old) (view_of seat.new) }
    ensures walked { HasWalked trial.now seat.new deciding.new }
    ensures sole { length (known_of seat.old).numbers ≡ 64 → (view_of seat.new).misses ≡ (view_of seat.old).misses }
{
    trial.shared.seats_reach_nodes(seat);
    load_rows(trial, seat, deciding);
}
