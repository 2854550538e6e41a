//! The hints of a commit: nodes that may have the row of a pair already.

ghost use Rattle.std.specs.Prelude.{◌≡◌, ◌≢◌, ℕ, ◌+◌, ◌<◌, ◌≤◌, [], false, length, true};
ghost use Rattle.syn_rows.specs.Nodes.{has_node};
ghost use Rattle.syn_decide.specs.Fold as fold;
ghost use Rattle.syn_decide.specs.Fold.{placed_now};
ghost use Rattle.syn_decide.specs.Hints as hinting;
ghost use Rattle.syn_decide.specs.Tasks.{task_of};
ghost use Rattle.syn_decide.specs.Walk.{nodes_of as nodes_of_rows};
ghost use Rattle.syn_table.specs.Seating.{IsOf, known_of, nodes_of, view_of};
ghost use Rattle.syn_table.specs.Steps.{with_view};
ghost use Rattle.syn_commit.specs.Hinted.{IsHint, IsOpen};
ghost use Rattle.syn_commit.specs.Stages.{IsPastKeys};
ghost use Rattle.syn_commit.specs.Trials.{IsUnderWay, TakesHints};

use crate::loaded::MAX_PINS;
use crate::returns::has_gate;
use crate::trial::Trial;
use arrayvec::ArrayVec;
use syn_core_laws::Seen;
use syn_decide::{Attempt, Deciding, NewRows};
use syn_plan::MAX_GATES;
use syn_rows::Row;
use syn_table::{Seat, Shared};

// Whether both are one row.
fn is_row(row: Row, pair: Row) -> bool
    ensures { result ≡ true → row ≡ pair }
{
    row == pair
}

// Loads the row of a node that the seat holds, and its key where the row is the pair. True where the node is a hit.
fn load_hint(
    shared: &Shared,
    seat: &mut Seat,
    attempt: &Attempt<'_>,
    deciding: &mut Deciding,
    node: u32,
    pair: Row,
) -> bool
    requires table { IsOf seat.old shared.now }
    requires held { has_node (view_of seat.old).held node ≡ true }
    requires open { IsOpen (task_of attempt.now) deciding.old pair }
    ensures table { IsOf seat.new shared.now }
    ensures known { known_of seat.new ≡ with_view (known_of seat.old) (view_of seat.new) }
    ensures hint { IsHint (task_of attempt.now) node pair (view_of seat.old) deciding.old (view_of seat.new) deciding.new result }
{
    let row = shared.row_of(seat, node);
    deciding.read(attempt, Seen::Row(node, row));
    if !is_row(row, pair) {
        return false;
    }
    let key = shared.key_of(seat, node);
    let before = deciding.hits().len();
    deciding.read(attempt, Seen::Key(node, key));
    before < deciding.hits().len()
}

// Tries a hint at the node of an inner row, which the seat holds. True where it is a hit, which gets a pin that stays.
fn try_held(
    trial: &Trial<'_>,
    seat: &mut Seat,
    deciding: &mut Deciding,
    pins: &mut ArrayVec<u32, MAX_PINS>,
    node: u32,
    pair: Row,
) -> bool
    requires way { IsUnderWay trial.now seat.old pins.old.items deciding.old }
    requires open { IsOpen (task_of trial.now.attempt) deciding.old pair }
    requires inner { has_node (nodes_of_rows deciding.old.inner) node ≡ true }
    requires unpinned { has_node pins.old.items node ≡ false }
    requires other_root { node ≢ trial.now.attempt.candidate.root }
    requires room { length pins.old.items < 512 }
    ensures known { known_of seat.new ≡ with_view (known_of seat.old) (view_of seat.new) }
    ensures hints { TakesHints trial.now seat.new pins.new.items deciding.new }
    ensures misses { (view_of seat.new).misses ≡ (view_of seat.old).misses }
    ensures same { result ≡ false → deciding.new.hits ≡ deciding.old.hits }
    ensures pins { length pins.new.items ≤ length pins.old.items + 1 }
{
    let shared = trial.shared;
    if !load_hint(shared, seat, &trial.attempt, deciding, node, pair) {
        return false;
    }
    shared.pin(seat, node);
    pins.push(node);
    true
}

// Tries a hint at a node that the seat doesn't hold, under a claim. True where it is a hit; else it is let go again.
fn try_other(
    trial: &Trial<'_>,
    seat: &mut Seat,
    deciding: &mut Deciding,
    pins: &mut ArrayVec<u32, MAX_PINS>,
    node: u32,
    pair: Row,
) -> bool
    requires way { IsUnderWay trial.now seat.old pins.old.items deciding.old }
    requires open { IsOpen (task_of trial.now.attempt) deciding.old pair }
    requires node { node < nodes_of trial.now.shared.now }
    requires other { has_node (view_of seat.old).held node ≡ false }
    requires unpinned { has_node pins.old.items node ≡ false }
    requires other_root { node ≢ trial.now.attempt.candidate.root }
    requires room { length pins.old.items < 512 }
    ensures known { known_of seat.new ≡ with_view (known_of seat.old) (view_of seat.new) }
    ensures hints { TakesHints trial.now seat.new pins.new.items deciding.new }
    ensures sole { length (known_of seat.old).numbers ≡ 64 → (view_of seat.new).misses ≡ (view_of seat.old).misses }
    ensures same { result ≡ false → deciding.new.hits ≡ deciding.old.hits }
    ensures pins { length pins.new.items ≤ length pins.old.items + 1 }
{
    let shared = trial.shared;
    shared.seats_reach_nodes(seat);
    if !shared.claim(seat, node) {
        deciding.read(&trial.attempt, Seen::Miss(node));
        return false;
    }
    if !load_hint(shared, seat, &trial.attempt, deciding, node, pair) {
        shared.release(seat, node);
        return false;
    }
    shared.pin(seat, node);
    pins.push(node);
    true
}

// Whether a hint may be tried at the node: a node of the table that is neither node 0 nor a leaf nor the root, no spare one
// and no hit.
fn may_try(trial: &Trial<'_>, deciding: &Deciding, node: u32) -> bool
    ensures node { result ≡ true → node < nodes_of trial.now.shared.now }
    ensures leaf { result ≡ true → has_node trial.now.attempt.candidate.leaves.now node ≡ false }
    ensures spare { result ≡ true → has_node trial.now.pool.now node ≡ false }
    ensures hit { result ≡ true → has_node (nodes_of_rows deciding.now.hits) node ≡ false }
    ensures root { result ≡ true → node ≢ trial.now.attempt.candidate.root }
{
    node != 0
        && node != trial.attempt.candidate.root
        && node < trial.shared.nodes()
        && !trial.attempt.candidate.leaves.contains(&node)
        && !trial.pool.has(node)
        && !has_gate(deciding.hits(), node)
}

// Tries the hint for a pair, if there is one. True where it is a hit.
fn try_hint(
    trial: &Trial<'_>,
    seat: &mut Seat,
    deciding: &mut Deciding,
    pins: &mut ArrayVec<u32, MAX_PINS>,
    pair: Row,
) -> bool
    requires way { IsUnderWay trial.now seat.old pins.old.items deciding.old }
    requires open { IsOpen (task_of trial.now.attempt) deciding.old pair }
    requires room { length pins.old.items < 512 }
    ensures known { known_of seat.new ≡ with_view (known_of seat.old) (view_of seat.new) }
    ensures hints { TakesHints trial.now seat.new pins.new.items deciding.new }
    ensures sole { length (known_of seat.old).numbers ≡ 64 → (view_of seat.new).misses ≡ (view_of seat.old).misses }
    ensures same { result ≡ false → deciding.new.hits ≡ deciding.old.hits }
    ensures pins { length pins.new.items ≤ length pins.old.items + 1 }
{
    let Row::And(first, second) = pair else {
        return false;
    };
    let node = trial.hints.suggest((first, second));
    if !may_try(trial, deciding, node) {
        return false;
    }
    if has_gate(deciding.inner(), node) {
        return try_held(trial, seat, deciding, pins, node, pair);
    }
    try_other(trial, seat, deciding, pins, node, pair)
}

// After a hit the gates are placed anew.
fn place_again(attempt: &Attempt<'_>, deciding: &Deciding, rows: &mut NewRows, hit: bool)
    requires { hit ≡ false → rows.old.rows.items ≡ (placed_now (task_of attempt.now) deciding.now).extra }
    ensures { rows.new.rows.items ≡ (placed_now (task_of attempt.now) deciding.now).extra }
{
    if hit {
        deciding.new_rows(attempt, rows);
    }
}

// Tries the hint for the new gate at this place, if one is asked for. True where it is a hit; none where there is no such gate.
fn try_place(
    trial: &Trial<'_>,
    seat: &mut Seat,
    deciding: &mut Deciding,
    pins: &mut ArrayVec<u32, MAX_PINS>,
    rows: &mut NewRows,
    place: usize,
) -> Option<bool>
    requires hints { TakesHints trial.now seat.old pins.old.items deciding.old }
    requires room { length pins.old.items < 512 }
    requires rows { rows.old.rows.items ≡ (placed_now (task_of trial.now.attempt) deciding.old).extra }
    ensures known { known_of seat.new ≡ with_view (known_of seat.old) (view_of seat.new) }
    ensures hints { TakesHints trial.now seat.new pins.new.items deciding.new }
    ensures sole { length (known_of seat.old).numbers ≡ 64 → (view_of seat.new).misses ≡ (view_of seat.old).misses }
    ensures pins { length pins.new.items ≤ length pins.old.items + 1 }
    ensures rows { rows.new.rows.items ≡ (placed_now (task_of trial.now.attempt) deciding.new).extra }
{
    let Some((pair, asked)) = rows.asked_pair(place) else {
        return None;
    };
    if !asked || deciding.hits().len() == MAX_GATES {
        return Some(false);
    }
    let hit = try_hint(trial, seat, deciding, pins, pair);
    place_again(&trial.attempt, deciding, rows, hit);
    Some(hit)
}

/// Tries the hints for the pairs of new gates, in order, where hints may stand. Each hit is held, and has a pin that stays. The
/// rows are room for those of the new gates.
pub(crate) fn try_hints(
    trial: &Trial<'_>,
    seat: &mut Seat,
    deciding: &mut Deciding,
    pins: &mut ArrayVec<u32, MAX_PINS>,
    rows: &mut NewRows,
)
    requires way { IsUnderWay trial.now seat.old pins.old.items deciding.old }
    requires few { length pins.old.items ≤ 9 }
    requires past { IsPastKeys deciding.old.stage }
    requires uncounted { deciding.old.counts ≡ [] }
    ensures known { known_of seat.new ≡ with_view (known_of seat.old) (view_of seat.new) }
    ensures way { IsUnderWay trial.now seat.new pins.new.items deciding.new }
    ensures sole { length (known_of seat.old).numbers ≡ 64 → (view_of seat.new).misses ≡ (view_of seat.old).misses }
    ensures few { length pins.new.items ≤ 390 }
    ensures uncounted { deciding.new.counts ≡ [] }
    ensures past { IsPastKeys deciding.new.stage }
{
    if !deciding.takes_hints() {
        return;
    }
    deciding.new_rows(&trial.attempt, rows);
    let mut place = 0;
    for _step in 0..MAX_GATES {
        let Some(hit) = try_place(trial, seat, deciding, pins, rows, place) else {
            return;
        };
        place += usize::from(!hit);
    }
}
