//! The loads of keys and of counts, behind the walk.

ghost use Rattle.std.specs.Prelude.{◌≡◌, ◌≢◌, ◌+◌, ◌<◌, ◌≤◌, ℕ, [], length, true, IfNone, IfSome};
ghost use Rattle.syn_rows.specs.Nodes.{has_node};
ghost use Rattle.syn_rows.specs.References.{times};
ghost use Rattle.syn_core_laws.specs.Events.{MayPin};
ghost use Rattle.syn_core_laws.specs.Views.{own_pins};
ghost use Rattle.syn_decide.specs.declared.decisions.Want.TheVariants as want;
ghost use Rattle.syn_decide.specs.Decided.{Next};
ghost use Rattle.syn_decide.specs.Fold as fold;
ghost use Rattle.syn_decide.specs.Tasks.{task_of};
ghost use Rattle.syn_decide.specs.Walk.{enters};
ghost use Rattle.syn_table.specs.Seating.{IsOf, known_of, nodes_of, view_of};
ghost use Rattle.syn_table.specs.Steps.{with_view};
ghost use Rattle.syn_commit.specs.Counts.{CountsAreLoaded};
ghost use Rattle.syn_commit.specs.Stages.{HasEnded, IsCounted, IsKeyed, IsPastKeys, leaf_pinned, with_leaf};
ghost use Rattle.syn_commit.specs.Trials.{HasWalked, IsUnderWay};

use crate::trial::Trial;
use arrayvec::ArrayVec;
use syn_core_laws::Seen;
use syn_decide::{Attempt, Deciding, Decision, Want};
use syn_table::{Seat, Shared};

/// The most pins that a seat has.
pub(crate) const MAX_PINS: usize = 512;

// Pins a used leaf. The root is held, and needs no pin.
fn pin_leaf(
    shared: &Shared,
    seat: &mut Seat,
    root: u32,
    node: u32,
    pins: &mut ArrayVec<u32, MAX_PINS>,
)
    requires table { IsOf seat.old shared.now }
    requires may { node ≢ root → MayPin (view_of seat.old) node }
    requires few { length (view_of seat.old).pins < 512 }
    requires room { length pins.old.items < 512 }
    ensures table { IsOf seat.new shared.now }
    ensures known { known_of seat.new ≡ with_view (known_of seat.old) (view_of seat.new) }
    ensures view { view_of seat.new ≡ leaf_pinned root node (view_of seat.old) }
    ensures pins { pins.new.items ≡ with_leaf root node pins.old.items }
{
    if node == root {
        return;
    }
    shared.pin(seat, node);
    pins.push(node);
}

// Loads the key of a used leaf, which is pinned before, or of the root, and reads it.
fn load_key(
    shared: &Shared,
    seat: &mut Seat,
    attempt: &Attempt<'_>,
    deciding: &mut Deciding,
    pins: &mut ArrayVec<u32, MAX_PINS>,
    node: u32,
)
    requires table { IsOf seat.old shared.now }
    requires may { node ≢ attempt.now.candidate.root → MayPin (view_of seat.old) node }
    requires held { node ≡ attempt.now.candidate.root → has_node (view_of seat.old).held node ≡ true }
    requires few { length (view_of seat.old).pins < 512 }
    requires room { length pins.old.items < 512 }
    ensures table { IsOf seat.new shared.now }
    ensures known { known_of seat.new ≡ with_view (known_of seat.old) (view_of seat.new) }
    ensures keyed { IsKeyed (task_of attempt.now) node (view_of seat.old) pins.old.items deciding.old (view_of seat.new) pins.new.items deciding.new }
{
    pin_leaf(shared, seat, attempt.candidate.root, node, pins);
    let key = shared.key_of(seat, node);
    deciding.read(attempt, Seen::Key(node, key));
}

// The node whose key is loaded next.
fn next_key(deciding: &Deciding) -> Option<u32>
    ensures some { IfSome result (λ n. fold.wants deciding.now ≡ Next (want.Key n)) }
    ensures none { IfNone result ((n : ℕ) → fold.wants deciding.now ≡ Next (want.Key n) → ⊥) }
{
    match deciding.wants() {
        Decision::Next(Want::Key(node)) => Some(node),
        _ => None,
    }
}

/// Loads the keys of the used leaves, rising, each under a pin that stays, and then the root's.
pub(crate) fn keys(
    trial: &Trial<'_>,
    seat: &mut Seat,
    deciding: &mut Deciding,
    pins: &mut ArrayVec<u32, MAX_PINS>,
)
    requires walked { HasWalked trial.now seat.old deciding.old }
    requires enters { enters trial.now.attempt.candidate.leaves.now [] trial.now.attempt.candidate.root ≡ true }
    requires none { pins.old.items ≡ [] }
    ensures known { known_of seat.new ≡ with_view (known_of seat.old) (view_of seat.new) }
    ensures way { IsUnderWay trial.now seat.new pins.new.items deciding.new }
    ensures misses { (view_of seat.new).misses ≡ (view_of seat.old).misses }
    ensures few { length pins.new.items ≤ 9 }
    ensures uncounted { deciding.new.counts ≡ [] }
    ensures past { IsPastKeys deciding.new.stage }
{
    while let Some(node) = next_key(deciding) {
        load_key(trial.shared, seat, &trial.attempt, deciding, pins, node);
    }
}

// How often the node stands among the pins.
fn times_in(pins: &[u32], node: u32) -> u32
    requires { length pins.now ≤ 512 }
    ensures { result ≡ times node pins.now }
{
    let mut sum = 0;
    for pin in pins {
        sum += u32::from(*pin == node);
    }
    sum
}

// Loads the count of an inner row's node, and reads it.
fn load_count(
    shared: &Shared,
    seat: &mut Seat,
    attempt: &Attempt<'_>,
    deciding: &mut Deciding,
    pins: &[u32],
    node: u32,
)
    requires table { IsOf seat.old shared.now }
    requires held { has_node (view_of seat.old).held node ≡ true }
    requires few { length pins.now ≤ 512 }
    requires pins { own_pins (view_of seat.old) node ≡ times node pins.now }
    ensures table { IsOf seat.new shared.now }
    ensures known { known_of seat.new ≡ with_view (known_of seat.old) (view_of seat.new) }
    ensures counted { IsCounted (task_of attempt.now) (nodes_of shared.now) node (view_of seat.old) deciding.old (view_of seat.new) deciding.new }
{
    shared.seats_reach_nodes(seat);
    let own = times_in(pins, node);
    let count = shared.refs_of(seat, node);
    deciding.read(attempt, Seen::Count { node, count, own });
}

// The node whose count is loaded next.
fn next_count(deciding: &Deciding) -> Option<u32>
    ensures some { IfSome result (λ n. fold.wants deciding.now ≡ Next (want.Count n)) }
    ensures none { IfNone result ((n : ℕ) → fold.wants deciding.now ≡ Next (want.Count n) → ⊥) }
{
    match deciding.wants() {
        Decision::Next(Want::Count(node)) => Some(node),
        _ => None,
    }
}

/// Loads the counts of the inner rows, in the order of the walk.
pub(crate) fn counts(
    trial: &Trial<'_>,
    seat: &mut Seat,
    deciding: &mut Deciding,
    pins: &ArrayVec<u32, MAX_PINS>,
)
    requires way { IsUnderWay trial.now seat.old pins.now.items deciding.old }
    requires few { length pins.now.items ≤ 512 }
    requires past { IsPastKeys deciding.old.stage }
    requires uncounted { deciding.old.counts ≡ [] }
    ensures known { known_of seat.new ≡ with_view (known_of seat.old) (view_of seat.new) }
    ensures way { IsUnderWay trial.now seat.new pins.now.items deciding.new }
    ensures loaded { CountsAreLoaded (nodes_of trial.now.shared.now) (view_of seat.new) deciding.new }
    ensures misses { (view_of seat.new).misses ≡ (view_of seat.old).misses }
    ensures ended { HasEnded deciding.new.stage }
{
    while let Some(node) = next_count(deciding) {
        load_count(
            trial.shared,
            seat,
            &trial.attempt,
            deciding,
            pins.as_slice(),
            node,
        );
    }
}
