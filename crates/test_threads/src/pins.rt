//! A seat that has an inner row of the cone pinned.

ghost use Rattle.std.specs.Prelude.{◌≡◌, ◌<◌, false, true};
ghost use Rattle.syn_table.specs.Seating.{IsOf, known_of, nodes_of, view_of};
ghost use Rattle.syn_commit.specs.Giving.{IsAtRest};
ghost use Rattle.test_threads.specs.Resting.{HasPinned};

use syn_rows::{Lit, Row};
use syn_table::{Seat, Shared};

/// Claims node 6, loads its row, pins node 4, to which that row refers, and lets node 6 go. False where another seat holds
/// it or its row isn't the cone's.
pub fn pin_inner(shared: &Shared, seat: &mut Seat) -> bool
    requires table { IsOf seat.old shared.now }
    requires nodes { 6 < nodes_of shared.now }
    requires resting { IsAtRest (view_of seat.old) }
    ensures table { IsOf seat.new shared.now }
    ensures numbers { (known_of seat.new).numbers ≡ (known_of seat.old).numbers }
    ensures pinned { result ≡ true → HasPinned 4 (view_of seat.new) }
    ensures resting { result ≡ false → IsAtRest (view_of seat.new) }
{
    if !shared.claim(seat, 6) {
        return false;
    }
    if shared.row_of(seat, 6) != Row::And(Lit(9), Lit(11)) {
        shared.release(seat, 6);
        return false;
    }
    shared.pin(seat, 4);
    shared.release(seat, 6);
    true
}

/// Takes the pin of node 4 back.
pub fn unpin_inner(shared: &Shared, seat: &mut Seat)
    requires table { IsOf seat.old shared.now }
    requires pinned { HasPinned 4 (view_of seat.old) }
    ensures table { IsOf seat.new shared.now }
    ensures numbers { (known_of seat.new).numbers ≡ (known_of seat.old).numbers }
    ensures resting { IsAtRest (view_of seat.new) }
{
    shared.seats_reach_nodes(seat);
    let _last = shared.unpin(seat, 4);
}
