//! The steps of one seat, which leave the rows as they are.

ghost use Rattle.std.specs.Prelude.{◌≡◌, ◌<◌, [], true, length};
ghost use Rattle.test_threads.specs.Resting.{IsResting};
ghost use Rattle.syn_table.specs.Seating.{IsOf, known_of, nodes_of, view_of};

use crate::tables::{CONE_ROWS, closes_with, opened};
use syn_rows::Row;
use syn_table::{Seat, Shared};

// The steps of one seat, worked by hand: whether each answers as it has to.
fn steps_as_worked(shared: &Shared, seat: &mut Seat) -> bool
    requires table { IsOf seat.old shared.now }
    requires nodes { 8 < nodes_of shared.now }
    requires resting { IsResting (known_of seat.old).numbers (known_of seat.old) }
    ensures table { IsOf seat.new shared.now }
    ensures resting { result ≡ true → IsResting (known_of seat.old).numbers (known_of seat.new) }
{
    if !shared.claim(seat, 6)
        || shared.refs_of(seat, 6) != 1
        || shared.key_of(seat, 6) != 8589934592
    {
        return false;
    }
    let Row::And(first, second) = shared.row_of(seat, 6) else {
        return false;
    };
    if first.0 != 9 || second.0 != 11 {
        return false;
    }
    shared.pin(seat, 4);
    if !shared.claim(seat, 4) || shared.refs_of(seat, 4) != 2 {
        return false;
    }
    let last = shared.unpin(seat, 4);
    if last || shared.refs_of(seat, 4) != 1 {
        return false;
    }
    shared.release(seat, 6);
    shared.release(seat, 4);
    true
}

#[test]
fn one_seat_steps(rt: HostRuntime) {
    let alloc = rt.alloc();
    let Some((shared, mut seat)) = opened(alloc) else {
        panic!(rt; "no table");
    };
    assert_eq!(rt; shared.nodes(), 1031);
    if !steps_as_worked(&shared, &mut seat) {
        panic!(rt; "another answer");
    }
    assert!(rt; closes_with(alloc, shared, seat, &CONE_ROWS));
}
