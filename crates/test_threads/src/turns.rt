//! Two threads, each with a seat of its own.

ghost use Rattle.std.specs.Prelude.{◌≡◌, ◌<◌, [], true, length};
ghost use Rattle.test_threads.specs.Resting.{IsResting};
ghost use Rattle.syn_table.specs.Seating.{IsOf, known_of, nodes_of, view_of};

use crate::tables::{CONE_ROWS, closes_with, opened};
use std::alloc::{AllocError, Global};
use std::test::Fail;
use std::thread::{Threads, join};
use syn_table::{Seat, Shared};

// Claims a node and releases it, or lets it be where another seat holds it.
fn take_turn(shared: &Shared, seat: &mut Seat, node: u32)
    requires table { IsOf seat.old shared.now }
    requires node { node < nodes_of shared.now }
    requires resting { IsResting (known_of seat.old).numbers (known_of seat.old) }
    ensures table { IsOf seat.new shared.now }
    ensures resting { IsResting (known_of seat.old).numbers (known_of seat.new) }
{
    if shared.claim(seat, node) {
        shared.release(seat, node);
    }
}

// Claims and releases nodes in turn.
fn take_turns(shared: &Shared, mut seat: Seat, rounds: u32) -> Seat
    requires table { IsOf seat shared.now }
    requires nodes { 8 < nodes_of shared.now }
    requires resting { IsResting (known_of seat).numbers (known_of seat) }
    ensures table { IsOf result shared.now }
    ensures resting { IsResting (known_of seat).numbers (known_of result) }
{
    for round in 0..rounds {
        take_turn(shared, &mut seat, 4 + round % 3);
    }
    seat
}

// Two threads take turns, each with a seat: whether the table closes as it was opened.
fn two_take_turns<R: Threads>(
    rt: &R,
    alloc: Global,
    shared: Shared,
    mut seat: Seat,
) -> Result<bool, AllocError>
    requires table { IsOf seat shared }
    requires nodes { 8 < nodes_of shared }
    requires numbers { length (known_of seat).numbers ≡ 64 }
    requires resting { IsResting (known_of seat).numbers (known_of seat) }
{
    let other = shared.split(&mut seat)?;
    let (mut seat, other) = join(
        rt,
        || take_turns(&shared, seat, 1000),
        || take_turns(&shared, other, 1000),
    );
    shared.join(&mut seat, other);
    Ok(closes_with(alloc, shared, seat, &CONE_ROWS))
}

#[test]
fn two_threads_take_turns(rt: HostRuntime) -> Result<(), Fail> {
    let alloc = rt.alloc();
    let Some((shared, seat)) = opened(alloc) else {
        panic!(rt; "no table");
    };
    assert!(rt; two_take_turns(&rt, alloc, shared, seat)?);
    Ok(())
}
