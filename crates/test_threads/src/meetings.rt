//! Two seats commit at one root, and what is left in a table behind a commit.

ghost use Rattle.std.specs.Prelude.{◌≡◌, ◌<◌};
ghost use Rattle.syn_table.specs.Seating.{IsOf, known_of, nodes_of, view_of};
ghost use Rattle.syn_commit.specs.Giving.{IsAtRest};

use crate::commits::factored;
use crate::fresh::committed;
use crate::harness::CONE;
use crate::tables::{ands_left, opened_as, opened_twice};
use std::alloc::Global;
use syn_commit::{Hints, NoHook, Tools};
use syn_decide::Outcome;
use syn_gain::Proposal;
use syn_rows::Row;
use syn_table::{Seat, Shared};

// Claims node 6, loads its row and lets it go: whether it is an alias.
fn is_alias(shared: &Shared, seat: &mut Seat) -> bool
    requires table { IsOf seat.old shared.now }
    requires node { 6 < nodes_of shared.now }
    requires resting { IsAtRest (view_of seat.old) }
    ensures table { IsOf seat.new shared.now }
    ensures numbers { (known_of seat.new).numbers ≡ (known_of seat.old).numbers }
    ensures resting { IsAtRest (view_of seat.new) }
{
    if !shared.claim(seat, 6) {
        return false;
    }
    let row = shared.row_of(seat, 6);
    shared.release(seat, 6);
    matches!(row, Row::Alias(_))
}

// The second seat tries the proposal while the first one holds the root.
fn turned_away(
    tools: &Tools<'_, NoHook>,
    first: &mut Seat,
    second: &mut Seat,
    proposal: &Proposal,
) -> bool
    requires table { IsOf first.old tools.now.shared.now }
    requires other_table { IsOf second.old tools.now.shared.now }
    requires nodes { nodes_of tools.now.shared.now ≡ 1031 }
    requires root { proposal.now.root ≡ 6 }
    requires resting { IsAtRest (view_of first.old) }
    requires other_resting { IsAtRest (view_of second.old) }
    ensures table { IsOf first.new tools.now.shared.now }
    ensures other_table { IsOf second.new tools.now.shared.now }
    ensures numbers { (known_of first.new).numbers ≡ (known_of first.old).numbers }
    ensures other_numbers { (known_of second.new).numbers ≡ (known_of second.old).numbers }
    ensures resting { IsAtRest (view_of first.new) }
    ensures other_resting { IsAtRest (view_of second.new) }
{
    if !tools.shared.claim(first, 6) {
        return false;
    }
    let answer = committed(tools, second, proposal, 519, 512, false);
    tools.shared.release(first, 6);
    answer == Outcome::Busy(6)
}

// The second seat is turned away, then it commits, and then the first one gains nothing.
fn both_try(
    tools: &Tools<'_, NoHook>,
    first: &mut Seat,
    second: &mut Seat,
    proposal: &Proposal,
) -> bool
    requires table { IsOf first.old tools.now.shared.now }
    requires other_table { IsOf second.old tools.now.shared.now }
    requires nodes { nodes_of tools.now.shared.now ≡ 1031 }
    requires root { proposal.now.root ≡ 6 }
    requires resting { IsAtRest (view_of first.old) }
    requires other_resting { IsAtRest (view_of second.old) }
    ensures table { IsOf first.new tools.now.shared.now }
    ensures other_table { IsOf second.new tools.now.shared.now }
    ensures numbers { (known_of first.new).numbers ≡ (known_of first.old).numbers }
    ensures other_numbers { (known_of second.new).numbers ≡ (known_of second.old).numbers }
    ensures resting { IsAtRest (view_of first.new) }
    ensures other_resting { IsAtRest (view_of second.new) }
{
    let busy = turned_away(tools, first, second, proposal);
    let done = committed(tools, second, proposal, 519, 512, false) == Outcome::Done(1);
    let alias = is_alias(tools.shared, first);
    let none = match committed(tools, first, proposal, 7, 512, false) {
        Outcome::NoGain { freed, added } => freed == added,
        _ => false,
    };
    busy & done & alias & none
}

// The key of a node.
fn key_at(shared: &Shared, seat: &mut Seat, node: u32) -> Option<u64>
    requires table { IsOf seat.old shared.now }
    requires node { node < nodes_of shared.now }
    requires resting { IsAtRest (view_of seat.old) }
    ensures table { IsOf seat.new shared.now }
    ensures resting { IsAtRest (view_of seat.new) }
{
    if !shared.claim(seat, node) {
        return None;
    }
    let key = shared.key_of(seat, node);
    shared.release(seat, node);
    Some(key)
}

// The keys of the last two of the pool's nodes, once the seat has made rows there.
fn keys_after(tools: &Tools<'_, NoHook>, seat: &mut Seat) -> Option<(u64, u64)>
    requires table { IsOf seat.old tools.now.shared.now }
    requires nodes { nodes_of tools.now.shared.now ≡ 1031 }
    requires resting { IsAtRest (view_of seat.old) }
    ensures table { IsOf seat.new tools.now.shared.now }
{
    let _answer = committed(tools, seat, &factored(true), 7, 512, false);
    let last = key_at(tools.shared, seat, 518)?;
    let other = key_at(tools.shared, seat, 517)?;
    Some((last, other))
}

// The keys of the two rows that are made where the root's key is 3: they are in the last nodes of the pool.
fn made_keys(alloc: Global) -> Option<(u64, u64)> {
    let keys = [0, 0, 0, 0, 1, 1, 3];
    let hints = Hints::new(alloc, 1024).ok()?;
    let (shared, mut seat, spare) = opened_as(alloc, CONE.as_bytes(), Some(&keys))?;
    let tools = Tools {
        shared: &shared,
        hints: &hints,
        hook: &NoHook,
        worker: 0,
    };
    if spare == 7 {
        keys_after(&tools, &mut seat)
    } else {
        None
    }
}

// Whether both seats are answered as worked by hand, and how many `And` rows are left.
fn two_seats(alloc: Global) -> Option<(bool, u32)> {
    let hints = Hints::new(alloc, 1024).ok()?;
    let (shared, mut first, mut second) = opened_twice(alloc)?;
    let tools = Tools {
        shared: &shared,
        hints: &hints,
        hook: &NoHook,
        worker: 0,
    };
    let as_worked = both_try(&tools, &mut first, &mut second, &factored(true));
    shared.join(&mut first, second);
    let ands = ands_left(alloc, shared, first)?;
    Some((as_worked, ands))
}

#[test]
fn two_seats_meet_at_one_root(rt: HostRuntime) {
    assert!(rt; two_seats(rt.alloc()) == Some((true, 2)));
}

#[test]
fn made_rows_have_keys_a_step_apart(rt: HostRuntime) {
    assert!(rt; made_keys(rt.alloc()) == Some((1, 2)));
}
