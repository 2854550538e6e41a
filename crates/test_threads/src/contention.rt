//! One seat commits while another holds an inner row of the cone, or has it pinned.

ghost use Rattle.std.specs.Prelude.{◌≡◌};
ghost use Rattle.syn_table.specs.Seating.{IsOf, known_of, nodes_of, view_of};
ghost use Rattle.syn_commit.specs.Giving.{IsAtRest};

use crate::commits::factored;
use crate::fresh::committed;
use crate::pins::{pin_inner, unpin_inner};
use crate::tables::{ands_compacted, opened_twice};
use std::alloc::Global;
use syn_commit::{Hints, NoHook, Tools};
use syn_decide::Outcome;
use syn_gain::Proposal;
use syn_table::Seat;

// What the first seat does while the second one commits.
#[derive(Clone, Copy)]
enum Meanwhile {
    // It holds node 4.
    Holds,
    // It has node 4 pinned.
    Pins,
    // It has node 4 pinned, and no gain is let through.
    PinsWithoutGain,
}

// The first seat holds node 4 while the second one tries, and then it gets the root.
fn holds_inner(
    tools: &Tools<'_, NoHook>,
    first: &mut Seat,
    second: &mut Seat,
    proposal: &Proposal,
) -> bool
    requires table { IsOf first.old tools.now.shared.now }
    requires other_table { IsOf second.old tools.now.shared.now }
    requires nodes { nodes_of tools.now.shared.now ≡ 1031 }
    requires root { proposal.now.root ≡ 6 }
    requires resting { IsAtRest (view_of first.old) }
    requires other_resting { IsAtRest (view_of second.old) }
    ensures table { IsOf first.new tools.now.shared.now }
    ensures other_table { IsOf second.new tools.now.shared.now }
    ensures numbers { (known_of first.new).numbers ≡ (known_of first.old).numbers }
    ensures other_numbers { (known_of second.new).numbers ≡ (known_of second.old).numbers }
    ensures resting { IsAtRest (view_of first.new) }
    ensures other_resting { IsAtRest (view_of second.new) }
{
    if !tools.shared.claim(first, 4) {
        return false;
    }
    let answer = committed(tools, second, proposal, 519, 512, false);
    if !tools.shared.claim(first, 6) {
        tools.shared.release(first, 4);
        return false;
    }
    tools.shared.release(first, 6);
    tools.shared.release(first, 4);
    answer == Outcome::Busy(4)
}

// The first seat has node 4 pinned while the second one tries, and the second one tries again when the pin is taken back.
fn pins_inner(
    tools: &Tools<'_, NoHook>,
    first: &mut Seat,
    second: &mut Seat,
    proposal: &Proposal,
) -> bool
    requires table { IsOf first.old tools.now.shared.now }
    requires other_table { IsOf second.old tools.now.shared.now }
    requires nodes { nodes_of tools.now.shared.now ≡ 1031 }
    requires root { proposal.now.root ≡ 6 }
    requires resting { IsAtRest (view_of first.old) }
    requires other_resting { IsAtRest (view_of second.old) }
    ensures table { IsOf first.new tools.now.shared.now }
    ensures other_table { IsOf second.new tools.now.shared.now }
    ensures numbers { (known_of first.new).numbers ≡ (known_of first.old).numbers }
    ensures other_numbers { (known_of second.new).numbers ≡ (known_of second.old).numbers }
    ensures resting { IsAtRest (view_of first.new) }
    ensures other_resting { IsAtRest (view_of second.new) }
{
    if !pin_inner(tools.shared, first) {
        return false;
    }
    let none = committed(tools, second, proposal, 519, 512, false);
    unpin_inner(tools.shared, first);
    let done = committed(tools, second, proposal, 519, 512, false);
    let worked = Outcome::NoGain { freed: 2, added: 2 };
    (none == worked) & (done == Outcome::Done(1))
}

// The first seat has node 4 pinned while the second one tries, with no gain let through.
fn pins_inner_without_gain(
    tools: &Tools<'_, NoHook>,
    first: &mut Seat,
    second: &mut Seat,
    proposal: &Proposal,
) -> bool
    requires table { IsOf first.old tools.now.shared.now }
    requires other_table { IsOf second.old tools.now.shared.now }
    requires nodes { nodes_of tools.now.shared.now ≡ 1031 }
    requires root { proposal.now.root ≡ 6 }
    requires resting { IsAtRest (view_of first.old) }
    requires other_resting { IsAtRest (view_of second.old) }
    ensures table { IsOf first.new tools.now.shared.now }
    ensures other_table { IsOf second.new tools.now.shared.now }
    ensures numbers { (known_of first.new).numbers ≡ (known_of first.old).numbers }
    ensures other_numbers { (known_of second.new).numbers ≡ (known_of second.old).numbers }
    ensures resting { IsAtRest (view_of first.new) }
    ensures other_resting { IsAtRest (view_of second.new) }
{
    if !pin_inner(tools.shared, first) {
        return false;
    }
    let answer = committed(tools, second, proposal, 519, 512, true);
    unpin_inner(tools.shared, first);
    answer == Outcome::Done(0)
}

// Both seats, one after the other: whether the second one is answered as worked by hand.
fn both_try(
    tools: &Tools<'_, NoHook>,
    first: &mut Seat,
    second: &mut Seat,
    meanwhile: Meanwhile,
) -> bool
    requires table { IsOf first.old tools.now.shared.now }
    requires other_table { IsOf second.old tools.now.shared.now }
    requires nodes { nodes_of tools.now.shared.now ≡ 1031 }
    requires resting { IsAtRest (view_of first.old) }
    requires other_resting { IsAtRest (view_of second.old) }
    ensures table { IsOf first.new tools.now.shared.now }
    ensures other_table { IsOf second.new tools.now.shared.now }
    ensures numbers { (known_of first.new).numbers ≡ (known_of first.old).numbers }
    ensures other_numbers { (known_of second.new).numbers ≡ (known_of second.old).numbers }
    ensures resting { IsAtRest (view_of first.new) }
    ensures other_resting { IsAtRest (view_of second.new) }
{
    let proposal = factored(true);
    match meanwhile {
        Meanwhile::Holds => holds_inner(tools, first, second, &proposal),
        Meanwhile::Pins => pins_inner(tools, first, second, &proposal),
        Meanwhile::PinsWithoutGain => pins_inner_without_gain(tools, first, second, &proposal),
    }
}

// Whether the second seat is answered as worked by hand, how many `And` rows are left, and how many of them compaction
// leaves.
fn contended(alloc: Global, meanwhile: Meanwhile) -> Option<(bool, (u32, u32))> {
    let hints = Hints::new(alloc, 1024).ok()?;
    let (shared, mut first, mut second) = opened_twice(alloc)?;
    let tools = Tools {
        shared: &shared,
        hints: &hints,
        hook: &NoHook,
        worker: 0,
    };
    let as_worked = both_try(&tools, &mut first, &mut second, meanwhile);
    shared.join(&mut first, second);
    let ands = ands_compacted(alloc, shared, first)?;
    Some((as_worked, ands))
}

#[test]
fn a_held_inner_row_is_busy(rt: HostRuntime) {
    let found = contended(rt.alloc(), Meanwhile::Holds);
    assert_eq!(rt; found, Some((true, (3, 3))));
}

#[test]
fn a_pinned_inner_row_takes_the_gain_until_it_is_let_go(rt: HostRuntime) {
    let found = contended(rt.alloc(), Meanwhile::Pins);
    assert_eq!(rt; found, Some((true, (2, 2))));
}

#[test]
fn a_pinned_inner_row_stays_as_a_dead_row(rt: HostRuntime) {
    let found = contended(rt.alloc(), Meanwhile::PinsWithoutGain);
    assert_eq!(rt; found, Some((true, (3, 2))));
}
