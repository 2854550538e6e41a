//! One seat rewrites f = ab + ac to a(b + c): it makes two rows, redefines the root and frees two rows.

ghost use Rattle.std.specs.Prelude.{◌≡◌, ◌<◌, [], true, false, length, None, Some};
ghost use Rattle.syn_core_laws.specs.Events.{MayFree, MayPin};
ghost use Rattle.syn_rows.specs.Nodes.{has_node};
ghost use Rattle.syn_core_laws.specs.Openings.{empty_view};
ghost use Rattle.syn_core_laws.specs.Views.{freed, known_row, unpinned};
ghost use Rattle.test_threads.specs.Rewriting.{taken, keyed, all_taken, neither_made, product_made, root_redefined, both_dropped, all_released};
ghost use Rattle.syn_table.specs.Seating.{IsOf, known_of, nodes_of, view_of};
ghost use Rattle.syn_table.specs.Steps.{with_view};

use crate::tables::{CONE_ROWS, closes_with, opened};
use syn_rows::{Lit, Row};
use syn_table::{Seat, Shared};

// Claims a node and loads its row: whether it is this one.
pub(crate) fn take(shared: &Shared, seat: &mut Seat, node: u32, row: Row) -> bool
    requires table { IsOf seat.old shared.now }
    requires node { node < nodes_of shared.now }
    requires free { has_node (view_of seat.old).held node ≡ false }
    ensures table { IsOf seat.new shared.now }
    ensures taken { result ≡ true → known_of seat.new ≡ with_view (known_of seat.old) (taken (view_of seat.old) node row) }
{
    shared.claim(seat, node) && shared.row_of(seat, node) == row
}

// Pins a node and loads its key: whether it is this one.
fn pin_keyed(shared: &Shared, seat: &mut Seat, node: u32, key: u64) -> bool
    requires table { IsOf seat.old shared.now }
    requires may { MayPin (view_of seat.old) node }
    requires few { length (view_of seat.old).pins < 512 }
    ensures table { IsOf seat.new shared.now }
    ensures keyed { result ≡ true → known_of seat.new ≡ with_view (known_of seat.old) (keyed (view_of seat.old) node key) }
{
    shared.pin(seat, node);
    shared.key_of(seat, node) == key
}

// Takes a pin back: whether it was the last reference.
fn unpin_last(shared: &Shared, seat: &mut Seat, node: u32) -> bool
    requires table { IsOf seat.old shared.now }
    requires pinned { has_node (view_of seat.old).pins node ≡ true }
    ensures table { IsOf seat.new shared.now }
    ensures unpinned { result ≡ true → known_of seat.new ≡ with_view (known_of seat.old) (unpinned (view_of seat.old) node 1) }
{
    shared.unpin(seat, node)
}

// Takes a pin of a node back whose row the seat doesn't know.
fn unpin_input(shared: &Shared, seat: &mut Seat, node: u32)
    requires table { IsOf seat.old shared.now }
    requires pinned { has_node (view_of seat.old).pins node ≡ true }
    requires unknown { known_row (view_of seat.old) node ≡ None }
    ensures table { IsOf seat.new shared.now }
    ensures unpinned { known_of seat.new ≡ with_view (known_of seat.old) (unpinned (view_of seat.old) node 0) }
{
    let _last = shared.unpin(seat, node);
}

fn take_all(shared: &Shared, seat: &mut Seat) -> bool
    requires table { IsOf seat.old shared.now }
    requires nodes { 8 < nodes_of shared.now }
    requires start { view_of seat.old ≡ empty_view 0 }
    ensures table { IsOf seat.new shared.now }
    ensures taken { result ≡ true → known_of seat.new ≡ with_view (known_of seat.old) all_taken }
{
    take(shared, seat, 6, Row::And(Lit(9), Lit(11)))
        && take(shared, seat, 4, Row::And(Lit(2), Lit(4)))
        && take(shared, seat, 5, Row::And(Lit(2), Lit(6)))
        && take(shared, seat, 7, Row::Free)
        && take(shared, seat, 8, Row::Free)
}

fn make_neither(shared: &Shared, seat: &mut Seat) -> bool
    requires table { IsOf seat.old shared.now }
    requires taken { view_of seat.old ≡ all_taken }
    ensures table { IsOf seat.new shared.now }
    ensures made { result ≡ true → known_of seat.new ≡ with_view (known_of seat.old) neither_made }
{
    if !pin_keyed(shared, seat, 2, 0) {
        return false;
    }
    if !pin_keyed(shared, seat, 3, 0) {
        return false;
    }
    shared.make(seat, 7, Row::And(Lit(5), Lit(7)), 1);
    true
}

fn make_product(shared: &Shared, seat: &mut Seat) -> bool
    requires table { IsOf seat.old shared.now }
    requires made { view_of seat.old ≡ neither_made }
    ensures table { IsOf seat.new shared.now }
    ensures made { result ≡ true → known_of seat.new ≡ with_view (known_of seat.old) product_made }
{
    if !pin_keyed(shared, seat, 1, 0) {
        return false;
    }
    shared.pin(seat, 7);
    shared.make(seat, 8, Row::And(Lit(2), Lit(15)), 2);
    true
}

fn redefine_root(shared: &Shared, seat: &mut Seat) -> bool
    requires table { IsOf seat.old shared.now }
    requires made { view_of seat.old ≡ product_made }
    ensures table { IsOf seat.new shared.now }
    ensures redefined { result ≡ true → known_of seat.new ≡ with_view (known_of seat.old) root_redefined }
{
    shared.pin(seat, 8);
    if shared.key_of(seat, 6) != 8589934592 {
        return false;
    }
    shared.redefine(seat, 6, Row::Alias(Lit(17)), &[1, 2, 3]);
    true
}

// Frees a node whose row is known.
fn free_known(shared: &Shared, seat: &mut Seat, node: u32, row: Row)
    requires table { IsOf seat.old shared.now }
    requires may { MayFree (view_of seat.old) node }
    requires known { known_row (view_of seat.old) node ≡ Some row }
    ensures table { IsOf seat.new shared.now }
    ensures freed { known_of seat.new ≡ with_view (known_of seat.old) (freed (view_of seat.old) node row) }
{
    let _ = row;
    shared.free(seat, node);
}

fn drop_both(shared: &Shared, seat: &mut Seat) -> bool
    requires table { IsOf seat.old shared.now }
    requires redefined { view_of seat.old ≡ root_redefined }
    ensures table { IsOf seat.new shared.now }
    ensures dropped { result ≡ true → known_of seat.new ≡ with_view (known_of seat.old) both_dropped }
{
    if !unpin_last(shared, seat, 4) {
        return false;
    }
    free_known(shared, seat, 4, Row::And(Lit(2), Lit(4)));
    unpin_input(shared, seat, 1);
    unpin_input(shared, seat, 2);
    if !unpin_last(shared, seat, 5) {
        return false;
    }
    free_known(shared, seat, 5, Row::And(Lit(2), Lit(6)));
    unpin_input(shared, seat, 1);
    unpin_input(shared, seat, 3);
    true
}

fn release_all(shared: &Shared, seat: &mut Seat)
    requires table { IsOf seat.old shared.now }
    requires dropped { view_of seat.old ≡ both_dropped }
    ensures table { IsOf seat.new shared.now }
    ensures released { known_of seat.new ≡ with_view (known_of seat.old) all_released }
{
    shared.release(seat, 4);
    shared.release(seat, 5);
    shared.release(seat, 6);
    shared.release(seat, 7);
    shared.release(seat, 8);
}

// All stages, one after the other: whether each answers as worked by hand.
fn rewrites(shared: &Shared, seat: &mut Seat) -> bool
    requires table { IsOf seat.old shared.now }
    requires nodes { 8 < nodes_of shared.now }
    requires start { view_of seat.old ≡ empty_view 0 }
    ensures table { IsOf seat.new shared.now }
    ensures released { result ≡ true → known_of seat.new ≡ with_view (known_of seat.old) all_released }
{
    let done = take_all(shared, seat)
        && make_neither(shared, seat)
        && make_product(shared, seat)
        && redefine_root(shared, seat)
        && drop_both(shared, seat);
    if done {
        release_all(shared, seat);
    }
    done
}

#[test]
fn one_seat_rewrites(rt: HostRuntime) {
    let alloc = rt.alloc();
    let Some((shared, mut seat)) = opened(alloc) else {
        panic!(rt; "no table");
    };
    if !rewrites(&shared, &mut seat) {
        panic!(rt; "another answer");
    }
    let mut wanted = [Row::Free; 9];
    wanted[..4].copy_from_slice(&CONE_ROWS[..4]);
    wanted[6] = Row::Alias(Lit(17));
    wanted[7] = Row::And(Lit(5), Lit(7));
    wanted[8] = Row::And(Lit(2), Lit(15));
    assert!(rt; closes_with(alloc, shared, seat, &wanted));
}
