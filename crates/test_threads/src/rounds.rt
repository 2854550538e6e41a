//! Two threads, each with a seat of its own, make rows in spare nodes of their own and free them again.

ghost use Rattle.std.specs.Prelude.{◌≡◌, ◌<◌, [], ◌∷◌, true, length, IfSome};
ghost use Rattle.test_threads.specs.Rounds.{HoldsNone, HoldsOne, freed_again, loaded, remade};
ghost use Rattle.syn_table.specs.Seating.{IsOf, known_of, nodes_of, view_of};

use crate::one_rewrite::take;
use crate::tables::{CONE_ROWS, closes_with, opened};
use std::alloc::{AllocError, Global};
use std::test::Fail;
use std::thread::{Threads, join};
use syn_rows::{Lit, Row};
use syn_table::{Seat, Shared};

// Takes a spare node: whether it was there to take, and free.
fn take_spare(shared: &Shared, seat: &mut Seat, node: u32) -> bool
    requires table { IsOf seat.old shared.now }
    requires node { node < nodes_of shared.now }
    requires none { HoldsNone (view_of seat.old) }
    ensures table { IsOf seat.new shared.now }
    ensures numbers { result ≡ true → (known_of seat.new).numbers ≡ (known_of seat.old).numbers }
    ensures taken { result ≡ true → HoldsOne node (loaded node) [] [] (view_of seat.new) }
{
    take(shared, seat, node, Row::Free)
}

// Makes the AND of the constant and its complement there, which refers to node 0 twice.
fn make_false(shared: &Shared, seat: &mut Seat, node: u32)
    requires table { IsOf seat.old shared.now }
    requires taken { HoldsOne node (loaded node) [] [] (view_of seat.old) }
    ensures table { IsOf seat.new shared.now }
    ensures numbers { (known_of seat.new).numbers ≡ (known_of seat.old).numbers }
    ensures made { HoldsOne node (remade node) [] (node ∷ []) (view_of seat.new) }
{
    shared.pin(seat, 0);
    shared.pin(seat, 0);
    shared.make(seat, node, Row::And(Lit(0), Lit(1)), 1);
}

// Frees it again, since nothing refers to it.
fn free_false(shared: &Shared, seat: &mut Seat, node: u32)
    requires table { IsOf seat.old shared.now }
    requires made { HoldsOne node (remade node) [] (node ∷ []) (view_of seat.old) }
    ensures table { IsOf seat.new shared.now }
    ensures numbers { (known_of seat.new).numbers ≡ (known_of seat.old).numbers }
    ensures freed { HoldsOne node (freed_again node) (0 ∷ 0 ∷ []) [] (view_of seat.new) }
{
    shared.free(seat, node);
}

// Takes the pins back and lets the node go.
fn let_go(shared: &Shared, seat: &mut Seat, node: u32)
    requires table { IsOf seat.old shared.now }
    requires input { 0 < node }
    requires freed { HoldsOne node (freed_again node) (0 ∷ 0 ∷ []) [] (view_of seat.old) }
    ensures table { IsOf seat.new shared.now }
    ensures numbers { (known_of seat.new).numbers ≡ (known_of seat.old).numbers }
    ensures none { HoldsNone (view_of seat.new) }
{
    let _first = shared.unpin(seat, 0);
    let _second = shared.unpin(seat, 0);
    shared.release(seat, node);
}

// One round with a spare node: whether it was there to take.
fn make_and_free(shared: &Shared, seat: &mut Seat, node: u32) -> bool
    requires table { IsOf seat.old shared.now }
    requires node { node < nodes_of shared.now }
    requires input { 0 < node }
    requires none { HoldsNone (view_of seat.old) }
    ensures table { IsOf seat.new shared.now }
    ensures numbers { result ≡ true → (known_of seat.new).numbers ≡ (known_of seat.old).numbers }
    ensures none { result ≡ true → HoldsNone (view_of seat.new) }
{
    if !take_spare(shared, seat, node) {
        return false;
    }
    make_false(shared, seat, node);
    free_false(shared, seat, node);
    let_go(shared, seat, node);
    true
}

// The seat after so many rounds with one node, where each went as it has to.
fn rounds(shared: &Shared, mut seat: Seat, node: u32, count: u32) -> Option<Seat>
    requires table { IsOf seat shared.now }
    requires node { node < nodes_of shared.now }
    requires input { 0 < node }
    requires none { HoldsNone (view_of seat) }
    ensures table { IfSome result (λ s. IsOf s shared.now) }
    ensures numbers { IfSome result (λ s. (known_of s).numbers ≡ (known_of seat).numbers) }
    ensures none { IfSome result (λ s. HoldsNone (view_of s)) }
{
    for _ in 0..count {
        if !make_and_free(shared, &mut seat, node) {
            return None;
        }
    }
    Some(seat)
}

// Two threads, each with a seat and a spare node: whether the table closes as it was opened.
fn two_make_and_free<R: Threads>(
    rt: &R,
    alloc: Global,
    shared: Shared,
    mut seat: Seat,
) -> Result<bool, AllocError>
    requires table { IsOf seat shared }
    requires nodes { 8 < nodes_of shared }
    requires numbers { length (known_of seat).numbers ≡ 64 }
    requires none { HoldsNone (view_of seat) }
{
    let other = shared.split(&mut seat)?;
    let (first, second) = join(
        rt,
        || rounds(&shared, seat, 7, 1000),
        || rounds(&shared, other, 8, 1000),
    );
    let (Some(mut seat), Some(other)) = (first, second) else {
        return Ok(false);
    };
    shared.join(&mut seat, other);
    Ok(closes_with(alloc, shared, seat, &CONE_ROWS))
}

#[test]
fn two_threads_make_and_free(rt: HostRuntime) -> Result<(), Fail> {
    let alloc = rt.alloc();
    let Some((shared, seat)) = opened(alloc) else {
        panic!(rt; "no table");
    };
    assert!(rt; two_make_and_free(&rt, alloc, shared, seat)?);
    Ok(())
}
