//! Spare nodes.

ghost use Rattle.std.specs.Prelude.{◌≡◌, ◌+◌, ◌<◌, ◌≤◌, ◌++◌, ◌∷◌, ℕ, [], false, true, length, nat_lt, if◌then◌else◌};
ghost use Rattle.syn_rows.specs.Nodes.{has_node};
ghost use Rattle.syn_core_laws.specs.Views.{released};
ghost use Rattle.syn_table.specs.Seating.{IsOf, known_of, nodes_of, view_of};
ghost use Rattle.syn_table.specs.Steps.{with_view};
ghost use Rattle.syn_commit.specs.Pools.{HoldsNoneOf, IsEmptied, IsFilled, IsTried, KeepsPool};

use arrayvec::ArrayVec;
use std::marker::Model;
use syn_rows::Row;
use syn_table::{Seat, Shared};

/// The most nodes that a pool has.
pub const MAX_SPARE: usize = 512;

/// Free nodes that one seat holds, at most 512. Contracts see the list.
#[derive(Debug, Drop)]
pub(crate) struct Spare {
    nodes: ArrayVec<u32, MAX_SPARE>,
}

impl Model for Spare {
    ghost use Rattle.std.specs.Prelude.{ℕ, List, length, ◌≤◌};

    ghost Value = { List ℕ };

    ghost view = { λ p. p.nodes.items };

    ghost invariant = { λ p. length p.nodes.items ≤ 512 };
}

impl Spare {
    /// No node.
    pub(crate) fn new() -> Spare
        ensures { result ≡ [] }
    {
        Spare {
            nodes: ArrayVec::new(),
        }
    }

    /// Whether the node is one of them.
    pub(crate) fn has(&self, node: u32) -> bool
        ensures { result ≡ has_node self.now node }
    {
        for spare in self.nodes.as_slice() {
            if *spare == node {
                return true;
            }
        }
        false
    }

    /// How many nodes there are.
    pub(crate) fn len(&self) -> u32
        ensures { result ≡ length self.now }
    {
        self.nodes.len() as u32
    }

    /// Tries the nodes `from`, `from + 1`, .., `count` of them, until the pool has 512: each that the seat gets and finds
    /// free joins the pool, and any other that it gets is let go again.
    pub(crate) fn fill(&mut self, shared: &Shared, seat: &mut Seat, from: u32, count: u32)
        requires table { IsOf seat.old shared.now }
        requires range { from + count ≤ nodes_of shared.now }
        requires none { HoldsNoneOf (view_of seat.old) from count }
        requires pool { KeepsPool (view_of seat.old) self.old }
        ensures table { IsOf seat.new shared.now }
        ensures pool { KeepsPool (view_of seat.new) self.new }
        ensures filled { IsFilled from count (view_of seat.old) self.old (view_of seat.new) self.new }
        ensures known { known_of seat.new ≡ with_view (known_of seat.old) (view_of seat.new) }
    {
        for node in from..from + count {
            if self.nodes.len() == MAX_SPARE {
                return;
            }
            self.try_node(shared, seat, node);
        }
    }

    // Tries one node.
    fn try_node(&mut self, shared: &Shared, seat: &mut Seat, node: u32)
        requires table { IsOf seat.old shared.now }
        requires node { node < nodes_of shared.now }
        requires none { has_node (view_of seat.old).held node ≡ false }
        requires room { length self.old < 512 }
        requires pool { KeepsPool (view_of seat.old) self.old }
        ensures table { IsOf seat.new shared.now }
        ensures pool { KeepsPool (view_of seat.new) self.new }
        ensures tried { IsTried node (view_of seat.old) self.old (view_of seat.new) self.new }
        ensures known { known_of seat.new ≡ with_view (known_of seat.old) (view_of seat.new) }
    {
        shared.seats_reach_nodes(seat);
        if !shared.claim(seat, node) {
            return;
        }
        match shared.row_of(seat, node) {
            Row::Free => self.nodes.push(node),
            Row::Source | Row::And(_, _) | Row::Alias(_) => shared.release(seat, node),
        }
    }

    // Takes in a node that the seat holds, or lets it go where the pool has 512.
    pub(crate) fn take_in(&mut self, shared: &Shared, seat: &mut Seat, node: u32)
        requires table { IsOf seat.old shared.now }
        requires held { has_node (view_of seat.old).held node ≡ true }
        requires busy { has_node (view_of seat.old).idle node ≡ false }
        ensures table { IsOf seat.new shared.now }
        ensures known { known_of seat.new ≡ with_view (known_of seat.old) (view_of seat.new) }
        ensures view { view_of seat.new ≡ (if nat_lt (length self.old) 512 then view_of seat.old else released (view_of seat.old) node) }
        ensures pool { self.new ≡ (if nat_lt (length self.old) 512 then self.old ++ node ∷ [] else self.old) }
    {
        if self.nodes.len() < MAX_SPARE {
            self.nodes.push(node);
        } else {
            shared.release(seat, node);
        }
    }

    /// Takes the last node out.
    pub(crate) fn take(&mut self) -> u32
        requires { 1 ≤ length self.old }
        ensures { self.old ≡ self.new ++ result ∷ [] }
    {
        let last = self.nodes.len() - 1;
        let node = self.nodes.as_slice()[last];
        self.nodes.truncate(last);
        node
    }

    /// Lets all of them go.
    pub(crate) fn empty(self, shared: &Shared, seat: &mut Seat)
        requires table { IsOf seat.old shared.now }
        requires pool { KeepsPool (view_of seat.old) self }
        ensures table { IsOf seat.new shared.now }
        ensures emptied { IsEmptied (view_of seat.old) self (view_of seat.new) }
        ensures known { known_of seat.new ≡ with_view (known_of seat.old) (view_of seat.new) }
    {
        let spare = self.nodes.as_slice();
        for node in spare {
            shared.seats_reach_nodes(seat);
            shared.release(seat, *node);
        }
    }
}
