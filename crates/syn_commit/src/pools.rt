//! The spare nodes of a worker, and the room in which it commits.

ghost use Rattle.std.specs.Prelude.{◌≡◌, ◌+◌, ◌≤◌, []};
ghost use Rattle.syn_rows.specs.Nodes.{has_node};
ghost use Rattle.syn_table.specs.Seating.{IsOf, known_of, nodes_of, view_of};
ghost use Rattle.syn_table.specs.Steps.{with_view};
ghost use Rattle.syn_commit.specs.Pools.{HoldsNoneOf, IsEmptied, IsFilled, KeepsPool};

use crate::done::Stores;
use crate::returns::Holding;
use crate::spare::Spare;
use std::marker::Model;
use syn_decide::Deciding;
use syn_table::{Seat, Shared};

/// What a commit works with. It is some hundred thousand bytes, so it is made once a worker, and begun anew for each commit.
#[derive(Debug, Drop)]
pub(crate) struct Room {
    /// What is kept of its reads.
    pub(crate) deciding: Deciding,
    /// What it holds.
    pub(crate) holding: Holding,
    /// The rows that it stores.
    pub(crate) stores: Stores,
}

impl Room {
    fn new() -> Room {
        Room {
            deciding: Deciding::new(),
            holding: Holding::new(),
            stores: Stores::new(),
        }
    }
}

/// Free nodes that one seat holds, at most 512: new rows are made in them. Contracts see the list.
#[derive(Debug, Drop)]
pub struct Pool {
    pub(crate) spare: Spare,
    pub(crate) room: Room,
}

impl Model for Pool {
    ghost use Rattle.std.specs.Prelude.{ℕ, List};

    ghost Value = { List ℕ };

    ghost view = { λ p. p.spare };
}

impl Pool {
    /// A pool of no node.
    pub fn new() -> Pool
        ensures { result ≡ [] }
    {
        Pool {
            spare: Spare::new(),
            room: Room::new(),
        }
    }

    /// Whether the pool has the node.
    pub fn has(&self, node: u32) -> bool
        ensures { result ≡ has_node self.now node }
    {
        self.spare.has(node)
    }

    /// Tries the nodes `from`, `from + 1`, .., `count` of them, until the pool has 512: each that the seat gets and finds
    /// free joins the pool, and any other that it gets is let go again.
    pub fn fill(&mut self, shared: &Shared, seat: &mut Seat, from: u32, count: u32)
        requires table { IsOf seat.old shared.now }
        requires range { from + count ≤ nodes_of shared.now }
        requires none { HoldsNoneOf (view_of seat.old) from count }
        requires pool { KeepsPool (view_of seat.old) self.old }
        ensures table { IsOf seat.new shared.now }
        ensures pool { KeepsPool (view_of seat.new) self.new }
        ensures filled { IsFilled from count (view_of seat.old) self.old (view_of seat.new) self.new }
        ensures known { known_of seat.new ≡ with_view (known_of seat.old) (view_of seat.new) }
    {
        self.spare.fill(shared, seat, from, count);
    }

    /// Lets all nodes of the pool go.
    pub fn empty(self, shared: &Shared, seat: &mut Seat)
        requires table { IsOf seat.old shared.now }
        requires pool { KeepsPool (view_of seat.old) self }
        ensures table { IsOf seat.new shared.now }
        ensures emptied { IsEmptied (view_of seat.old) self (view_of seat.new) }
        ensures known { known_of seat.new ≡ with_view (known_of seat.old) (view_of seat.new) }
    {
        let Pool { spare, room: _ } = self;
        spare.empty(shared, seat);
    }
}
