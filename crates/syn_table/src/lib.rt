//! The shared table: an and-inverter graph that many seats change in place, one word at a time.
#![tactic(auto)]

ghost use Rattle.std.specs.Prelude.{◌≡◌, ◌+◌, ◌*◌, ◌^◌, ◌<◌, [], length};
ghost use Rattle.syn_rows.specs.declared.TheConstants.{NODE_LIMIT};
ghost use Rattle.syn_table.specs.Openings.{opened_literals};
ghost use Rattle.syn_table.specs.Rule.{IsActive, IsCore, first_known};

mod closed;
mod keys;
mod plays;
mod seats;
mod starts;
mod steps;
mod stores;
mod words;

use arrayvec::ArrayVec;
use atomic_table::{Table, TableRule};
pub use closed::Rows;
pub use keys::{KEY_GAP, between, spread, worked_keys};
use std::alloc::Global;
use std::collections::LinkedList;
use std::snapshot::Snapshot;
use syn_core_laws::View;
use syn_graph::Graph;
use syn_lists::Items;
use syn_rows::{Lit, Row};

/// What a table is opened with.
#[derive(Drop)]
pub struct Opening {
    /// The graph, as contracts see it.
    pub graph: Snapshot<Graph>,
    /// The number of spare nodes behind the graph's.
    pub spare: u32,
}

/// What a seat knows, as plain data. No value of it is made: contracts see a seat as one.
pub struct Known {
    /// What the core says of it.
    pub core: View,
    /// The seat's numbers, each below 64. The first is its own, the others are handed on when it splits.
    pub numbers: LinkedList<u32>,
    /// The rows at the start, spare ones included.
    pub opening: LinkedList<Row>,
    /// The literals whose values are kept.
    pub observed: LinkedList<Lit>,
}

/// The rule of the table: its words and what its seats know are a core state that is sound.
pub struct Law;

impl TableRule<u8, Known, Opening> for Law {
    ghost holds = { IsCore };

    ghost first = { first_known };
}

/// A graph that is open to many seats, each in one thread's hands.
#[derive(Drop)]
pub struct Shared {
    table: Table<u8, Known, Opening, Law, Global>,
    nodes: u32,
    observed: Items<Lit>,
    ghost words: { table.shared.table_id.words ≡ 1 + 4 * nodes },
    ghost slots: { table.shared.table_id.slots ≡ 0 },
    ghost few: { nodes < NODE_LIMIT },
    ghost literals: { observed ≡ opened_literals table.shared.key },
}

/// A seat at a shared table: what its steps have claimed and pinned is its own to change.
#[derive(Drop)]
pub struct Seat {
    token: atomic_table::Seat<u8, Known>,
    numbers: ArrayVec<u8, 64>,
    ghost numbers_known: { token.me.0.numbers ≡ numbers.items },
    ghost active: { IsActive token.me.0 },
    ghost no_slots: { token.me.1 ≡ [] },
    ghost words: { token.table_id.words ≡ 1 + 4 * length token.me.0.opening },
}
