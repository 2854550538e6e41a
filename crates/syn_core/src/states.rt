//! The core as values.

ghost use Rattle.std.specs.Prelude.{◌≡◌, ℕ, ◌<◌, length, IfOk, slice_index, slice_set};
ghost use Rattle.syn_rows.specs.Rows.{row_at};
ghost use Rattle.syn_core_laws.specs.Cores.{Core};
ghost use Rattle.syn_core_laws.specs.Events.{sits};
ghost use Rattle.syn_core_laws.specs.Openings.{view_at};

use crate::lists::copied;
use crate::seat_views::SeatView;
use std::alloc::{AllocError, Global};
use std::marker::Model;
use syn_core_laws::Seen;
use syn_rows::{Lit, Row};

/// The state of the core.
#[derive(Drop)]
pub struct State {
    pub(crate) alloc: Global,
    pub(crate) claims: Vec<u32>,
    pub(crate) rows: Vec<Row>,
    pub(crate) counts: Vec<u32>,
    pub(crate) keys: Vec<u64>,
    pub(crate) observed: Vec<Lit>,
    pub(crate) opening: Vec<Row>,
    pub(crate) seats: Vec<SeatView>,
}

impl Model for State {
    ghost use Rattle.syn_core_laws.specs.Cores.{Core};

    ghost Value = { Core };

    ghost view = { λ s. record { claims = s.claims.items; rows = s.rows.items; counts = s.counts.items; keys = s.keys.items; observed = s.observed.items; opening = s.opening.items; seats = s.seats.items } };
}

impl State {
    /// The node's row; `Free` where the node isn't there.
    pub fn row(&self, node: u32) -> Row
        ensures { result ≡ row_at self.now.rows node }
    {
        row_in(self.rows.as_slice(), node)
    }

    /// The node's claim: 0, or the number of the seat that holds it plus 1.
    pub fn claim(&self, node: u32) -> u32
        ensures { result ≡ slice_index self.now.claims node }
    {
        number_in(self.claims.as_slice(), node)
    }

    /// The node's count: how often rows, observed literals and pins refer to it.
    pub fn count(&self, node: u32) -> u32
        ensures { result ≡ slice_index self.now.counts node }
    {
        number_in(self.counts.as_slice(), node)
    }

    /// The node's key, which is above those of the nodes that its row refers to.
    pub fn key(&self, node: u32) -> u64
        ensures { result ≡ slice_index self.now.keys node }
    {
        key_in(self.keys.as_slice(), node)
    }

    /// The nodes that the seat failed to claim, in order.
    pub fn misses(&self, seat: u8) -> &[u32]
        ensures { result.now ≡ (view_at self.now seat).misses }
    {
        if (seat as usize) < self.seats.len() {
            self.view(seat as usize).misses()
        } else {
            &[]
        }
    }

    /// What the seat's loads and failed claims met, in order.
    pub fn reads(&self, seat: u8) -> &[Seen]
        ensures { result.now ≡ (view_at self.now seat).reads }
    {
        if (seat as usize) < self.seats.len() {
            self.view(seat as usize).reads()
        } else {
            &[]
        }
    }

    /// How many AND rows the seat made more than it took away.
    pub fn difference(&self, seat: u8) -> i64
        ensures { result ≡ (view_at self.now seat).difference }
    {
        if (seat as usize) < self.seats.len() {
            self.view(seat as usize).difference()
        } else {
            0
        }
    }

    pub(crate) fn copied(&self) -> Result<State, AllocError>
        ensures { IfOk result (λ s. s ≡ self.now) }
    {
        let alloc = self.alloc;
        Ok(State {
            alloc,
            claims: copied(alloc, self.claims.as_slice())?,
            rows: copied(alloc, self.rows.as_slice())?,
            counts: copied(alloc, self.counts.as_slice())?,
            keys: copied(alloc, self.keys.as_slice())?,
            observed: copied(alloc, self.observed.as_slice())?,
            opening: copied(alloc, self.opening.as_slice())?,
            seats: copied_views(alloc, self.seats.as_slice())?,
        })
    }

    pub(crate) fn view(&self, seat: usize) -> &SeatView
        requires { seat < length self.now.seats }
        ensures { result.now ≡ view_at self.now seat }
    {
        &self.seats[seat]
    }

    pub(crate) fn sit(&mut self, seat: usize, view: SeatView)
        requires { seat < length self.old.seats }
        ensures { self.new ≡ sits self.old seat view }
    {
        self.seats[seat] = view;
    }

    pub(crate) fn store_claim(&mut self, node: u32, claim: u32)
        ensures { self.new ≡ record self.old { claims = slice_set self.old.claims node claim } }
    {
        store_number(self.claims.as_mut_slice(), node, claim);
    }

    pub(crate) fn store_count(&mut self, node: u32, count: u32)
        ensures { self.new ≡ record self.old { counts = slice_set self.old.counts node count } }
    {
        store_number(self.counts.as_mut_slice(), node, count);
    }

    pub(crate) fn store_key(&mut self, node: u32, key: u64)
        ensures { self.new ≡ record self.old { keys = slice_set self.old.keys node key } }
    {
        let index = node as usize;
        let keys = self.keys.as_mut_slice();
        store_key_in(keys, index, key);
    }

    pub(crate) fn store_row(&mut self, node: u32, row: Row)
        ensures { self.new ≡ record self.old { rows = slice_set self.old.rows node row } }
    {
        let index = node as usize;
        let rows = self.rows.as_mut_slice();
        store_row_in(rows, index, row);
    }
}

fn copied_views(alloc: Global, views: &[SeatView]) -> Result<Vec<SeatView>, AllocError>
    ensures { IfOk result (λ r. r.items ≡ views.now) }
{
    let mut out = Vec::new(alloc);
    for view in views {
        out.push(view.copied(alloc)?)?;
    }
    Ok(out)
}

fn store_key_in(keys: &mut [u64], index: usize, key: u64)
    ensures { keys.new ≡ slice_set keys.old index key }
{
    if index < keys.len() {
        keys[index] = key;
    }
}

fn store_row_in(rows: &mut [Row], index: usize, row: Row)
    ensures { rows.new ≡ slice_set rows.old index row }
{
    if index < rows.len() {
        rows[index] = row;
    }
}

pub(crate) fn row_in(rows: &[Row], node: u32) -> Row
    ensures { result ≡ row_at rows.now node }
{
    let index = node as usize;
    if index < rows.len() {
        rows[index]
    } else {
        Row::Free
    }
}

fn number_in(numbers: &[u32], node: u32) -> u32
    ensures { result ≡ slice_index numbers.now node }
{
    let index = node as usize;
    if index < numbers.len() {
        numbers[index]
    } else {
        0
    }
}

fn key_in(keys: &[u64], node: u32) -> u64
    ensures { result ≡ slice_index keys.now node }
{
    let index = node as usize;
    if index < keys.len() { keys[index] } else { 0 }
}

fn store_number(numbers: &mut [u32], node: u32, x: u32)
    ensures { numbers.new ≡ slice_set numbers.old node x }
{
    let index = node as usize;
    if index < numbers.len() {
        numbers[index] = x;
    }
}
