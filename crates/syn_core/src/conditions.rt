//! Whether a seat's own knowledge allows an event.

ghost use Rattle.std.specs.Prelude.{◌≡◌, ◌≢◌, ℕ, ◌+◌, ◌*◌, ◌^◌, ◌<◌, ◌≤◌, ◌==◌, ◌||◌, ◌&&◌, ◌⊎◌, ◌++◌, not, true, false, Some, None, length, IsTrue, ◌↔◌, IfOk, if◌then◌else◌};
ghost use Rattle.syn_rows.specs.declared.Row.{Row};
ghost use Rattle.syn_rows.specs.declared.Row.TheVariants as RowIs;
ghost use Rattle.syn_rows.specs.References.{refs};
ghost use Rattle.syn_rows.specs.Rows.{AllRefs, refs_of, is_derived};
ghost use Rattle.syn_rows.specs.Nodes.{has_node};
ghost use Rattle.syn_core_laws.specs.Lists.{look};
ghost use Rattle.syn_core_laws.specs.Views.{is_mine, known_row, known_key, own_pins, pins_after};
ghost use Rattle.syn_core.specs.Conditions.{refers_by, any_node, is_served};
ghost use Rattle.syn_core_laws.specs.Events.{Refers, KnowsUsed, MayPin, KeyBelow, MayRest, MayRedefine, MayFree, IsAnd};
ghost use Rattle.syn_core_laws.specs.SameValue.{SameValue};

use crate::lists::{look, refs, times, with_each, without_each};
use crate::seat_views::SeatView;
use crate::values::same_value;
use std::alloc::{AllocError, Global};
use syn_rows::{Lit, Row, has_node};

impl SeatView {
    pub(crate) fn knows_used(&self, node: u32) -> bool
        ensures { IsTrue result ↔ (KnowsUsed self.now node) }
    {
        match look(self.rows.as_slice(), node) {
            None => false,
            Some(Row::Free) => false,
            Some(_) => true,
        }
    }

    pub(crate) fn knows_free(&self, node: u32) -> bool
        ensures { IsTrue result ↔ (known_row self.now node ≡ Some RowIs.Free) }
    {
        match look(self.rows.as_slice(), node) {
            Some(Row::Free) => true,
            _ => false,
        }
    }

    pub(crate) fn is_mine(&self, node: u32) -> bool
        ensures { result ≡ is_mine self.now node }
    {
        has_node(self.held.as_slice(), node) || has_node(self.pins.as_slice(), node)
    }

    pub(crate) fn known_key(&self, node: u32) -> Option<u64>
        ensures { result ≡ known_key self.now node }
    {
        if node == 0 {
            Some(0)
        } else {
            look(self.keys.as_slice(), node)
        }
    }

    pub(crate) fn key_below(&self, key: u64, node: u32) -> bool
        ensures { IsTrue result ↔ (KeyBelow self.now key node) }
    {
        match self.known_key(node) {
            Some(known) => known < key,
            None => false,
        }
    }

    pub(crate) fn refers(&self, node: u32) -> bool
        ensures { IsTrue result ↔ (Refers self.now node) }
    {
        any_refers(self.rows.as_slice(), node)
    }

    pub(crate) fn may_pin(&self, node: u32) -> bool
        ensures { IsTrue result ↔ (MayPin self.now node) }
    {
        self.knows_used(node) || self.refers(node) || has_node(self.pins.as_slice(), node)
    }

    /// Whether there is a pin for each place of the row.
    pub(crate) fn serves(&self, row: Row) -> bool
        ensures { IsTrue result ↔ ((m : ℕ) → refs m row ≤ own_pins self.now m) }
    {
        is_served(self.pins.as_slice(), row)
    }

    pub(crate) fn keys_below(&self, key: u64, row: Row) -> bool
        ensures { IsTrue result ↔ (AllRefs (KeyBelow self.now key) row) }
    {
        match row {
            Row::Free => true,
            Row::Source => true,
            Row::And(a, b) => self.key_below(key, a.node()) && self.key_below(key, b.node()),
            Row::Alias(a) => self.key_below(key, a.node()),
        }
    }

    /// Whether a row of a node with this key may rest on the seat's pins.
    pub(crate) fn may_rest(&self, key: u64, row: Row) -> bool
        ensures { IsTrue result ↔ (MayRest self.now key row) }
    {
        self.serves(row) && self.keys_below(key, row)
    }

    /// Whether the pins stay few when the row's references become pins.
    pub(crate) fn has_room(&self, old: Row) -> bool
        ensures { IsTrue result ↔ (length (refs_of old ++ self.now.pins) ≤ 512) }
    {
        match old {
            Row::Free => self.pins.len() <= 512,
            Row::Source => self.pins.len() <= 512,
            Row::And(_, _) => self.pins.len() <= 510,
            Row::Alias(_) => self.pins.len() <= 511,
        }
    }

    /// Whether the pins stay few when the old row's references become pins and the new row's pins references.
    pub(crate) fn has_room_after(
        &self,
        alloc: Global,
        old: Row,
        new: Row,
    ) -> Result<bool, AllocError>
        ensures { IfOk result (λ b. IsTrue b ↔ (length (pins_after self.now old new) ≤ 512)) }
    {
        let less = without_each(alloc, new, self.pins.as_slice())?;
        let pins = with_each(alloc, old, less.as_slice())?;
        Ok(pins.len() <= 512)
    }

    /// Whether both rows have the same value, whatever values the nodes of `over` are given.
    pub(crate) fn same_value(
        &self,
        alloc: Global,
        over: &[u32],
        old: Row,
        new: Row,
    ) -> Result<bool, AllocError>
        ensures { IfOk result (λ b. IsTrue b ↔ (SameValue self.now over.now old new)) }
    {
        same_value(alloc, self.rows.as_slice(), over, old, new)
    }

    /// Whether a node with this key, known as `old`, may get the row, the pins left aside.
    pub(crate) fn may_turn(&self, key: u64, row: Row, over: &[u32], old: Row) -> bool
        ensures { IsTrue result ↔ ((is_derived old ≡ true) × (is_derived row ≡ true) × MayRest self.now key row × (length over.now ≤ 8)) }
    {
        old.is_derived() && row.is_derived() && self.may_rest(key, row) && over.len() <= 8
    }

    /// Whether the node, known as `old`, may be redefined.
    fn may_redefine_from(
        &self,
        alloc: Global,
        node: u32,
        key: u64,
        row: Row,
        over: &[u32],
        old: Row,
    ) -> Result<bool, AllocError>
        requires { known_row self.now node ≡ Some old }
        ensures { IfOk result (λ b. IsTrue b ↔ (MayRedefine self.now node key row over.now old)) }
    {
        if !self.may_turn(key, row, over, old) {
            return Ok(false);
        }
        if !self.has_room_after(alloc, old, row)? {
            return Ok(false);
        }
        self.same_value(alloc, over, old, row)
    }

    pub(crate) fn may_redefine(
        &self,
        alloc: Global,
        node: u32,
        key: u64,
        row: Row,
        over: &[u32],
    ) -> Result<bool, AllocError>
        ensures { IfOk result (λ b. IsTrue b ↔ ((old : Row) × MayRedefine self.now node key row over.now old)) }
    {
        match look(self.rows.as_slice(), node) {
            None => Ok(false),
            Some(old) => self.may_redefine_from(alloc, node, key, row, over, old),
        }
    }

    pub(crate) fn may_free(&self, node: u32) -> bool
        ensures { IsTrue result ↔ (MayFree self.now node) }
    {
        match look(self.rows.as_slice(), node) {
            None => has_node(self.idle.as_slice(), node),
            Some(old) => has_node(self.idle.as_slice(), node) && self.has_room(old),
        }
    }
}

fn is_served(pins: &[u32], row: Row) -> bool
    ensures { result ≡ is_served pins.now row }
{
    match row {
        Row::Free => true,
        Row::Source => true,
        Row::And(a, b) => {
            let first = refs(a.node(), row) <= times(pins, a.node());
            let second = refs(b.node(), row) <= times(pins, b.node());
            first && second
        }
        Row::Alias(a) => 1 <= times(pins, a.node()),
    }
}

pub(crate) fn is_and(row: Row) -> bool
    ensures { IsTrue result ↔ (IsAnd row) }
{
    match row {
        Row::And(_, _) => true,
        _ => false,
    }
}

fn refers_by(row: Option<Row>, node: u32) -> bool
    ensures { result ≡ refers_by node row }
{
    match row {
        Some(row) => node == 0 || refs(node, row) > 0,
        None => false,
    }
}

fn any_refers(rows: &[(u32, Row)], node: u32) -> bool
    ensures { result ≡ any_node (λ m. refers_by node (look m rows.now)) rows.now }
{
    for x in rows {
        let found = refers_by(look(rows, x.0), node);
        if found {
            return true;
        }
    }
    false
}
