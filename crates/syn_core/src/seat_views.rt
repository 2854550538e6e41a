//! What a seat knows, as values.

ghost use Rattle.std.specs.Prelude.{◌≡◌, ℕ, ◌+◌, ◌*◌, ◌^◌, ◌≤◌, ◌<◌, ◌==◌, ◌||◌, ◌&&◌, not, true, false, [], ◌∷◌, ◌++◌, length, IfOk, Some, None, if◌then◌else◌};
ghost use Rattle.syn_rows.specs.Nodes.{has_node};
ghost use Rattle.syn_core_laws.specs.Lists.{only, kept};
ghost use Rattle.syn_core_laws.specs.Views.{differs, trimmed, claimed, missed, released, row_loaded, pinned, unpinned, count_loaded, key_loaded, key_set, last_key, made, redefined, freed, is_mine, stays_sole, is_derived_known, refs_known};
ghost use Rattle.syn_rows.specs.References.{sum_below};
ghost use Rattle.syn_core_laws.specs.Lists.{look};

use crate::lists::{
    copied, look, others, others_told, refs, times, with, with_each, without_each, without_one,
};
use std::alloc::{AllocError, Global};
use std::marker::Model;
use syn_core_laws::{Change, Made, Seen, View};
use syn_fanout_free::and_count;
use syn_rows::{Lit, Row, has_node};

/// What a seat knows.
#[derive(Debug, Drop)]
pub struct SeatView {
    pub(crate) number: u32,
    pub(crate) held: Vec<u32>,
    pub(crate) rows: Vec<(u32, Row)>,
    pub(crate) keys: Vec<(u32, u64)>,
    pub(crate) pins: Vec<u32>,
    pub(crate) idle: Vec<u32>,
    pub(crate) misses: Vec<u32>,
    pub(crate) reads: Vec<Seen>,
    pub(crate) changes: Vec<Change>,
    pub(crate) makes: Vec<Made>,
    pub(crate) difference: i64,
    pub(crate) sole: Vec<u32>,
}

impl Model for SeatView {
    ghost use Rattle.syn_core_laws.specs.declared.View.{View};

    ghost Value = { View };

    ghost view = { λ p. record { number = p.number; held = p.held.items; rows = p.rows.items; keys = p.keys.items; pins = p.pins.items; idle = p.idle.items; misses = p.misses.items; reads = p.reads.items; changes = p.changes.items; makes = p.makes.items; difference = p.difference; sole = p.sole.items } };
}

impl SeatView {
    pub(crate) fn misses(&self) -> &[u32]
        ensures { result.now ≡ self.now.misses }
    {
        self.misses.as_slice()
    }

    pub(crate) fn reads(&self) -> &[Seen]
        ensures { result.now ≡ self.now.reads }
    {
        self.reads.as_slice()
    }

    pub(crate) fn difference(&self) -> i64
        ensures { result ≡ self.now.difference }
    {
        self.difference
    }

    pub(crate) fn copied(&self, alloc: Global) -> Result<SeatView, AllocError>
        ensures { IfOk result (λ p. p ≡ self.now) }
    {
        Ok(SeatView {
            number: self.number,
            held: copied(alloc, self.held.as_slice())?,
            rows: copied(alloc, self.rows.as_slice())?,
            keys: copied(alloc, self.keys.as_slice())?,
            pins: copied(alloc, self.pins.as_slice())?,
            idle: copied(alloc, self.idle.as_slice())?,
            misses: copied(alloc, self.misses.as_slice())?,
            reads: copied(alloc, self.reads.as_slice())?,
            changes: copied(alloc, self.changes.as_slice())?,
            makes: copied(alloc, self.makes.as_slice())?,
            difference: self.difference,
            sole: copied(alloc, self.sole.as_slice())?,
        })
    }

    pub(crate) fn claimed(&self, alloc: Global, node: u32) -> Result<SeatView, AllocError>
        ensures { IfOk result (λ p. p ≡ claimed self.now node) }
    {
        let mut view = self.copied(alloc)?;
        view.held = with(alloc, node, view.held.as_slice())?;
        Ok(view)
    }

    pub(crate) fn missed(&self, alloc: Global, node: u32) -> Result<SeatView, AllocError>
        ensures { IfOk result (λ p. p ≡ missed self.now node) }
    {
        let mut view = self.copied(alloc)?;
        view.misses.push(node)?;
        view.reads.push(Seen::Miss(node))?;
        Ok(view)
    }

    pub(crate) fn row_loaded(
        &self,
        alloc: Global,
        node: u32,
        row: Row,
    ) -> Result<SeatView, AllocError>
        ensures { IfOk result (λ p. p ≡ row_loaded self.now node row) }
    {
        let mut view = self.copied(alloc)?;
        view.rows = with(alloc, (node, row), view.rows.as_slice())?;
        view.reads.push(Seen::Row(node, row))?;
        Ok(view)
    }

    pub(crate) fn pinned(&self, alloc: Global, node: u32) -> Result<SeatView, AllocError>
        ensures { IfOk result (λ p. p ≡ pinned self.now node) }
    {
        let mut view = self.copied(alloc)?;
        view.pins = with(alloc, node, view.pins.as_slice())?;
        view.idle = others(alloc, view.idle.as_slice(), node)?;
        Ok(view)
    }

    pub(crate) fn key_loaded(
        &self,
        alloc: Global,
        node: u32,
        key: u64,
    ) -> Result<SeatView, AllocError>
        ensures { IfOk result (λ p. p ≡ key_loaded self.now node key) }
    {
        let mut view = self.copied(alloc)?;
        view.keys = with(alloc, (node, key), view.keys.as_slice())?;
        view.reads.push(Seen::Key(node, key))?;
        Ok(view)
    }

    pub(crate) fn key_set(&self, alloc: Global, node: u32, key: u64) -> Result<SeatView, AllocError>
        ensures { IfOk result (λ p. p ≡ key_set self.now node key) }
    {
        let mut view = self.copied(alloc)?;
        view.keys = with(alloc, (node, key), view.keys.as_slice())?;
        Ok(view)
    }

    /// The seat's keys of held or pinned nodes alone.
    pub(crate) fn trimmed(self, alloc: Global) -> Result<SeatView, AllocError>
        ensures { IfOk result (λ p. p ≡ trimmed self) }
    {
        let mut view = self;
        let keys = mine_told(
            alloc,
            view.held.as_slice(),
            view.pins.as_slice(),
            view.keys.as_slice(),
        )?;
        view.keys = keys;
        Ok(view)
    }

    fn sole_after_release(&self, alloc: Global, node: u32) -> Result<Vec<u32>, AllocError>
        ensures { IfOk result (λ r. r.items ≡ only (stays_sole self.now node) self.now.sole) }
    {
        still_sole(alloc, self.sole.as_slice(), node, self.rows.as_slice())
    }

    pub(crate) fn released(&self, alloc: Global, node: u32) -> Result<SeatView, AllocError>
        ensures { IfOk result (λ p. p ≡ released self.now node) }
    {
        let mut view = self.copied(alloc)?;
        view.held = others(alloc, self.held.as_slice(), node)?;
        view.rows = others_told(alloc, self.rows.as_slice(), node)?;
        view.sole = self.sole_after_release(alloc, node)?;
        view.trimmed(alloc)
    }

    pub(crate) fn unpinned(
        &self,
        alloc: Global,
        node: u32,
        count: u32,
    ) -> Result<SeatView, AllocError>
        ensures { IfOk result (λ p. p ≡ unpinned self.now node count) }
    {
        let mut view = self.copied(alloc)?;
        view.pins = without_one(alloc, node, self.pins.as_slice())?;
        let row = look(self.rows.as_slice(), node);
        view.idle = idle_after(alloc, self.idle.as_slice(), node, count, row)?;
        view.trimmed(alloc)
    }

    pub(crate) fn count_loaded(
        &self,
        alloc: Global,
        nodes: usize,
        node: u32,
        count: u32,
    ) -> Result<SeatView, AllocError>
        requires nodes { nodes < 2 ^ 32 }
        requires pins { length self.now.pins < 2 ^ 32 }
        ensures { IfOk result (λ p. p ≡ count_loaded nodes self.now node count) }
    {
        let mut view = self.copied(alloc)?;
        let own = times(self.pins.as_slice(), node);
        let known = own_refs(self.rows.as_slice(), nodes, node);
        view.sole = sole_after(
            alloc,
            self.sole.as_slice(),
            node,
            count as usize,
            known,
            own,
        )?;
        view.reads.push(Seen::Count {
            node,
            count,
            own: own as u32,
        })?;
        Ok(view)
    }

    /// The key of the node that the seat loaded or stored last, 0 where there is none.
    fn last_key(&self, node: u32) -> u64
        ensures { result ≡ last_key self.now node }
    {
        match look(self.keys.as_slice(), node) {
            Some(key) => key,
            None => 0,
        }
    }

    pub(crate) fn made(&self, alloc: Global, node: u32, row: Row) -> Result<SeatView, AllocError>
        ensures { IfOk result (λ p. p ≡ made self.now node row) }
    {
        let mut view = self.copied(alloc)?;
        view.pins = without_each(alloc, row, self.pins.as_slice())?;
        view.rows = with(alloc, (node, row), self.rows.as_slice())?;
        view.idle = with(alloc, node, self.idle.as_slice())?;
        let key = self.last_key(node);
        view.makes.push(Made { node, row, key })?;
        let Some(difference) = self.difference.checked_add(1) else {
            return Err(AllocError)
        };
        view.difference = difference;
        view.trimmed(alloc)
    }

    pub(crate) fn redefined(
        &self,
        alloc: Global,
        node: u32,
        old: Row,
        new: Row,
    ) -> Result<SeatView, AllocError>
        ensures { IfOk result (λ p. p ≡ redefined self.now node old new) }
    {
        let mut view = self.copied(alloc)?;
        let less = without_each(alloc, new, self.pins.as_slice())?;
        view.pins = with_each(alloc, old, less.as_slice())?;
        view.rows = with(alloc, (node, new), self.rows.as_slice())?;
        view.changes.push(Change { node, old, new })?;
        let Some(more) = self.difference.checked_add(i64::from(and_count(new))) else {
            return Err(AllocError)
        };
        let Some(difference) = more.checked_sub(i64::from(and_count(old))) else {
            return Err(AllocError)
        };
        view.difference = difference;
        view.trimmed(alloc)
    }

    pub(crate) fn freed(&self, alloc: Global, node: u32, old: Row) -> Result<SeatView, AllocError>
        ensures { IfOk result (λ p. p ≡ freed self.now node old) }
    {
        let mut view = self.copied(alloc)?;
        view.pins = with_each(alloc, old, self.pins.as_slice())?;
        view.rows = with(alloc, (node, Row::Free), self.rows.as_slice())?;
        view.idle = others(alloc, self.idle.as_slice(), node)?;
        view.changes.push(Change {
            node,
            old,
            new: Row::Free,
        })?;
        let Some(difference) = self.difference.checked_sub(i64::from(and_count(old))) else {
            return Err(AllocError)
        };
        view.difference = difference;
        Ok(view)
    }
}

fn is_derived_known(row: Option<Row>) -> bool
    ensures { result ≡ is_derived_known row }
{
    match row {
        Some(row) => row.is_derived(),
        None => false,
    }
}

/// The references of a known row to the node.
fn refs_known(node: u32, row: Option<Row>) -> usize
    ensures number { result ≡ refs_known node row }
    ensures few { result ≤ 2 }
{
    match row {
        Some(row) => refs(node, row),
        None => 0,
    }
}

/// The references to the node from known rows.
fn own_refs(rows: &[(u32, Row)], nodes: usize, node: u32) -> usize
    requires { nodes < 2 ^ 32 }
    ensures number { result ≡ sum_below nodes (λ n. refs_known node (look n rows.now)) }
    ensures few { result ≤ 2 * nodes }
{
    let mut sum = 0;
    for n in 0..nodes {
        sum += refs_known(node, look(rows, n as u32));
    }
    sum
}

fn mine_told(
    alloc: Global,
    held: &[u32],
    pins: &[u32],
    keys: &[(u32, u64)],
) -> Result<Vec<(u32, u64)>, AllocError>
    ensures { IfOk result (λ r. r.items ≡ kept (λ n. has_node held.now n || has_node pins.now n) keys.now) }
{
    let mut out = Vec::new(alloc);
    for x in keys {
        let mine = has_node(held, x.0) || has_node(pins, x.0);
        if mine {
            out.push(*x)?;
        }
    }
    Ok(out)
}

fn still_sole(
    alloc: Global,
    sole: &[u32],
    node: u32,
    rows: &[(u32, Row)],
) -> Result<Vec<u32>, AllocError>
    ensures { IfOk result (λ r. r.items ≡ only (λ m. differs node m && (refs_known m (look node rows.now) == 0)) sole.now) }
{
    let mut out = Vec::new(alloc);
    for x in sole {
        let row = look(rows, node);
        let stays = *x != node && refs_known(*x, row) == 0;
        if stays {
            out.push(*x)?;
        }
    }
    Ok(out)
}

fn idle_after(
    alloc: Global,
    idle: &[u32],
    node: u32,
    count: u32,
    row: Option<Row>,
) -> Result<Vec<u32>, AllocError>
    ensures { IfOk result (λ r. r.items ≡ (if (count == 1) && is_derived_known row then node ∷ idle.now else idle.now)) }
{
    if count == 1 && is_derived_known(row) {
        with(alloc, node, idle)
    } else {
        copied(alloc, idle)
    }
}

fn sole_after(
    alloc: Global,
    sole: &[u32],
    node: u32,
    count: usize,
    known: usize,
    own: usize,
) -> Result<Vec<u32>, AllocError>
    requires { known + own < 2 ^ 64 }
    ensures { IfOk result (λ r. r.items ≡ (if differs 0 node && (count == known + own) then node ∷ sole.now else sole.now)) }
{
    if node != 0 && count == known + own {
        with(alloc, node, sole)
    } else {
        copied(alloc, sole)
    }
}
