//! The events: each is tested, and then done.

ghost use Rattle.std.specs.Prelude.{◌≡◌, ◌↔◌, ◌<◌, length, IfOk, IsTrue, OnOk, OnErr, IsErrOf};
ghost use Rattle.syn_core.specs.declared.StepFault.TheVariants as Fault;
ghost use Rattle.syn_core_laws.specs.declared.EventKind.TheVariants as Kind;
ghost use Rattle.syn_core_laws.specs.Events.{Allowed, after};
ghost use Rattle.syn_core_laws.specs.Openings.{view_at};
ghost use Rattle.syn_core.specs.Conditions.{IsAllowedAt, MayAt, Does};
ghost use Rattle.syn_core_laws.specs.Runs.{Steps};
ghost use Rattle.syn_core_laws.specs.Sound.{IsSound};

use crate::StepFault;
use crate::conditions::is_and;
use crate::states::State;
use arrayvec::ArrayVec;
use std::alloc::AllocError;
use syn_core_laws::{Event, EventKind};
use syn_rows::{Row, has_node};

impl State {
    fn may_claim(&self, seat: usize, node: u32) -> bool
        requires { seat < length self.now.seats }
        ensures { IsTrue result ↔ MayAt self.now seat (Kind.Claim node) }
    {
        self.claim(node) == 0 && !has_node(self.view(seat).held.as_slice(), node)
    }

    fn step_claim(&mut self, seat: usize, node: u32) -> Result<(), StepFault>
        requires seat { seat < length self.old.seats }
        requires number { (view_at self.old seat).number < 64 }
        ensures ok { OnOk result (Does self.old seat (Kind.Claim node) self.new) }
        ensures refused { IsErrOf result Fault.NotAllowed → MayAt self.old seat (Kind.Claim node) → ⊥ }
        ensures same { OnErr result (self.new ≡ self.old) }
    {
        if !self.may_claim(seat, node) {
            return Err(StepFault::NotAllowed);
        }
        let number = self.view(seat).number;
        let view = self.view(seat).claimed(self.alloc, node)?;
        self.store_claim(node, number + 1);
        self.sit(seat, view);
        Ok(())
    }

    fn may_miss(&self, seat: usize, node: u32) -> bool
        requires { seat < length self.now.seats }
        ensures { IsTrue result ↔ MayAt self.now seat (Kind.ClaimFailed node) }
    {
        self.claim(node) != 0 && !has_node(self.view(seat).held.as_slice(), node)
    }

    fn step_miss(&mut self, seat: usize, node: u32) -> Result<(), StepFault>
        requires seat { seat < length self.old.seats }
        ensures ok { OnOk result (Does self.old seat (Kind.ClaimFailed node) self.new) }
        ensures refused { IsErrOf result Fault.NotAllowed → MayAt self.old seat (Kind.ClaimFailed node) → ⊥ }
        ensures same { OnErr result (self.new ≡ self.old) }
    {
        if !self.may_miss(seat, node) {
            return Err(StepFault::NotAllowed);
        }
        let view = self.view(seat).missed(self.alloc, node)?;
        self.sit(seat, view);
        Ok(())
    }

    fn may_release(&self, seat: usize, node: u32) -> bool
        requires { seat < length self.now.seats }
        ensures { IsTrue result ↔ MayAt self.now seat (Kind.Release node) }
    {
        has_node(self.view(seat).held.as_slice(), node)
            && !has_node(self.view(seat).idle.as_slice(), node)
    }

    fn step_release(&mut self, seat: usize, node: u32) -> Result<(), StepFault>
        requires seat { seat < length self.old.seats }
        ensures ok { OnOk result (Does self.old seat (Kind.Release node) self.new) }
        ensures refused { IsErrOf result Fault.NotAllowed → MayAt self.old seat (Kind.Release node) → ⊥ }
        ensures same { OnErr result (self.new ≡ self.old) }
    {
        if !self.may_release(seat, node) {
            return Err(StepFault::NotAllowed);
        }
        let view = self.view(seat).released(self.alloc, node)?;
        self.store_claim(node, 0);
        self.sit(seat, view);
        Ok(())
    }

    fn may_load_row(&self, seat: usize, node: u32) -> bool
        requires { seat < length self.now.seats }
        ensures { IsTrue result ↔ MayAt self.now seat (Kind.LoadRow node) }
    {
        has_node(self.view(seat).held.as_slice(), node)
    }

    fn step_load_row(&mut self, seat: usize, node: u32) -> Result<(), StepFault>
        requires seat { seat < length self.old.seats }
        ensures ok { OnOk result (Does self.old seat (Kind.LoadRow node) self.new) }
        ensures refused { IsErrOf result Fault.NotAllowed → MayAt self.old seat (Kind.LoadRow node) → ⊥ }
        ensures same { OnErr result (self.new ≡ self.old) }
    {
        if !self.may_load_row(seat, node) {
            return Err(StepFault::NotAllowed);
        }
        let row = self.row(node);
        let view = self.view(seat).row_loaded(self.alloc, node, row)?;
        self.sit(seat, view);
        Ok(())
    }

    fn may_pin(&self, seat: usize, node: u32) -> bool
        requires { seat < length self.now.seats }
        ensures { IsTrue result ↔ MayAt self.now seat (Kind.Pin node) }
    {
        self.view(seat).may_pin(node) && self.view(seat).pins.len() < 512
    }

    fn step_pin(&mut self, seat: usize, node: u32) -> Result<(), StepFault>
        requires seat { seat < length self.old.seats }
        ensures ok { OnOk result (Does self.old seat (Kind.Pin node) self.new) }
        ensures refused { IsErrOf result Fault.NotAllowed → MayAt self.old seat (Kind.Pin node) → ⊥ }
        ensures same { OnErr result (self.new ≡ self.old) }
    {
        if !self.may_pin(seat, node) {
            return Err(StepFault::NotAllowed);
        }
        let Some(count) = self.count(node).checked_add(1) else {
            return Err(StepFault::NoMemory)
        };
        let view = self.view(seat).pinned(self.alloc, node)?;
        self.store_count(node, count);
        self.sit(seat, view);
        Ok(())
    }

    fn may_unpin(&self, seat: usize, node: u32) -> bool
        requires { seat < length self.now.seats }
        ensures { IsTrue result ↔ MayAt self.now seat (Kind.Unpin node) }
    {
        has_node(self.view(seat).pins.as_slice(), node)
    }

    fn step_unpin(&mut self, seat: usize, node: u32) -> Result<(), StepFault>
        requires seat { seat < length self.old.seats }
        ensures ok { OnOk result (Does self.old seat (Kind.Unpin node) self.new) }
        ensures refused { IsErrOf result Fault.NotAllowed → MayAt self.old seat (Kind.Unpin node) → ⊥ }
        ensures same { OnErr result (self.new ≡ self.old) }
    {
        if !self.may_unpin(seat, node) {
            return Err(StepFault::NotAllowed);
        }
        let count = self.count(node);
        let view = self.view(seat).unpinned(self.alloc, node, count)?;
        self.store_count(node, count.saturating_sub(1));
        self.sit(seat, view);
        Ok(())
    }

    fn may_load_count(&self, seat: usize, node: u32) -> bool
        requires { seat < length self.now.seats }
        ensures { IsTrue result ↔ MayAt self.now seat (Kind.LoadCount node) }
    {
        has_node(self.view(seat).held.as_slice(), node)
    }

    fn step_load_count(&mut self, seat: usize, node: u32) -> Result<(), StepFault>
        requires seat { seat < length self.old.seats }
        ensures ok { OnOk result (Does self.old seat (Kind.LoadCount node) self.new) }
        ensures refused { IsErrOf result Fault.NotAllowed → MayAt self.old seat (Kind.LoadCount node) → ⊥ }
        ensures same { OnErr result (self.new ≡ self.old) }
    {
        if !self.may_load_count(seat, node) {
            return Err(StepFault::NotAllowed);
        }
        let nodes = self.rows.len();
        if nodes >= 1 << 32 || self.view(seat).pins.len() >= 1 << 32 {
            return Err(StepFault::NoMemory);
        }
        let count = self.count(node);
        let view = self
            .view(seat)
            .count_loaded(self.alloc, nodes, node, count)?;
        self.sit(seat, view);
        Ok(())
    }

    fn may_load_key(&self, seat: usize, node: u32) -> bool
        requires { seat < length self.now.seats }
        ensures { IsTrue result ↔ MayAt self.now seat (Kind.LoadKey node) }
    {
        self.view(seat).is_mine(node)
    }

    fn step_load_key(&mut self, seat: usize, node: u32) -> Result<(), StepFault>
        requires seat { seat < length self.old.seats }
        ensures ok { OnOk result (Does self.old seat (Kind.LoadKey node) self.new) }
        ensures refused { IsErrOf result Fault.NotAllowed → MayAt self.old seat (Kind.LoadKey node) → ⊥ }
        ensures same { OnErr result (self.new ≡ self.old) }
    {
        if !self.may_load_key(seat, node) {
            return Err(StepFault::NotAllowed);
        }
        let key = self.key(node);
        let view = self.view(seat).key_loaded(self.alloc, node, key)?;
        self.sit(seat, view);
        Ok(())
    }

    fn may_set_key(&self, seat: usize, node: u32, key: u64) -> bool
        requires { seat < length self.now.seats }
        ensures { IsTrue result ↔ MayAt self.now seat (Kind.SetKey node key) }
    {
        let _ = key;
        self.view(seat).knows_free(node)
    }

    fn step_set_key(&mut self, seat: usize, node: u32, key: u64) -> Result<(), StepFault>
        requires seat { seat < length self.old.seats }
        ensures ok { OnOk result (Does self.old seat (Kind.SetKey node key) self.new) }
        ensures refused { IsErrOf result Fault.NotAllowed → MayAt self.old seat (Kind.SetKey node key) → ⊥ }
        ensures same { OnErr result (self.new ≡ self.old) }
    {
        if !self.may_set_key(seat, node, key) {
            return Err(StepFault::NotAllowed);
        }
        let view = self.view(seat).key_set(self.alloc, node, key)?;
        self.store_key(node, key);
        self.sit(seat, view);
        Ok(())
    }

    fn may_make(&self, seat: usize, node: u32, row: Row) -> bool
        requires { seat < length self.now.seats }
        ensures { IsTrue result ↔ MayAt self.now seat (Kind.Make node row) }
    {
        let view = self.view(seat);
        view.knows_free(node) && is_and(row) && view.may_rest(self.key(node), row)
    }

    fn step_make(&mut self, seat: usize, node: u32, row: Row) -> Result<(), StepFault>
        requires seat { seat < length self.old.seats }
        ensures ok { OnOk result (Does self.old seat (Kind.Make node row) self.new) }
        ensures refused { IsErrOf result Fault.NotAllowed → MayAt self.old seat (Kind.Make node row) → ⊥ }
        ensures same { OnErr result (self.new ≡ self.old) }
    {
        if !self.may_make(seat, node, row) {
            return Err(StepFault::NotAllowed);
        }
        let view = self.view(seat).made(self.alloc, node, row)?;
        self.store_row(node, row);
        self.sit(seat, view);
        Ok(())
    }

    fn may_redefine(
        &self,
        seat: usize,
        node: u32,
        row: Row,
        over: &ArrayVec<u32, 8>,
    ) -> Result<bool, AllocError>
        requires { seat < length self.now.seats }
        ensures { IfOk result (λ b. IsTrue b ↔ MayAt self.now seat (Kind.Redefine node row over.now)) }
    {
        self.view(seat)
            .may_redefine(self.alloc, node, self.key(node), row, over.as_slice())
    }

    fn step_redefine(
        &mut self,
        seat: usize,
        node: u32,
        row: Row,
        over: &ArrayVec<u32, 8>,
    ) -> Result<(), StepFault>
        requires seat { seat < length self.old.seats }
        ensures ok { OnOk result (Does self.old seat (Kind.Redefine node row over.now) self.new) }
        ensures refused { IsErrOf result Fault.NotAllowed → MayAt self.old seat (Kind.Redefine node row over.now) → ⊥ }
        ensures same { OnErr result (self.new ≡ self.old) }
    {
        if !self.may_redefine(seat, node, row, over)? {
            return Err(StepFault::NotAllowed);
        }
        let old = self.row(node);
        let view = self.view(seat).redefined(self.alloc, node, old, row)?;
        self.store_row(node, row);
        self.sit(seat, view);
        Ok(())
    }

    fn may_free(&self, seat: usize, node: u32) -> bool
        requires { seat < length self.now.seats }
        ensures { IsTrue result ↔ MayAt self.now seat (Kind.Free node) }
    {
        self.view(seat).may_free(node)
    }

    fn step_free(&mut self, seat: usize, node: u32) -> Result<(), StepFault>
        requires seat { seat < length self.old.seats }
        ensures ok { OnOk result (Does self.old seat (Kind.Free node) self.new) }
        ensures refused { IsErrOf result Fault.NotAllowed → MayAt self.old seat (Kind.Free node) → ⊥ }
        ensures same { OnErr result (self.new ≡ self.old) }
    {
        if !self.may_free(seat, node) {
            return Err(StepFault::NotAllowed);
        }
        let row = self.row(node);
        let view = self.view(seat).freed(self.alloc, node, row)?;
        self.store_row(node, Row::Free);
        self.sit(seat, view);
        Ok(())
    }

    /// Changes the state as the event says, where it is allowed.
    ///
    /// `NotAllowed` comes exactly where the event is forbidden. After a refusal the state is as it was.
    pub fn step(&mut self, event: &Event) -> Result<(), StepFault>
        ensures ok { OnOk result (Steps self.old event.now self.new) }
        ensures refused { IsErrOf result Fault.NotAllowed → Allowed self.old event.now.seat event.now.kind → ⊥ }
        ensures same { OnErr result (self.new ≡ self.old) }
        ensures sound { IsSound self.old → OnOk result (IsSound self.new) }
    {
        self.apply(event)
    }

    // The same, by places.
    fn apply(&mut self, event: &Event) -> Result<(), StepFault>
        ensures ok { OnOk result (IsAllowedAt self.old event.now.seat event.now.kind × (self.new ≡ after self.old event.now.seat (view_at self.old event.now.seat) event.now.kind)) }
        ensures refused { IsErrOf result Fault.NotAllowed → IsAllowedAt self.old event.now.seat event.now.kind → ⊥ }
        ensures same { OnErr result (self.new ≡ self.old) }
    {
        let seat = event.seat as usize;
        if !self.has_seat(seat) || !self.has_node(event.kind.node()) {
            return Err(StepFault::NotAllowed);
        }
        match &event.kind {
            EventKind::Claim(node) => self.step_claim(seat, *node),
            EventKind::ClaimFailed(node) => self.step_miss(seat, *node),
            EventKind::Release(node) => self.step_release(seat, *node),
            EventKind::LoadRow(node) => self.step_load_row(seat, *node),
            EventKind::Pin(node) => self.step_pin(seat, *node),
            EventKind::Unpin(node) => self.step_unpin(seat, *node),
            EventKind::LoadCount(node) => self.step_load_count(seat, *node),
            EventKind::LoadKey(node) => self.step_load_key(seat, *node),
            EventKind::SetKey(node, key) => self.step_set_key(seat, *node, *key),
            EventKind::Make(node, row) => self.step_make(seat, *node, *row),
            EventKind::Redefine(node, row, over) => self.step_redefine(seat, *node, *row, over),
            EventKind::Free(node) => self.step_free(seat, *node),
        }
    }

    fn has_seat(&self, seat: usize) -> bool
        ensures { IsTrue result ↔ ((seat < length self.now.seats) × ((view_at self.now seat).number < 64)) }
    {
        seat < self.seats.len() && self.view(seat).number < 64
    }

    fn has_node(&self, node: u32) -> bool
        ensures { IsTrue result ↔ (node < length self.now.rows) }
    {
        (node as usize) < self.rows.len()
    }
}
