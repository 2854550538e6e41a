//! What a plan becomes in place of a root's row.

ghost use Rattle.std.specs.Prelude.{◌≡◌, ◌+◌, ◌-◌, ◌<◌, ◌≤◌, ◌^◌, [], ◌∷◌, ℕ, IfSome, Option, None, length, nat_lt, slice_index_or, true, false};
ghost use Rattle.arrayvec.specs.ArrayVec.{array_vec_len};
ghost use Rattle.syn_rows.specs.declared.Lit.{Lit};
ghost use Rattle.syn_rows.specs.declared.TheConstants.{NODE_LIMIT};
ghost use Rattle.syn_rows.specs.Rows.{node_of, row_at};
ghost use Rattle.syn_rows.specs.Joining.{is_and_of};
ghost use Rattle.syn_rows.specs.Joining as joining;
ghost use Rattle.syn_plan.specs.declared.TheConstants.{MAX_INDEXES};
ghost use Rattle.syn_gain.specs.Lookups.{AreNewRows, ArePlaced, Gives};
ghost use Rattle.syn_gain.specs.Placing as spec;
ghost use Rattle.syn_gain.specs.Searching as search;

use crate::{Lookup, literal_for};
use arrayvec::ArrayVec;
use syn_plan::PLit;
use syn_rows::{FALSE, Lit, Row, is_and_of, ordered_and, simple_and};

/// What a plan of at most so many indexes becomes: lists that serve for many plans, one after the other.
#[derive(Debug, Drop)]
pub struct PlacedPlan<const INDEXES: usize> {
    /// The literals that the constant, the leaves and the gates become.
    pub literals: ArrayVec<Lit, INDEXES>,
    /// The new rows.
    pub extra: ArrayVec<Row, INDEXES>,
}

// The first place at which a new row may refer to a literal's node, where the first new row is node `first`.
#[inline]
fn place_behind(first: u32, l: Lit) -> usize
    ensures { result ≡ node_of l + 1 - first }
{
    (l.node() as usize + 1).saturating_sub(first as usize)
}

// The literal of the last new row that is the AND of x and y, where none before this place is. The first one is node `first`.
#[inline]
fn literal_new(first: u32, extra: &[Row], from: usize, x: Lit, y: Lit) -> Option<Lit>
    requires few { first + length extra.now < 2 ^ 30 }
    requires none { (i : ℕ) → i < from → is_and_of x y (row_at extra.now i) ≡ false }
    ensures literal { result ≡ search.literal_new first extra.now (length extra.now) x y }
    ensures there { IfSome result (λ l. node_of l < first + length extra.now) }
{
    let mut i = extra.len();
    while i > from {
        i -= 1;
        if is_and_of(x, y, extra[i]) {
            return Some(Lit::of(first + i as u32, false));
        }
    }
    None
}

/// The node at a place of a list, 0 past its end.
pub fn node_at(nodes: &[u32], place: usize) -> u32
    ensures { result ≡ slice_index_or nodes.now place 0 }
{
    if place < nodes.len() { nodes[place] } else { 0 }
}

impl<const INDEXES: usize> PlacedPlan<INDEXES> {
    /// Nothing placed.
    pub fn new() -> Self
        ensures literals { result.literals.items ≡ [] }
        ensures none { result.extra.items ≡ [] }
    {
        PlacedPlan {
            literals: ArrayVec::new(),
            extra: ArrayVec::new(),
        }
    }

    /// Places the constant and a plan's leaves, of which there are so many.
    pub fn begin(&mut self, count: u8, leaves: &[u32])
        requires room { count < INDEXES }
        requires low { (i : ℕ) → slice_index_or leaves.now i 0 < 2 ^ 31 }
        ensures literals { self.new.literals.items ≡ joining.constant ∷ spec.leaf_literals count leaves.now }
        ensures count { array_vec_len self.new.literals ≡ 1 + count }
        ensures none { self.new.extra.items ≡ [] }
    {
        self.literals.clear();
        self.extra.clear();
        self.literals.push(FALSE);
        for i in 0..count {
            let leaf = node_at(leaves, i as usize);
            self.literals.push(Lit::of(leaf, false));
        }
    }

    /// Places the constant and a plan's leaves, which have these literals.
    pub fn begin_over(&mut self, leaves: &[Lit])
        requires { length leaves.now < INDEXES }
        ensures literals { self.new.literals.items ≡ joining.constant ∷ leaves.now }
        ensures none { self.new.extra.items ≡ [] }
    {
        self.literals.clear();
        self.extra.clear();
        self.literals.push(FALSE);
        let _ = self.literals.try_extend_from_slice(leaves);
    }

    // The literal of a pair that is there: of a row that is looked up, or else of the last new row that is its AND. No old
    // row refers to a new one, so that a pair with a new row's literal isn't looked up.
    fn literal_there<L: Lookup>(&self, look_up: &L, x: Lit, y: Lit) -> Option<Lit>
        requires stands { L.stands look_up.now }
        requires few { L.first look_up.now ≤ NODE_LIMIT }
        requires most { INDEXES ≤ MAX_INDEXES }
        requires rows { AreNewRows (L.first look_up.now) self.now.extra.items }
        ensures literal { (f : Lit → Lit → Option Lit) → Gives (L.finds look_up.now) (L.first look_up.now) f → result ≡ search.there_by f (L.first look_up.now) self.now.extra.items x y }
        ensures there { IfSome result (λ l. node_of l < L.first look_up.now + length self.now.extra.items) }
    {
        let first = look_up.first_new();
        if x.node() < first && y.node() < first {
            if let Some(literal) = look_up.find(x, y) {
                return Some(literal);
            }
        }
        let from = place_behind(first, x).max(place_behind(first, y));
        literal_new(first, self.extra.as_slice(), from, x, y)
    }

    /// The literal that a pair becomes which needs a row: that of a row that is there, or else of a new row.
    pub fn join<L: Lookup>(&mut self, look_up: &L, x: Lit, y: Lit) -> Lit
        requires stands { L.stands look_up.now }
        requires most { INDEXES ≤ MAX_INDEXES }
        requires room { length self.old.extra.items < INDEXES }
        requires needs { joining.simple_and x y ≡ None }
        requires first { node_of x < L.first look_up.now + length self.old.extra.items }
        requires second { node_of y < L.first look_up.now + length self.old.extra.items }
        requires few { L.first look_up.now ≤ NODE_LIMIT }
        requires rows { AreNewRows (L.first look_up.now) self.old.extra.items }
        ensures literal { (f : Lit → Lit → Option Lit) → Gives (L.finds look_up.now) (L.first look_up.now) f → result ≡ (search.pair_by f (L.first look_up.now) self.old.extra.items x y).literal }
        ensures extra { (f : Lit → Lit → Option Lit) → Gives (L.finds look_up.now) (L.first look_up.now) f → self.new.extra.items ≡ (search.pair_by f (L.first look_up.now) self.old.extra.items x y).extra }
        ensures rows { AreNewRows (L.first look_up.now) self.new.extra.items }
        ensures there { node_of result < L.first look_up.now + length self.new.extra.items }
        ensures literals { self.new.literals.items ≡ self.old.literals.items }
        ensures more { length self.old.extra.items ≤ length self.new.extra.items }
        ensures one { length self.new.extra.items ≤ length self.old.extra.items + 1 }
    {
        if let Some(literal) = self.literal_there(look_up, x, y) {
            return literal;
        }
        let node = look_up.first_new() + self.extra.len() as u32;
        self.extra.push(ordered_and(x, y));
        Lit::of(node, false)
    }

    /// The literal that a pair becomes: by the rules that need no row, or else that of a row.
    pub fn and<L: Lookup>(&mut self, look_up: &L, x: Lit, y: Lit) -> Lit
        requires stands { L.stands look_up.now }
        requires most { INDEXES ≤ MAX_INDEXES }
        requires room { length self.old.extra.items < INDEXES }
        requires first { node_of x < L.first look_up.now + length self.old.extra.items }
        requires second { node_of y < L.first look_up.now + length self.old.extra.items }
        requires some { 0 < L.first look_up.now }
        requires few { L.first look_up.now ≤ NODE_LIMIT }
        requires rows { AreNewRows (L.first look_up.now) self.old.extra.items }
        ensures literal { (f : Lit → Lit → Option Lit) → Gives (L.finds look_up.now) (L.first look_up.now) f → result ≡ (search.pair_by f (L.first look_up.now) self.old.extra.items x y).literal }
        ensures extra { (f : Lit → Lit → Option Lit) → Gives (L.finds look_up.now) (L.first look_up.now) f → self.new.extra.items ≡ (search.pair_by f (L.first look_up.now) self.old.extra.items x y).extra }
        ensures rows { AreNewRows (L.first look_up.now) self.new.extra.items }
        ensures there { node_of result < L.first look_up.now + length self.new.extra.items }
        ensures literals { self.new.literals.items ≡ self.old.literals.items }
        ensures more { length self.old.extra.items ≤ length self.new.extra.items }
        ensures one { length self.new.extra.items ≤ length self.old.extra.items + 1 }
    {
        match simple_and(x, y) {
            Some(literal) => literal,
            None => self.join(look_up, x, y),
        }
    }

    /// The two literals of a gate.
    #[inline]
    pub fn pair(&self, gate: (PLit, PLit)) -> (Lit, Lit)
        ensures first { result.0 ≡ spec.literal_for self.now.literals.items gate.0 }
        ensures second { result.1 ≡ spec.literal_for self.now.literals.items gate.1 }
    {
        let literals = self.literals.as_slice();
        (literal_for(literals, gate.0), literal_for(literals, gate.1))
    }

    /// Places one gate.
    pub fn place_gate<L: Lookup>(&mut self, look_up: &L, gate: (PLit, PLit))
        requires stands { L.stands look_up.now }
        requires most { INDEXES ≤ MAX_INDEXES }
        requires room { length self.old.literals.items < INDEXES }
        requires fewer { length self.old.extra.items < INDEXES }
        requires placed { ArePlaced (L.first look_up.now) self.old.literals.items self.old.extra.items }
        ensures gate { (f : Lit → Lit → Option Lit) → Gives (L.finds look_up.now) (L.first look_up.now) f → search.state self.new.literals.items self.new.extra.items ≡ search.gate_by f (L.first look_up.now) (search.state self.old.literals.items self.old.extra.items) gate }
        ensures placed { ArePlaced (L.first look_up.now) self.new.literals.items self.new.extra.items }
        ensures count { length self.new.literals.items ≡ length self.old.literals.items + 1 }
        ensures one { length self.new.extra.items ≤ length self.old.extra.items + 1 }
    {
        let (x, y) = self.pair(gate);
        let literal = self.and(look_up, x, y);
        self.literals.push(literal);
    }

    /// Places the gates of a plan in order: whether they become fewer than so many new rows. None is placed once as many are
    /// new.
    pub fn place_gates<L: Lookup>(
        &mut self,
        look_up: &L,
        gates: &[(PLit, PLit)],
        limit: u32,
    ) -> bool
        requires stands { L.stands look_up.now }
        requires most { INDEXES ≤ MAX_INDEXES }
        requires room { length self.old.literals.items + length gates.now ≤ INDEXES }
        requires none { self.old.extra.items ≡ [] }
        requires placed { ArePlaced (L.first look_up.now) self.old.literals.items [] }
        ensures fewer { (f : Lit → Lit → Option Lit) → Gives (L.finds look_up.now) (L.first look_up.now) f → result ≡ nat_lt (length (search.gates_by f (L.first look_up.now) (search.state self.old.literals.items []) gates.now).extra) limit }
        ensures gates { (f : Lit → Lit → Option Lit) → Gives (L.finds look_up.now) (L.first look_up.now) f → result ≡ true → search.state self.new.literals.items self.new.extra.items ≡ search.gates_by f (L.first look_up.now) (search.state self.old.literals.items []) gates.now }
        ensures placed { ArePlaced (L.first look_up.now) self.new.literals.items self.new.extra.items }
        ensures few { length self.new.extra.items ≤ length gates.now }
    {
        for gate in gates {
            if self.extra.len() >= limit as usize {
                return false;
            }
            self.place_gate(look_up, *gate);
        }
        self.extra.len() < limit as usize
    }
}
