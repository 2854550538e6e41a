//! Plans and leaves for which each gate needs a row.

ghost use Rattle.std.specs.Prelude.{◌≡◌, ℕ, ◌+◌, ◌<◌, ◌≤◌, ◌^◌, true, All, Some, length, slice_index_or, take};
ghost use Rattle.syn_plan.specs.declared.PLit.{PLit};
ghost use Rattle.syn_rows.specs.Nodes.{has_node};
ghost use Rattle.syn_rows.specs.Rows.{AllRefs, InOrder};
ghost use Rattle.syn_weighing.specs.AllNew as spec;

use crate::dry_runs::MAX_INDEXES;
use arrayvec::ArrayVec;
use syn_plan::{PLit, Plan};
use syn_rows::{Row, has_node};

// How many levels of rows are looked at below a leaf.
const LEVELS: u8 = 5;

/// What tells that each gate of a plan needs a row, where its leaves stand apart.
#[derive(Drop)]
pub struct AllNew {
    /// How many leaves the gates name: the first ones.
    pub named: u16,
    /// For each gate the index of the first one that becomes what it becomes.
    pub firsts: ArrayVec<u16, MAX_INDEXES>,
}

// Whether an index is that of one of the first leaves, or of one of so many gates, of which the first has index `base`.
#[inline]
fn is_in_use(named: u16, base: u16, count: usize, index: u16) -> bool
    requires few { base + count < 2 ^ 32 }
    ensures { result ≡ spec.is_in_use named base count index }
{
    (0 < index && index <= named) || (base <= index && (index as usize) < base as usize + count)
}

// The first index that becomes what this one does.
#[inline]
fn first_of(base: u16, firsts: &[u16], index: u16) -> u16
    ensures { result ≡ spec.first_of base firsts.now index }
{
    if index < base {
        return index;
    }
    match firsts.get((index - base) as usize) {
        Some(first) => *first,
        None => index,
    }
}

// Whether literals are of one such index, with one sign.
#[inline]
fn same_literal(base: u16, firsts: &[u16], one: PLit, other: PLit) -> bool
    ensures { result ≡ spec.same_literal (spec.first_of base firsts.now) one other }
{
    first_of(base, firsts, one.index()) == first_of(base, firsts, other.index())
        && one.0 % 2 == other.0 % 2
}

// Whether gates are of the same two literals, in either order.
fn same_gate(base: u16, firsts: &[u16], one: (PLit, PLit), other: (PLit, PLit)) -> bool
    ensures { result ≡ spec.same_gate (spec.first_of base firsts.now) one other }
{
    (same_literal(base, firsts, one.0, other.0) && same_literal(base, firsts, one.1, other.1))
        || (same_literal(base, firsts, one.0, other.1)
            && same_literal(base, firsts, one.1, other.0))
}

// The first of some gates that is of the same two literals as one behind them: what it becomes.
fn first_like(
    base: u16,
    firsts: &[u16],
    before: &[(PLit, PLit)],
    gate: (PLit, PLit),
) -> Option<u16> {
    for (i, other) in before.iter().enumerate() {
        if same_gate(base, firsts, gate, *other) {
            return firsts.get(i).copied();
        }
    }
    None
}

// For each gate the index of the first one that is of the same two literals.
fn firsts_of(base: u16, gates: &[(PLit, PLit)]) -> ArrayVec<u16, MAX_INDEXES>
    requires few { base + length gates.now < 2 ^ 16 }
    requires room { length gates.now ≤ MAX_INDEXES }
{
    let mut firsts = ArrayVec::new();
    for i in 0..gates.len() {
        let (before, _) = gates.split_at(i);
        let first = first_like(base, firsts.as_slice(), before, gates[i]);
        firsts.push(first.unwrap_or(base + i as u16));
    }
    firsts
}

// Whether each of some gates that is of the same two literals as one behind them is said to become what it becomes.
fn is_said_of_each(base: u16, firsts: &[u16], before: &[(PLit, PLit)], gate: (PLit, PLit)) -> bool
    requires few { base + length before.now < 2 ^ 16 }
    ensures { result ≡ true → (g : ℕ) (d : PLit × PLit) → g < length before.now → spec.same_gate (spec.first_of base firsts.now) gate (slice_index_or before.now g d) ≡ true
        → spec.first_of base firsts.now (base + g) ≡ spec.first_of base firsts.now (base + length before.now) }
{
    let own = first_of(base, firsts, base + before.len() as u16);
    for i in 0..before.len() {
        if first_of(base, firsts, base + i as u16) != own
            && same_gate(base, firsts, gate, before[i])
        {
            return false;
        }
    }
    true
}

// Whether a gate behind others names two of the first leaves and of the others, which don't become the same, and it is
// said which of the others become what it becomes.
fn stands_apart(
    named: u16,
    base: u16,
    firsts: &[u16],
    before: &[(PLit, PLit)],
    gate: (PLit, PLit),
) -> bool
    requires few { base + length before.now < 2 ^ 16 }
    ensures { result ≡ true → spec.StandsApart named base (spec.first_of base firsts.now) before.now gate }
{
    let count = before.len();
    let (left, right) = (gate.0.index(), gate.1.index());
    is_in_use(named, base, count, left)
        && is_in_use(named, base, count, right)
        && first_of(base, firsts, left) != first_of(base, firsts, right)
        && is_said_of_each(base, firsts, before, gate)
}

// Whether each gate does so.
fn all_stand_apart(named: u16, base: u16, firsts: &[u16], gates: &[(PLit, PLit)]) -> bool
    requires few { base + length gates.now < 2 ^ 16 }
    ensures { result ≡ true → (i : ℕ) (gate : PLit × PLit) → i < length gates.now → spec.StandsApart named base (spec.first_of base firsts.now) (take i gates.now) (slice_index_or gates.now i gate) }
{
    for i in 0..gates.len() {
        let (before, _) = gates.split_at(i);
        if !stands_apart(named, base, firsts, before, gates[i]) {
            return false;
        }
    }
    true
}

// Whether the gates of a plan do so.
fn is_apart_plan(apart: &AllNew, plan: &Plan) -> bool
    ensures { result ≡ true → spec.IsApartPlan apart.now plan.now }
{
    let leaves = u16::from(plan.leaves);
    let firsts = apart.firsts.as_slice();
    apart.named <= leaves && all_stand_apart(apart.named, 1 + leaves, firsts, plan.gates.as_slice())
}

// The later one of a leaf and of what a literal names, if that is a leaf too.
fn later_leaf(leaves: u16, last: u16, literal: PLit) -> u16 {
    let index = literal.index();
    if index <= leaves && last < index {
        index
    } else {
        last
    }
}

// The last leaf that the gates of a plan name, counted from 1; 0 where they name none.
fn last_leaf(plan: &Plan) -> u16 {
    let leaves = u16::from(plan.leaves);
    let mut last = 0;
    for gate in plan.gates.iter() {
        last = later_leaf(leaves, last, gate.0);
        last = later_leaf(leaves, last, gate.1);
    }
    last
}

// What tells that each gate of a plan needs a row, unless some gate doesn't, or there are many.
fn told_of(plan: &Plan) -> Option<AllNew>
    ensures { (a : AllNew) → result ≡ Some a → spec.IsApartPlan a plan.now }
{
    let gates = plan.gates.as_slice();
    if gates.len() > MAX_INDEXES {
        return None;
    }
    let apart = AllNew {
        named: last_leaf(plan),
        firsts: firsts_of(1 + u16::from(plan.leaves), gates),
    };
    if is_apart_plan(&apart, plan) {
        Some(apart)
    } else {
        None
    }
}

/// What tells it of each of some plans.
pub fn all_new_of_each(plans: &ArrayVec<Plan, 4>) -> ArrayVec<Option<AllNew>, 4>
    ensures { spec.AreApart plans.now.items result.items }
{
    let mut told = ArrayVec::new();
    for plan in plans.iter() {
        told.push(told_of(plan));
    }
    told
}

/// Whether the plan at a place names no more leaves than these, and each of its gates needs a row where they stand apart.
pub fn names_within(told: &[Option<AllNew>], place: usize, leaves: &[u32]) -> bool
    ensures { result ≡ true → spec.NamesWithin told.now place leaves.now }
{
    match told.get(place) {
        Some(Some(apart)) => apart.named as usize <= leaves.len(),
        _ => false,
    }
}

// Whether a node may be made of leaves, so far as the rows of so many levels tell. None below the least one is.
#[cycle(made)]
fn may_be_made(rows: &[Row], leaves: &[u32], levels: u8, node: u32) -> bool
    requires order { InOrder rows.now }
    requires within { node < length rows.now }
    requires some { 0 < length leaves.now }
    ensures { result ≡ spec.may_be_made rows.now leaves.now levels node }
{
    if node < leaves[0] {
        return false;
    }
    if levels == 0 || has_node(leaves, node) {
        return true;
    }
    joins_made(rows, leaves, levels - 1, rows[node as usize])
}

// Whether a row is the AND of two such nodes.
#[cycle(made)]
fn joins_made(rows: &[Row], leaves: &[u32], levels: u8, row: Row) -> bool
    requires order { InOrder rows.now }
    requires refs { AllRefs (λ m. m < length rows.now) row }
    requires some { 0 < length leaves.now }
    ensures { result ≡ spec.joins (spec.may_be_made rows.now leaves.now levels) row }
{
    match row {
        Row::And(a, b) => {
            may_be_made(rows, leaves, levels, a.node())
                && may_be_made(rows, leaves, levels, b.node())
        }
        _ => false,
    }
}

/// Whether no leaf is the AND of two nodes that may be made of leaves.
pub fn are_apart(rows: &[Row], leaves: &[u32]) -> bool
    requires order { InOrder rows.now }
    requires within { All (λ m. m < length rows.now) leaves.now }
    ensures { result ≡ spec.are_apart LEVELS rows.now leaves.now }
{
    for leaf in leaves {
        if joins_made(rows, leaves, LEVELS, rows[*leaf as usize]) {
            return false;
        }
    }
    true
}
