//! Plans placed in hashed rows: what a plan becomes over the rows that are there, and then its new rows behind them.
#![tactic(auto)]

ghost use Rattle.std.specs.Prelude.{◌≡◌, ℕ, ◌+◌, ◌<◌, ◌≤◌, ◌++◌, ◌∷◌, [], All, Bool, false, length, map, IfOk, OnOk};
ghost use Rattle.arrayvec.specs.ArrayVec.{array_vec_len};
ghost use Rattle.syn_rows.specs.declared.TheConstants.{NODE_LIMIT};
ghost use Rattle.syn_rows.specs.Joining.{constant};
ghost use Rattle.syn_rows.specs.Rows.{AllRefs, InOrder, node_of};
ghost use Rattle.syn_hashed.specs.Growing.{Extends, value_by};
ghost use Rattle.syn_hashed.specs.Indexed.{IsIndexOf};
ghost use Rattle.syn_hashed.specs.Joined.{PairsOnce};
ghost use Rattle.syn_plan.specs.declared.TheConstants.{MAX_INDEXES};
ghost use Rattle.syn_plan.specs.Plans.{plan_truth};
ghost use Rattle.syn_gain.specs.Lookups.{AreNewRows, ArePlaced};
ghost use Rattle.syn_gain.specs.Placing.{literal_for};
ghost use Rattle.syn_gain.specs.Searching.{search_gates, state};
ghost use Rattle.syn_placing.specs.Placing as spec;

use std::alloc::AllocError;
use syn_gain::{PlacedPlan, RowsBelow, literal_for};
use syn_hashed::{HashedRows, PairIndex};
use syn_plan::{FEW_INDEXES, MAX_INDEXES, Plan};
use syn_rows::{Lit, Row};

// Adds an AND that the rows lack.
fn append_row(hashed: &mut HashedRows, row: Row) -> Result<(), AllocError>
    requires lacking { spec.IsLacking hashed.old.rows.items row }
    requires refs { AllRefs (λ m. m < length hashed.old.rows.items) row }
    requires room { length hashed.old.rows.items + 1 < NODE_LIMIT }
    ensures sources { hashed.new.source_count ≡ hashed.old.source_count }
    ensures grows { Extends hashed.old.rows.items hashed.new.rows.items }
    ensures few { length hashed.new.rows.items ≤ length hashed.old.rows.items + 1 }
    ensures rows { OnOk result (hashed.new.rows.items ≡ hashed.old.rows.items ++ row ∷ []) }
{
    if let Row::And(a, b) = row {
        hashed.and(a, b)?;
    }
    Ok(())
}

// Adds ANDs of which each is lacking before it.
fn append(hashed: &mut HashedRows, extra: &[Row]) -> Result<(), AllocError>
    requires lacking { spec.AreLacking hashed.old.rows.items extra.now }
    requires rows { AreNewRows (length hashed.old.rows.items) extra.now }
    requires room { length hashed.old.rows.items + length extra.now < NODE_LIMIT }
    ensures sources { hashed.new.source_count ≡ hashed.old.source_count }
    ensures grows { Extends hashed.old.rows.items hashed.new.rows.items }
    ensures few { length hashed.new.rows.items ≤ length hashed.old.rows.items + length extra.now }
    ensures rows { OnOk result (hashed.new.rows.items ≡ hashed.old.rows.items ++ extra.now) }
{
    for row in extra {
        append_row(hashed, *row)?;
    }
    Ok(())
}

// What a plan becomes over rows, with their index, that have room for one more for each of its gates.
fn placed_over<const INDEXES: usize>(
    rows: &[Row],
    index: &PairIndex,
    leaves: &[Lit],
    plan: &Plan,
) -> PlacedPlan<INDEXES>
    requires fits { plan.now.leaves + array_vec_len plan.now.gates < INDEXES }
    requires most { INDEXES ≤ MAX_INDEXES }
    requires index { IsIndexOf rows.now index.now }
    requires pairs { PairsOnce rows.now }
    requires order { InOrder rows.now }
    requires some { 0 < length rows.now }
    requires count { plan.now.leaves ≡ length leaves.now }
    requires there { All (λ l. node_of l < length rows.now) leaves.now }
    requires room { length rows.now + length plan.now.gates.items < NODE_LIMIT }
    ensures searched { state result.literals.items result.extra.items ≡ search_gates rows.now (length rows.now) (state (constant ∷ leaves.now) []) plan.now.gates.items }
    ensures there { ArePlaced (length rows.now) result.literals.items result.extra.items }
    ensures few { length result.extra.items ≤ length plan.now.gates.items }
{
    let mut placed = PlacedPlan::<INDEXES>::new();
    placed.begin_over(leaves);
    let all = RowsBelow {
        rows,
        index,
        root: rows.len() as u32,
    };
    let _ = placed.place_gates(&all, plan.gates.as_slice(), u32::MAX);
    placed
}

// The literal of a plan that has fewer indexes than this. A function fills its locals as it begins, so each size has its own.
#[inline(never)]
fn place_in<const INDEXES: usize>(
    hashed: &mut HashedRows,
    leaves: &[Lit],
    plan: &Plan,
) -> Result<Lit, AllocError>
    requires fits { plan.now.leaves + array_vec_len plan.now.gates < INDEXES }
    requires most { INDEXES ≤ MAX_INDEXES }
    requires count { plan.now.leaves ≡ length leaves.now }
    requires there { All (λ l. node_of l < length hashed.old.rows.items) leaves.now }
    requires room { length hashed.old.rows.items + length plan.now.gates.items < NODE_LIMIT }
    ensures sources { hashed.new.source_count ≡ hashed.old.source_count }
    ensures grows { Extends hashed.old.rows.items hashed.new.rows.items }
    ensures few { length hashed.new.rows.items ≤ length hashed.old.rows.items + length plan.now.gates.items }
    ensures rows { OnOk result (hashed.new.rows.items ≡ (spec.placed_gates hashed.old.rows.items leaves.now plan.now.gates.items).rows) }
    ensures literal { IfOk result (λ l. l ≡ literal_for (spec.placed_gates hashed.old.rows.items leaves.now plan.now.gates.items).literals plan.now.out) }
    ensures there { IfOk result (λ l. node_of l < length hashed.new.rows.items) }
    ensures value { IfOk result (λ l. (given : ℕ → Bool) → given 0 ≡ false → value_by given hashed.new.rows.items l ≡ plan_truth plan.now (map (value_by given hashed.old.rows.items) leaves.now)) }
{
    let placed = placed_over::<INDEXES>(hashed.rows.as_slice(), &hashed.index, leaves, plan);
    append(hashed, placed.extra.as_slice())?;
    Ok(literal_for(placed.literals.as_slice(), plan.out))
}

/// The literal of a plan over these literals of its leaves, by the ANDs of its gates in order. The rows grow by at most as
/// many as it has gates. The only error is want of memory; rows that were made stay.
pub fn place_plan(hashed: &mut HashedRows, leaves: &[Lit], plan: &Plan) -> Result<Lit, AllocError>
    requires count { plan.now.leaves ≡ length leaves.now }
    requires there { All (λ l. node_of l < length hashed.old.rows.items) leaves.now }
    requires room { length hashed.old.rows.items + length plan.now.gates.items < NODE_LIMIT }
    ensures sources { hashed.new.source_count ≡ hashed.old.source_count }
    ensures grows { Extends hashed.old.rows.items hashed.new.rows.items }
    ensures few { length hashed.new.rows.items ≤ length hashed.old.rows.items + length plan.now.gates.items }
    ensures rows { OnOk result (hashed.new.rows.items ≡ (spec.placed_gates hashed.old.rows.items leaves.now plan.now.gates.items).rows) }
    ensures literal { IfOk result (λ l. l ≡ literal_for (spec.placed_gates hashed.old.rows.items leaves.now plan.now.gates.items).literals plan.now.out) }
    ensures there { IfOk result (λ l. node_of l < length hashed.new.rows.items) }
    ensures value { IfOk result (λ l. (given : ℕ → Bool) → given 0 ≡ false → value_by given hashed.new.rows.items l ≡ plan_truth plan.now (map (value_by given hashed.old.rows.items) leaves.now)) }
{
    if (plan.leaves as usize) + plan.gates.len() < FEW_INDEXES {
        place_in::<FEW_INDEXES>(hashed, leaves, plan)
    } else {
        place_in::<MAX_INDEXES>(hashed, leaves, plan)
    }
}
