//! Compaction: rows in the order in which the observed literals visit them, without those that they don't reach.

ghost use Rattle.std.specs.Prelude.{◌++◌, if◌then◌else◌, OnOk, ◌≡◌, ℕ, ◌+◌, ◌*◌, ◌^◌, ◌<◌, ◌≤◌, ◌||◌, nat_lt, All, IfOk, length, map, true, vec_len, List, [], ◌∷◌, slice_index};
ghost use Rattle.syn_rows.specs.declared.TheConstants.{NODE_LIMIT};
ghost use Rattle.syn_rows.specs.declared.Lit.{Lit};
ghost use Rattle.syn_rows.specs.declared.Row.{Row};
ghost use Rattle.syn_rows.specs.Rows.{AllRefs, node_of, in_order_from};
ghost use Rattle.syn_rows.specs.Levels.{HasLevels};
ghost use Rattle.syn_rows.specs.Values.{value_in};
ghost use Rattle.syn_rows.specs.Reach.{Ands, IsReachedSet};
ghost use Rattle.syn_hashed.specs.Hashed.{IsHashed, lit_at};
ghost use Rattle.syn_hashed.specs.Growing.{level_by};
ghost use Rattle.syn_hashed.specs.HashedAgain.{IsExactCompaction, IsHashedAgain};
ghost use Rattle.syn_hashed.specs.Compacting.{CanCompact, HasValuation, IsCompacted, IsCompaction, is_kept, IsPlaces, kept_below, kept_lits, kept_rows, moved_lit, moved_row, SameValues};

use crate::visit::in_visiting_order;
use crate::visit_order::renumbered;
use std::alloc::{AllocError, Global};
use syn_rows::{Lit, Row};

/// Rows with the literals of the observed signals.
#[derive(Debug, Drop)]
pub struct Rows {
    pub rows: Vec<Row>,
    pub observed: Vec<Lit>,
}

// The literal of a node that moves, by a list of the places that nodes move to.
fn moved_lit(places: &[u32], lit: Lit) -> Lit
    requires there { node_of lit < length places.now }
    requires small { All (λ place. place < 2 ^ 31) places.now }
    ensures { (place : ℕ → ℕ) → IsPlaces places.now place → result ≡ moved_lit place lit }
{
    Lit::of(places[lit.node() as usize], lit.complemented())
}

fn moved_row(places: &[u32], row: Row) -> Row
    requires there { AllRefs (λ m. m < length places.now) row }
    requires small { All (λ place. place < 2 ^ 31) places.now }
    ensures { (place : ℕ → ℕ) → IsPlaces places.now place → result ≡ moved_row place row }
{
    match row {
        Row::Free => Row::Free,
        Row::Source => Row::Source,
        Row::And(a, b) => Row::And(moved_lit(places, a), moved_lit(places, b)),
        Row::Alias(a) => Row::Alias(moved_lit(places, a)),
    }
}

// Where each node moves to: how many nodes before it are kept.
fn places_of(alloc: Global, count: u32, marks: &[bool]) -> Result<Vec<u32>, AllocError>
    requires { length marks.now < 2 ^ 31 }
    ensures count { IfOk result (λ v. length v.items ≡ length marks.now) }
    ensures small { IfOk result (λ v. All (λ place. place < 2 ^ 31) v.items) }
    ensures places { IfOk result (λ v. IsPlaces v.items (kept_below (is_kept count (value_in marks.now)))) }
{
    let mut places = Vec::new(alloc);
    let mut next: u32 = 0;
    for (n, mark) in marks.iter().enumerate() {
        places.push(next)?;
        if is_kept(count, n, *mark) {
            next += 1;
        }
    }
    Ok(places)
}

fn is_kept(count: u32, n: usize, mark: bool) -> bool
    ensures { result ≡ (nat_lt n (count + 1) || mark) }
{
    n <= count as usize || mark
}

// The kept rows, moved.
fn kept_rows(
    alloc: Global,
    count: u32,
    rows: &[Row],
    marks: &[bool],
    places: &[u32],
) -> Result<Vec<Row>, AllocError>
    requires order { in_order_from 0 rows.now ≡ true }
    requires marks { length marks.now ≡ length rows.now }
    requires count { length places.now ≡ length rows.now }
    requires small { All (λ place. place < 2 ^ 31) places.now }
    requires places { IsPlaces places.now (kept_below (is_kept count (value_in marks.now))) }
    ensures { IfOk result (λ v. v.items ≡ kept_rows (is_kept count (value_in marks.now)) rows.now) }
{
    let mut kept = Vec::new(alloc);
    for (n, row) in rows.iter().enumerate() {
        push_kept(&mut kept, is_kept(count, n, marks[n]), *row, places)?;
    }
    Ok(kept)
}

// Adds a row, moved, where it is kept.
fn push_kept(kept: &mut Vec<Row>, keep: bool, row: Row, places: &[u32]) -> Result<(), AllocError>
    requires there { AllRefs (λ m. m < length places.now) row }
    requires small { All (λ place. place < 2 ^ 31) places.now }
    ensures { (place : ℕ → ℕ) → IsPlaces places.now place → OnOk result (kept.new.items ≡ kept.old.items ++ (if keep then moved_row place row ∷ [] else [])) }
{
    if keep {
        kept.push(moved_row(places, row))?;
    }
    Ok(())
}

// The literals, moved.
fn moved_lits(alloc: Global, lits: &[Lit], places: &[u32]) -> Result<Vec<Lit>, AllocError>
    requires there { All (λ l. node_of l < length places.now) lits.now }
    requires small { All (λ place. place < 2 ^ 31) places.now }
    ensures { (place : ℕ → ℕ) → IsPlaces places.now place → IfOk result (λ v. v.items ≡ map (moved_lit place) lits.now) }
{
    let mut moved = Vec::new(alloc);
    for lit in lits {
        moved.push(moved_lit(places, *lit))?;
    }
    Ok(moved)
}

// Drops the rows that are not marked; the others move down in their order.
fn drop_unmarked(
    alloc: Global,
    count: u32,
    rows: &[Row],
    observed: &[Lit],
    marks: &[bool],
) -> Result<Rows, AllocError>
    requires hashed { IsHashed count rows.now }
    requires within { All (λ l. node_of l < length rows.now) observed.now }
    requires few { length rows.now < 2 ^ 31 }
    requires marks { length marks.now ≡ length rows.now }
    requires reached { IsReachedSet rows.now observed.now (value_in marks.now) }
    ensures compact { IfOk result (λ r. IsCompaction count rows.now observed.now r.rows.items r.observed.items) }
    ensures exact { IfOk result (λ r. IsHashedAgain count rows.now observed.now r.rows.items r.observed.items) }
{
    let places = places_of(alloc, count, marks)?;
    let kept = kept_rows(alloc, count, rows, marks, places.as_slice())?;
    let moved = moved_lits(alloc, observed, places.as_slice())?;
    syn_rows::one_valuation();
    Ok(Rows {
        rows: kept,
        observed: moved,
    })
}

// Whether all nodes behind node 0 and the sources are marked.
fn all_marked(count: u32, marks: &[bool]) -> bool
    ensures { result ≡ true → (n : ℕ) → count < n → n < length marks.now → value_in marks.now n ≡ true }
{
    for n in count as usize + 1..marks.len() {
        if !marks[n] {
            return false;
        }
    }
    true
}

// Drops the rows that the literals don't reach, if there are any.
fn drop_unreached(alloc: Global, count: u32, all: Rows) -> Result<Rows, AllocError>
    requires hashed { IsHashed count all.rows.items }
    requires within { All (λ l. node_of l < length all.rows.items) all.observed.items }
    requires few { length all.rows.items < 2 ^ 31 }
    ensures compact { IfOk result (λ r. IsCompaction count all.rows.items all.observed.items r.rows.items r.observed.items) }
    ensures exact { IfOk result (λ r. IsHashedAgain count all.rows.items all.observed.items r.rows.items r.observed.items) }
{
    let rows = all.rows.as_slice();
    let observed = all.observed.as_slice();
    let marks = syn_rows::reached(alloc, rows, observed)?;
    if all_marked(count, marks.as_slice()) {
        return Ok(all);
    }
    drop_unmarked(alloc, count, rows, observed, marks.as_slice())
}

/// The rows that the observed literals reach, in the order in which these visit them: each node after its first and then
/// its second fan-in, aliases followed, no pair of literals twice. The only error is want of memory.
pub fn compact_rows(
    alloc: Global,
    source_count: u32,
    rows: &[Row],
    observed: &[Lit],
) -> Result<Rows, AllocError>
    requires can { CanCompact source_count rows.now observed.now }
    requires few { length rows.now < NODE_LIMIT }
    ensures compacted { IfOk result (λ r. IsCompacted source_count rows.now observed.now r.rows.items r.observed.items) }
    ensures exact { IfOk result (λ r. IsExactCompaction source_count rows.now observed.now r.rows.items r.observed.items) }
{
    let ordered = in_visiting_order(alloc, source_count, rows, observed)?;
    let kept = drop_unreached(alloc, source_count, ordered)?;
    Ok(kept)
}

/// The same of hashed rows, whose nodes only get other numbers.
pub fn compact_hashed(
    alloc: Global,
    source_count: u32,
    rows: &[Row],
    observed: &[Lit],
) -> Result<Rows, AllocError>
    requires hashed { IsHashed source_count rows.now }
    requires within { All (λ l. node_of l < length rows.now) observed.now }
    requires few { length rows.now < NODE_LIMIT }
    ensures compact { IfOk result (λ r. IsCompaction source_count rows.now observed.now r.rows.items r.observed.items) }
    ensures exact { IfOk result (λ r. IsHashedAgain source_count rows.now observed.now r.rows.items r.observed.items) }
    ensures ands { IfOk result (λ r. (k : ℕ) → Ands rows.now observed.now k → length r.rows.items ≤ source_count + 1 + k) }
{
    let kept = renumbered(alloc, source_count, rows, observed)?;
    syn_rows::one_valuation();
    Ok(kept)
}

/// Rows that can be compacted have a valuation for all given values of the sources.
pub fn has_valuation()
    ensures { (count : ℕ) (rows : List Row) (lits : List Lit) → CanCompact count rows lits → HasValuation count rows }
{}

/// Rows that can be compacted have levels.
pub fn has_level()
    ensures { (count : ℕ) (rows : List Row) (lits : List Lit) → CanCompact count rows lits → (level : ℕ → ℕ) × HasLevels rows level }
{}
