//! Leaves are joined by AND, each time the two of least level, until one is left.

ghost use Rattle.std.specs.Prelude.{◌≡◌, ℕ, ◌+◌, ◌*◌, ◌^◌, ◌<◌, ◌≤◌, All, IfOk, OnOk, List, [], ◌∷◌, length, map, max};
ghost use Rattle.std.specs.BinaryHeap.{IsHeap, heap_items, heap_len};
ghost use Rattle.std.specs.List.{list_all, sum_by};
ghost use Rattle.syn_rows.specs.declared.TheConstants.{NODE_LIMIT};
ghost use Rattle.syn_rows.specs.Levels.{level_in, levels_of, row_level};
ghost use Rattle.syn_rows.specs.Rows.{node_of, row_at};
ghost use Rattle.syn_balance.specs.Heaps.{AreLeaves, leaf, leaf_order, literal_in, level_of};
ghost use Rattle.syn_balance.specs.Joining.{IsJoining};
ghost use Rattle.syn_balance.specs.Leaves.{weight};
ghost use Rattle.syn_balance.specs.Rule.{AreOne, JoinsLeast};
ghost use Rattle.syn_hashed.specs.Growing.{Extends, IsAnd, IsJoin, level_by, value_by};
ghost use Rattle.syn_hashed.specs.Joined.{joined_lit, joined_rows};

use std::alloc::{AllocError, Global};
use std::cmp::Reverse;
use std::collections::BinaryHeap;
use syn_hashed::HashedRows;
use syn_rows::{Lit, row_level};

// The AND of two literals, with the levels of all rows.
fn and(hashed: &mut HashedRows, levels: &mut Vec<u32>, a: Lit, b: Lit) -> Result<Lit, AllocError>
    requires levels { levels.old.items ≡ levels_of hashed.old.rows.items }
    requires first { node_of a < length hashed.old.rows.items }
    requires second { node_of b < length hashed.old.rows.items }
    requires room { length hashed.old.rows.items + 1 < NODE_LIMIT }
    ensures sources { hashed.new.source_count ≡ hashed.old.source_count }
    ensures grows { Extends hashed.old.rows.items hashed.new.rows.items }
    ensures few { length hashed.new.rows.items ≤ length hashed.old.rows.items + 1 }
    ensures levels { OnOk result (levels.new.items ≡ levels_of hashed.new.rows.items) }
    ensures there { IfOk result (λ l. node_of l < length hashed.new.rows.items) }
    ensures value { IfOk result (λ l. IsAnd hashed.old.rows.items a b hashed.new.rows.items l) }
    ensures joined { IfOk result (λ l. IsJoin hashed.new.rows.items a b l) }
    ensures literal { IfOk result (λ l. l ≡ joined_lit hashed.old.rows.items a b) }
    ensures rows { OnOk result (hashed.new.rows.items ≡ joined_rows hashed.old.rows.items a b) }
{
    let literal = hashed.and(a, b)?;
    if levels.len() < hashed.rows.len() {
        let node = levels.len();
        let level = row_level(levels.as_slice(), node, hashed.rows[node]);
        levels.push(level)?;
    }
    Ok(literal)
}

// Joins the two least leaves of a heap.
fn join_least(
    hashed: &mut HashedRows,
    levels: &mut Vec<u32>,
    heap: &mut BinaryHeap<Reverse<(u32, Lit)>>,
) -> Result<(), AllocError>
    requires levels { levels.old.items ≡ levels_of hashed.old.rows.items }
    requires leaves { AreLeaves hashed.old.rows.items (heap_items heap.old) }
    requires order { IsHeap leaf_order (heap_items heap.old) }
    requires two { 2 ≤ heap_len heap.old }
    requires room { length hashed.old.rows.items + length (heap_items heap.old) ≤ NODE_LIMIT }
    ensures sources { hashed.new.source_count ≡ hashed.old.source_count }
    ensures levels { OnOk result (levels.new.items ≡ levels_of hashed.new.rows.items) }
    ensures leaves { OnOk result (AreLeaves hashed.new.rows.items (heap_items heap.new)) }
    ensures order { OnOk result (IsHeap leaf_order (heap_items heap.new)) }
    ensures fewer { OnOk result (heap_len heap.new + 1 ≡ heap_len heap.old) }
    ensures joining { OnOk result (IsJoining hashed.old.rows.items (map literal_in (heap_items heap.old)) hashed.new.rows.items (map literal_in (heap_items heap.new))) }
    ensures least { OnOk result (JoinsLeast hashed.old.rows.items (map literal_in (heap_items heap.old)) hashed.new.rows.items (map literal_in (heap_items heap.new))) }
{
    let Some(Reverse((_, first))) = heap.pop() else {
        unreachable()
    };
    let Some(Reverse((_, second))) = heap.pop() else {
        unreachable()
    };
    let literal = and(hashed, levels, first, second)?;
    let level = levels[literal.node() as usize];
    heap.push(Reverse((level, literal)))?;
    Ok(())
}

// The leaves, each with its level.
fn with_levels(
    alloc: Global,
    levels: &[u32],
    leaves: &[Lit],
) -> Result<Vec<Reverse<(u32, Lit)>>, AllocError>
    requires { All (λ l. node_of l < length levels.now) leaves.now }
    ensures { IfOk result (λ v. v.items ≡ map (leaf levels.now) leaves.now) }
{
    let mut entries = Vec::new(alloc);
    for lit in leaves {
        entries.push(Reverse((levels[lit.node() as usize], *lit)))?;
    }
    Ok(entries)
}

/// The AND of the leaves: each time the two of least level, and of those of one level the two of least number, become one.
pub fn join(
    alloc: Global,
    hashed: &mut HashedRows,
    levels: &mut Vec<u32>,
    leaves: &[Lit],
) -> Result<Lit, AllocError>
    requires levels { levels.old.items ≡ levels_of hashed.old.rows.items }
    requires some { 0 < length leaves.now }
    requires there { All (λ l. node_of l < length hashed.old.rows.items) leaves.now }
    requires room { length hashed.old.rows.items + length leaves.now ≤ NODE_LIMIT }
    ensures sources { hashed.new.source_count ≡ hashed.old.source_count }
    ensures levels { OnOk result (levels.new.items ≡ levels_of hashed.new.rows.items) }
    ensures joining { IfOk result (λ l. IsJoining hashed.old.rows.items leaves.now hashed.new.rows.items (l ∷ [])) }
    ensures one { IfOk result (λ l. AreOne hashed.old.rows.items leaves.now hashed.new.rows.items l) }
{
    let entries = with_levels(alloc, levels.as_slice(), leaves)?;
    let mut heap = BinaryHeap::from(entries);
    while heap.len() > 1 {
        join_least(hashed, levels, &mut heap)?;
    }
    let Some(Reverse((_, literal))) = heap.pop() else {
        unreachable()
    };
    Ok(literal)
}
