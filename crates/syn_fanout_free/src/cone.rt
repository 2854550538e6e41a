//! The rows that a replacement frees, found by counting references in the cone alone.

ghost use Rattle.std.specs.Prelude.{◌≡◌, ℕ, ◌+◌, ◌*◌, ◌<◌, ◌≤◌, ◌^◌, ◌==◌, ◌&&◌, true, false, nat_le, length, if◌then◌else◌, IfOk, OnOk};
ghost use Rattle.std.specs.List.Sorted.{IsNonDecreasing};
ghost use Rattle.syn_rows.specs.Reach.{is_and};
ghost use Rattle.syn_rows.specs.References.{and_count, refs};
ghost use Rattle.syn_rows.specs.Rows.{InOrder, row_at};
ghost use Rattle.syn_fanout_free.specs.Freed.{IsFreedByCount};
ghost use Rattle.syn_fanout_free.specs.Freeing.{AllReferred, AreFreed, ands_among, IsFreeing, IsTaken, open_to};
ghost use Rattle.syn_rows.specs.Nodes.{has_node};
ghost use Rattle.syn_fanout_free.specs.Saved.{count_in};
ghost use Rattle.syn_fanout_free.specs.Waits.{waits_in};

use crate::worklist::Waiting;
use smallvec::SmallVec;
use std::alloc::{AllocError, Global};
use syn_rows::Row;

// Has each node to which a row refers wait once more for each literal.
fn add_references(row: Row, waiting: &mut Waiting) -> Result<(), AllocError>
    ensures { OnOk result ((m : ℕ) → waits_in waiting.new m ≡ refs m row + waits_in waiting.old m) }
{
    match row {
        Row::And(a, b) => {
            waiting.add(a.node())?;
            waiting.add(b.node())
        }
        Row::Alias(a) => waiting.add(a.node()),
        Row::Free | Row::Source => Ok(()),
    }
}

// Whether a node stands in a list in rising order.
fn has_node(nodes: &[u32], node: u32) -> bool
    requires { IsNonDecreasing nodes.now }
    ensures { result ≡ has_node nodes.now node }
{
    match nodes.binary_search(&node) {
        Ok(_) => true,
        Err(_) => false,
    }
}

/// 1 for an AND, else 0.
pub fn and_count(row: Row) -> u32
    ensures number { result ≡ and_count row }
    ensures few { result < 2 }
{
    match row {
        Row::And(_, _) => 1,
        Row::Free | Row::Source | Row::Alias(_) => 0,
    }
}

fn may_be_freed(rows: &[Row], n: u32, used: &[u32], node: u32) -> bool
    requires within { node < length rows.now }
    requires rises { IsNonDecreasing used.now }
    ensures { result ≡ open_to rows.now n used.now node }
{
    rows[node as usize].is_derived() && !(node == n) && !has_node(used, node)
}

fn dies(rows: &[Row], counts: &[u32], n: u32, used: &[u32], node: u32, often: u128) -> bool
    requires within { node < length rows.now }
    requires same { length counts.now ≡ length rows.now }
    requires rises { IsNonDecreasing used.now }
    ensures { result ≡ (nat_le (count_in counts.now node) often && open_to rows.now n used.now node) }
{
    counts[node as usize] as u128 <= often && may_be_freed(rows, n, used, node)
}

/// Freed rows.
#[derive(Drop)]
pub struct Mffc {
    /// Their nodes, the greatest first.
    pub nodes: SmallVec<u32, 32>,
    /// How many of them are ANDs.
    pub ands: u32,
}

/// The rows that a replacement of the row of n frees: the ANDs and aliases that it doesn't use and whose references all
/// come from the old row of n and from freed rows. Only these rows and what they refer to are visited, until more than
/// `limit` ANDs were found.
pub fn freed(
    alloc: Global,
    rows: &[Row],
    counts: &[u32],
    n: u32,
    used: &[u32],
    limit: u32,
) -> Result<Mffc, AllocError>
    requires few { length rows.now < 2 ^ 31 }
    requires within { n < length rows.now }
    requires same { length counts.now ≡ length rows.now }
    requires order { InOrder rows.now }
    requires rises { IsNonDecreasing used.now }
    requires referred { AllReferred rows.now (count_in counts.now) }
    ensures freed { IfOk result (λ f. f.ands ≤ limit → IsFreedByCount rows.now (count_in counts.now) n (open_to rows.now n used.now) (λ m. has_node f.nodes.items m)) }
    ensures sound { IfOk result (λ f. AreFreed rows.now (count_in counts.now) n (open_to rows.now n used.now) f.nodes.items) }
    ensures ands { IfOk result (λ f. f.ands ≡ ands_among rows.now f.nodes.items) }
{
    let mut waiting = Waiting::new(alloc);
    add_references(rows[n as usize], &mut waiting)?;
    let mut dead = Mffc {
        nodes: SmallVec::new(alloc),
        ands: 0,
    };
    let mut bound = n;
    while let Some((node, often)) = waiting.take() {
        if dead.ands > limit {
            return Ok(dead);
        }
        prove!(node < bound);
        settle(rows, counts, n, used, node, often, &mut waiting, &mut dead)?;
        bound = node;
    }
    Ok(dead)
}

// Frees a node if all its references are among those that were counted.
fn settle(
    rows: &[Row],
    counts: &[u32],
    n: u32,
    used: &[u32],
    node: u32,
    often: u128,
    waiting: &mut Waiting,
    dead: &mut Mffc,
) -> Result<(), AllocError>
    requires few { length rows.now < 2 ^ 31 }
    requires ands { dead.old.ands ≡ ands_among rows.now dead.old.nodes.items }
    requires within { n < length rows.now }
    requires same { length counts.now ≡ length rows.now }
    requires order { InOrder rows.now }
    requires rises { IsNonDecreasing used.now }
    requires taken { IsTaken rows.now (count_in counts.now) n (open_to rows.now n used.now) node often dead.old.nodes.items (waits_in waiting.old) }
    ensures freeing { OnOk result (IsFreeing rows.now (count_in counts.now) n (open_to rows.now n used.now) node dead.new.nodes.items (waits_in waiting.new)) }
    ensures ands { OnOk result (dead.new.ands ≡ ands_among rows.now dead.new.nodes.items) }
{
    if !dies(rows, counts, n, used, node, often) {
        return Ok(());
    }
    let row = rows[node as usize];
    dead.nodes.push(node)?;
    dead.ands += and_count(row);
    add_references(row, waiting)?;
    Ok(())
}
