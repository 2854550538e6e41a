//! The sweep by values: nodes of a graph of few sources, merged where their tables agree.

ghost use Rattle.std.specs.Prelude.{◌≡◌, ℕ, ◌-◌, ◌^◌, ◌<◌, ◌≤◌, All, Bool, List, length, OnOk};
ghost use Rattle.syn_rows.specs.declared.Row.{Row};
ghost use Rattle.syn_rows.specs.declared.TheConstants.{NODE_LIMIT};
ghost use Rattle.syn_rows.specs.Joining.{lit_of};
ghost use Rattle.syn_rows.specs.Rows.{node_of};
ghost use Rattle.syn_rows.specs.Values.{lit_value};
ghost use Rattle.syn_hashed.specs.Hashed.{IsHashed, lit_at};
ghost use Rattle.syn_fraig.specs.Merging.{IsMerged, SameBy};
ghost use Rattle.syn_fraig.specs.Tables.{AllAlike, AreAlike, AreAlikeIn, AreTables, HasTables};

use crate::candidates::candidates;
use crate::depths::Depths;
use crate::merging::{merge, reduce, standing};
use crate::tables::{fill, literal_table, round_count};
use std::alloc::{AllocError, Global};
use syn_rows::{Lit, Row};
use syn_sat::{at, put};
use syn_truth::Truth;

/// Graphs of at most so many sources are swept this way.
pub(crate) const FEW: u32 = 12;

// A node's candidate where their tables are the same, else the node's own literal.
fn judged(tables: &[Truth], node: u32, lit: Lit) -> Lit
    requires there { node < length tables.now }
    requires few { length tables.now < NODE_LIMIT }
    requires vars { All (λ t. t.vars ≡ 8) tables.now }
    ensures there { node_of result < length tables.now }
    ensures values { (v : ℕ → Bool) (xs : List Bool) → length xs ≡ 8 → AreTables tables.now v xs → v node ≡ lit_value v result }
    ensures kept { (v : ℕ → Bool) → v node ≡ lit_value v lit → v node ≡ lit_value v result }
{
    let own = Lit::of(node, false);
    if lit.node() as usize >= tables.len() {
        return own;
    }
    let table = tables[node as usize];
    let other = literal_table(tables, lit);
    if table.low == other.low && table.high == other.high {
        lit
    } else {
        own
    }
}

// Leaves out the candidates whose tables differ from their nodes'.
fn compare(tables: &[Truth], alike: &mut [Lit])
    requires long { length alike.old ≡ length tables.now }
    requires few { length tables.now < NODE_LIMIT }
    requires vars { All (λ t. t.vars ≡ 8) tables.now }
    ensures here { (rows : List Row) (round : ℕ) → HasTables rows round tables.now → AreAlike rows round alike.new }
    ensures kept { (rows : List Row) (round : ℕ) → length rows ≡ length tables.now → AreAlike rows round alike.old → AreAlike rows round alike.new }
{
    for node in 0..alike.len() as u32 {
        alike[node as usize] = judged(tables, node, alike[node as usize]);
    }
}

// Leaves out the candidates that differ from their nodes for some values of the sources.
fn settle(
    count: u32,
    rows: &[Row],
    tables: &mut Vec<Truth>,
    alike: &mut [Lit],
) -> Result<(), AllocError>
    requires hashed { IsHashed count rows.now }
    requires few { count ≤ 12 }
    requires limit { length rows.now < NODE_LIMIT }
    requires long { length alike.old ≡ length rows.now }
    ensures { OnOk result ((round : ℕ) → round < 2 ^ (count - 8) → AreAlike rows.now round alike.new) }
{
    for round in 0..round_count(count) {
        fill(count, rows, round, tables)?;
        compare(tables.as_slice(), alike);
    }
    Ok(())
}

// The literal of a node's value whose node leads those alike.
fn leading(alike: &[Lit], leads: &[u32], node: u32) -> Lit
    requires there { node < length alike.now }
    requires few { length alike.now < NODE_LIMIT }
    ensures { (v : ℕ → Bool) → AreAlikeIn v (length alike.now) alike.now → v node ≡ lit_value v result }
{
    let first = alike[node as usize];
    let lead = at(leads, first.node() as usize, node);
    if lead as usize >= alike.len() {
        return first;
    }
    let same = alike[lead as usize];
    let lit = Lit::of(lead, false);
    if same.node() != first.node() {
        first
    } else if same.0 == first.0 {
        lit
    } else {
        lit.not()
    }
}

// Merges a node with what stands for a literal of its value.
fn merge_alike(count: u32, rows: &[Row], now: &mut [Row], node: u32, lit: Lit)
    requires merged { IsMerged count rows.now now.old }
    requires gate { count < node }
    requires there { node < length now.old }
    requires below { node_of lit < node }
    requires same { SameBy rows.now (lit_of node) lit }
    ensures { IsMerged count rows.now now.new }
{
    let _ = count;
    merge(rows, now, node, standing(now, lit));
}

// One node: it is merged, or leads those alike where the one that did lies deeper.
fn step(
    count: u32,
    rows: &[Row],
    now: &mut [Row],
    alike: &[Lit],
    leads: &mut [u32],
    depths: &mut Depths,
    node: u32,
)
    requires merged { IsMerged count rows.now now.old }
    requires same { AllAlike rows.now alike.now }
    requires few { length rows.now < NODE_LIMIT }
    requires long { length alike.now ≡ length rows.now }
    requires gate { count < node }
    requires there { node < length now.old }
    ensures { IsMerged count rows.now now.new }
{
    reduce(count, rows, now, node);
    depths.enter(now, node);
    let lit = leading(alike, leads, node);
    if lit.node() < node {
        if depths.is_low(node, standing(now, lit)) {
            merge_alike(count, rows, now, node, lit);
        } else {
            put(leads, alike[node as usize].node() as usize, node);
        }
    }
}

// Merges all nodes in order. Where levels are kept none is merged with one that lies deeper.
fn merge_all(
    alloc: Global,
    count: u32,
    rows: &[Row],
    now: &mut [Row],
    alike: &[Lit],
    levels: bool,
) -> Result<(), AllocError>
    requires merged { IsMerged count rows.now now.old }
    requires same { AllAlike rows.now alike.now }
    requires few { length rows.now < NODE_LIMIT }
    requires long { length alike.now ≡ length rows.now }
    requires sources { count < length rows.now }
    ensures { OnOk result (IsMerged count rows.now now.new) }
{
    let mut depths = Depths::new(alloc, rows, levels)?;
    let mut leads = Vec::with_capacity(alloc, rows.len())?;
    for node in 0..rows.len() as u32 {
        leads.push(node)?;
    }
    for node in count + 1..rows.len() as u32 {
        step(
            count,
            rows,
            now,
            alike,
            leads.as_mut_slice(),
            &mut depths,
            node,
        );
    }
    Ok(())
}

/// Sweeps the rows of a graph of few sources. The only error is want of memory.
pub(crate) fn sweep_by_values(
    alloc: Global,
    count: u32,
    rows: &[Row],
    now: &mut [Row],
    levels: bool,
) -> Result<(), AllocError>
    requires hashed { IsHashed count rows.now }
    requires few { count ≤ 12 }
    requires limit { length rows.now < NODE_LIMIT }
    requires merged { IsMerged count rows.now now.old }
    ensures { OnOk result (IsMerged count rows.now now.new) }
{
    let mut tables = Vec::with_capacity(alloc, rows.len())?;
    let mut found = candidates(alloc, count, rows, &mut tables)?;
    let alike = found.as_mut_slice();
    settle(count, rows, &mut tables, alike)?;
    drop(tables);
    merge_all(alloc, count, rows, now, alike, levels)
}
