//! The function of a node over a cut.

ghost use Rattle.std.specs.Prelude.{◌≡◌, ℕ, ◌<◌, ◌≤◌, Bool, List, [], true, false, IfNone, IfOk, IfSome, OnOk, length, map, reverse, slice_index_or};
ghost use Rattle.std.specs.List.{insert};
ghost use Rattle.syn_rows.specs.Rows.{InOrder, node_of, refs_of, row_at};
ghost use Rattle.syn_rows.specs.Values.{RowFits, is_open, lit_value};
ghost use Rattle.syn_truth.specs.declared.TheConstants.{MAX_VARS};
ghost use Rattle.syn_truth.specs.Truth.{value_of};
ghost use Rattle.syn_rows.specs.Nodes.{has_node};
ghost use Rattle.syn_cones.specs.Cones.{IsCut, IsTruthOver};
ghost use Rattle.syn_cones.specs.Walk.{FitsInside, IsConeWalk, TablesAgree, has_all, have_vars, inner_refs, put_node, put_nodes, rises};

use crate::words::small_table;
use smallvec::SmallVec;
use std::alloc::{AllocError, Global};
use syn_rows::{Lit, Row};
use syn_truth::Truth;

// The place of a node.
#[inline]
pub(crate) fn place_of(nodes: &[u32], node: u32) -> Option<usize>
    ensures some { IfSome result (λ i. (i < length nodes.now) × (slice_index_or nodes.now i 0 ≡ node)) }
    ensures none { IfNone result (has_node nodes.now node ≡ false) }
{
    for (i, other) in nodes.iter().enumerate() {
        if *other == node {
            return Some(i);
        }
    }
    None
}

/// Where a node belongs among rising nodes: the place, or none where it is there.
pub fn gap_for(nodes: &[u32], node: u32) -> Option<usize>
    ensures some { IfSome result (λ i. (i ≤ length nodes.now) × (put_node node nodes.now ≡ insert nodes.now i node)) }
    ensures none { IfNone result (put_node node nodes.now ≡ nodes.now) }
{
    for (i, other) in nodes.iter().enumerate() {
        if node < *other {
            return Some(i);
        }
        if node == *other {
            return None;
        }
    }
    Some(nodes.len())
}

// Puts a node in its place among rising nodes, where it isn't there.
fn put_node(nodes: &mut SmallVec<u32, 32>, node: u32) -> Result<(), AllocError>
    ensures { OnOk result (nodes.new.items ≡ put_node node nodes.old.items) }
{
    match gap_for(nodes.as_slice(), node) {
        Some(i) => {
            nodes.insert(i, node)?;
            Ok(())
        }
        None => Ok(()),
    }
}

// Puts the nodes that a row refers to among those that wait.
fn put_refs(waiting: &mut SmallVec<u32, 32>, row: Row) -> Result<(), AllocError>
    ensures { OnOk result (waiting.new.items ≡ put_nodes (refs_of row) waiting.old.items) }
{
    match row {
        Row::And(a, b) => {
            put_node(waiting, a.node())?;
            put_node(waiting, b.node())
        }
        Row::Alias(a) => put_node(waiting, a.node()),
        _ => Ok(()),
    }
}

// Puts the nodes that a node refers to among those that wait, where it isn't a leaf.
fn visit(
    rows: &[Row],
    leaves: &[u32],
    node: u32,
    waiting: &mut SmallVec<u32, 32>,
) -> Result<(), AllocError>
    requires { node < length rows.now }
    ensures { OnOk result (waiting.new.items ≡ put_nodes (inner_refs rows.now leaves.now node) waiting.old.items) }
{
    match place_of(leaves, node) {
        Some(_) => Ok(()),
        None if node == 0 => Ok(()),
        None => put_refs(waiting, rows[node as usize]),
    }
}

// The nodes that are led to from the root, each before those that it refers to.
fn cone_of(
    alloc: Global,
    rows: &[Row],
    leaves: &[u32],
    root: u32,
) -> Result<SmallVec<u32, 32>, AllocError>
    requires order { InOrder rows.now }
    requires root { root < length rows.now }
    ensures walk { IfOk result (λ cone. IsConeWalk rows.now leaves.now root cone.items []) }
    ensures rising { IfOk result (λ cone. rises (reverse cone.items) ≡ true) }
{
    let mut cone = SmallVec::new(alloc);
    let mut waiting = SmallVec::new(alloc);
    waiting.push(root)?;
    while let Some(node) = waiting.pop() {
        visit(rows, leaves, node, &mut waiting)?;
        cone.push(node)?;
    }
    Ok(cone)
}

// How many hints there are: a place for each number modulo this one.
const HINTS: usize = 64;

// The place of a node among rising nodes. It probably stands where the hint for its number says, and else is found by
// halves.
#[inline]
fn place_near(nodes: &[u32], hints: &[u8; HINTS], node: u32) -> Option<usize>
    requires { rises nodes.now ≡ true }
    ensures some { IfSome result (λ i. (i < length nodes.now) × (slice_index_or nodes.now i 0 ≡ node)) }
    ensures none { IfNone result (has_node nodes.now node ≡ false) }
{
    let guess = hints[node as usize % HINTS] as usize;
    if guess < nodes.len() && nodes[guess] == node {
        return Some(guess);
    }
    match nodes.binary_search(&node) {
        Ok(i) => Some(i),
        Err(_) => None,
    }
}

// The table of a literal, from those of nodes among which its node is.
fn lit_table(nodes: &[u32], hints: &[u8; HINTS], tables: &[Truth], lit: Lit) -> Truth
    requires count { length tables.now ≡ length nodes.now }
    requires rising { rises nodes.now ≡ true }
    requires there { has_node nodes.now (node_of lit) ≡ true }
    ensures vars { (vars : ℕ) → have_vars vars tables.now ≡ true → result.vars ≡ vars }
    ensures values { (v : ℕ → Bool) (xs : List Bool) → have_vars (length xs) tables.now ≡ true → TablesAgree v xs nodes.now tables.now → lit_value v lit ≡ value_of result xs }
{
    match place_near(nodes, hints, lit.node()) {
        Some(i) if lit.complemented() => tables[i].not(),
        Some(i) => tables[i],
        None => Truth::default(),
    }
}

// The table that a row gives its node, from those of nodes among which are all that it refers to.
fn row_table(nodes: &[u32], hints: &[u8; HINTS], tables: &[Truth], row: Row, vars: u8) -> Truth
    requires few { vars ≤ MAX_VARS }
    requires count { length tables.now ≡ length nodes.now }
    requires vars { have_vars vars tables.now ≡ true }
    requires rising { rises nodes.now ≡ true }
    requires there { has_all nodes.now (refs_of row) ≡ true }
    ensures vars { result.vars ≡ vars }
    ensures values { (n : ℕ) (v : ℕ → Bool) (xs : List Bool) → length xs ≡ vars → TablesAgree v xs nodes.now tables.now → is_open row ≡ false → RowFits v n row → v n ≡ value_of result xs }
{
    match row {
        Row::And(a, b) => {
            let first = lit_table(nodes, hints, tables, a);
            first.and(lit_table(nodes, hints, tables, b))
        }
        Row::Alias(a) => lit_table(nodes, hints, tables, a),
        _ => Truth::constant(vars, false),
    }
}

// The table of a node over leaves, from those of nodes among which are all that it refers to.
fn node_table(
    rows: &[Row],
    leaves: &[u32],
    nodes: &[u32],
    hints: &[u8; HINTS],
    tables: &[Truth],
    node: u32,
) -> Truth
    requires few { length leaves.now ≤ MAX_VARS }
    requires node { node < length rows.now }
    requires count { length tables.now ≡ length nodes.now }
    requires vars { have_vars (length leaves.now) tables.now ≡ true }
    requires rising { rises nodes.now ≡ true }
    requires there { has_all nodes.now (inner_refs rows.now leaves.now node) ≡ true }
    ensures vars { result.vars ≡ length leaves.now }
    ensures values { (v : ℕ → Bool) (xs : List Bool) → map v leaves.now ≡ xs → TablesAgree v xs nodes.now tables.now → FitsInside rows.now leaves.now v node → v node ≡ value_of result xs }
{
    match place_of(leaves, node) {
        Some(i) => Truth::var(leaves.len() as u8, i as u8),
        None if node == 0 => Truth::constant(leaves.len() as u8, false),
        None => row_table(
            nodes,
            hints,
            tables,
            rows[node as usize],
            leaves.len() as u8,
        ),
    }
}

// The function of the root over the leaves, by the nodes between, each before those that it refers to.
fn cone_table(
    alloc: Global,
    rows: &[Row],
    leaves: &[u32],
    root: u32,
    cone: SmallVec<u32, 32>,
) -> Result<Truth, AllocError>
    requires few { length leaves.now ≤ MAX_VARS }
    requires order { InOrder rows.now }
    requires root { root < length rows.now }
    requires cut { IsCut rows.now leaves.now root }
    requires walk { IsConeWalk rows.now leaves.now root cone.items [] }
    requires rising { rises (reverse cone.items) ≡ true }
    ensures { IfOk result (IsTruthOver rows.now leaves.now root) }
{
    let mut cone = cone;
    let mut nodes: SmallVec<u32, 32> = SmallVec::new(alloc);
    let mut tables: SmallVec<Truth, 32> = SmallVec::new(alloc);
    let mut hints = [0; HINTS];
    while let Some(node) = cone.pop() {
        let table = node_table(
            rows,
            leaves,
            nodes.as_slice(),
            &hints,
            tables.as_slice(),
            node,
        );
        hints[node as usize % HINTS] = (nodes.len() % 256) as u8;
        nodes.push(node)?;
        tables.push(table)?;
    }
    match place_near(nodes.as_slice(), &hints, root) {
        Some(i) => Ok(tables[i]),
        None => Ok(Truth::default()),
    }
}

/// The function of a node over a cut of it: variable i is leaf i.
///
/// For each choice of values of the leaves its value is that of the node in every valuation that has these at the leaves
/// and fits the rows between; the rows of leaves aren't looked at. The only error is want of memory, which a small cone
/// doesn't take.
pub fn function(alloc: Global, rows: &[Row], root: u32, leaves: &[u32]) -> Result<Truth, AllocError>
    requires few { length leaves.now ≤ MAX_VARS }
    requires order { InOrder rows.now }
    requires root { root < length rows.now }
    requires cut { IsCut rows.now leaves.now root }
    ensures { IfOk result (IsTruthOver rows.now leaves.now root) }
{
    if let Some(table) = small_table(rows, root, leaves) {
        return Ok(table);
    }
    let cone = cone_of(alloc, rows, leaves, root)?;
    cone_table(alloc, rows, leaves, root, cone)
}
