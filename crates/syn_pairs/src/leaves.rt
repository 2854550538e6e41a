//! The leaves of a node: literals whose AND is the node.

ghost use Rattle.std.specs.Prelude.{◌≡◌, ℕ, ◌++◌, ◌∷◌, [], ◌%◌, IfOk, IfSome, OnOk};
ghost use Rattle.syn_rows.specs.declared.Row.{Row};
ghost use Rattle.syn_rows.specs.Rows.{InOrder, node_of, row_at};
ghost use Rattle.syn_pairs.specs.Conjunctions.{AreLeaves, IsConjunction};

use crate::lists::{at, put};
use std::alloc::{AllocError, Global};
use syn_graph::Graph;
use syn_remaking::fan_ins;
use syn_rows::{Lit, Row};

// Marks the node of a plain literal that is the one reference to it.
fn mark(refs: &[u32], marks: &mut [bool], lit: Lit) {
    let node = lit.node() as usize;
    if !lit.complemented() && at(refs, node, 0) == 1 {
        put(marks, node, true);
    }
}

/// The nodes that another's leaves take in: those with one reference, by a plain literal of an AND. The only error is want of
/// memory, as below.
pub(crate) fn inner_nodes(alloc: Global, graph: &Graph) -> Result<Vec<bool>, AllocError> {
    let rows = graph.rows.as_slice();
    let refs = graph.refs(alloc)?;
    let mut marks = vec![in alloc; false; rows.len()]?;
    for row in rows {
        if let Row::And(a, b) = *row {
            mark(refs.as_slice(), marks.as_mut_slice(), a);
            mark(refs.as_slice(), marks.as_mut_slice(), b);
        }
    }
    Ok(marks)
}

// The two literals whose AND a leaf is, where it is plain and its node is an inner one.
fn parts(rows: &[Row], inner: &[bool], leaf: Lit) -> Option<(Lit, Lit)>
    ensures { IfSome result (λ both. (leaf.0 % 2 ≡ 0) × (row_at rows.now (node_of leaf) ≡ Row.And both.0 both.1)) }
{
    let node = leaf.node() as usize;
    if node >= rows.len() || leaf.complemented() || !at(inner, node, false) {
        return None;
    }
    fan_ins(rows[node])
}

// Both literals wait, behind the others.
fn wait(waiting: &mut Vec<Lit>, both: (Lit, Lit)) -> Result<(), AllocError>
    ensures { OnOk result (waiting.new.items ≡ (waiting.old.items ++ both.0 ∷ []) ++ both.1 ∷ []) }
{
    waiting.push(both.0)?;
    waiting.push(both.1)?;
    Ok(())
}

// The leaf that waited last is found, or the two wait whose AND it is.
fn part(
    rows: &[Row],
    inner: &[bool],
    leaf: Lit,
    waiting: &mut Vec<Lit>,
    found: &mut Vec<Lit>,
) -> Result<(), AllocError>
    ensures { (n : ℕ) → InOrder rows.now → AreLeaves rows.now n (waiting.old.items ++ leaf ∷ []) found.old.items → OnOk result (AreLeaves rows.now n waiting.new.items found.new.items) }
{
    match parts(rows, inner, leaf) {
        Some(both) => wait(waiting, both),
        None => {
            found.push(leaf)?;
            Ok(())
        }
    }
}

// The same of the last of all that wait, if one does.
fn step(
    rows: &[Row],
    inner: &[bool],
    waiting: &mut Vec<Lit>,
    found: &mut Vec<Lit>,
) -> Result<(), AllocError>
    ensures { (n : ℕ) → InOrder rows.now → AreLeaves rows.now n waiting.old.items found.old.items → OnOk result (AreLeaves rows.now n waiting.new.items found.new.items) }
{
    match waiting.pop() {
        Some(leaf) => part(rows, inner, leaf, waiting, found),
        None => Ok(()),
    }
}

/// The leaves of an AND: its two literals, and in place of each that names an inner node the two of that one.
pub(crate) fn leaves(
    alloc: Global,
    rows: &[Row],
    inner: &[bool],
    node: u32,
    a: Lit,
    b: Lit,
) -> Result<Vec<Lit>, AllocError>
    ensures { InOrder rows.now → row_at rows.now node ≡ Row.And a b → IfOk result (λ v. IsConjunction rows.now node v.items) }
{
    let mut waiting = vec![in alloc; a, b]?;
    let mut found = Vec::new(alloc);
    // an inner node is met once
    for _ in 0..rows.len().saturating_mul(2) {
        if waiting.is_empty() {
            break;
        }
        step(rows, inner, &mut waiting, &mut found)?;
    }
    waiting.extend_from_slice(found.as_slice())?;
    Ok(waiting)
}
