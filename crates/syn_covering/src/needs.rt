//! Which nodes need LUTs.

ghost use Rattle.std.specs.Prelude.{◌≡◌, ℕ, ◌<◌, ◌&&◌, ◌||◌, ◌==◌, true, false, IfOk, length, map, replicate};
ghost use Rattle.syn_rows.specs.declared.TheConstants.{NODE_LIMIT};
ghost use Rattle.syn_rows.specs.Reach.{is_and};
ghost use Rattle.syn_rows.specs.Rows.{node_of, row_at};
ghost use Rattle.syn_rows.specs.Values.{value_in};
ghost use Rattle.syn_rows.specs.Nodes.{has_node};
ghost use Rattle.syn_truth.specs.declared.TheConstants.{MAX_VARS};
ghost use Rattle.syn_covering.specs.Cuts.{AreLutCuts};
ghost use Rattle.syn_covering.specs.Needs.{IsSwept};

use crate::choice::Choice;
use std::alloc::{AllocError, Global};
use syn_rows::{Lit, Row, no_marks};

// Whether a node is an AND.
#[inline]
fn is_and(rows: &[Row], node: u32) -> bool
    ensures { result ≡ is_and (row_at rows.now node) }
{
    if (node as usize) < rows.len() {
        matches!(rows[node as usize], Row::And(_, _))
    } else {
        false
    }
}

// Marks a node where it is an AND.
fn mark(rows: &[Row], marks: &mut [bool], node: u32)
    requires { length marks.old ≡ length rows.now }
    ensures { (m : ℕ) → value_in marks.new m ≡ (value_in marks.old m || (node == m && is_and (row_at rows.now m))) }
{
    if is_and(rows, node) && (node as usize) < marks.len() {
        marks[node as usize] = true;
    }
}

// Marks those of some nodes that are ANDs.
fn mark_all(rows: &[Row], marks: &mut [bool], nodes: &[u32])
    requires { length marks.old ≡ length rows.now }
    ensures { (m : ℕ) → value_in marks.new m ≡ (value_in marks.old m || (has_node nodes.now m && is_and (row_at rows.now m))) }
{
    for node in nodes {
        mark(rows, marks, *node);
    }
}

// Marks the observed ANDs.
fn mark_observed(rows: &[Row], marks: &mut [bool], observed: &[Lit])
    requires { length marks.old ≡ length rows.now }
    ensures { (m : ℕ) → value_in marks.new m ≡ (value_in marks.old m || (has_node (map node_of observed.now) m && is_and (row_at rows.now m))) }
{
    for lit in observed {
        mark(rows, marks, lit.node());
    }
}

// Marks the leaves of a node's cut that are ANDs, where the node is marked.
fn mark_leaves<C: Choice>(rows: &[Row], choice: &C, marks: &mut [bool], node: u32)
    requires cuts { C.count choice.now ≡ length rows.now }
    requires count { length marks.old ≡ length rows.now }
    requires node { node < length marks.old }
    ensures { (m : ℕ) → value_in marks.new m ≡ (value_in marks.old m || (value_in marks.old node && (has_node (C.leaves choice.now node) m && is_and (row_at rows.now m)))) }
{
    if marks[node as usize] {
        mark_all(rows, marks, choice.cut(node));
    }
}

/// Marks the nodes that need LUTs: the observed ANDs, and the ANDs among the leaves of the cuts of marked nodes. The only
/// error is want of memory.
pub(crate) fn needed<C: Choice>(
    alloc: Global,
    rows: &[Row],
    choice: &C,
    observed: &[Lit],
) -> Result<Vec<bool>, AllocError>
    requires few { length rows.now < NODE_LIMIT }
    requires count { C.count choice.now ≡ length rows.now }
    requires cuts { AreLutCuts MAX_VARS rows.now (C.leaves choice.now) }
    ensures { IfOk result (λ v. IsSwept (C.leaves choice.now) rows.now observed.now v.items 0) }
{
    let mut marks = no_marks(alloc, rows.len())?;
    let slice = marks.as_mut_slice();
    mark_observed(rows, slice, observed);
    sweep(rows, choice, observed, slice);
    Ok(marks)
}

// Marks the leaves of marked nodes, from the last node down, where the observed ANDs are marked.
fn sweep<C: Choice>(rows: &[Row], choice: &C, observed: &[Lit], marks: &mut [bool])
    requires few { length rows.now < NODE_LIMIT }
    requires count { C.count choice.now ≡ length rows.now }
    requires cuts { AreLutCuts MAX_VARS rows.now (C.leaves choice.now) }
    requires observed { IsSwept (C.leaves choice.now) rows.now observed.now marks.old (length rows.now) }
    ensures { IsSwept (C.leaves choice.now) rows.now observed.now marks.new 0 }
{
    let _ = observed;
    for node in (0..rows.len()).rev() {
        mark_leaves(rows, choice, marks, node as u32);
    }
}
