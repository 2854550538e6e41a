//! The walk of the top of a node, which marks what its nodes refer to.

ghost use Rattle.std.specs.Prelude.{◌≡◌, ◌-◌, ◌<◌, ◌≤◌, ℕ, [], IfOk, OnOk, length, slice_set};
ghost use Rattle.std.specs.List.{sum_by};
ghost use Rattle.syn_rows.specs.Rows.{InOrder};
ghost use Rattle.syn_cones.specs.Cones.{Refers, refs_at};
ghost use Rattle.syn_paths.specs.Tops.{IsInTop};
ghost use Rattle.syn_paths.specs.Checking.{AreBelow, AreUpTo, mark_all};
ghost use Rattle.syn_paths.specs.Tops.{label_in};
ghost use Rattle.syn_paths.specs.Adding.{AreStarts};
ghost use Rattle.syn_paths.specs.Walking.{start_all, start_with, wait_all, wait_with};
ghost use Rattle.syn_paths.specs.Tops.{FallsBelow, IsLowFor};

use crate::node_facts::{label_of, row_at};
use std::alloc::AllocError;
use syn_rows::Row;

// Marks a node. One that wasn't marked waits where it is of the level, and is a start where it isn't.
fn enter(
    labels: &[u32],
    level: u32,
    marks: &mut [u32],
    stamp: u32,
    waiting: &mut Vec<u32>,
    starts: &mut Vec<u32>,
    node: u32,
) -> Result<(), AllocError>
    requires { node < length marks.old }
    ensures marks { OnOk result (marks.new ≡ slice_set marks.old node stamp) }
    ensures waiting { OnOk result (waiting.new.items ≡ wait_with labels.now level marks.old stamp waiting.old.items node) }
    ensures starts { OnOk result (starts.new.items ≡ start_with labels.now level marks.old stamp starts.old.items node) }
{
    let known = marks[node as usize] == stamp;
    marks[node as usize] = stamp;
    if known {
        return Ok(());
    }
    if label_of(labels, node) == level {
        waiting.push(node)?;
    } else {
        starts.push(node)?;
    }
    Ok(())
}

// Marks what a node refers to.
fn enter_refs(
    rows: &[Row],
    labels: &[u32],
    level: u32,
    marks: &mut [u32],
    stamp: u32,
    waiting: &mut Vec<u32>,
    starts: &mut Vec<u32>,
    node: u32,
) -> Result<(), AllocError>
    requires order { InOrder rows.now }
    requires node { node < length rows.now }
    requires marks { length marks.old ≡ length rows.now }
    ensures marks { OnOk result (marks.new ≡ mark_all marks.old stamp (refs_at rows.now node)) }
    ensures waiting { OnOk result (waiting.new.items ≡ wait_all labels.now level marks.old stamp waiting.old.items (refs_at rows.now node)) }
    ensures starts { OnOk result (starts.new.items ≡ start_all labels.now level marks.old stamp starts.old.items (refs_at rows.now node)) }
{
    if node == 0 {
        return Ok(());
    }
    match row_at(rows, node) {
        Row::And(a, b) => {
            enter(labels, level, marks, stamp, waiting, starts, a.node())?;
            enter(labels, level, marks, stamp, waiting, starts, b.node())
        }
        Row::Alias(a) => enter(labels, level, marks, stamp, waiting, starts, a.node()),
        _ => Ok(()),
    }
}

/// Marks what the nodes of the top of a node refer to, and lists what of it is outside the top. The only error is want of
/// memory.
pub(crate) fn mark_below(
    rows: &[Row],
    labels: &[u32],
    level: u32,
    marks: &mut [u32],
    stamp: u32,
    waiting: &mut Vec<u32>,
    starts: &mut Vec<u32>,
    root: u32,
) -> Result<(), AllocError>
    requires order { InOrder rows.now }
    requires root { root < length rows.now }
    requires marks { length marks.old ≡ length rows.now }
    requires stamp { 0 < stamp }
    requires stamps { AreUpTo marks.old (stamp - 1) }
    requires empty { waiting.old.items ≡ [] }
    requires none { starts.old.items ≡ [] }
    requires falls { FallsBelow rows.now (label_in labels.now) root }
    requires low { IsLowFor rows.now (label_in labels.now) root level }
    ensures length { IfOk result (λ u. length marks.new ≡ length marks.old) }
    ensures stamps { IfOk result (λ u. AreUpTo marks.new stamp) }
    ensures below { IfOk result (λ u. AreBelow rows.now (IsInTop rows.now (label_in labels.now) root level) marks.new stamp) }
    ensures starts { IfOk result (λ u. AreStarts rows.now labels.now root level starts.new.items) }
{
    waiting.push(root)?;
    while let Some(node) = waiting.pop() {
        enter_refs(rows, labels, level, marks, stamp, waiting, starts, node)?;
    }
    Ok(())
}
