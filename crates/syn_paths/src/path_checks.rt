//! The check of the paths that are shown for a node.

ghost use Rattle.std.specs.Prelude.{◌≡◌, ◌↔◌, ◌-◌, ◌<◌, [], IfOk, IsTrue, true, length};
ghost use Rattle.syn_paths.specs.Paths.{ArePathsInto};
ghost use Rattle.syn_paths.specs.Tops.{IsInTop};
ghost use Rattle.syn_paths.specs.Tops.{FallsBelow, IsLowFor};
ghost use Rattle.syn_rows.specs.Rows.{InOrder};
ghost use Rattle.syn_paths.specs.Rooms.{IsReady};
ghost use Rattle.syn_paths.specs.Checking.{AreBelow, AreUpTo, all_within, are_lists, are_new, is_list, mark_all};
ghost use Rattle.syn_paths.specs.Tops.{label_in};

use crate::node_facts::{is_marked, is_source, label_of, refers};
use crate::room::Room;
use crate::tops::mark_below;
use std::alloc::AllocError;
use syn_lists::Items;
use syn_rows::Row;

// The list is a path from a source up to a marked node, none of the level on it.
fn is_path(
    rows: &[Row],
    labels: &[u32],
    level: u32,
    marks: &[u32],
    stamp: u32,
    list: &[u32],
) -> bool
    requires { 0 < stamp }
    ensures { result ≡ is_list rows.now labels.now level marks.now stamp list.now }
{
    if list.is_empty() {
        return false;
    }
    let mut last = list[0];
    if !is_source(rows, last) || label_of(labels, last) == level {
        return false;
    }
    for i in 1..list.len() {
        let next = list[i];
        if !refers(rows, next, last) || label_of(labels, next) == level {
            return false;
        }
        last = next;
    }
    is_marked(marks, stamp, last)
}

#[tactic(auto, using(crate::proofs::Checked::up_to_set))]
// Marks the nodes of a list. False where one is marked already.
fn meet(met: &mut [u32], stamp: u32, list: &[u32]) -> bool
    requires within { all_within (length met.old) list.now ≡ true }
    requires stamps { AreUpTo met.old stamp }
    ensures length { length met.new ≡ length met.old }
    ensures stamps { AreUpTo met.new stamp }
    ensures new { result ≡ are_new met.old stamp list.now }
    ensures marks { result ≡ true → met.new ≡ mark_all met.old stamp list.now }
{
    for node in list {
        if met[*node as usize] == stamp {
            return false;
        }
        met[*node as usize] = stamp;
    }
    true
}

// Each of the lists is such a path, and no node stands twice over all.
fn are_paths(
    rows: &[Row],
    labels: &[u32],
    level: u32,
    marks: &[u32],
    met: &mut [u32],
    stamp: u32,
    lists: &[Items<u32>],
) -> bool
    requires stamp { 0 < stamp }
    requires order { InOrder rows.now }
    requires marks { length marks.now ≡ length met.old }
    requires stamps { AreUpTo met.old stamp }
    ensures length { length met.new ≡ length met.old }
    ensures stamps { AreUpTo met.new stamp }
    ensures paths { result ≡ are_lists rows.now labels.now level marks.now stamp met.old lists.now }
{
    for list in lists {
        let nodes = list.as_slice();
        if !is_path(rows, labels, level, marks, stamp, nodes) {
            return false;
        }
        if !meet(met, stamp, nodes) {
            return false;
        }
    }
    true
}

/// Whether the lists are so many paths from sources into the top of a node at a level that share no node: each node of a
/// list is a fan-in of the next, the last one of a node of the top, and none is in the top. The only error is want of memory.
pub fn are_paths_for(
    rows: &[Row],
    labels: &[u32],
    node: u32,
    level: u32,
    count: usize,
    lists: &[Items<u32>],
    room: &mut Room,
) -> Result<bool, AllocError>
    requires order { InOrder rows.now }
    requires node { node < length rows.now }
    requires falls { FallsBelow rows.now (label_in labels.now) node }
    requires low { IsLowFor rows.now (label_in labels.now) node level }
    requires room { IsReady (length rows.now) room.old }
    ensures room { IfOk result (λ yes. IsReady (length rows.now) room.new) }
    ensures paths { IfOk result (λ yes. IsTrue yes ↔ ArePathsInto rows.now (IsInTop rows.now (label_in labels.now) node level) count lists.now) }
{
    let stamp = room.marks.next();
    room.tops.clear();
    room.starts.clear();
    mark_below(
        rows,
        labels,
        level,
        room.marks.below.as_mut_slice(),
        stamp,
        &mut room.tops,
        &mut room.starts,
        node,
    )?;
    let below = room.marks.below.as_slice();
    let met = room.marks.ins.as_mut_slice();
    let yes = are_paths(rows, labels, level, below, met, stamp, lists);
    Ok(yes && lists.len() == count)
}
