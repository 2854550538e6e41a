//! One node: one path more than a cut may have leaves, or the least cut.

ghost use Rattle.std.specs.Prelude.{◌≡◌, ◌≢◌, ◌+◌, ◌<◌, ◌≤◌, ℕ, List, [], IfOk, false, length, true};
ghost use Rattle.arrayvec.specs.ArrayVec.{array_vec_len};
ghost use Rattle.syn_rows.specs.Nodes.{has_node};
ghost use Rattle.syn_rows.specs.Rows.{row_at};
ghost use Rattle.syn_rows.specs.Reach.{is_and};
ghost use Rattle.syn_cones.specs.Walk.{put_node, rises};
ghost use Rattle.syn_paths.specs.declared.places.Next.TheVariants.{Off};
ghost use Rattle.syn_paths.specs.Tops.{FallsBelow, IsLowFor, label_in};
ghost use Rattle.syn_paths.specs.Adding.{AreStarts};
ghost use Rattle.syn_paths.specs.Searching.{next_at};
ghost use Rattle.syn_paths.specs.Rooms.{AllOff, AreTouched, HoldsPaths, IsExhausted, IsReady, IsRoom};
ghost use Rattle.syn_paths.specs.Outcomes.{AreHashed, AreLeavesTo, IsLeafOf, IsOutcome, IsOwnCut, with_leaf};

use crate::added_paths::add_paths;
use crate::node_facts::is_marked;
use crate::path_lists::lists_from;
use crate::places::{Next, Place, Step};
use crate::room::Room;
use crate::tops::mark_below;
use arrayvec::ArrayVec;
use std::alloc::{AllocError, Global};
use syn_cones::gap_for;
use syn_lists::Items;
use syn_rows::Row;

/// What is found for a node.
#[derive(Debug, Drop)]
pub enum Outcome {
    /// One path more than a cut may have leaves.
    Paths(Items<Items<u32>>),
    /// The least cut.
    Cut(ArrayVec<u32, 8>),
}

// Puts a leaf in its place.
fn put_leaf(leaves: &mut ArrayVec<u32, 8>, node: u32)
    requires { length (put_node node leaves.old.items) ≤ 8 }
    ensures { leaves.new.items ≡ put_node node leaves.old.items }
{
    if let Some(i) = gap_for(leaves.as_slice(), node) {
        leaves.insert(i, node);
    }
}

// Puts the node of a place in its place, where it is a leaf: reached and not entered.
fn add_leaf(leaves: &mut ArrayVec<u32, 8>, place: Place, ins: &[u32], stamp: u32)
    requires stamp { 0 < stamp }
    requires few { length (with_leaf ins.now stamp leaves.old.items place) ≤ 8 }
    ensures { leaves.new.items ≡ with_leaf ins.now stamp leaves.old.items place }
{
    if let Place::Out(node) = place {
        if !is_marked(ins, stamp, node) {
            put_leaf(leaves, node);
        }
    }
}

// The leaves, rising: what a search reached and didn't enter.
fn leaves_of(trail: &[Step], ins: &[u32], stamp: u32) -> ArrayVec<u32, 8>
    requires stamp { 0 < stamp }
    requires few { (found : List ℕ) → rises found ≡ true → ((v : ℕ) → has_node found v ≡ true → IsLeafOf trail.now ins.now stamp (length trail.now) v) → length found ≤ 8 }
    ensures { AreLeavesTo trail.now ins.now stamp (length trail.now) result.items }
{
    let mut leaves = ArrayVec::new();
    for step in trail {
        add_leaf(&mut leaves, step.place, ins, stamp);
    }
    leaves
}

// Takes a node off its path.
fn take_off(next: &mut [Next], node: u32)
    ensures length { length next.new ≡ length next.old }
    ensures off { next_at next.new node ≡ Off }
    ensures others { (v : ℕ) → v ≢ node → next_at next.new v ≡ next_at next.old v }
{
    if (node as usize) < next.len() {
        next[node as usize] = Next::Off;
    }
}

// Takes these nodes off their paths.
fn take_all_off(next: &mut [Next], touched: &[u32])
    requires { AreTouched next.old touched.now }
    ensures length { length next.new ≡ length next.old }
    ensures off { AllOff next.new }
{
    for node in touched {
        take_off(next, *node);
    }
}

// Begins with a node: its starts, and no path.
fn begin(
    rows: &[Row],
    labels: &[u32],
    root: u32,
    level: u32,
    room: &mut Room,
) -> Result<(), AllocError>
    requires hashed { AreHashed rows.now }
    requires root { root < length rows.now }
    requires falls { FallsBelow rows.now (label_in labels.now) root }
    requires low { IsLowFor rows.now (label_in labels.now) root level }
    requires room { IsReady (length rows.now) room.old }
    ensures room { IfOk result (λ u. IsRoom (length rows.now) room.new) }
    ensures starts { IfOk result (λ u. AreStarts rows.now labels.now root level room.new.starts.items) }
    ensures paths { IfOk result (λ u. HoldsPaths rows.now labels.now root level room.new.next.items room.new.sources.items room.new.touched.items) }
    ensures none { IfOk result (λ u. room.new.sources.items ≡ []) }
{
    let stamp = room.marks.next();
    room.tops.clear();
    room.starts.clear();
    room.sources.clear();
    room.touched.clear();
    mark_below(
        rows,
        labels,
        level,
        room.marks.below.as_mut_slice(),
        stamp,
        &mut room.tops,
        &mut room.starts,
        root,
    )
}

// Ends with a node: no node is on a path.
fn end(room: &mut Room)
    requires touched { AreTouched room.old.next.items room.old.touched.items }
    ensures { (count : ℕ) → IsRoom count room.old → IsReady count room.new }
{
    take_all_off(room.next.as_mut_slice(), room.touched.as_slice());
}

// The least cut, once the last search found no source.
fn least_cut(
    rows: &[Row],
    labels: &[u32],
    root: u32,
    level: u32,
    k: u8,
    room: &Room,
) -> ArrayVec<u32, 8>
    requires hashed { AreHashed rows.now }
    requires gate { is_and (row_at rows.now root) ≡ true }
    requires falls { FallsBelow rows.now (label_in labels.now) root }
    requires low { IsLowFor rows.now (label_in labels.now) root level }
    requires level { 0 < level }
    requires others { (n : ℕ) → is_and (row_at rows.now n) ≡ false → label_in labels.now n ≡ 0 }
    requires few { k ≤ 8 }
    requires room { IsRoom (length rows.now) room.now }
    requires starts { AreStarts rows.now labels.now root level room.now.starts.items }
    requires paths { HoldsPaths rows.now labels.now root level room.now.next.items room.now.sources.items room.now.touched.items }
    requires fewer { length room.now.sources.items < k + 1 }
    requires stamp { 0 < room.now.marks.stamp }
    requires searched { IsExhausted rows.now room.now }
    ensures { IsOwnCut rows.now labels.now root level k result.items }
{
    let _ = rows;
    let _ = labels;
    let _ = (root, level, k);
    let trail = room.trail.as_slice();
    let ins = room.marks.ins.as_slice();
    leaves_of(trail, ins, room.marks.stamp)
}

/// For a node over others of labels up to a level: `k + 1` paths that share no node from sources into its top, where there
/// are as many; else the least cut outside the top, of at most `k` leaves. The only error is want of memory.
pub fn find(
    alloc: Global,
    rows: &[Row],
    labels: &[u32],
    root: u32,
    level: u32,
    k: u8,
    room: &mut Room,
) -> Result<Outcome, AllocError>
    requires hashed { AreHashed rows.now }
    requires gate { is_and (row_at rows.now root) ≡ true }
    requires falls { FallsBelow rows.now (label_in labels.now) root }
    requires low { IsLowFor rows.now (label_in labels.now) root level }
    requires level { 0 < level }
    requires others { (n : ℕ) → is_and (row_at rows.now n) ≡ false → label_in labels.now n ≡ 0 }
    requires few { k ≤ 8 }
    requires room { IsReady (length rows.now) room.old }
    ensures room { IfOk result (λ o. IsReady (length rows.now) room.new) }
    ensures outcome { IfOk result (IsOutcome rows.now labels.now root level k) }
{
    begin(rows, labels, root, level, room)?;
    if add_paths(rows, labels, root, level, k as usize + 1, room)? {
        let next = room.next.as_slice();
        let sources = room.sources.as_slice();
        let lists = lists_from(alloc, rows, labels, root, level, next, sources)?;
        end(room);
        return Ok(Outcome::Paths(Items::of(lists)));
    }
    let leaves = least_cut(rows, labels, root, level, k, room);
    end(room);
    Ok(Outcome::Cut(leaves))
}
