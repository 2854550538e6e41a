//! Which cuts are listed, node by node.

ghost use Rattle.std.specs.Prelude.{◌≡◌, ◌≢◌, ℕ, List, ◌+◌, ◌^◌, ◌++◌, ◌∷◌, ◌<◌, ◌≤◌, [], All, IfOk, IfSome, IsTrue, OnOk, length, slice_set};
ghost use Rattle.syn_truth.specs.declared.TheConstants.{MAX_VARS};
ghost use Rattle.syn_rows.specs.declared.Row.{Row};
ghost use Rattle.syn_rows.specs.Rows.{AllRefs, InOrder};
ghost use Rattle.syn_cuts.specs.Cuts.{listed_cuts, row_cuts};
ghost use Rattle.syn_cuts.specs.Leaves.{leaves_of};
ghost use Rattle.syn_cuts.specs.Lists.{AreListed, IsFound, IsListed, list_at};
ghost use Rattle.syn_cuts.specs.Naming.{AreFoundFor, listing_of};

use crate::Cut;
use crate::board::Board;
use crate::found::Found;
use crate::levels::{Finder, found_by_levels};
use crate::lists::CutLists;
use crate::unions::{CUTS_PER_NODE, merge_cut_sets};
use arrayvec::ArrayVec;
use boxcar::slot::SlotRule;
use boxcar::tag::{Names, Tag};
use std::alloc::{AllocError, Global};
use std::thread::Threads;
use syn_rows::Row;
use syn_workers::Workers;

// The first unions of the listed cuts of the nodes that a row refers to.
fn row_unions(lists: &CutLists, row: Row, k: usize) -> ArrayVec<Cut, CUTS_PER_NODE>
    requires small { k ≤ MAX_VARS }
    requires refs { AllRefs (λ m. m < length lists.now) row }
    ensures { (n : ℕ) → leaves_of result.items ++ (n ∷ []) ∷ [] ≡ row_cuts k (list_at lists.now) n row }
{
    match row {
        Row::And(a, b) => merge_cut_sets(lists.of(a.node()), lists.of(b.node()), k),
        _ => ArrayVec::new(),
    }
}

// Whether a node has its list.
fn has_list(lists: &CutLists, node: u32) -> bool
    requires { node < length lists.now }
    ensures { IsTrue result → list_at lists.now node ≢ [] }
{
    !lists.of(node).is_empty()
}

// The listed cuts of a node, where they are found.
fn list_of(known: &Board<Found, IsListedFor>, node: u32) -> Option<&[Cut]>
    ensures { IfSome result (λ cuts. (k : ℕ) (rows : List Row) → known.now.tag.numbers ≡ listing_of k rows → leaves_of cuts.now ≡ list_at (listed_cuts k rows) node) }
{
    let (found, index) = known.of(node)?;
    let cuts = found.list(index, node)?;
    Some(cuts)
}

// The listed cuts of a node but the last, where those that it refers to have their lists.
fn find(
    rows: &[Row],
    known: &Board<Found, IsListedFor>,
    node: u32,
    k: usize,
) -> Option<ArrayVec<Cut, CUTS_PER_NODE>>
    requires small { k ≤ MAX_VARS }
    requires order { InOrder rows.now }
    requires name { known.now.tag.numbers ≡ listing_of k rows.now }
    requires node { node < length rows.now }
    ensures { IfSome result (λ kept. IsListed k rows.now node (leaves_of kept.items)) }
{
    match rows[node as usize] {
        Row::And(a, b) => {
            let left = list_of(known, a.node())?;
            let right = list_of(known, b.node())?;
            Some(merge_cut_sets(left, right, k))
        }
        _ => Some(ArrayVec::new()),
    }
}

// The lists of those of these nodes for which all that they refer to have their lists.
fn find_all(
    alloc: Global,
    rows: &[Row],
    known: &Board<Found, IsListedFor>,
    nodes: &[u32],
    k: usize,
) -> Result<Found, AllocError>
    requires small { k ≤ MAX_VARS }
    requires order { InOrder rows.now }
    requires name { known.now.tag.numbers ≡ listing_of k rows.now }
    ensures { IfOk result (All (IsFound k rows.now)) }
{
    let mut found = Found::with_room(alloc, nodes.len())?;
    for node in nodes {
        if (*node as usize) < rows.len() {
            if let Some(kept) = find(rows, known, *node, k) {
                found.push(*node, kept)?;
            }
        }
    }
    found.shrink_to_fit();
    Ok(found)
}

// Sets lists that were found.
fn set_all(rows: &[Row], lists: &mut CutLists, found: Found, k: usize) -> Result<(), AllocError>
    requires lists { AreListed k rows.now lists.old }
    requires found { All (IsFound k rows.now) found }
    ensures { OnOk result (AreListed k rows.now lists.new) }
{
    lists.set_found(found)?;
    Ok(())
}

// Sets the list of a node that has none, where all nodes below have theirs.
fn fill(rows: &[Row], lists: &mut CutLists, node: u32, k: usize) -> Result<(), AllocError>
    requires small { k ≤ MAX_VARS }
    requires order { InOrder rows.now }
    requires node { node < length rows.now }
    requires lists { AreListed k rows.now lists.old }
    requires below { (m : ℕ) → m < node → list_at lists.old m ≡ list_at (listed_cuts k rows.now) m }
    ensures { OnOk result (lists.new ≡ slice_set lists.old node (list_at (listed_cuts k rows.now) node)) }
{
    if has_list(lists, node) {
        return Ok(());
    }
    let kept = row_unions(lists, rows[node as usize], k);
    lists.set(node, kept)?;
    Ok(())
}

// Sets the lists of the nodes that have none, in order.
fn sweep(rows: &[Row], lists: &mut CutLists, k: usize) -> Result<(), AllocError>
    requires small { k ≤ MAX_VARS }
    requires few { length rows.now < 2 ^ 32 }
    requires order { InOrder rows.now }
    requires lists { AreListed k rows.now lists.old }
    ensures { OnOk result (lists.new ≡ listed_cuts k rows.now) }
{
    for n in 0..rows.len() {
        fill(rows, lists, n as u32, k)?;
    }
    Ok(())
}

// Rows whose cuts are listed, with at most `k` leaves.
#[derive(Drop)]
struct Listing<'a> {
    rows: &'a [Row],
    k: usize,
    ghost small: { k ≤ MAX_VARS },
}

// What is found for a listing of this name are listed cuts.
struct IsListedFor;

impl SlotRule<Found> for IsListedFor {
    ghost holds = { AreFoundFor };
}

impl<'a> Names<Listing<'a>> for IsListedFor {
    ghost numbers = { λ l. listing_of l.k l.rows.now };
}

impl<'a> Finder<Found, IsListedFor> for Listing<'a> {
    ghost is_named = { λ l name. InOrder l.rows.now × (name ≡ listing_of l.k l.rows.now) };

    fn find(
        &self,
        alloc: Global,
        known: &Board<Found, IsListedFor>,
        nodes: &[u32],
    ) -> Result<Found, AllocError> {
        let found = find_all(alloc, self.rows, known, nodes, self.k)?;
        Ok(found)
    }
}

// Lists of cuts as found by several workers, with at most `k` leaves.
fn listed_by_levels<R: Threads + Sync>(
    rt: &R,
    alloc: Global,
    rows: &[Row],
    k: usize,
    workers: Workers,
) -> Result<Vec<Found>, AllocError>
    requires small { k ≤ MAX_VARS }
    requires few { length rows.now + 1 < 2 ^ 32 }
    requires order { InOrder rows.now }
    ensures { IfOk result (λ all. All (λ found. All (IsFound k rows.now) found) all.items) }
{
    let listing = Listing { rows, k };
    let name = Tag::of::<Listing<'_>, IsListedFor>(&listing);
    let all = found_by_levels(rt, alloc, rows, &listing, &name, workers)?;
    Ok(all)
}

// Sets all lists that were found.
fn set_each(rows: &[Row], lists: &mut CutLists, all: Vec<Found>, k: usize) -> Result<(), AllocError>
    requires lists { AreListed k rows.now lists.old }
    requires found { All (λ found. All (IsFound k rows.now) found) all.items }
    ensures { OnOk result (AreListed k rows.now lists.new) }
{
    for found in all {
        set_all(rows, lists, found, k)?;
    }
    Ok(())
}

/// The listed cuts, with at most `k` leaves, of each node of rows in order.
///
/// With several workers the nodes of a level are shared among them, and then the lists of nodes
/// that have none yet are found in order; with one worker that is all.
pub(crate) fn listed_rows<R: Threads + Sync>(
    rt: &R,
    alloc: Global,
    rows: &[Row],
    k: usize,
    workers: Workers,
) -> Result<CutLists, AllocError>
    requires small { k ≤ MAX_VARS }
    requires few { length rows.now + 1 < 2 ^ 32 }
    requires order { InOrder rows.now }
    ensures { IfOk result (λ lists. lists ≡ listed_cuts k rows.now) }
{
    let mut lists = CutLists::empty(alloc, rows.len())?;
    if workers.number() > 1 {
        let all = listed_by_levels(rt, alloc, rows, k, workers)?;
        set_each(rows, &mut lists, all, k)?;
    }
    sweep(rows, &mut lists, k)?;
    Ok(lists)
}
