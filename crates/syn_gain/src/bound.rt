//! Whether a proposal saves, where a bound is asked first.

ghost use Rattle.std.specs.Prelude.{◌≡◌, ◌+◌, ◌<◌, ◌≤◌, true, false, length, nat_lt, IfOk};
ghost use Rattle.arrayvec.specs.ArrayVec.{array_vec_len};
ghost use Rattle.syn_rows.specs.Rows.{row_at};
ghost use Rattle.syn_rows.specs.Reach.{is_and};
ghost use Rattle.syn_fanout_free.specs.Bounding.{IsMffcSize, IsMostLost};
ghost use Rattle.syn_fanout_free.specs.Saved.{count_in};
ghost use Rattle.syn_plan.specs.declared.TheConstants.{FEW_INDEXES, MAX_INDEXES};
ghost use Rattle.syn_gain.specs.Leaves.{rise_above};
ghost use Rattle.syn_gain.specs.Proposals.{replacement_of};
ghost use Rattle.syn_gain.specs.Replacements.{SavesNothing, SavesSome};
ghost use Rattle.syn_gain.specs.Searching.{new_rows_anywhere};
ghost use Rattle.syn_gain.specs.Uses.{IsUsesOf};
ghost use Rattle.std.specs.List.Sorted.{IsNonDecreasing};
ghost use Rattle.syn_rows.specs.Nodes.{has_node};
ghost use Rattle.syn_fanout_free.specs.Freed.{IsFreedByCount};
ghost use Rattle.syn_fanout_free.specs.Freeing.{AreFreed, ands_among, open_to};

use crate::new_rows::{adds_fewer_anywhere, is_small, place_into};
use crate::{Candidate, PlacedPlan, Uses};
use std::alloc::{AllocError, Global};
use syn_fanout_free::{Change, KeptRows, Mffc, freed};
use syn_graph::Graph;
use syn_plan::{FEW_INDEXES, MAX_INDEXES};

/// Room for what a plan becomes. One value serves for many plans, one after the other.
#[derive(Drop)]
pub struct Room {
    placed: PlacedPlan<FEW_INDEXES>,
    kept: KeptRows,
}

impl Room {
    /// Room that takes no memory yet.
    pub fn new(alloc: Global) -> Room {
        Room {
            placed: PlacedPlan::new(),
            kept: KeptRows::new(alloc),
        }
    }
}

/// How many ANDs go with the row of an AND where these leaves stay: its own, and those that are freed then. All plans over
/// the leaves share the number. Above `limit` the cone that goes isn't followed further, and the answer is a greater number;
/// with `u32::MAX` it is always the number. The only error is want of memory, which a small cone doesn't take.
pub fn mffc_size(
    alloc: Global,
    graph: &Graph,
    uses: &Uses,
    root: u32,
    leaves: &[u32],
    limit: u32,
) -> Result<u32, AllocError>
    requires uses { IsUsesOf uses.now graph.now }
    requires root { is_and (row_at graph.now.rows root) ≡ true }
    requires rise { rise_above 0 leaves.now ≡ true }
    ensures most { IfOk result (λ k. IsMostLost graph.now.rows (count_in uses.now.counts.items) root leaves.now k) }
    ensures exact { IfOk result (λ k. k ≤ limit → IsMffcSize graph.now.rows (count_in uses.now.counts.items) root leaves.now k) }
{
    syn_fanout_free::mffc_size(
        alloc,
        graph.rows.as_slice(),
        uses.counts.as_slice(),
        root,
        leaves,
        limit,
    )
}

/// The rows that go with that of an AND where these nodes stay; once more than `limit` ANDs go, the rest isn't looked for.
/// The only error is want of memory, which a small cone doesn't take.
pub fn mffc(
    alloc: Global,
    graph: &Graph,
    uses: &Uses,
    root: u32,
    spared: &[u32],
    limit: u32,
) -> Result<Mffc, AllocError>
    requires uses { IsUsesOf uses.now graph.now }
    requires root { is_and (row_at graph.now.rows root) ≡ true }
    requires rises { IsNonDecreasing spared.now }
    ensures gone { IfOk result (λ f. AreFreed graph.now.rows (count_in uses.now.counts.items) root (open_to graph.now.rows root spared.now) f.nodes.items) }
    ensures ands { IfOk result (λ f. f.ands ≡ ands_among graph.now.rows f.nodes.items) }
    ensures all { IfOk result (λ f. f.ands ≤ limit → IsFreedByCount graph.now.rows (count_in uses.now.counts.items) root (open_to graph.now.rows root spared.now) (λ m. has_node f.nodes.items m)) }
{
    freed(
        alloc,
        graph.rows.as_slice(),
        uses.counts.as_slice(),
        root,
        spared,
        limit,
    )
}

// Whether a proposal for an AND saves, with room for its plan.
fn saves_in<const INDEXES: usize>(
    alloc: Global,
    graph: &Graph,
    uses: &Uses,
    candidate: Candidate,
    most: u32,
    placed: &mut PlacedPlan<INDEXES>,
    kept: &mut KeptRows,
) -> Result<bool, AllocError>
    requires uses { IsUsesOf uses.now graph.now }
    requires root { is_and (row_at graph.now.rows candidate.root) ≡ true }
    requires most { IsMostLost graph.now.rows (count_in uses.now.counts.items) candidate.root candidate.leaves.now most }
    requires room { candidate.plan.now.leaves + array_vec_len candidate.plan.now.gates < INDEXES }
    requires indexes { INDEXES ≤ MAX_INDEXES }
    ensures some { IfOk result (λ some. some ≡ true → SavesSome graph.now.rows graph.now.observed (replacement_of candidate.entry)) }
    ensures none { IfOk result (λ some. some ≡ false → SavesNothing graph.now.rows graph.now.observed (replacement_of candidate.entry)) }
{
    let rows = graph.rows.as_slice();
    let row = place_into(rows, &uses.pairs, candidate, placed);
    syn_fanout_free::gain_is_positive(
        alloc,
        rows,
        uses.counts.as_slice(),
        Change {
            node: candidate.root,
            row,
            extra: placed.extra.as_slice(),
        },
        candidate.leaves,
        most,
        kept,
    )
}

// The same of a large plan. A function fills its locals as it begins, so this one is called only where they are needed.
#[inline(never)]
fn large_saves(
    alloc: Global,
    graph: &Graph,
    uses: &Uses,
    candidate: Candidate,
    most: u32,
    kept: &mut KeptRows,
) -> Result<bool, AllocError>
    requires uses { IsUsesOf uses.now graph.now }
    requires root { is_and (row_at graph.now.rows candidate.root) ≡ true }
    requires most { IsMostLost graph.now.rows (count_in uses.now.counts.items) candidate.root candidate.leaves.now most }
    requires room { candidate.plan.now.leaves + array_vec_len candidate.plan.now.gates < MAX_INDEXES }
    ensures some { IfOk result (λ some. some ≡ true → SavesSome graph.now.rows graph.now.observed (replacement_of candidate.entry)) }
    ensures none { IfOk result (λ some. some ≡ false → SavesNothing graph.now.rows graph.now.observed (replacement_of candidate.entry)) }
{
    let mut placed = PlacedPlan::<MAX_INDEXES>::new();
    saves_in(alloc, graph, uses, candidate, most, &mut placed, kept)
}

/// Whether a proposal for an AND saves, where no more than `most` ANDs go with the root's row if its leaves stay. Where the plan holds
/// the leaves and adds as many, it saves nothing, and the cone that goes isn't followed. The only error is want of memory,
/// which a small plan doesn't take.
pub fn saves(
    alloc: Global,
    graph: &Graph,
    uses: &Uses,
    candidate: Candidate,
    most: u32,
    room: &mut Room,
) -> Result<bool, AllocError>
    requires uses { IsUsesOf uses.now graph.now }
    requires root { is_and (row_at graph.now.rows candidate.root) ≡ true }
    requires most { IsMostLost graph.now.rows (count_in uses.now.counts.items) candidate.root candidate.leaves.now most }
    ensures some { IfOk result (λ some. some ≡ true → SavesSome graph.now.rows graph.now.observed (replacement_of candidate.entry)) }
    ensures none { IfOk result (λ some. some ≡ false → SavesNothing graph.now.rows graph.now.observed (replacement_of candidate.entry)) }
{
    if is_small(candidate) {
        let placed = &mut room.placed;
        saves_in(alloc, graph, uses, candidate, most, placed, &mut room.kept)
    } else {
        large_saves(alloc, graph, uses, candidate, most, &mut room.kept)
    }
}

// Whether a large plan adds fewer than so many new rows.
#[inline(never)]
fn large_adds_fewer(graph: &Graph, uses: &Uses, candidate: Candidate, limit: u32) -> bool
    requires uses { IsUsesOf uses.now graph.now }
    requires root { is_and (row_at graph.now.rows candidate.root) ≡ true }
    requires room { candidate.plan.now.leaves + array_vec_len candidate.plan.now.gates < MAX_INDEXES }
    ensures { result ≡ nat_lt (length (new_rows_anywhere graph.now.rows (replacement_of candidate.entry))) limit }
{
    let mut placed = PlacedPlan::<MAX_INDEXES>::new();
    adds_fewer_anywhere(
        graph.rows.as_slice(),
        &uses.pairs,
        candidate,
        limit,
        &mut placed,
    )
}

/// Whether a proposal for an AND adds fewer than so many new rows where its gates may be those of any row, also of one behind
/// the root. Its plan is placed no further once as many rows are new.
pub fn adds_fewer(
    graph: &Graph,
    uses: &Uses,
    candidate: Candidate,
    limit: u32,
    room: &mut Room,
) -> bool
    requires uses { IsUsesOf uses.now graph.now }
    requires root { is_and (row_at graph.now.rows candidate.root) ≡ true }
    ensures { result ≡ nat_lt (length (new_rows_anywhere graph.now.rows (replacement_of candidate.entry))) limit }
{
    if is_small(candidate) {
        let rows = graph.rows.as_slice();
        adds_fewer_anywhere(rows, &uses.pairs, candidate, limit, &mut room.placed)
    } else {
        large_adds_fewer(graph, uses, candidate, limit)
    }
}
