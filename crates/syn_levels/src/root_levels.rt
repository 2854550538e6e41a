//! Whether a proposal keeps the level of its root.

ghost use Rattle.std.specs.Prelude.{◌≡◌, ℕ, ◌+◌, ◌^◌, ◌<◌, ◌≤◌, ◌++◌, All, IfOk, length};
ghost use Rattle.syn_rows.specs.Rows.{fold_rows};
ghost use Rattle.syn_rows.specs.Levels.{level_in, levels_of, row_level};
ghost use Rattle.syn_hashed.specs.Indexed.{IsIndexOf};
ghost use Rattle.syn_plan.specs.declared.TheConstants.{MAX_GATES};
ghost use Rattle.syn_gain.specs.Proposals.{replacement_of};
ghost use Rattle.syn_levels.specs.Levels.{keeps_level};

use smallvec::SmallVec;
use std::alloc::{AllocError, Global};
use syn_gain::{Candidate, node_at, place};
use syn_graph::Graph;
use syn_hashed::PairIndex;
use syn_rows::Row;

// How many levels of new rows stand inline; those of a large plan take memory.
const INLINE_LEVELS: usize = 16;

// How many levels of a plan's indexes stand inline.
const INLINE_HEIGHTS: usize = 32;

/// The levels of a graph's nodes. The only error is want of memory, as of the call below.
pub fn levels(alloc: Global, graph: &Graph) -> Result<Vec<u32>, AllocError>
    ensures { IfOk result (λ v. v.items ≡ levels_of graph.now.rows) }
{
    let _count = graph.count();
    syn_rows::levels(alloc, graph.rows.as_slice())
}

// The level of a node of a graph, or of a new one behind its last.
#[inline]
fn level_at(levels: &[u32], new: &[u64], node: usize) -> u64
    requires low { All (λ level. level ≤ 2 ^ 32 + length new.now) new.now }
    ensures level { result ≡ level_in (levels.now ++ new.now) node }
    ensures low { result ≤ 2 ^ 32 + length new.now }
{
    if node < levels.len() {
        return u64::from(levels[node]);
    }
    let place = node - levels.len();
    if place < new.len() { new[place] } else { 0 }
}

// The level that a row gives its node.
fn row_level(levels: &[u32], new: &[u64], row: Row) -> u64
    requires low { All (λ level. level ≤ 2 ^ 32 + length new.now) new.now }
    requires few { length new.now ≤ MAX_GATES }
    ensures level { (n : ℕ) → result ≡ row_level (level_in (levels.now ++ new.now)) n row }
    ensures low { result ≤ 2 ^ 32 + length new.now + 1 }
{
    match row {
        Row::Free | Row::Source => 0,
        Row::And(a, b) => {
            let first = level_at(levels, new, a.node() as usize);
            let second = level_at(levels, new, b.node() as usize);
            if first < second {
                second + 1
            } else {
                first + 1
            }
        }
        Row::Alias(a) => level_at(levels, new, a.node() as usize),
    }
}

// The levels of new rows behind those of a graph.
fn new_levels(
    alloc: Global,
    levels: &[u32],
    extra: &[Row],
) -> Result<SmallVec<u64, INLINE_LEVELS>, AllocError>
    requires few { length extra.now ≤ MAX_GATES }
    ensures levels { IfOk result (λ new. levels.now ++ new.items ≡ fold_rows row_level 0 levels.now extra.now) }
    ensures count { IfOk result (λ new. length new.items ≡ length extra.now) }
    ensures low { IfOk result (λ new. All (λ level. level ≤ 2 ^ 32 + length new.items) new.items) }
{
    let mut new = SmallVec::new(alloc);
    for row in extra {
        let level = row_level(levels, new.as_slice(), *row);
        new.push(level)?;
    }
    Ok(new)
}

/// Whether a proposal for a node of a graph keeps the node's level, by the index of the graph's pairs and its levels. Only a
/// large plan takes memory.
pub fn keeps_level(
    alloc: Global,
    graph: &Graph,
    pairs: &PairIndex,
    levels: &[u32],
    candidate: Candidate,
) -> Result<bool, AllocError>
    requires pairs { IsIndexOf graph.now.rows pairs.now }
    requires levels { levels.now ≡ levels_of graph.now.rows }
    requires root { candidate.root < length graph.now.rows }
    ensures { IfOk result (λ keeps. keeps ≡ keeps_level graph.now.rows (replacement_of candidate.entry)) }
{
    let placed = place(alloc, graph, pairs, candidate)?;
    let new = new_levels(alloc, levels, placed.extra.as_slice())?;
    let level = row_level(levels, new.as_slice(), placed.root);
    Ok(level <= u64::from(levels[candidate.root as usize]))
}

// The level of an index of a plan, 0 past the end.
#[inline]
fn height_at(heights: &[u32], index: u16) -> u32 {
    match heights.get(index as usize) {
        Some(height) => *height,
        None => 0,
    }
}

/// Whether a plan lies no higher than its root by its gates alone, each one above the higher of its two, whatever rows are
/// there: then it keeps the root's level, however the rows change whose levels don't rise. A proposal that keeps the level by
/// a hit is told to lie higher. Nothing rests on the answer. Only a large plan takes memory.
pub fn is_low(alloc: Global, levels: &[u32], candidate: Candidate) -> Result<bool, AllocError> {
    let mut heights: SmallVec<u32, INLINE_HEIGHTS> = SmallVec::new(alloc);
    heights.push(0)?;
    let plan = candidate.plan;
    for i in 0..plan.leaves {
        let leaf = node_at(candidate.leaves, i as usize);
        heights.push(node_at(levels, leaf as usize))?;
    }
    for gate in plan.gates.as_slice() {
        let first = height_at(heights.as_slice(), gate.0.index());
        let second = height_at(heights.as_slice(), gate.1.index());
        heights.push(first.max(second).saturating_add(1))?;
    }
    let out = height_at(heights.as_slice(), plan.out.index());
    Ok(out <= node_at(levels, candidate.root as usize))
}
