//! What a proposal becomes over rows.

ghost use Rattle.std.specs.Prelude.{◌≡◌, ◌+◌, ◌-◌, ◌*◌, ◌<◌, ◌≤◌, length, nat_lt, slice_index_or, true, IfOk};
ghost use Rattle.arrayvec.specs.ArrayVec.{array_vec_len};
ghost use Rattle.syn_rows.specs.declared.TheConstants.{NODE_LIMIT};
ghost use Rattle.syn_rows.specs.Rows.{InOrder};
ghost use Rattle.syn_hashed.specs.Indexed.{IsIndexOf};
ghost use Rattle.syn_hashed.specs.Joined.{PairsOnce};
ghost use Rattle.syn_plan.specs.declared.TheConstants.{FEW_INDEXES, MAX_GATES, MAX_INDEXES};
ghost use Rattle.syn_gain.specs.Placing as spec;
ghost use Rattle.syn_gain.specs.Proposals.{replacement_of};
ghost use Rattle.syn_gain.specs.Replacements.{new_root_by, new_rows_by};
ghost use Rattle.syn_gain.specs.Searching as search;

use crate::{Candidate, PlacedPlan, RowsBelow, literal_for};
use smallvec::SmallVec;
use std::alloc::{AllocError, Global};
use syn_hashed::PairIndex;
use syn_plan::{FEW_INDEXES, MAX_INDEXES};
use syn_rows::{Lit, Row};

// How many new rows of a proposal stand inline.
const INLINE_ROWS: usize = 16;

/// What a proposal becomes.
#[derive(Debug, Drop)]
pub struct NewRows {
    /// The new row of the root.
    pub root: Row,
    /// The new rows behind the last row.
    pub extra: SmallVec<Row, INLINE_ROWS>,
}

// The last row of a list, or another where it is empty.
fn last_or(rows: &[Row], row: Row) -> Row
    ensures { result ≡ slice_index_or rows.now (length rows.now - 1) row }
{
    if rows.is_empty() {
        row
    } else {
        rows[rows.len() - 1]
    }
}

/// The new row of the root, where the output is this literal and the first new row is node `first`.
pub fn root_row(first: u32, extra: &[Row], out: Lit) -> Row
    ensures { result ≡ spec.root_row first extra.now out }
{
    if out.0 as u64 + 2 == 2 * (first as u64 + extra.len() as u64) {
        last_or(extra, Row::Alias(out))
    } else {
        Row::Alias(out)
    }
}

/// Whether a plan over rows, with their index, becomes fewer than so many new rows where its gates may be those of any row.
/// It is placed no further once as many are new.
pub(crate) fn adds_fewer_anywhere<const INDEXES: usize>(
    rows: &[Row],
    index: &PairIndex,
    candidate: Candidate,
    limit: u32,
    placed: &mut PlacedPlan<INDEXES>,
) -> bool
    requires index { IsIndexOf rows.now index.now }
    requires pairs { PairsOnce rows.now }
    requires order { InOrder rows.now }
    requires few { length rows.now < NODE_LIMIT }
    requires root { candidate.root < length rows.now }
    requires room { candidate.plan.now.leaves + array_vec_len candidate.plan.now.gates < INDEXES }
    requires most { INDEXES ≤ MAX_INDEXES }
    ensures { result ≡ nat_lt (length (search.new_rows_anywhere rows.now (replacement_of candidate.entry))) limit }
{
    let plan = candidate.plan;
    placed.begin(plan.leaves, candidate.leaves);
    let all = RowsBelow {
        rows,
        index,
        root: rows.len() as u32,
    };
    placed.place_gates(&all, plan.gates.as_slice(), limit)
}

/// What a proposal becomes over rows, with their index: the new row of the root, and the new rows behind the last row.
pub(crate) fn place_into<const INDEXES: usize>(
    rows: &[Row],
    index: &PairIndex,
    candidate: Candidate,
    placed: &mut PlacedPlan<INDEXES>,
) -> Row
    requires index { IsIndexOf rows.now index.now }
    requires pairs { PairsOnce rows.now }
    requires order { InOrder rows.now }
    requires few { length rows.now < NODE_LIMIT }
    requires root { candidate.root < length rows.now }
    requires room { candidate.plan.now.leaves + array_vec_len candidate.plan.now.gates < INDEXES }
    requires most { INDEXES ≤ MAX_INDEXES }
    ensures root { result ≡ new_root_by rows.now (replacement_of candidate.entry) }
    ensures extra { placed.new.extra.items ≡ new_rows_by rows.now (replacement_of candidate.entry) }
    ensures few { length placed.new.extra.items ≤ MAX_GATES }
{
    let plan = candidate.plan;
    placed.begin(plan.leaves, candidate.leaves);
    let below = RowsBelow {
        rows,
        index,
        root: candidate.root,
    };
    let _ = placed.place_gates(&below, plan.gates.as_slice(), u32::MAX);
    let out = literal_for(placed.literals.as_slice(), plan.out);
    root_row(rows.len() as u32, placed.extra.as_slice(), out)
}

// The same, in a list of its own.
fn place_in<const INDEXES: usize>(
    alloc: Global,
    rows: &[Row],
    index: &PairIndex,
    candidate: Candidate,
) -> Result<NewRows, AllocError>
    requires index { IsIndexOf rows.now index.now }
    requires pairs { PairsOnce rows.now }
    requires order { InOrder rows.now }
    requires few { length rows.now < NODE_LIMIT }
    requires root { candidate.root < length rows.now }
    requires room { candidate.plan.now.leaves + array_vec_len candidate.plan.now.gates < INDEXES }
    requires most { INDEXES ≤ MAX_INDEXES }
    ensures root { IfOk result (λ new. new.root ≡ new_root_by rows.now (replacement_of candidate.entry)) }
    ensures extra { IfOk result (λ new. new.extra.items ≡ new_rows_by rows.now (replacement_of candidate.entry)) }
    ensures few { IfOk result (λ new. length new.extra.items ≤ MAX_GATES) }
{
    let mut placed = PlacedPlan::<INDEXES>::new();
    let root = place_into(rows, index, candidate, &mut placed);
    let mut extra = SmallVec::new(alloc);
    extra.extend_from_slice(placed.extra.as_slice())?;
    Ok(NewRows { root, extra })
}

/// The same, in a list of its own. Only a large plan takes memory.
pub(crate) fn place_rows(
    alloc: Global,
    rows: &[Row],
    index: &PairIndex,
    candidate: Candidate,
) -> Result<NewRows, AllocError>
    requires index { IsIndexOf rows.now index.now }
    requires pairs { PairsOnce rows.now }
    requires order { InOrder rows.now }
    requires few { length rows.now < NODE_LIMIT }
    requires root { candidate.root < length rows.now }
    ensures root { IfOk result (λ new. new.root ≡ new_root_by rows.now (replacement_of candidate.entry)) }
    ensures extra { IfOk result (λ new. new.extra.items ≡ new_rows_by rows.now (replacement_of candidate.entry)) }
    ensures few { IfOk result (λ new. length new.extra.items ≤ MAX_GATES) }
{
    if is_small(candidate) {
        place_in::<FEW_INDEXES>(alloc, rows, index, candidate)
    } else {
        place_in::<MAX_INDEXES>(alloc, rows, index, candidate)
    }
}

/// Whether a proposal's plan is small.
#[inline]
pub(crate) fn is_small(candidate: Candidate) -> bool
    ensures few { result ≡ true → candidate.entry.plan.now.leaves + array_vec_len candidate.entry.plan.now.gates < FEW_INDEXES }
    ensures most { candidate.entry.plan.now.leaves + array_vec_len candidate.entry.plan.now.gates < MAX_INDEXES }
{
    let plan = candidate.plan;
    plan.leaves as usize + plan.gates.len() < FEW_INDEXES
}
