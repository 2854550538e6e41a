//! Graphs of rows: what the observed literals reach.

ghost use Rattle.std.specs.Prelude.{◌≡◌, ℕ, ◌+◌, ◌^◌, ◌<◌, ◌≤◌, All, IfOk, length};
ghost use Rattle.syn_rows.specs.declared.TheConstants.{NODE_LIMIT};
ghost use Rattle.syn_rows.specs.Rows.{node_of};
ghost use Rattle.syn_rows.specs.Reach.{Ands};
ghost use Rattle.syn_hashed.specs.Compacting.{CanCompact, IsCompacted, IsCompaction};
ghost use Rattle.syn_hashed.specs.HashedAgain.{IsExactCompaction, IsHashedAgain};

use crate::Graph;
use std::alloc::{AllocError, Global};
use syn_hashed::{HashedRows, compact_hashed, compact_rows};
use syn_rows::{Lit, Row};

/// The graph of the rows that the literals reach, over so many sources. The rows may stand in any order, with aliases, free
/// rows and rows that nothing reaches among them. The only error is want of memory.
pub fn compact(
    alloc: Global,
    source_count: u32,
    rows: &[Row],
    lits: &[Lit],
) -> Result<Graph, AllocError>
    requires can { CanCompact source_count rows.now lits.now }
    requires few { length rows.now < NODE_LIMIT }
    requires lits { length lits.now < 2 ^ 31 }
    ensures sources { IfOk result (λ g. g.source_count ≡ source_count) }
    ensures compacted { IfOk result (λ g. IsCompacted source_count rows.now lits.now g.rows g.observed) }
    ensures exact { IfOk result (λ g. IsExactCompaction source_count rows.now lits.now g.rows g.observed) }
{
    let kept = compact_rows(alloc, source_count, rows, lits)?;
    Ok(Graph::over(source_count, kept.rows, kept.observed))
}

/// The graph of hashed rows that the literals reach, in the order in which these visit them. The only error is want of memory.
pub fn finish(alloc: Global, hashed: HashedRows, lits: &[Lit]) -> Result<Graph, AllocError>
    requires within { All (λ l. node_of l < length hashed.rows.items) lits.now }
    requires few { length hashed.rows.items < NODE_LIMIT }
    requires lits { length lits.now < 2 ^ 31 }
    ensures sources { IfOk result (λ g. g.source_count ≡ hashed.source_count) }
    ensures compact { IfOk result (λ g. IsCompaction hashed.source_count hashed.rows.items lits.now g.rows g.observed) }
    ensures exact { IfOk result (λ g. IsHashedAgain hashed.source_count hashed.rows.items lits.now g.rows g.observed) }
    ensures ands { IfOk result (λ g. (k : ℕ) → Ands hashed.rows.items lits.now k → length g.rows ≤ hashed.source_count + 1 + k) }
{
    let source_count = hashed.source_count as u32;
    let kept = compact_hashed(alloc, source_count, hashed.rows.as_slice(), lits)?;
    Ok(Graph::over(source_count, kept.rows, kept.observed))
}
