//! Networks of rows.

ghost use Rattle.std.specs.Prelude.{◌≡◌, ℕ, ◌+◌, ◌<◌, ◌≤◌, ◌^◌, All, Bool, List, length, IfOk};
ghost use Rattle.syn_rows.specs.declared.TheConstants.{NODE_LIMIT};
ghost use Rattle.syn_rows.specs.Rows.{node_of};
ghost use Rattle.syn_rows.specs.Levels.{HasLevels};
ghost use Rattle.syn_rows.specs.Reach.{Ands};
ghost use Rattle.syn_rows.specs.Values.{rows_function};
ghost use Rattle.syn_hashed.specs.Hashed.{lit_at};
ghost use Rattle.syn_hashed.specs.Growing.{level_by};
ghost use Rattle.syn_hashed.specs.Compacting.{CanCompact, SameValues};
ghost use Rattle.syn_hashed.specs.HashedAgain.{IsExactCompaction, IsHashedAgain};
ghost use Rattle.syn_netlist.specs.Frames.{frame_in};
ghost use Rattle.syn_netlist.specs.Lists.{observed, sources};
ghost use Rattle.syn_network.specs.Networks.{HasOwnSources};

use crate::Network;
use crate::frames::{copy_frame, count_sources, few_observed};
use std::alloc::{AllocError, Global};
use syn_hashed::HashedRows;
use syn_netlist::Frame;
use syn_rows::{Lit, Row};

/// The network of the rows that the observed literals reach, one for each observed signal of the frame, in their order. The
/// rows may stand in any order, with aliases, free rows and rows that nothing reaches among them. The frame is copied. The
/// only error is want of memory.
pub fn compact(
    alloc: Global,
    frame: &Frame,
    rows: &[Row],
    lits: &[Lit],
) -> Result<Network, AllocError>
    requires can { CanCompact (length (sources (frame_in frame.now))) rows.now lits.now }
    requires count { length lits.now ≡ length (observed (frame_in frame.now)) }
    requires own { HasOwnSources (frame_in frame.now) lits.now }
    requires few { length rows.now < NODE_LIMIT }
    requires names { length frame.now.names < 2 ^ 31 }
    ensures frame { IfOk result (λ g. frame_in g.frame ≡ frame_in frame.now) }
    ensures names { IfOk result (λ g. g.frame.names ≡ frame.now.names) }
    ensures exact { IfOk result (λ g. IsExactCompaction (length (sources (frame_in frame.now))) rows.now lits.now g.body.rows g.body.observed) }
    ensures values { IfOk result (λ g. SameValues (length (sources (frame_in frame.now))) rows.now lits.now g.body.rows g.body.observed) }
    ensures fewer { IfOk result (λ g. (k : ℕ) → Ands rows.now lits.now k → length g.body.rows ≤ length (sources (frame_in frame.now)) + 1 + k) }
    ensures levels { IfOk result (λ g. (level : ℕ → ℕ) → HasLevels rows.now level → (i : ℕ) → i < length lits.now → level_by g.body.rows (lit_at g.body.observed i) ≤ level (node_of (lit_at lits.now i))) }
{
    few_observed(frame);
    let source_count = count_sources(alloc, frame)?;
    let body = syn_graph::compact(alloc, source_count, rows, lits)?;
    let copied = copy_frame(alloc, frame)?;
    Ok(Network::of(copied, body))
}

/// The network of the rows that the literals reach, in the order in which these visit them: one literal for each observed
/// signal of the frame, in their order. The frame is moved. The only error is want of memory.
pub fn finish(
    alloc: Global,
    frame: Frame,
    hashed: HashedRows,
    lits: &[Lit],
) -> Result<Network, AllocError>
    requires sources { hashed.source_count ≡ length (sources (frame_in frame)) }
    requires count { length lits.now ≡ length (observed (frame_in frame)) }
    requires within { All (λ l. node_of l < length hashed.rows.items) lits.now }
    requires own { HasOwnSources (frame_in frame) lits.now }
    requires few { length hashed.rows.items < NODE_LIMIT }
    requires names { length frame.names < 2 ^ 31 }
    ensures frame { IfOk result (λ g. g.frame ≡ frame) }
    ensures values { IfOk result (λ g. (bits : List Bool) → rows_function g.body.rows g.body.observed bits ≡ rows_function hashed.rows.items lits.now bits) }
    ensures exact { IfOk result (λ g. IsHashedAgain hashed.source_count hashed.rows.items lits.now g.body.rows g.body.observed) }
    ensures fewer { IfOk result (λ g. length g.body.rows ≤ length hashed.rows.items) }
    ensures ands { IfOk result (λ g. (k : ℕ) → Ands hashed.rows.items lits.now k → length g.body.rows ≤ hashed.source_count + 1 + k) }
{
    few_observed(&frame);
    let body = syn_graph::finish(alloc, hashed, lits)?;
    Ok(Network::of(frame, body))
}
