//! Proposals applied to a graph, one at a time or many together.
#![tactic(auto)]

mod batch;

ghost use Rattle.std.specs.Prelude.{◌≡◌, ℤ, pos, ◌+ℤ◌, ◌≤ℤ◌, ◌<◌, true, length, IfOk};
ghost use Rattle.syn_rows.specs.Rows.{row_at};
ghost use Rattle.syn_rows.specs.Reach.{is_and};
ghost use Rattle.syn_rows.specs.declared.TheConstants.{NODE_LIMIT};
ghost use Rattle.syn_graph.specs.Relations.{SameFunction};
ghost use Rattle.syn_gain.specs.Proposals.{replacement_of};
ghost use Rattle.syn_gain.specs.Replacements.{SavedBy, rows_after_by};
ghost use Rattle.syn_levels.specs.Levels.{IsNoDeeper, keeps_level};
ghost use Rattle.syn_apply.specs.Applied.{IsAppliedAlone};
ghost use Rattle.syn_apply.specs.Sound.{IsSoundBy};

pub use batch::applied_together;
use std::alloc::{AllocError, Global};
use syn_gain::{Candidate, place, replaced_rows};
use syn_graph::{Graph, compact};
use syn_hashed::PairIndex;
use syn_rows::Row;

// The rows of a graph after a proposal.
fn rows_after(alloc: Global, graph: &Graph, candidate: Candidate) -> Result<Vec<Row>, AllocError>
    requires { is_and (row_at graph.now.rows candidate.root) ≡ true }
    ensures { IfOk result (λ v. v.items ≡ rows_after_by graph.now.rows (replacement_of candidate.entry)) }
{
    let pairs = PairIndex::of(alloc, graph.rows.as_slice())?;
    let new = place(alloc, graph, &pairs, candidate)?;
    replaced_rows(alloc, graph.rows.as_slice(), candidate.root, &new)
}

/// The graph after a sound proposal for one of a graph's nodes, beside that graph: the same values of the observed signals, and
/// fewer ANDs by at least what the proposal saves; where it keeps the level of its root, no observed
/// signal is deeper. The only error is want of memory.
pub fn applied(alloc: Global, graph: &Graph, candidate: Candidate) -> Result<Graph, AllocError>
    requires sound { IsSoundBy graph.now.rows (replacement_of candidate) }
    requires few { length (rows_after_by graph.now.rows (replacement_of candidate)) < NODE_LIMIT }
    ensures same { IfOk result (SameFunction graph.now) }
    ensures count { IfOk result (λ g. (s : ℤ) → SavedBy graph.now.rows graph.now.observed (replacement_of candidate.entry) s → (pos (length g.rows) +ℤ s) ≤ℤ pos (length graph.now.rows)) }
    ensures alone { IfOk result (IsAppliedAlone graph.now (replacement_of candidate.entry)) }
    ensures levels { IfOk result (λ g. keeps_level graph.now.rows (replacement_of candidate.entry) ≡ true → IsNoDeeper graph.now g) }
{
    let _count = graph.count();
    let after = rows_after(alloc, graph, candidate)?;
    let lits = graph.observed.as_slice();
    compact(alloc, graph.source_count, after.as_slice(), lits)
}
