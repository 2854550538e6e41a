//! Combinational equivalence of two graphs over the same sources. Graphs of few sources are compared at all values
//! (`by_values`). Of others one graph is made that observes what both do, with their ANDs hashed together (`joint`); it is
//! swept by `syn_fraig`, and a search of `syn_sat` is asked about the pairs of observed literals (`by_search`). `Equivalent`
//! rests on refutations alone; values for which two graphs differ are told only where both were evaluated with them.
#![tactic(auto)]

ghost use Rattle.std.specs.Prelude.{◌≡◌, IfOk, length};
ghost use Rattle.syn_cec.specs.Compared.{IsCompared};

mod by_search;
mod by_values;
mod differences;
mod equality;
mod joint;

use by_search::compared_by_search;
use by_values::{FEW, compared_by_values};
pub use equality::Equality;
use std::alloc::{AllocError, Global};
use syn_graph::Graph;

/// How two graphs compare that have as many sources and as many observed literals: at all values of at most 12 sources, else
/// by a sweep with at most so many conflicts for each question, and a hundred times as many for each pair of observed
/// literals. All places are undecided where no graph has room for what both have. The only error is want of memory.
pub fn equal(
    alloc: Global,
    first: &Graph,
    second: &Graph,
    conflicts: u32,
) -> Result<Equality, AllocError>
    requires sources { second.now.source_count ≡ first.now.source_count }
    requires observed { length second.now.observed ≡ length first.now.observed }
    ensures { IfOk result (IsCompared first.now second.now) }
{
    if first.source_count <= FEW {
        compared_by_values(alloc, first, second)
    } else {
        compared_by_search(alloc, first, second, conflicts)
    }
}
