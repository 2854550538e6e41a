//! The graph of merged rows.

ghost use Rattle.std.specs.Prelude.{IfOk};
ghost use Rattle.syn_graph.specs.Relations.{Follows};
ghost use Rattle.syn_fraig.specs.Merging.{IsMerged};

use std::alloc::{AllocError, Global};
use syn_graph::{Graph, compact};
use syn_rows::Row;

/// The graph of the rows that a sweep has in place of a graph's. The only error is want of memory.
pub(crate) fn finish(alloc: Global, graph: &Graph, now: &[Row]) -> Result<Graph, AllocError>
    requires { IsMerged graph.now.source_count graph.now.rows now.now }
    ensures { IfOk result (Follows graph.now 0) }
{
    syn_rows::has_ands();
    compact(alloc, graph.source_count, now, graph.observed.as_slice())
}
