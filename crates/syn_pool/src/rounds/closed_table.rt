//! What a round ends with: the graph of the table's rows.

ghost use Rattle.std.specs.Prelude.{◌≡◌, ◌+◌, ◌<◌, length, IfOk};
ghost use Rattle.syn_rows.specs.declared.TheConstants.{NODE_LIMIT};
ghost use Rattle.syn_table.specs.Seating.{IsOf, graph_of, known_of, spare_of, view_of};
ghost use Rattle.syn_commit.specs.Giving.{IsAtRest};
ghost use Rattle.syn_pool.specs.Closing.{IsLeft};

use std::alloc::{AllocError, Global};
use syn_graph::{Graph, compact};
use syn_table::{Seat, Shared};

/// Closes the table of a graph, when each other seat was joined, and compacts its rows: the graph that is left. The only
/// error is want of memory.
pub(crate) fn close(
    alloc: Global,
    graph: &Graph,
    shared: Shared,
    seat: Seat,
) -> Result<Graph, AllocError>
    requires graph { graph_of shared ≡ graph.now }
    requires nodes { length graph.now.rows + spare_of shared < NODE_LIMIT }
    requires table { IsOf seat shared }
    requires numbers { length (known_of seat).numbers ≡ 64 }
    requires rest { IsAtRest (view_of seat) }
    ensures { IfOk result (IsLeft graph.now (view_of seat).difference) }
{
    let Ok(closed) = shared.close(alloc, seat) else {
        return Err(AllocError);
    };
    let _count = graph.count();
    let rows = closed.rows.as_slice();
    let literals = graph.observed.as_slice();
    let next = compact(alloc, graph.source_count, rows, literals)?;
    Ok(next)
}
