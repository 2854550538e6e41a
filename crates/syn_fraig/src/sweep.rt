//! The sweep of a graph, and the graph that it gives.

ghost use Rattle.std.specs.Prelude.{◌≡◌, ◌<◌, length, true, IfOk, OnOk};
ghost use Rattle.syn_rows.specs.declared.TheConstants.{NODE_LIMIT};
ghost use Rattle.syn_hashed.specs.Hashed.{IsHashed};
ghost use Rattle.syn_graph.specs.Relations.{Follows};
ghost use Rattle.syn_levels.specs.Levels.{IsNoDeeper};
ghost use Rattle.syn_fraig.specs.Merging.{IsMerged};

use crate::by_search::sweep_by_search;
use crate::by_values::{FEW, sweep_by_values};
use crate::finished::finish;
use std::alloc::{AllocError, Global};
use syn_graph::Graph;
use syn_levels::is_no_deeper;
use syn_rows::Row;

/// How far a sweep goes.
#[derive(Clone, Copy, Debug)]
pub struct Limits {
    /// At most so many conflicts of a search for each question.
    pub conflicts: u32,
    /// Whether no observed signal may get deeper.
    pub levels: bool,
}

// Sweeps the rows of a graph: by all values of few sources, else by a search.
fn sweep(
    alloc: Global,
    count: u32,
    rows: &[Row],
    now: &mut [Row],
    limits: &Limits,
) -> Result<(), AllocError>
    requires hashed { IsHashed count rows.now }
    requires few { length rows.now < NODE_LIMIT }
    requires merged { IsMerged count rows.now now.old }
    ensures { OnOk result (IsMerged count rows.now now.new) }
{
    if count <= FEW {
        sweep_by_values(alloc, count, rows, now, limits.levels)
    } else {
        sweep_by_search(alloc, count, rows, now, limits)
    }
}

// The rows of a graph after the sweep.
fn swept(alloc: Global, graph: &Graph, limits: &Limits) -> Result<Vec<Row>, AllocError>
    ensures { IfOk result (λ now. IsMerged graph.now.source_count graph.now.rows now.items) }
{
    let rows = graph.rows.as_slice();
    let count = graph.source_count;
    let mut now = Vec::from_slice(alloc, rows)?;
    sweep(alloc, count, rows, now.as_mut_slice(), limits)?;
    Ok(now)
}

/// The graph with nodes merged that are equal, complements or constant for all values of the sources: all of them where the
/// sources are few, else those for which a search within the limits shows it. It has the same function, and no more ANDs; no
/// observed signal is deeper where that is asked. The only error is want of memory.
pub fn fraig(alloc: Global, graph: &Graph, limits: &Limits) -> Result<Graph, AllocError>
    ensures follows { IfOk result (Follows graph.now 0) }
    ensures levels { limits.now.levels ≡ true → IfOk result (IsNoDeeper graph.now) }
{
    let now = swept(alloc, graph, limits)?;
    let new = finish(alloc, graph, now.as_slice())?;
    if !limits.levels {
        return Ok(new);
    }
    let none = is_no_deeper(alloc, graph, &new)?;
    if none {
        return Ok(new);
    }
    drop(new);
    graph.copy(alloc)
}
