//! And-inverter graphs, which have no names: rows, and literals of what is observed.
#![tactic(auto)]

ghost use Rattle.std.specs.Prelude.{◌≡◌, ℕ, ◌+◌, ◌<◌, ◌^◌, length, slice_index_or, IfOk};
ghost use Rattle.syn_rows.specs.declared.TheConstants.{NODE_LIMIT};
ghost use Rattle.syn_rows.specs.Levels.{levels_of};
ghost use Rattle.syn_rows.specs.Reach.{Ands};
ghost use Rattle.syn_rows.specs.References.{refs_by_literals, refs_by_rows};
ghost use Rattle.syn_rows.specs.Values.{rows_function};
ghost use Rattle.syn_graph.specs.Graphs.{IsGraph};

mod compaction;
mod laws;
mod references;

use crate::references::references;
pub use compaction::{compact, finish};
pub use laws::same_function_goes_on;
use std::alloc::{AllocError, Global};
use syn_lists::Items;
use syn_rows::{Lit, Row};

/// An and-inverter graph: node 0 is the constant 0, then come the sources, then ANDs of two smaller nodes. No two ANDs have the
/// same pair, and each is reached from an observed literal.
#[derive(Debug, Drop)]
pub struct Graph {
    /// The number of sources.
    pub source_count: u32,
    /// The rows by node number.
    pub rows: Items<Row>,
    /// The observed literals.
    pub observed: Items<Lit>,
    pub ghost graph: { IsGraph source_count rows observed },
    pub ghost few: { length rows < NODE_LIMIT },
    pub ghost few_observed: { length observed < 2 ^ 31 },
}

impl Graph {
    /// The graph of these rows and observed literals over so many sources.
    pub fn over(source_count: u32, rows: Vec<Row>, observed: Vec<Lit>) -> Graph
        requires graph { IsGraph source_count rows.items observed.items }
        requires few { length rows.items < NODE_LIMIT }
        requires observed { length observed.items < 2 ^ 31 }
        ensures sources { result.source_count ≡ source_count }
        ensures rows { result.rows ≡ rows.items }
        ensures observed { result.observed ≡ observed.items }
    {
        Graph {
            source_count,
            rows: Items::of(rows),
            observed: Items::of(observed),
        }
    }

    /// The number of ANDs.
    pub fn count(&self) -> u32
        ensures rows { result + (self.now.source_count + 1) ≡ length self.now.rows }
        ensures ands { Ands self.now.rows self.now.observed result }
    {
        syn_rows::has_ands();
        self.rows.as_slice().len() as u32 - self.source_count - 1
    }

    /// The values of the observed signals, from those of the sources in their order. The only error is want of memory, as
    /// of all calls below.
    pub fn eval(&self, alloc: Global, sources: &[bool]) -> Result<Vec<bool>, AllocError>
        ensures { IfOk result (λ v. v.items ≡ rows_function self.now.rows self.now.observed sources.now) }
    {
        let rows = self.rows.as_slice();
        syn_rows::evaluate(alloc, rows, self.observed.as_slice(), sources)
    }

    /// The level of each node.
    pub fn levels(&self, alloc: Global) -> Result<Vec<u32>, AllocError>
        ensures { IfOk result (λ v. v.items ≡ levels_of self.now.rows) }
    {
        syn_rows::levels(alloc, self.rows.as_slice())
    }

    /// How often each node is referred to, by rows and by observed literals.
    pub fn refs(&self, alloc: Global) -> Result<Vec<u32>, AllocError>
        ensures count { IfOk result (λ v. length v.items ≡ length self.now.rows) }
        ensures refs { IfOk result (λ v. (m : ℕ) → slice_index_or v.items m 0 ≡ refs_by_rows m self.now.rows + refs_by_literals m self.now.observed) }
    {
        references(alloc, self.rows.as_slice(), self.observed.as_slice())
    }

    /// An equal graph.
    pub fn copy(&self, alloc: Global) -> Result<Graph, AllocError>
        ensures { IfOk result (λ g. g ≡ self.now) }
    {
        let rows = Vec::from_slice(alloc, self.rows.as_slice())?;
        let observed = Vec::from_slice(alloc, self.observed.as_slice())?;
        Ok(Graph {
            source_count: self.source_count,
            rows: Items::of(rows),
            observed: Items::of(observed),
        })
    }
}
