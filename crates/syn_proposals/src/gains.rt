//! What is gained on a graph.

use syn_graph::Graph;

/// How many proposals workers applied, and how many ANDs that saved.
#[derive(Clone, Copy, Debug, PartialEq, Eq, Default)]
pub struct Report {
    /// The proposals that were applied.
    pub done: u64,
    /// The sum of what each of them saved.
    pub gained: u64,
}

/// A graph in place of another, and how it was gained.
#[derive(Debug, Drop)]
pub struct Improved {
    /// The graph.
    pub graph: Graph,
    /// What was gained.
    pub report: Report,
}
