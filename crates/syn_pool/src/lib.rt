//! The pass of a proposer over a graph, until no proposal of it saves anything.
//!
//! A pass is steps: a round of workers that commit, then the check of the graph that they leave. A round puts the graph on a
//! shared table. Each worker has a thread, a seat and spare nodes there, visits nodes, and commits the proposals that are
//! worth it; when all seats are joined again, the table is closed, and its rows are compacted.
//!
//! Looks at a table as it stands (the cuts of a node, their functions, what goes with the node) are guesses, since rows may
//! change while they are read. Nothing rests on them: a commit judges each proposal again.
#![tactic(auto)]

mod looks;
mod passes;
mod rounds;

pub use passes::improvement::{PassSettings, improve};
pub use passes::pass;
