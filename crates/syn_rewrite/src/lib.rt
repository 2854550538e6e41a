//! Rewriting: each node's cuts of at most four leaves, each cut's class, each of the class's plans.
//!
//! `Prepared` has what is listed once for a graph: the cuts, the functions of each AND over its own, and the plans of these
//! functions. The proposer, `CutPlans`, goes through an AND's cuts (`RootedCut`) and looks at the plans of its function over each.
#![tactic(auto)]

mod closure;
mod commit_candidates;
mod prepared;
mod proposer;
mod rooted;

pub use closure::rewrite;
pub use prepared::Prepared;
pub use proposer::CutPlans;
