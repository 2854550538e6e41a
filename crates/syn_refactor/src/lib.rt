//! Refactoring: each node's function over a cone of at most eight leaves, factored.
#![tactic(auto)]

mod closure;
mod known_plans;
mod proposer;

pub use closure::refactor;
pub use known_plans::KnownPlans;
pub use proposer::Cones;
