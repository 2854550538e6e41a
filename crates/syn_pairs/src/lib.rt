//! Shared pairs: the conjunctions of a graph joined again, so that they share ANDs. `Conjunctions` are lists of literals, one
//! for each AND that another conjunction doesn't take in; the pair of literals that most of them hold becomes a new literal in
//! all of these, again and again (`Pairs`). Of that only the order is kept in which each conjunction joins its literals, and
//! nothing is promised of it. Then the rows of the graph are made again in order: each conjunction's literals are gathered once
//! more, two at two places of the list become one, and hashing makes one AND of a pair that several join. Whatever the places,
//! the AND of the list stays. The old graph is kept where the new one has no fewer ANDs.
#![tactic(auto)]

mod conjunctions;
mod joining;
mod joins;
mod leaves;
mod lists;
mod pairs;
mod remaking;
mod sharing;

pub use remaking::share_pairs;
