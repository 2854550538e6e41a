//! Functional reduction (FRAIG): nodes of a graph that have one value, or opposite values, for all values of the sources are
//! merged. Beside the graph's rows stand rows `now` of the same length, which change in place: each AND becomes the AND of what
//! stands for its two literals, or an alias of a literal of a smaller node. One fact carries all: each valuation that fits the
//! graph's rows fits `now`. At the end `now` is compacted. Which nodes are merged is settled in one of two ways:
//!
//! - By values, in a graph of at most 12 sources. Tables hold the values of all nodes at all values of the first eight sources,
//!   once in each round, which is a choice of values of the others. Nodes whose hashes over all rounds agree are candidates, of
//!   which nothing is promised; the tables are filled a second time, and a candidate stays where its table agrees in each
//!   round. Nothing is searched or given up: all nodes of one value are found, unless hashes of different tables are the same.
//! - By search, in a graph of more. Which nodes are asked about comes from simulation (`Classes`, of which nothing is promised).
//!   `gates` are the ANDs of `now` before any becomes an alias; a solver of `syn_sat` gets the clauses of those below a
//!   question, and a node is merged only where it refutes that the two differ.
#![tactic(auto)]

mod by_search;
mod by_values;
mod candidates;
mod classes;
mod depths;
mod finished;
mod hashes;
mod merging;
mod pairs;
mod questions;
mod simulation;
mod sweep;
mod tables;

pub use questions::{equal, load_cones, load_nearest, refresh};
pub use simulation::Random;
pub use sweep::{Limits, fraig};
