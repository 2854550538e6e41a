//! A workload that needs no file: netlists that are generated from a seed.
#![tactic(auto)]

mod draws;
mod generator;
mod laws;
mod names;
mod tables;

pub use generator::generate;
pub use laws::{generated_costs, generated_is_checked, generated_outputs};
