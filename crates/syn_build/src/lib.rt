//! Graphs from netlists and from LUT nets: the tables or LUTs are made in order, each as ANDs over the literals of the
//! signals that it reads, and no row is made twice.
#![tactic(auto)]

mod luts;
mod network;
mod tables;

pub use luts::{BuildFault, MAX_GATES, build_luts};
pub use network::{build, build_checked};
