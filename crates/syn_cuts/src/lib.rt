//! Listed cuts of the nodes of an and-inverter graph, and functions over cuts.
#![tactic(auto)]

mod board;
mod found;
mod graphs;
mod laws;
mod levels;
mod lists;
mod node_cuts;
mod parts;
mod signatures;
mod unions;

use arrayvec::ArrayVec;

/// A cut: its leaves, rising.
pub type Cut = ArrayVec<u32, 8>;

pub use board::Board;
pub use graphs::{function, listed};
pub use laws::{
    arranged_in_order, listed_are_cuts, listed_cuts_rise, signatures_bound_unions, worked_cuts,
};
pub use levels::{Finder, found_by_levels};
pub use lists::CutLists;
pub use signatures::{least_leaves, signature, signatures_of};
pub use unions::{CUTS_PER_NODE, union};
