//! Proposers, and the check of a graph: that no proposal saves anything, or what those that save make of it.
#![tactic(auto)]

mod applied;
mod block_counter;
mod compatible;
mod gains;
mod kept_levels;
mod laws;
mod proposer;
mod remaining;

pub use applied::{first_applied, is_better, smaller};
pub use block_counter::BlockCounter;
pub use gains::{Improved, Report};
pub use kept_levels::{Keeping, Leveled};
pub use laws::{closed_saves_nothing, first_of_parts};
pub use proposer::{Proposer, saves};
pub use remaining::{leftovers, leftovers_among};
pub use syn_gain::owned;
