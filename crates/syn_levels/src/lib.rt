//! Levels of a graph's nodes, and what keeps them: a replacement whose root lies no higher than before, and a graph in which
//! no observed signal is deeper. A replacement's level is told by a list of the graph's levels, which is made once.
#![tactic(auto)]

mod comparison;
mod laws;
mod root_levels;

pub use comparison::is_no_deeper;
pub use laws::levels_stay;
pub use root_levels::{is_low, keeps_level, levels};
