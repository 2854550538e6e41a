//! The texts that commands print, as bytes: how networks compare, how deep what they observe lies, how long something took;
//! and the pieces of which lines are made.
#![tactic(auto)]

mod comparisons;
mod levels;
mod pieces;
mod seconds;

pub use comparisons::comparison_text;
pub use levels::{graph_levels, levels_text, lut_levels};
pub use pieces::{push_counted, push_number, push_text};
pub use seconds::seconds_text;
