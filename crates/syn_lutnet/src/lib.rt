//! Networks of lookup tables, which have no names: LUTs, as values and as data, over numbered sources, and literals of what
//! is observed; their functions, depths and gates. A `LutNet` holds `Lut`s in the order of their signals.
#![tactic(auto)]

mod depths;
mod laws;
mod luts;
mod nets;

pub use depths::{greatest_depth, signal_depths};
pub use laws::{deepest_is_observed, ones_give_table};
pub use luts::{Lut, MAX_INPUTS};
pub use nets::LutNet;
