//! Cuts of nodes of rows, and the function of a node over a cut.
#![tactic(auto)]

mod carried;
mod cones;
mod laws;
mod words;

pub use carried::CutFunction;
pub use cones::{function, gap_for};
pub use laws::{
    all_fit_between, fan_ins_are_cut, fits_past_more, leaf_may_be_replaced, truth_is_value_over,
};
