//! LUT nets of graphs over one cut for each AND, whatever cut: which nodes need LUTs, the numbers of their signals, the LUTs,
//! and how deep they lie.
#![tactic(auto)]

mod choice;
mod laws;
mod luts;
mod needs;
mod nets;
mod signals;

pub use choice::Choice;
pub use laws::{
    mapping_fits, mapping_has_depth, mapping_is_net, mapping_is_small, mapping_keeps_function,
    mapping_keeps_sources, needed_exist,
};
pub use nets::net_of;
