//! Mapping to lookup tables: labels of nodes over their listed cuts, and the LUT net of a graph over the cuts that they
//! choose (after Mishchenko, Cho, Chatterjee and Brayton, "Combinational and sequential mapping with priority cuts", ICCAD
//! 2007; which cuts are listed, and which is chosen, is this project's choice).
#![tactic(auto)]

mod labelled;
mod labels;
mod laws;
mod mapper;

pub use laws::{
    choice_is_first_least, chosen_are_lut_cuts, labels_are_depths, labels_are_labels, worked_labels,
};
pub use mapper::map;
