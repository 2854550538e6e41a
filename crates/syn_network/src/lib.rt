//! Networks: a frame with names, and over its sources a graph (`Network`) or a LUT net (`LutNetwork`); the netlists that they
//! are written as, the shapes of these, and the laws between them.
#![tactic(auto)]

mod finished;
mod frames;
mod laws;
mod lut_networks;
mod networks;

pub use finished::{compact, finish};
pub use frames::{copy_frame, copy_names, few_observed, frame_over};
pub use laws::{
    graph_counts_ands, graph_has_function, luts_have_function, mapped_keeps_meaning, names_stay,
    network_of_graph, network_of_luts, same_function_keeps_meaning, worked_luts,
};
pub use lut_networks::LutNetwork;
pub use networks::Network;
