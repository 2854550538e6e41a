//! Least depth in lookup tables, by flow (Cong and Ding, "FlowMap", IEEE TCAD 1994), with paths that bear the labels out.
#![tactic(auto)]

mod certificate;
mod labels;
mod laws;
mod mapper;
mod witness;

pub use certificate::check_paths;
pub use laws::{
    borne_out_bound_coverings, borne_out_bound_cuts, borne_out_bound_luts, mapping_is_covering,
    one_flow_labels,
};
pub use mapper::flow;
pub use witness::{FlowProof, Paths};
