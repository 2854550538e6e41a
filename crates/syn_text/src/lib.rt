//! The netlist that a graph or a LUT net is written as, its bytes, and that these bytes read as the netlist.
#![tactic(auto)]

mod graph_netlist;
mod laws;
mod lut_netlist;
mod printer;

pub use graph_netlist::netlist_of;
pub use laws::{luts_are_checked, printed_reads, shaped_is_checked, well_formed};
pub use lut_netlist::netlist_of_luts;
pub use printer::print;
