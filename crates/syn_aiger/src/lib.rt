//! AIGER files as networks, both ways.
//!
//! `read_aig` takes the bytes of a file and gives its network, in which bad states and constraints
//! may become outputs, or the first fault; `write_aig` takes a network and gives the bytes of its
//! file, or names the first latch with a type, which `write_untyped_aig` leaves out.
//! What bytes say, and the bytes of what is to be said, are those of `syn_aiger_files`.
#![tactic(auto)]

mod circles;
mod file_numbers;
mod frame;
mod given;
mod laws;
mod names;
mod places;
mod reader;
mod rows;
mod undefined;
mod writer;

pub use laws::{
    aig_of_is_normal, aig_of_keeps, aig_of_leaves_types, either_or, graph_has_lists, not_both,
    one_aig, one_fault, order_has_no_circle, printed_spells, spelled_defines_once,
    written_reads_back,
};
pub use reader::read_aig;
pub use syn_aiger_files::{AigFault, MAX_GATES};
pub use writer::{AigWriteFault, write_aig, write_untyped_aig};
