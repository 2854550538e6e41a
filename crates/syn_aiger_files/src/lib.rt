//! AIGER files: what their bytes say, and the bytes of what is to be said.
//!
//! `parse` takes the bytes of a file and gives an `Aig`, or the first fault with its place; `print`
//! gives the bytes of an `Aig`, in the ASCII or in the binary format. An `Aig` has the greatest
//! variable, and the literals of inputs, the latches, the literals of outputs, the ANDs and the
//! symbols as lists, each in the order of the file. It knows nothing of graphs: a literal may be
//! read that is defined nowhere, and ANDs may read each other in a circle.
//!
//! A file is read in one pass: its first line (`header`), then line after line or pair after pair
//! (`bodies`, by what is wanted at each place), then its symbols (`symbols`), by which inputs,
//! latches and outputs are first called (`first_names`). Bad states and constraints are refused, or
//! become outputs behind the file's own, with symbols of outputs. Lines and words are slices of the
//! bytes (`cuts`), numbers are told from them (`numbers`). Nothing is reserved by the numbers of
//! the first line. Which literals are defined, and which indices have symbols, is kept as sets of
//! numbers (`sets`), which take no memory while their numbers come in order.
#![tactic(auto)]

ghost use Rattle.syn_aiger_files.specs.Laws.{PrintedSays, SaysWithMark};
ghost use Rattle.syn_aiger_files.specs.Worked.{WorkedFiles, WorkedPairs, WorkedProperties};

mod bodies;
mod cuts;
mod fault;
mod files;
mod first_names;
mod header;
mod numbers;
mod parser;
mod printer;
mod sets;
mod symbols;

pub use fault::{AigFault, MAX_GATES};
pub use files::{Aig, AigAnd, AigLatch, Inputs, Place, Symbol};
pub use first_names::{first_name, numbered, symbol_table};
pub use numbers::number_of;
pub use parser::parse;
pub use printer::{letter_of, print};

/// What is printed of a file that can be written says it, in both formats.
pub fn printed_says()
    ensures { PrintedSays }
{}

/// What a file says where bad states and constraints are refused, it says where they are outputs.
pub fn says_with_mark()
    ensures { SaysWithMark }
{}

/// What worked files say, and the places of their faults.
pub fn worked_files()
    ensures { WorkedFiles }
{}

/// Pairs of numbers that are faults.
pub fn worked_pairs()
    ensures { WorkedPairs }
{}

/// Bad states and constraints as outputs, and what is a fault of a first line.
pub fn worked_properties()
    ensures { WorkedProperties }
{}
