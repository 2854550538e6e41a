//! The functions of the ANDs of a graph over their listed cuts of at most four leaves: for each AND a list of numbers, one for
//! each of its cuts but the trivial one, in the order of the cuts.
//!
//! A function is a number of 16 bits, its values at the minterms of four variables, of which it depends on those of the leaves
//! alone. It is carried from the fan-ins' cuts where some of these lie within the cut (`CutTruth`), and else found from the rows
//! between. `Functions` has those of one node, with the cuts' signatures, until their numbers are taken; with several workers
//! the lists are filled level by level, and then in order.
#![tactic(auto)]

mod cut_truth;
mod functions;
mod laws;
mod levels;
mod numbered;

pub use laws::function_of_table;
pub use numbered::cut_truths;
