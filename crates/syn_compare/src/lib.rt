//! Comparison of two networks by their names. Frames are matched first: the same names of inputs and clocks, of outputs and of
//! latches, in any order (`matching`). Then each network's graph is made again with the first one's order of sources and with
//! the signals that are compared (`ordering`, over `renaming`), and `syn_cec` compares the two. What is compared: the outputs,
//! and what each latch loads, a latch being named by its output. What isn't: the latches' initial values, their kinds and
//! controls, the models' names, and which inputs are clocks.
#![tactic(auto)]

mod answers;
mod comparing;
mod matching;
mod ordering;
mod places;
mod renaming;

pub use answers::{CompareFault, Comparison};
pub use comparing::compare;
