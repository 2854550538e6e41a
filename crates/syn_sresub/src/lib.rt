//! Resubstitution by simulation and refutation: the rows of a graph are made again in order, and an AND whose place others
//! can take with fewer new ANDs than it frees is replaced by them: by an older literal, by an AND of two, or by an AND of a
//! literal and an AND of two more. `Standing`, the literals of the new rows, stand for the old nodes. Which literals may
//! replace one is guessed from words of simulation (`Words`, `Divisors`), and what that frees from the references that are
//! still needed (`References`); nothing is promised of these. A guess is taken only where the solver of `syn_sat` refutes that
//! it differs, by some of the gates below it, over the new rows, which only grow, so that its clauses stay true. The old graph
//! is kept where the new one has no fewer ANDs.
#![tactic(auto)]

mod alike;
mod attempts;
mod divisors;
mod guesses;
mod questions;
mod references;
mod remaking;
mod tools;
mod words;

pub use remaking::{Limits, sresub};
