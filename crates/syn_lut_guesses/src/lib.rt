//! Guesses of LUTs that may stand in place of others. For each LUT one is sought that has the same value in all patterns of a
//! simulation, reads the same signals but one, and in place of that one nothing, or a signal near by that is needed anyhow.
//! `Words` has the patterns, random ones and those that have shown guesses to be wrong; `Cells` parts them by the minterms of
//! a LUT; `References` tells what dies with an input, `Divisors` what may take its place, and `Slack` what is not too deep for that. Nothing is promised of a guess
//! but that it is a LUT: who takes one has to show that it is right.
#![tactic(auto)]

mod alike;
mod cells;
mod divisors;
mod draft;
mod guesses;
mod luts;
mod references;
mod slack;
mod words;

pub use guesses::Guesses;
