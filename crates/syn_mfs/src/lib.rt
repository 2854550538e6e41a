//! LUTs replaced by others of the same value, of fewer inputs or of other ones. The LUTs of a net are placed in hashed rows, so
//! that each signal has a literal (`placed`); these literals stay true while LUTs are replaced, since each replaced LUT keeps
//! its value for all values of the sources. A guess (`syn_lut_guesses`, of which nothing is promised) is looked at (`checks`),
//! its gates are put into the rows, and the solver of `syn_sat` is asked, by some of the gates below, whether it differs from
//! what it is to replace (`questions`); it is taken where that is refuted (`attempts`). Guesses keep the net's depth; were it
//! greater in the end, the net would stay. LUTs that nothing reads then are left out by `syn_absorb`.
#![tactic(auto)]

mod attempts;
mod checks;
mod passes;
mod placed;
mod questions;
mod tools;

pub use passes::mfs;
pub use tools::Limits;
