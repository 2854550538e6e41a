//! Resubstitution: an AND replaced by a constant, by another node, or by the AND of two others (after Mishchenko and Brayton).
//!
//! For each AND the leaves of its cone, and over them its divisors: the leaves, and ANDs that are made of divisors (`Divided`
//! has them with their tables). What has the AND's own table is a form that stands for it (`Form`), and each form becomes a
//! plan over the leaves. Divisors are found by a graph's fan-outs (`FanOuts`), which are listed once for a graph.
#![tactic(auto)]

mod closure;
mod divided;
mod divisors;
mod fan_outs;
mod form_search;
mod forms;
mod laws;
mod nodes;
mod placed_forms;
mod plans;
mod proposer;
mod sides;

pub use closure::resub;
pub use fan_outs::FanOuts;
pub use forms::Form;
pub use laws::divisors_are_divisors;
pub use proposer::Divisors;
