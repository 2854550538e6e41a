//! The decision of one commit, as a function of what its loads and failed claims met.
#![tactic(auto)]

mod answers;
mod decisions;
mod found;
mod laws;
mod lists;
mod mffc;
mod place;
mod reads;
mod rows;
mod stages;
mod tables;
mod walk;
mod words;
mod worklist;

pub use decisions::{
    Attempt, Comparison, Cone, Counted, Decision, MAX_INNER, NodeRow, Outcome, Phase, StaleCause,
    Want,
};
pub use laws::{
    always_fitting, always_linked, always_walked, counted_are_first, dying_are_least, empty_reads,
    hits_in_order, one_read_more, rows_always_fit, worked_reads,
};
pub use mffc::dying_with;
pub use place::FIRST_NEW;
pub use reads::{Deciding, Reads, decide};
pub use rows::NewRows;
pub use words::Words;
