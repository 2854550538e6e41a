//! Netlists with latches over sequences of inputs, and the sweep of latches.
//!
//! A run of a netlist is a list of valuations, one a step. The sweep takes a network and gives one with fewer latches that
//! has the same outputs over every sequence of inputs. It works in rounds: the latches that outputs need are marked, latches
//! that load alike are looked up by their keys, each latch gets its fate, and the graph is made anew over the latches that
//! are kept. Before a graph is made anew, the fates of all rounds together are guessed and checked: so few rounds are left to
//! do.
#![tactic(auto)]

ghost use Rattle.std.specs.Prelude.{◌≡◌};
ghost use Rattle.syn_seq.specs.Laws.{RunsAreThere, SameMeaningIsSequential, SequentialIsTransitive};

mod checks;
mod fates;
mod guesses;
mod kept;
mod kept_graph;
mod keys;
mod latch_sweep;
mod needs;
mod orders;
mod signals;

pub use latch_sweep::sweep;

/// What becomes of a latch in a round: it is kept, it is merged into an earlier one by its number, or it is dropped.
#[derive(Clone, Copy, Debug, PartialEq, Eq)]
pub(crate) enum Fate {
    Dropped,
    Kept,
    Merged(u32),
}

/// What means the same gives the same outputs over every sequence of inputs.
pub fn same_meaning_is_sequential()
    ensures { SameMeaningIsSequential }
{}

/// Each choice of input values and of values to begin with has a run.
pub fn runs_are_there()
    ensures { RunsAreThere }
{}

/// Giving the same outputs over every sequence of inputs is transitive.
pub fn sequential_is_transitive()
    ensures { SequentialIsTransitive }
{}
