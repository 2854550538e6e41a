//! What a comparison of two networks gives.

use std::alloc::AllocError;
use syn_netlist::Word;

/// How two networks compare.
#[derive(Debug, Drop)]
pub enum Comparison {
    /// All signals have the same values for all values of the sources.
    Equivalent,
    /// The output, or what the latch loads, of this name has different values for these values of the first network's sources,
    /// in their order: inputs, clocks that are no inputs, latches.
    Different { signal: Word, values: Vec<bool> },
    /// Of some of the signals it was not found out, and no difference was seen: so many, of so many in all.
    Undecided { signals: usize, of: usize },
}

/// Why two networks can't be compared.
#[derive(Debug, Drop)]
pub enum CompareFault {
    /// The first name of an input, or of a clock, that one of them has and the other lacks.
    Input(Word),
    /// The first name of an output that one of them has and the other lacks.
    Output(Word),
    /// The first name of a latch that one of them has and the other lacks.
    Latch(Word),
    /// Memory was refused.
    NoMemory,
}

impl From<AllocError> for CompareFault {
    ghost use Rattle.std.specs.Prelude.{◌≡◌};
    ghost use Rattle.syn_compare.specs.declared.answers.CompareFault.TheVariants.{NoMemory};

    ghost from_gives = { λ _ e. e ≡ NoMemory };

    fn from(_error: AllocError) -> CompareFault {
        CompareFault::NoMemory
    }
}
