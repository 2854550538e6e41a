//! What an AIGER file says, in numbers: its literals and its names.

ghost use Rattle.std.specs.Prelude.{◌≡◌, ◌<◌, ◌^◌, length, IfNone, IfSome};
ghost use Rattle.syn_aiger_files.specs.Literals.{literals_from};

use std::marker::Model;
use syn_lists::Items;

/// A latch: its own literal, the literal that it loads, and its reset, which is 0, 1 or its own literal, for any value.
#[derive(Debug, Clone, Copy, PartialEq, Eq)]
pub struct AigLatch {
    pub literal: u32,
    pub next: u32,
    pub reset: u32,
}

/// An AND: its own literal and its two right sides.
#[derive(Debug, Clone, Copy, PartialEq, Eq)]
pub struct AigAnd {
    pub literal: u32,
    pub first: u32,
    pub second: u32,
}

/// What has a symbol: an input, a latch, an output, a bad state or a constraint.
#[derive(Debug, Clone, Copy, PartialEq, Eq)]
pub enum Place {
    Input,
    Latch,
    Output,
    Bad,
    Constraint,
}

/// A symbol: of what it is the name, its number from 0, and the name, which may have any bytes.
#[derive(Debug, Drop)]
pub struct Symbol {
    pub place: Place,
    pub index: u32,
    pub name: Items<u8>,
}

/// How many bad states, constraints, justice properties and fairness constraints there are.
#[derive(Debug, Clone, Copy)]
pub struct Further {
    pub bad: u32,
    pub constraints: u32,
    pub justice: u32,
    pub fairness: u32,
}

/// The first line: the format, the greatest variable, how many inputs, latches, outputs and ANDs there are, and the counts that may follow these.
#[derive(Debug, Clone, Copy)]
pub struct Header {
    pub ascii: bool,
    pub variables: u32,
    pub inputs: u32,
    pub latches: u32,
    pub outputs: u32,
    pub ands: u32,
    pub further: Further,
}

impl Header {
    ghost use Rattle.std.specs.Prelude.{◌≡◌};
    ghost use Rattle.syn_aiger_files.specs.Files.{all_outputs};
    ghost use Rattle.syn_aiger_files.specs.Headers.{HeaderFits};

    /// How many outputs a body has, with bad states and constraints.
    pub fn all_outputs(&self) -> u32
        requires { HeaderFits self.now }
        ensures { result ≡ all_outputs self.now }
    {
        self.further.bad + self.further.constraints + self.outputs
    }
}

/// What comes next in a body: lines of an ASCII file; lines of a binary one, whose latches have literals that follow from their number; and pairs of numbers for its ANDs, whose literals do too.
#[derive(Debug, Clone, Copy)]
pub enum Wanted {
    InputLine,
    LatchLine,
    NextLine(u32),
    OutputLine,
    AndLine,
    PairOf(u32),
}

/// What a line or a pair of numbers says.
#[derive(Debug, Clone, Copy)]
pub enum Part {
    Input(u32),
    Latched(AigLatch),
    Output(u32),
    Gate(AigAnd),
}

// Literals that are listed, or the first so many plain ones.
#[derive(Debug, Drop)]
enum Listing {
    Listed(Items<u32>),
    First(u32),
}

/// The literals of inputs. Those of a binary file take no memory. Contracts see the list.
#[derive(Debug, Drop)]
pub struct Inputs {
    listing: Listing,
}

impl Model for Inputs {
    ghost use Rattle.std.specs.Prelude.{ℕ, List};
    ghost use Rattle.syn_aiger_files.specs.Inputs.{literals_in};

    ghost Value = { List ℕ };

    ghost view = { λ i. literals_in i.listing };
}

impl Inputs {
    /// These literals.
    pub fn listed(literals: Vec<u32>) -> Inputs
        ensures { result ≡ literals.items }
    {
        Inputs {
            listing: Listing::Listed(Items::of(literals)),
        }
    }

    /// The literals 2, 4, 6 and so on, so many.
    pub fn first(count: u32) -> Inputs
        ensures { result ≡ literals_from 1 count }
    {
        Inputs {
            listing: Listing::First(count),
        }
    }

    /// How many there are.
    pub fn len(&self) -> usize
        ensures { result ≡ length self.now }
    {
        match &self.listing {
            Listing::Listed(literals) => literals.as_slice().len(),
            Listing::First(count) => *count as usize,
        }
    }

    /// The literals where they are listed; else they are 2, 4, 6 and so on.
    pub fn as_listed(&self) -> Option<&[u32]>
        ensures listed { IfSome result (λ literals. literals.now ≡ self.now) }
        ensures first { IfNone result (self.now ≡ literals_from 1 (length self.now)) }
        ensures few { IfNone result (length self.now < 2 ^ 32) }
    {
        match &self.listing {
            Listing::Listed(literals) => Some(literals.as_slice()),
            Listing::First(count) => {
                // Read, so that it is known to be a `u32`.
                let _few = *count;
                None
            }
        }
    }
}

/// What an AIGER file says: its greatest variable, the literals of its inputs, its latches, the literals of its outputs, its ANDs and its symbols, each in order.
#[derive(Debug, Drop)]
pub struct Aig {
    pub variables: u32,
    pub inputs: Inputs,
    pub latches: Items<AigLatch>,
    pub outputs: Items<u32>,
    pub ands: Items<AigAnd>,
    pub symbols: Items<Symbol>,
}
