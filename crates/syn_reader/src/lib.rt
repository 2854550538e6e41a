//! Reading a file of one or more models to one checked netlist.
//!
//! The lines of a file are told apart by model, and each line is read by its keyword. The models that they spell are
//! flattened to a netlist. `specs/` says what the lines are as statements, which models and which netlist a file spells,
//! which faults can stand in it, and which of them is its first. `read` reads the netlist, or names the first fault. The
//! laws hold of the definitions alone.
#![tactic(auto)]

mod alone;
mod checked;
mod file_reader;
mod latch_lines;
mod laws;
mod model_words;
mod models;
mod rows;
mod signals;
mod statements;
mod subcircuits;

pub use checked::{MAX_COST, MAX_SOURCES};
pub use file_reader::{read, read_checked};
pub use laws::{
    either_or, faultless_say, few_outputs, not_both, one_fault, one_netlist, say_computed,
    worked_models, worked_parts, worked_prefixes, worked_subcircuits, worked_texts,
};
use std::alloc::{AllocError, AllocFailed};
use syn_lists::Items;
use syn_netlist::Word;

/// What a line is: a row, or a keyword with its words.
#[derive(Clone, Copy, Debug, PartialEq, Eq)]
pub enum Kind {
    /// A line whose first word doesn't begin with a dot.
    Row,
    /// A first word that begins with a dot and is none of the keywords.
    Unknown,
    /// `.model`
    Model,
    /// `.inputs`
    Inputs,
    /// `.outputs`
    Outputs,
    /// `.clock`
    Clock,
    /// `.names`
    Names,
    /// `.latch`
    Latch,
    /// `.subckt`
    Subckt,
    /// `.end`
    End,
}

/// Why a file was not read: its first fault, or want of memory.
///
/// An offset counts bytes from 0, a line from 1: of a logical line it is the first physical one. The faults of lines come in
/// the order here on one line, and so do those of a subcircuit.
#[derive(Debug, Drop)]
pub enum ReadFault {
    /// The byte at this offset is none of the format's.
    BadByte(u32),
    /// This line stands below the `.end` line of its model.
    AfterEnd(u32),
    /// The keyword of this line isn't known.
    UnknownKeyword(u32),
    /// `.model` on this line isn't the first statement of a file that doesn't begin with one.
    SecondModel(u32),
    /// `.model` or `.names` on this line has no further word.
    NoName(u32),
    /// `.model` on this line has two or more further words.
    ExtraWord(u32),
    /// No `.names` stands as the last keyword above this row.
    StrayRow(u32),
    /// This row isn't of its table's shape.
    RowShape(u32),
    /// The output of this row isn't that of its table's first row.
    MixedRows(u32),
    /// `.latch` on this line hasn't 2 to 5 further words.
    LatchShape(u32),
    /// The type of the latch on this line is none.
    LatchType(u32),
    /// The initial value of the latch on this line is none.
    LatchInit(u32),
    /// This line defines a name that a definition before it forbids; or its subcircuit does, and then another one anywhere in its model may forbid it.
    DefinedTwice(u32, Word),
    /// `.model` on this line has the name of a model above.
    ModelTwice(u32),
    /// The words behind `.subckt` on this line are no model with binds: there is none, or a word without `=`, with an empty side or with the actual `NIL`.
    SubcktShape(u32),
    /// This line binds this formal for a second time.
    PortTwice(u32, Word),
    /// The model of the subcircuit on this line isn't there.
    UnknownModel(u32),
    /// The subcircuit on this line binds this formal, which is no input, clock or output of its model.
    UnknownPort(u32, Word),
    /// The subcircuit on this line doesn't bind this input or clock of its model.
    PortMissing(u32, Word),
    /// This name is read and never defined in its model; its reading place is the first such one.
    Undriven(Word),
    /// The models of these names contain each other in a circle: each contains the next, the last contains the first.
    Recursion(Items<Word>),
    /// So many words of the main model and the models of all instances are too many; the greatest number stands for all that are greater.
    TooManyWords(u64),
    /// The tables that define these names read each other in a circle: each reads the next, the last the first.
    Cycle(Items<Word>),
    /// So many sources are too many.
    TooManySources(u32),
    /// So great a cost is too great.
    TooLarge(u64),
    /// Memory was refused.
    NoMemory,
}

impl From<AllocError> for ReadFault {
    ghost use Rattle.std.specs.Prelude.{◌≡◌};
    ghost use Rattle.syn_reader.specs.declared.ReadFault.TheVariants.{NoMemory};

    ghost from_gives = { λ _ e. e ≡ NoMemory };

    fn from(_: AllocError) -> ReadFault {
        ReadFault::NoMemory
    }
}

impl<T: Drop> From<AllocFailed<T>> for ReadFault {
    ghost use Rattle.std.specs.Prelude.{◌≡◌};
    ghost use Rattle.syn_reader.specs.declared.ReadFault.TheVariants.{NoMemory};

    ghost from_gives = { λ _ e. e ≡ NoMemory };

    fn from(_: AllocFailed<T>) -> ReadFault {
        ReadFault::NoMemory
    }
}
