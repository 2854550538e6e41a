//! What can be wrong with models that contain each other.

use syn_lists::Items;
use syn_netlist::Word;

/// What is wrong with models that contain each other. Of several faults the first in this order is answered: those of
/// subcircuits by line, and on one line in the order here; then the other three in turn.
#[derive(Debug, Drop)]
pub enum FlatFault {
    /// The line of a subcircuit whose model isn't there.
    UnknownModel(u32),
    /// The line of a subcircuit with a formal that is no input, clock or output of its model, and the formal.
    UnknownPort(u32, Word),
    /// The line of a subcircuit with an input or clock of its model that isn't bound, and that name.
    PortMissing(u32, Word),
    /// The line of a subcircuit that defines a name which its model defines elsewhere, and the name.
    DefinedTwice(u32, Word),
    /// The first name that is read and never defined in its model.
    Undriven(Word),
    /// The names of models that contain each other in a circle: each contains the next, the last contains the first.
    Recursion(Items<Word>),
    /// How many words the main model and the models of all instances have; the greatest number stands for all that are greater.
    TooManyWords(u64),
    /// Memory was refused.
    NoMemory,
}
