//! Reading scripts: commands, one after the other, ended by semicolons.
//!
//! A script is a line of text: a tab, a CR and the bytes 32 to 126. Its words are separated by
//! spaces, tabs and CRs. The first word of a command is its name, long or short; a command without
//! words is skipped. The whole script is read before anything runs, and the first fault in text
//! order is answered, alone.
//!
//! What may stand behind a name is data, a form: three options without a number, two with
//! a number in a range, and then a file's name or two, a command's, or two numbers; or any words. One
//! function reads words by a form, and one table has a row a name: the form, and the keyword, which
//! says what the words spell (`specs/Table.antt`, `specs/Commands.antt`, and in the code `table.rt`
//! and `spelling.rt`) and what `help` tells of it (`help.rt`). A command that makes the network anew
//! is a recipe (`recipes.rt`). `dress` spells no command.
//!
//! A file of commands (`files.rt`) is read as a script of the same length, in which its comments are
//! blanks. No memory is taken but for that script, the list, the names of files and texts.
#![tactic(auto)]

ghost use Rattle.std.specs.Prelude.{◌≡◌, ◌⊎◌, ◌<◌, ◌^◌, [], Err, List, length, Ok, Some, IfOk, IfErr, IsOkUnless};
ghost use Rattle.syn_words.specs.Scripts.{IsFirstFault, IsScript, meaning_by, said_after};

mod files;
mod flags;
mod formats;
mod forms;
mod help;
mod inputs;
mod laws;
mod names;
mod numbers;
mod quotes;
mod recipes;
mod spelling;
mod table;
mod texts;
mod word_reader;
mod words;

pub use files::{FileFault, parse_file, place_of};
pub use formats::NetworkFile;
pub use forms::NumberRange;
pub use inputs::{LutInputs, LutSizes};
pub use laws::{
    either_or, not_both, one_fault, one_script, worked_files, worked_forms, worked_scripts,
};
pub use names::FileName;
pub use numbers::{is_number, number_in};
pub use recipes::{PassOptions, Recipe, ReplaceLimits, SearchLimits};
use spelling::push_commands;
use std::alloc::{AllocError, AllocFailed, Global};
pub use texts::Text;
use words::{Phrases, bad_byte};

/// A command of a script. Contracts see the names of files and texts as bytes.
#[derive(Debug, Drop)]
pub enum Command {
    /// `read_blif F`, `read F`: the graph of the netlist in the file of that name becomes the network.
    Read(FileName),
    /// `write_blif F`, `write F`: writes the network to the file of that name.
    Write(FileName),
    /// `read_aiger [-p] F`, `read F`: the graph of the AIGER file of that name becomes the network.
    ReadAiger {
        /// Whether bad states and constraints are taken, as outputs; else they are refused.
        properties: bool,
        /// The file's name.
        name: FileName,
    },
    /// `write_aiger [-a] [-t] F`, `write F`: writes the network's graph to the file of that name, as an AIGER file.
    WriteAiger {
        /// Whether the file is in the ASCII format; else it is in the binary one.
        ascii: bool,
        /// Whether the types of latches are left out; else a latch with a type is refused.
        untyped: bool,
        /// The file's name.
        name: FileName,
    },
    /// `print_stats`, `ps`: prints the network's line.
    Stats,
    /// `print_level`: prints how many observed signals have each level.
    Levels,
    /// `cec [-C n] F`, `cec [-C n] F G`: prints how the network compares with that of a file, or how those of two files do.
    Compare {
        /// At most so many conflicts for each question.
        conflicts: u32,
        /// The first file, where two are compared.
        first: Option<NetworkFile>,
        /// The second file.
        second: NetworkFile,
    },
    /// `time`: prints the seconds since it was last run, or since the run began.
    Time,
    /// `echo WORDS`, `help [COMMAND]`: prints a text.
    Print(Text),
    /// `quit`, `q`, `exit`: ends the run.
    Quit,
    /// `source F`: runs the commands of the file of that name.
    Source(FileName),
    /// `read_lut F`: the LUTs of the file of that name are those that mapping uses.
    ReadLuts(FileName),
    /// `gen SEED SIZE`: the graph of the netlist that is generated from a seed becomes the network.
    Generate {
        /// The seed.
        seed: u64,
        /// The number of tables.
        size: u16,
    },
    /// Makes the network anew.
    Make(Recipe),
}

/// Why a text is no script. A place is an offset in bytes, from 0.
#[derive(Clone, Copy, Debug, PartialEq, Eq)]
pub enum ScriptFault {
    /// A byte that may not stand in a script.
    BadByte(u32),
    /// A command's first word is no command's name.
    UnknownCommand(u32),
    /// A command ends too early, at the semicolon or at the script's end.
    MissingWord(u32),
    /// A word that the command doesn't expect.
    ExtraWord(u32),
    /// A file's name that ends like none of a format.
    UnknownEnding(u32),
    /// A word that should be a number isn't one.
    BadNumber(u32),
    /// A number is outside its range.
    OutOfRange(u32),
    /// Memory was refused.
    NoMemory,
}

impl From<AllocError> for ScriptFault {
    ghost use Rattle.std.specs.Prelude.{◌≡◌};
    ghost use Rattle.syn_words.specs.declared.ScriptFault.TheVariants.{NoMemory};

    ghost from_gives = { λ _ fault. fault ≡ NoMemory };

    fn from(_: AllocError) -> ScriptFault {
        ScriptFault::NoMemory
    }
}

impl<T: Drop> From<AllocFailed<T>> for ScriptFault {
    ghost use Rattle.std.specs.Prelude.{◌≡◌};
    ghost use Rattle.syn_words.specs.declared.ScriptFault.TheVariants.{NoMemory};

    ghost from_gives = { λ _ fault. fault ≡ NoMemory };

    fn from(_: AllocFailed<T>) -> ScriptFault {
        ScriptFault::NoMemory
    }
}

/// The commands of a script.
///
/// Refuses with the first fault: a byte that may not stand in a script comes before all else, then
/// the faults of its commands in text order. `NoMemory` may come for any text.
pub fn parse_script(alloc: Global, text: &[u8]) -> Result<Vec<Command>, ScriptFault>
    requires { length text.now < 2 ^ 32 }
    ensures script { IfOk result (λ commands. IsScript text.now commands.items) }
    ensures refused { IfErr result (λ fault. (fault ≡ ScriptFault.NoMemory) ⊎ IsFirstFault text.now fault) }
    ensures accepted { (commands : List Command) → IsScript text.now commands → IsOkUnless result ScriptFault.NoMemory }
{
    commands_in(alloc, false, text)
}

// The commands of a script in which bytes may be held in quotes or not.
pub(crate) fn commands_in(
    alloc: Global,
    held: bool,
    text: &[u8],
) -> Result<Vec<Command>, ScriptFault>
    requires { length text.now < 2 ^ 32 }
    ensures script { IfOk result (λ commands. meaning_by held text.now ≡ Ok commands.items) }
    ensures refused { IfErr result (λ fault. (fault ≡ ScriptFault.NoMemory) ⊎ (meaning_by held text.now ≡ Err fault)) }
{
    if let Some(at) = bad_byte(held, text) {
        return Err(ScriptFault::BadByte(at));
    }
    commands_of(alloc, Phrases::of(text))
}

// The commands of phrases, one after the other.
fn commands_of(alloc: Global, phrases: Phrases<'_>) -> Result<Vec<Command>, ScriptFault>
    ensures said { IfOk result (λ commands. said_after [] phrases.entry ≡ Ok commands.items) }
    ensures refused { IfErr result (λ fault. (fault ≡ ScriptFault.NoMemory) ⊎ (said_after [] phrases.entry ≡ Err fault)) }
{
    let mut commands = Vec::new(alloc);
    for phrase in phrases {
        push_commands(alloc, &mut commands, phrase)?;
    }
    Ok(commands)
}
