//! The commands of a script and of a file of commands, before any of them runs.
//!
//! A command `source F` stands for the commands of the file F, and those for the commands of further
//! files, 16 deep at most. Everything is read and parsed first, in text order, and the first fault in
//! that order is answered, alone: a text is parsed whole before the files that it names are read. What
//! is left ends at the first `quit`; what stands behind it was read too.
#![tactic(auto)]

ghost use Rattle.std.specs.Prelude.{◌≡◌, ◌⊎◌, List, IfOk, IfErr, IsSome, true};
ghost use Rattle.syn_command_files.specs.Told.{FilesUnchanged};
ghost use Rattle.syn_command_files.specs.Sources.{CountsFailure, has_no_source, no_memory, refusal_of, until_quit};
ghost use Rattle.syn_command_files.specs.Loading.{ComesTo, FileRefused, IsOutside, LoadsFile, LoadsScript, MeetsFault, ScriptFails, ScriptRefused, ScriptSays};

mod laws;
mod luts;
mod quits;
mod sources;

pub use laws::{worked_loads, worked_luts};
pub use luts::{LutFileFault, luts_of};
use quits::cut_at_quit;
pub use quits::is_quit;
use sources::{push_commands, said_by_file};
use std::alloc::Global;
use syn_io::Files;
use syn_words::{Command, ScriptFault, Text, parse_script};

/// The most bytes of a script, and of a file of commands.
pub const TEXT_LIMIT: usize = 65_536;

// So many files deep at most.
const MOST_DEEP: u32 = 16;

/// Why commands were not loaded.
#[derive(Debug, Drop)]
pub enum LoadFault {
    /// The script's first fault. It is not that memory was refused.
    Script(ScriptFault),
    /// The first fault of a file of commands.
    File {
        /// The line on which it is, from 1.
        line: u32,
        /// The word at its place, where it is a fault of a word.
        word: Text,
        fault: ScriptFault,
    },
    /// The script has more than 65,536 bytes.
    ScriptTooLong,
    /// A file of commands has more than 65,536 bytes.
    FileTooLong,
    /// A file would be taken more than 16 deep.
    TooDeep,
    /// A file is missing, or could not be read. The count of faults rose.
    GetFailed,
    NoMemory,
}

/// Why commands were not loaded, with the bytes of the name of the file in which the cause is; none
/// where it is in the script itself, or where memory was refused.
#[derive(Debug, Drop)]
pub struct Unread {
    pub cause: LoadFault,
    pub name: Vec<u8>,
}

// The commands up to the first that ends the run, with those of the files that they name in their place.
fn flattened<F: Files>(
    alloc: Global,
    said: Vec<Command>,
    files: &mut F,
) -> Result<Vec<Command>, Unread>
    ensures commands { IfOk result (λ commands. ComesTo (F.disk files.old).told said.items commands.items) }
    ensures refused { IfErr result (λ unread. (refusal_of unread ≡ no_memory) ⊎ MeetsFault (F.disk files.old).told said.items (refusal_of unread)) }
    ensures failed { IfErr result (λ unread. CountsFailure unread.cause (F.disk files.old) (F.disk files.new)) }
    ensures unchanged { FilesUnchanged (F.disk files.old) (F.disk files.new) }
{
    let mut flat = Vec::new(alloc);
    push_commands(alloc, MOST_DEEP, said, files, &mut flat)?;
    cut_at_quit(&mut flat);
    Ok(flat)
}

// The commands of a script, as it says them.
fn said_by_script(alloc: Global, text: &[u8]) -> Result<Vec<Command>, LoadFault>
    ensures says { IfOk result (λ said. ScriptSays text.now said.items) }
    ensures refused { IfErr result (λ cause. (cause ≡ LoadFault.NoMemory) ⊎ ScriptFails text.now cause) }
{
    if text.len() > TEXT_LIMIT {
        return Err(LoadFault::ScriptTooLong);
    }
    match parse_script(alloc, text) {
        Ok(said) => Ok(said),
        Err(ScriptFault::NoMemory) => Err(LoadFault::NoMemory),
        Err(fault) => Err(LoadFault::Script(fault)),
    }
}

// The same as `load_script`, by what it says alone.
fn script<F: Files>(alloc: Global, text: &[u8], files: &mut F) -> Result<Vec<Command>, Unread>
    ensures commands { IfOk result (λ commands. LoadsScript text.now (F.disk files.old).told commands.items) }
    ensures refused { IfErr result (λ unread. ScriptRefused text.now (F.disk files.old).told (refusal_of unread)) }
    ensures failed { IfErr result (λ unread. CountsFailure unread.cause (F.disk files.old) (F.disk files.new)) }
    ensures unchanged { FilesUnchanged (F.disk files.old) (F.disk files.new) }
{
    match said_by_script(alloc, text) {
        Ok(said) => flattened(alloc, said, files),
        Err(cause) => Err(Unread {
            cause,
            name: Vec::new(alloc),
        }),
    }
}

// The same as `load_file`, by what it says alone.
fn file<F: Files>(alloc: Global, name: &str, files: &mut F) -> Result<Vec<Command>, Unread>
    ensures commands { IfOk result (λ commands. LoadsFile name.now (F.disk files.old).told commands.items) }
    ensures refused { IfErr result (λ unread. FileRefused name.now (F.disk files.old).told (refusal_of unread)) }
    ensures failed { IfErr result (λ unread. CountsFailure unread.cause (F.disk files.old) (F.disk files.new)) }
    ensures unchanged { FilesUnchanged (F.disk files.old) (F.disk files.new) }
{
    let said = said_by_file(alloc, name, files)?;
    flattened(alloc, said, files)
}

/// The commands of a script, with those of the files that it names in their place, up to the first `quit`.
///
/// Refuses with the first fault: of the script, or of a file that it names. `NoMemory` may come for any script.
pub fn load_script<F: Files>(
    alloc: Global,
    text: &[u8],
    files: &mut F,
) -> Result<Vec<Command>, Unread>
    ensures commands { IfOk result (λ commands. LoadsScript text.now (F.disk files.old).told commands.items) }
    ensures flat { IfOk result (λ commands. has_no_source commands.items ≡ true) }
    ensures ended { IfOk result (λ commands. until_quit commands.items ≡ commands.items) }
    ensures refused { IfErr result (λ unread. ScriptRefused text.now (F.disk files.old).told (refusal_of unread)) }
    ensures failed { IfErr result (λ unread. CountsFailure unread.cause (F.disk files.old) (F.disk files.new)) }
    ensures unchanged { FilesUnchanged (F.disk files.old) (F.disk files.new) }

    // Where the files are told and all is well, only memory or a call of the files can be refused; memory alone where none is named.
    ensures accepted { (cs : List Command) → IsSome (F.disk files.old).told → LoadsScript text.now (F.disk files.old).told cs
        → IfErr result (λ unread. IsOutside unread.cause) }
    ensures alone { (said : List Command) → ScriptSays text.now said → has_no_source said ≡ true → IfErr result (λ unread. unread.cause ≡ LoadFault.NoMemory) }
{
    script(alloc, text, files)
}

/// The commands of a file of commands, with those of the files that it names in their place, up to the first `quit`.
///
/// Refuses with the first fault: of the file, or of a file that it names. `NoMemory` may come for any files.
pub fn load_file<F: Files>(alloc: Global, name: &str, files: &mut F) -> Result<Vec<Command>, Unread>
    ensures commands { IfOk result (λ commands. LoadsFile name.now (F.disk files.old).told commands.items) }
    ensures flat { IfOk result (λ commands. has_no_source commands.items ≡ true) }
    ensures ended { IfOk result (λ commands. until_quit commands.items ≡ commands.items) }
    ensures refused { IfErr result (λ unread. FileRefused name.now (F.disk files.old).told (refusal_of unread)) }
    ensures failed { IfErr result (λ unread. CountsFailure unread.cause (F.disk files.old) (F.disk files.new)) }
    ensures unchanged { FilesUnchanged (F.disk files.old) (F.disk files.new) }

    // Where the files are told and all is well, only memory or a call of the files can be refused.
    ensures accepted { (cs : List Command) → IsSome (F.disk files.old).told → LoadsFile name.now (F.disk files.old).told cs
        → IfErr result (λ unread. IsOutside unread.cause) }
{
    file(alloc, name, files)
}
