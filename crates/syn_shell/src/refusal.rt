//! Why a run or a command is refused.

ghost use Rattle.std.specs.Prelude.{◌≡◌};

use std::alloc::AllocError;
use syn_aiger_files::AigFault;
use syn_command_files::{LoadFault, LutFileFault};
use syn_compare::CompareFault;
use syn_netlist::Word;
use syn_reader::ReadFault;
use syn_usage::UsageFault;
use syn_words::{ScriptFault, Text};

/// Why a file that is compared holds no network.
///
/// Want of memory is none of these causes.
#[derive(Debug, Drop)]
pub enum FileCause {
    /// Its first fault.
    Read(ReadFault),
    /// Its first fault, as an AIGER file.
    ReadAiger(AigFault),
    /// It has more than 16,777,216 bytes.
    TooLong,
    /// It could not be read.
    GetFailed,
}

/// Why a run or a command is refused. Each but `SinkFailed` has a line that says so.
///
/// Want of memory is always `NoMemory`: none of `Script`, `CommandFile`, `Read`, `ReadAiger` and `Unmatched` has it inside.
#[derive(Debug, Drop)]
pub enum Refusal {
    /// The words are no call of the program.
    Words,
    /// The first fault of a script.
    Script(ScriptFault),
    /// The first fault of a file of commands, on this line, from 1, at this word, where it is a fault of a word.
    CommandFile {
        line: u32,
        word: Text,
        fault: ScriptFault,
    },
    /// The first fault of the file that the command names.
    Read(ReadFault),
    /// The first fault of the AIGER file that the command names.
    ReadAiger(AigFault),
    /// The first fault of the file of LUTs that the command names.
    ReadLuts(LutFileFault),
    /// The file of this name, which is compared, holds no network.
    NotRead {
        name: Word,
        cause: FileCause,
    },
    /// The first name that one of the networks that are compared has and the other lacks.
    Unmatched(CompareFault),
    /// The file that the command names has more than 16,777,216 bytes.
    FileTooLong,
    /// A script or a line has more than 65,536 bytes.
    LineTooLong,
    /// A file of commands has more than 65,536 bytes.
    CommandFileTooLong,
    /// Files of commands that name each other are more than 16 deep.
    TooDeep,
    /// A line was given after 1,048,576 others.
    TooManyLines,
    /// So many gates make the network a graph, more than 4,194,304.
    TooManyGates(u64),
    /// An AIGER file has no latches with a type: the output of the first one that has.
    LatchType(Word),
    /// The command needs a network, and there is none.
    NoNetwork,
    /// The file that the command names could not be read.
    GetFailed,
    /// The file that the command names could not be written.
    PutFailed,
    /// The next line could not be read.
    LineFailed,
    /// The sink did not take a line.
    SinkFailed,
    /// Memory was refused.
    NoMemory,
}

impl From<AllocError> for Refusal {
    ghost use Rattle.syn_shell.specs.declared.refusal.Refusal.TheVariants.{NoMemory};

    ghost from_gives = { λ _ refusal. refusal ≡ NoMemory };

    fn from(_error: AllocError) -> Refusal {
        Refusal::NoMemory
    }
}

impl From<LoadFault> for Refusal {
    ghost use Rattle.syn_shell.specs.Scripts.{cause_of};

    ghost from_gives = { λ fault refusal. refusal ≡ cause_of fault };

    fn from(fault: LoadFault) -> Refusal {
        match fault {
            LoadFault::Script(fault) => Refusal::Script(fault),
            LoadFault::File { line, word, fault } => Refusal::CommandFile { line, word, fault },
            LoadFault::ScriptTooLong => Refusal::LineTooLong,
            LoadFault::FileTooLong => Refusal::CommandFileTooLong,
            LoadFault::TooDeep => Refusal::TooDeep,
            LoadFault::GetFailed => Refusal::GetFailed,
            LoadFault::NoMemory => Refusal::NoMemory,
        }
    }
}

impl From<UsageFault> for Refusal {
    ghost use Rattle.syn_shell.specs.Runs.{usage_cause};

    ghost from_gives = { λ fault refusal. refusal ≡ usage_cause fault };

    fn from(fault: UsageFault) -> Refusal {
        match fault {
            UsageFault::Words => Refusal::Words,
            UsageFault::NoMemory => Refusal::NoMemory,
        }
    }
}
