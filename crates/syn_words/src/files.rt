//! Files of commands.
//!
//! A line feed ends a command as a semicolon does, `#` begins a comment where a word could begin, and a word may stand in
//! double quotes, in which blanks and semicolons are ordinary. The text is read as a script of the same length (`quotes.rt`),
//! so that places stay.

ghost use Rattle.std.specs.Prelude.{◌≡◌, ◌<◌, ◌≤◌, ◌+◌, ◌-◌, ◌^◌, List, length, IfOk, IfErr, IsOkUnless};
ghost use Rattle.syn_words.specs.Files.{has_word, IsCommandFile, IsFileFault, line_after, line_of, next_line, place_of, word_from, word_of};

use crate::quotes::script_of;
use crate::texts::{Text, meant_text};
use crate::words::Phrases;
use crate::{Command, ScriptFault, commands_in};
use std::alloc::{AllocError, Global};

/// Why a text is no file of commands.
#[derive(Debug, Drop)]
pub enum FileFault {
    /// Its first fault.
    First {
        /// The line on which it is, from 1.
        line: u32,
        /// The word at its place, where it is a fault of a word.
        word: Text,
        fault: ScriptFault,
    },
    /// Memory was refused.
    NoMemory,
}

impl From<AllocError> for FileFault {
    ghost use Rattle.std.specs.Prelude.{◌≡◌};
    ghost use Rattle.syn_words.specs.declared.files.FileFault.TheVariants.{NoMemory};

    ghost from_gives = { λ _ fault. fault ≡ NoMemory };

    fn from(_: AllocError) -> FileFault {
        FileFault::NoMemory
    }
}

/// The place of a fault; 0 where memory was refused.
pub fn place_of(fault: ScriptFault) -> u32
    ensures { result ≡ place_of fault }
{
    match fault {
        ScriptFault::BadByte(at)
        | ScriptFault::UnknownCommand(at)
        | ScriptFault::MissingWord(at)
        | ScriptFault::ExtraWord(at)
        | ScriptFault::UnknownEnding(at)
        | ScriptFault::BadNumber(at)
        | ScriptFault::OutOfRange(at) => at,
        ScriptFault::NoMemory => 0,
    }
}

// Whether a fault is one of a word.
fn has_word(fault: ScriptFault) -> bool
    ensures { result ≡ has_word fault }
{
    match fault {
        ScriptFault::BadByte(_) | ScriptFault::MissingWord(_) | ScriptFault::NoMemory => false,
        ScriptFault::UnknownCommand(_)
        | ScriptFault::ExtraWord(_)
        | ScriptFault::UnknownEnding(_)
        | ScriptFault::BadNumber(_)
        | ScriptFault::OutOfRange(_) => true,
    }
}

// The number of the line behind a byte.
fn next_line(line: u32, byte: u8) -> u32
    requires { line < 2 ^ 32 - 1 }
    ensures value { result ≡ next_line line byte }
    ensures few { result ≤ line + 1 }
{
    if byte == b'\n' { line + 1 } else { line }
}

// The number of the line on which bytes end that begin on line 1.
fn line_after(bytes: &[u8]) -> u32
    requires { length bytes.now < 2 ^ 32 - 1 }
    ensures { result ≡ line_after 1 bytes.now }
{
    let mut line = 1;
    for byte in bytes {
        line = next_line(line, *byte);
    }
    line
}

// The number of the line of a place, from 1.
fn line_of(at: u32, text: &[u8]) -> u32
    requires { length text.now < 2 ^ 32 - 1 }
    ensures { result ≡ line_of at text.now }
{
    let (front, _) = text.split_at((at as usize).min(text.len()));
    line_after(front)
}

// The word at a place of a script, as it is meant; no byte where there is none.
fn word_from(alloc: Global, at: u32, script: &[u8]) -> Result<Text, AllocError>
    requires { length script.now < 2 ^ 32 }
    ensures { IfOk result (λ text. text ≡ word_from at script.now) }
{
    let (_, rest) = script.split_at((at as usize).min(script.len()));
    match Phrases::of(rest).next() {
        Some(phrase) => meant_text(alloc, phrase.name.text.as_slice()),
        None => meant_text(alloc, &[]),
    }
}

// The word of a fault; no byte where it isn't one of a word.
fn word_of(alloc: Global, fault: ScriptFault, script: &[u8]) -> Result<Text, AllocError>
    requires { length script.now < 2 ^ 32 }
    ensures { IfOk result (λ text. text ≡ word_of fault script.now) }
{
    if has_word(fault) {
        word_from(alloc, place_of(fault), script)
    } else {
        meant_text(alloc, &[])
    }
}

/// The commands of the text of a file.
///
/// Refuses with the first fault, as of a script. `NoMemory` may come for any text.
pub fn parse_file(alloc: Global, text: &[u8]) -> Result<Vec<Command>, FileFault>
    requires { length text.now < 2 ^ 32 - 1 }
    ensures commands { IfOk result (λ commands. IsCommandFile text.now commands.items) }
    ensures refused { IfErr result (IsFileFault text.now) }
    ensures accepted { (commands : List Command) → IsCommandFile text.now commands → IsOkUnless result FileFault.NoMemory }
{
    let script = script_of(alloc, text)?;
    match commands_in(alloc, true, script.as_slice()) {
        Ok(commands) => Ok(commands),
        Err(ScriptFault::NoMemory) => Err(FileFault::NoMemory),
        Err(fault) => {
            let line = line_of(place_of(fault), text);
            let word = word_of(alloc, fault, script.as_slice())?;
            Err(FileFault::First { line, word, fault })
        }
    }
}
