//! The commands of files, in the place of the commands that name them.

ghost use Rattle.std.specs.Prelude.{◌≡◌, ◌≤◌, ◌⊎◌, [], ◌∷◌, ◌++◌, length, Err, Ok, OnOk, IfOk, IfErr, option_map};
ghost use Rattle.syn_words.specs.Files.{IsCommandFile};
ghost use Rattle.syn_command_files.specs.Told.{FilesUnchanged};
ghost use Rattle.syn_command_files.specs.Sources.{CountsFailure, FailsAt, FailsIn, FaultIn, FileSays, Flattens, HasText, no_memory, Opens, refusal_of, refused, source_in, text_limit};

use crate::{LoadFault, TEXT_LIMIT, Unread};
use std::alloc::Global;
use syn_io::{Files, GetFault};
use syn_words::{Command, FileFault, parse_file};

// Memory was refused.
fn no_memory(alloc: Global) -> Unread
    ensures { refusal_of result ≡ no_memory }
{
    Unread {
        cause: LoadFault::NoMemory,
        name: Vec::new(alloc),
    }
}

// A cause in the file of that name; that memory was refused, where it was for the name.
fn unread(alloc: Global, cause: LoadFault, name: &str) -> Unread
    ensures { (refusal_of result ≡ no_memory) ⊎ (refusal_of result ≡ refused cause name.now) }
{
    match Vec::from_slice(alloc, name.as_bytes()) {
        Ok(name) => Unread { cause, name },
        Err(_) => no_memory(alloc),
    }
}

// The text of a file of commands.
fn text_of<F: Files>(alloc: Global, name: &str, files: &mut F) -> Result<Vec<u8>, Unread>
    ensures text { IfOk result (λ text. HasText (F.disk files.old).told name.now text.items) }
    ensures refused { IfErr result (λ unread. (refusal_of unread ≡ no_memory) ⊎ FailsIn (F.disk files.old).told name.now (refusal_of unread)) }
    ensures failed { IfErr result (λ unread. CountsFailure unread.cause (F.disk files.old) (F.disk files.new)) }
    ensures unchanged { FilesUnchanged (F.disk files.old) (F.disk files.new) }
{
    match files.get(alloc, name, TEXT_LIMIT as u64) {
        Ok(text) => Ok(text),
        Err(GetFault::Failed) => Err(unread(alloc, LoadFault::GetFailed, name)),
        Err(GetFault::TooLong) => Err(unread(alloc, LoadFault::FileTooLong, name)),
        Err(GetFault::NoMemory) => Err(no_memory(alloc)),
    }
}

// The commands that the text of a file says.
fn said_by_text(alloc: Global, name: &str, text: &[u8]) -> Result<Vec<Command>, Unread>
    requires { length text.now ≤ text_limit }
    ensures says { IfOk result (λ said. IsCommandFile text.now said.items) }
    ensures refused { IfErr result (λ unread. (refusal_of unread ≡ no_memory) ⊎ FaultIn name.now text.now (refusal_of unread)) }
{
    match parse_file(alloc, text) {
        Ok(said) => Ok(said),
        Err(FileFault::NoMemory) => Err(no_memory(alloc)),
        Err(FileFault::First { line, word, fault }) => {
            Err(unread(alloc, LoadFault::File { line, word, fault }, name))
        }
    }
}

/// The commands of a file, as it says them.
pub(crate) fn said_by_file<F: Files>(
    alloc: Global,
    name: &str,
    files: &mut F,
) -> Result<Vec<Command>, Unread>
    ensures says { IfOk result (λ said. FileSays (F.disk files.old).told name.now said.items) }
    ensures refused { IfErr result (λ unread. (refusal_of unread ≡ no_memory) ⊎ FailsIn (F.disk files.old).told name.now (refusal_of unread)) }
    ensures failed { IfErr result (λ unread. CountsFailure unread.cause (F.disk files.old) (F.disk files.new)) }
    ensures unchanged { FilesUnchanged (F.disk files.old) (F.disk files.new) }
{
    let text = text_of(alloc, name, files)?;
    said_by_text(alloc, name, text.as_slice())
}

// The name of the file whose commands a command stands for.
fn source_in(command: &Command) -> Option<&str>
    ensures { option_map (λ name. name.now) result ≡ source_in command.now }
{
    match command {
        Command::Source(name) => Some(name.as_str()),
        _ => None,
    }
}

// The commands of the file that a command names, where files are taken so many deep; `None` for a
// command that stands for itself.
fn opened<F: Files>(
    alloc: Global,
    depth: u32,
    command: &Command,
    files: &mut F,
) -> Result<Option<Vec<Command>>, Unread>
    ensures opens { IfOk result (Opens depth (F.disk files.old).told command.now) }
    ensures refused { IfErr result (λ unread. (refusal_of unread ≡ no_memory) ⊎ FailsAt depth (F.disk files.old).told command.now (refusal_of unread)) }
    ensures failed { IfErr result (λ unread. CountsFailure unread.cause (F.disk files.old) (F.disk files.new)) }
    ensures unchanged { FilesUnchanged (F.disk files.old) (F.disk files.new) }
{
    let Some(name) = source_in(command) else {
        return Ok(None);
    };
    if depth == 0 {
        return Err(unread(alloc, LoadFault::TooDeep, name));
    }
    match said_by_file(alloc, name, files) {
        Ok(said) => Ok(Some(said)),
        Err(unread) => Err(unread),
    }
}

// Puts a command behind others.
fn push_command(alloc: Global, command: Command, flat: &mut Vec<Command>) -> Result<(), Unread>
    ensures put { OnOk result (flat.new.items ≡ flat.old.items ++ command ∷ []) }
    ensures refused { IfErr result (λ unread. refusal_of unread ≡ no_memory) }
{
    match flat.push(command) {
        Ok(()) => Ok(()),
        Err(_) => Err(no_memory(alloc)),
    }
}

/// Puts commands behind others, with those of the files that they name in their place; files are
/// taken so many deep.
pub(crate) fn push_commands<F: Files>(
    alloc: Global,
    depth: u32,
    commands: Vec<Command>,
    files: &mut F,
    flat: &mut Vec<Command>,
) -> Result<(), Unread>
    ensures put { OnOk result (Flattens depth (F.disk files.old).told flat.old.items commands.items (Ok flat.new.items)) }
    ensures refused { IfErr result (λ unread. (refusal_of unread ≡ no_memory)
        ⊎ Flattens depth (F.disk files.old).told flat.old.items commands.items (Err (refusal_of unread))) }
    ensures failed { IfErr result (λ unread. CountsFailure unread.cause (F.disk files.old) (F.disk files.new)) }
    ensures unchanged { FilesUnchanged (F.disk files.old) (F.disk files.new) }
{
    for command in commands {
        match opened(alloc, depth, &command, files) {
            Err(unread) => return Err(unread),
            Ok(None) => push_command(alloc, command, flat)?,
            Ok(Some(said)) => push_commands(alloc, depth - 1, said, files, flat)?,
        }
    }
    Ok(())
}
