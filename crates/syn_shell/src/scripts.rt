//! A script, or a file of commands: its commands one after the other, up to the first that is refused.

ghost use Rattle.std.specs.Prelude.{◌≡◌, Err, IfErr, IfOk, Some};
ghost use Rattle.syn_command_files.specs.Sources.{CountsFailure, refusal_of};
ghost use Rattle.syn_command_files.specs.Told.{FilesUnchanged};
ghost use Rattle.syn_shell.specs.LineMode.{has_quit};
ghost use Rattle.syn_shell.specs.Outside.{state};
ghost use Rattle.syn_shell.specs.Scripts.{LoadFails, Loads, name_in, RunsCommands};
ghost use Rattle.syn_shell.specs.Stopping.{Leaves, outcome_of, source_in, status_left};

use crate::refusal::Refusal;
use crate::refusal_lines::{Reported, report_refusal};
use crate::session::Session;
use std::alloc::Global;
use std::thread::Threads;
use std::time::Clock;
use syn_command_files::{Unread, is_quit, load_file, load_script};
use syn_commit::CommitHook;
use syn_io::{Files, Sink};
use syn_words::Command;

/// What holds commands: the text of a script, or the file of a name.
#[derive(Clone, Copy, Debug)]
pub(crate) enum Source<'a> {
    Text(&'a [u8]),
    File(&'a str),
}

/// How a script ended.
#[derive(Clone, Copy, Debug, PartialEq, Eq)]
pub(crate) enum Ending {
    /// Nothing was refused, and the run goes on behind it.
    Through,
    /// Nothing was refused, and a command ended the run.
    Quit,
    /// Something was refused.
    Stops(Reported),
}

impl Ending {
    /// The status of the refusal, 0 where nothing was refused.
    pub(crate) fn status(self) -> u8
        ensures { result ≡ status_left self }
    {
        match self {
            Ending::Through | Ending::Quit => 0,
            Ending::Stops(reported) => reported.status(),
        }
    }
}

// A refusal, with the bytes of the name of the file that its command names.
#[derive(Drop)]
struct Stopped<'a> {
    cause: Refusal,
    name: &'a [u8],
}

// The name of the file that a command names.
fn name_in(command: &Command) -> &[u8]
    ensures { result.now ≡ name_in command.now }
{
    match command {
        Command::Read(name)
        | Command::Write(name)
        | Command::ReadLuts(name)
        | Command::ReadAiger { name, .. }
        | Command::WriteAiger { name, .. } => name.as_str().as_bytes(),
        _ => &[],
    }
}

// A command was refused for this cause.
fn stopped_at(command: &Command, cause: Refusal) -> Stopped<'_>
    ensures { outcome_of (Err result) ≡ Some (record { cause = cause; name = name_in command.now }) }
{
    Stopped {
        cause,
        name: name_in(command),
    }
}

// The commands of a script or of a file, with those of the files that it names in their place.
fn commands_in<F: Files>(
    alloc: Global,
    source: Source<'_>,
    files: &mut F,
) -> Result<Vec<Command>, Unread>
    ensures commands { IfOk result (λ commands. Loads (source_in source.entry) (F.disk files.old).told commands.items) }
    ensures refused { IfErr result (λ unread. LoadFails (source_in source.entry) (F.disk files.old).told (refusal_of unread)) }
    ensures failed { IfErr result (λ unread. CountsFailure unread.cause (F.disk files.old) (F.disk files.new)) }
    ensures unchanged { FilesUnchanged (F.disk files.old) (F.disk files.new) }
{
    match source {
        Source::Text(text) => load_script(alloc, text, files),
        Source::File(name) => load_file(alloc, name, files),
    }
}

// Whether there is a command that ends the run.
fn has_quit(commands: &[Command]) -> bool
    ensures { result ≡ has_quit commands.now }
{
    for command in commands {
        if is_quit(command) {
            return true;
        }
    }
    false
}

// The commands one after the other, up to the first that is refused.
fn run_commands<'a, R: Threads + Sync + Clock, F: Files, O: Sink, G: CommitHook>(
    rt: &R,
    alloc: Global,
    session: &mut Session,
    commands: &'a [Command],
    files: &mut F,
    out: &mut O,
    hook: &G,
) -> Result<(), Stopped<'a>>
    ensures { RunsCommands commands.now (state session.old (F.disk files.old) (O.screen out.old))
        (outcome_of result) (state session.new (F.disk files.new) (O.screen out.new)) }
{
    for command in commands {
        if let Err(cause) = session.step(rt, alloc, command, files, out, hook) {
            return Err(stopped_at(command, cause));
        }
    }
    Ok(())
}

/// Runs a script, or a file of commands, and tells its refusal, if there is one.
pub(crate) fn run_script<R: Threads + Sync + Clock, F: Files, O: Sink, G: CommitHook>(
    rt: &R,
    alloc: Global,
    session: &mut Session,
    source: Source<'_>,
    files: &mut F,
    out: &mut O,
    hook: &G,
) -> Ending
    ensures { Leaves result (source_in source.entry) (state session.old (F.disk files.old) (O.screen out.old))
        (state session.new (F.disk files.new) (O.screen out.new)) }
{
    let commands = match commands_in(alloc, source, files) {
        Ok(commands) => commands,
        Err(unread) => {
            let cause = Refusal::from(unread.cause);
            return Ending::Stops(report_refusal(out, &cause, unread.name.as_slice()));
        }
    };
    match run_commands(rt, alloc, session, commands.as_slice(), files, out, hook) {
        Ok(()) if has_quit(commands.as_slice()) => Ending::Quit,
        Ok(()) => Ending::Through,
        Err(stopped) => Ending::Stops(report_refusal(out, &stopped.cause, stopped.name)),
    }
}
