//! Line mode: each line is a script, and the run goes on behind a refusal, and ends behind `quit`.

ghost use Rattle.std.specs.Prelude.{◌≡◌, ◌≤◌};
ghost use Rattle.syn_io.specs.Outside.{Disk};
ghost use Rattle.syn_shell.specs.LineMode.{most_lines};
ghost use Rattle.syn_shell.specs.Outside.{Kept, nothing_yet, state};
ghost use Rattle.syn_shell.specs.Stopping.{first_status, Gave, RanLines, turn_of, Turned};

use crate::refusal::Refusal;
use crate::refusal_lines::{Reported, report_refusal};
use crate::scripts::{Ending, Source, run_script};
use crate::session::Session;
use std::alloc::Global;
use std::thread::Threads;
use std::time::Clock;
use syn_command_files::TEXT_LIMIT;
use syn_commit::CommitHook;
use syn_io::{Files, LineFault, Lines, Sink};
use syn_workers::Workers;

// The most lines that are run.
const MAX_LINES: u32 = 1_048_576;

// How a line was taken: the run goes on, or it ends. Each has the status of what was refused, 0 where nothing was.
#[derive(Clone, Copy, Debug, PartialEq, Eq)]
enum Turn {
    GoesOn(u8),
    Ends(u8),
}

impl Turn {
    // The turn of a line whose script ended so.
    fn behind(ending: Ending) -> Turn
        ensures { result ≡ turn_of ending }
    {
        match ending {
            Ending::Through => Turn::GoesOn(0),
            Ending::Quit => Turn::Ends(0),
            Ending::Stops(Reported::Whole(status)) => Turn::GoesOn(status),
            Ending::Stops(Reported::Cut(status)) => Turn::Ends(status),
        }
    }
}

// The next line.
fn next_line<L: Lines>(alloc: Global, lines: &mut L) -> Result<Option<Vec<u8>>, Refusal>
    ensures { Gave result (L.input lines.old) (L.input lines.new) }
{
    match lines.next(alloc, TEXT_LIMIT as u64) {
        Ok(line) => Ok(line),
        Err(LineFault::Failed) => Err(Refusal::LineFailed),
        Err(LineFault::TooLong) => Err(Refusal::LineTooLong),
        Err(LineFault::NoMemory) => Err(Refusal::NoMemory),
    }
}

// The first status that is none of an accepted run.
fn first_status(status: u8, next: u8) -> u8
    ensures { result ≡ first_status status next }
{
    if status == 0 { next } else { status }
}

// Takes a line and runs it.
fn take_turn<R: Threads + Sync + Clock, F: Files, L: Lines, O: Sink, G: CommitHook>(
    rt: &R,
    alloc: Global,
    session: &mut Session,
    files: &mut F,
    lines: &mut L,
    out: &mut O,
    hook: &G,
) -> Turn
    ensures { Turned result (state session.old (F.disk files.old) (O.screen out.old)) (L.input lines.old)
        (state session.new (F.disk files.new) (O.screen out.new)) (L.input lines.new) }
{
    let line = match next_line(alloc, lines) {
        Ok(Some(line)) => line,
        Ok(None) => return Turn::Ends(0),
        Err(cause) => return Turn::Ends(report_refusal(out, &cause, &[]).status()),
    };
    let source = Source::Text(line.as_slice());
    Turn::behind(run_script(rt, alloc, session, source, files, out, hook))
}

// Behind as many lines as are run a further one is refused.
fn refuse_one_more_line<L: Lines, O: Sink>(alloc: Global, lines: &mut L, out: &mut O) -> u8
    ensures each { (m : Kept) (files : Disk) → RanLines result most_lines (state m files (O.screen out.old)) (L.input lines.old) (state m files (O.screen out.new)) (L.input lines.new) }
{
    match next_line(alloc, lines) {
        Ok(None) => 0,
        Ok(Some(_)) => report_refusal(out, &Refusal::TooManyLines, &[]).status(),
        Err(cause) => report_refusal(out, &cause, &[]).status(),
    }
}

/// Runs the lines, each as a script, and gives the status of the first refusal, 0 where nothing was refused.
pub(crate) fn run_lines<R: Threads + Sync + Clock, F: Files, L: Lines, O: Sink, G: CommitHook>(
    rt: &R,
    alloc: Global,
    workers: Workers,
    files: &mut F,
    lines: &mut L,
    out: &mut O,
    hook: &G,
) -> u8
    ensures { (m : Kept) × RanLines result 0 (state nothing_yet (F.disk files.old) (O.screen out.old)) (L.input lines.old)
        (state m (F.disk files.new) (O.screen out.new)) (L.input lines.new) }
{
    let mut session = Session::new(rt, workers);
    let mut status: u8 = 0;
    for _taken in 0..MAX_LINES {
        match take_turn(rt, alloc, &mut session, files, lines, out, hook) {
            Turn::GoesOn(next) => status = first_status(status, next),
            Turn::Ends(next) => return first_status(status, next),
        }
    }
    first_status(status, refuse_one_more_line(alloc, lines, out))
}
