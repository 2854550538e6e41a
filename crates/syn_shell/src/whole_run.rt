//! The run: what the words mean, one script or each line, the status.

ghost use Rattle.std.specs.Prelude.{◌≡◌, ◌≤◌, map, string_bytes};
ghost use Rattle.syn_shell.specs.Stopping.{RanOne, source_in};
ghost use Rattle.syn_shell.specs.Counts.{SomeFault};
ghost use Rattle.syn_shell.specs.Readiness.{IsComplete};
ghost use Rattle.syn_shell.specs.Runs.{Ran, RanAccepted};

use crate::line_mode::run_lines;
use crate::refusal::Refusal;
use crate::refusal_lines::report_refusal;
use crate::scripts::{Source, run_script};
use crate::session::Session;
use std::alloc::Global;
use std::thread::Threads;
use std::time::Clock;
use syn_commit::CommitHook;
use syn_io::{Files, Lines, Sink};
use syn_usage::{Work, arguments_in};
use syn_workers::Workers;

// Runs one script, or one file of commands, and gives the status of its refusal, 0 where nothing was refused.
fn run_one<R: Threads + Sync + Clock, F: Files, O: Sink, G: CommitHook>(
    rt: &R,
    alloc: Global,
    workers: Workers,
    source: Source<'_>,
    files: &mut F,
    out: &mut O,
    hook: &G,
) -> u8
    ensures { RanOne result (source_in source.entry) (F.disk files.old) (O.screen out.old) (F.disk files.new) (O.screen out.new) }
{
    let mut session = Session::new(rt, workers);
    run_script(rt, alloc, &mut session, source, files, out, hook).status()
}

// Runs what the words mean.
fn run_words<R: Threads + Sync + Clock, F: Files, L: Lines, O: Sink, G: CommitHook>(
    rt: &R,
    alloc: Global,
    words: &[String],
    files: &mut F,
    lines: &mut L,
    out: &mut O,
    hook: &G,
) -> u8
    ensures ran { Ran (map string_bytes words.now) (F.disk files.old) (O.screen out.old) (L.input lines.old)
        (F.disk files.new) (O.screen out.new) (L.input lines.new) result }
{
    let asked = match arguments_in(alloc, words) {
        Ok(asked) => asked,
        Err(fault) => return report_refusal(out, &Refusal::from(fault), &[]).status(),
    };
    let workers = asked.workers;
    match asked.work {
        Work::Lines => run_lines(rt, alloc, workers, files, lines, out, hook),
        Work::Script(script) => {
            let source = Source::Text(script.as_bytes());
            run_one(rt, alloc, workers, source, files, out, hook)
        }
        Work::File(name) => run_one(rt, alloc, workers, Source::File(name), files, out, hook),
    }
}

/// Runs the script of the words, or the file of commands that they name, or without either each line as a script, and
/// gives the status: 0 where nothing was refused, else that of the first refusal. The line of each refusal is put to the
/// sink.
///
/// A script ends at its first refusal. The run of lines goes on behind it; it ends where no line is left, where none
/// can be read, where one is too long or one too many, where memory for one is refused, where the sink fails, and behind
/// a line that `quit` ended.
/// A status of 7 comes only where a call of the files, of the lines or of the sink failed. Where the words are well
/// formed, scripts and lines are within their limits and spell commands, what each command needs is there in the state
/// in which it is run, and no such call failed, the status is 0, or 8 for want of memory.
pub fn run<R: Threads + Sync + Clock, F: Files, L: Lines, O: Sink, G: CommitHook>(
    rt: &R,
    alloc: Global,
    words: &[String],
    files: &mut F,
    lines: &mut L,
    out: &mut O,
    hook: &G,
) -> u8
    ensures ran { Ran (map string_bytes words.now) (F.disk files.old) (O.screen out.old) (L.input lines.old)
        (F.disk files.new) (O.screen out.new) (L.input lines.new) result }
    ensures accepted { result ≡ 0 → RanAccepted (map string_bytes words.now) (F.disk files.old) (O.screen out.old) (L.input lines.old)
        (F.disk files.new) (O.screen out.new) (L.input lines.new) }
    ensures failed { result ≡ 7 → SomeFault (F.disk files.old) (O.screen out.old) (L.input lines.old)
        (F.disk files.new) (O.screen out.new) (L.input lines.new) }
    ensures complete { IsComplete (map string_bytes words.now) (F.disk files.old) (O.screen out.old) (L.input lines.old) (F.disk files.new) (O.screen out.new) (L.input lines.new) result }
{
    syn_reader::not_both();
    syn_aiger::not_both();
    run_words(rt, alloc, words, files, lines, out, hook)
}
