//! What the program's words ask for.

ghost use Rattle.std.specs.Prelude.{◌≡◌, ◌≤◌, [], map, option_map, string_bytes, IfErr, IfNone, IfOk, IfSome, Some};
ghost use Rattle.clap.specs.Words.{app_of};
ghost use Rattle.syn_usage.specs.CommandLine.{file_in, refusals, script_in, usage, workers_in, workers_of, workers_text_in};
ghost use Rattle.syn_usage.specs.Usage.{Faulty, run_by, usage_in, usage_of, WordsRefused};
ghost use Rattle.syn_usage.specs.WorkedCommandLines.{WorkedCommandLines};

use clap::error::ErrorKind;
use clap::{Arg, ArgAction, Command};
use std::alloc::{AllocError, Global};
use syn_words::{NumberRange, number_in};
use syn_workers::{MAX_WORKERS, Workers};

/// What is to be run.
#[derive(Clone, Copy, Debug, PartialEq, Eq)]
pub enum Work<'a> {
    /// Each line of the input, as a script.
    Lines,
    /// One script.
    Script(&'a str),
    /// The commands in the file of that name.
    File(&'a str),
}

/// What the program's words ask for.
#[derive(Clone, Copy, Debug, PartialEq, Eq)]
pub struct Arguments<'a> {
    /// What is to be run.
    pub work: Work<'a>,
    /// The number of workers, 1 to 16, where a command names none.
    pub workers: Workers,
}

/// Why the program's words are refused.
#[derive(Clone, Copy, Debug, PartialEq, Eq)]
pub enum UsageFault {
    /// The words are no call of the program.
    Words,
    /// Memory was refused.
    NoMemory,
}

impl From<AllocError> for UsageFault {
    ghost use Rattle.std.specs.Prelude.{◌≡◌};
    ghost use Rattle.syn_usage.specs.declared.arguments.UsageFault.TheVariants.{NoMemory};

    ghost from_gives = { λ _ fault. fault ≡ NoMemory };

    fn from(_: AllocError) -> UsageFault {
        UsageFault::NoMemory
    }
}

// The command of which the program's words are a call.
fn usage<'a>(alloc: Global) -> Result<Command<'a>, AllocError>
    ensures { IfOk result (λ command. app_of command ≡ usage) }
{
    let silent = Arg::new(alloc, "silent")
        .short('s')
        .action(ArgAction::SetTrue);
    let with_silent = Command::new(alloc, "synth").arg(silent)?;
    let script = Arg::new(alloc, "script").short('c');
    let with_script = with_silent.arg(script)?;
    let file = Arg::new(alloc, "file").short('f');
    let with_file = with_script.arg(file)?;
    let workers = Arg::new(alloc, "workers").short('w');
    let command = with_file.arg(workers)?;
    Ok(command)
}

// The texts of the options that have one, where they are given.
#[derive(Clone, Copy)]
struct Texts<'a> {
    script: Option<&'a str>,
    file: Option<&'a str>,
    workers: Option<&'a str>,
}

// The texts of the options in words that the command takes.
fn texts_of<'a>(alloc: Global, words: &'a [String]) -> Result<Texts<'a>, UsageFault>
    ensures accepted { IfOk result (λ _. refusals (map string_bytes words.entry.now) ≡ []) }
    ensures script { IfOk result (λ texts. option_map (λ text. text.now) texts.script ≡ script_in (map string_bytes words.entry.now)) }
    ensures file { IfOk result (λ texts. option_map (λ text. text.now) texts.file ≡ file_in (map string_bytes words.entry.now)) }
    ensures workers { IfOk result (λ texts. option_map (λ text. text.now) texts.workers ≡ workers_text_in (map string_bytes words.entry.now)) }
    ensures refused { IfErr result (WordsRefused (map string_bytes words.entry.now)) }
{
    let command = usage(alloc)?;
    match command.try_get_matches_from(words) {
        Ok(matches) => Ok(Texts {
            script: matches.get_str("script"),
            file: matches.get_str("file"),
            workers: matches.get_str("workers"),
        }),
        Err(error) => match error.kind() {
            ErrorKind::OutOfMemory => Err(UsageFault::NoMemory),
            _ => Err(UsageFault::Words),
        },
    }
}

// What is to be run by the texts: none where they give both a script and a file.
fn work_of<'a>(script: Option<&'a str>, file: Option<&'a str>) -> Option<Work<'a>>
    ensures run { IfSome result (λ work. run_by (option_map (λ text. text.now) script.entry) (option_map (λ text. text.now) file.entry) ≡ usage_in work) }
    ensures both { IfNone result (run_by (option_map (λ text. text.now) script.entry) (option_map (λ text. text.now) file.entry) ≡ Faulty) }
{
    match (script, file) {
        (None, None) => Some(Work::Lines),
        (Some(script), None) => Some(Work::Script(script)),
        (None, Some(file)) => Some(Work::File(file)),
        (Some(_), Some(_)) => None,
    }
}

// The number of workers by the text of its option: one where it is absent.
fn workers_of(text: Option<&str>) -> Option<Workers>
    ensures { result ≡ workers_of (option_map (λ text. text.now) text.entry) }
{
    let Some(text) = text else {
        return Some(Workers::new(1));
    };
    let range = NumberRange {
        least: 1,
        most: MAX_WORKERS as u64,
    };
    let workers = number_in(range, text.as_bytes())?;
    Some(Workers::new(workers as u8))
}

/// What the program's words ask for. The words begin with the program's name.
///
/// Refuses with `Words` where the command refuses them, where they give both a script and a file, or where the number
/// of workers is none from 1 to 16. `NoMemory` may come for any words.
pub fn arguments_in(alloc: Global, words: &[String]) -> Result<Arguments<'_>, UsageFault>
    ensures run { IfOk result (λ arguments. usage_of (map string_bytes words.entry.now) ≡ usage_in arguments.work) }
    ensures workers { IfOk result (λ arguments. workers_in (map string_bytes words.entry.now) ≡ Some arguments.workers) }
    ensures refused { IfErr result (WordsRefused (map string_bytes words.entry.now)) }
{
    let texts = texts_of(alloc, words)?;
    let Some(work) = work_of(texts.script, texts.file) else {
        return Err(UsageFault::Words);
    };
    let Some(workers) = workers_of(texts.workers) else {
        return Err(UsageFault::Words);
    };
    Ok(Arguments { work, workers })
}

/// The command gives what is wanted of worked words, and refuses others.
pub fn worked_words()
    ensures { WorkedCommandLines }
{}
