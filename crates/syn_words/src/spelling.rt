//! What a command's name spells with what was given behind it.

ghost use Rattle.std.specs.Prelude.{◌≡◌, ◌⊎◌, [], ◌∷◌, Err, Ok, IfOk, OnOk, IfErr, None, map, option_map};
ghost use Rattle.syn_words.specs.Help.{helped};
ghost use Rattle.syn_words.specs.Quotes.{meant};
ghost use Rattle.syn_words.specs.Texts.{echoed};
ghost use Rattle.syn_words.specs.Commands.{balancing, commands_of, comparing, gates_of, given_conflicts, given_gates, given_limits, given_options, given_window, inputs_of, luts_of, mapping, options, reading, replace_limits, resyn, resyn2, resyn2l, said, size_of, slack_of, window_of, workers_of, writing};
ghost use Rattle.syn_words.specs.Scripts.{said_onto};
ghost use Rattle.syn_words.specs.declared.Command.TheVariants as commands;
ghost use Rattle.syn_words.specs.declared.recipes.Recipe.TheVariants as recipes;

use crate::formats::{Format, NetworkFile};
use crate::help::helped;
use crate::inputs::{LutInputs, LutSizes};
use crate::names::{FileName, WordText};
use crate::recipes::{PassOptions, Recipe, ReplaceLimits, SearchLimits};
use crate::table::{
    Keyword, MAX_CONFLICTS, MAX_GATES, MAX_SLACK, MAX_TABLES, MAX_WINDOW, entry_of,
};
use crate::texts::echoed;
use crate::word_reader::{Given, given_by};
use crate::words::Phrase;
use crate::{Command, ScriptFault};
use std::alloc::{AllocError, Global};
use syn_workers::{MAX_WORKERS, Workers};

// So many conflicts where no number is given.
const USUAL_CONFLICTS: u32 = 100;

// So many new ANDs in place of a node where no number is given.
const USUAL_GATES: u32 = 1;

// So many LUTs of a window where no number is given.
const USUAL_WINDOW: u32 = 100;

// A number of workers, one at least and the most at most.
fn workers_of(number: u64) -> Workers
    ensures { result ≡ workers_of number }
{
    Workers::new(number.min(MAX_WORKERS as u64).max(1) as u8)
}

// The number of workers that was given, if any.
fn given_workers(number: Option<u64>) -> Option<Workers>
    ensures { result ≡ option_map workers_of number }
{
    match number {
        Some(number) => Some(workers_of(number)),
        None => None,
    }
}

// A number of generated tables, at most the most.
fn size_of(number: u64) -> u16
    ensures { result ≡ size_of number }
{
    if number < MAX_TABLES as u64 {
        number as u16
    } else {
        MAX_TABLES
    }
}

// How a pass goes by what was given, where `-z` stands for itself or is set.
fn given_options(zero: bool, given: &Given<'_>) -> PassOptions
    ensures { result ≡ given_options zero given.now }
{
    PassOptions {
        zero,
        levels: given.flags.1,
        workers: given_workers(given.number),
    }
}

// A number of conflicts, at most the most, and the usual one where none was given.
fn given_conflicts(number: Option<u64>) -> u32
    ensures { result ≡ given_conflicts number }
{
    match number {
        None => USUAL_CONFLICTS,
        Some(number) => number.min(MAX_CONFLICTS as u64) as u32,
    }
}

// The number of inputs that was given, if any.
fn given_inputs(number: Option<u64>) -> Option<LutInputs>
    ensures { result ≡ option_map inputs_of number }
{
    match number {
        Some(number) => Some(LutInputs::of(number)),
        None => None,
    }
}

// The LUTs of as many inputs as were given, if any.
fn given_luts(number: Option<u64>) -> Option<LutSizes>
    ensures { result ≡ option_map luts_of number }
{
    match number {
        Some(number) => Some(LutSizes::alike(number)),
        None => None,
    }
}

// How a search goes by what was given.
fn given_limits(given: &Given<'_>) -> SearchLimits
    ensures { result ≡ given_limits given.now }
{
    SearchLimits {
        conflicts: given_conflicts(given.number),
        levels: given.flags.1,
    }
}

// A number of new ANDs, one at least and the most at most.
fn gates_of(number: u64) -> u32
    ensures { result ≡ gates_of number }
{
    number.min(MAX_GATES as u64).max(1) as u32
}

// The number of new ANDs that was given, and the usual one where none was.
fn given_gates(number: Option<u64>) -> u32
    ensures { result ≡ given_gates number }
{
    match number {
        None => USUAL_GATES,
        Some(number) => gates_of(number),
    }
}

// How nodes are replaced by what was given.
fn replace_limits(given: &Given<'_>) -> ReplaceLimits
    ensures { result ≡ replace_limits given.now }
{
    ReplaceLimits {
        gates: given_gates(given.further),
        conflicts: given_conflicts(given.number),
        levels: given.flags.1,
    }
}

// A number of levels, at most the most, where one was given.
fn given_slack(number: Option<u64>) -> Option<u32>
    ensures { result ≡ option_map slack_of number }
{
    match number {
        Some(number) => Some(number.min(MAX_SLACK as u64) as u32),
        None => None,
    }
}

// A number of LUTs of a window, one at least and the most at most.
fn window_of(number: u64) -> u32
    ensures { result ≡ window_of number }
{
    number.min(MAX_WINDOW as u64).max(1) as u32
}

// The number of LUTs of a window that was given, and the usual one where none was.
fn given_window(number: Option<u64>) -> u32
    ensures { result ≡ given_window number }
{
    match number {
        None => USUAL_WINDOW,
        Some(number) => window_of(number),
    }
}

// How LUTs are resubstituted by what was given.
fn resubstituting(given: &Given<'_>) -> Recipe
    ensures { result ≡ recipes.ResubstituteLuts (given_window given.now.number) None }
{
    Recipe::ResubstituteLuts {
        window: given_window(given.number),
        luts: None,
    }
}

// How trees of ANDs are rebuilt by what was given.
fn balancing(given: &Given<'_>) -> Recipe
    ensures { result ≡ balancing given.now }
{
    if given.flags.0 {
        Recipe::BalanceShared
    } else {
        Recipe::Balance
    }
}

// How LUTs are made by what was given.
fn mapping(given: &Given<'_>) -> Recipe
    ensures { result ≡ mapping given.now }
{
    let luts = given_luts(given.number);
    if given.flags.1 {
        let slack = given_slack(given.further);
        Recipe::MapLoosely { slack, luts }
    } else {
        Recipe::Map {
            area: given.flags.0,
            luts,
        }
    }
}

// One command.
fn one(alloc: Global, command: Command) -> Result<Vec<Command>, AllocError>
    ensures { IfOk result (λ v. v.items ≡ command ∷ []) }
{
    Ok(vec![in alloc; command]?)
}

// The command that makes the network anew by a recipe.
fn make(alloc: Global, recipe: Recipe) -> Result<Vec<Command>, AllocError>
    ensures { IfOk result (λ v. v.items ≡ commands.Make recipe ∷ []) }
{
    one(alloc, Command::Make(recipe))
}

// The command that reads an AIGER file.
fn reading_aiger(properties: bool, name: FileName) -> Command
    ensures { result ≡ commands.ReadAiger properties name }
{
    Command::ReadAiger { properties, name }
}

// The command that reads a file in this format.
fn reading(format: Format, name: FileName) -> Command
    ensures { result ≡ reading format name }
{
    match format {
        Format::Blif => Command::Read(name),
        Format::Aiger | Format::AsciiAiger => reading_aiger(false, name),
    }
}

// The command that writes an AIGER file.
fn writing_aiger(ascii: bool, untyped: bool, name: FileName) -> Command
    ensures { result ≡ commands.WriteAiger ascii untyped name }
{
    Command::WriteAiger {
        ascii,
        untyped,
        name,
    }
}

// The command that writes a file in this format.
fn writing(format: Format, name: FileName) -> Command
    ensures { result ≡ writing format name }
{
    match format {
        Format::Blif => Command::Write(name),
        Format::Aiger => writing_aiger(false, false, name),
        Format::AsciiAiger => writing_aiger(true, false, name),
    }
}

// The command that compares the network with a file, or a file with another where one was given.
fn comparing(
    alloc: Global,
    conflicts: u32,
    name: FileName,
    other: Option<WordText<'_>>,
) -> Result<Command, AllocError>
    ensures { IfOk result (λ c. c ≡ comparing conflicts name (option_map (map meant) other.entry)) }
{
    match other {
        None => Ok(Command::Compare {
            conflicts,
            first: None,
            second: NetworkFile::of(name),
        }),
        Some(other) => {
            let second = FileName::of(alloc, other)?;
            Ok(Command::Compare {
                conflicts,
                first: Some(NetworkFile::of(name)),
                second: NetworkFile::of(second),
            })
        }
    }
}

// How a pass goes by as many workers as the session has.
fn options(zero: bool, levels: bool) -> PassOptions
    ensures { result ≡ options zero levels None }
{
    PassOptions {
        zero,
        levels,
        workers: None,
    }
}

// The commands of `resyn2l`, by as many workers as the session has. Balancing first would leave rewriting no level to spare.
fn resyn2l(alloc: Global) -> Result<Vec<Command>, AllocError>
    ensures { IfOk result (λ v. v.items ≡ resyn2l) }
{
    let plain = options(false, true);
    let zero = options(true, true);
    Ok(vec![in alloc;
        Command::Make(Recipe::Rewrite(zero)),
        Command::Make(Recipe::Balance),
        Command::Make(Recipe::Refactor(plain)),
        Command::Make(Recipe::Balance),
        Command::Make(Recipe::Rewrite(plain)),
        Command::Make(Recipe::Rewrite(zero)),
        Command::Make(Recipe::Balance),
        Command::Make(Recipe::Refactor(zero)),
        Command::Make(Recipe::Rewrite(zero)),
        Command::Make(Recipe::Balance),
    ]?)
}

// The commands of `resyn`, by as many workers as the session has.
fn resyn(alloc: Global) -> Result<Vec<Command>, AllocError>
    ensures { IfOk result (λ v. v.items ≡ resyn) }
{
    let plain = options(false, false);
    let zero = options(true, false);
    Ok(vec![in alloc;
        Command::Make(Recipe::Balance),
        Command::Make(Recipe::Rewrite(plain)),
        Command::Make(Recipe::Rewrite(zero)),
        Command::Make(Recipe::Balance),
        Command::Make(Recipe::Rewrite(zero)),
        Command::Make(Recipe::Balance),
    ]?)
}

// The commands of `resyn2`, by as many workers as the session has.
fn resyn2(alloc: Global) -> Result<Vec<Command>, AllocError>
    ensures { IfOk result (λ v. v.items ≡ resyn2) }
{
    let plain = options(false, false);
    let zero = options(true, false);
    Ok(vec![in alloc;
        Command::Make(Recipe::Balance),
        Command::Make(Recipe::Rewrite(plain)),
        Command::Make(Recipe::Refactor(plain)),
        Command::Make(Recipe::Balance),
        Command::Make(Recipe::Rewrite(plain)),
        Command::Make(Recipe::Rewrite(zero)),
        Command::Make(Recipe::Balance),
        Command::Make(Recipe::Refactor(zero)),
        Command::Make(Recipe::Rewrite(zero)),
        Command::Make(Recipe::Balance),
    ]?)
}

// The commands that a keyword spells with what was given behind it.
fn commands_of(
    alloc: Global,
    keyword: Keyword,
    given: Given<'_>,
) -> Result<Vec<Command>, AllocError>
    ensures { IfOk result (λ v. v.items ≡ commands_of keyword given.entry) }
{
    let (flag, _, _) = given.flags;
    let plain = given_options(flag, &given);
    let zero = given_options(true, &given);
    let limits = given_limits(&given);
    let replacing = replace_limits(&given);
    let trees = balancing(&given);
    let luts = mapping(&given);
    let inputs = given_inputs(given.number);
    let fewer = resubstituting(&given);
    let (seed, size) = (given.numbers.0, size_of(given.numbers.1));
    let name = FileName::of(alloc, given.name)?;
    match keyword {
        Keyword::ReadBlif => one(alloc, Command::Read(name)),
        Keyword::WriteBlif => one(alloc, Command::Write(name)),
        Keyword::ReadAiger => one(alloc, reading_aiger(flag, name)),
        Keyword::WriteAiger => one(alloc, writing_aiger(flag, given.flags.1, name)),
        Keyword::Read => one(alloc, reading(given.format, name)),
        Keyword::Write => one(alloc, writing(given.format, name)),
        Keyword::PrintStats => one(alloc, Command::Stats),
        Keyword::PrintLevels => one(alloc, Command::Levels),
        Keyword::Compare => one(
            alloc,
            comparing(alloc, limits.conflicts, name, given.other)?,
        ),
        Keyword::Time => one(alloc, Command::Time),
        Keyword::Echo => one(alloc, Command::Print(echoed(alloc, given.words)?)),
        Keyword::Help => one(alloc, Command::Print(helped(alloc, given.topic)?)),
        Keyword::Quit => one(alloc, Command::Quit),
        Keyword::Source => one(alloc, Command::Source(name)),
        Keyword::ReadLuts => one(alloc, Command::ReadLuts(name)),
        Keyword::Dress => Ok(Vec::new(alloc)),
        Keyword::Generate => one(alloc, Command::Generate { seed, size }),
        Keyword::Resyn => resyn(alloc),
        Keyword::Resyn2 => resyn2(alloc),
        Keyword::Resyn2Levels => resyn2l(alloc),
        Keyword::Strash => make(alloc, Recipe::Strash),
        Keyword::Balance => make(alloc, trees),
        Keyword::Rewrite => make(alloc, Recipe::Rewrite(plain)),
        Keyword::RewriteZero => make(alloc, Recipe::Rewrite(zero)),
        Keyword::Refactor => make(alloc, Recipe::Refactor(plain)),
        Keyword::RefactorZero => make(alloc, Recipe::Refactor(zero)),
        Keyword::Resubstitute => make(alloc, Recipe::Resubstitute(plain)),
        Keyword::ResubstituteZero => make(alloc, Recipe::Resubstitute(zero)),
        Keyword::Merge => make(alloc, Recipe::Merge(limits)),
        Keyword::Replace => make(alloc, Recipe::Replace(replacing)),
        Keyword::Map => make(alloc, luts),
        Keyword::MapByFlow => make(alloc, Recipe::MapByFlow(inputs)),
        Keyword::ResubstituteLuts => make(alloc, fewer),
        Keyword::Sweep => make(alloc, Recipe::Sweep),
    }
}

/// Puts the commands that a phrase spells behind those that were read before it.
pub fn push_commands(
    alloc: Global,
    commands: &mut Vec<Command>,
    phrase: Phrase<'_>,
) -> Result<(), ScriptFault>
    ensures spelled { OnOk result (said_onto commands.old.items phrase.entry ≡ Ok commands.new.items) }
    ensures refused { IfErr result (λ fault. (fault ≡ ScriptFault.NoMemory) ⊎ (said phrase.entry ≡ Err fault)) }
{
    let Phrase { name, further, end } = phrase;
    let Some((form, keyword)) = entry_of(name.text.as_slice()) else {
        return Err(ScriptFault::UnknownCommand(name.at));
    };
    let given = given_by(form, further, end)?;
    let mut spelled = commands_of(alloc, keyword, given)?;
    commands.append(&mut spelled)?;
    Ok(())
}
