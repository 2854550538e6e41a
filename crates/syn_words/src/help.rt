//! What `help` tells: a topic for each keyword.

ghost use Rattle.std.specs.Prelude.{◌≡◌, [], OnOk, IfOk};
ghost use Rattle.syn_words.specs.Help.{helped, overview, overview_of, topic_of, topic_text, with_line};

use crate::table::Keyword;
use crate::texts::Text;
use std::alloc::{AllocError, Global};

/// What is told of a command: its names and what may stand behind them, what it does, and a line for each option.
type Topic = (&'static [u8], &'static [u8], &'static [u8]);

// The options of a pass in which `-z` is set.
const ZERO_OPTIONS: &[u8] =
    b"  -L    keeps levels: no observed signal gets deeper\n  -l    lets levels grow, as it does without\n  -w N  by at most N threads, 1 to 16\n";

// The options of a pass.
const PASS_OPTIONS: &[u8] =
    b"  -z    makes replacements that save nothing, too\n  -L    keeps levels: no observed signal gets deeper\n  -l    lets levels grow, as it does without\n  -w N  by at most N threads, 1 to 16\n";

// The options of `sresub`.
const REPLACE_OPTIONS: &[u8] =
    b"  -N N  at most N new ANDs in place of a node, 1 or 2, by default 1\n  -C N  at most N conflicts a question, 0 to 1000000, by default 100\n  -L    keeps levels: no observed signal gets deeper\n";

// The options of `if`.
const MAP_OPTIONS: &[u8] =
    b"  -a    looks for few LUTs: no deeper than without it, and no more or, by areas of read_lut, at no more cost\n  -A    looks for fewer, however deep: no more than with -a or, by areas of read_lut, at no more cost\n  -D N  at most N levels deeper than with -a, 0 to 1000000\n  -K N  at most N inputs, 2 to 8, by default 6 or those of read_lut\n";

// The keywords in the order of their lines.
const ORDER: &[Keyword] = &[
    Keyword::ReadBlif,
    Keyword::ReadAiger,
    Keyword::Generate,
    Keyword::WriteBlif,
    Keyword::WriteAiger,
    Keyword::Read,
    Keyword::Write,
    Keyword::PrintStats,
    Keyword::PrintLevels,
    Keyword::Compare,
    Keyword::Time,
    Keyword::Strash,
    Keyword::Balance,
    Keyword::Rewrite,
    Keyword::RewriteZero,
    Keyword::Refactor,
    Keyword::RefactorZero,
    Keyword::Resubstitute,
    Keyword::ResubstituteZero,
    Keyword::Merge,
    Keyword::Replace,
    Keyword::Sweep,
    Keyword::Resyn,
    Keyword::Resyn2,
    Keyword::Resyn2Levels,
    Keyword::Map,
    Keyword::MapByFlow,
    Keyword::ResubstituteLuts,
    Keyword::Echo,
    Keyword::Help,
    Keyword::Source,
    Keyword::ReadLuts,
    Keyword::Dress,
    Keyword::Quit,
];

// The topic of a keyword.
fn topic_of(keyword: Keyword) -> Topic
    ensures usage { result.0.now ≡ (topic_of keyword).0 }
    ensures does { result.1.now ≡ (topic_of keyword).1 }
    ensures options { result.2.now ≡ (topic_of keyword).2 }
{
    match keyword {
        Keyword::ReadBlif => (
            b"read_blif FILE",
            b"reads a BLIF file; the graph of its netlist becomes the network",
            b"",
        ),
        Keyword::ReadAiger => (
            b"read_aiger [-p] FILE",
            b"reads an AIGER file, ASCII or binary; its graph becomes the network",
            b"  -p    takes bad states and constraints, as outputs; they are refused without it\n",
        ),
        Keyword::Generate => (
            b"gen SEED SIZE",
            b"generates a netlist of SIZE tables, 1 to 32768; its graph becomes the network",
            b"",
        ),
        Keyword::WriteBlif => (
            b"write_blif FILE",
            b"writes the network to a BLIF file",
            b"",
        ),
        Keyword::WriteAiger => (
            b"write_aiger [-a] [-t] FILE",
            b"writes the network's graph to an AIGER file",
            b"  -a    in the ASCII format; else in the binary one\n  -t    leaves out the types of latches, which are refused without it\n",
        ),
        Keyword::Read => (
            b"read FILE",
            b"is read_blif for a name that ends in .blif, read_aiger for one in .aig or .aag",
            b"",
        ),
        Keyword::Write => (
            b"write FILE",
            b"is write_blif for a name that ends in .blif, write_aiger for one in .aig, write_aiger -a for one in .aag",
            b"",
        ),
        Keyword::PrintStats => (
            b"print_stats, ps",
            b"prints name, inputs and outputs, latches, ANDs or LUTs, and levels",
            b"",
        ),
        Keyword::PrintLevels => (
            b"print_level",
            b"prints how many observed signals have each level",
            b"",
        ),
        Keyword::Compare => (
            b"cec [-C N] FILE [FILE]",
            b"compares the network with a file, or two files: whether outputs and next latch values are equal",
            b"  -C N  at most N conflicts a question, 0 to 1000000, by default 100\n",
        ),
        Keyword::Time => (
            b"time",
            b"prints the seconds since the last time, or since the run began",
            b"",
        ),
        Keyword::Strash => (
            b"strash, st",
            b"turns a mapped network into a graph, by structural hashing",
            b"",
        ),
        Keyword::Balance => (
            b"balance, b [-s]",
            b"rebuilds trees of ANDs, the shallow operands first",
            b"  -s    pairs that most trees share first: never more ANDs, but levels may rise\n",
        ),
        Keyword::Rewrite => (
            b"rewrite, rw [-z] [-L] [-l] [-w N]",
            b"replaces cones of four inputs until no listed replacement saves an AND",
            PASS_OPTIONS,
        ),
        Keyword::RewriteZero => (b"rwz [-L] [-l] [-w N]", b"is rewrite -z", ZERO_OPTIONS),
        Keyword::Refactor => (
            b"refactor, rf [-z] [-L] [-l] [-w N]",
            b"replaces cones of up to eight inputs by factored ones, likewise",
            PASS_OPTIONS,
        ),
        Keyword::RefactorZero => (b"rfz [-L] [-l] [-w N]", b"is refactor -z", ZERO_OPTIONS),
        Keyword::Resubstitute => (
            b"resub, rs [-z] [-L] [-l] [-w N]",
            b"replaces nodes by constants, others, or an AND of two others, likewise",
            PASS_OPTIONS,
        ),
        Keyword::ResubstituteZero => (b"rsz [-L] [-l] [-w N]", b"is resub -z", ZERO_OPTIONS),
        Keyword::Merge => (
            b"fraig [-C N] [-L]",
            b"merges nodes that are proved to have one value, or opposite values",
            b"  -C N  at most N conflicts a question, 0 to 1000000, by default 100\n  -L    keeps levels: no observed signal gets deeper\n",
        ),
        Keyword::Replace => (
            b"sresub, srs [-N N] [-C N] [-L]",
            b"replaces nodes by others, or by new ANDs, that are proved to have their values",
            REPLACE_OPTIONS,
        ),
        Keyword::Sweep => (
            b"scl",
            b"drops latches that no output needs, and merges equal ones",
            b"",
        ),
        Keyword::Resyn => (b"resyn", b"is b; rw; rwz; b; rwz; b", b""),
        Keyword::Resyn2 => (
            b"resyn2, compress2",
            b"is b; rw; rf; b; rw; rwz; b; rfz; rwz; b",
            b"",
        ),
        Keyword::Resyn2Levels => (
            b"resyn2l",
            b"is rwz; b; rf; b; rw; rwz; b; rfz; rwz; b, with -L on all but b",
            b"",
        ),
        Keyword::Map => (
            b"if [-a | -A [-D N]] [-K N]",
            b"maps to LUTs of at most N inputs",
            MAP_OPTIONS,
        ),
        Keyword::MapByFlow => (
            b"flowmap [-K N]",
            b"maps to LUTs of at most N inputs, at the least depth",
            b"  -K N  at most N inputs, 2 to 8, by default 6 or those of read_lut\n",
        ),
        Keyword::ResubstituteLuts => (
            b"mfs [-w N]",
            b"saves LUTs, and inputs of LUTs, by don't-cares; maps a graph first, as if -a does",
            b"  -w N  by windows of at most N LUTs, 1 to 1000, by default 100; not by threads\n",
        ),
        Keyword::Echo => (b"echo WORDS", b"prints the words, one blank apart", b""),
        Keyword::Help => (
            b"help [COMMAND]",
            b"prints a line a command, or what is to know of one",
            b"",
        ),
        Keyword::Source => (b"source FILE", b"runs the commands of a file", b""),
        Keyword::ReadLuts => (
            b"read_lut FILE",
            b"reads how many inputs a LUT has at most, and what it costs, where no -K is given",
            b"",
        ),
        Keyword::Dress => (b"dress FILE", b"does nothing: names are kept anyway", b""),
        Keyword::Quit => (
            b"quit, q, exit",
            b"ends the run, also of the lines behind",
            b"",
        ),
    }
}

// Puts a topic's line behind a text.
fn push_line(text: &mut Vec<u8>, topic: &Topic) -> Result<(), AllocError>
    ensures { OnOk result (text.new.items ≡ with_line text.old.items topic.now.0.now topic.now.1.now) }
{
    text.extend_from_slice(topic.0)?;
    text.extend_from_slice(b": ")?;
    text.extend_from_slice(topic.1)?;
    text.push(b'\n')?;
    Ok(())
}

// The lines of keywords.
fn overview_of(alloc: Global, keywords: &[Keyword]) -> Result<Vec<u8>, AllocError>
    ensures { IfOk result (λ text. text.items ≡ overview_of [] keywords.now) }
{
    let mut text = Vec::new(alloc);
    for keyword in keywords {
        push_line(&mut text, &topic_of(*keyword))?;
    }
    Ok(text)
}

// A line for each command.
fn overview(alloc: Global) -> Result<Text, AllocError>
    ensures { IfOk result (λ text. text ≡ overview) }
{
    Ok(Text::of(overview_of(alloc, ORDER)?))
}

// The line of a keyword's command, and those of its options.
fn topic_text(alloc: Global, keyword: Keyword) -> Result<Text, AllocError>
    ensures { IfOk result (λ text. text ≡ topic_text keyword) }
{
    let topic = topic_of(keyword);
    let mut text = Vec::new(alloc);
    push_line(&mut text, &topic)?;
    text.extend_from_slice(topic.2)?;
    Ok(Text::of(text))
}

/// What is told of a command, or a line for each where none is named.
pub fn helped(alloc: Global, keyword: Option<Keyword>) -> Result<Text, AllocError>
    ensures { IfOk result (λ text. text ≡ helped keyword) }
{
    match keyword {
        None => overview(alloc),
        Some(keyword) => topic_text(alloc, keyword),
    }
}
