//! The lines of refusals, put in pieces that take no memory, and their statuses.

ghost use Rattle.std.specs.Prelude.{◌≡◌, ◌++◌, ◌∷◌, [], codes, decimal, flat_map, map, IfNone, IfSome, None, Some};
ghost use Rattle.syn_shell.specs.Lines.{aiger_status, aiger_text, at_place, chain_text, command_fault_text, fault_words, gap_before, joined, name_at_line, not_read_status, not_read_text, read_status, read_text, refusal_line, refusal_status, refusal_text, script_text, fault_at_line, file_fault_text, unmatched_text};
ghost use Rattle.syn_shell.specs.Outside.{Puts};
ghost use Rattle.syn_shell.specs.Scripts.{Refused};
ghost use Rattle.syn_shell.specs.Stopping.{status_in, AnnouncesAs};

use crate::refusal::{FileCause, Refusal};
use itoa::Buffer;
use syn_aiger_files::AigFault;
use syn_command_files::LutFileFault;
use syn_compare::CompareFault;
use syn_io::{Sink, SinkFailed};
use syn_netlist::Word;
use syn_reader::ReadFault;
use syn_words::{ScriptFault, place_of};

// Behind a name that networks that are compared don't have in common.
const ONLY: &[u8] = b" in one network only";

/// What became of the line of a refusal: it was put whole, or the sink failed. Each has the refusal's status.
#[derive(Clone, Copy, Debug, PartialEq, Eq)]
pub(crate) enum Reported {
    Whole(u8),
    Cut(u8),
}

impl Reported {
    /// The status of the refusal.
    pub(crate) fn status(self) -> u8
        ensures { result ≡ status_in self }
    {
        match self {
            Reported::Whole(status) | Reported::Cut(status) => status,
        }
    }
}

// Puts one piece.
fn put<O: Sink>(out: &mut O, piece: &[u8]) -> Result<(), SinkFailed>
    ensures { Puts result piece.now (O.screen out.old) (O.screen out.new) }
{
    out.put(piece)
}

// Puts pieces, one after the other.
fn put_all<O: Sink>(out: &mut O, pieces: &[&[u8]]) -> Result<(), SinkFailed>
    ensures { Puts result (joined (map (λ piece. piece.now) pieces.now)) (O.screen out.old) (O.screen out.new) }
{
    for piece in pieces {
        put(out, piece)?;
    }
    Ok(())
}

// Puts each name after one blank.
fn put_names<O: Sink>(out: &mut O, names: &[Word]) -> Result<(), SinkFailed>
    ensures { Puts result (flat_map (λ name. codes " " ++ name) names.now) (O.screen out.old) (O.screen out.new) }
{
    for name in names {
        put_all(out, &[b" ", name.as_slice()])?;
    }
    Ok(())
}

// Puts what a circle is called, and its names.
fn put_chain<O: Sink>(out: &mut O, called: &[u8], names: &[Word]) -> Result<(), SinkFailed>
    ensures { Puts result (chain_text called.now names.now) (O.screen out.old) (O.screen out.new) }
{
    put(out, called)?;
    put_names(out, names)
}

// Puts a number between two texts.
fn put_number<O: Sink>(
    out: &mut O,
    before: &[u8],
    number: u64,
    after: &[u8],
) -> Result<(), SinkFailed>
    ensures { Puts result (joined (before.now ∷ decimal number ∷ after.now ∷ [])) (O.screen out.old) (O.screen out.new) }
{
    let mut buffer = Buffer::new();
    put_all(out, &[before, buffer.format(number).as_bytes(), after])
}

// Puts each number after one blank.
fn put_numbers<O: Sink>(out: &mut O, numbers: &[u32]) -> Result<(), SinkFailed>
    ensures { Puts result (flat_map (λ number. codes " " ++ decimal number) numbers.now) (O.screen out.old) (O.screen out.new) }
{
    for number in numbers {
        put_number(out, b" ", *number as u64, b"")?;
    }
    Ok(())
}

// Puts the variables of a circle of ANDs.
fn put_circle<O: Sink>(out: &mut O, variables: &[u32]) -> Result<(), SinkFailed>
    ensures { Puts result (codes "aiger cycle" ++ flat_map (λ variable. codes " " ++ decimal variable) variables.now) (O.screen out.old) (O.screen out.new) }
{
    put(out, b"aiger cycle")?;
    put_numbers(out, variables)
}

// Puts what is wrong at a place of a script.
fn put_at_place<O: Sink>(out: &mut O, at: u32, what: &[u8]) -> Result<(), SinkFailed>
    ensures { Puts result (at_place at what.now) (O.screen out.old) (O.screen out.new) }
{
    let mut buffer = Buffer::new();
    put_all(
        out,
        &[b"script ", buffer.format(at as u64).as_bytes(), b": ", what],
    )
}

// Puts a name in a line of a file and what is wrong with it there.
fn put_name_at_line<O: Sink>(
    out: &mut O,
    line: u32,
    name: &[u8],
    what: &[u8],
) -> Result<(), SinkFailed>
    ensures { Puts result (name_at_line line name.now what.now) (O.screen out.old) (O.screen out.new) }
{
    let mut buffer = Buffer::new();
    put_all(
        out,
        &[
            b"line ",
            buffer.format(line as u64).as_bytes(),
            b": ",
            name,
            what,
        ],
    )
}

// What is wrong by a fault of a script.
fn fault_words(fault: &ScriptFault) -> &'static [u8]
    ensures { result.now ≡ fault_words fault.now }
{
    match fault {
        ScriptFault::BadByte(_) => b"bad byte",
        ScriptFault::UnknownCommand(_) => b"unknown command",
        ScriptFault::MissingWord(_) => b"missing word",
        ScriptFault::ExtraWord(_) => b"extra word",
        ScriptFault::UnknownEnding(_) => b"unknown ending",
        ScriptFault::BadNumber(_) => b"bad number",
        ScriptFault::OutOfRange(_) => b"out of range",
        ScriptFault::NoMemory => b"out of memory",
    }
}

// Puts a fault of a script: its place, and what is wrong there.
fn put_script_fault<O: Sink>(out: &mut O, fault: &ScriptFault) -> Result<(), SinkFailed>
    ensures { Puts result (script_text fault.now) (O.screen out.old) (O.screen out.new) }
{
    put_at_place(out, place_of(*fault), fault_words(fault))
}

// The blank before a word, where there is one.
fn gap_before(word: &[u8]) -> &'static [u8]
    ensures { result.now ≡ gap_before word.now }
{
    if word.is_empty() { b"" } else { b" " }
}

// Puts a place in a file, what is wrong there, and a word behind a gap.
fn put_in_file<'a, O: Sink>(
    out: &mut O,
    name: &'a [u8],
    line: u32,
    what: &'a [u8],
    gap: &'a [u8],
    word: &'a [u8],
) -> Result<(), SinkFailed>
    ensures { Puts result (joined (name.now ∷ codes ":" ∷ decimal line ∷ codes ": " ∷ what.now ∷ gap.now ∷ word.now ∷ [])) (O.screen out.old) (O.screen out.new) }
{
    let mut buffer = Buffer::new();
    put_all(
        out,
        &[
            name,
            b":",
            buffer.format(line as u64).as_bytes(),
            b": ",
            what,
            gap,
            word,
        ],
    )
}

// Puts a fault of a file of commands: its place, what it says, and its word.
fn put_command_fault<O: Sink>(
    out: &mut O,
    name: &[u8],
    line: u32,
    word: &[u8],
    fault: &ScriptFault,
) -> Result<(), SinkFailed>
    ensures { Puts result (command_fault_text name.now line word.now fault.now) (O.screen out.old) (O.screen out.new) }
{
    put_in_file(out, name, line, fault_words(fault), gap_before(word), word)
}

// The line, the name in it, if any, and what is wrong there, where a fault of a file tells a line.
fn fault_at_line<'a>(fault: &'a ReadFault) -> Option<(u32, &'a [u8], &'static [u8])>
    ensures none { IfNone result (fault_at_line fault.now ≡ None) }
    ensures some { IfSome result (λ r. fault_at_line fault.now ≡ Some (r.0, r.1.now, r.2.now)) }
{
    match fault {
        ReadFault::AfterEnd(line) => Some((*line, b"", b"after end")),
        ReadFault::UnknownKeyword(line) => Some((*line, b"", b"unknown keyword")),
        ReadFault::SecondModel(line) => Some((*line, b"", b"second model")),
        ReadFault::NoName(line) => Some((*line, b"", b"no name")),
        ReadFault::ExtraWord(line) => Some((*line, b"", b"extra word")),
        ReadFault::StrayRow(line) => Some((*line, b"", b"stray row")),
        ReadFault::RowShape(line) => Some((*line, b"", b"row shape")),
        ReadFault::MixedRows(line) => Some((*line, b"", b"mixed rows")),
        ReadFault::LatchShape(line) => Some((*line, b"", b"latch shape")),
        ReadFault::LatchType(line) => Some((*line, b"", b"latch type")),
        ReadFault::LatchInit(line) => Some((*line, b"", b"latch init")),
        ReadFault::DefinedTwice(line, name) => Some((*line, name.as_slice(), b" defined twice")),
        ReadFault::ModelTwice(line) => Some((*line, b"", b"model defined twice")),
        ReadFault::SubcktShape(line) => Some((*line, b"", b"subckt shape")),
        ReadFault::PortTwice(line, formal) => Some((*line, formal.as_slice(), b" bound twice")),
        ReadFault::UnknownModel(line) => Some((*line, b"", b"unknown model")),
        ReadFault::UnknownPort(line, formal) => Some((*line, formal.as_slice(), b" unknown port")),
        ReadFault::PortMissing(line, port) => Some((*line, port.as_slice(), b" unbound")),
        ReadFault::BadByte(_)
        | ReadFault::Undriven(_)
        | ReadFault::Recursion(_)
        | ReadFault::TooManyWords(_)
        | ReadFault::Cycle(_)
        | ReadFault::TooManySources(_)
        | ReadFault::TooLarge(_)
        | ReadFault::NoMemory => None,
    }
}

// Puts what a fault of a file says that tells no line.
fn put_file_fault<O: Sink>(out: &mut O, fault: &ReadFault) -> Result<(), SinkFailed>
    ensures { Puts result (file_fault_text fault.now) (O.screen out.old) (O.screen out.new) }
{
    match fault {
        ReadFault::BadByte(at) => put_number(out, b"byte ", *at as u64, b": bad byte"),
        ReadFault::Undriven(name) => put_all(out, &[name.as_slice(), b" undriven"]),
        ReadFault::Recursion(names) => put_chain(out, b"recursion", names.as_slice()),
        ReadFault::TooManyWords(count) => put_number(out, b"", *count, b" words"),
        ReadFault::Cycle(names) => put_chain(out, b"cycle", names.as_slice()),
        ReadFault::TooManySources(count) => put_number(out, b"", *count as u64, b" sources"),
        ReadFault::TooLarge(cost) => put_number(out, b"cost ", *cost, b""),
        ReadFault::NoMemory => put(out, b"out of memory"),
        ReadFault::AfterEnd(_)
        | ReadFault::UnknownKeyword(_)
        | ReadFault::SecondModel(_)
        | ReadFault::NoName(_)
        | ReadFault::ExtraWord(_)
        | ReadFault::StrayRow(_)
        | ReadFault::RowShape(_)
        | ReadFault::MixedRows(_)
        | ReadFault::LatchShape(_)
        | ReadFault::LatchType(_)
        | ReadFault::LatchInit(_)
        | ReadFault::DefinedTwice(_, _)
        | ReadFault::ModelTwice(_)
        | ReadFault::SubcktShape(_)
        | ReadFault::PortTwice(_, _)
        | ReadFault::UnknownModel(_)
        | ReadFault::UnknownPort(_, _)
        | ReadFault::PortMissing(_, _) => Ok(()),
    }
}

// Puts what a fault of a file says.
fn put_read_fault<O: Sink>(out: &mut O, fault: &ReadFault) -> Result<(), SinkFailed>
    ensures { Puts result (read_text fault.now) (O.screen out.old) (O.screen out.new) }
{
    match fault_at_line(fault) {
        Some((line, name, what)) => put_name_at_line(out, line, name, what),
        None => put_file_fault(out, fault),
    }
}

// Puts what a fault of an AIGER file says.
fn put_aiger_fault<O: Sink>(out: &mut O, fault: &AigFault) -> Result<(), SinkFailed>
    ensures { Puts result (aiger_text fault.now) (O.screen out.old) (O.screen out.new) }
{
    match fault {
        AigFault::Header => put(out, b"aiger header"),
        AigFault::Justice => put(out, b"aiger justice"),
        AigFault::Line(at) => put_number(out, b"byte ", *at as u64, b": aiger line"),
        AigFault::Pair(at) => put_number(out, b"byte ", *at as u64, b": aiger pair"),
        AigFault::Symbol(at) => put_number(out, b"byte ", *at as u64, b": aiger symbol"),
        AigFault::Undefined(variable) => {
            put_number(out, b"variable ", *variable as u64, b" undefined")
        }
        AigFault::Cycle(variables) => put_circle(out, variables.as_slice()),
        AigFault::TooManySources(count) => put_number(out, b"", *count as u64, b" sources"),
        AigFault::TooManyGates(count) => put_number(out, b"", *count as u64, b" gates"),
        AigFault::NoMemory => put(out, b"out of memory"),
    }
}

// Puts a file's name before what is told of it.
fn put_name<O: Sink>(out: &mut O, name: &[u8]) -> Result<(), SinkFailed>
    ensures { Puts result (joined (name.now ∷ codes ": " ∷ [])) (O.screen out.old) (O.screen out.new) }
{
    put_all(out, &[name, b": "])
}

// Puts a file's name and what a fault of it says.
fn put_fault_in<O: Sink>(out: &mut O, name: &[u8], fault: &ReadFault) -> Result<(), SinkFailed>
    ensures { Puts result (joined (name.now ∷ codes ": " ∷ []) ++ read_text fault.now) (O.screen out.old) (O.screen out.new) }
{
    put_name(out, name)?;
    put_read_fault(out, fault)
}

// Puts an AIGER file's name and what a fault of it says.
fn put_aiger_fault_in<O: Sink>(out: &mut O, name: &[u8], fault: &AigFault) -> Result<(), SinkFailed>
    ensures { Puts result (joined (name.now ∷ codes ": " ∷ []) ++ aiger_text fault.now) (O.screen out.old) (O.screen out.new) }
{
    put_name(out, name)?;
    put_aiger_fault(out, fault)
}

// Puts why a file that is compared holds no network.
fn put_not_read<O: Sink>(out: &mut O, name: &[u8], cause: &FileCause) -> Result<(), SinkFailed>
    ensures { Puts result (not_read_text name.now cause.now) (O.screen out.old) (O.screen out.new) }
{
    match cause {
        FileCause::Read(fault) => put_fault_in(out, name, fault),
        FileCause::ReadAiger(fault) => put_aiger_fault_in(out, name, fault),
        FileCause::TooLong => put_all(out, &[name, b": file longer than 16777216 bytes"]),
        FileCause::GetFailed => put_all(out, &[b"cannot read ", name]),
    }
}

// Puts which name is in one of two networks only.
fn put_unmatched<O: Sink>(out: &mut O, fault: &CompareFault) -> Result<(), SinkFailed>
    ensures { Puts result (unmatched_text fault.now) (O.screen out.old) (O.screen out.new) }
{
    match fault {
        CompareFault::Input(name) => put_all(out, &[b"input ", name.as_slice(), ONLY]),
        CompareFault::Output(name) => put_all(out, &[b"output ", name.as_slice(), ONLY]),
        CompareFault::Latch(name) => put_all(out, &[b"latch ", name.as_slice(), ONLY]),
        CompareFault::NoMemory => put(out, b"out of memory"),
    }
}

// Puts what a refusal says.
fn put_text<O: Sink>(out: &mut O, refusal: &Refusal, name: &[u8]) -> Result<(), SinkFailed>
    ensures { Puts result (refusal_text refusal.now name.now) (O.screen out.old) (O.screen out.new) }
{
    match refusal {
        Refusal::Words => put(out, b"command line"),
        Refusal::Script(fault) => put_script_fault(out, fault),
        Refusal::CommandFile { line, word, fault } => {
            put_command_fault(out, name, *line, word.as_slice(), fault)
        }
        Refusal::Read(fault) => put_read_fault(out, fault),
        Refusal::ReadAiger(fault) => put_aiger_fault(out, fault),
        Refusal::ReadLuts(LutFileFault::Line(line)) => {
            put_number(out, b"line ", *line as u64, b": lut row")
        }
        Refusal::NotRead { name, cause } => put_not_read(out, name.as_slice(), cause),
        Refusal::Unmatched(fault) => put_unmatched(out, fault),
        Refusal::FileTooLong => put(out, b"file longer than 16777216 bytes"),
        Refusal::LineTooLong => put(out, b"line longer than 65536 bytes"),
        Refusal::CommandFileTooLong => put(out, b"file of commands longer than 65536 bytes"),
        Refusal::TooDeep => put(out, b"files of commands more than 16 deep"),
        Refusal::TooManyLines => put(out, b"more than 1048576 lines"),
        Refusal::TooManyGates(gates) => put_number(out, b"", *gates, b" gates"),
        Refusal::LatchType(latch) => put_all(out, &[latch.as_slice(), b" has a latch type"]),
        Refusal::NoNetwork => put(out, b"no network"),
        Refusal::GetFailed => put_all(out, &[b"cannot read ", name]),
        Refusal::PutFailed => put_all(out, &[b"cannot write ", name]),
        Refusal::LineFailed => put(out, b"cannot read a line"),
        Refusal::SinkFailed => Ok(()),
        Refusal::NoMemory => put(out, b"out of memory"),
    }
}

// Puts the line of a refusal.
fn put_refusal<O: Sink>(out: &mut O, refusal: &Refusal, name: &[u8]) -> Result<(), SinkFailed>
    ensures { Puts result (refusal_line refusal.now name.now) (O.screen out.old) (O.screen out.new) }
{
    put(out, b"refused: ")?;
    put_text(out, refusal, name)?;
    put(out, b"\n")
}

// The status of a run where a file's fault is refused first: its three limits have one of their own.
fn read_status(fault: &ReadFault) -> u8
    ensures { result ≡ read_status fault.now }
{
    match fault {
        ReadFault::TooManyWords(_) | ReadFault::TooManySources(_) | ReadFault::TooLarge(_) => 5,
        ReadFault::NoMemory => 8,
        _ => 4,
    }
}

// The status of a run where a fault of an AIGER file is refused first: its two limits have one of their own.
fn aiger_status(fault: &AigFault) -> u8
    ensures { result ≡ aiger_status fault.now }
{
    match fault {
        AigFault::TooManySources(_) | AigFault::TooManyGates(_) => 5,
        AigFault::NoMemory => 8,
        _ => 4,
    }
}

// The same of a file that is compared and holds no network.
fn not_read_status(cause: &FileCause) -> u8
    ensures { result ≡ not_read_status cause.now }
{
    match cause {
        FileCause::Read(fault) => read_status(fault),
        FileCause::ReadAiger(fault) => aiger_status(fault),
        FileCause::TooLong => 5,
        FileCause::GetFailed => 7,
    }
}

// The status of a run where this is refused first.
fn status_of(refusal: &Refusal) -> u8
    ensures { result ≡ refusal_status refusal.now }
{
    match refusal {
        Refusal::Words => 2,
        Refusal::Script(_) | Refusal::CommandFile { .. } => 3,
        Refusal::Read(fault) => read_status(fault),
        Refusal::ReadAiger(fault) => aiger_status(fault),
        Refusal::ReadLuts(_) => 4,
        Refusal::NotRead { cause, .. } => not_read_status(cause),
        Refusal::FileTooLong
        | Refusal::LineTooLong
        | Refusal::CommandFileTooLong
        | Refusal::TooDeep
        | Refusal::TooManyLines
        | Refusal::TooManyGates(_) => 5,
        Refusal::NoNetwork => 6,
        Refusal::GetFailed | Refusal::PutFailed | Refusal::LineFailed | Refusal::SinkFailed => 7,
        Refusal::NoMemory => 8,
        Refusal::LatchType(_) | Refusal::Unmatched(_) => 9,
    }
}

/// Puts the line of a refusal, but for a sink that failed, which has none. The name is that of the file that the
/// refused command names.
pub(crate) fn report_refusal<O: Sink>(out: &mut O, refusal: &Refusal, name: &[u8]) -> Reported
    ensures { AnnouncesAs result (record { cause = refusal.now; name = name.now }) (O.screen out.old) (O.screen out.new) }
{
    let status = status_of(refusal);
    if let Refusal::SinkFailed = refusal {
        return Reported::Cut(status);
    }
    match put_refusal(out, refusal, name) {
        Ok(()) => Reported::Whole(status),
        Err(_) => Reported::Cut(status),
    }
}
