//! From a graph to the bytes of an AIGER file.
//!
//! A latch with a type is refused. Else the lists of the file are made of the graph's own, each in one pass: literals are
//! those of the graph's nodes, and an observed name has the literal that the graph observes, by the name's number.

ghost use Rattle.std.specs.Prelude.{◌≡◌, ◌+◌, ◌<◌, ◌≤◌, ◌^◌, ◌++◌, [], false, length, map, true, IfErr, IfOk, OnOk, None};
ghost use Rattle.std.specs.List.{list_all};
ghost use Rattle.syn_network.specs.Written.{network_of};
ghost use Rattle.syn_netlist.specs.Frames.{frame_in};
ghost use Rattle.syn_netlist.specs.Kept.{latches_below};
ghost use Rattle.syn_netlist.specs.Lists.{observed, sources};
ghost use Rattle.syn_netlist.specs.Numbers.{all_below, words_at};
ghost use Rattle.syn_netlist.specs.Words.{is_word};
ghost use Rattle.syn_aiger.specs.Faults.{Spells};
ghost use Rattle.syn_aiger.specs.Laws.{written_names};
ghost use Rattle.syn_aiger.specs.WrittenLists.{ArePlaced, HaveLiterals, latch_at, latches_at, literal_at, typed_output};
ghost use Rattle.syn_aiger_files.specs.Printed.{printed};
ghost use Rattle.syn_aiger.specs.Writing.{aig_of, and_by, ands_by, first_typed, IsWrittenAs, NamesTyped, reset_by, symbols_by, symbols_in, without_types};

use std::alloc::{AllocError, Global};
use syn_aiger_files::{Aig, AigAnd, AigLatch, Inputs, Place, Symbol, print};
use syn_lists::Items;
use syn_netlist::{Frame, Latch, Names, Word};
use syn_network::Network;
use syn_rows::{Lit, Row};

/// Why a graph is written as no AIGER file.
#[derive(Debug, Drop)]
pub enum AigWriteFault {
    /// The output of the first latch with a type.
    Latch(Word),
    /// Memory was refused.
    NoMemory,
}

impl From<AllocError> for AigWriteFault {
    ghost use Rattle.std.specs.Prelude.{◌≡◌};
    ghost use Rattle.syn_aiger.specs.declared.writer.AigWriteFault.TheVariants.{NoMemory};

    ghost from_gives = { λ _ e. e ≡ NoMemory };

    fn from(_error: AllocError) -> AigWriteFault {
        AigWriteFault::NoMemory
    }
}

/// The bytes of the AIGER file of a graph, in the ASCII or in the binary format; or its first latch with a type.
pub fn write_aig(alloc: Global, graph: &Network, ascii: bool) -> Result<Vec<u8>, AigWriteFault>
    requires rows { length graph.now.body.rows ≤ 2 ^ 28 }
    requires outputs { length graph.now.frame.outputs < 2 ^ 28 }
    ensures bytes { IfOk result (λ bytes. bytes.items ≡ printed ascii (aig_of (network_of graph.now))) }
    ensures spells { IfOk result (λ bytes. Spells false bytes.items (aig_of (network_of graph.now))) }
    ensures written { IfOk result (λ bytes. IsWrittenAs (network_of graph.now) (aig_of (network_of graph.now))) }
    ensures untyped { IfOk result (λ bytes. first_typed (network_of graph.now).frame ≡ None) }
    ensures fault { IfErr result (NamesTyped (network_of graph.now).frame) }
{
    refuse_types(alloc, &graph.frame)?;
    are_words(&graph.frame);
    Ok(write_untyped_aig(alloc, graph, ascii)?)
}

/// The bytes of the AIGER file of a graph, in the ASCII or in the binary format, with the types of latches left out. The only error is want of memory.
pub fn write_untyped_aig(alloc: Global, graph: &Network, ascii: bool) -> Result<Vec<u8>, AllocError>
    requires rows { length graph.now.body.rows ≤ 2 ^ 28 }
    requires outputs { length graph.now.frame.outputs < 2 ^ 28 }
    ensures bytes { IfOk result (λ bytes. bytes.items ≡ printed ascii (aig_of (network_of graph.now))) }
    ensures spells { IfOk result (λ bytes. Spells false bytes.items (aig_of (network_of graph.now))) }
    ensures written { IfOk result (λ bytes. IsWrittenAs (without_types (network_of graph.now)) (aig_of (network_of graph.now))) }
{
    are_words(&graph.frame);
    let file = file_of(alloc, graph)?;
    let bytes = print(alloc, &file, ascii)?;
    Ok(bytes)
}

// The written names are words.
fn are_words(frame: &Frame)
    ensures { list_all is_word (written_names (frame_in frame.now)) ≡ true }
{
    let _count = frame.names.len();
}

// Nothing where no latch has a type; else the output of the first that has one.
fn refuse_types(alloc: Global, frame: &Frame) -> Result<(), AigWriteFault>
    ensures untyped { OnOk result (first_typed (frame_in frame.now) ≡ None) }
    ensures fault { IfErr result (NamesTyped (frame_in frame.now)) }
{
    match typed_output(frame.latches.as_slice()) {
        Some(output) => {
            let name = Vec::from_slice(alloc, frame.names.word(output))?;
            Err(AigWriteFault::Latch(Word::of(name)))
        }
        None => Ok(()),
    }
}

// The output of the first latch with a type.
fn typed_output(latches: &[Latch]) -> Option<u32>
    ensures { result ≡ typed_output latches.now }
{
    for latch in latches {
        if latch.kind.is_some() {
            return Some(latch.output);
        }
    }
    None
}

// The file of a graph.
fn file_of(alloc: Global, graph: &Network) -> Result<Aig, AllocError>
    requires { length graph.now.frame.outputs < 2 ^ 32 }
    ensures { IfOk result (λ g. g ≡ aig_of (network_of graph.now)) }
{
    let frame = &graph.frame;
    let count = graph.body.source_count;
    let latches = frame.latches.as_slice();
    let free = free_count(frame, count);
    let literals = literals_of(alloc, graph)?;
    let (_, gates) = graph.body.rows.as_slice().split_at(count as usize + 1);
    let ands = ands_from(alloc, count + 1, gates)?;
    let symbols = symbols_of(alloc, frame, free)?;
    let outputs = literals_at(alloc, &literals, frame.outputs.as_slice())?;
    let latches = latches_at(alloc, &literals, free + 1, latches)?;
    Ok(Aig {
        variables: count + ands.len() as u32,
        inputs: Inputs::first(free),
        latches: Items::of(latches),
        outputs: Items::of(outputs),
        ands: Items::of(ands),
        symbols: Items::of(symbols),
    })
}

// How many of so many sources are no latches.
fn free_count(frame: &Frame, count: u32) -> u32
    requires { count ≡ length (sources (frame_in frame.now)) }
    ensures { result + length frame.now.latches ≡ count }
{
    count - frame.latches.as_slice().len() as u32
}

// The literal of each observed name, by its number; other names have any.
fn literals_of(alloc: Global, graph: &Network) -> Result<Vec<u32>, AllocError>
    ensures count { IfOk result (λ v. length v.items ≡ length graph.now.frame.names) }
    ensures literals { IfOk result (λ v. HaveLiterals (network_of graph.now) graph.now.frame.names (observed (frame_in graph.now.frame)) v.items) }
{
    let signals = graph.frame.observed(alloc)?;
    let count = graph.frame.names.len();
    let mut literals = vec![in alloc; 0; count as usize]?;
    place_literals(
        literals.as_mut_slice(),
        &signals,
        graph.body.observed.as_slice(),
    );
    Ok(literals)
}

// Gives each signal's number its literal.
fn place_literals(literals: &mut [u32], signals: &[u32], lits: &[Lit])
    requires below { all_below (length literals.old) signals.now ≡ true }
    requires count { length lits.now ≡ length signals.now }
    ensures count { length literals.new ≡ length literals.old }
    ensures placed { ArePlaced signals.now lits.now [] literals.new }
{
    for (i, signal) in signals.iter().enumerate() {
        literals[*signal as usize] = lits[i].0;
    }
}

// The literals of names by their numbers.
fn literals_at(alloc: Global, literals: &[u32], numbers: &[u32]) -> Result<Vec<u32>, AllocError>
    requires { all_below (length literals.now) numbers.now ≡ true }
    ensures { IfOk result (λ v. v.items ≡ map (literal_at literals.now) numbers.now) }
{
    let mut found = Vec::new(alloc);
    for number in numbers {
        found.push(literals[*number as usize])?;
    }
    Ok(found)
}

// The reset of an initial value: 0, 1, or the own literal for any value.
fn reset_by(own: u32, init: u8) -> u32
    ensures { result ≡ reset_by own init }
{
    if init == 0 {
        0
    } else if init == 1 {
        1
    } else {
        own
    }
}

// The latch of a variable.
fn latch_at(literals: &[u32], variable: u32, latch: Latch) -> AigLatch
    requires few { variable < 2 ^ 31 }
    requires feed { latch.feed < length literals.now }
    ensures { result ≡ latch_at literals.now variable latch }
{
    let literal = 2 * variable;
    AigLatch {
        literal,
        next: literals[latch.feed as usize],
        reset: reset_by(literal, latch.init),
    }
}

// The latches, from a variable on.
fn latches_at(
    alloc: Global,
    literals: &[u32],
    first: u32,
    latches: &[Latch],
) -> Result<Vec<AigLatch>, AllocError>
    requires few { first + length latches.now ≤ 2 ^ 31 }
    requires below { latches_below (length literals.now) latches.now ≡ true }
    ensures { IfOk result (λ v. v.items ≡ latches_at literals.now first latches.now) }
{
    let mut made = Vec::new(alloc);
    let mut variable = first;
    for latch in latches {
        made.push(latch_at(literals, variable, *latch))?;
        variable += 1;
    }
    Ok(made)
}

// Appends the AND of a node's row; other rows have none.
fn push_and(ands: &mut Vec<AigAnd>, node: u32, row: Row) -> Result<(), AllocError>
    requires { node < 2 ^ 31 }
    ensures { OnOk result (ands.new.items ≡ ands.old.items ++ and_by node row) }
{
    if let Row::And(a, b) = row {
        ands.push(AigAnd {
            literal: 2 * node,
            first: a.0.max(b.0),
            second: a.0.min(b.0),
        })?;
    }
    Ok(())
}

// The ANDs of rows, the first of which is this node's.
fn ands_from(alloc: Global, first: u32, rows: &[Row]) -> Result<Vec<AigAnd>, AllocError>
    requires { first + length rows.now ≤ 2 ^ 31 }
    ensures ands { IfOk result (λ v. v.items ≡ ands_by first rows.now) }
    ensures few { IfOk result (λ v. length v.items ≤ length rows.now) }
{
    let mut ands = Vec::new(alloc);
    let mut node = first;
    for row in rows {
        push_and(&mut ands, node, *row)?;
        node += 1;
    }
    Ok(ands)
}

// Appends symbols of a place with the names of these numbers.
fn push_symbols(
    alloc: Global,
    names: &Names,
    place: Place,
    numbers: &[u32],
    symbols: &mut Vec<Symbol>,
) -> Result<(), AllocError>
    requires few { length numbers.now < 2 ^ 32 }
    requires below { all_below (length names.now) numbers.now ≡ true }
    ensures { OnOk result (symbols.new.items ≡ symbols.old.items ++ symbols_by place 0 (words_at names.now numbers.now)) }
{
    for (i, number) in numbers.iter().enumerate() {
        let name = Vec::from_slice(alloc, names.word(*number))?;
        symbols.push(Symbol {
            place,
            index: i as u32,
            name: Items::of(name),
        })?;
    }
    Ok(())
}

// The symbols of a frame, so many of whose sources are no latches.
fn symbols_of(alloc: Global, frame: &Frame, free: u32) -> Result<Vec<Symbol>, AllocError>
    requires free { free + length frame.now.latches ≡ length (sources (frame_in frame.now)) }
    requires few { length (sources (frame_in frame.now)) < 2 ^ 32 }
    requires few_outputs { length frame.now.outputs < 2 ^ 32 }
    ensures { IfOk result (λ v. v.items ≡ symbols_in (frame_in frame.now)) }
{
    let numbers = frame.sources(alloc)?;
    let (inputs, latches) = numbers.split_at(free as usize);
    let names = &frame.names;
    let mut symbols = Vec::new(alloc);
    push_symbols(alloc, names, Place::Input, inputs, &mut symbols)?;
    push_symbols(alloc, names, Place::Latch, latches, &mut symbols)?;
    push_symbols(
        alloc,
        names,
        Place::Output,
        frame.outputs.as_slice(),
        &mut symbols,
    )?;
    Ok(symbols)
}
