//! The frame of a file.

ghost use Rattle.std.specs.Prelude.{◌≡◌, ◌<◌, ℕ, List, length, map, IfOk, true};
ghost use Rattle.std.specs.List.{list_all};
ghost use Rattle.syn_netlist.specs.Frames.{frame_in};
ghost use Rattle.syn_netlist.specs.Kept.{latch_in, latches_below, no_nil_control};
ghost use Rattle.syn_netlist.specs.Numbers.{all_below, words_at};
ghost use Rattle.syn_aiger.specs.Framing.{AreParts};
ghost use Rattle.syn_aiger.specs.Keeping.{Keeps};
ghost use Rattle.syn_aiger.specs.Naming.{Named, name_of, named_of};
ghost use Rattle.syn_aiger.specs.Networks.{frame_of, init_of, latches_from};
ghost use Rattle.syn_aiger.specs.Placing.{has_reset};

use crate::file_numbers::Numbered;
use crate::given::Given;
use std::alloc::{AllocError, Global};
use syn_aiger_files::AigLatch;
use syn_lists::Items;
use syn_netlist::{Frame, Latch, Word};

/// The frame of a file, and the literals of its names by their numbers.
#[derive(Drop)]
pub struct Framed {
    pub frame: Frame,
    pub literals: Vec<u32>,
}

// The initial value: 3 where the reset is the latch's own literal, for any value.
fn init_of(latch: AigLatch) -> u8
    requires { has_reset latch ≡ true }
    ensures value { result ≡ init_of latch }
    ensures small { result < 4 }
{
    if latch.reset == latch.literal {
        return 3;
    }
    latch.reset as u8
}

// The latches of these numbers of outputs and of what they load.
fn latches(
    alloc: Global,
    latches: &[AigLatch],
    outputs: &[u32],
    feeds: &[u32],
) -> Result<Vec<Latch>, AllocError>
    requires resets { list_all has_reset latches.now ≡ true }
    requires outputs { length outputs.now ≡ length latches.now }
    requires feeds { length feeds.now ≡ length latches.now }
    ensures words { (names : List (List ℕ)) (os fs : List Named) → words_at names outputs.now ≡ map name_of os → words_at names feeds.now ≡ map name_of fs → IfOk result (λ v. map (latch_in names) v.items ≡ latches_from latches.now os fs) }
    ensures below { (count : ℕ) → all_below count outputs.now ≡ true → all_below count feeds.now ≡ true → IfOk result (λ v. latches_below count v.items ≡ true) }
    ensures controls { (names : List (List ℕ)) → IfOk result (λ v. no_nil_control names v.items ≡ true) }
{
    let mut found = Vec::new(alloc);
    for j in 0..latches.len() {
        found.push(Latch {
            feed: feeds[j],
            output: outputs[j],
            kind: None,
            init: init_of(latches[j]),
        })?;
    }
    Ok(found)
}

// The model's name, the numbers of names and the latches of a frame.
#[derive(Drop)]
pub struct FrameParts {
    pub model: Word,
    pub inputs: Items<u32>,
    pub outputs: Items<u32>,
    pub latches: Items<Latch>,
}

// The parts of a file's frame over the names that are given.
fn frame_parts(alloc: Global, file: &Numbered, given: &Given) -> Result<FrameParts, AllocError>
    requires { Keeps given.now (named_of file.now.aig) }
    ensures { IfOk result (λ p. AreParts file.now.aig given.now.names p.model p.inputs p.outputs p.latches) }
{
    let states = file.aig.latches.as_slice();
    let (inputs, rest) = given.numbers.as_slice().split_at(file.aig.inputs.len());
    let (held, rest) = rest.split_at(states.len());
    let (outputs, feeds) = rest.split_at(file.aig.outputs.as_slice().len());
    let latches = latches(alloc, states, held, feeds)?;
    Ok(FrameParts {
        model: Word::of(b"top".to_vec(alloc)?),
        inputs: Items::of(inputs.to_vec(alloc)?),
        outputs: Items::of(outputs.to_vec(alloc)?),
        latches: Items::of(latches),
    })
}

// The frame of its parts and of the names that are given.
fn frame_of_parts(alloc: Global, file: &Numbered, given: Given, parts: FrameParts) -> Framed
    requires { AreParts file.now.aig given.names parts.model parts.inputs parts.outputs parts.latches }
    ensures frame { frame_in result.frame ≡ frame_of file.now.aig }
    ensures names { result.frame.names ≡ given.names }
    ensures literals { result.literals ≡ given.literals }
{
    let _ = file;
    let Given {
        names,
        literals,
        numbers: _,
    } = given;
    let FrameParts {
        model,
        inputs,
        outputs,
        latches,
    } = parts;
    let clocks: Vec<u32> = Vec::new(alloc);
    let frame = Frame {
        names,
        model,
        inputs,
        clocks: Items::of(clocks),
        outputs,
        latches,
    };
    Framed { frame, literals }
}

/// The frame of a file with the names that are given. The only error is want of memory.
pub fn frame_file(alloc: Global, file: &Numbered, given: Given) -> Result<Framed, AllocError>
    requires { Keeps given (named_of file.now.aig) }
    ensures frame { IfOk result (λ f. frame_in f.frame ≡ frame_of file.now.aig) }
    ensures names { IfOk result (λ f. f.frame.names ≡ given.names) }
    ensures literals { IfOk result (λ f. f.literals ≡ given.literals) }
{
    match frame_parts(alloc, file, &given) {
        Ok(parts) => Ok(frame_of_parts(alloc, file, given, parts)),
        Err(error) => {
            drop(given);
            Err(error)
        }
    }
}
