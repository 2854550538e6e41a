//! Frames: copies, and how many sources and observed signals they have.

ghost use Rattle.std.specs.Prelude.{◌≡◌, ◌<◌, ◌≤◌, length, IfOk};
ghost use Rattle.syn_rows.specs.declared.TheConstants.{NODE_LIMIT};
ghost use Rattle.syn_netlist.specs.Lists.{observed, sources};
ghost use Rattle.syn_netlist.specs.Numbers.{Grows};
ghost use Rattle.syn_netlist.specs.Views.{frame_in};

use std::alloc::{AllocError, Global};
use syn_lists::Items;
use syn_netlist::{Frame, Names, Word};

/// The same names with the same numbers.
pub fn copy_names(alloc: Global, names: &Names) -> Result<Names, AllocError>
    ensures { IfOk result (λ copy. copy ≡ names.now) }
{
    let mut copy = Names::new(alloc);
    for i in 0..names.len() {
        copy.add(alloc, names.word(i))?;
    }
    Ok(copy)
}

fn copy_items<T: Copy>(alloc: Global, items: &Items<T>) -> Result<Items<T>, AllocError>
    ensures { IfOk result (λ copy. copy ≡ items.now) }
{
    Ok(Items::of(Vec::from_slice(alloc, items.as_slice())?))
}

fn copy_word(alloc: Global, word: &Word) -> Result<Word, AllocError>
    ensures { IfOk result (λ copy. copy ≡ word.now) }
{
    Ok(Word::of(Vec::from_slice(alloc, word.as_slice())?))
}

/// The frame over names that begin with its own.
pub fn frame_over(alloc: Global, frame: &Frame, names: Names) -> Result<Frame, AllocError>
    requires { Grows frame.now.names names }
    ensures same { IfOk result (λ f. frame_in f ≡ frame_in frame.now) }
    ensures names { IfOk result (λ f. f.names ≡ names) }
{
    Ok(Frame {
        names,
        model: copy_word(alloc, &frame.model)?,
        inputs: copy_items(alloc, &frame.inputs)?,
        clocks: copy_items(alloc, &frame.clocks)?,
        outputs: copy_items(alloc, &frame.outputs)?,
        latches: copy_items(alloc, &frame.latches)?,
    })
}

/// The same frame.
pub fn copy_frame(alloc: Global, frame: &Frame) -> Result<Frame, AllocError>
    ensures same { IfOk result (λ f. frame_in f ≡ frame_in frame.now) }
    ensures names { IfOk result (λ f. f.names ≡ frame.now.names) }
{
    let names = copy_names(alloc, &frame.names)?;
    frame_over(alloc, frame, names)
}

/// The number of the frame's sources.
pub(crate) fn count_sources(alloc: Global, frame: &Frame) -> Result<u32, AllocError>
    requires { length (sources (frame_in frame.now)) < NODE_LIMIT }
    ensures { IfOk result (λ n. n ≡ length (sources (frame_in frame.now))) }
{
    let numbers = frame.sources(alloc)?;
    Ok(numbers.len() as u32)
}

/// There are no more observed signals than names: a law, which computes nothing.
pub fn few_observed(frame: &Frame)
    ensures { length (observed (frame_in frame.now)) ≤ length frame.now.names }
{
    let _count = frame.names.len();
}
