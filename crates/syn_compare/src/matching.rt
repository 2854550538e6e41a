//! Whether two frames have the same names.

ghost use Rattle.std.specs.Prelude.{◌≡◌, ◌<◌, length, true, IfErr, IfOk, OnOk};
ghost use Rattle.syn_netlist.specs.Frames.{frame_in};
ghost use Rattle.syn_netlist.specs.Numbers.{all_below, word_at, words_at};
ghost use Rattle.syn_compare.specs.Matching.{AreMatched, IsFault, givens, latch_names, unmatched};

use crate::CompareFault;
use crate::places::Index;
use std::alloc::{AllocError, Global};
use syn_netlist::{Frame, Names, Word};

/// A copy of the word of a number. The only error is want of memory.
pub(crate) fn word_of(alloc: Global, names: &Names, number: u32) -> Result<Word, AllocError>
    requires { number < length names.now }
    ensures { IfOk result (λ word. word ≡ word_at names.now number) }
{
    let bytes = names.word(number).to_vec(alloc)?;
    Ok(Word::of(bytes))
}

// The first word of two lists that isn't in both.
fn unmatched(
    alloc: Global,
    names: &Names,
    numbers: &[u32],
    other_names: &Names,
    others: &[u32],
) -> Result<Option<Word>, AllocError>
    requires below { all_below (length names.now) numbers.now ≡ true }
    requires others { all_below (length other_names.now) others.now ≡ true }
    ensures { IfOk result (λ o. o ≡ unmatched (words_at names.now numbers.now) (words_at other_names.now others.now)) }
{
    let index = Index::of(alloc, other_names, others)?;
    if let Some(number) = index.lacked(names, numbers) {
        return Ok(Some(word_of(alloc, names, number)?));
    }
    let own = Index::of(alloc, names, numbers)?;
    match own.lacked(other_names, others) {
        Some(number) => Ok(Some(word_of(alloc, other_names, number)?)),
        None => Ok(None),
    }
}

// The numbers of the inputs, and of the clocks that are no inputs.
fn given_numbers(alloc: Global, frame: &Frame) -> Result<Vec<u32>, AllocError>
    ensures words { IfOk result (λ v. words_at frame.now.names v.items ≡ givens (frame_in frame.now)) }
    ensures below { IfOk result (λ v. all_below (length frame.now.names) v.items ≡ true) }
{
    let mut numbers = frame.sources(alloc)?;
    let latches = frame.latches.as_slice().len();
    numbers.truncate(numbers.len().saturating_sub(latches));
    Ok(numbers)
}

/// The numbers of the latches' names. The only error is want of memory.
pub(crate) fn latch_numbers(alloc: Global, frame: &Frame) -> Result<Vec<u32>, AllocError>
    ensures words { IfOk result (λ v. words_at frame.now.names v.items ≡ latch_names (frame_in frame.now)) }
    ensures below { IfOk result (λ v. all_below (length frame.now.names) v.items ≡ true) }
{
    let mut numbers = Vec::new(alloc);
    for latch in frame.latches.as_slice() {
        numbers.push(latch.output)?;
    }
    Ok(numbers)
}

// The first input or clock that isn't in both frames.
fn unmatched_given(alloc: Global, first: &Frame, second: &Frame) -> Result<Option<Word>, AllocError>
    ensures { IfOk result (λ o. o ≡ unmatched (givens (frame_in first.now)) (givens (frame_in second.now))) }
{
    let numbers = given_numbers(alloc, first)?;
    let others = given_numbers(alloc, second)?;
    unmatched(
        alloc,
        &first.names,
        numbers.as_slice(),
        &second.names,
        others.as_slice(),
    )
}

// The first latch that isn't in both frames.
fn unmatched_latch(alloc: Global, first: &Frame, second: &Frame) -> Result<Option<Word>, AllocError>
    ensures { IfOk result (λ o. o ≡ unmatched (latch_names (frame_in first.now)) (latch_names (frame_in second.now))) }
{
    let numbers = latch_numbers(alloc, first)?;
    let others = latch_numbers(alloc, second)?;
    unmatched(
        alloc,
        &first.names,
        numbers.as_slice(),
        &second.names,
        others.as_slice(),
    )
}

// The first output that isn't in both frames.
fn unmatched_output(
    alloc: Global,
    first: &Frame,
    second: &Frame,
) -> Result<Option<Word>, AllocError>
    ensures { IfOk result (λ o. o ≡ unmatched (frame_in first.now).outputs (frame_in second.now).outputs) }
{
    unmatched(
        alloc,
        &first.names,
        first.outputs.as_slice(),
        &second.names,
        second.outputs.as_slice(),
    )
}

/// Whether two frames have the same names: else the first that isn't in both.
pub(crate) fn matched(alloc: Global, first: &Frame, second: &Frame) -> Result<(), CompareFault>
    ensures ok { OnOk result (AreMatched (frame_in first.now) (frame_in second.now)) }
    ensures err { IfErr result (IsFault (frame_in first.now) (frame_in second.now)) }
{
    if let Some(word) = unmatched_given(alloc, first, second)? {
        return Err(CompareFault::Input(word));
    }
    if let Some(word) = unmatched_output(alloc, first, second)? {
        return Err(CompareFault::Output(word));
    }
    match unmatched_latch(alloc, first, second)? {
        Some(word) => Err(CompareFault::Latch(word)),
        None => Ok(()),
    }
}
