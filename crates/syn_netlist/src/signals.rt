//! Lists of numbers without repeats, by marks.

ghost use Rattle.std.specs.Prelude.{◌≡◌, ◌++◌, ◌+◌, ◌<◌, [], ◌∷◌, IfOk, OnOk, flat_map, length, map, true, false, slice_set, slice_index_or, if◌then◌else◌};
ghost use Rattle.syn_netlist.specs.Kept.{latches_below};
ghost use Rattle.syn_netlist.specs.Marks.{AreMarks, first_numbers, observed_numbers, output_number, read_numbers, source_numbers};
ghost use Rattle.syn_lists.specs.Numbers.{without_numbers, has_number};
ghost use Rattle.syn_netlist.specs.Numbers.{all_below};

use crate::Latch;
use crate::marks::{marks_of, no_marks};
use std::alloc::{AllocError, Global};

/// The numbers of the sources: inputs, clocks that are no inputs, latch outputs. All are below the count.
pub(crate) fn source_numbers(
    alloc: Global,
    count: u32,
    inputs: &[u32],
    clocks: &[u32],
    latches: &[Latch],
) -> Result<Vec<u32>, AllocError>
    requires inputs { all_below count inputs.now ≡ true }
    requires clocks { all_below count clocks.now ≡ true }
    ensures { IfOk result (λ v. v.items ≡ source_numbers inputs.now clocks.now latches.now) }
{
    let clocks = without(alloc, count, inputs, clocks)?;
    let outputs = latch_outputs(alloc, latches)?;
    let mut all = inputs.to_vec(alloc)?;
    all.extend_from_slice(&clocks)?;
    all.extend_from_slice(&outputs)?;
    Ok(all)
}

/// The numbers of the observed signals: outputs, then what each latch reads, each once. All are below the count.
pub(crate) fn observed_numbers(
    alloc: Global,
    count: u32,
    outputs: &[u32],
    latches: &[Latch],
) -> Result<Vec<u32>, AllocError>
    requires outputs { all_below count outputs.now ≡ true }
    requires latches { latches_below count latches.now ≡ true }
    ensures { IfOk result (λ v. v.items ≡ observed_numbers outputs.now latches.now) }
{
    let read = latch_reads(alloc, latches)?;
    let mut all = outputs.to_vec(alloc)?;
    all.extend_from_slice(&read)?;
    firsts(alloc, count, &all)
}

/// The numbers that are not among the others, in their order. All are below the count.
fn without(
    alloc: Global,
    count: u32,
    others: &[u32],
    numbers: &[u32],
) -> Result<Vec<u32>, AllocError>
    requires others { all_below count others.now ≡ true }
    requires numbers { all_below count numbers.now ≡ true }
    ensures { IfOk result (λ v. v.items ≡ without_numbers others.now numbers.now) }
{
    let marks = marks_of(alloc, count, others)?;
    let marks = marks.as_slice();
    let mut found = Vec::new(alloc);
    for n in numbers {
        if !marks[*n as usize] {
            found.push(*n)?;
        }
    }
    Ok(found)
}

/// Each number once, at its first place. All are below the count.
fn firsts(alloc: Global, count: u32, numbers: &[u32]) -> Result<Vec<u32>, AllocError>
    requires { all_below count numbers.now ≡ true }
    ensures { IfOk result (λ v. v.items ≡ first_numbers numbers.now) }
{
    let mut marks = no_marks(alloc, count)?;
    let places = marks.as_mut_slice();
    let mut found = Vec::new(alloc);
    for n in numbers {
        add_first(places, &mut found, *n)?;
    }
    Ok(found)
}

// Appends a number, and marks it, where it is not marked.
fn add_first(marks: &mut [bool], found: &mut Vec<u32>, n: u32) -> Result<(), AllocError>
    requires below { n < length marks.old }
    requires marks { AreMarks found.old.items marks.old }
    ensures found { OnOk result (found.new.items ≡ (if has_number found.old.items n then found.old.items else (found.old.items ++ n ∷ []))) }
    ensures marks { OnOk result (AreMarks found.new.items marks.new) }
{
    if !marks[n as usize] {
        found.push(n)?;
        marks[n as usize] = true;
    }
    Ok(())
}

/// The outputs of latches.
fn latch_outputs(alloc: Global, latches: &[Latch]) -> Result<Vec<u32>, AllocError>
    ensures { IfOk result (λ v. v.items ≡ map output_number latches.now) }
{
    latches.iter().map(|latch| latch.output).collect(alloc)
}

/// What latches read.
pub(crate) fn latch_reads(alloc: Global, latches: &[Latch]) -> Result<Vec<u32>, AllocError>
    ensures { IfOk result (λ v. v.items ≡ flat_map read_numbers latches.now) }
{
    let mut read = Vec::new(alloc);
    for latch in latches {
        push_reads(&mut read, *latch)?;
    }
    Ok(read)
}

/// Appends what a latch reads. The only error is want of memory.
pub fn push_reads(read: &mut Vec<u32>, latch: Latch) -> Result<(), AllocError>
    ensures { OnOk result (read.new.items ≡ read.old.items ++ read_numbers latch) }
{
    read.push(latch.feed)?;
    if let Some((_, Some(control))) = latch.kind {
        read.push(control)?;
    }
    Ok(())
}
