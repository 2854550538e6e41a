//! Which signals are reached from observed literals.

ghost use Rattle.std.specs.Prelude.{◌≡◌, ℕ, ◌+◌, ◌<◌, ◌≤◌, ◌^◌, ◌==◌, ◌&&◌, ◌||◌, true, false, All, IfOk, length, map};
ghost use Rattle.syn_rows.specs.Nodes.{has_node};
ghost use Rattle.syn_rows.specs.Rows.{node_of};
ghost use Rattle.syn_rows.specs.Values.{value_in};
ghost use Rattle.syn_lutnet.specs.Data.{luts_data};
ghost use Rattle.syn_absorb.specs.Reaching.{IsOpenNet, IsSwept};

use std::alloc::{AllocError, Global};
use syn_lutnet::Lut;
use syn_rows::{Lit, no_marks};

// Marks a signal.
fn mark(marks: &mut [bool], signal: u32)
    requires { signal < length marks.old }
    ensures { (m : ℕ) → value_in marks.new m ≡ (value_in marks.old m || signal == m) }
{
    marks[signal as usize] = true;
}

// Marks some signals.
fn mark_all(marks: &mut [bool], signals: &[u32])
    requires { All (λ m. m < length marks.old) signals.now }
    ensures { (m : ℕ) → value_in marks.new m ≡ (value_in marks.old m || has_node signals.now m) }
{
    for signal in signals {
        mark(marks, *signal);
    }
}

// Marks the observed signals.
fn mark_observed(marks: &mut [bool], observed: &[Lit])
    requires { All (λ l. node_of l < length marks.old) observed.now }
    ensures { (m : ℕ) → value_in marks.new m ≡ (value_in marks.old m || has_node (map node_of observed.now) m) }
{
    for lit in observed {
        mark(marks, lit.node());
    }
}

// Marks the inputs of the LUT of a signal, where that is marked.
fn mark_inputs(marks: &mut [bool], signal: u32, inputs: &[u32])
    requires own { signal < length marks.old }
    requires inputs { All (λ m. m < length marks.old) inputs.now }
    ensures { (m : ℕ) → value_in marks.new m ≡ (value_in marks.old m || (value_in marks.old signal && has_node inputs.now m)) }
{
    if !marks[signal as usize] {
        return;
    }
    mark_all(marks, inputs);
}

// Marks the inputs of marked LUTs, from the last LUT down, where the observed signals are marked.
fn sweep(source_count: u32, luts: &[Lut], observed: &[Lit], marks: &mut [bool])
    requires few { source_count + 1 + length luts.now < 2 ^ 31 }
    requires net { IsOpenNet source_count (luts_data luts.now) observed.now }
    requires observed { IsSwept (source_count + 1) (luts_data luts.now) observed.now marks.old (length luts.now) }
    ensures { IsSwept (source_count + 1) (luts_data luts.now) observed.now marks.new 0 }
{
    let _ = observed;
    let first = source_count + 1;
    for j in (0..luts.len()).rev() {
        mark_inputs(marks, first + j as u32, luts[j].inputs.as_slice());
    }
}

/// Marks the signals that are reached. The only error is want of memory.
pub(crate) fn reached(
    alloc: Global,
    source_count: u32,
    luts: &[Lut],
    observed: &[Lit],
) -> Result<Vec<bool>, AllocError>
    requires few { source_count + 1 + length luts.now < 2 ^ 31 }
    requires net { IsOpenNet source_count (luts_data luts.now) observed.now }
    ensures { IfOk result (λ v. IsSwept (source_count + 1) (luts_data luts.now) observed.now v.items 0) }
{
    let mut marks = no_marks(alloc, source_count as usize + 1 + luts.len())?;
    let slice = marks.as_mut_slice();
    mark_observed(slice, observed);
    sweep(source_count, luts, observed, slice);
    Ok(marks)
}

/// Whether all signals from a first one on are marked.
pub(crate) fn all_marked(first: u32, marks: &[bool]) -> bool
    ensures all { result ≡ true → (n : ℕ) → first ≤ n → n < length marks.now → value_in marks.now n ≡ true }
    ensures some { result ≡ false → (n : ℕ) × (first ≤ n) × (n < length marks.now) × (value_in marks.now n ≡ false) }
{
    for n in first as usize..marks.len() {
        if !marks[n] {
            return false;
        }
    }
    true
}
