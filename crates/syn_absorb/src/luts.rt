//! LUTs and literals that read complemented signals.

ghost use Rattle.std.specs.Prelude.{◌≡◌, ◌+◌, ◌<◌, ◌≤◌, ◌^◌, All, IfOk, length, map};
ghost use Rattle.syn_rows.specs.Rows.{node_of};
ghost use Rattle.syn_lutnet.specs.Data.{lut_data, luts_data};
ghost use Rattle.syn_absorb.specs.Flips.{AreFlipped, IsFlipped, flip_in, flipped_lit};

use crate::marks::is_marked;
use crate::tables::{flip_variables, not_if};
use arrayvec::ArrayVec;
use std::alloc::{AllocError, Global};
use syn_lutnet::{Lut, MAX_INPUTS};
use syn_rows::Lit;

// Which of some signals are marked ones.
fn flips_of(first: u32, marks: &[bool], signals: &[u32]) -> ArrayVec<bool, MAX_INPUTS>
    requires { length signals.now ≤ 8 }
    ensures { result.items ≡ map (flip_in first marks.now) signals.now }
{
    let mut flips = ArrayVec::new();
    for signal in signals {
        flips.push(is_marked(first, marks, *signal));
    }
    flips
}

/// The same signals.
pub fn copy_inputs(signals: &[u32]) -> ArrayVec<u32, MAX_INPUTS>
    requires { length signals.now ≤ 8 }
    ensures { result.items ≡ signals.now }
{
    let mut inputs = ArrayVec::new();
    for signal in signals {
        inputs.push(*signal);
    }
    inputs
}

// The LUT of a signal where the marked signals are complemented.
fn flipped_lut(first: u32, marks: &[bool], signal: u32, lut: &Lut) -> Lut
    ensures { IsFlipped (flip_in first marks.now) signal (lut_data lut.now) (lut_data result) }
{
    let inputs = lut.inputs.as_slice();
    let flips = flips_of(first, marks, inputs);
    let inside = flip_variables(lut.truth, flips.as_slice());
    let own = is_marked(first, marks, signal);
    let truth = not_if(inside, own);
    Lut {
        inputs: copy_inputs(inputs),
        truth,
    }
}

/// The LUTs where the marked signals are complemented. The only error is want of memory.
pub(crate) fn flipped_luts(
    alloc: Global,
    first: u32,
    marks: &[bool],
    luts: &[Lut],
) -> Result<Vec<Lut>, AllocError>
    requires { first + length luts.now < 2 ^ 32 }
    ensures { IfOk result (λ v. AreFlipped (flip_in first marks.now) first (luts_data luts.now) (luts_data v.items)) }
{
    let mut flipped = Vec::new(alloc);
    let mut signal = first;
    for lut in luts {
        let next = flipped_lut(first, marks, signal, lut);
        flipped.push(next)?;
        signal += 1;
    }
    Ok(flipped)
}

// The literal where the marked signals are complemented.
fn flipped_literal(first: u32, marks: &[bool], lit: Lit) -> Lit
    requires { node_of lit < 2 ^ 31 }
    ensures { result ≡ flipped_lit (flip_in first marks.now) lit }
{
    let node = lit.node();
    Lit::of(node, is_marked(first, marks, node) != lit.complemented())
}

/// The literals where the marked signals are complemented. The only error is want of memory.
pub(crate) fn flipped_literals(
    alloc: Global,
    first: u32,
    marks: &[bool],
    lits: &[Lit],
) -> Result<Vec<Lit>, AllocError>
    requires { All (λ l. node_of l < 2 ^ 31) lits.now }
    ensures { IfOk result (λ v. v.items ≡ map (flipped_lit (flip_in first marks.now)) lits.now) }
{
    let mut flipped = Vec::new(alloc);
    for lit in lits {
        flipped.push(flipped_literal(first, marks, *lit))?;
    }
    Ok(flipped)
}
