//! The depths of the signals of a LUT net.

ghost use Rattle.std.specs.Prelude.{◌≡◌, ◌+◌, ◌<◌, ◌≤◌, ◌^◌, All, IfOk, length, max, replicate};
ghost use Rattle.syn_lutnet.specs.LutData.{depth_in, greatest, signal_depths};
ghost use Rattle.syn_lutnet.specs.Data.{luts_data};

use crate::luts::Lut;
use std::alloc::{AllocError, Global};

// So many times depth 0.
fn no_depths(alloc: Global, count: usize) -> Result<Vec<u32>, AllocError>
    ensures { IfOk result (λ v. v.items ≡ replicate count 0) }
{
    vec![in alloc; 0; count]
}

// The depth of a signal, 0 past the end.
#[inline]
fn depth_at(depths: &[u32], signal: u32) -> u32
    ensures { result ≡ depth_in depths.now signal }
{
    if (signal as usize) < depths.len() {
        depths[signal as usize]
    } else {
        0
    }
}

/// The greatest depth of some signals, 0 of none.
pub fn greatest_depth(depths: &[u32], signals: &[u32]) -> u32
    ensures { result ≡ greatest (depth_in depths.now) signals.now }
{
    let mut most = 0;
    for signal in signals {
        most = greater(most, depth_at(depths, *signal));
    }
    most
}

// The greater of two depths.
#[inline]
fn greater(a: u32, b: u32) -> u32
    ensures { result ≡ max a b }
{
    if a < b { b } else { a }
}

// The depth of a LUT with these inputs, from the depths of the signals before it.
fn lut_depth(depths: &[u32], inputs: &[u32]) -> u32
    requires low { All (λ d. d ≤ length depths.now) depths.now }
    requires few { length depths.now + 1 < 2 ^ 32 }
    ensures depth { result ≡ greatest (depth_in depths.now) inputs.now + 1 }
    ensures low { result ≤ length depths.now + 1 }
{
    greatest_depth(depths, inputs) + 1
}

/// The depths of all signals: of the constant and of so many sources 0, of a LUT one more than that of its deepest input.
/// The only error is want of memory.
pub fn signal_depths(alloc: Global, source_count: u32, luts: &[Lut]) -> Result<Vec<u32>, AllocError>
    requires { source_count + 1 + length luts.now + 1 < 2 ^ 32 }
    ensures { IfOk result (λ v. v.items ≡ signal_depths source_count (luts_data luts.now)) }
{
    let mut depths = no_depths(alloc, source_count as usize + 1)?;
    for lut in luts {
        let depth = lut_depth(depths.as_slice(), lut.inputs.as_slice());
        depths.push(depth)?;
    }
    Ok(depths)
}

/// The greatest of some depths.
pub(crate) fn deepest(depths: &[u32]) -> u32
    ensures { result ≡ greatest (λ d. d) depths.now }
{
    let mut most = 0;
    for depth in depths {
        most = greater(most, *depth);
    }
    most
}
