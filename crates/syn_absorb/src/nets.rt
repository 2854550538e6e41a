//! LUT nets whose LUTs hold the complements of what is observed.

ghost use Rattle.std.specs.Prelude.{◌≡◌, ◌+◌, IfOk};
ghost use Rattle.syn_lutnet.specs.Data.{luts_data};
ghost use Rattle.syn_absorb.specs.Flips.{IsFlippedTo};
ghost use Rattle.syn_absorb.specs.Nets.{IsAbsorbed};

use crate::luts::{flipped_literals, flipped_luts};
use crate::marks::mostly_complemented;
use std::alloc::{AllocError, Global};
use syn_lists::Items;
use syn_lutnet::{Lut, LutNet};
use syn_rows::Lit;

// The LUTs and the literals of a net where each LUT that more literals observe complemented than plain is complemented.
fn flipped_parts(alloc: Global, net: &LutNet) -> Result<(Vec<Lut>, Vec<Lit>), AllocError>
    ensures { IfOk result (λ p. IsFlippedTo (net.now.source_count + 1) (luts_data net.now.luts) net.now.observed (luts_data p.0.items) p.1.items) }
{
    let first = net.source_count + 1;
    let luts = net.luts.as_slice();
    let lits = net.observed.as_slice();
    let marks = mostly_complemented(alloc, first as usize + luts.len(), lits)?;
    let slice = marks.as_slice();
    let new = flipped_luts(alloc, first, slice, luts)?;
    let outs = flipped_literals(alloc, first, slice, lits)?;
    Ok((new, outs))
}

/// The net in which each LUT that more observed literals read complemented than plain has the complement of its function, and
/// each LUT that reads it that input complemented. The only error is want of memory.
pub fn absorb(alloc: Global, net: &LutNet) -> Result<LutNet, AllocError>
    ensures { IfOk result (IsAbsorbed net.now) }
{
    let (luts, lits) = flipped_parts(alloc, net)?;
    Ok(LutNet {
        source_count: net.source_count,
        luts: Items::of(luts),
        observed: Items::of(lits),
    })
}
