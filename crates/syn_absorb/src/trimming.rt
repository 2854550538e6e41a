//! LUT nets each LUT of which reads only what it depends on.

ghost use Rattle.std.specs.Prelude.{◌≡◌, ◌+◌, ◌<◌, ◌^◌, IfOk, IfSome, IfNone, length};
ghost use Rattle.syn_lutnet.specs.LutData.{IsLutNet};
ghost use Rattle.syn_lutnet.specs.Data.{luts_data};
ghost use Rattle.syn_absorb.specs.Needed.{AllDepend};
ghost use Rattle.syn_absorb.specs.Nets.{IsTrimmed};
ghost use Rattle.syn_absorb.specs.Reaching.{IsOpenNet};
ghost use Rattle.syn_absorb.specs.Rebuilding.{IsRebuiltNet, IsTrimming};

use crate::reach::{all_marked, reached};
use crate::rebuild::{Parts, rebuilt};
use std::alloc::{AllocError, Global};
use syn_lists::Items;
use syn_lutnet::{Lut, LutNet};
use syn_rows::Lit;

// The LUTs and literals made anew without the LUTs that aren't reached, where there are such.
fn without_unreached(
    alloc: Global,
    source_count: u32,
    parts: &Parts,
) -> Result<Option<Parts>, AllocError>
    requires few { source_count + 1 + length parts.now.luts.items < 2 ^ 31 }
    requires net { IsOpenNet source_count (luts_data parts.now.luts.items) parts.now.lits.items }
    ensures rebuilt { IfOk result (λ made. IfSome made (λ p. IsRebuiltNet source_count (luts_data parts.now.luts.items) parts.now.lits.items (luts_data p.luts.items) p.lits.items)) }
    ensures fewer { IfOk result (λ made. IfSome made (λ p. length p.luts.items < length parts.now.luts.items)) }
    ensures net { IfOk result (λ made. IfNone made (IsLutNet source_count (luts_data parts.now.luts.items) parts.now.lits.items)) }
{
    let luts = parts.luts.as_slice();
    let lits = parts.lits.as_slice();
    let marks = reached(alloc, source_count, luts, lits)?;
    let slice = marks.as_slice();
    if all_marked(source_count + 1, slice) {
        return Ok(None);
    }
    let made = rebuilt(alloc, source_count, luts, slice, lits)?;
    Ok(Some(made))
}

// The LUTs and literals made anew until each LUT is reached: LUTs that others no longer read can leave more of them unread.
fn pruned(alloc: Global, source_count: u32, parts: Parts) -> Result<Parts, AllocError>
    requires few { source_count + 1 + length parts.luts.items < 2 ^ 31 }
    requires net { IsOpenNet source_count (luts_data parts.luts.items) parts.lits.items }
    requires depend { AllDepend (luts_data parts.luts.items) }
    ensures rebuilt { IfOk result (λ p. IsRebuiltNet source_count (luts_data parts.luts.items) parts.lits.items (luts_data p.luts.items) p.lits.items) }
    ensures net { IfOk result (λ p. IsLutNet source_count (luts_data p.luts.items) p.lits.items) }
{
    let mut kept = parts;
    while let Some(next) = without_unreached(alloc, source_count, &kept)? {
        kept = next;
    }
    Ok(kept)
}

// LUTs and literals, trimmed.
fn trimmed_parts(
    alloc: Global,
    source_count: u32,
    luts: &[Lut],
    lits: &[Lit],
) -> Result<Parts, AllocError>
    requires few { source_count + 1 + length luts.now < 2 ^ 31 }
    requires net { IsOpenNet source_count (luts_data luts.now) lits.now }
    ensures rebuilt { IfOk result (λ p. IsRebuiltNet source_count (luts_data luts.now) lits.now (luts_data p.luts.items) p.lits.items) }
    ensures net { IfOk result (λ p. IsLutNet source_count (luts_data p.luts.items) p.lits.items) }
{
    let marks = reached(alloc, source_count, luts, lits)?;
    let parts = rebuilt(alloc, source_count, luts, marks.as_slice(), lits)?;
    pruned(alloc, source_count, parts)
}

/// The net that `trim` makes of a net with other LUTs in the place of its own: of the same function, as many, no deeper, of no
/// more inputs and no dearer. Of these others some may not be reached. The only error is want of memory.
pub fn trim_luts(alloc: Global, net: &LutNet, luts: &[Lut]) -> Result<LutNet, AllocError>
    requires open { IsOpenNet net.now.source_count (luts_data luts.now) net.now.observed }
    requires same { IsTrimming net.now.source_count (luts_data net.now.luts) net.now.observed (luts_data luts.now) net.now.observed }
    ensures { IfOk result (IsTrimmed net.now) }
{
    let count = net.source_count;
    let Parts { luts: kept, lits } = trimmed_parts(alloc, count, luts, net.observed.as_slice())?;
    Ok(LutNet {
        source_count: count,
        luts: Items::of(kept),
        observed: Items::of(lits),
    })
}

/// The net of the same function each LUT of which depends on each signal that it reads: what a LUT ignores it doesn't read,
/// what is constant or the same as another signal, or its complement, goes to those that read it, and a LUT that isn't
/// reached then is left out. The only error is want of memory.
pub fn trim(alloc: Global, net: &LutNet) -> Result<LutNet, AllocError>
    ensures { IfOk result (IsTrimmed net.now) }
{
    trim_luts(alloc, net, net.luts.as_slice())
}
