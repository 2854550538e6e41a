//! A LUT net, resubstituted.

ghost use Rattle.std.specs.Prelude.{◌≡◌, ℕ, ◌+◌, ◌^◌, ◌<◌, ◌≤◌, true, IfOk, OnOk, length};
ghost use Rattle.syn_rows.specs.declared.TheConstants.{NODE_LIMIT};
ghost use Rattle.syn_rows.specs.Joining.{lit_of};
ghost use Rattle.syn_hashed.specs.Hashed.{lit_at};
ghost use Rattle.syn_lutnet.specs.Data.{lut_data, luts_data};
ghost use Rattle.syn_lutnet.specs.LutData.{greatest, net_depth, net_gates};
ghost use Rattle.syn_absorb.specs.Nets.{IsTrimmed};
ghost use Rattle.syn_absorb.specs.Reaching.{IsOpenNet};
ghost use Rattle.syn_absorb.specs.Rebuilding.{IsTrimming};
ghost use Rattle.syn_mfs.specs.Placing.{ArePlaced};

use crate::attempts::improve_all;
use crate::placed::place_luts;
use crate::tools::{Limits, Tools};
use std::alloc::{AllocError, Global};
use syn_absorb::{copy_inputs, trim, trim_luts};
use syn_hashed::HashedRows;
use syn_lutnet::{Lut, LutNet, signal_depths};
use syn_rows::{Lit, NODE_LIMIT};

// Whether there is room for the rows of a net.
fn has_room(net: &LutNet) -> bool
    ensures { result ≡ true → net.now.source_count + 1 + net_gates (luts_data net.now.luts) < NODE_LIMIT }
{
    let room = NODE_LIMIT as u64 - 1 - u64::from(net.source_count);
    net.gates() < room
}

// A LUT again.
fn copied(lut: &Lut) -> Lut
    ensures { lut_data result ≡ lut_data lut.now }
{
    Lut {
        inputs: copy_inputs(lut.inputs.as_slice()),
        truth: lut.truth,
    }
}

// The same LUTs again. The only error of this call and of those below is want of memory.
fn all_copied(alloc: Global, luts: &[Lut]) -> Result<Vec<Lut>, AllocError>
    ensures { IfOk result (λ v. luts_data v.items ≡ luts_data luts.now) }
{
    let mut copies = Vec::new(alloc);
    for lut in luts {
        copies.push(copied(lut))?;
    }
    Ok(copies)
}

// Whether no depth is greater than so much.
fn is_low(depths: &[u32], most: u32) -> bool
    ensures { result ≡ true → greatest (λ d. d) depths.now ≤ most }
{
    for depth in depths {
        if *depth > most {
            return false;
        }
    }
    true
}

// Whether LUTs over the sources of a net are no deeper than it.
fn keeps_depth(alloc: Global, net: &LutNet, luts: &[Lut]) -> Result<bool, AllocError>
    requires { net.now.source_count + 1 + length luts.now + 1 < 2 ^ 32 }
    ensures { IfOk result (λ low. low ≡ true → net_depth net.now.source_count (luts_data luts.now) ≤ net_depth net.now.source_count (luts_data net.now.luts)) }
{
    let most = net.depth(alloc)?;
    let depths = signal_depths(alloc, net.source_count, luts)?;
    Ok(is_low(depths.as_slice(), most))
}

// Replaces LUTs of a net, which has these literals in rows.
fn replace_in(
    alloc: Global,
    net: &LutNet,
    lits: &[Lit],
    hashed: &mut HashedRows,
    limits: &Limits,
    luts: &mut Vec<Lut>,
) -> Result<(), AllocError>
    requires luts { luts_data luts.old.items ≡ luts_data net.now.luts }
    requires count { hashed.old.source_count ≡ net.now.source_count }
    requires few { length hashed.old.rows.items < NODE_LIMIT }
    requires sources { (n : ℕ) → n < net.now.source_count + 1 → lit_at lits.now n ≡ lit_of n }
    requires placed { ArePlaced (net.now.source_count + 1) (luts_data net.now.luts) hashed.old.rows.items lits.now }
    ensures count { OnOk result (length luts.new.items ≡ length luts.old.items) }
    ensures open { OnOk result (IsOpenNet net.now.source_count (luts_data luts.new.items) net.now.observed) }
    ensures same { OnOk result (net_depth net.now.source_count (luts_data luts.new.items) ≤ net_depth net.now.source_count (luts_data net.now.luts) → IsTrimming net.now.source_count (luts_data net.now.luts) net.now.observed (luts_data luts.new.items) net.now.observed) }
{
    let first = net.source_count + 1;
    let rows = hashed.rows.len() as u32;
    let mut tools = Tools::new(alloc, net, rows, limits)?;
    improve_all(lits, first, hashed, luts, &mut tools)
}

// The same in rows of its own.
fn replace(
    alloc: Global,
    net: &LutNet,
    limits: &Limits,
    luts: &mut Vec<Lut>,
) -> Result<(), AllocError>
    requires luts { luts_data luts.old.items ≡ luts_data net.now.luts }
    requires room { net.now.source_count + 1 + net_gates (luts_data net.now.luts) < NODE_LIMIT }
    ensures count { OnOk result (length luts.new.items ≡ length luts.old.items) }
    ensures open { OnOk result (IsOpenNet net.now.source_count (luts_data luts.new.items) net.now.observed) }
    ensures same { OnOk result (net_depth net.now.source_count (luts_data luts.new.items) ≤ net_depth net.now.source_count (luts_data net.now.luts) → IsTrimming net.now.source_count (luts_data net.now.luts) net.now.observed (luts_data luts.new.items) net.now.observed) }
{
    let mut own = place_luts(alloc, net)?;
    replace_in(
        alloc,
        net,
        own.lits.as_slice(),
        &mut own.hashed,
        limits,
        luts,
    )
}

/// The net with LUTs replaced by others of the same value, of fewer inputs or of other ones, where that leaves LUTs unread or
/// inputs unused; trimmed as by `trim`. A net too large for its gates is trimmed only. The only error is want of memory.
pub fn mfs(alloc: Global, net: &LutNet, limits: &Limits) -> Result<LutNet, AllocError>
    ensures { IfOk result (IsTrimmed net.now) }
{
    if !has_room(net) {
        return trim(alloc, net);
    }
    let mut luts = all_copied(alloc, net.luts.as_slice())?;
    replace(alloc, net, limits, &mut luts)?;
    if keeps_depth(alloc, net, luts.as_slice())? {
        trim_luts(alloc, net, luts.as_slice())
    } else {
        trim(alloc, net)
    }
}
