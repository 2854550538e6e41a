//! The cheaper of two nets.

ghost use Rattle.std.specs.Prelude.{◌≤◌, IfOk, IsTrue};
ghost use Rattle.syn_lutnet.specs.Data.{luts_data};
ghost use Rattle.syn_lutnet.specs.LutData.{net_depth};
ghost use Rattle.syn_area.specs.Plain.{IsEither, IsNoDearer};

use crate::areas::luts_cost;
use std::alloc::{AllocError, Global};
use syn_lutnet::LutNet;

// Whether the LUTs of a net cost less than those of another, or as much, and are no more of them.
fn is_no_dearer(areas: &[u32], net: &LutNet, plain: &LutNet) -> bool
    ensures { IsTrue result → IsNoDearer areas.now net.now plain.now }
{
    let cost = luts_cost(areas, net.luts.as_slice());
    let most = luts_cost(areas, plain.luts.as_slice());
    if cost == most {
        net.count() <= plain.count()
    } else {
        cost < most
    }
}

// Whether a net is no dearer than another, and at most so deep.
fn is_better(
    alloc: Global,
    areas: &[u32],
    net: &LutNet,
    plain: &LutNet,
    most: u32,
) -> Result<bool, AllocError>
    ensures no_dearer { IfOk result (λ yes. IsTrue yes → IsNoDearer areas.now net.now plain.now) }
    ensures depth { IfOk result (λ yes. IsTrue yes → net_depth net.now.source_count (luts_data net.now.luts) ≤ most) }
{
    if !is_no_dearer(areas, net, plain) {
        return Ok(false);
    }
    let depth = net.depth(alloc)?;
    Ok(depth <= most)
}

/// The first of two nets, where it is no dearer than the second and at most so deep; else the second. The only error is want
/// of memory.
pub fn cheaper(
    alloc: Global,
    areas: &[u32],
    net: LutNet,
    plain: LutNet,
    most: u32,
) -> Result<LutNet, AllocError>
    ensures either { IfOk result (IsEither most net plain) }
    ensures no_dearer { IfOk result (λ kept. IsNoDearer areas.now kept plain) }
{
    match is_better(alloc, areas, &net, &plain, most) {
        Ok(true) => {
            drop(plain);
            Ok(net)
        }
        Ok(false) => {
            drop(net);
            Ok(plain)
        }
        Err(error) => {
            drop(net);
            drop(plain);
            Err(error)
        }
    }
}
