//! LUT nets as they are written.

ghost use Rattle.std.specs.Prelude.{IfOk};
ghost use Rattle.syn_settled.specs.Settled.{IsSettled};

use std::alloc::{AllocError, Global};
use syn_absorb::{absorb, trim};
use syn_lutnet::LutNet;

/// The net trimmed to what its LUTs depend on, with complements in the LUTs. The only error is want of memory.
pub(crate) fn settle(alloc: Global, net: &LutNet) -> Result<LutNet, AllocError>
    ensures { IfOk result (IsSettled net.now) }
{
    let trimmed = trim(alloc, net)?;
    absorb(alloc, &trimmed)
}
