//! LUT nets.

ghost use Rattle.std.specs.Prelude.{◌≡◌, ◌+◌, ◌*◌, ◌<◌, ◌≤◌, ◌^◌, IfOk, length};
ghost use Rattle.syn_rows.specs.declared.TheConstants.{NODE_LIMIT};
ghost use Rattle.syn_lutnet.specs.Data.{luts_data};
ghost use Rattle.syn_lutnet.specs.LutData.{IsLutNet, net_depth, net_gates};

use crate::depths::{deepest, signal_depths};
use crate::luts::Lut;
use std::alloc::{AllocError, Global};
use syn_lists::Items;
use syn_rows::Lit;

/// A network of lookup tables: signal 0 is the constant 0, then come the sources, then the LUTs, each of which reads two or
/// more different smaller signals, the constant not among them. Each LUT is reached from an observed literal.
#[derive(Debug, Drop)]
pub struct LutNet {
    /// The number of sources.
    pub source_count: u32,
    /// The LUTs, in the order of their signals.
    pub luts: Items<Lut>,
    /// The observed literals, of signals.
    pub observed: Items<Lit>,
    pub ghost net: { IsLutNet source_count (luts_data luts) observed },
    pub ghost few: { source_count + 1 + length luts < NODE_LIMIT },
    pub ghost few_observed: { length observed < 2 ^ 31 },
}

// The gates of all these LUTs.
fn gates_of(luts: &[Lut]) -> u64
    requires { length luts.now < NODE_LIMIT }
    ensures { result ≡ net_gates (luts_data luts.now) }
{
    let mut gates = 0;
    for lut in luts {
        let more = lut.gates();
        gates += u64::from(more);
    }
    gates
}

impl LutNet {
    /// The number of LUTs.
    pub fn count(&self) -> u32
        ensures { result ≡ length self.now.luts }
    {
        self.luts.as_slice().len() as u32
    }

    /// The depth: how many LUTs lie on the longest path. The only error is want of memory.
    pub fn depth(&self, alloc: Global) -> Result<u32, AllocError>
        ensures { IfOk result (λ d. d ≡ net_depth self.now.source_count (luts_data self.now.luts)) }
    {
        let depths = signal_depths(alloc, self.source_count, self.luts.as_slice())?;
        Ok(deepest(depths.as_slice()))
    }

    /// The number of gates that factoring the function of each LUT takes, all together.
    pub fn gates(&self) -> u64
        ensures { result ≡ net_gates (luts_data self.now.luts) }
    {
        gates_of(self.luts.as_slice())
    }
}
