//! The LUTs of a net in hashed rows.

ghost use Rattle.std.specs.Prelude.{◌≡◌, ℕ, ◌+◌, ◌<◌, IfOk, length};
ghost use Rattle.syn_rows.specs.declared.TheConstants.{NODE_LIMIT};
ghost use Rattle.syn_rows.specs.Joining.{lit_of};
ghost use Rattle.syn_hashed.specs.Hashed.{lit_at};
ghost use Rattle.syn_lutnet.specs.Data.{luts_data};
ghost use Rattle.syn_lutnet.specs.LutData.{net_gates};
ghost use Rattle.syn_mfs.specs.Placing.{ArePlaced};

use std::alloc::{AllocError, Global};
use syn_hashed::HashedRows;
use syn_lut_rows::{name_luts, source_literals};
use syn_lutnet::LutNet;
use syn_rows::Lit;

/// Rows, and a literal for each signal of a net.
#[derive(Debug, Drop)]
pub(crate) struct Placed {
    pub(crate) hashed: HashedRows,
    pub(crate) lits: Vec<Lit>,
}

/// The rows of a net's LUTs with the literals of its signals. The only error is want of memory.
pub(crate) fn place_luts(alloc: Global, net: &LutNet) -> Result<Placed, AllocError>
    requires { net.now.source_count + 1 + net_gates (luts_data net.now.luts) < NODE_LIMIT }
    ensures count { IfOk result (λ p. p.hashed.source_count ≡ net.now.source_count) }
    ensures few { IfOk result (λ p. length p.hashed.rows.items < NODE_LIMIT) }
    ensures sources { IfOk result (λ p. (n : ℕ) → n < net.now.source_count + 1 → lit_at p.lits.items n ≡ lit_of n) }
    ensures placed { IfOk result (λ p. ArePlaced (net.now.source_count + 1) (luts_data net.now.luts) p.hashed.rows.items p.lits.items) }
{
    let mut hashed = HashedRows::new(alloc, net.source_count as usize)?;
    let mut lits = source_literals(alloc, net.source_count)?;
    name_luts(&mut hashed, net.luts.as_slice(), &mut lits)?;
    Ok(Placed { hashed, lits })
}
