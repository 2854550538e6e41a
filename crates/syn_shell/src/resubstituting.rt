//! Nets of LUTs resubstituted by don't-cares, under the names that they have.

ghost use Rattle.std.specs.Prelude.{◌≡◌, IfOk};
ghost use Rattle.syn_netlist.specs.Frames.{frame_in};
ghost use Rattle.syn_network.specs.WrittenLuts as luts;
ghost use Rattle.syn_absorb.specs.Nets.{KeepsFunction};
ghost use Rattle.syn_settled.specs.Settled.{IsSettled};
ghost use Rattle.syn_shell.specs.Networks.{mapped_network};
ghost use Rattle.syn_shell.specs.Makes.{IsResubstituted};

use std::alloc::{AllocError, Global};
use syn_absorb::absorb;
use syn_lutnet::LutNet;
use syn_mfs::{Limits, mfs};
use syn_network::{LutNetwork, copy_frame};

// So many conflicts for each question at most.
const CONFLICTS: u32 = 100;

// What resubstitution over windows of so many LUTs at most leaves of a net, settled.
fn left_of(alloc: Global, net: &LutNet, window: u32) -> Result<LutNet, AllocError>
    ensures { IfOk result (IsSettled net.now) }
{
    let limits = Limits {
        nodes: window,
        conflicts: CONFLICTS,
    };
    let left = mfs(alloc, net, &limits)?;
    absorb(alloc, &left)
}

// Another net of the same function under a copy of a net's names.
fn under_names(alloc: Global, net: &LutNetwork, body: LutNet) -> Result<LutNetwork, AllocError>
    requires { KeepsFunction net.now.body body }
    ensures frame { IfOk result (λ n. frame_in n.frame ≡ frame_in net.now.frame) }
    ensures body { IfOk result (λ n. n.body ≡ body) }
{
    let frame = copy_frame(alloc, &net.frame)?;
    Ok(LutNetwork::of(frame, body))
}

/// A net of LUTs resubstituted over windows of so many LUTs at most, under a copy of its names. The only error is want of
/// memory.
pub(crate) fn resubstituted(
    alloc: Global,
    net: &LutNetwork,
    window: u32,
) -> Result<LutNetwork, AllocError>
    ensures { IfOk result (λ made. IsResubstituted (mapped_network (luts.network_of net.now)) (mapped_network (luts.network_of made))) }
{
    syn_network::network_of_luts();
    syn_network::luts_have_function();
    syn_netlist::same_from_function();
    let body = left_of(alloc, &net.body, window)?;
    under_names(alloc, net, body)
}
