//! From a LUT net to its graph.

ghost use Rattle.std.specs.Prelude.{◌≡◌, ◌+◌, ◌<◌, ◌≤◌, All, Bool, List, length, map, IfErr, IfOk};
ghost use Rattle.syn_rows.specs.declared.TheConstants.{NODE_LIMIT};
ghost use Rattle.syn_rows.specs.Rows.{node_of};
ghost use Rattle.syn_rows.specs.Values.{rows_function};
ghost use Rattle.syn_netlist.specs.Frames.{frame_in};
ghost use Rattle.syn_netlist.specs.Lists.{sources};
ghost use Rattle.syn_graph.specs.Graphs.{SourcesStay};
ghost use Rattle.syn_network.specs.Written as graphs;
ghost use Rattle.syn_lutnet.specs.LutData.{luts_function, net_gates};
ghost use Rattle.syn_lutnet.specs.Data.{luts_data};
ghost use Rattle.syn_network.specs.WrittenLuts.{network_of};
ghost use Rattle.syn_build.specs.GraphOfLuts.{IsGraphOfLuts};
ghost use Rattle.syn_lut_rows.specs.LutLiterals.{AllThere};
ghost use Rattle.syn_build.specs.LutLiterals.{signed_by};
ghost use Rattle.syn_build.specs.BuildFaults.{TellsFault, most_gates};

use crate::tables::{Built, signed};
use std::alloc::{AllocError, AllocFailed, Global};
use syn_hashed::HashedRows;
use syn_lut_rows::{name_luts, source_literals};
use syn_lutnet::LutNet;
use syn_network::{LutNetwork, Network, copy_frame, finish};
use syn_rows::Lit;

/// The most gates of a LUT net that is made a graph.
pub const MAX_GATES: u64 = 4_194_304;

/// Why a LUT net is not made a graph.
#[derive(Clone, Copy, Debug, PartialEq, Eq)]
pub enum BuildFault {
    /// Factoring its LUTs takes so many gates, more than `MAX_GATES`.
    TooManyGates(u64),
    /// Memory was refused.
    NoMemory,
}

impl From<AllocError> for BuildFault {
    ghost use Rattle.syn_build.specs.declared.luts.BuildFault.TheVariants.{NoMemory};

    ghost from_gives = { λ _ e. e ≡ NoMemory };

    fn from(_: AllocError) -> BuildFault {
        BuildFault::NoMemory
    }
}

impl<T: Drop> From<AllocFailed<T>> for BuildFault {
    ghost use Rattle.syn_build.specs.declared.luts.BuildFault.TheVariants.{NoMemory};

    ghost from_gives = { λ _ e. e ≡ NoMemory };

    fn from(_: AllocFailed<T>) -> BuildFault {
        BuildFault::NoMemory
    }
}

// The literal that a literal of a signal stands for, by those of the signals.
#[inline]
fn signed_by(signals: &[Lit], literal: Lit) -> Lit
    requires { node_of literal < length signals.now }
    ensures { result ≡ signed_by signals.now literal }
{
    signed(signals[literal.node() as usize], !literal.complemented())
}

// The literals that literals of signals stand for.
fn signed_literals(alloc: Global, signals: &[Lit], literals: &[Lit]) -> Result<Vec<Lit>, AllocError>
    requires { All (λ l. node_of l < length signals.now) literals.now }
    ensures { IfOk result (λ v. v.items ≡ map (signed_by signals.now) literals.now) }
{
    let mut found = Vec::new(alloc);
    for literal in literals {
        found.push(signed_by(signals, *literal))?;
    }
    Ok(found)
}

// The rows of a LUT net, with a literal for each observed one.
fn build_net(alloc: Global, net: &LutNet) -> Result<Built, AllocError>
    requires { net.now.source_count + 1 + net_gates (luts_data net.now.luts) < NODE_LIMIT }
    ensures sources { IfOk result (λ b. b.hashed.source_count ≡ net.now.source_count) }
    ensures few { IfOk result (λ b. length b.hashed.rows.items ≤ net.now.source_count + 1 + net_gates (luts_data net.now.luts)) }
    ensures count { IfOk result (λ b. length b.observed.items ≡ length net.now.observed) }
    ensures within { IfOk result (λ b. AllThere b.hashed.rows.items b.observed.items) }
    ensures stay { IfOk result (λ b. SourcesStay net.now.source_count net.now.observed b.observed.items) }
    ensures function { IfOk result (λ b. (bits : List Bool) → length bits ≡ net.now.source_count → rows_function b.hashed.rows.items b.observed.items bits ≡ luts_function (luts_data net.now.luts) net.now.observed bits) }
{
    let mut hashed = HashedRows::new(alloc, net.source_count as usize)?;
    let mut signals = source_literals(alloc, net.source_count)?;
    name_luts(&mut hashed, net.luts.as_slice(), &mut signals)?;
    let observed = signed_literals(alloc, signals.as_slice(), net.observed.as_slice())?;
    Ok(Built { hashed, observed })
}

/// The graph of a LUT net: the LUTs in order, each by the gates of factoring its function, with rows that stand once; what
/// no observed signal reaches is dropped. The frame is copied.
///
/// A net that takes more than `MAX_GATES` gates is refused; the only other error is want of memory.
pub fn build_luts(alloc: Global, net: &LutNetwork) -> Result<Network, BuildFault>
    requires room { length (sources (frame_in net.now.frame)) + 1 + most_gates < NODE_LIMIT }
    ensures frame { IfOk result (λ graph. frame_in graph.frame ≡ frame_in net.now.frame) }
    ensures function { IfOk result (λ graph. (bits : List Bool) → length bits ≡ length (sources (frame_in net.now.frame)) → rows_function graph.body.rows graph.body.observed bits ≡ luts_function (luts_data net.now.body.luts) net.now.body.observed bits) }
    ensures network { IfOk result (λ graph. IsGraphOfLuts (network_of net.now) (graphs.network_of graph)) }
    ensures few { IfOk result (λ graph. length graph.body.rows ≤ length (sources (frame_in net.now.frame)) + 1 + net_gates (luts_data net.now.body.luts)) }
    ensures within { IfOk result (λ graph. net_gates (luts_data net.now.body.luts) ≤ most_gates) }
    ensures fault { IfErr result (TellsFault (net_gates (luts_data net.now.body.luts))) }
{
    syn_network::network_of_luts();
    syn_network::luts_have_function();
    syn_network::network_of_graph();
    syn_network::graph_has_function();
    syn_netlist::same_from_function();
    let gates = net.body.gates();
    if gates > MAX_GATES {
        return Err(BuildFault::TooManyGates(gates));
    }
    let built = build_net(alloc, &net.body)?;
    let frame = copy_frame(alloc, &net.frame)?;
    let Built { hashed, observed } = built;
    let graph = finish(alloc, frame, hashed, observed.as_slice())?;
    Ok(graph)
}
