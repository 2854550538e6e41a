//! AIGER files: the graph of one, and the one of a network.

ghost use Rattle.std.specs.Prelude.{◌≡◌, ◌≤◌, length, IfOk, IfErr, List, OnOk, Some, false, true, ℕ};
ghost use Rattle.syn_network.specs.Written as graphs;
ghost use Rattle.syn_aiger_files.specs.declared.files.Aig.{Aig};
ghost use Rattle.syn_aiger.specs.Faults.{Spells};
ghost use Rattle.syn_aiger.specs.Faults as aiger;
ghost use Rattle.syn_aiger.specs.Networks.{IsGraphOfAig};
ghost use Rattle.syn_shell.specs.Networks.{graph_network, IsSmall, network_of};
ghost use Rattle.syn_command_files.specs.Told.{FileIs, FilesUnchanged};
ghost use Rattle.syn_shell.specs.Outside.{OthersUnchanged};
ghost use Rattle.syn_shell.specs.Reads.{AigerParseRefused, AigerReadRefused, file_limit, IsReadAsAiger};
ghost use Rattle.syn_shell.specs.Steps.{AigerRefused, AigerWriteRefused, IsAigerOf};

use crate::commands::graph_of;
use crate::files::{get, put};
use crate::network::HeldNetwork;
use crate::refusal::Refusal;
use std::alloc::{AllocError, Global};
use syn_aiger::{AigWriteFault, read_aig, write_aig, write_untyped_aig};
use syn_aiger_files::AigFault;
use syn_io::Files;
use syn_network::Network;

// The graph of the file that bytes spell, or their first fault.
fn parse(alloc: Global, properties: bool, bytes: &[u8]) -> Result<Network, Refusal>
    requires { length bytes.now ≤ file_limit }
    ensures graph { IfOk result (λ graph. (g : Aig) × Spells properties bytes.now g × aiger.Within g × IsGraphOfAig g (graphs.network_of graph)) }
    ensures small { IfOk result (λ graph. IsSmall (graph_network (graphs.network_of graph))) }
    ensures refused { IfErr result (AigerParseRefused properties bytes.now) }
{
    match read_aig(alloc, bytes, properties) {
        Ok(graph) => Ok(graph),
        Err(AigFault::NoMemory) => Err(Refusal::NoMemory),
        Err(fault) => Err(Refusal::ReadAiger(fault)),
    }
}

/// The graph of an AIGER file, with bad states and constraints as outputs, or with none.
pub(crate) fn read<F: Files>(
    alloc: Global,
    properties: bool,
    name: &str,
    files: &mut F,
) -> Result<Network, Refusal>
    ensures read { IfOk result (λ graph. IsReadAsAiger properties name.now (F.disk files.old) (graphs.network_of graph)) }
    ensures small { IfOk result (λ graph. IsSmall (graph_network (graphs.network_of graph))) }
    ensures refused { IfErr result (AigerReadRefused properties name.now (F.disk files.old) (F.disk files.new)) }
    ensures unchanged { FilesUnchanged (F.disk files.old) (F.disk files.new) }
{
    let bytes = get(alloc, name, files)?;
    let graph = parse(alloc, properties, bytes.as_slice())?;
    Ok(graph)
}

// The bytes of a graph's AIGER file with the types of latches left out.
fn bare_bytes_of(alloc: Global, graph: &Network, ascii: bool) -> Result<Vec<u8>, AllocError>
    requires { IsSmall (graph_network (graphs.network_of graph.now)) }
    ensures { IfOk result (λ bytes. IsAigerOf ascii true (graph_network (graphs.network_of graph.now)) bytes.items) }
{
    syn_network::network_of_graph();
    write_untyped_aig(alloc, graph, ascii)
}

// The bytes of a graph's AIGER file, or its first latch with a type.
fn typed_bytes_of(alloc: Global, graph: &Network, ascii: bool) -> Result<Vec<u8>, Refusal>
    requires { IsSmall (graph_network (graphs.network_of graph.now)) }
    ensures bytes { IfOk result (λ bytes. IsAigerOf ascii false (graph_network (graphs.network_of graph.now)) bytes.items) }
    ensures refused { IfErr result (AigerRefused false (graph_network (graphs.network_of graph.now))) }
{
    syn_network::network_of_graph();
    match write_aig(alloc, graph, ascii) {
        Ok(bytes) => Ok(bytes),
        Err(AigWriteFault::Latch(latch)) => Err(Refusal::LatchType(latch)),
        Err(AigWriteFault::NoMemory) => Err(Refusal::NoMemory),
    }
}

// The bytes of a graph's AIGER file, with the types of latches left out or not.
fn bytes_of(alloc: Global, graph: &Network, ascii: bool, bare: bool) -> Result<Vec<u8>, Refusal>
    requires { IsSmall (graph_network (graphs.network_of graph.now)) }
    ensures bytes { IfOk result (λ bytes. IsAigerOf ascii bare (graph_network (graphs.network_of graph.now)) bytes.items) }
    ensures refused { IfErr result (AigerRefused bare (graph_network (graphs.network_of graph.now))) }
{
    if bare {
        Ok(bare_bytes_of(alloc, graph, ascii)?)
    } else {
        typed_bytes_of(alloc, graph, ascii)
    }
}

// The bytes of a network's AIGER file: those of its graph.
fn written(
    alloc: Global,
    network: &HeldNetwork,
    ascii: bool,
    bare: bool,
) -> Result<Vec<u8>, Refusal>
    requires { IsSmall (network_of network.now) }
    ensures bytes { IfOk result (λ bytes. IsAigerOf ascii bare (network_of network.now) bytes.items) }
    ensures refused { IfErr result (AigerRefused bare (network_of network.now)) }
{
    match network {
        HeldNetwork::Graph(graph) => bytes_of(alloc, graph, ascii, bare),
        HeldNetwork::Luts(net) => {
            let graph = graph_of(alloc, net)?;
            bytes_of(alloc, &graph, ascii, bare)
        }
    }
}

/// Writes a network's graph to an AIGER file, in the ASCII format or in the binary one. The types of latches are left out,
/// or a latch with a type is refused.
pub(crate) fn write<F: Files>(
    alloc: Global,
    network: &HeldNetwork,
    ascii: bool,
    bare: bool,
    name: &str,
    files: &mut F,
) -> Result<(), Refusal>
    requires { IsSmall (network_of network.now) }
    ensures file { OnOk result ((bytes : List ℕ) × FileIs name.now (F.disk files.new) bytes × IsAigerOf ascii bare (network_of network.now) bytes) }
    ensures refused { IfErr result (AigerWriteRefused bare (Some (network_of network.now)) name.now (F.disk files.old) (F.disk files.new)) }
    ensures others { OthersUnchanged name.now (F.disk files.old) (F.disk files.new) }
{
    let bytes = written(alloc, network, ascii, bare)?;
    put(alloc, name, bytes.as_slice(), files)
}
