//! BLIF files: the graph of one, and the one of a network.

ghost use Rattle.std.specs.Prelude.{◌≡◌, ◌≤◌, ◌<◌, ◌^◌, length, IfOk, IfErr, OnOk, Some};
ghost use Rattle.syn_netlist.specs.Views.{netlist_in};
ghost use Rattle.syn_reader.specs.Reading.{Reads};
ghost use Rattle.syn_reader.specs.Limits.{Within};
ghost use Rattle.syn_text.specs.Printed.{printed};
ghost use Rattle.syn_network.specs.Written as graphs;
ghost use Rattle.syn_shell.specs.Networks.{graph_network, IsSmall, network_of};
ghost use Rattle.syn_command_files.specs.Told.{FileIs, FilesUnchanged};
ghost use Rattle.syn_shell.specs.Outside.{OthersUnchanged};
ghost use Rattle.syn_shell.specs.Reads.{file_limit, IsReadAs, ParseRefused, ReadRefused};
ghost use Rattle.syn_shell.specs.Steps.{WriteRefused};

use crate::files::{get, put};
use crate::network::HeldNetwork;
use crate::refusal::Refusal;
use std::alloc::{AllocError, Global};
use syn_build::build_checked;
use syn_io::Files;
use syn_netlist::CheckedNetlist;
use syn_network::Network;
use syn_reader::ReadFault;

// The netlist that the bytes of a file spell, checked, or their first fault.
fn parse(alloc: Global, bytes: &[u8]) -> Result<CheckedNetlist, Refusal>
    requires { length bytes.now ≤ file_limit }
    ensures reads { IfOk result (λ checked. Reads bytes.now (netlist_in checked.netlist)) }
    ensures within { IfOk result (λ checked. Within bytes.now (netlist_in checked.netlist)) }
    ensures names { IfOk result (λ checked. length checked.netlist.frame.names < 2 ^ 31) }
    ensures refused { IfErr result (ParseRefused bytes.now) }
{
    match syn_reader::read_checked(alloc, bytes) {
        Ok(checked) => Ok(checked),
        Err(ReadFault::NoMemory) => Err(Refusal::NoMemory),
        Err(fault) => Err(Refusal::Read(fault)),
    }
}

/// The graph of a file's netlist.
pub(crate) fn read<F: Files>(alloc: Global, name: &str, files: &mut F) -> Result<Network, Refusal>
    ensures read { IfOk result (λ graph. IsReadAs name.now (F.disk files.old) (graphs.network_of graph)) }
    ensures small { IfOk result (λ graph. IsSmall (graph_network (graphs.network_of graph))) }
    ensures refused { IfErr result (ReadRefused name.now (F.disk files.old) (F.disk files.new)) }
    ensures unchanged { FilesUnchanged (F.disk files.old) (F.disk files.new) }
{
    syn_reader::few_outputs();
    let bytes = get(alloc, name, files)?;
    let checked = parse(alloc, bytes.as_slice())?;
    let graph = build_checked(alloc, checked)?;
    Ok(graph)
}

// The bytes of a network's netlist.
fn printed(alloc: Global, network: &HeldNetwork) -> Result<Vec<u8>, AllocError>
    ensures printed { IfOk result (λ bytes. bytes.items ≡ printed (network_of network.now).netlist) }
    ensures reads { IfOk result (λ bytes. Reads bytes.items (network_of network.now).netlist) }
{
    let netlist = network.netlist(alloc)?;
    let bytes = syn_text::print(alloc, &netlist)?;
    Ok(bytes)
}

/// Writes the netlist of a network to a file.
pub(crate) fn write<F: Files>(
    alloc: Global,
    network: &HeldNetwork,
    name: &str,
    files: &mut F,
) -> Result<(), Refusal>
    ensures file { OnOk result (FileIs name.now (F.disk files.new) (printed (network_of network.now).netlist)) }
    ensures reads { OnOk result (Reads (printed (network_of network.now).netlist) (network_of network.now).netlist) }
    ensures refused { IfErr result (WriteRefused (Some (network_of network.now)) name.now (F.disk files.old) (F.disk files.new)) }
    ensures others { OthersUnchanged name.now (F.disk files.old) (F.disk files.new) }
{
    let bytes = printed(alloc, network)?;
    put(alloc, name, bytes.as_slice(), files)
}
