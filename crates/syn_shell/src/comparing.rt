//! Comparisons of networks: that of the session, or that of a file, with that of another file.

ghost use Rattle.std.specs.Prelude.{◌≡◌, ◌⊎◌, IfErr, IfOk, None, OnOk, Option, Some};
ghost use Rattle.syn_io.specs.Outside.{Disk};
ghost use Rattle.syn_network.specs.Written as graphs;
ghost use Rattle.syn_compare.specs.declared.answers.Comparison.{Comparison};
ghost use Rattle.syn_words.specs.declared.formats.NetworkFile.{NetworkFile};
ghost use Rattle.syn_command_files.specs.Told.{FilesUnchanged};
ghost use Rattle.syn_shell.specs.Networks.{IsSmall, network_of, Written};
ghost use Rattle.syn_shell.specs.Comparing.{AreCompared, Compared, CompareRefused, FileRefused, IsFirst, IsNotRead, IsReadFrom, IsUnmatched, name_of};

use crate::commands::graph_of;
use crate::network::HeldNetwork;
use crate::refusal::{FileCause, Refusal};
use crate::reports::put_text;
use crate::{aiger, blif};
use std::alloc::Global;
use syn_compare::{CompareFault, Comparison, compare};
use syn_io::{Files, Sink};
use syn_netlist::Word;
use syn_network::Network;
use syn_report::comparison_text;
use syn_words::NetworkFile;

// The file's name.
fn name_of(file: &NetworkFile) -> &str
    ensures { result.now ≡ name_of file.now }
{
    match file {
        NetworkFile::Blif(name) | NetworkFile::Aiger(name) => name.as_str(),
    }
}

// A file isn't read for this cause: that, with its name.
fn not_read(alloc: Global, file: &NetworkFile, cause: FileCause) -> Refusal
    ensures { (result ≡ Refusal.NoMemory) ⊎ (result ≡ Refusal.NotRead (name_of file.now) cause) }
{
    match name_of(file).as_bytes().to_vec(alloc) {
        Ok(name) => Refusal::NotRead {
            name: Word::of(name),
            cause,
        },
        Err(_) => Refusal::NoMemory,
    }
}

// Why a file isn't read to be compared, by why it is refused.
fn not_read_by(alloc: Global, file: &NetworkFile, refusal: Refusal) -> Refusal
    ensures { (before after : Disk) → FileRefused file.now before after refusal → IsNotRead file.now before after result }
{
    match refusal {
        Refusal::Read(fault) => not_read(alloc, file, FileCause::Read(fault)),
        Refusal::ReadAiger(fault) => not_read(alloc, file, FileCause::ReadAiger(fault)),
        Refusal::FileTooLong => not_read(alloc, file, FileCause::TooLong),
        Refusal::GetFailed => not_read(alloc, file, FileCause::GetFailed),
        other => other,
    }
}

// The graph of a file's network, or why the file alone is refused.
fn graph_in<F: Files>(alloc: Global, file: &NetworkFile, files: &mut F) -> Result<Network, Refusal>
    ensures read { IfOk result (λ graph. IsReadFrom file.now (F.disk files.old) (graphs.network_of graph)) }
    ensures refused { IfErr result (FileRefused file.now (F.disk files.old) (F.disk files.new)) }
    ensures unchanged { FilesUnchanged (F.disk files.old) (F.disk files.new) }
{
    match file {
        NetworkFile::Blif(name) => blif::read(alloc, name.as_str(), files),
        NetworkFile::Aiger(name) => aiger::read(alloc, false, name.as_str(), files),
    }
}

// The graph of a file's network.
fn read_file<F: Files>(alloc: Global, file: &NetworkFile, files: &mut F) -> Result<Network, Refusal>
    ensures read { IfOk result (λ graph. IsReadFrom file.now (F.disk files.old) (graphs.network_of graph)) }
    ensures refused { IfErr result (IsNotRead file.now (F.disk files.old) (F.disk files.new)) }
    ensures unchanged { FilesUnchanged (F.disk files.old) (F.disk files.new) }
{
    match graph_in(alloc, file, files) {
        Ok(graph) => Ok(graph),
        Err(refusal) => Err(not_read_by(alloc, file, refusal)),
    }
}

// How two networks compare.
fn compared(
    alloc: Global,
    conflicts: u32,
    first: &Network,
    second: &Network,
) -> Result<Comparison, Refusal>
    ensures compared { IfOk result (AreCompared (graphs.network_of first.now) (graphs.network_of second.now)) }
    ensures refused { IfErr result (IsUnmatched (graphs.network_of first.now) (graphs.network_of second.now)) }
{
    match compare(alloc, first, second, conflicts) {
        Ok(comparison) => Ok(comparison),
        Err(CompareFault::NoMemory) => Err(Refusal::NoMemory),
        Err(fault) => Err(Refusal::Unmatched(fault)),
    }
}

// Puts how a network, whatever it is the graph of, compares with that of a file.
fn compare_with<F: Files, O: Sink>(
    alloc: Global,
    conflicts: u32,
    first: &Network,
    second: &NetworkFile,
    files: &mut F,
    out: &mut O,
) -> Result<(), Refusal>
    ensures put { (one : Option NetworkFile) (network : Option Written) (disk : Disk) → IsFirst one network disk (graphs.network_of first.now) → FilesUnchanged disk (F.disk files.old)
        → OnOk result (Compared one second.now network disk (O.screen out.old) (O.screen out.new)) }
    ensures refused { (one : Option NetworkFile) (network : Option Written) (disk : Disk) → IsFirst one network disk (graphs.network_of first.now) → FilesUnchanged disk (F.disk files.old)
        → IfErr result (CompareRefused one second.now network disk (F.disk files.new) (O.screen out.old) (O.screen out.new)) }
    ensures unchanged { FilesUnchanged (F.disk files.old) (F.disk files.new) }
{
    let other = read_file(alloc, second, files)?;
    let comparison = match compared(alloc, conflicts, first, &other) {
        Ok(comparison) => comparison,
        Err(cause) => return Err(cause),
    };
    let text = comparison_text(alloc, &first.frame, &comparison)?;
    put_text(text.as_slice(), out)
}

/// Puts how the networks of two files compare.
pub(crate) fn compare_files<F: Files, O: Sink>(
    alloc: Global,
    conflicts: u32,
    first: &NetworkFile,
    second: &NetworkFile,
    files: &mut F,
    out: &mut O,
) -> Result<(), Refusal>
    ensures put { (network : Option Written) → OnOk result (Compared (Some first.now) second.now network (F.disk files.old) (O.screen out.old) (O.screen out.new)) }
    ensures refused { (network : Option Written) → IfErr result (CompareRefused (Some first.now) second.now network (F.disk files.old) (F.disk files.new) (O.screen out.old) (O.screen out.new)) }
    ensures unchanged { FilesUnchanged (F.disk files.old) (F.disk files.new) }
{
    let graph = read_file(alloc, first, files)?;
    compare_with(alloc, conflicts, &graph, second, files, out)
}

/// Puts how a session's network compares with that of a file.
pub(crate) fn compare_network<F: Files, O: Sink>(
    alloc: Global,
    conflicts: u32,
    network: &HeldNetwork,
    second: &NetworkFile,
    files: &mut F,
    out: &mut O,
) -> Result<(), Refusal>
    requires small { IsSmall (network_of network.now) }
    ensures put { OnOk result (Compared None second.now (Some (network_of network.now)) (F.disk files.old) (O.screen out.old) (O.screen out.new)) }
    ensures refused { IfErr result (CompareRefused None second.now (Some (network_of network.now)) (F.disk files.old) (F.disk files.new) (O.screen out.old) (O.screen out.new)) }
    ensures unchanged { FilesUnchanged (F.disk files.old) (F.disk files.new) }
{
    match network {
        HeldNetwork::Graph(graph) => compare_with(alloc, conflicts, graph, second, files, out),
        HeldNetwork::Luts(net) => {
            let graph = graph_of(alloc, net)?;
            compare_with(alloc, conflicts, &graph, second, files, out)
        }
    }
}
