//! The lines that are printed.

ghost use Rattle.std.specs.Prelude.{◌≡◌, ℕ, ◌++◌, ◌<◌, ◌^◌, List, [], ◌∷◌, All, codes, decimal, length, map, max, IfOk, IfErr, OnErr, OnOk, Some};
ghost use Rattle.syn_io.specs.Outside.{Rose};
ghost use Rattle.syn_rows.specs.Rows.{node_of};
ghost use Rattle.syn_rows.specs.Levels.{level_in, levels_of};
ghost use Rattle.syn_netlist.specs.Frames.{frame_in};
ghost use Rattle.syn_netlist.specs.Lists.{Frame};
ghost use Rattle.syn_network.specs.Written as graphs;
ghost use Rattle.syn_network.specs.WrittenLuts as luts;
ghost use Rattle.syn_report.specs.Levels.{greatest};
ghost use Rattle.syn_shell.specs.Lines.{IsGraphLine, IsLutsLine, IsStatsLine, numbers_text};
ghost use Rattle.syn_shell.specs.Outside.{Took};
ghost use Rattle.syn_shell.specs.Networks.{network_of};
ghost use Rattle.syn_shell.specs.Steps.{PrintRefused};

use crate::network::HeldNetwork;
use crate::refusal::Refusal;
use std::alloc::{AllocError, Global};
use syn_graph::Graph;
use syn_io::Sink;
use syn_netlist::Frame;
use syn_network::{LutNetwork, Network};
use syn_report::{push_counted, push_text};
use syn_rows::Lit;

// The greatest level of the literals' nodes.
fn greatest_level(levels: &[u32], lits: &[Lit]) -> u32
    requires { All (λ l. node_of l < length levels.now) lits.now }
    ensures { result ≡ greatest (map (λ l. level_in levels.now (node_of l)) lits.now) }
{
    let mut best: u32 = 0;
    for lit in lits {
        best = best.max(levels[lit.node() as usize]);
    }
    best
}

// How deep a graph is: the greatest level of an observed node.
fn depth(alloc: Global, graph: &Graph) -> Result<u32, AllocError>
    ensures { IfOk result (λ depth. depth ≡ greatest (map (λ l. level_in (levels_of graph.now.rows) (node_of l)) graph.now.observed)) }
{
    let levels = syn_rows::levels(alloc, graph.rows.as_slice())?;
    Ok(greatest_level(levels.as_slice(), graph.observed.as_slice()))
}

// The line's text, up to the number of latches.
fn push_signals(line: &mut Vec<u8>, frame: &Frame) -> Result<(), AllocError>
    ensures { OnOk result (line.new.items ≡ line.old.items ++ (frame_in frame.now).model ++ (codes " : i/o = " ++ decimal (length (frame_in frame.now).inputs))
        ++ (codes "/" ++ decimal (length (frame_in frame.now).outputs)) ++ (codes " lat = " ++ decimal (length (frame_in frame.now).latches))) }
{
    push_text(line, frame.model.as_slice())?;
    push_counted(line, b" : i/o = ", frame.inputs.as_slice().len() as u64)?;
    push_counted(line, b"/", frame.outputs.as_slice().len() as u64)?;
    push_counted(line, b" lat = ", frame.latches.as_slice().len() as u64)
}

// The line of a network with these numbers. The first is of its parts, behind what they are called.
fn numbers_line(
    alloc: Global,
    frame: &Frame,
    called: &[u8],
    count: u64,
    depth: u64,
) -> Result<Vec<u8>, AllocError>
    ensures { IfOk result (λ line. line.items ≡ numbers_text (frame_in frame.now) called.now count depth) }
{
    let mut line = Vec::new(alloc);
    push_signals(&mut line, frame)?;
    push_counted(&mut line, called, count)?;
    push_counted(&mut line, b" lev = ", depth)?;
    line.push(b'\n')?;
    Ok(line)
}

// The line of a graph.
fn graph_line(alloc: Global, network: &Network) -> Result<Vec<u8>, AllocError>
    ensures { IfOk result (λ line. IsGraphLine (graphs.network_of network.now) line.items) }
{
    let graph = &network.body;
    let depth = depth(alloc, graph)?;
    let ands = graph.rows.as_slice().len() - graph.source_count as usize - 1;
    syn_network::network_of_graph();
    syn_network::graph_counts_ands();
    let line = numbers_line(alloc, &network.frame, b" and = ", ands as u64, depth as u64)?;
    Ok(line)
}

// The line of a net of LUTs.
fn luts_line(alloc: Global, network: &LutNetwork) -> Result<Vec<u8>, AllocError>
    ensures { IfOk result (λ line. IsLutsLine (luts.network_of network.now) line.items) }
{
    syn_network::network_of_luts();
    let depth = network.body.depth(alloc)?;
    let count = network.body.count();
    let line = numbers_line(
        alloc,
        &network.frame,
        b" lut = ",
        count as u64,
        depth as u64,
    )?;
    Ok(line)
}

// The network's line.
fn network_line(alloc: Global, network: &HeldNetwork) -> Result<Vec<u8>, AllocError>
    ensures { IfOk result (λ line. IsStatsLine (network_of network.now) line.items) }
{
    match network {
        HeldNetwork::Graph(network) => graph_line(alloc, network),
        HeldNetwork::Luts(network) => luts_line(alloc, network),
    }
}

/// Prints the network's line.
pub(crate) fn print_stats<O: Sink>(
    alloc: Global,
    network: &HeldNetwork,
    out: &mut O,
) -> Result<(), Refusal>
    ensures printed { OnOk result ((line : List ℕ) × IsStatsLine (network_of network.now) line × Took line (O.screen out.old) (O.screen out.new)) }
    ensures refused { IfErr result (PrintRefused IsStatsLine (Some (network_of network.now)) (O.screen out.old) (O.screen out.new)) }
{
    let line = network_line(alloc, network)?;
    match out.put(line.as_slice()) {
        Ok(()) => Ok(()),
        Err(_) => Err(Refusal::SinkFailed),
    }
}
