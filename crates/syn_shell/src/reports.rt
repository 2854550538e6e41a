//! Texts that are put: how many observed signals have each level, seconds, and any other.

ghost use Rattle.std.specs.Prelude.{◌≡◌, ℕ, false, true, List, Option, IfErr, IfOk, OnOk, Some};
ghost use Rattle.syn_report.specs.Seconds.{seconds_text};
ghost use Rattle.syn_shell.specs.Lines.{IsLevelsText, levels_by};
ghost use Rattle.syn_shell.specs.Networks.{network_of};
ghost use Rattle.syn_shell.specs.Outside.{Took};
ghost use Rattle.syn_shell.specs.Steps.{PrintRefused, TextRefused, TimeRefused};

use crate::network::HeldNetwork;
use crate::refusal::Refusal;
use std::alloc::{AllocError, Global};
use std::time::{Clock, Instant};
use syn_io::Sink;
use syn_network::{LutNetwork, Network};
use syn_report::{graph_levels, levels_text, lut_levels, seconds_text};

/// Puts a text.
pub(crate) fn put_text<O: Sink>(text: &[u8], out: &mut O) -> Result<(), Refusal>
    ensures took { OnOk result (Took text.now (O.screen out.old) (O.screen out.new)) }
    ensures refused { IfErr result (TextRefused text.now (O.screen out.old) (O.screen out.new)) }
{
    match out.put(text) {
        Ok(()) => Ok(()),
        Err(_) => Err(Refusal::SinkFailed),
    }
}

// The levels of the observed signals of a graph.
fn levels_in_graph(alloc: Global, network: &Network) -> Result<Vec<u32>, AllocError>
    ensures { IfOk result (λ v. v.items ≡ levels_by false (network_of (HeldNetwork.Graph network.now)).netlist) }
{
    let levels = graph_levels(alloc, &network.body)?;
    syn_network::network_of_graph();
    Ok(levels)
}

// The depths of the observed signals of a net of LUTs.
fn levels_in_luts(alloc: Global, network: &LutNetwork) -> Result<Vec<u32>, AllocError>
    ensures { IfOk result (λ v. v.items ≡ levels_by true (network_of (HeldNetwork.Luts network.now)).netlist) }
{
    let levels = lut_levels(alloc, &network.body)?;
    syn_network::network_of_luts();
    Ok(levels)
}

// The text that tells how many observed signals of a network have each level.
fn levels_of(alloc: Global, network: &HeldNetwork) -> Result<Vec<u8>, AllocError>
    ensures { IfOk result (λ text. IsLevelsText (network_of network.now) text.items) }
{
    let levels = match network {
        HeldNetwork::Graph(network) => levels_in_graph(alloc, network),
        HeldNetwork::Luts(network) => levels_in_luts(alloc, network),
    };
    let levels = levels?;
    levels_text(alloc, levels.as_slice())
}

/// Puts how many observed signals of a network have each level.
pub(crate) fn print_levels<O: Sink>(
    alloc: Global,
    network: &HeldNetwork,
    out: &mut O,
) -> Result<(), Refusal>
    ensures put { OnOk result ((text : List ℕ) × IsLevelsText (network_of network.now) text × Took text (O.screen out.old) (O.screen out.new)) }
    ensures refused { IfErr result (PrintRefused IsLevelsText (Some (network_of network.now)) (O.screen out.old) (O.screen out.new)) }
{
    let text = levels_of(alloc, network)?;
    put_text(text.as_slice(), out)
}

/// What a clock tells, if anything.
pub(crate) fn clock_now<R: Clock>(rt: &R) -> Option<Instant> {
    match Instant::now(rt) {
        Ok(now) => Some(now),
        Err(_) => None,
    }
}

/// The hundredths of a second between two readings of a clock, where there are both.
pub(crate) fn hundredths_between(before: Option<Instant>, now: Option<Instant>) -> Option<u64> {
    let (Some(before), Some(now)) = (before, now) else {
        return None;
    };
    let hundredths = now.duration_since(before).as_millis() / 10;
    Some(hundredths.min(u64::MAX as u128) as u64)
}

/// Puts seconds.
pub(crate) fn print_seconds<O: Sink>(
    alloc: Global,
    hundredths: Option<u64>,
    out: &mut O,
) -> Result<(), Refusal>
    ensures put { OnOk result ((hundredths : Option ℕ) × Took (seconds_text hundredths) (O.screen out.old) (O.screen out.new)) }
    ensures refused { IfErr result (TimeRefused (O.screen out.old) (O.screen out.new)) }
{
    let text = seconds_text(alloc, hundredths)?;
    put_text(text.as_slice(), out)
}
