//! The sweep of latches.

ghost use Rattle.std.specs.Prelude.{◌≡◌, ◌≤◌, length, IfOk, false};
ghost use Rattle.syn_netlist.specs.Frames.{frame_in};
ghost use Rattle.syn_netlist.specs.Lists.{own_names};
ghost use Rattle.syn_network.specs.Written.{network_of};
ghost use Rattle.syn_rows.specs.Reach.{IsReachedSet};
ghost use Rattle.syn_rows.specs.Values.{value_in};
ghost use Rattle.syn_seq.specs.Code.{Answers, AreLits, IsPartOf, all_kept};
ghost use Rattle.syn_seq.specs.Rounds.{AreFates};
ghost use Rattle.syn_seq.specs.Sweeping.{IsSwept, IsSweepOf, needing_rows, output_lits};

use crate::Fate;
use crate::checks::are_right;
use crate::fates::{all_kept, fates};
use crate::guesses::guessed;
use crate::kept_graph::remade;
use crate::needs::needed;
use crate::signals::literals;
use std::alloc::{AllocError, Global};
use syn_network::Network;
use syn_rows::Lit;

// Guessed fates of all rounds together where they are right and not all latches are kept, else the given ones.
fn further(
    alloc: Global,
    graph: &Network,
    lits: &[Lit],
    needed: &[bool],
    fates: Vec<Fate>,
) -> Result<Vec<Fate>, AllocError>
    requires count { length lits.now ≡ length graph.now.frame.names }
    requires lits { AreLits (network_of graph.now) graph.now.frame.names lits.now }
    requires length { length needed.now ≡ length graph.now.body.rows }
    requires needed { IsReachedSet (needing_rows (network_of graph.now)) (output_lits (network_of graph.now)) (value_in needed.now) }
    requires fates { AreFates (network_of graph.now) fates.items }
    requires some { all_kept fates.items ≡ false }
    ensures fates { IfOk result (λ v. AreFates (network_of graph.now) v.items) }
    ensures some { IfOk result (λ v. all_kept v.items ≡ false) }
{
    let guess = guessed(alloc, graph, lits, needed)?;
    if !all_kept(guess.as_slice()) && are_right(alloc, graph, guess.as_slice(), needed)? {
        return Ok(guess);
    }
    Ok(fates)
}

#[tactic(auto, using(crate::proofs::Sweeps::is_round))]
// One round, with what later ones would do of the same: none where nothing is left to sweep.
fn round(alloc: Global, graph: &Network) -> Result<Option<Network>, AllocError>
    ensures { IfOk result (Answers graph.now) }
{
    syn_network::network_of_graph();
    let lits = literals(alloc, graph)?;
    let needed = needed(alloc, graph, lits.as_slice())?;
    let fates = fates(alloc, graph, lits.as_slice(), needed.as_slice())?;
    if all_kept(fates.as_slice()) {
        return Ok(None);
    }
    let fates = further(alloc, graph, lits.as_slice(), needed.as_slice(), fates)?;
    let next = remade(alloc, graph, lits.as_slice(), fates.as_slice())?;
    Ok(Some(next))
}

#[tactic(auto, using(crate::proofs::Sweeps::part_self, crate::proofs::Sweeps::part_then))]
// Rounds, until nothing is left to sweep.
fn rounds(alloc: Global, graph: Network) -> Result<Network, AllocError>
    ensures part { IfOk result (λ g. IsPartOf graph g) }
    ensures swept { IfOk result (λ g. IsSwept (network_of g)) }
{
    syn_network::network_of_graph();
    let mut graph = graph;
    loop {
        match round(alloc, &graph) {
            Ok(Some(next)) => graph = next,
            Ok(None) => return Ok(graph),
            Err(error) => {
                drop(graph);
                return Err(error);
            }
        }
    }
}

// The network over its own names alone.
fn over_own_names(alloc: Global, graph: Network) -> Result<Network, AllocError>
    ensures same { IfOk result (λ g. network_of g ≡ network_of graph) }
    ensures names { IfOk result (λ g. g.frame.names ≡ own_names (frame_in graph.frame)) }
    ensures few { IfOk result (λ g. length g.frame.names ≤ length graph.frame.names) }
{
    match graph.frame.over_own_names(alloc) {
        Ok(own) => {
            let Network { frame, body } = graph;
            drop(frame);
            Ok(Network::of(own, body))
        }
        Err(error) => {
            drop(graph);
            Err(error)
        }
    }
}

#[tactic(auto, using(crate::proofs::Sweeps::part_self, crate::proofs::Sweeps::part_then, crate::proofs::Sweeps::sweep_of))]
// What further rounds leave, over its own names.
fn swept(alloc: Global, graph: Network) -> Result<Network, AllocError>
    ensures part { IfOk result (λ g. IsPartOf graph g) }
    ensures swept { IfOk result (λ g. IsSwept (network_of g)) }
{
    let graph = rounds(alloc, graph)?;
    over_own_names(alloc, graph)
}

#[tactic(auto, using(crate::proofs::Sweeps::part_self, crate::proofs::Sweeps::part_then, crate::proofs::Sweeps::sweep_of))]
/// The network without latches that no output needs, and with one for all that load alike and begin with the same value, 0
/// or 1: in rounds, until nothing is left to sweep. The only error is want of memory.
pub fn sweep(alloc: Global, graph: &Network) -> Result<Network, AllocError>
    ensures swept { IfOk result (λ g. IsSweepOf (network_of graph.now) (network_of g)) }
    ensures few { IfOk result (λ g. length g.frame.names ≤ length graph.now.frame.names) }
{
    syn_network::network_of_graph();
    match round(alloc, graph)? {
        None => graph.copy(alloc),
        Some(next) => swept(alloc, next),
    }
}
