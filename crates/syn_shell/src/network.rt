//! The network that a session holds.

ghost use Rattle.std.specs.Prelude.{◌≡◌, ◌≤◌, IfErr, IfOk, OnOk, Some};
ghost use Rattle.syn_netlist.specs.Faults.{IsChecked};
ghost use Rattle.syn_netlist.specs.Views.{netlist_in};
ghost use Rattle.syn_build.specs.BuildFaults.{most_gates};
ghost use Rattle.syn_shell.specs.Networks.{IsSmall, network_of};
ghost use Rattle.syn_shell.specs.Makes.{Makes};
ghost use Rattle.syn_shell.specs.Steps.{gates_for, MakingRefused};

use crate::commands::{remade_luts, remake_graph};
use crate::refusal::Refusal;
use std::alloc::{AllocError, Global};
use std::thread::Threads;
use syn_commit::CommitHook;
use syn_netlist::Netlist;
use syn_network::{LutNetwork, Network};
use syn_text::{netlist_of, netlist_of_luts};
use syn_words::Recipe;
use syn_workers::Workers;

/// The network that a session holds: a graph, or a net of LUTs.
#[derive(Debug, Drop)]
pub(crate) enum HeldNetwork {
    Graph(Network),
    Luts(LutNetwork),
}

impl HeldNetwork {
    /// The netlist that it is written as.
    pub(crate) fn netlist(&self, alloc: Global) -> Result<Netlist, AllocError>
        ensures netlist { IfOk result (λ n. netlist_in n ≡ (network_of self.now).netlist) }
        ensures checked { IfOk result (λ n. IsChecked (netlist_in n)) }
    {
        match self {
            HeldNetwork::Graph(network) => netlist_of(alloc, network),
            HeldNetwork::Luts(network) => netlist_of_luts(alloc, network),
        }
    }

    /// Makes it anew by a recipe, with so many workers where this names none. Refused, it stays.
    pub(crate) fn remake<R: Threads + Sync, G: CommitHook>(
        &mut self,
        rt: &R,
        alloc: Global,
        recipe: &Recipe,
        workers: Workers,
        hook: &G,
    ) -> Result<(), Refusal>
        requires { IsSmall (network_of self.old) }
        ensures made { OnOk result (Makes recipe.now (network_of self.old) (network_of self.new)) }
        ensures gates { OnOk result (gates_for recipe.now (network_of self.old) ≤ most_gates) }
        ensures small { OnOk result (IsSmall (network_of self.new)) }
        ensures stays { IfErr result (λ cause. network_of self.new ≡ network_of self.old) }
        ensures refused { IfErr result (MakingRefused (gates_for recipe.now) (Some (network_of self.old))) }
    {
        match self {
            HeldNetwork::Graph(network) => {
                match remake_graph(rt, alloc, recipe, network, workers, hook)? {
                    None => Ok(()),
                    Some(luts) => {
                        *self = HeldNetwork::Luts(luts);
                        Ok(())
                    }
                }
            }
            HeldNetwork::Luts(net) => {
                *self = remade_luts(rt, alloc, recipe, net, workers, hook)?;
                Ok(())
            }
        }
    }
}
