//! From a netlist to its graph.

ghost use Rattle.std.specs.Prelude.{◌≡◌, ◌+◌, ◌<◌, ◌≤◌, ◌^◌, length, IfOk, true};
ghost use Rattle.syn_rows.specs.declared.TheConstants.{NODE_LIMIT};
ghost use Rattle.syn_rows.specs.Values.{rows_function};
ghost use Rattle.syn_netlist.specs.Frames.{frame_in};
ghost use Rattle.syn_netlist.specs.Lists.{own_names, sources};
ghost use Rattle.syn_netlist.specs.Views.{netlist_in};
ghost use Rattle.syn_netlist.specs.Faults.{IsChecked, PutsInOrder};
ghost use Rattle.syn_netlist.specs.Costs.{cost_of};
ghost use Rattle.syn_netlist.specs.Values.{HasFunction};
ghost use Rattle.syn_network.specs.Written.{network_of};
ghost use Rattle.syn_build.specs.Building.{IsGraphOf};

use crate::tables::{Built, build_tables};
use std::alloc::{AllocError, Global};
use syn_netlist::{CheckedNetlist, NetFault, Netlist};
use syn_network::{Network, finish};

/// The graph of a netlist without a fault: its tables are built in file order, each after the tables of its inputs in
/// input order, and the rows that no observed signal reaches are dropped. Of the names the graph keeps those of its
/// sources and observed signals. The only error is want of memory.
///
/// The order of the tables is looked for; `build_checked` takes it from beside the netlist.
pub fn build(alloc: Global, netlist: &Netlist) -> Result<Network, AllocError>
    requires checked { IsChecked (netlist_in netlist.now) }
    requires room { length (sources (frame_in netlist.now.frame)) + cost_of (netlist_in netlist.now) + 2 < NODE_LIMIT }
    requires names { length netlist.now.frame.names < 2 ^ 31 }
    ensures network { IfOk result (λ graph. IsGraphOf (netlist_in netlist.now) (network_of graph)) }
    ensures function { IfOk result (λ graph. HasFunction (netlist_in netlist.now) (rows_function graph.body.rows graph.body.observed)) }
    ensures few { IfOk result (λ graph. length graph.body.rows ≤ length (sources (frame_in netlist.now.frame)) + 1 + cost_of (netlist_in netlist.now)) }
    ensures names { IfOk result (λ graph. graph.frame.names ≡ own_names (frame_in netlist.now.frame)) }
{
    let order = making_order(alloc, netlist)?;
    build_in_order(alloc, netlist, order.as_slice())
}

/// The graph of a checked netlist, as `build` makes it. The tables are built in the order that stands beside the netlist.
pub fn build_checked(alloc: Global, checked: CheckedNetlist) -> Result<Network, AllocError>
    requires room { length (sources (frame_in checked.netlist.frame)) + cost_of (netlist_in checked.netlist) + 2 < NODE_LIMIT }
    requires names { length checked.netlist.frame.names < 2 ^ 31 }
    ensures network { IfOk result (λ graph. IsGraphOf (netlist_in checked.netlist) (network_of graph)) }
    ensures function { IfOk result (λ graph. HasFunction (netlist_in checked.netlist) (rows_function graph.body.rows graph.body.observed)) }
    ensures few { IfOk result (λ graph. length graph.body.rows ≤ length (sources (frame_in checked.netlist.frame)) + 1 + cost_of (netlist_in checked.netlist)) }
    ensures names { IfOk result (λ graph. graph.frame.names ≡ own_names (frame_in checked.netlist.frame)) }
{
    checked.is_in_order();
    build_in_order(alloc, &checked.netlist, checked.order.as_slice())
}

// The graph of a netlist whose tables are built in this order.
fn build_in_order(alloc: Global, netlist: &Netlist, order: &[u32]) -> Result<Network, AllocError>
    requires order { PutsInOrder (netlist_in netlist.now) order.now }
    requires room { length (sources (frame_in netlist.now.frame)) + cost_of (netlist_in netlist.now) + 2 < NODE_LIMIT }
    requires names { length netlist.now.frame.names < 2 ^ 31 }
    ensures network { IfOk result (λ graph. IsGraphOf (netlist_in netlist.now) (network_of graph)) }
    ensures function { IfOk result (λ graph. HasFunction (netlist_in netlist.now) (rows_function graph.body.rows graph.body.observed)) }
    ensures few { IfOk result (λ graph. length graph.body.rows ≤ length (sources (frame_in netlist.now.frame)) + 1 + cost_of (netlist_in netlist.now)) }
    ensures names { IfOk result (λ graph. graph.frame.names ≡ own_names (frame_in netlist.now.frame)) }
{
    syn_network::network_of_graph();
    syn_network::graph_has_function();
    syn_netlist::same_from_function();
    let built = build_tables(alloc, netlist, order)?;
    let frame = netlist.frame.over_own_names(alloc)?;
    let Built { hashed, observed } = built;
    let graph = finish(alloc, frame, hashed, observed.as_slice())?;
    Ok(graph)
}

// The numbers of the tables in the order in which they are made: in file order, each after the tables of its inputs in
// input order.
fn making_order(alloc: Global, netlist: &Netlist) -> Result<Vec<u32>, AllocError>
    requires { IsChecked (netlist_in netlist.now) }
    ensures { IfOk result (λ order. PutsInOrder (netlist_in netlist.now) order.items) }
{
    syn_netlist::checked_has_no_fault();
    match syn_netlist::table_order(netlist, alloc) {
        Ok(order) => Ok(order),
        Err(NetFault::NoMemory) => Err(AllocError),
        Err(_) => unreachable!(),
    }
}
