//! The netlist of models, flattened and checked.

ghost use Rattle.std.specs.Prelude.{◌≡◌, ◌<◌, ◌^◌, length, map, None, IfErr, IfOk, IfSome, OnOk};
ghost use Rattle.syn_models.specs.Answers.{models_in};
ghost use Rattle.syn_models.specs.FlatFaults.{Flattens, WithinWords};
ghost use Rattle.syn_netlist.specs.Costs.{cost_of};
ghost use Rattle.syn_netlist.specs.Faults.{first_undriven};
ghost use Rattle.syn_netlist.specs.Lists.{sources};
ghost use Rattle.syn_netlist.specs.Views.{netlist_in};
ghost use Rattle.syn_reader.specs.Causes.{fault_in};
ghost use Rattle.syn_reader.specs.Faults.{models_fault};
ghost use Rattle.syn_reader.specs.Limits.{IsModelsFault, IsNetFault, NetWithin};

use crate::ReadFault;
use crate::alone::flatten_owned;
use std::alloc::{AllocError, Global};
use syn_models::{FlatFault, Models};
use syn_netlist::{CheckedNetlist, NetFault, Netlist, cost};

/// The most sources of a netlist that is read.
pub const MAX_SOURCES: u32 = 1_048_576;

/// The greatest cost of a netlist that is read.
pub const MAX_COST: u64 = 4_194_304;

// A fault of models as subcircuits of each other, as a fault of their file.
fn of_models(fault: FlatFault) -> ReadFault
    ensures { fault_in result ≡ models_fault fault }
{
    match fault {
        FlatFault::UnknownModel(line) => ReadFault::UnknownModel(line),
        FlatFault::UnknownPort(line, formal) => ReadFault::UnknownPort(line, formal),
        FlatFault::PortMissing(line, port) => ReadFault::PortMissing(line, port),
        FlatFault::DefinedTwice(line, name) => ReadFault::DefinedTwice(line, name),
        FlatFault::Undriven(name) => ReadFault::Undriven(name),
        FlatFault::Recursion(names) => ReadFault::Recursion(names),
        FlatFault::TooManyWords(count) => ReadFault::TooManyWords(count),
        FlatFault::NoMemory => ReadFault::NoMemory,
    }
}

/// The netlist that models are flattened to; or else their first fault.
pub(crate) fn flat(alloc: Global, models: Models) -> Result<Netlist, ReadFault>
    ensures netlist { IfOk result (λ n. Flattens (models_in models.models) (netlist_in n)) }
    ensures within { OnOk result (WithinWords (models_in models.models)) }
    ensures names { IfOk result (λ n. length n.frame.names < 2 ^ 31) }
    ensures fault { IfErr result (λ e. IfSome (fault_in e) (IsModelsFault (models_in models.models))) }
{
    match flatten_owned(alloc, models) {
        Ok(netlist) => Ok(netlist),
        Err(fault) => Err(of_models(fault)),
    }
}

// A netlist that defines all that it reads, with the order of its tables; else the circle.
fn check_order(alloc: Global, n: Netlist) -> Result<CheckedNetlist, ReadFault>
    requires { first_undriven (netlist_in n) ≡ None }
    ensures netlist { IfOk result (λ checked. checked.netlist ≡ n) }
    ensures fault { IfErr result (λ e. IfSome (fault_in e) (IsNetFault (netlist_in n))) }
{
    match CheckedNetlist::of_driven(n, alloc) {
        Ok(checked) => Ok(checked),
        Err(NetFault::Undriven(name)) => Err(ReadFault::Undriven(name)),
        Err(NetFault::Cycle(names)) => Err(ReadFault::Cycle(names)),
        Err(NetFault::NoMemory) => Err(ReadFault::NoMemory),
    }
}

// How many sources a netlist has.
fn source_count(alloc: Global, n: &Netlist) -> Result<u32, AllocError>
    ensures { IfOk result (λ count. count ≡ length (sources (netlist_in n.now).frame)) }
{
    let _count = n.frame.names.len();
    let sources = n.frame.sources(alloc)?;
    Ok(sources.len() as u32)
}

// Whether a checked netlist is within the limits; else too many sources, or else too great a cost.
fn check_limits(alloc: Global, n: &CheckedNetlist) -> Result<(), ReadFault>
    requires { cost_of (netlist_in n.now.netlist) < 2 ^ 64 }
    ensures within { OnOk result (NetWithin (netlist_in n.now.netlist)) }
    ensures fault { IfErr result (λ e. IfSome (fault_in e) (IsNetFault (netlist_in n.now.netlist))) }
{
    n.is_checked();
    let count = source_count(alloc, &n.netlist)?;
    if count > MAX_SOURCES {
        return Err(ReadFault::TooManySources(count));
    }
    let total = cost(&n.netlist);
    if total > MAX_COST {
        return Err(ReadFault::TooLarge(total));
    }
    Ok(())
}

/// A netlist that defines all that it reads, with the order of its tables, where it is within the limits; or else a circle
/// of tables, too many sources or too great a cost.
pub(crate) fn check_flat(alloc: Global, n: Netlist) -> Result<CheckedNetlist, ReadFault>
    requires driven { first_undriven (netlist_in n) ≡ None }
    requires cost { cost_of (netlist_in n) < 2 ^ 64 }
    ensures netlist { IfOk result (λ checked. checked.netlist ≡ n) }
    ensures within { OnOk result (NetWithin (netlist_in n)) }
    ensures fault { IfErr result (λ e. IfSome (fault_in e) (IsNetFault (netlist_in n))) }
{
    let checked = check_order(alloc, n)?;
    check_limits(alloc, &checked)?;
    Ok(checked)
}
