//! Reading a file.

ghost use Rattle.std.specs.Prelude.{◌≡◌, ◌+◌, ◌^◌, ◌<◌, length, map, IfOk, IfErr, IfSome};
ghost use Rattle.syn_reader.specs.Causes.{NamesFirstFault};
ghost use Rattle.syn_reader.specs.Limits.{Within};
ghost use Rattle.syn_reader.specs.Reading.{Reads};
ghost use Rattle.syn_netlist.specs.Faults.{IsChecked};
ghost use Rattle.syn_models.specs.Views.{model_in};
ghost use Rattle.syn_reader.specs.Saying.{SpellsModels};
ghost use Rattle.syn_netlist.specs.Views.{netlist_in};

use crate::ReadFault;
use crate::checked::{check_flat, flat};
use crate::models::read_models;
use std::alloc::Global;
use syn_netlist::{CheckedNetlist, Netlist};

/// Reads the netlist that the bytes of a file spell, with the order of its tables, or names the file's first fault, as
/// `read` does.
pub fn read_checked(alloc: Global, bytes: &[u8]) -> Result<CheckedNetlist, ReadFault>
    requires { length bytes.now + 1 < 2 ^ 32 }
    ensures reads { IfOk result (λ checked. Reads bytes.now (netlist_in checked.netlist)) }
    ensures within { IfOk result (λ checked. Within bytes.now (netlist_in checked.netlist)) }
    ensures names { IfOk result (λ checked. length checked.netlist.frame.names < 2 ^ 31) }
    ensures fault { IfErr result (NamesFirstFault bytes.now) }
{
    let models = read_models(alloc, bytes)?;
    let netlist = flat(alloc, models)?;
    check_flat(alloc, netlist)
}

/// Reads the netlist that the bytes of a file spell, or names the file's first fault.
///
/// In a file that begins with `.model` each `.model` begins a model; any other file is one model. The first model is the
/// main one, and it is flattened: each subcircuit stands for the latches, tables and subcircuits of its model. The first
/// disallowed byte comes before all else; then the first line with a fault; then the first subcircuit with one; then the
/// first reading place, by model, line and word, whose name its model never defines; then models that contain each other;
/// then too many words of all instances; then a circle of tables; then too many sources; then too great a cost.
/// `NoMemory` comes only where memory was refused.
pub fn read(alloc: Global, bytes: &[u8]) -> Result<Netlist, ReadFault>
    requires { length bytes.now + 1 < 2 ^ 32 }
    ensures reads { IfOk result (λ n. Reads bytes.now (netlist_in n)) }
    ensures within { IfOk result (λ n. Within bytes.now (netlist_in n)) }
    ensures checked { IfOk result (λ n. IsChecked (netlist_in n)) }
    ensures names { IfOk result (λ n. length n.frame.names < 2 ^ 31) }
    ensures fault { IfErr result (NamesFirstFault bytes.now) }
{
    let checked = read_checked(alloc, bytes)?;
    checked.is_checked();
    let CheckedNetlist { netlist, order: _ } = checked;
    Ok(netlist)
}
