//! Netlists that are checked, with the order of their tables.

ghost use Rattle.std.specs.Prelude.{◌≡◌, IfErr, IfOk, None};
ghost use Rattle.syn_netlist.specs.Faults.{IsChecked, IsFault, IsTableOrder, PutsInOrder, first_undriven};
ghost use Rattle.syn_netlist.specs.Views.{netlist_in};

use crate::NetFault;
use crate::checks::order_driven;
use crate::netlists::Netlist;
use std::alloc::Global;
use syn_lists::Items;

/// A netlist in which each name that is read is defined, with an order of its tables: in turn, each after the tables of
/// its inputs in turn. Whoever holds one need not look for the order again.
#[derive(Debug, Drop)]
pub struct CheckedNetlist {
    /// The netlist.
    pub netlist: Netlist,
    /// The numbers of all its tables: each table reads sources or outputs of tables before it.
    pub order: Items<u32>,
    // Each name that is read is defined, and the numbers put the tables in order.
    pub ghost in_order: { IsTableOrder (netlist_in netlist) order },
}

impl CheckedNetlist {
    /// A netlist in which each name that is read is defined, checked; or the circle of its tables.
    pub fn of_driven(netlist: Netlist, alloc: Global) -> Result<CheckedNetlist, NetFault>
        requires driven { first_undriven (netlist_in netlist) ≡ None }
        ensures netlist { IfOk result (λ checked. checked.netlist ≡ netlist) }
        ensures fault { IfErr result (IsFault (netlist_in netlist)) }
    {
        let order = order_driven(alloc, &netlist)?;
        Ok(CheckedNetlist {
            netlist,
            order: Items::of(order),
        })
    }

    /// The order puts the tables in order.
    pub fn is_in_order(&self)
        ensures { PutsInOrder (netlist_in self.now.netlist) self.now.order }
    {}

    /// The netlist has no fault.
    pub fn is_checked(&self)
        ensures { IsChecked (netlist_in self.now.netlist) }
    {}
}
