//! Laws on written netlists.

ghost use Rattle.syn_netlist.specs.Views.{netlist_in};
ghost use Rattle.syn_text.specs.WellFormed.{IsWellFormed, LutsAreChecked, PrintedReads, ShapedIsChecked};

use syn_netlist::Netlist;

/// What the type of netlists keeps: the netlist in words that one by numbers stands for can be written. It computes nothing.
pub fn well_formed(netlist: &Netlist)
    ensures { IsWellFormed (netlist_in netlist.now) }
{
    netlist.frame.names.len();
}

/// The bytes that a well-formed netlist without a fault is written as read as that netlist.
pub fn printed_reads()
    ensures { PrintedReads }
{}

/// An ordered netlist of graph shape has no fault.
pub fn shaped_is_checked()
    ensures { ShapedIsChecked }
{}

/// An ordered netlist of LUT shape has no fault.
pub fn luts_are_checked()
    ensures { LutsAreChecked }
{}
