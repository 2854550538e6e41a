//! What holds of every generated netlist.

ghost use Rattle.syn_gen.specs.Laws.{GeneratedCosts, GeneratedIsChecked, GeneratedOutputs};

/// A generated netlist is in order and has no fault.
pub fn generated_is_checked()
    ensures { GeneratedIsChecked }
{}

/// A generated netlist has sixteen sources, and costs at most 28 for each table.
pub fn generated_costs()
    ensures { GeneratedCosts }
{}

/// A generated netlist has no more outputs than tables.
pub fn generated_outputs()
    ensures { GeneratedOutputs }
{}
