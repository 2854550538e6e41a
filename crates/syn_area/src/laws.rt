//! Laws on the nodes of which LUTs are made, and on what LUTs cost. A function's clause is the law; it computes nothing.

ghost use Rattle.syn_area.specs.Areas.{CostNeverFalls};
ghost use Rattle.syn_area.specs.Plain.{NeededExist};

/// In hashed rows there are nodes that need LUTs over the cuts that `map` chooses, in order.
pub fn needed_exist()
    ensures { NeededExist }
{}

/// A LUT of more inputs costs no less.
pub fn cost_never_falls()
    ensures { CostNeverFalls }
{}
