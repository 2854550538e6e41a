//! Laws on LUTs. Each function's clause is the law; it computes nothing.

ghost use Rattle.syn_lutnet.specs.LutData.{DeepestIsObserved, OnesGiveTable};

/// The minterms of a table give its function.
pub fn ones_give_table()
    ensures { OnesGiveTable }
{}

/// Where every LUT is reached, the depth of a LUT net is that of its deepest observed signal.
pub fn deepest_is_observed()
    ensures { DeepestIsObserved }
{}
