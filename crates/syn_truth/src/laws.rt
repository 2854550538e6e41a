//! What holds of all truth tables.

ghost use Rattle.syn_truth.specs.Truth.{EachMinterm, OneTable};

/// Tables of as many variables with the same values are one table.
pub fn one_table()
    ensures { OneTable }
{}

/// Each minterm is that of one list of values.
pub fn each_minterm()
    ensures { EachMinterm }
{}
