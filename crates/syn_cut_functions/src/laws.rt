//! What ties the function of a node over a cut to the node's table.

ghost use Rattle.syn_cut_functions.specs.Laws.{FunctionOfTable};

/// The table of a node over rising leaves below it has the node's function as its number.
pub fn function_of_table()
    ensures { FunctionOfTable }
{}
