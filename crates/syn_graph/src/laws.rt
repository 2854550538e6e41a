//! Laws on graphs in place of others. A function's clause is the law; it computes nothing.

ghost use Rattle.syn_graph.specs.Relations.{SameFunctionGoesOn};

/// What has the function of a graph that has the function of another has that one's.
pub fn same_function_goes_on()
    ensures { SameFunctionGoesOn }
{}
