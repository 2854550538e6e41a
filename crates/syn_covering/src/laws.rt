//! Laws of LUT nets over cuts. Each function's clause is the law; it computes nothing.

ghost use Rattle.syn_covering.specs.Mappings.{MappingFits, MappingHasDepth, MappingIsNet, MappingIsSmall, MappingKeepsFunction, MappingKeepsSources, NeededExist};

/// The LUTs of a graph's cuts have the graph's function.
pub fn mapping_keeps_function()
    ensures { MappingKeepsFunction }
{}

/// An observed literal of a source stays.
pub fn mapping_keeps_sources()
    ensures { MappingKeepsSources }
{}

/// Their depth is the greatest label of an observed node, where the labels are the depths over the cuts.
pub fn mapping_has_depth()
    ensures { MappingHasDepth }
{}

/// None of them has more inputs than a cut has leaves at most.
pub fn mapping_fits()
    ensures { MappingFits }
{}

/// There are at most as many of them as reached ANDs.
pub fn mapping_is_small()
    ensures { MappingIsSmall }
{}

/// They are a LUT net over the graph's sources.
pub fn mapping_is_net()
    ensures { MappingIsNet }
{}

/// Over cuts that LUTs may read there are nodes that need LUTs, in order.
pub fn needed_exist()
    ensures { NeededExist }
{}
