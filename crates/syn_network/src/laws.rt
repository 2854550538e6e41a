//! Laws on networks, and on netlists of graph shape and of LUT shape. Each function's clause is the law; it computes nothing.

ghost use Rattle.syn_network.specs.GraphShape.{GraphCountsAnds, GraphHasFunction};
ghost use Rattle.syn_network.specs.Laws.{MappedKeepsMeaning, NamesStay, SameFunctionKeepsMeaning};
ghost use Rattle.syn_network.specs.LutShape.{LutsHaveFunction};
ghost use Rattle.syn_network.specs.LutSpelling.{NetworkOfLuts};
ghost use Rattle.syn_network.specs.Spelling.{NetworkOfGraph};
ghost use Rattle.syn_network.specs.WorkedLuts.{Worked};

/// An ordered netlist of graph shape has the function of the rows that its tables spell, and these are in order.
pub fn graph_has_function()
    ensures { GraphHasFunction }
{
    syn_rows::one_valuation();
    syn_netlist::ordered_has_one();
}

/// The number of two-input tables of an ordered netlist of graph shape is the number of reached ANDs of its rows.
pub fn graph_counts_ands()
    ensures { GraphCountsAnds }
{
    syn_rows::has_ands();
}

/// The netlist of a graph is ordered and has graph shape; it spells the graph's rows and literals, and has a two-input table for each AND.
pub fn network_of_graph()
    ensures { NetworkOfGraph }
{}

/// Names fit what is put in place of a graph.
pub fn names_stay()
    ensures { NamesStay }
{}

/// The netlist of a graph of the same function means the same.
pub fn same_function_keeps_meaning()
    ensures { SameFunctionKeepsMeaning }
{
    network_of_graph();
    graph_has_function();
    syn_netlist::same_from_function();
}

/// An ordered netlist of LUT shape has the function of the LUTs that its tables spell.
pub fn luts_have_function()
    ensures { LutsHaveFunction }
{
    syn_netlist::ordered_has_one();
}

/// The netlist of a LUT net is ordered, spells the net, and has LUT shape for each k that no LUT exceeds; its LUTs, depth and gates are the net's.
pub fn network_of_luts()
    ensures { NetworkOfLuts }
{}

/// The netlist of a LUT net of a graph's function means the same as the graph's.
pub fn mapped_keeps_meaning()
    ensures { MappedKeepsMeaning }
{
    network_of_graph();
    graph_has_function();
    network_of_luts();
    luts_have_function();
    syn_netlist::same_from_function();
}

/// A worked LUT net has the function, depth, gates and tables that were worked out by hand.
pub fn worked_luts()
    ensures { Worked }
{}
