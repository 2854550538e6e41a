//! What follows of a run.

ghost use Rattle.syn_shell.specs.LineMode.{FewLines};
ghost use Rattle.syn_shell.specs.Makes.{AreaIsNoWorse};
ghost use Rattle.syn_shell.specs.Origins.{EachWriteKeeps};

/// A run of lines runs at most 1,048,576 of them; one more is taken only to be refused.
pub fn few_lines()
    ensures { FewLines }
{}

/// Mapping for few LUTs makes none deeper of a graph than plain mapping does, and no more of them where all cost the same.
pub fn area_is_no_worse()
    ensures { AreaIsNoWorse }
{}

/// Each write of a run, in either format, gives a netlist that means the same as the one that was read or generated last
/// before it, which there is, and that reads only earlier signals. A BLIF file reads back as it; an AIGER file, which its
/// bytes spell, keeps what it means. Where latches were swept since, it gives the same outputs over every sequence of inputs.
pub fn each_write_keeps()
    ensures { EachWriteKeeps }
{
    syn_netlist::same_is_transitive();
    syn_seq::sequential_is_transitive();
    syn_seq::same_meaning_is_sequential();
    syn_network::graph_has_function();
    syn_netlist::same_from_function();
}
