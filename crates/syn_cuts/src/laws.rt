//! Laws of listed cuts, and worked cuts.

ghost use Rattle.syn_cuts.specs.Laws.{ArrangedInOrder, ListedAreCuts, ListedCutsRise, SignaturesBoundUnions};
ghost use Rattle.syn_cuts.specs.Worked.{Worked};

/// The definition lists the wanted cuts of a worked graph.
pub fn worked_cuts()
    ensures { Worked }
{}

/// Each listed cut of a node is a cut of it.
pub fn listed_are_cuts()
    ensures { ListedAreCuts }
{}

/// Arranged cuts are in order, each once, and are the cuts that were arranged.
pub fn arranged_in_order()
    ensures { ArrangedInOrder }
{}

/// Each listed cut of an AND of hashed rows rises, lies below it and has 2 to k leaves, but the last, the node alone.
pub fn listed_cuts_rise()
    ensures { ListedCutsRise }
{}

/// Where the signatures of two cuts have together more than k bits, their union has more than k leaves.
pub fn signatures_bound_unions()
    ensures { SignaturesBoundUnions }
{}
