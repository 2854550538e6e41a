//! What the choice of the next leaf gives, and what growing ends with.

ghost use Rattle.syn_growing.specs.Laws.{ChoosesNextLeaf, CountsInnerNodes, GrowsUntilNone};

/// The leaf that is chosen gives the fewest leaves; of equals it is the greatest.
pub fn chooses_next_leaf()
    ensures { ChoosesNextLeaf }
{}

/// Growing goes on until no leaf may be replaced.
pub fn grows_until_none()
    ensures { GrowsUntilNone }
{}

/// A cone has at most 48 inner nodes, each counted once, and none of them a leaf.
pub fn counts_inner_nodes()
    ensures { CountsInnerNodes }
{}
