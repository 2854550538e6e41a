//! Laws of paths and cuts. Each function's clause is the law; it computes nothing.

ghost use Rattle.syn_paths.specs.LeastCuts.{OneLeastCut};
ghost use Rattle.syn_paths.specs.Paths.{DisjointMeetAtMost};

/// Paths that share no node, each of which meets one of some nodes, are no more than these nodes.
pub fn disjoint_meet_at_most()
    ensures { DisjointMeetAtMost }
{}

/// There is at most one least cut.
pub fn one_least_cut()
    ensures { OneLeastCut }
{}
