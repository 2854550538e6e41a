//! What holds of all cuts.

ghost use Rattle.syn_cones.specs.Laws.{AllFitBetween, FanInsAreCut, FitsPastMore, LeafMayBeReplaced};
ghost use Rattle.syn_cones.specs.Values.{TruthIsValueOver};

/// The two fan-ins of an AND are a cut of it.
pub fn fan_ins_are_cut()
    ensures { FanInsAreCut }
{}

/// A cut stays one where a leaf that is an AND is replaced by its fan-ins.
pub fn leaf_may_be_replaced()
    ensures { LeafMayBeReplaced }
{}

/// A valuation that fits all rows fits those between a root and leaves.
pub fn all_fit_between()
    ensures { AllFitBetween }
{}

/// The truth of a node over rising leaves below it has the values that are computed row by row.
pub fn truth_is_value_over()
    ensures { TruthIsValueOver }
{}

/// What fits between a root and more leaves than those of a cut fits between it and the cut, where none of them is a node
/// between; so the function over more leaves is that over the cut.
pub fn fits_past_more()
    ensures { FitsPastMore }
{}
