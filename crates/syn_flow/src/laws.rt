//! Laws of labels, paths and coverings. Each function's clause is the law; it computes nothing.

ghost use Rattle.syn_flow.specs.Coverings.{BorneOutBoundCoverings, BorneOutBoundLuts, MappingIsCovering};
ghost use Rattle.syn_flow.specs.Labels.{OneFlowLabels};
ghost use Rattle.syn_flow.specs.Witness.{BorneOutBoundCuts};

/// Labels that paths bear out undercut no cut: over at most k leaves the label of an AND is at most one more than the greatest
/// of a leaf.
pub fn borne_out_bound_cuts()
    ensures { BorneOutBoundCuts }
{}

/// Labels that paths bear out undercut no LUT of a covering: none lies less deep than the label of its node.
pub fn borne_out_bound_luts()
    ensures { BorneOutBoundLuts }
{}

/// Labels that paths bear out undercut no covering: none is shallower than the label of an observed node.
pub fn borne_out_bound_coverings()
    ensures { BorneOutBoundCoverings }
{}

/// Hashed rows have at most one labelling by flow.
pub fn one_flow_labels()
    ensures { OneFlowLabels }
{}

/// The LUTs of cuts of at most k leaves are a covering.
pub fn mapping_is_covering()
    ensures { MappingIsCovering }
{}
