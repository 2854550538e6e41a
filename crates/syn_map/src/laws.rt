//! Laws of labels and choices. Each function's clause is the law; it computes nothing.

ghost use Rattle.syn_map.specs.Labels.{ChoiceIsFirstLeast, LabelsAreLabels};
ghost use Rattle.syn_map.specs.Mappings.{ChosenAreLutCuts, LabelsAreDepths};
ghost use Rattle.syn_map.specs.Worked.{Worked};

/// The chosen cut is the first of those whose greatest label of a leaf is least.
pub fn choice_is_first_least()
    ensures { ChoiceIsFirstLeast }
{}

/// For hashed rows the computed labels are those that the rows give.
pub fn labels_are_labels()
    ensures { LabelsAreLabels }
{}

/// The chosen cuts of ANDs are cuts of 2 to k leaves that LUTs may read.
pub fn chosen_are_lut_cuts()
    ensures { ChosenAreLutCuts }
{}

/// The labels are the depths over the chosen cuts.
pub fn labels_are_depths()
    ensures { LabelsAreDepths }
{}

/// Labels and chosen cuts of a worked graph are as worked out by hand.
pub fn worked_labels()
    ensures { Worked }
{}
