//! What holds of all factored functions.

ghost use Rattle.syn_plan.specs.Factoring.{FactoredTruth};
ghost use Rattle.syn_plan.specs.Naming.{FactoredNames, NeededWithin};

/// Factoring a function, in any order that names each variable once, builds that function.
pub fn factored_truth()
    ensures { FactoredTruth }
{}

/// Factoring a function, in any order that names each variable once, names only variables on which the
/// function depends.
pub fn factored_names()
    ensures { FactoredNames }
{}

/// A plan that names only variables on which its function depends, names no leaf behind the first so many
/// where the function depends on none of them.
pub fn needed_within()
    ensures { NeededWithin }
{}
