//! What holds of all classes.

ghost use Rattle.syn_npn.specs.EachPermutation.{HasEachPermutation};
ghost use Rattle.syn_npn.specs.Transforms.{OneCanon};

/// A function has one class, and one transform that leads to it.
pub fn one_canon()
    ensures { OneCanon }
{}

/// The table of permutations has each permutation of four variables once, in lexicographic order.
pub fn each_permutation()
    ensures { HasEachPermutation }
{}
