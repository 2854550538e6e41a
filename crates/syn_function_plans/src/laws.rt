//! What ties the class of a function, and the transform to it, to transforms.

ghost use Rattle.syn_function_plans.specs.Laws.{ClassOfFunction};

/// The class of a function, and the first transform to it, are the least image and its place.
pub fn class_of_function()
    ensures { ClassOfFunction }
{}
