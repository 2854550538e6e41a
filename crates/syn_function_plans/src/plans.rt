//! The plans of functions of four variables.

ghost use Rattle.std.specs.Prelude.{◌≡◌, All, map};
ghost use Rattle.syn_function_plans.specs.PlansOf.{ArePlansOf};

use arrayvec::ArrayVec;
use syn_library::{Prepared, fit};
use syn_plan::Plan;

/// The plans of a function: each plan of its class, fitted by the first transform to it, in order.
pub fn plans_of(classes: &Prepared, function: u16) -> ArrayVec<Plan, 4>
    ensures { ArePlansOf function result.items }
{
    let (found, transform) = classes.plans(function);
    let mut fitted = ArrayVec::new();
    for plan in found.plans.iter() {
        fitted.push(fit(plan, transform));
    }
    fitted
}
