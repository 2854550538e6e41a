//! The plans of one class.

ghost use Rattle.std.specs.Prelude.{◌≡◌, All, map};
ghost use Rattle.syn_plan.specs.Naming.{built_of};
ghost use Rattle.syn_library.specs.Fitting.{Computes};
ghost use Rattle.syn_library.specs.Library.{NamesOwn, plans_of};

use crate::plans;
use arrayvec::ArrayVec;
use syn_plan::Plan;

/// The plans of a class.
#[derive(Drop)]
pub struct ClassPlans {
    pub class: u16,
    pub plans: ArrayVec<Plan, 4>,
    pub ghost of_class: { map built_of plans.items ≡ plans_of class },
    pub ghost leaves: { All (λ p. p.leaves ≡ 4) plans.items },
    pub ghost truth: { All (λ p. Computes p class) plans.items },
    pub ghost names: { All (λ p. NamesOwn p class) plans.items },
}

impl ClassPlans {
    pub(crate) fn of(class: u16) -> ClassPlans
        ensures { result.class ≡ class }
    {
        let plans = plans(class);
        ClassPlans { class, plans }
    }
}
