//! The factored plans of the functions that were met, shared by all workers.
//!
//! A plan stands at one of a few places that its function tells, for good: the first worker that meets the function makes it. Where
//! these places have the plans of others, it is made each time.

ghost use Rattle.std.specs.Prelude.{◌≡◌, ◌<◌, true, IfOk, IfSome};
ghost use Rattle.syn_truth.specs.Truth.{AtEach, value_of};
ghost use Rattle.syn_plan.specs.Factoring.{factored, falling};
ghost use Rattle.syn_plan.specs.Plans.{plan_truth};
ghost use Rattle.syn_refactor.specs.Known.{IsFactored};

use once_cell::race::OnceBox;
use std::alloc::{AllocError, Global};
use syn_plan::{Plan, factor};
use syn_truth::Truth;

// How many plans are kept at most.
const PLACES: usize = 8192;

// At how many places the plan of a function may stand.
const TRIES: usize = 4;

// Odd numbers by which the words of a table are stirred.
const LOW_FACTOR: u128 = 0x9e37_79b9_7f4a_7c15_f39c_c060_5ced_c835;

const HIGH_FACTOR: u128 = 0xc2b2_ae3d_27d4_eb4f_1656_67b1_9e37_79f9;

/// The factored plan of a function.
#[derive(Drop)]
pub(crate) struct FactoredPlan {
    function: Truth,
    plan: Plan,
    ghost leaves: { plan.leaves ≡ function.vars },
    ghost gates: { plan.gates.items ≡ (factored function.vars (falling function.vars) (value_of function)).gates },
    ghost out: { plan.out ≡ (factored function.vars (falling function.vars) (value_of function)).out },
    ghost truth: { AtEach function.vars (λ xs. plan_truth plan xs ≡ value_of function xs) },
}

impl FactoredPlan {
    // A function's plan. It is large, and a function fills its locals as it begins: so this one is called only where a plan isn't
    // known, and stays one of its own.
    #[inline(never)]
    fn new(alloc: Global, function: Truth) -> Result<Box<FactoredPlan>, AllocError>
        ensures { IfOk result (λ made. made.value.function ≡ function) }
    {
        let plan = factor(function);
        Ok(Box::new(alloc, FactoredPlan { function, plan })?)
    }

    // The plan.
    fn plan(&self) -> &Plan
        ensures { IsFactored self.now.function result.now }
    {
        &self.plan
    }

    // The plan, if it is that of a function.
    #[tactic(auto, using(crate::proofs::Known::factored_same))]
    fn plan_of(&self, function: Truth) -> Option<&Plan>
        ensures { IfSome result (λ plan. IsFactored function plan.now) }
    {
        if is_same(self.function, function) {
            Some(self.plan())
        } else {
            None
        }
    }
}

/// The plans of the functions that were met.
#[derive(Drop)]
pub struct KnownPlans {
    places: Vec<OnceBox<FactoredPlan>>,
}

// Whether two tables are one.
fn is_same(table: Truth, other: Truth) -> bool
    ensures { result ≡ true → table ≡ other }
{
    table == other
}

// The first place at which the plan of a function may stand: some bits of its table, stirred.
fn first_place(function: Truth) -> usize
    ensures { result < 8192 }
{
    let low = function.low.wrapping_mul(LOW_FACTOR);
    let high = function.high.wrapping_mul(HIGH_FACTOR);
    (((low ^ high) >> 108) % 8192) as usize
}

impl KnownPlans {
    /// No plans. The only error is want of memory.
    pub fn new(alloc: Global) -> Result<KnownPlans, AllocError> {
        let mut places = Vec::with_capacity(alloc, PLACES)?;
        for _ in 0..PLACES {
            places.push(OnceBox::new(alloc))?;
        }
        Ok(KnownPlans { places })
    }

    // The plan at a place. Where there is none, that of a function is made.
    fn at(
        &self,
        alloc: Global,
        place: usize,
        function: Truth,
    ) -> Result<Option<&FactoredPlan>, AllocError> {
        let Some(place) = self.places.get(place) else {
            return Ok(None);
        };
        if let Some(known) = place.get() {
            return Ok(Some(known));
        }
        let made = place.get_or_try_init(move || FactoredPlan::new(alloc, function))?;
        Ok(Some(made))
    }

    // The plan at a place, if it is that of a function.
    fn plan_at(
        &self,
        alloc: Global,
        place: usize,
        function: Truth,
    ) -> Result<Option<&Plan>, AllocError>
        ensures { IfOk result (λ found. IfSome found (λ plan. IsFactored function plan.now)) }
    {
        match self.at(alloc, place, function)? {
            Some(known) => Ok(known.plan_of(function)),
            None => Ok(None),
        }
    }

    /// The factored plan of a function; where there is no place for it, it is made in the spare room. The only error is want of
    /// memory.
    pub(crate) fn plan<'a>(
        &'a self,
        alloc: Global,
        function: Truth,
        spare: &'a mut Option<Box<FactoredPlan>>,
    ) -> Result<&'a Plan, AllocError>
        ensures { IfOk result (λ plan. IsFactored function plan.now) }
    {
        let first = first_place(function);
        for place in first..first + TRIES {
            if let Some(plan) = self.plan_at(alloc, place % PLACES, function)? {
                return Ok(plan);
            }
        }
        let made = FactoredPlan::new(alloc, function)?;
        Ok(spare.insert(made).plan())
    }
}
