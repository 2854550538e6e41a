//! The plans of the functions that a graph's cuts have, each fitted once.

ghost use Rattle.std.specs.Prelude.{◌≡◌, true, All, IfSome, map};
ghost use Rattle.syn_plan.specs.Naming.{built_of};
ghost use Rattle.syn_library.specs.Fitting.{Computes};
ghost use Rattle.syn_library.specs.Library.{NamesOwn};
ghost use Rattle.syn_weighing.specs.AllNew.{AreApart};
ghost use Rattle.syn_weighing.specs.Irredundant.{IsIrredundantPlan, NamesFirst};
ghost use Rattle.syn_function_plans.specs.PlansOf.{ArePlansOf, fitted_plans};

use crate::plans::plans_of;
use arrayvec::ArrayVec;
use std::alloc::{AllocError, Global};
use syn_library::Prepared as Classes;
use syn_plan::Plan;
use syn_weighing::{AllNew, all_new_of_each, are_irredundant, leaves_named_by_all};

// The number of functions of four variables.
const FUNCTIONS: usize = 65536;

// The most functions whose plans are kept; those of others are fitted where they are wanted.
const MAX_KEPT: usize = 8192;

/// The plans of one function.
#[derive(Drop)]
pub struct FunctionPlans {
    /// The function, of four variables.
    pub function: u16,
    /// Its plans, in order.
    pub plans: ArrayVec<Plan, 4>,
    /// Whether none of them has a gate in vain.
    pub irredundant: bool,
    /// How many leaves each of them names: the first ones.
    pub leaves_named: u8,
    /// What tells of each of them that its gates need rows, if they do.
    pub apart: ArrayVec<Option<AllNew>, 4>,
    ghost built: { map built_of plans.items ≡ fitted_plans function },
    ghost leaves: { All (λ p. p.leaves ≡ 4) plans.items },
    ghost values: { All (λ p. Computes p function) plans.items },
    ghost names: { All (λ p. NamesOwn p function) plans.items },
    ghost told: { irredundant ≡ true → All IsIrredundantPlan plans.items },
    ghost first: { All (NamesFirst leaves_named) plans.items },
    ghost stand: { AreApart plans.items apart.items },
}

impl FunctionPlans {
    /// The plans of a function, fitted.
    pub fn fitted(classes: &Classes, function: u16) -> FunctionPlans
        ensures { result.function ≡ function }
    {
        let plans = plans_of(classes, function);
        let irredundant = are_irredundant(plans.as_slice());
        let leaves_named = leaves_named_by_all(plans.as_slice());
        let apart = all_new_of_each(&plans);
        FunctionPlans {
            function,
            plans,
            irredundant,
            leaves_named,
            apart,
        }
    }

    /// The plans, in order.
    #[inline]
    pub fn as_slice(&self) -> &[Plan]
        ensures plans { ArePlansOf self.now.function result.now }
        ensures irredundant { self.now.irredundant ≡ true → All IsIrredundantPlan result.now }
        ensures first { All (NamesFirst self.now.leaves_named) result.now }
        ensures apart { AreApart result.now self.now.apart.items }
    {
        self.plans.as_slice()
    }
}

/// The plans of the functions that were met, and where in the list those of a function stand.
#[derive(Drop)]
pub struct PlanCache {
    lists: Vec<FunctionPlans>,
    places: Vec<u32>,
}

/// Where the plans of functions are found: those that were made before, and the classes by which others are made.
#[derive(Clone, Copy)]
pub struct PlanSource<'a> {
    /// Those that were made before.
    pub known: &'a PlanCache,
    /// The classes.
    pub classes: &'a Classes,
}

// So many places, none of them noted.
fn no_places(alloc: Global, count: usize) -> Result<Vec<u32>, AllocError> {
    vec![in alloc; 0; count]
}

impl PlanCache {
    /// No plans. The only error is want of memory.
    pub fn new(alloc: Global) -> Result<PlanCache, AllocError> {
        Ok(PlanCache {
            lists: Vec::new(alloc),
            places: no_places(alloc, FUNCTIONS)?,
        })
    }

    /// The plans of a function, where they were made.
    #[inline]
    pub fn plans(&self, function: u16) -> Option<&FunctionPlans>
        ensures { IfSome result (λ plans. plans.now.function ≡ function) }
    {
        let at = function as usize;
        if at >= self.places.len() {
            return None;
        }
        let place = self.places[at] as usize;
        if place >= self.lists.len() {
            return None;
        }
        let found = &self.lists[place];
        if found.function == function {
            Some(found)
        } else {
            None
        }
    }

    // Adds the plans of a function. They are large, and a function fills its locals as it begins: so this one is called only
    // where they aren't there, and stays one of its own.
    #[inline(never)]
    fn add(&mut self, classes: &Classes, function: u16) -> Result<(), AllocError> {
        self.lists.push(FunctionPlans::fitted(classes, function))?;
        Ok(())
    }

    // Makes the plans of a function unless they are there.
    fn meet(&mut self, classes: &Classes, function: u16) -> Result<(), AllocError> {
        if self.plans(function).is_some() {
            return Ok(());
        }
        let at = function as usize;
        if at < self.places.len() && self.lists.len() < MAX_KEPT {
            self.places[at] = self.lists.len() as u32;
            self.add(classes, function)?;
        }
        Ok(())
    }

    // Makes the plans of these functions.
    fn meet_all(&mut self, classes: &Classes, functions: &[u16]) -> Result<(), AllocError> {
        for function in functions {
            self.meet(classes, *function)?;
        }
        Ok(())
    }

    /// Makes the plans of all functions of these lists, so far as so many are kept. The only error is want of memory.
    pub fn insert_missing_lists(
        &mut self,
        classes: &Classes,
        lists: &[Vec<u16>],
    ) -> Result<(), AllocError> {
        for functions in lists {
            self.meet_all(classes, functions.as_slice())?;
        }
        Ok(())
    }
}
