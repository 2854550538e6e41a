//! The plans of functions of four variables: those of a function's class, each fitted by the first transform to it.
//!
//! `FunctionPlans` has the plans of one function, with what is told of them once: that none has a gate in vain, and over which
//! leaves each gate needs a row. `PlanCache` has those of the functions that were met, each fitted once, and `PlanSource` lends
//! them beside the classes, by which others are fitted.
#![tactic(auto)]

mod laws;
mod plan_cache;
mod plans;

pub use laws::class_of_function;
pub use plan_cache::{FunctionPlans, PlanCache, PlanSource};
pub use plans::plans_of;
