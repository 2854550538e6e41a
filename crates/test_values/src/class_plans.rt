//! Calls on the plans of classes.

use crate::answers::put;
use crate::operands::Operands;
use crate::plans::literals;
use std::alloc::{AllocError, Global};
use syn_library::{ClassPlans, Prepared, fit, plans};
use syn_npn::Transform;

// The literals of the plans of a class.
fn put_plans(alloc: Global, out: &mut String, known: &ClassPlans) -> Result<(), AllocError> {
    for plan in known.plans.iter() {
        put(out, literals(alloc, plan))?;
    }
    Ok(())
}

// The literals of these plans fitted by a transform.
fn put_fitted(
    alloc: Global,
    out: &mut String,
    known: &ClassPlans,
    transform: Transform,
) -> Result<(), AllocError> {
    for plan in known.plans.iter() {
        put(out, literals(alloc, &fit(plan, transform)))?;
    }
    Ok(())
}

// Whether the plans that are kept of a class are those that the library makes.
fn are_kept(known: &ClassPlans) -> bool {
    known.plans.as_slice() == plans(known.class).as_slice()
}

/// The answer to a call: the plans of a function's class, or these fitted to the function, or whether they are kept.
pub fn answer(
    alloc: Global,
    out: &mut String,
    call: &str,
    operands: &Operands,
) -> Result<(), AllocError> {
    let prepared = Prepared::new(alloc)?;
    let (known, transform) = prepared.plans(operands.function(0));
    match call {
        "kept" => put(out, Ok(are_kept(known))),
        "fitted" => put_fitted(alloc, out, known, transform),
        _ => put_plans(alloc, out, known),
    }
}
