//! Calls on plans and factoring.

use crate::answers::put;
use crate::operands::Operands;
use crate::truths::table;
use std::alloc::{AllocError, Global};
use syn_plan::{Plan, factor, factor_in};
use syn_truth::Truth;

/// The literals of a plan's gates in order, and then of its output.
pub fn literals(alloc: Global, plan: &Plan) -> Result<Vec<u16>, AllocError> {
    let mut literals = Vec::new(alloc);
    for (a, b) in plan.gates.iter() {
        literals.push(a.0)?;
        literals.push(b.0)?;
    }
    literals.push(plan.out.0)?;
    Ok(literals)
}

// The plan of a function, in an order where it is one of three variables and they are named.
fn factored(f: Truth, order: &[u128]) -> Plan {
    if f.vars != 3 {
        return factor(f);
    }
    match *order {
        [0, 1, 2] => factor_in(f, &[0, 1, 2]),
        [1, 0, 2] => factor_in(f, &[1, 0, 2]),
        [1, 2, 0] => factor_in(f, &[1, 2, 0]),
        _ => factor(f),
    }
}

/// The answer to a call: the literals of a function's plan or the number of its gates, and whether it has the function's table.
pub fn answer(
    alloc: Global,
    out: &mut String,
    call: &str,
    operands: &Operands,
) -> Result<(), AllocError> {
    let f = table(operands.list(0));
    let plan = factored(f, operands.list(1));
    match call {
        "default" => return put(out, Ok(Plan::default().truth() == Truth::default())),
        "gates" => put(out, Ok(plan.gates.len()))?,
        _ => put(out, literals(alloc, &plan))?,
    }
    put(out, Ok(plan.truth() == f))
}
