//! The order of a depth-first walk.

ghost use Rattle.std.specs.Prelude.{◌<◌, ◌+◌, ◌≤◌, OnOk, vec_len};
ghost use Rattle.std.specs.List.{sum_by};
ghost use Rattle.syn_rows.specs.Walk.{unmarked};

use std::alloc::{AllocError, Global};
use syn_rows::{Lit, Row};

// What the walk does next: it enters a node, or it leaves one for good.
#[derive(Clone, Copy, Debug)]
enum Step {
    Enter(u32),
    Leave(u32),
}

// Enters what a row refers to, its first literal first.
fn push_refs(row: Row, stack: &mut Vec<Step>) -> Result<(), AllocError>
    ensures { OnOk result (vec_len stack.new ≤ vec_len stack.old + 2) }
{
    match row {
        Row::Free | Row::Source => {}
        Row::And(a, b) => {
            stack.push(Step::Enter(b.node()))?;
            stack.push(Step::Enter(a.node()))?;
        }
        Row::Alias(a) => stack.push(Step::Enter(a.node()))?,
    }
    Ok(())
}

// Enters a node, where it is there and new: it is left once all that it refers to is.
fn enter(
    rows: &[Row],
    node: u32,
    marks: &mut [bool],
    stack: &mut Vec<Step>,
) -> Result<(), AllocError>
    ensures { OnOk result (sum_by unmarked marks.new + vec_len stack.new < sum_by unmarked marks.old + vec_len stack.old + 1) }
{
    let n = node as usize;
    if n < rows.len() && n < marks.len() && !marks[n] {
        marks[n] = true;
        stack.push(Step::Leave(node))?;
        push_refs(rows[n], stack)?;
    }
    Ok(())
}

/// The nodes that literals reach through rows, each behind those that its row refers to, where these don't lead back to it.
pub(crate) fn visited(alloc: Global, rows: &[Row], lits: &[Lit]) -> Result<Vec<u32>, AllocError> {
    let mut marks = vec![in alloc; false; rows.len()]?;
    let mut stack = Vec::new(alloc);
    let mut order = Vec::new(alloc);
    for i in 0..lits.len() {
        stack.push(Step::Enter(lits[lits.len() - 1 - i].node()))?;
    }
    while let Some(step) = stack.pop() {
        match step {
            Step::Enter(node) => enter(rows, node, marks.as_mut_slice(), &mut stack)?,
            Step::Leave(node) => order.push(node)?,
        }
    }
    Ok(order)
}
