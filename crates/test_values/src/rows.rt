//! Calls on rows.

use crate::answers::put;
use crate::operands::{Operands, small};
use std::alloc::{AllocError, Global};
use syn_rows::{Lit, Row, ands, evaluate, levels, reached, values};

/// (a and b) or (a and c) over the nodes 1, 2, 3, by its complement; then an AND that nothing reaches.
const ROWS: [Row; 8] = [
    Row::Source,
    Row::Source,
    Row::Source,
    Row::Source,
    Row::And(Lit(2), Lit(4)),
    Row::And(Lit(2), Lit(6)),
    Row::And(Lit(9), Lit(11)),
    Row::And(Lit(5), Lit(7)),
];

/// The literals of a list.
pub fn literals(alloc: Global, list: &[u128]) -> Result<Vec<Lit>, AllocError> {
    let mut literals = Vec::new(alloc);
    for place in 0..list.len() {
        literals.push(Lit(small(list, place)))?;
    }
    Ok(literals)
}

// The values of literals.
fn evaluated(alloc: Global, literals: &[Lit], sources: &[bool]) -> Result<Vec<bool>, AllocError> {
    if literals.is_empty() {
        values(alloc, &ROWS, sources)
    } else {
        evaluate(alloc, &ROWS, literals, sources)
    }
}

// The values of the rows, or of literals where there are some.
fn put_values(alloc: Global, out: &mut String, operands: &Operands) -> Result<(), AllocError> {
    let sources = operands.values(alloc, 0)?;
    let literals = literals(alloc, operands.list(1))?;
    put(
        out,
        evaluated(alloc, literals.as_slice(), sources.as_slice()),
    )
}

// How many ANDs the output's literal reaches, and how many another and a constant.
fn put_ands(alloc: Global, out: &mut String) -> Result<(), AllocError> {
    put(out, ands(alloc, &ROWS, &[Lit(13)]))?;
    put(out, ands(alloc, &ROWS, &[Lit(11), Lit(0)]))
}

// Whether each row is packed and unpacked to itself.
fn are_packed() -> bool {
    for row in ROWS {
        if Row::unpack(row.pack()) != Some(row) {
            return false;
        }
    }
    true
}

// The answer to a call on one word.
fn answer_on_word(out: &mut String, call: &str, word: u32) -> Result<(), AllocError> {
    match call {
        "unpack" => put(out, Ok(Row::unpack(u64::from(word)))),
        "not" => put(out, Ok(Lit::of(word / 2, word % 2 == 1).not())),
        _ => put(out, Ok(are_packed())),
    }
}

/// The answer to a call.
pub fn answer(
    alloc: Global,
    out: &mut String,
    call: &str,
    operands: &Operands,
) -> Result<(), AllocError> {
    match call {
        "values" => put_values(alloc, out, operands),
        "levels" => put(out, levels(alloc, &ROWS)),
        "reached" => put(out, reached(alloc, &ROWS, &[Lit(13)])),
        "ands" => put_ands(alloc, out),
        _ => answer_on_word(out, call, operands.number(0)),
    }
}
