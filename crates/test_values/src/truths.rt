//! Calls on truth tables. A table is its number of variables and its two words.

use crate::answers::{put, put_words};
use crate::operands::{Operands, byte};
use std::alloc::AllocError;
use syn_truth::Truth;

/// The table of a list; that of no variables where there are too many.
pub fn table(list: &[u128]) -> Truth {
    match *list {
        [vars, low, high] if vars <= 8 => Truth::of_words(vars as u8, low, high),
        _ => Truth::default(),
    }
}

// A table by numbers alone.
fn simple(call: &str, vars: u8, i: u8) -> Option<Truth> {
    if vars > 8 {
        return None;
    }
    match call {
        "constant" => Some(Truth::constant(vars, i > 0)),
        "variable" if i < vars => Some(Truth::var(vars, i)),
        _ => None,
    }
}

// What becomes of a table by a variable, and by a second one or a value.
fn changed(call: &str, table: Truth, i: u8, j: u8) -> Option<Truth> {
    if i >= table.vars {
        return None;
    }
    match call {
        "cofactor" => Some(table.cofactor(i, j > 0)),
        "flip" => Some(table.flip(i)),
        "swap" if j < table.vars => Some(table.swap(i, j)),
        _ => None,
    }
}

// The table that is true where both are.
fn both(first: Truth, second: Truth) -> Option<Truth> {
    if first.vars != second.vars {
        return None;
    }
    Some(first.and(second))
}

// The table over more variables.
fn wider(table: Truth, vars: u8) -> Option<Truth> {
    if vars < table.vars || vars > 8 {
        return None;
    }
    Some(table.widen(vars))
}

// The table that a call answers.
fn called(call: &str, first: &[u128], rest: &[u128]) -> Option<Truth> {
    match call {
        "constant" | "variable" => simple(call, byte(first, 0), byte(first, 1)),
        "and" => both(table(first), table(rest)),
        "not" => Some(table(first).not()),
        "widen" => wider(table(first), byte(rest, 0)),
        _ => changed(call, table(first), byte(rest, 0), byte(rest, 1)),
    }
}

// Whether a table depends on a variable; not where it has no such one.
fn depends(table: Truth, i: u8) -> bool {
    i < table.vars && table.depends(i)
}

// The bits of a table of at most four variables.
fn bits(table: Truth) -> u16 {
    if table.vars > 4 {
        return 0;
    }
    table.to_bits()
}

// The words of a table, where there is one.
fn put_table(out: &mut String, table: Option<Truth>) -> Result<(), AllocError> {
    match table {
        Some(table) => put_words(out, table.low, table.high),
        None => Ok(()),
    }
}

/// The answer to a call.
pub fn answer(out: &mut String, call: &str, operands: &Operands) -> Result<(), AllocError> {
    let first = operands.list(0);
    let rest = operands.list(1);
    match call {
        "default" => put_table(out, Some(Truth::default())),
        "from_bits" => put_table(out, Some(Truth::from_bits(operands.function(0)))),
        "to_bits" => put_words(out, u128::from(bits(table(first))), 0),
        "depends" => put(out, Ok(depends(table(first), byte(rest, 0)))),
        _ => put_table(out, called(call, first, rest)),
    }
}
