//! Calls on values, with answers that were worked by hand.
//!
//! A line of standard input is a call, `FAMILY.NAME OPERANDS = ANSWER`; other lines are passed over. Operands are lists of
//! numbers, in decimal or behind `0x`, which `/` parts; those of a netlist are the lines of its text, which `;` parts. What is
//! printed is each call that is answered otherwise, with that answer, and the number of calls.
#![tactic(auto)]

mod answers;
mod class_plans;
mod classes;
mod cones;
mod cuts;
mod flows;
mod graphs;
mod hashed_rows;
mod keys;
mod netlists;
mod operands;
mod parities;
mod plans;
mod rows;
mod saved;
mod truths;

use crate::operands::Operands;
use std::alloc::{AllocError, Global};
use std::io;
use std::thread::Threads;

// The answer to a call on values.
fn answer_on_values(
    alloc: Global,
    out: &mut String,
    family: &str,
    call: &str,
    operands: &Operands,
) -> Result<(), AllocError> {
    match family {
        "class" => classes::answer(alloc, out, call, operands),
        "class_plan" => class_plans::answer(alloc, out, call, operands),
        "hashed" => hashed_rows::answer(alloc, out, call, operands),
        "key" => keys::answer(out, operands),
        "parity" => parities::answer(alloc, out, operands.number(0)),
        "plan" => plans::answer(alloc, out, call, operands),
        "row" => rows::answer(alloc, out, call, operands),
        _ => truths::answer(out, call, operands),
    }
}

// The answer to a call on a graph, which the first three lists are.
fn answer_on_graph<R: Threads + Sync>(
    rt: &R,
    alloc: Global,
    out: &mut String,
    family: &str,
    call: &str,
    operands: &Operands,
) -> Result<(), AllocError> {
    let graph = graphs::graph_of(alloc, operands)?;
    match family {
        "cone" => cones::answer(alloc, out, &graph, operands.number(3)),
        "cut" => cuts::answer(rt, alloc, out, call, &graph, operands),
        "flow" => flows::answer(alloc, out, call, &graph, operands),
        "saved" => saved::answer(rt, alloc, out, call, &graph, operands),
        _ => graphs::answer(alloc, out, call, &graph, operands),
    }
}

// The answer to a call on numbers.
fn answer_on_numbers<R: Threads + Sync>(
    rt: &R,
    alloc: Global,
    out: &mut String,
    family: &str,
    call: &str,
    text: &str,
) -> Result<(), AllocError> {
    let operands = Operands::of(alloc, text)?;
    match family {
        "cone" | "cut" | "flow" | "graph" | "saved" => {
            answer_on_graph(rt, alloc, out, family, call, &operands)
        }
        _ => answer_on_values(alloc, out, family, call, &operands),
    }
}

// The answer to the call of a line.
fn answer<R: Threads + Sync>(
    rt: &R,
    alloc: Global,
    out: &mut String,
    line: &str,
) -> Result<(), AllocError> {
    let (name, text) = line.split_once(' ').unwrap_or((line, ""));
    let (family, call) = name.split_once('.').unwrap_or((name, ""));
    if family == "netlist" {
        netlists::answer(alloc, out, call, text)
    } else {
        answer_on_numbers(rt, alloc, out, family, call, text)
    }
}

// Tells a call that is answered otherwise than wanted.
fn compare<R: Threads + Sync + Print>(
    rt: &R,
    alloc: Global,
    line: &str,
    wanted: &str,
) -> io::Result<()> {
    let mut out = String::new(alloc);
    answer(rt, alloc, &mut out, line)?;
    if out.as_str() != wanted {
        println!(rt; "{line} = {out}")?;
    }
    Ok(())
}

fn main(rt: HostRuntime) -> io::Result<()> {
    let mut count = 0u32;
    for line in rt.lines(rt.alloc()) {
        let line = line?;
        if let Some((line, wanted)) = line.as_str().split_once(" = ") {
            compare(&rt, rt.alloc(), line, wanted)?;
            count = count.saturating_add(1);
        }
    }
    println!(rt; "{count} calls")
}
