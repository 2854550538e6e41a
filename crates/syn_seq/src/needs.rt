//! What latches need.

ghost use Rattle.std.specs.Prelude.{◌≡◌, ◌<◌, ◌++◌, IfOk, length, map, true};
ghost use Rattle.syn_netlist.specs.Kept.{control_number, latches_below};
ghost use Rattle.syn_netlist.specs.Numbers.{all_below};
ghost use Rattle.syn_network.specs.Written.{network_of};
ghost use Rattle.syn_rows.specs.Reach.{IsReachedSet};
ghost use Rattle.syn_rows.specs.Values.{value_in};
ghost use Rattle.syn_seq.specs.Code.{AreLits, lit_in, row_by};
ghost use Rattle.syn_seq.specs.Sweeping.{latch_row, needing_rows, output_lits};

use std::alloc::{AllocError, Global};
use syn_netlist::Latch;
use syn_network::Network;
use syn_rows::{Lit, Row};

// The row that stands for a latch where it is asked what it needs.
fn latch_row(lits: &[Lit], latch: Latch) -> Row
    requires feed { latch.feed < length lits.now }
    requires control { all_below (length lits.now) (control_number latch.kind) ≡ true }
    ensures { result ≡ row_by lits.now latch }
{
    let feed = lits[latch.feed as usize];
    match latch.kind {
        Some((_, Some(control))) => Row::And(feed, lits[control as usize]),
        Some((_, None)) => Row::Alias(feed),
        None => Row::Alias(feed),
    }
}

// The rows of latches.
fn latch_rows(alloc: Global, lits: &[Lit], latches: &[Latch]) -> Result<Vec<Row>, AllocError>
    requires { latches_below (length lits.now) latches.now ≡ true }
    ensures { IfOk result (λ v. v.items ≡ map (row_by lits.now) latches.now) }
{
    let mut rows = Vec::new(alloc);
    for latch in latches {
        rows.push(latch_row(lits, *latch))?;
    }
    Ok(rows)
}

// Three lists in one.
fn joined(
    alloc: Global,
    front: &[Row],
    middle: &[Row],
    back: &[Row],
) -> Result<Vec<Row>, AllocError>
    ensures { IfOk result (λ v. v.items ≡ front.now ++ (middle.now ++ back.now)) }
{
    let mut rows = front.to_vec(alloc)?;
    rows.extend_from_slice(middle)?;
    rows.extend_from_slice(back)?;
    Ok(rows)
}

/// The rows of the graph, each latch's with what it needs in place of its source.
pub(crate) fn needing_rows(
    alloc: Global,
    graph: &Network,
    lits: &[Lit],
) -> Result<Vec<Row>, AllocError>
    requires count { length lits.now ≡ length graph.now.frame.names }
    requires lits { AreLits (network_of graph.now) graph.now.frame.names lits.now }
    ensures { IfOk result (λ v. v.items ≡ needing_rows (network_of graph.now)) }
{
    syn_network::network_of_graph();
    let latches = graph.frame.latches.as_slice();
    let needs = latch_rows(alloc, lits, latches)?;
    let end = graph.body.source_count as usize + 1;
    let first = end - latches.len();
    let all = graph.body.rows.as_slice();
    let rows = joined(alloc, &all[..first], &needs, &all[end..])?;
    Ok(rows)
}

// The literals of numbers.
fn lits_at(alloc: Global, lits: &[Lit], numbers: &[u32]) -> Result<Vec<Lit>, AllocError>
    requires { all_below (length lits.now) numbers.now ≡ true }
    ensures { IfOk result (λ v. v.items ≡ map (lit_in lits.now) numbers.now) }
{
    let mut found = Vec::new(alloc);
    for number in numbers {
        found.push(lits[*number as usize])?;
    }
    Ok(found)
}

/// The literals of the outputs.
pub(crate) fn output_lits(
    alloc: Global,
    graph: &Network,
    lits: &[Lit],
) -> Result<Vec<Lit>, AllocError>
    requires count { length lits.now ≡ length graph.now.frame.names }
    requires lits { AreLits (network_of graph.now) graph.now.frame.names lits.now }
    ensures { IfOk result (λ v. v.items ≡ output_lits (network_of graph.now)) }
{
    let found = lits_at(alloc, lits, graph.frame.outputs.as_slice())?;
    Ok(found)
}

/// The nodes that the outputs need, from latch to latch.
pub(crate) fn needed(alloc: Global, graph: &Network, lits: &[Lit]) -> Result<Vec<bool>, AllocError>
    requires count { length lits.now ≡ length graph.now.frame.names }
    requires lits { AreLits (network_of graph.now) graph.now.frame.names lits.now }
    ensures length { IfOk result (λ v. length v.items ≡ length graph.now.body.rows) }
    ensures reached { IfOk result (λ v. IsReachedSet (needing_rows (network_of graph.now)) (output_lits (network_of graph.now)) (value_in v.items)) }
{
    syn_network::network_of_graph();
    let rows = needing_rows(alloc, graph, lits)?;
    let outputs = output_lits(alloc, graph, lits)?;
    let marks = syn_rows::reached(alloc, rows.as_slice(), outputs.as_slice())?;
    Ok(marks)
}
