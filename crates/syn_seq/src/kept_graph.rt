//! The graph with the kept latches alone.

ghost use Rattle.std.specs.Prelude.{◌≡◌, ◌≤◌, ◌<◌, ◌+◌, ◌-◌, ◌++◌, ◌^◌, ℕ, All, IfOk, drop, length, map, replicate, take, true};
ghost use Rattle.syn_netlist.specs.Frames.{frame_in};
ghost use Rattle.syn_netlist.specs.Numbers.{all_below};
ghost use Rattle.syn_rows.specs.declared.Row.{Row};
ghost use Rattle.syn_network.specs.Written.{network_of};
ghost use Rattle.syn_network.specs.GraphShape.{and_tables};
ghost use Rattle.syn_seq.specs.Code.{AreLits, HasValues, SmallTargets, lit_in, lits_left, moved, moved_row, next_after, place_after, place_list, rows_of_left, swept_of};
ghost use Rattle.syn_seq.specs.declared.Fate.{Fate};
ghost use Rattle.syn_seq.specs.Rounds.{AreFates};

use crate::Fate;
use crate::kept::swept_frame;
use std::alloc::{AllocError, Global};
use syn_hashed::Rows;
use syn_netlist::Frame;
use syn_network::{Network, compact};
use syn_rows::{Lit, Row};

// Where a latch moves to.
fn place_after(places: &[u32], first: u32, next: u32, fate: Fate) -> u32
    requires target { (i : ℕ) → fate ≡ Fate.Merged i → first + i < length places.now }
    requires few { length places.now < 2 ^ 29 }
    requires next { next < 2 ^ 29 }
    requires low { All (λ p. p < 2 ^ 29) places.now }
    ensures place { result ≡ place_after first places.now next fate }
    ensures low { result < 2 ^ 29 }
{
    match fate {
        Fate::Kept => next,
        Fate::Merged(target) => places[(first + target) as usize],
        Fate::Dropped => 0,
    }
}

// The next place behind it.
fn next_after(next: u32, fate: Fate) -> u32
    requires { next < 2 ^ 29 }
    ensures { result ≡ next_after next fate }
{
    match fate {
        Fate::Kept => next + 1,
        _ => next,
    }
}

// Where node 0 and the sources move to: a kept latch behind those that are kept before it, a merged one to the one that it
// is merged into, a dropped one to constant 0.
fn places(alloc: Global, first: u32, fates: &[Fate]) -> Result<Vec<u32>, AllocError>
    requires few { first + length fates.now < 2 ^ 29 }
    requires targets { SmallTargets fates.now }
    ensures places { IfOk result (λ v. v.items ≡ place_list first fates.now) }
    ensures count { IfOk result (λ v. length v.items ≡ first + length fates.now) }
    ensures low { IfOk result (λ v. All (λ p. p < 2 ^ 29) v.items) }
{
    let mut places = Vec::new(alloc);
    for node in 0..first {
        places.push(node)?;
    }
    let mut next = first;
    for fate in fates {
        let place = place_after(places.as_slice(), first, next, *fate);
        places.push(place)?;
        next = next_after(next, *fate);
    }
    Ok(places)
}

// A literal whose node moves.
fn moved(places: &[u32], lit: Lit) -> Lit
    requires { All (λ p. p < 2 ^ 29) places.now }
    ensures { result ≡ moved places.now lit }
{
    let node = lit.node() as usize;
    if node < places.len() {
        Lit::of(places[node], lit.complemented())
    } else {
        lit
    }
}

fn moved_row(places: &[u32], row: Row) -> Row
    requires { All (λ p. p < 2 ^ 29) places.now }
    ensures { result ≡ moved_row places.now row }
{
    match row {
        Row::Free => Row::Free,
        Row::Source => Row::Source,
        Row::And(a, b) => Row::And(moved(places, a), moved(places, b)),
        Row::Alias(a) => Row::Alias(moved(places, a)),
    }
}

/// The rows over so many sources that are left: no row at the nodes of the others, and each gate at its node.
pub(crate) fn moved_rows(
    alloc: Global,
    rows: &[Row],
    places: &[u32],
    left: u32,
) -> Result<Vec<Row>, AllocError>
    requires places { All (λ p. p < 2 ^ 29) places.now }
    requires left { left < length places.now }
    requires rows { length places.now ≤ length rows.now }
    ensures { IfOk result (λ v. v.items ≡ take (left + 1) rows.now ++ (replicate (length places.now - (left + 1)) Row.Free ++ map (moved_row places.now) (drop (length places.now) rows.now))) }
{
    let front = left as usize + 1;
    let gates = moved_gates(alloc, places, &rows[places.len()..])?;
    let none = vec![in alloc; Row::Free; places.len() - front]?;
    let mut moved = rows[..front].to_vec(alloc)?;
    moved.extend_from_slice(&none)?;
    moved.extend_from_slice(&gates)?;
    Ok(moved)
}

/// The literals, moved.
pub(crate) fn moved_all(alloc: Global, places: &[u32], lits: &[Lit]) -> Result<Vec<Lit>, AllocError>
    requires { All (λ p. p < 2 ^ 29) places.now }
    ensures { IfOk result (λ v. v.items ≡ map (moved places.now) lits.now) }
{
    let mut found = Vec::new(alloc);
    for lit in lits {
        found.push(moved(places, *lit))?;
    }
    Ok(found)
}

// The literals of numbers, moved.
fn moved_lits(
    alloc: Global,
    places: &[u32],
    lits: &[Lit],
    numbers: &[u32],
) -> Result<Vec<Lit>, AllocError>
    requires places { All (λ p. p < 2 ^ 29) places.now }
    requires below { all_below (length lits.now) numbers.now ≡ true }
    ensures { IfOk result (λ v. v.items ≡ map (λ i. moved places.now (lit_in lits.now i)) numbers.now) }
{
    let mut found = Vec::new(alloc);
    for number in numbers {
        found.push(moved(places, lits[*number as usize]))?;
    }
    Ok(found)
}

// The rows of gates, moved.
fn moved_gates(alloc: Global, places: &[u32], gates: &[Row]) -> Result<Vec<Row>, AllocError>
    requires places { All (λ p. p < 2 ^ 29) places.now }
    ensures { IfOk result (λ v. v.items ≡ map (moved_row places.now) gates.now) }
{
    let mut found = Vec::new(alloc);
    for gate in gates {
        found.push(moved_row(places, *gate))?;
    }
    Ok(found)
}

// The rows over the sources that are left, and the literals of the signals that the frame observes.
fn moved_graph(
    alloc: Global,
    graph: &Network,
    lits: &[Lit],
    fates: &[Fate],
    frame: &Frame,
) -> Result<Rows, AllocError>
    requires count { length lits.now ≡ length graph.now.frame.names }
    requires lits { AreLits (network_of graph.now) graph.now.frame.names lits.now }
    requires fates { AreFates (network_of graph.now) fates.now }
    requires frame { frame_in frame.now ≡ swept_of graph.now fates.now }
    requires names { frame.now.names ≡ graph.now.frame.names }
    ensures rows { IfOk result (λ r. r.rows.items ≡ rows_of_left graph.now fates.now) }
    ensures observed { IfOk result (λ r. r.observed.items ≡ lits_left graph.now fates.now) }
{
    let first = graph.body.source_count + 1 - fates.len() as u32;
    let places = places(alloc, first, fates)?;
    let left = first - 1 + frame.latches.as_slice().len() as u32;
    let rows = moved_rows(alloc, graph.body.rows.as_slice(), places.as_slice(), left)?;
    let numbers = frame.observed(alloc)?;
    let observed = moved_lits(alloc, places.as_slice(), lits, numbers.as_slice())?;
    Ok(Rows { rows, observed })
}

// The network over a frame with the kept latches alone.
fn over_frame(
    alloc: Global,
    graph: &Network,
    lits: &[Lit],
    fates: &[Fate],
    frame: &Frame,
) -> Result<Network, AllocError>
    requires count { length lits.now ≡ length graph.now.frame.names }
    requires lits { AreLits (network_of graph.now) graph.now.frame.names lits.now }
    requires fates { AreFates (network_of graph.now) fates.now }
    requires frame { frame_in frame.now ≡ swept_of graph.now fates.now }
    requires names { frame.now.names ≡ graph.now.frame.names }
    ensures frame { IfOk result (λ g. frame_in g.frame ≡ swept_of graph.now fates.now) }
    ensures names { IfOk result (λ g. g.frame.names ≡ graph.now.frame.names) }
    ensures values { IfOk result (λ g. HasValues (network_of graph.now) (network_of g) fates.now) }
    ensures fewer { IfOk result (λ g. length (and_tables (network_of g)) ≤ length (and_tables (network_of graph.now))) }
{
    syn_network::network_of_graph();
    let moved = moved_graph(alloc, graph, lits, fates, frame)?;
    let next = compact(
        alloc,
        frame,
        moved.rows.as_slice(),
        moved.observed.as_slice(),
    )?;
    Ok(next)
}

/// The network with the kept latches alone.
pub(crate) fn remade(
    alloc: Global,
    graph: &Network,
    lits: &[Lit],
    fates: &[Fate],
) -> Result<Network, AllocError>
    requires count { length lits.now ≡ length graph.now.frame.names }
    requires lits { AreLits (network_of graph.now) graph.now.frame.names lits.now }
    requires fates { AreFates (network_of graph.now) fates.now }
    ensures frame { IfOk result (λ g. frame_in g.frame ≡ swept_of graph.now fates.now) }
    ensures names { IfOk result (λ g. g.frame.names ≡ graph.now.frame.names) }
    ensures values { IfOk result (λ g. HasValues (network_of graph.now) (network_of g) fates.now) }
    ensures fewer { IfOk result (λ g. length (and_tables (network_of g)) ≤ length (and_tables (network_of graph.now))) }
{
    let frame = swept_frame(alloc, &graph.frame, fates)?;
    let next = over_frame(alloc, graph, lits, fates, &frame);
    drop(frame);
    next
}
