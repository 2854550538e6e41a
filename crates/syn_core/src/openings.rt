//! The state at the start, and lists of events.

ghost use Rattle.std.specs.Prelude.{◌≡◌, ℕ, ◌+◌, ◌*◌, ◌<◌, ◌≤◌, ◌^◌, ◌++◌, length, replicate, IfOk};
ghost use Rattle.syn_rows.specs.declared.TheConstants.{NODE_LIMIT};
ghost use Rattle.syn_rows.specs.Rows.{row_at};
ghost use Rattle.syn_rows.specs.References.{refs, refs_by_rows, refs_by_literals, sum_below};
ghost use Rattle.syn_core_laws.specs.Openings.{empty_view, seats_from, counts_from, opening_of, IsStart};
ghost use Rattle.syn_core_laws.specs.Sound.{IsSound};

use crate::lists::{copied, refs};
use crate::seat_views::SeatView;
use crate::states::{State, row_in};
use std::alloc::{AllocError, Global};
use syn_rows::{Lit, Row};

/// The state of a graph's rows, with `spare` rows behind them and so many empty seats.
///
/// Where the rows are a graph's, with keys that rise along references, and seats are at most 64, the state is sound.
pub fn opening(
    alloc: Global,
    rows: &[Row],
    observed: &[Lit],
    keys: &[u64],
    spare: u32,
    seats: u8,
) -> Result<State, AllocError>
    requires nodes { length rows.now + spare < NODE_LIMIT }
    requires literals { length observed.now < 2 ^ 30 }
    ensures opened { IfOk result (λ s. s ≡ opening_of rows.now observed.now keys.now spare seats) }
    ensures sound { IsStart rows.now observed.now keys.now → seats ≤ 64 → IfOk result (λ s. IsSound s) }
{
    opened(alloc, rows, observed, keys, spare, seats)
}

fn opened(
    alloc: Global,
    rows: &[Row],
    observed: &[Lit],
    keys: &[u64],
    spare: u32,
    seats: u8,
) -> Result<State, AllocError>
    requires nodes { length rows.now + spare < NODE_LIMIT }
    requires literals { length observed.now < 2 ^ 30 }
    ensures { IfOk result (λ s. s ≡ opening_of rows.now observed.now keys.now spare seats) }
{
    let all = padded(alloc, rows, spare, Row::Free)?;
    let start = copied(alloc, all.as_slice())?;
    let counts = counts_of(alloc, all.as_slice(), observed)?;
    let claims = zeros(alloc, all.len())?;
    let keys = padded(alloc, keys, spare, 0)?;
    let observed = copied(alloc, observed)?;
    let seats = empty_seats(alloc, seats)?;
    Ok(State {
        alloc,
        claims,
        rows: all,
        counts,
        keys,
        observed,
        opening: start,
        seats,
    })
}

fn padded<T: Copy>(alloc: Global, list: &[T], spare: u32, x: T) -> Result<Vec<T>, AllocError>
    ensures { IfOk result (λ r. r.items ≡ list.now ++ replicate spare x) }
{
    let mut out = copied(alloc, list)?;
    let mut left = spare;
    while left > 0 {
        out.push(x)?;
        left -= 1;
    }
    Ok(out)
}

fn zeros(alloc: Global, count: usize) -> Result<Vec<u32>, AllocError>
    ensures { IfOk result (λ r. r.items ≡ replicate count 0) }
{
    let mut out = Vec::new(alloc);
    let mut left = count;
    while left > 0 {
        out.push(0)?;
        left -= 1;
    }
    Ok(out)
}

fn refs_by_rows(rows: &[Row], node: u32) -> usize
    requires { length rows.now < NODE_LIMIT }
    ensures number { result ≡ refs_by_rows node rows.now }
    ensures few { result ≤ 2 * length rows.now }
{
    let mut sum = 0;
    for n in 0..rows.len() {
        sum += refs(node, row_in(rows, n as u32));
    }
    sum
}

fn refs_by_literals(literals: &[Lit], node: u32) -> usize
    ensures number { result ≡ refs_by_literals node literals.now }
    ensures few { result ≤ length literals.now }
{
    let mut sum = 0;
    for literal in literals {
        sum += (literal.node() == node) as usize;
    }
    sum
}

#[tactic(auto, using(crate::proofs::Spreading::counts_step))]
fn counts_of(alloc: Global, rows: &[Row], observed: &[Lit]) -> Result<Vec<u32>, AllocError>
    requires nodes { length rows.now < NODE_LIMIT }
    requires literals { length observed.now < 2 ^ 30 }
    ensures { IfOk result (λ r. r.items ≡ counts_from rows.now observed.now 0 (length rows.now)) }
{
    let mut out = Vec::new(alloc);
    let mut node = 0;
    let mut left = rows.len();
    while left > 0 {
        let number = refs_by_rows(rows, node) + refs_by_literals(observed, node);
        out.push(number as u32)?;
        node += 1;
        left -= 1;
    }
    Ok(out)
}

fn empty_seat(alloc: Global, number: u32) -> SeatView
    ensures { result ≡ empty_view number }
{
    SeatView {
        number,
        held: Vec::new(alloc),
        rows: Vec::new(alloc),
        keys: Vec::new(alloc),
        pins: Vec::new(alloc),
        idle: Vec::new(alloc),
        misses: Vec::new(alloc),
        reads: Vec::new(alloc),
        changes: Vec::new(alloc),
        makes: Vec::new(alloc),
        difference: 0,
        sole: Vec::new(alloc),
    }
}

#[tactic(auto, using(crate::proofs::Spreading::seats_step))]
fn empty_seats(alloc: Global, count: u8) -> Result<Vec<SeatView>, AllocError>
    ensures { IfOk result (λ r. r.items ≡ seats_from 0 count) }
{
    let mut out = Vec::new(alloc);
    let mut number = 0;
    let mut left = count;
    while left > 0 {
        out.push(empty_seat(alloc, number))?;
        number += 1;
        left -= 1;
    }
    Ok(out)
}
