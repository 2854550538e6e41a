//! Candidates in a graph of few sources: nodes whose tables have one hash. Nothing is promised of them.

ghost use Rattle.std.specs.Prelude.{◌≡◌, ◌<◌, ◌≤◌, IfOk, length};
ghost use Rattle.syn_rows.specs.declared.TheConstants.{NODE_LIMIT};
ghost use Rattle.syn_hashed.specs.Hashed.{IsHashed};

use crate::hashes::{FirstNodes, mixed};
use crate::tables::{fill, round_count};
use std::alloc::{AllocError, Global};
use syn_rows::{Lit, Row};
use syn_sat::{at, put};
use syn_truth::Truth;

// By node: the hash of its tables, complemented where its first value is 1, and whether it is.
#[derive(Debug, Drop)]
struct Hashes {
    hashes: Vec<u64>,
    flips: Vec<bool>,
}

// One more than the greatest word.
const SPAN: u128 = 1 << 64;

// A hash with the two words of a half of a table, complemented where that is asked.
#[inline]
fn with_half(hash: u64, half: u128, flip: bool) -> u64 {
    let half = if flip { !half } else { half };
    mixed(mixed(hash, (half % SPAN) as u64), (half / SPAN) as u64)
}

impl Hashes {
    fn new(alloc: Global, nodes: usize) -> Result<Hashes, AllocError> {
        Ok(Hashes {
            hashes: vec![in alloc; 0; nodes]?,
            flips: vec![in alloc; false; nodes]?,
        })
    }

    fn set_flips(&mut self, tables: &[Truth]) {
        for (n, table) in tables.iter().enumerate() {
            put(self.flips.as_mut_slice(), n, table.low % 2 == 1);
        }
    }

    fn mix(&mut self, tables: &[Truth]) {
        for (n, table) in tables.iter().enumerate() {
            let flip = at(self.flips.as_slice(), n, false);
            let hash = at(self.hashes.as_slice(), n, 0);
            let mixed = with_half(with_half(hash, table.low, flip), table.high, flip);
            put(self.hashes.as_mut_slice(), n, mixed);
        }
    }

    // The literal of the first node with a node's hash.
    fn first(&self, first_nodes: &mut FirstNodes, node: u32) -> Lit
        requires { node < NODE_LIMIT }
    {
        let first = first_nodes.find(self.hashes.as_slice(), node).min(node);
        let flips = self.flips.as_slice();
        let opposite = at(flips, node as usize, false) != at(flips, first as usize, false);
        Lit::of(first, opposite)
    }
}

/// By node, the literal that it may be equal to: that of the first node with its tables or the opposite ones, which may be
/// itself. The tables are left as they come. The only error is want of memory.
pub(crate) fn candidates(
    alloc: Global,
    count: u32,
    rows: &[Row],
    tables: &mut Vec<Truth>,
) -> Result<Vec<Lit>, AllocError>
    requires hashed { IsHashed count rows.now }
    requires few { count ≤ 12 }
    requires limit { length rows.now < NODE_LIMIT }
    ensures { IfOk result (λ v. length v.items ≡ length rows.now) }
{
    let mut hashes = Hashes::new(alloc, rows.len())?;
    for round in 0..round_count(count) {
        fill(count, rows, round, tables)?;
        if round == 0 {
            hashes.set_flips(tables.as_slice());
        }
        hashes.mix(tables.as_slice());
    }
    let mut first_nodes = FirstNodes::new(alloc, rows.len())?;
    let mut alike = Vec::with_capacity(alloc, rows.len())?;
    for node in 0..rows.len() as u32 {
        alike.push(hashes.first(&mut first_nodes, node))?;
    }
    Ok(alike)
}
