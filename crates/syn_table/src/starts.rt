//! The start of a table: the words of a graph's nodes and the first seat.

ghost use Rattle.std.specs.Prelude.{◌≡◌, ℕ, suc, ◌+◌, ◌*◌, ◌^◌, ◌<◌, ◌≤◌, ◌++◌, [], ◌∷◌, length, slice_index_or, IfOk, OnOk};
ghost use Rattle.syn_rows.specs.declared.TheConstants.{NODE_LIMIT};
ghost use Rattle.syn_rows.specs.Packing.{word_of, Packs};
ghost use Rattle.syn_rows.specs.Rows.{row_at};
ghost use Rattle.syn_table.specs.Laying.{AreWords};
ghost use Rattle.syn_table.specs.Numbers.{numbers_below};
ghost use Rattle.syn_table.specs.Openings.{AreKeys, with_spare};
ghost use Rattle.syn_table.specs.Rule.{first_seat};
ghost use Rattle.syn_table.specs.Seating.{IsOf, graph_of, known_of, nodes_of, spare_of};

use crate::{Opening, Seat, Shared};
use arrayvec::ArrayVec;
use atomic_table::Table;
use std::alloc::{AllocError, Global};
use std::snapshot::Snapshot;
use syn_graph::Graph;
use syn_lists::Items;
use syn_rows::Row;

impl Shared {
    /// Opens a graph with `spare` free nodes behind its own, and gives the first seat, which has all numbers from 0 to 63
    /// and knows nothing yet. The only error is want of memory.
    pub fn start(
        alloc: Global,
        graph: &Graph,
        keys: &[u64],
        spare: u32,
    ) -> Result<(Shared, Seat), AllocError>
        requires keys { AreKeys graph.now.rows keys.now }
        requires nodes { length graph.now.rows + spare < NODE_LIMIT }
        requires literals { length graph.now.observed < 2 ^ 30 }
        ensures graph { IfOk result (λ t. graph_of t.0 ≡ graph.now) }
        ensures spare { IfOk result (λ t. spare_of t.0 ≡ spare) }
        ensures nodes { IfOk result (λ t. nodes_of t.0 ≡ length graph.now.rows + spare) }
        ensures table { IfOk result (λ t. IsOf t.1 t.0) }
        ensures known { IfOk result (λ t. known_of t.1 ≡ first_seat (with_spare graph.now.rows spare) graph.now.observed) }
    {
        let counts = graph.refs(alloc)?;
        let nodes = graph.rows.as_slice().len() as u32 + spare;
        let words = words_of(alloc, graph.rows.as_slice(), counts.as_slice(), keys, nodes)?;
        let observed = Items::of(Vec::from_slice(alloc, graph.observed.as_slice())?);
        let opening = Opening {
            graph: Snapshot::of(graph),
            spare,
        };
        let (table, token) = Table::of_words(alloc, words.as_slice(), &opening)?;
        let seat = Seat {
            token,
            numbers: all_numbers(),
        };
        let shared = Shared {
            table,
            nodes,
            observed,
        };
        Ok((shared, seat))
    }
}

// The entry at the place, or the other value past the end.
fn entry_or<T: Copy>(list: &[T], place: usize, other: T) -> T
    ensures { result ≡ slice_index_or list.now place other }
{
    match list.get(place) {
        Some(entry) => *entry,
        None => other,
    }
}

// Appends the words of a node that nobody holds.
fn push_node(words: &mut Vec<u64>, row: Row, count: u32, key: u64) -> Result<(), AllocError>
    requires { Packs row }
    ensures { OnOk result (words.new.items ≡ words.old.items ++ 0 ∷ word_of row ∷ count ∷ key ∷ []) }
{
    words.push(0)?;
    words.push(row.pack())?;
    words.push(count as u64)?;
    words.push(key)?;
    Ok(())
}

// The words of so many nodes that nobody holds.
fn words_of(
    alloc: Global,
    rows: &[Row],
    counts: &[u32],
    keys: &[u64],
    nodes: u32,
) -> Result<Vec<u64>, AllocError>
    requires { (n : ℕ) → Packs (row_at rows.now n) }
    ensures { IfOk result (λ w. AreWords w.items nodes rows.now counts.now keys.now) }
{
    let mut words = Vec::with_capacity(alloc, 1 + 4 * nodes as usize)?;
    words.push(0)?;
    for node in 0..nodes {
        let place = node as usize;
        let row = entry_or(rows, place, Row::Free);
        let count = entry_or(counts, place, 0);
        push_node(&mut words, row, count, entry_or(keys, place, 0))?;
    }
    Ok(words)
}

// The numbers from 0 to 63.
fn all_numbers() -> ArrayVec<u8, 64>
    ensures { result.items ≡ numbers_below 64 }
{
    let mut numbers = ArrayVec::new();
    for number in 0..64 {
        numbers.push(number);
    }
    numbers
}
