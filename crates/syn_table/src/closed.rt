//! Closing the table.

ghost use Rattle.std.specs.Prelude.{◌≡◌, ℕ, ◌+◌, ◌*◌, ◌≤◌, [], length, vec_capacity, IfErr, IfOk, IfSome};
ghost use Rattle.std.specs.Mem.Slots.{slots_items, slots_len, IsFull};
ghost use Rattle.syn_rows.specs.declared.Row.{Row};
ghost use Rattle.syn_rows.specs.Packing.{word_of, Packs};
ghost use Rattle.syn_table.specs.Closing.{IsClosing, IsLast, ReadsBack};
ghost use Rattle.syn_table.specs.Openings.{with_spare};
ghost use Rattle.syn_table.specs.Seating.{IsOf, graph_of, known_of, spare_of, view_of};

use crate::words::row_word;
use crate::{Seat, Shared};
use atomic_table::Closed;
use std::alloc::{AllocError, Global};
use syn_rows::{Lit, Row};

/// What is left of a table that was closed.
#[derive(Debug, Drop)]
pub struct Rows {
    /// The row of each node, spare ones included. They need not be in order.
    pub rows: Vec<Row>,
    /// The observed literals.
    pub observed: Vec<Lit>,
}

// The row that packs to the word, free where none does.
fn row_or_free(word: u64) -> Row
    ensures { (r : Row) → Packs r → word_of r ≡ word → result ≡ r }
{
    match Row::unpack(word) {
        Some(row) => row,
        None => Row::Free,
    }
}

// Reads the row of each node, into room that there is.
fn read_rows(closed: &Closed<u8, Global>, nodes: u32, rows: &mut Vec<Row>)
    requires full { IsFull closed.now.words }
    requires size { slots_len closed.now.words ≡ 1 + 4 * nodes }
    requires empty { rows.old.items ≡ [] }
    requires room { nodes ≤ vec_capacity rows.old }
    ensures count { length rows.new.items ≡ nodes }
    ensures rows { ReadsBack (slots_items closed.now.words) rows.new.items }
{
    for node in 0..nodes {
        let word = closed.word(row_word(node));
        rows.push_reserved(row_or_free(word));
    }
}

impl Shared {
    /// Closes the table, when each other seat was joined. Want of memory hands both back as they came.
    pub fn close(self, alloc: Global, seat: Seat) -> Result<Rows, (Shared, Seat, AllocError)>
        requires table { IsOf seat self }
        requires numbers { length (known_of seat).numbers ≡ 64 }
        requires held { (view_of seat).held ≡ [] }
        requires pins { (view_of seat).pins ≡ [] }
        ensures last { IfOk result (λ r. IsLast self seat r.rows.items r.observed.items) }
        ensures closing { IfOk result (λ r. IsClosing (with_spare (graph_of self).rows (spare_of self)) (graph_of self).observed (view_of seat).difference r.rows.items r.observed.items) }
        ensures table_back { IfErr result (λ e. e.0 ≡ self) }
        ensures seat_back { IfErr result (λ e. e.1 ≡ seat) }
    {
        let Ok(mut rows) = Vec::with_capacity(alloc, self.nodes as usize) else {
            return Err((self, seat, AllocError));
        };
        let Shared {
            table,
            nodes,
            observed,
        } = self;
        let Seat { token, numbers: _ } = seat;
        let closed = table.close_with(token);
        read_rows(&closed, nodes, &mut rows);
        closed.free();
        Ok(Rows {
            rows,
            observed: observed.into_vec(),
        })
    }
}
