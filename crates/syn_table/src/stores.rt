//! The steps of a seat that store a key or a row.

ghost use Rattle.std.specs.Prelude.{◌≡◌, ℕ, Some};
ghost use Rattle.syn_rows.specs.declared.Row.TheVariants as RowIs;
ghost use Rattle.syn_core_laws.specs.Events.{IsAnd, MayFree, MayRest};
ghost use Rattle.syn_core_laws.specs.declared.EventKind.TheVariants as Kind;
ghost use Rattle.syn_core_laws.specs.Lists.{look};
ghost use Rattle.syn_core_laws.specs.Views.{known_row, key_set, made};
ghost use Rattle.syn_table.specs.Seating.{IsOf, known_of, view_of};
ghost use Rattle.syn_table.specs.Events.{IsEvent, redefines};
ghost use Rattle.syn_table.specs.Steps.{with_view, Frees, KnowsRedefine, Redefines};

use crate::plays::{FreesRow, MakesRow, RedefinesRow, SetsKey};
use crate::words::{key_word, row_word};
use crate::{Seat, Shared};
use syn_rows::Row;

impl Shared {
    /// Gives a node that the seat holds and knows as free the row of an AND, under this key. The seat has a pin for each
    /// place of the row, and the nodes' known keys are below the key. The pins become the row's references, and the node
    /// joins the zero list. Two steps: the key is stored, and then the row.
    #[inline]
    pub fn make(&self, seat: &mut Seat, node: u32, row: Row, key: u64)
        requires table { IsOf seat.old self.now }
        requires free { known_row (view_of seat.old) node ≡ Some RowIs.Free }
        requires row { IsAnd row }
        requires rests { MayRest (view_of seat.old) key row }
        ensures table { IsOf seat.new self.now }
        ensures known { known_of seat.new ≡ with_view (known_of seat.old) (made (key_set (view_of seat.old) node key) node row) }
        ensures keyed { IsEvent (known_of seat.old) (Kind.SetKey node key) (key_set (view_of seat.old) node key) }
        ensures made { IsEvent (with_view (known_of seat.old) (key_set (view_of seat.old) node key)) (Kind.Make node row) (view_of seat.new) }
    {
        self.set_key(seat, node, key);
        self.make_keyed(seat, node, row);
    }

    // Stores the key of a node that is known as free.
    #[inline]
    fn set_key(&self, seat: &mut Seat, node: u32, key: u64)
        requires table { IsOf seat.old self.now }
        requires free { known_row (view_of seat.old) node ≡ Some RowIs.Free }
        ensures table { IsOf seat.new self.now }
        ensures known { known_of seat.new ≡ with_view (known_of seat.old) (key_set (view_of seat.old) node key) }
        ensures event { IsEvent (known_of seat.old) (Kind.SetKey node key) (view_of seat.new) }
    {
        self.table
            .shared
            .store::<SetsKey>(&mut seat.token, key_word(node), key);
    }

    // Stores the row of a node that is known as free, and whose key is known.
    #[inline]
    fn make_keyed(&self, seat: &mut Seat, node: u32, row: Row)
        requires table { IsOf seat.old self.now }
        requires free { known_row (view_of seat.old) node ≡ Some RowIs.Free }
        requires row { IsAnd row }
        requires rests { (key : ℕ) × (look node (view_of seat.old).keys ≡ Some key) × MayRest (view_of seat.old) key row }
        ensures table { IsOf seat.new self.now }
        ensures known { known_of seat.new ≡ with_view (known_of seat.old) (made (view_of seat.old) node row) }
        ensures event { IsEvent (known_of seat.old) (Kind.Make node row) (view_of seat.new) }
    {
        self.table
            .shared
            .store::<MakesRow>(&mut seat.token, row_word(node), row.pack());
    }

    /// Stores another row in the place of an AND or an alias that the seat knows, and whose key it knows: one that has the
    /// same value whatever values the nodes of `over` have, at most 8. The seat has a pin for each place of the new row,
    /// and the nodes' known keys are below the node's. The pins become the row's references, and the old row's references
    /// become pins, of which at most 512 are left.
    #[inline]
    pub fn redefine(&self, seat: &mut Seat, node: u32, row: Row, over: &[u32])
        requires table { IsOf seat.old self.now }
        requires may { KnowsRedefine (view_of seat.old) node row over.now }
        ensures table { IsOf seat.new self.now }
        ensures known { Redefines (known_of seat.old) node row (known_of seat.new) }
        ensures event { IsEvent (known_of seat.old) (redefines node row over.now) (view_of seat.new) }
    {
        self.table
            .shared
            .store::<RedefinesRow>(&mut seat.token, row_word(node), row.pack());
    }

    /// Frees a node on the zero list, which it leaves. The row's references become pins, of which at most 512 are left; the
    /// node is still held.
    #[inline]
    pub fn free(&self, seat: &mut Seat, node: u32)
        requires table { IsOf seat.old self.now }
        requires may { MayFree (view_of seat.old) node }
        ensures table { IsOf seat.new self.now }
        ensures known { Frees (known_of seat.old) node (known_of seat.new) }
        ensures event { IsEvent (known_of seat.old) (Kind.Free node) (view_of seat.new) }
    {
        self.table
            .shared
            .store::<FreesRow>(&mut seat.token, row_word(node), Row::Free.pack());
    }
}
