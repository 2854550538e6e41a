//! The steps of a seat, each one event on one word. No lock is taken and nobody waits.

ghost use Rattle.std.specs.Prelude.{◌≡◌, ◌≢◌, ◌⊎◌, ℕ, suc, ◌+◌, ◌*◌, ◌==◌, ◌^◌, ◌<◌, ◌≤◌, true, false, if◌then◌else◌, IsTrue, ◌↔◌, length, Some};
ghost use Rattle.syn_rows.specs.declared.Row.{Row};
ghost use Rattle.syn_rows.specs.declared.Row.TheVariants.{Free};
ghost use Rattle.syn_rows.specs.declared.TheConstants.{NODE_LIMIT};
ghost use Rattle.syn_rows.specs.Packing.{word_of, Packs};
ghost use Rattle.syn_core_laws.specs.Events.{MayPin};
ghost use Rattle.syn_core_laws.specs.declared.EventKind.TheVariants as Kind;
ghost use Rattle.syn_rows.specs.Nodes.{has_node};
ghost use Rattle.syn_core_laws.specs.Views.{is_mine, known_row, own_refs, own_pins, claimed, missed, released, row_loaded, pinned, count_loaded, key_loaded};
ghost use Rattle.syn_core_laws.specs.Shown.{IsShown};
ghost use Rattle.syn_table.specs.Seating.{IsOf, known_of, nodes_of, view_of};
ghost use Rattle.syn_table.specs.Events.{IsEvent, IsUnpin};
ghost use Rattle.syn_table.specs.Steps.{with_view, Unpins};

use crate::plays::{Claims, LoadsCount, LoadsKey, LoadsRow, Pins, Releases, TakesPinBack};
use crate::words::{claim_word, count_word, key_word, row_in, row_word};
use crate::{Seat, Shared};
use syn_rows::Row;

impl Seat {
    // The claim of a node that this seat holds: its own number plus 1.
    #[inline]
    fn mark(&self) -> u64
        ensures { result ≡ suc (view_of self.now).number }
    {
        self.numbers.as_slice()[0] as u64 + 1
    }
}

impl Shared {
    /// The number of nodes, spare ones included.
    #[inline]
    pub fn nodes(&self) -> u32
        ensures { result ≡ nodes_of self.now }
    {
        self.nodes
    }

    /// What a seat shows by itself: it has a number, what it holds or may pin is a node of its table, which has fewer than
    /// 2^29, its known rows, keys, pins and zero list are those of a seat of a sound core, and node 0 isn't free. A law: it makes no
    /// step.
    #[inline]
    pub fn seats_reach_nodes(&self, seat: &Seat)
        requires { IsOf seat.now self.now }
        ensures reach { (n : ℕ) → (has_node (view_of seat.now).held n ≡ true) ⊎ MayPin (view_of seat.now) n → n < nodes_of self.now }
        ensures opening { length (known_of seat.now).opening ≡ nodes_of self.now }
        ensures number { (view_of seat.now).number < 64 }
        ensures shown { IsShown (nodes_of self.now) (view_of seat.now) }
        ensures constant { known_row (view_of seat.now) 0 ≢ Some Free }
        ensures few { nodes_of self.now < NODE_LIMIT }
    {
        let _nodes = self.nodes;
        let _numbers = seat.numbers.as_slice();
    }

    /// A look at the node's row and count, without a claim: each may be of another moment, and neither tells anything.
    #[inline]
    pub fn peek(&self, node: u32) -> (Row, u32)
        requires { node < nodes_of self.now }
    {
        let row = self.table.shared.peek(row_word(node));
        let count = self.table.shared.peek(count_word(node));
        (
            Row::unpack(row).unwrap_or(Row::Free),
            u32::try_from(count).unwrap_or(u32::MAX),
        )
    }

    /// Tries to claim the node. False comes only where another seat was found to hold it, and the seat's misses then
    /// grow by the node; it doesn't come to a seat that has all numbers.
    #[inline]
    pub fn claim(&self, seat: &mut Seat, node: u32) -> bool
        requires table { IsOf seat.old self.now }
        requires node { node < nodes_of self.now }
        requires free { has_node (view_of seat.old).held node ≡ false }
        ensures table { IsOf seat.new self.now }
        ensures known { known_of seat.new ≡ with_view (known_of seat.old) (if result then claimed (view_of seat.old) node else missed (view_of seat.old) node) }
        ensures event { IsEvent (known_of seat.old) (if result then Kind.Claim node else Kind.ClaimFailed node) (view_of seat.new) }
        ensures alone { length (known_of seat.old).numbers ≡ 64 → result ≡ true }
    {
        let mark = seat.mark();
        let found = self
            .table
            .shared
            .compare_exchange::<Claims>(&mut seat.token, claim_word(node), 0, mark);
        found == 0
    }

    /// Lets a node go that the seat holds and that isn't on its zero list.
    #[inline]
    pub fn release(&self, seat: &mut Seat, node: u32)
        requires table { IsOf seat.old self.now }
        requires held { has_node (view_of seat.old).held node ≡ true }
        requires busy { has_node (view_of seat.old).idle node ≡ false }
        ensures table { IsOf seat.new self.now }
        ensures known { known_of seat.new ≡ with_view (known_of seat.old) (released (view_of seat.old) node) }
        ensures event { IsEvent (known_of seat.old) (Kind.Release node) (view_of seat.new) }
    {
        self.table
            .shared
            .store::<Releases>(&mut seat.token, claim_word(node), 0);
    }

    /// Loads the row of a held node.
    #[inline]
    pub fn row_of(&self, seat: &mut Seat, node: u32) -> Row
        requires table { IsOf seat.old self.now }
        requires held { has_node (view_of seat.old).held node ≡ true }
        ensures table { IsOf seat.new self.now }
        ensures known { known_of seat.new ≡ with_view (known_of seat.old) (row_loaded (view_of seat.old) node result) }
        ensures event { IsEvent (known_of seat.old) (Kind.LoadRow node) (view_of seat.new) }
    {
        let word = self
            .table
            .shared
            .load::<LoadsRow>(&mut seat.token, row_word(node));
        row_in(word)
    }

    /// Adds a reference of the seat's own to a node that it may pin, while it has fewer than 512 pins.
    #[inline]
    pub fn pin(&self, seat: &mut Seat, node: u32)
        requires table { IsOf seat.old self.now }
        requires may { MayPin (view_of seat.old) node }
        requires few { length (view_of seat.old).pins < 512 }
        ensures table { IsOf seat.new self.now }
        ensures known { known_of seat.new ≡ with_view (known_of seat.old) (pinned (view_of seat.old) node) }
        ensures event { IsEvent (known_of seat.old) (Kind.Pin node) (view_of seat.new) }
    {
        let _found = self
            .table
            .shared
            .fetch_add::<Pins>(&mut seat.token, count_word(node), 1);
    }

    /// Takes a pin back. True means that no reference to the node is left: a node that the seat knows as an AND or an
    /// alias is then on its zero list.
    #[inline]
    pub fn unpin(&self, seat: &mut Seat, node: u32) -> bool
        requires table { IsOf seat.old self.now }
        requires pinned { has_node (view_of seat.old).pins node ≡ true }
        ensures table { IsOf seat.new self.now }
        ensures known { Unpins (known_of seat.old) node result (known_of seat.new) }
        ensures event { IsUnpin (known_of seat.old) node result (view_of seat.new) }
    {
        let found = self
            .table
            .shared
            .fetch_sub::<TakesPinBack>(&mut seat.token, count_word(node), 1);
        found == 1
    }

    /// Loads the count of a held node: how often rows, observed literals and pins refer to it.
    #[inline]
    pub fn refs_of(&self, seat: &mut Seat, node: u32) -> u32
        requires table { IsOf seat.old self.now }
        requires held { has_node (view_of seat.old).held node ≡ true }
        ensures table { IsOf seat.new self.now }
        ensures known { known_of seat.new ≡ with_view (known_of seat.old) (count_loaded (nodes_of self.now) (view_of seat.old) node result) }
        ensures event { IsEvent (known_of seat.old) (Kind.LoadCount node) (view_of seat.new) }
    {
        let word = self
            .table
            .shared
            .load::<LoadsCount>(&mut seat.token, count_word(node));
        word as u32
    }

    /// Loads the key of a node that the seat holds or has pinned.
    #[inline]
    pub fn key_of(&self, seat: &mut Seat, node: u32) -> u64
        requires table { IsOf seat.old self.now }
        requires mine { is_mine (view_of seat.old) node ≡ true }
        ensures table { IsOf seat.new self.now }
        ensures known { known_of seat.new ≡ with_view (known_of seat.old) (key_loaded (view_of seat.old) node result) }
        ensures event { IsEvent (known_of seat.old) (Kind.LoadKey node) (view_of seat.new) }
    {
        self.table
            .shared
            .load::<LoadsKey>(&mut seat.token, key_word(node))
    }
}
