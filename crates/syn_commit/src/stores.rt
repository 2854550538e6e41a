//! The stores of a commit: a row for each of its new gates, and then the root's.

ghost use Rattle.std.specs.Prelude.{◌≡◌, ℕ, suc, ◌+◌, ◌*◌, ◌^◌, ◌<◌, ◌≤◌, ◌++◌, ◌∷◌, [], true, length, reverse, slice_index_or, Some};
ghost use Rattle.std.specs.List.{remove};
ghost use Rattle.syn_rows.specs.Rows.{AllRefs, is_derived, refs_of};
ghost use Rattle.syn_core_laws.specs.Events.{IsAnd, MayPin};
ghost use Rattle.syn_core_laws.specs.SameValue.{SameValue};
ghost use Rattle.syn_core_laws.specs.Views.{known_row, pinned};
ghost use Rattle.syn_plan.specs.declared.TheConstants.{MAX_GATES};
ghost use Rattle.syn_decide.specs.declared.decisions.TheConstants.{MAX_INNER};
ghost use Rattle.syn_decide.specs.declared.decisions.NodeRow.{NodeRow};
ghost use Rattle.syn_decide.specs.Walk.{nodes_of as nodes_of_rows};
ghost use Rattle.syn_table.specs.Seating.{IsOf, known_of, nodes_of, view_of};
ghost use Rattle.syn_table.specs.Steps.{with_view};
ghost use Rattle.syn_commit_laws.specs.Redefining as redefining;
ghost use Rattle.syn_commit_laws.specs.Turning.{TurnsAll};
ghost use Rattle.syn_commit.specs.Giving.{IsHolding};
ghost use Rattle.syn_commit.specs.Storing as spec;
ghost use Rattle.syn_commit.specs.Storing.{AreMade, AreNewRows, KeepsKnown, MayReferTo, MayStandAt, RedefinesRow, makes_row, makes_rows, with_pins, with_row};

use crate::returns::{Holding, MAX_HELD, add_refs, place_of};
use crate::spare::Spare;
use arrayvec::ArrayVec;
use syn_decide::{FIRST_NEW, NewRows, NodeRow};
use syn_plan::MAX_GATES;
use syn_rows::{Lit, Row, ordered_and};
use syn_table::{Seat, Shared};

// A gate of the zero list is referred to again.
fn set_busy(holding: &mut Holding, place: usize)
    requires within { place < length holding.old.idle.items }
    requires room { length holding.old.gates.items + length holding.old.idle.items ≤ MAX_HELD }
    ensures idle { holding.new.idle.items ≡ remove holding.old.idle.items place }
    ensures gates { (e : NodeRow) × (e ≡ slice_index_or holding.old.idle.items place e) × (holding.new.gates.items ≡ holding.old.gates.items ++ e ∷ []) }
    ensures size { length holding.new.idle.items + 1 ≡ length holding.old.idle.items }
    ensures pins { holding.new.pins.items ≡ holding.old.pins.items }
{
    let gate = holding.idle.remove(place);
    holding.gates.push(gate);
}

// Pins a node for one place of a row to come.
fn pin_place(shared: &Shared, seat: &mut Seat, pool: &Spare, holding: &mut Holding, node: u32)
    requires table { IsOf seat.old shared.now }
    requires giving { IsHolding pool.now holding.old (view_of seat.old) }
    requires may { MayPin (view_of seat.old) node }
    requires few { length holding.old.pins.items < 512 }
    ensures table { IsOf seat.new shared.now }
    ensures known { known_of seat.new ≡ with_view (known_of seat.old) (pinned (view_of seat.old) node) }
    ensures giving { IsHolding pool.now holding.new (view_of seat.new) }
    ensures pins { holding.new.pins.items ≡ holding.old.pins.items ++ node ∷ [] }
    ensures size { length holding.new.gates.items + length holding.new.idle.items ≡ length holding.old.gates.items + length holding.old.idle.items }
{
    let _ = pool;
    shared.pin(seat, node);
    holding.pins.push(node);
    let Some(place) = place_of(holding.idle.as_slice(), node) else {
        return;
    };
    set_busy(holding, place);
}

// Pins each node to which a row to come refers, once for each place.
fn pin_places(shared: &Shared, seat: &mut Seat, pool: &Spare, holding: &mut Holding, row: Row)
    requires table { IsOf seat.old shared.now }
    requires giving { IsHolding pool.now holding.old (view_of seat.old) }
    requires may { AllRefs (MayPin (view_of seat.old)) row }
    requires few { length holding.old.pins.items + 2 ≤ 512 }
    ensures table { IsOf seat.new shared.now }
    ensures known { known_of seat.new ≡ with_view (known_of seat.old) (with_pins (refs_of row) (view_of seat.old)) }
    ensures giving { IsHolding pool.now holding.new (view_of seat.new) }
    ensures pins { holding.new.pins.items ≡ holding.old.pins.items ++ refs_of row }
    ensures size { length holding.new.gates.items + length holding.new.idle.items ≡ length holding.old.gates.items + length holding.old.idle.items }
{
    match row {
        Row::Free | Row::Source => (),
        Row::And(a, b) => {
            pin_place(shared, seat, pool, holding, a.node());
            pin_place(shared, seat, pool, holding, b.node());
        }
        Row::Alias(a) => pin_place(shared, seat, pool, holding, a.node()),
    }
}

// Makes a row in a node of the pool, which the pool loses.
fn make_one(
    shared: &Shared,
    seat: &mut Seat,
    pool: &mut Spare,
    holding: &mut Holding,
    row: Row,
    key: u64,
) -> u32
    requires table { IsOf seat.old shared.now }
    requires giving { IsHolding pool.old holding.old (view_of seat.old) }
    requires row { IsAnd row }
    requires may { AllRefs (MayReferTo (view_of seat.old) key) row }
    requires some { 1 ≤ length pool.old }
    requires few { length holding.old.pins.items + 2 ≤ 512 }
    requires room { length holding.old.gates.items + length holding.old.idle.items < MAX_HELD }
    ensures table { IsOf seat.new shared.now }
    ensures known { known_of seat.new ≡ with_view (known_of seat.old) (view_of seat.new) }
    ensures turns { TurnsAll (nodes_of shared.now) (view_of seat.old) (makes_row result row key) (view_of seat.new) }
    ensures keeps { KeepsKnown (view_of seat.old) (view_of seat.new) }
    ensures keyed { MayReferTo (view_of seat.new) (suc key) result }
    ensures row { known_row (view_of seat.new) result ≡ Some row }
    ensures giving { IsHolding pool.new holding.new (view_of seat.new) }
    ensures pool { pool.old ≡ pool.new ++ result ∷ [] }
    ensures pins { holding.new.pins.items ≡ holding.old.pins.items }
    ensures size { length holding.new.gates.items + length holding.new.idle.items ≡ length holding.old.gates.items + length holding.old.idle.items + 1 }
{
    shared.seats_reach_nodes(seat);
    let before = holding.pins.len();
    pin_places(shared, seat, pool, holding, row);
    let node = pool.take();
    shared.make(seat, node, row, key);
    holding.pins.truncate(before);
    holding.idle.push(NodeRow { node, row });
    node
}

/// How the keys of the rows that are made lie: a step apart, behind `low`.
#[derive(Clone, Copy, Debug)]
pub(crate) struct Spacing {
    /// The greatest key below.
    pub(crate) low: u64,
    /// How far apart two keys lie.
    pub(crate) step: u64,
}

// The node at a place of the list, 0 past its end.
fn node_at(rows: &[NodeRow], place: usize) -> u32
    ensures { result ≡ spec.node_at rows.now place }
{
    if place < rows.len() {
        rows[place].node
    } else {
        0
    }
}

// A literal where its node is: that of a new gate is at the gate's place of the list.
fn literal_made(made: &[NodeRow], l: Lit) -> Lit
    requires { (i : ℕ) → spec.node_at made.now i < 2 ^ 31 }
    ensures { result ≡ redefining.literal_made (nodes_of_rows made.now) l }
{
    if l.node() < FIRST_NEW {
        return l;
    }
    let node = node_at(made, (l.node() - FIRST_NEW) as usize);
    Lit::of(node, l.complemented())
}

/// A new row as it is stored.
pub(crate) fn row_made(made: &[NodeRow], row: Row) -> Row
    requires { (i : ℕ) → spec.node_at made.now i < 2 ^ 31 }
    ensures { result ≡ redefining.row_made (nodes_of_rows made.now) row }
{
    match row {
        Row::Free | Row::Source => row,
        Row::And(a, b) => ordered_and(literal_made(made, a), literal_made(made, b)),
        Row::Alias(a) => Row::Alias(literal_made(made, a)),
    }
}

/// Makes the first of the rows, as many as are needed, in nodes of the pool, and lists them in order. Their keys are a step
/// apart, from `low` on.
pub(crate) fn make_rows(
    shared: &Shared,
    seat: &mut Seat,
    pool: &mut Spare,
    holding: &mut Holding,
    rows: &NewRows,
    spacing: Spacing,
    made: &mut ArrayVec<NodeRow, MAX_GATES>,
)
    requires table { IsOf seat.old shared.now }
    requires giving { IsHolding pool.old holding.old (view_of seat.old) }
    requires rows { AreNewRows (view_of seat.old) spacing.low rows.now.needed rows.now.rows.items }
    requires there { rows.now.needed ≤ length rows.now.rows.items }
    requires pool { rows.now.needed ≤ length pool.old }
    requires step { 1 ≤ spacing.step }
    requires keys { spacing.low + rows.now.needed * spacing.step < 2 ^ 64 }
    requires few { length holding.old.pins.items + 2 ≤ 512 }
    requires room { length holding.old.gates.items + length holding.old.idle.items ≤ MAX_INNER + MAX_GATES }
    ensures table { IsOf seat.new shared.now }
    ensures known { known_of seat.new ≡ with_view (known_of seat.old) (view_of seat.new) }
    ensures turns { TurnsAll (nodes_of shared.now) (view_of seat.old) (makes_rows spacing.low spacing.step 0 made.new.items) (view_of seat.new) }
    ensures keeps { KeepsKnown (view_of seat.old) (view_of seat.new) }
    ensures made { AreMade spacing.low spacing.step rows.now.rows.items made.new.items (view_of seat.new) }
    ensures count { length made.new.items ≡ rows.now.needed }
    ensures giving { IsHolding pool.new holding.new (view_of seat.new) }
    ensures pool { pool.old ≡ pool.new ++ reverse (nodes_of_rows made.new.items) }
    ensures pins { holding.new.pins.items ≡ holding.old.pins.items }
{
    made.clear();
    let list = rows.rows.as_slice();
    let mut key = spacing.low;
    for i in 0..rows.needed {
        shared.seats_reach_nodes(seat);
        key += spacing.step;
        let row = row_made(made.as_slice(), list[i as usize]);
        let node = make_one(shared, seat, pool, holding, row, key);
        made.push(NodeRow { node, row });
    }
}

// The node's gate has this row now.
fn set_row(gates: &mut ArrayVec<NodeRow, MAX_HELD>, node: u32, row: Row)
    ensures gates { gates.new.items ≡ with_row node row gates.old.items }
    ensures size { length gates.new.items ≡ length gates.old.items }
{
    for i in 0..gates.len() {
        if gates.as_slice()[i].node == node {
            gates.as_mut_slice()[i] = NodeRow { node, row };
        }
    }
}

/// Gives the root its new row, which has the old one's value over these nodes: a pin for each place, and then the row.
/// What the old row referred to is pinned.
pub(crate) fn redefine_root(
    shared: &Shared,
    seat: &mut Seat,
    pool: &Spare,
    holding: &mut Holding,
    root: NodeRow,
    row: Row,
    over: &[u32],
)
    requires table { IsOf seat.old shared.now }
    requires giving { IsHolding pool.now holding.old (view_of seat.old) }
    requires root { known_row (view_of seat.old) root.node ≡ Some root.row }
    requires was { is_derived root.row ≡ true }
    requires gate { is_derived row ≡ true }
    requires may { MayStandAt (view_of seat.old) root.node row }
    requires over { length over.now ≤ 8 }
    requires same { SameValue (view_of seat.old) over.now root.row row }
    requires few { length holding.old.pins.items + 4 ≤ 512 }
    ensures table { IsOf seat.new shared.now }
    ensures known { known_of seat.new ≡ with_view (known_of seat.old) (view_of seat.new) }
    ensures turns { RedefinesRow (nodes_of shared.now) (view_of seat.old) root.node row (view_of seat.new) }
    ensures row { known_row (view_of seat.new) root.node ≡ Some row }
    ensures giving { IsHolding pool.now holding.new (view_of seat.new) }
    ensures pins { holding.new.pins.items ≡ holding.old.pins.items ++ refs_of root.row }
{
    shared.seats_reach_nodes(seat);
    let before = holding.pins.len();
    pin_places(shared, seat, pool, holding, row);
    shared.redefine(seat, root.node, row, over);
    holding.pins.truncate(before);
    add_refs(&mut holding.pins, root.row);
    set_row(&mut holding.gates, root.node, row);
    set_row(&mut holding.idle, root.node, row);
}
