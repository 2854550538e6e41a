//! What a commit gives back at its end: its pins, rows to which nobody refers any more, and the nodes that it took.

ghost use Rattle.std.specs.Prelude.{◌≡◌, ℕ, ◌+◌, ◌*◌, ◌<◌, ◌≤◌, ◌++◌, ◌∷◌, [], false, length, slice_index_or, true, IfNone, IfSome};
ghost use Rattle.std.specs.List.{remove};
ghost use Rattle.syn_rows.specs.Rows.{refs_of};
ghost use Rattle.syn_rows.specs.Nodes.{has_node};
ghost use Rattle.syn_core_laws.specs.declared.EventKind.TheVariants as Kind;
ghost use Rattle.syn_plan.specs.declared.TheConstants.{MAX_GATES};
ghost use Rattle.syn_decide.specs.declared.decisions.TheConstants.{MAX_INNER};
ghost use Rattle.syn_decide.specs.declared.decisions.NodeRow.{NodeRow};
ghost use Rattle.syn_decide.specs.Decided.{Answer, Done};
ghost use Rattle.syn_decide.specs.Walk.{nodes_of as nodes_of_rows};
ghost use Rattle.syn_table.specs.Seating.{IsOf, known_of, nodes_of, view_of};
ghost use Rattle.syn_table.specs.Steps.{with_view};
ghost use Rattle.syn_commit_laws.specs.Turning.{Turns};
ghost use Rattle.syn_commit.specs.Giving.{Gives, HasGivenBack, HoldsAlone, IsGiving, IsHolding, IsLetGo, with_gate, with_gates, work_left};
ghost use Rattle.syn_commit.specs.Verdicts.{HasAnswered, IsOver};

use crate::loaded::MAX_PINS;
use crate::spare::Spare;
use crate::trial::Verdict;
use arrayvec::ArrayVec;
use syn_decide::{Deciding, NodeRow};
use syn_rows::Row;
use syn_table::{Seat, Shared};

/// The most gates that a commit holds.
pub(crate) const MAX_HELD: usize = 1024;

/// What a seat has beside its pool while it gives back.
#[derive(Debug, Drop)]
pub(crate) struct Holding {
    /// Its pins.
    pub(crate) pins: ArrayVec<u32, MAX_PINS>,
    /// The gates that it holds and knows.
    pub(crate) gates: ArrayVec<NodeRow, MAX_HELD>,
    /// The gates on its zero list.
    pub(crate) idle: ArrayVec<NodeRow, MAX_HELD>,
}

impl Holding {
    /// Nothing is held.
    pub(crate) fn new() -> Holding {
        Holding {
            pins: ArrayVec::new(),
            gates: ArrayVec::new(),
            idle: ArrayVec::new(),
        }
    }
}

/// Where the node stands among the rows.
pub(crate) fn place_of(rows: &[NodeRow], node: u32) -> Option<usize>
    ensures none { IfNone result (has_node (nodes_of_rows rows.now) node ≡ false) }
    ensures there { IfSome result (λ i. has_node (nodes_of_rows rows.now) node ≡ true) }
    ensures within { IfSome result (λ i. i < length rows.now) }
    ensures node { IfSome result (λ i. (r : NodeRow) → (slice_index_or rows.now i r).node ≡ node) }
{
    for (i, r) in rows.iter().enumerate() {
        if r.node == node {
            return Some(i);
        }
    }
    None
}

/// Whether the node stands among the rows.
pub(crate) fn has_gate(rows: &[NodeRow], node: u32) -> bool
    ensures { result ≡ has_node (nodes_of_rows rows.now) node }
{
    place_of(rows, node).is_some()
}

// A gate joins those on the zero list.
fn set_idle(holding: &mut Holding, place: usize)
    requires within { place < length holding.old.gates.items }
    requires room { length holding.old.gates.items + length holding.old.idle.items ≤ MAX_HELD }
    ensures gates { holding.new.gates.items ≡ remove holding.old.gates.items place }
    ensures idle { (e : NodeRow) × (e ≡ slice_index_or holding.old.gates.items place e) × (holding.new.idle.items ≡ holding.old.idle.items ++ e ∷ []) }
    ensures size { length holding.new.gates.items + 1 ≡ length holding.old.gates.items }
    ensures pins { holding.new.pins.items ≡ holding.old.pins.items }
{
    let gate = holding.gates.remove(place);
    holding.idle.push(gate);
}

// Takes a pin back. A gate to which nothing refers any more is then on the zero list.
fn unpin(shared: &Shared, seat: &mut Seat, pool: &Spare, holding: &mut Holding, pin: u32)
    requires table { IsOf seat.old shared.now }
    requires giving { IsGiving pool.now (holding.old.pins.items ++ pin ∷ []) holding.old.gates.items holding.old.idle.items (view_of seat.old) }
    ensures table { IsOf seat.new shared.now }
    ensures known { known_of seat.new ≡ with_view (known_of seat.old) (view_of seat.new) }
    ensures giving { IsHolding pool.now holding.new (view_of seat.new) }
    ensures turns { Turns (nodes_of shared.now) (view_of seat.old) (Kind.Unpin pin) (view_of seat.new) }
    ensures pins { holding.new.pins.items ≡ holding.old.pins.items }
    ensures size { length holding.new.gates.items + length holding.new.idle.items ≡ length holding.old.gates.items + length holding.old.idle.items }
{
    let _ = pool;
    shared.seats_reach_nodes(seat);
    if !shared.unpin(seat, pin) {
        return;
    }
    let Some(place) = place_of(holding.gates.as_slice(), pin) else {
        return;
    };
    set_idle(holding, place);
}

/// The nodes of a row become pins.
pub(crate) fn add_refs(pins: &mut ArrayVec<u32, MAX_PINS>, row: Row)
    requires { length pins.old.items + 2 ≤ 512 }
    ensures { pins.new.items ≡ pins.old.items ++ refs_of row }
{
    match row {
        Row::Free | Row::Source => (),
        Row::And(a, b) => {
            pins.push(a.node());
            pins.push(b.node());
        }
        Row::Alias(a) => pins.push(a.node()),
    }
}

// Frees a gate of the zero list: its node joins the pool, or is let go where the pool is full. What its row referred to
// is pinned.
fn free(shared: &Shared, seat: &mut Seat, pool: &mut Spare, holding: &mut Holding, gate: NodeRow)
    requires table { IsOf seat.old shared.now }
    requires giving { IsGiving pool.old [] holding.old.gates.items (holding.old.idle.items ++ gate ∷ []) (view_of seat.old) }
    requires none { holding.old.pins.items ≡ [] }
    ensures table { IsOf seat.new shared.now }
    ensures known { known_of seat.new ≡ with_view (known_of seat.old) (view_of seat.new) }
    ensures giving { IsHolding pool.new holding.new (view_of seat.new) }
    ensures gives { Gives (nodes_of shared.now) (view_of seat.old) pool.old (view_of seat.new) pool.new }
    ensures pins { holding.new.pins.items ≡ refs_of gate.row }
    ensures size { length holding.new.gates.items + length holding.new.idle.items ≡ length holding.old.gates.items + length holding.old.idle.items }
{
    shared.seats_reach_nodes(seat);
    shared.free(seat, gate.node);
    add_refs(&mut holding.pins, gate.row);
    pool.take_in(shared, seat, gate.node);
}

// Takes a pin back, or frees a gate of the zero list where no pin is left. False where neither is left.
fn give_one(shared: &Shared, seat: &mut Seat, pool: &mut Spare, holding: &mut Holding) -> bool
    requires table { IsOf seat.old shared.now }
    requires giving { IsHolding pool.old holding.old (view_of seat.old) }
    ensures table { IsOf seat.new shared.now }
    ensures known { known_of seat.new ≡ with_view (known_of seat.old) (view_of seat.new) }
    ensures giving { IsHolding pool.new holding.new (view_of seat.new) }
    ensures gives { Gives (nodes_of shared.now) (view_of seat.old) pool.old (view_of seat.new) pool.new }
    ensures less { result ≡ true → work_left holding.new.pins.items holding.new.gates.items holding.new.idle.items < work_left holding.old.pins.items holding.old.gates.items holding.old.idle.items }
    ensures over { result ≡ false → (holding.new.pins.items ≡ []) × (holding.new.idle.items ≡ []) }
{
    if let Some(pin) = holding.pins.pop() {
        unpin(shared, seat, pool, holding, pin);
        return true;
    }
    let Some(gate) = holding.idle.pop() else {
        return false;
    };
    free(shared, seat, pool, holding, gate);
    true
}

/// Takes all pins back, and frees what nobody refers to any more, until no pin is left and nothing is on the zero list.
pub(crate) fn drain(shared: &Shared, seat: &mut Seat, pool: &mut Spare, holding: &mut Holding)
    requires table { IsOf seat.old shared.now }
    requires giving { IsHolding pool.old holding.old (view_of seat.old) }
    ensures table { IsOf seat.new shared.now }
    ensures known { known_of seat.new ≡ with_view (known_of seat.old) (view_of seat.new) }
    ensures giving { IsGiving pool.new [] holding.new.gates.items [] (view_of seat.new) }
    ensures gives { Gives (nodes_of shared.now) (view_of seat.old) pool.old (view_of seat.new) pool.new }
{
    while give_one(shared, seat, pool, holding) {}
}

/// Lets the gates go that are left, when there is no pin and nothing on the zero list.
pub(crate) fn let_go(shared: &Shared, seat: &mut Seat, pool: &Spare, holding: &mut Holding)
    requires table { IsOf seat.old shared.now }
    requires giving { IsGiving pool.now [] holding.old.gates.items [] (view_of seat.old) }
    ensures table { IsOf seat.new shared.now }
    ensures known { known_of seat.new ≡ with_view (known_of seat.old) (view_of seat.new) }
    ensures giving { IsGiving pool.now [] [] [] (view_of seat.new) }
    ensures let_go { IsLetGo (view_of seat.old) (view_of seat.new) }
{
    let _ = pool;
    while let Some(gate) = holding.gates.pop() {
        shared.seats_reach_nodes(seat);
        shared.release(seat, gate.node);
    }
}

// Adds a gate, if its node isn't there yet.
fn add_gate(gates: &mut ArrayVec<NodeRow, MAX_HELD>, gate: NodeRow)
    requires { length gates.old.items < MAX_HELD }
    ensures { gates.new.items ≡ with_gate gates.old.items gate }
{
    if !has_gate(gates.as_slice(), gate.node) {
        gates.push(gate);
    }
}

// Adds the gates whose nodes aren't there yet.
fn add_gates(gates: &mut ArrayVec<NodeRow, MAX_HELD>, rows: &[NodeRow])
    requires room { length gates.old.items + length rows.now ≤ MAX_HELD }
    ensures gates { gates.new.items ≡ with_gates gates.old.items rows.now }
    ensures few { length gates.new.items ≤ length gates.old.items + length rows.now }
{
    for row in rows {
        add_gate(gates, *row);
    }
}

/// What a commit has beside its pins, by its decision: nothing is on the zero list.
pub(crate) fn hold(deciding: &Deciding, holding: &mut Holding)
    ensures pins { holding.new.pins.items ≡ holding.old.pins.items }
    ensures gates { holding.new.gates.items ≡ with_gates (with_gates [] deciding.now.inner) deciding.now.hits }
    ensures idle { holding.new.idle.items ≡ [] }
    ensures few { length holding.new.gates.items ≤ MAX_INNER + MAX_GATES }
{
    holding.idle.clear();
    holding.gates.clear();
    add_gates(&mut holding.gates, deciding.inner());
    add_gates(&mut holding.gates, deciding.hits());
}

/// Takes all pins back, frees what nobody refers to any more, and lets the gates go that are left.
pub(crate) fn give_back(shared: &Shared, seat: &mut Seat, pool: &mut Spare, holding: &mut Holding)
    requires table { IsOf seat.old shared.now }
    requires giving { IsHolding pool.old holding.old (view_of seat.old) }
    ensures table { IsOf seat.new shared.now }
    ensures known { known_of seat.new ≡ with_view (known_of seat.old) (view_of seat.new) }
    ensures alone { HoldsAlone pool.new (view_of seat.new) }
    ensures given { HasGivenBack (nodes_of shared.now) (view_of seat.old) pool.old (view_of seat.new) pool.new }
{
    drain(shared, seat, pool, holding);
    shared.seats_reach_nodes(seat);
    let_go(shared, seat, pool, holding);
}

/// A commit gives up: it takes its pins back, frees what nobody refers to any more, and lets the other nodes go that it
/// took. It is over with any answer but `Done`.
pub(crate) fn give_up(
    verdict: &Verdict<'_>,
    seat: &mut Seat,
    pool: &mut Spare,
    holding: &mut Holding,
)
    requires { HasAnswered verdict.now pool.old seat.old holding.old.pins.items }
    ensures { (answer : Answer) → ((gain : ℕ) → answer ≡ Done gain → ⊥) → IsOver verdict.now answer pool.old seat.old seat.new pool.new }
{
    verdict.shared.seats_reach_nodes(seat);
    hold(verdict.deciding, holding);
    give_back(verdict.shared, seat, pool, holding);
}
