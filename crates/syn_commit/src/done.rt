//! What a commit stores behind the answer `Done`.

ghost use Rattle.std.specs.Prelude.{◌≡◌, ◌+◌, ◌-◌, ◌*◌, ◌/◌, ◌<◌, ◌≤◌, ◌++◌, ℕ, length, reverse, slice_index_or};
ghost use Rattle.syn_plan.specs.declared.TheConstants.{MAX_GATES};
ghost use Rattle.syn_decide.specs.declared.decisions.TheConstants.{MAX_INNER};
ghost use Rattle.syn_decide.specs.declared.decisions.NodeRow.{NodeRow};
ghost use Rattle.syn_decide.specs.Decided.{Done};
ghost use Rattle.syn_decide.specs.Fold.{Ended};
ghost use Rattle.syn_decide.specs.Tasks.{task_of};
ghost use Rattle.syn_decide.specs.Walk.{nodes_of as nodes_of_rows};
ghost use Rattle.syn_table.specs.Seating.{IsOf, known_of, nodes_of, view_of};
ghost use Rattle.syn_table.specs.Steps.{with_view};
ghost use Rattle.syn_commit.specs.Finishing.{new_row};
ghost use Rattle.syn_commit.specs.Giving.{IsHolding};
ghost use Rattle.syn_commit.specs.Making.{HasMade, IsReady};
ghost use Rattle.syn_commit.specs.Verdicts.{HasAnswered, IsDone, IsOver};

use crate::Hints;
use crate::readiness::met_leaves;
use crate::returns::{Holding, give_back, hold};
use crate::spare::Spare;
use crate::stores::{Spacing, make_rows, redefine_root, row_made};
use crate::trial::Verdict;
use arrayvec::ArrayVec;
use syn_decide::{Deciding, NewRows, NodeRow};
use syn_plan::MAX_GATES;
use syn_rows::Row;
use syn_table::{Seat, between};

/// What a commit stores.
#[derive(Debug, Drop)]
pub(crate) struct Stores {
    /// The rows of its new gates.
    pub(crate) rows: NewRows,
    /// The rows that it made.
    pub(crate) made: ArrayVec<NodeRow, MAX_GATES>,
}

impl Stores {
    /// Nothing.
    pub(crate) fn new() -> Stores {
        Stores {
            rows: NewRows::new(),
            made: ArrayVec::new(),
        }
    }
}

// How far apart the keys of so many rows lie between the two.
fn step_between(low: u64, need: u32, high: u64) -> u64
    requires { low + need < high }
    ensures even { result ≡ (high - low) / (need + 1) }
    ensures some { 1 ≤ result }
    ensures below { low + need * result < high }
{
    match between(low, need, high) {
        Some(step) => step,
        None => unreachable!(),
    }
}

// Makes a row for each new gate that needs one, in nodes of the pool, and answers the root's new row.
fn make_new(
    verdict: &Verdict<'_>,
    seat: &mut Seat,
    pool: &mut Spare,
    holding: &mut Holding,
    stores: &mut Stores,
) -> Row
    requires answered { HasAnswered verdict.now pool.old seat.old holding.old.pins.items }
    requires done { IsDone verdict.now.deciding.now.stage }
    requires giving { IsHolding pool.old holding.old (view_of seat.old) }
    requires room { length holding.old.gates.items + length holding.old.idle.items ≤ MAX_INNER + MAX_GATES }
    ensures table { IsOf seat.new verdict.now.shared.now }
    ensures known { known_of seat.new ≡ with_view (known_of seat.old) (view_of seat.new) }
    ensures giving { IsHolding pool.new holding.new (view_of seat.new) }
    ensures pins { holding.new.pins.items ≡ holding.old.pins.items }
    ensures pool { pool.old ≡ pool.new ++ reverse (nodes_of_rows stores.new.made.items) }
    ensures row { result ≡ new_row (task_of verdict.now.attempt) verdict.now.deciding.now stores.new.made.items }
    ensures made { HasMade (nodes_of verdict.now.shared.now) (task_of verdict.now.attempt) verdict.now.deciding.now stores.new.made.items (view_of seat.old) (view_of seat.new) }
    ensures ready { IsReady (task_of verdict.now.attempt) verdict.now.deciding.now stores.new.made.items (view_of seat.old) (view_of seat.new) }
{
    let shared = verdict.shared;
    shared.seats_reach_nodes(seat);
    verdict
        .deciding
        .new_rows(&verdict.attempt, &mut stores.rows);
    let low = verdict.deciding.low();
    let step = step_between(low, stores.rows.needed, verdict.deciding.high());
    make_rows(
        shared,
        seat,
        pool,
        holding,
        &stores.rows,
        Spacing { low, step },
        &mut stores.made,
    );
    shared.seats_reach_nodes(seat);
    row_made(stores.made.as_slice(), stores.rows.root)
}

// The root with its row: the first that the walk entered.
fn root_of(deciding: &Deciding) -> NodeRow
    requires { 1 ≤ length deciding.now.inner }
    ensures { (d : NodeRow) → result ≡ slice_index_or deciding.now.inner 0 d }
{
    deciding.inner()[0]
}

// Notes the rows that were made, by their pairs.
fn note_rows(hints: &Hints, made: &[NodeRow]) {
    for entry in made {
        if let Row::And(a, b) = entry.row {
            hints.note((a, b), entry.node);
        }
    }
}

/// What the answer `Done` stores: a row for each new gate that needs one, the root's, and free rows for what dies. Then all
/// pins are taken back, and what is left is let go.
pub(crate) fn store(
    verdict: &Verdict<'_>,
    seat: &mut Seat,
    pool: &mut Spare,
    holding: &mut Holding,
    stores: &mut Stores,
)
    requires answered { HasAnswered verdict.now pool.old seat.old holding.old.pins.items }
    requires done { IsDone verdict.now.deciding.now.stage }
    ensures { (gain : ℕ) → verdict.now.deciding.now.stage ≡ Ended (Done gain) → IsOver verdict.now (Done gain) pool.old seat.old seat.new pool.new }
{
    let shared = verdict.shared;
    shared.seats_reach_nodes(seat);
    hold(verdict.deciding, holding);
    let row = make_new(verdict, seat, pool, holding, stores);
    let root = root_of(verdict.deciding);
    let over = met_leaves(&verdict.attempt, verdict.deciding);
    redefine_root(shared, seat, pool, holding, root, row, over.as_slice());
    give_back(shared, seat, pool, holding);
    note_rows(verdict.hints, stores.made.as_slice());
}
