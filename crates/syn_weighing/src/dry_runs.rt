//! What a plan becomes, placed in room for a small one; told where each of its gates needs a row.

ghost use Rattle.std.specs.Prelude.{◌≡◌, ℕ, ◌+◌, ◌<◌, ◌≤◌, ◌^◌, None, Some, length, false, take, true, slice_index_or};
ghost use Rattle.syn_rows.specs.Joining as joining;
ghost use Rattle.syn_gain.specs.Lookups.{AreRowsBelow, ArePlaced};
ghost use Rattle.syn_gain.specs.Proposals.{replacement_of};
ghost use Rattle.syn_gain.specs.Uses.{IsUsesOf};
ghost use Rattle.syn_weighing.specs.declared.dry_runs.TheConstants.{MAX_INDEXES};
ghost use Rattle.syn_weighing.specs.Weighing as spec;

use syn_gain::{Candidate, PlacedPlan, RowsBelow, Uses};
use syn_graph::Graph;
use syn_plan::PLit;
use syn_rows::Lit;

/// How many indexes a plan has that is weighed: the constant, its leaves and its gates.
pub const MAX_INDEXES: usize = 24;

/// What a plan becomes that is weighed: room that is used again.
pub type DryRun = PlacedPlan<MAX_INDEXES>;

/// Room for what plans of so many leaves become, which stand for these nodes: their literals are the same for each plan.
pub fn dry_run_over(count: u8, leaves: &[u32]) -> DryRun
    requires few { count < MAX_INDEXES }
    requires low { (i : ℕ) → slice_index_or leaves.now i 0 < 2 ^ 31 }
    ensures { spec.BeginsWith count leaves.now result }
{
    let mut weighed = PlacedPlan::new();
    weighed.begin(count, leaves);
    weighed
}

// Whether the AND of two literals needs no row: they are of one node, or one is the constant's.
#[inline]
fn is_simple(x: Lit, y: Lit) -> bool
    ensures { result ≡ false → joining.simple_and x y ≡ None }
{
    let (first, second) = (x.node(), y.node());
    first == second || first == 0 || second == 0
}

// One gate of a plan: whether it needs a row.
fn dry_run_gate(below: &RowsBelow<'_>, gate: (PLit, PLit), weighed: &mut DryRun) -> bool
    requires stands { AreRowsBelow below.now.rows.now below.now.index.now below.now.root }
    requires room { length weighed.old.literals.items < MAX_INDEXES }
    requires small { length weighed.old.extra.items < length weighed.old.literals.items }
    requires placed { ArePlaced (length below.now.rows.now) weighed.old.literals.items weighed.old.extra.items }
    ensures told { result ≡ true → spec.dry_run_gate below.now.rows.now below.now.root (spec.weight_of weighed.old) gate ≡ Some (spec.weight_of weighed.new) }
    ensures count { result ≡ true → length weighed.new.literals.items ≡ length weighed.old.literals.items + 1 }
    ensures small { result ≡ true → length weighed.new.extra.items < length weighed.new.literals.items }
    ensures placed { result ≡ true → ArePlaced (length below.now.rows.now) weighed.new.literals.items weighed.new.extra.items }
    ensures first { (n : ℕ) → n ≤ length weighed.old.literals.items → take n weighed.new.literals.items ≡ take n weighed.old.literals.items }
{
    let (x, y) = weighed.pair(gate);
    if is_simple(x, y) {
        return false;
    }
    let literal = weighed.join(below, x, y);
    weighed.literals.push(literal);
    true
}

// The gates of a plan in order, until so many new rows stand: whether each needs a row.
fn dry_run_gates(
    below: &RowsBelow<'_>,
    gates: &[(PLit, PLit)],
    most: usize,
    weighed: &mut DryRun,
) -> bool
    requires stands { AreRowsBelow below.now.rows.now below.now.index.now below.now.root }
    requires room { length weighed.old.literals.items + length gates.now ≤ MAX_INDEXES }
    requires small { length weighed.old.extra.items < length weighed.old.literals.items }
    requires placed { ArePlaced (length below.now.rows.now) weighed.old.literals.items weighed.old.extra.items }
    ensures told { result ≡ true → spec.weigh_until below.now.rows.now below.now.root most gates.now (spec.weight_of weighed.old) ≡ Some (spec.weight_of weighed.new) }
    ensures few { result ≡ true → length weighed.new.extra.items < MAX_INDEXES }
    ensures first { (n : ℕ) → n ≤ length weighed.old.literals.items → take n weighed.new.literals.items ≡ take n weighed.old.literals.items }
{
    for gate in gates {
        if weighed.extra.len() >= most {
            return true;
        }
        if !dry_run_gate(below, *gate, weighed) {
            return false;
        }
    }
    true
}

/// What a plan for a node of a graph becomes, where its gates may be those of rows below another: whether it is told, which
/// it isn't of a large plan, nor of one some of whose gates need no row. Where `most` new rows stand, those behind them are
/// left out. The room has the literals of the plan's leaves.
pub fn dry_run(
    graph: &Graph,
    uses: &Uses,
    candidate: Candidate,
    node: u32,
    most: usize,
    weighed: &mut DryRun,
) -> bool
    requires uses { IsUsesOf uses.now graph.now }
    requires root { candidate.root < length graph.now.rows }
    requires low { node ≤ length graph.now.rows }
    requires leaves { candidate.root ≤ node }
    requires begins { spec.BeginsWith candidate.plan.now.leaves candidate.leaves.now weighed.old }
    ensures begins { spec.BeginsWith candidate.entry.plan.now.leaves candidate.entry.leaves.now weighed.new }
    ensures told { result ≡ true → spec.IsWeightUntil graph.now.rows node most (replacement_of candidate.entry) (spec.weight_of weighed.new) }
    ensures rows { result ≡ true → length weighed.new.extra.items < MAX_INDEXES }
    ensures few { result ≡ true → 1 + candidate.entry.plan.now.leaves + length candidate.entry.plan.now.gates.items ≤ MAX_INDEXES }
{
    let plan = candidate.plan;
    let gates = plan.gates.as_slice();
    if plan.leaves as usize + gates.len() >= MAX_INDEXES {
        return false;
    }
    weighed.literals.truncate(1 + plan.leaves as usize);
    weighed.extra.clear();
    let below = RowsBelow {
        rows: graph.rows.as_slice(),
        index: &uses.pairs,
        root: node,
    };
    dry_run_gates(&below, gates, most, weighed)
}
