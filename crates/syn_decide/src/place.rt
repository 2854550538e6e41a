//! What the gates of a plan become in a commit.

ghost use Rattle.std.specs.Prelude.{◌≡◌, ◌+◌, ◌-◌, ◌*◌, ◌<◌, ◌≤◌, All, IfSome, length, if◌then◌else◌};
ghost use Rattle.std.specs.List.{list_any};
ghost use Rattle.syn_rows.specs.declared.TheConstants.{NODE_LIMIT};
ghost use Rattle.syn_rows.specs.Rows.{node_of};
ghost use Rattle.syn_plan.specs.declared.TheConstants.{MAX_GATES};
ghost use Rattle.syn_gain.specs.Placing as placing;
ghost use Rattle.syn_decide.specs.Hints as spec;
ghost use Rattle.syn_decide.specs.Tasks.{task_of};

use crate::{Attempt, NodeRow};
use syn_gain::{Lookup, PlacedPlan, literal_for, root_row};
use syn_plan::{MAX_INDEXES, PLit};
use syn_rows::{Lit, NODE_LIMIT, Row};

/// What the plan of a commit becomes. It is some six thousand bytes, so it is filled in place and lent.
pub(crate) type Placed = PlacedPlan<MAX_INDEXES>;

/// The number of the first new gate of a plan: no table has a node of such a number.
pub const FIRST_NEW: u32 = NODE_LIMIT as u32;

fn is_new_gate(l: Lit) -> bool
    ensures { result ≡ spec.is_new_gate l }
{
    FIRST_NEW <= l.node()
}

// Whether the row is exactly this pair.
fn is_pair(a: Lit, b: Lit, row: Row) -> bool
    ensures { result ≡ spec.is_pair a b row }
{
    match row {
        Row::And(c, d) => a.0 == c.0 && b.0 == d.0,
        Row::Free | Row::Source | Row::Alias(_) => false,
    }
}

// Whether the row is the pair of the two literals, the smaller first.
fn is_pair_of(x: Lit, y: Lit, row: Row) -> bool
    ensures { result ≡ spec.is_pair_of x y row }
{
    if x.0 < y.0 {
        is_pair(x, y, row)
    } else {
        is_pair(y, x, row)
    }
}

// The literal of the first node whose row is the pair.
fn literal_listed(hits: &[NodeRow], x: Lit, y: Lit) -> Option<Lit>
    requires { All (λ h. h.node < NODE_LIMIT) hits.now }
    ensures literal { result ≡ spec.literal_listed hits.now x y }
    ensures there { IfSome result (λ l. node_of l < NODE_LIMIT) }
{
    for h in hits {
        if is_pair_of(x, y, h.row) {
            return Some(Lit::of(h.node, false));
        }
    }
    None
}

// The rows that hints hit.
#[derive(Clone, Copy, Debug)]
struct Hits<'a> {
    rows: &'a [NodeRow],
}

impl Lookup for Hits<'_> {
    ghost stands = { λ hits. All (λ h. h.node < NODE_LIMIT) hits.rows.now };

    ghost finds = { λ hits x y found. found ≡ spec.literal_hit hits.rows.now x y };

    ghost first = { λ hits. NODE_LIMIT };

    fn first_new(&self) -> u32 {
        FIRST_NEW
    }

    fn find(&self, x: Lit, y: Lit) -> Option<Lit> {
        literal_listed(self.rows, x, y)
    }
}

/// What the plan of an attempt becomes with these hits.
pub(crate) fn place(attempt: &Attempt<'_>, hits: &[NodeRow], placed: &mut Placed)
    requires { All (λ h. h.node < NODE_LIMIT) hits.now }
    ensures literals { placed.new.literals.items ≡ (spec.placed_by_hits (task_of attempt.now) hits.now).literals }
    ensures extra { placed.new.extra.items ≡ (spec.placed_by_hits (task_of attempt.now) hits.now).extra }
    ensures few { length placed.new.extra.items ≤ MAX_GATES }
{
    let candidate = attempt.candidate;
    let plan = candidate.plan;
    placed.begin(plan.leaves, candidate.leaves);
    let hits = Hits { rows: hits };
    let _ = placed.place_gates(&hits, plan.gates.as_slice(), u32::MAX);
}

/// The row that the root becomes, where the plan's output is this.
pub(crate) fn new_root(placed: &Placed, out: PLit) -> Row
    ensures { result ≡ placing.root_row spec.first_new placed.now.extra.items (placing.literal_for placed.now.literals.items out) }
{
    let literal = literal_for(placed.literals.as_slice(), out);
    root_row(FIRST_NEW, placed.extra.as_slice(), literal)
}

/// How many new gates need a row of their own, where the plan's output is this.
pub(crate) fn rows_needed(placed: &Placed, out: PLit) -> u32
    ensures { result ≡ length placed.now.extra.items - (if spec.is_last_new placed.now.extra.items (placing.literal_for placed.now.literals.items out) then 1 else 0) }
{
    let literal = literal_for(placed.literals.as_slice(), out);
    let count = placed.extra.len() as u32;
    if 0 < count && u64::from(literal.0) + 2 == 2 * (u64::from(FIRST_NEW) + u64::from(count)) {
        count - 1
    } else {
        count
    }
}

/// Whether a hint is asked for a row's pair, where these are the pairs of the new gates.
pub(crate) fn is_asked(extra: &[Row], row: Row) -> bool
    ensures { result ≡ spec.is_asked extra.now row }
{
    match row {
        Row::And(a, b) => !is_new_gate(a) && !is_new_gate(b) && has_pair(extra, a, b),
        Row::Free | Row::Source | Row::Alias(_) => false,
    }
}

// Whether one of the rows is this pair.
fn has_pair(rows: &[Row], a: Lit, b: Lit) -> bool
    ensures { result ≡ list_any (spec.is_pair a b) rows.now }
{
    for row in rows {
        if is_pair(a, b, *row) {
            return true;
        }
    }
    false
}
