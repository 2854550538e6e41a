//! What a plan adds to the table as it stands.

ghost use Rattle.std.specs.Prelude.{◌≡◌, ◌<◌, All, true};
ghost use Rattle.syn_rows.specs.declared.TheConstants.{NODE_LIMIT};

use syn_commit::Hints;
use syn_decide::FIRST_NEW;
use syn_gain::{Lookup, PlacedPlan, literal_for};
use syn_plan::Plan;
use syn_rows::{Lit, Row, has_node};
use syn_table::Shared;

// How many indexes a plan has that is looked at: the constant, its leaves and its gates.
const MAX_INDEXES: usize = 24;

// The rows of a table that hints find, as they stand: nothing is promised of them.
#[derive(Clone, Copy)]
struct TableRows<'a> {
    shared: &'a Shared,
    hints: &'a Hints,
}

impl Lookup for TableRows<'_> {
    ghost stands = { λ table. Unit {0} };

    ghost finds = { λ table x y found. Unit {0} };

    ghost first = { λ table. NODE_LIMIT };

    #[inline]
    fn first_new(&self) -> u32 {
        FIRST_NEW
    }

    #[inline]
    fn find(&self, x: Lit, y: Lit) -> Option<Lit> {
        let pair = if x.0 < y.0 { (x, y) } else { (y, x) };
        let node = self.hints.suggest(pair);
        if node == 0 || node >= self.shared.nodes() || node >= FIRST_NEW {
            return None;
        }
        let (row, _count) = self.shared.peek(node);
        if row == Row::And(pair.0, pair.1) {
            Some(Lit::of(node, false))
        } else {
            None
        }
    }
}

// Whether these may be nodes of a table.
fn are_nodes(nodes: &[u32]) -> bool
    ensures { result ≡ true → All (λ n. n < NODE_LIMIT) nodes.now }
{
    for node in nodes {
        if *node >= FIRST_NEW {
            return false;
        }
    }
    true
}

// Whether the last gate became a row that goes.
fn last_goes(placed: &PlacedPlan<MAX_INDEXES>, going: &[u32]) -> bool {
    match placed.literals.last() {
        Some(literal) => has_node(going, literal.node()),
        None => false,
    }
}

/// How many rows a plan over leaves adds, where it may use any row that stays; none where these are more than `most`, or
/// where the plan becomes the root itself, which is the first of those that go.
pub(crate) fn added(
    shared: &Shared,
    hints: &Hints,
    leaves: &[u32],
    plan: &Plan,
    going: &[u32],
    most: usize,
) -> Option<usize> {
    let gates = plan.gates.as_slice();
    if plan.leaves as usize + gates.len() >= MAX_INDEXES || !are_nodes(leaves) {
        return None;
    }
    let rows = TableRows { shared, hints };
    let mut placed = PlacedPlan::<MAX_INDEXES>::new();
    placed.begin(plan.leaves, leaves);
    let mut made_again = 0;
    for gate in gates {
        placed.place_gate(&rows, *gate);
        if last_goes(&placed, going) {
            made_again += 1;
        }
        if placed.extra.len() + made_again > most {
            return None;
        }
    }
    let out = literal_for(placed.literals.as_slice(), plan.out);
    if going.first() == Some(&out.node()) {
        None
    } else {
        Some(placed.extra.len() + made_again)
    }
}
